//! Books of nodes that hold plain elements.
ghost use Rattle.std.specs.Prelude.{◌≡◌, ℕ, ◌^◌, ◌-◌, ◌<◌, IfOk, OnOk, IsSome, MatchBool, MatchOption, None, Some, replicate};
ghost use Rattle.bio_books.specs.Books.{BookState, parent_of, node_at, with_node};
ghost use Rattle.bio_books.specs.Links.{Made, IsVacant, Chains, Masters, Legs};
ghost use Rattle.plain_core.specs.objects.Books.{IsClosedAt, IsEndTold, IsKeptAt, IsLoweredAt, IsRaisedAt, OpensIfVacant, OpensSo};
ghost use Rattle.plain_core.specs.objects.Lists.{lists_of, ListsHaveCapacity};
ghost use Rattle.plain_core.specs.objects.Questions.{IsDecisionOf, TellsCount};

use crate::fault::CoreFault;
use crate::objects::lists::Lists;
use crate::objects::node::{Closed, Node};
use crate::objects::part::{PlainBioElement, Slip, Vector};
use bio_books::{Role, parent_of};
use stack_base::Status;
use std::alloc::{AllocError, Global};
use std::marker::Model;
use task_core::End;

/// What an end made of an open node.
#[derive(Drop)]
pub enum NodeOutcome {
    /// It waits for others.
    Left,
    /// It closed, and is to be told to its parent.
    Up(Closed),
    /// It closed, and its write with it.
    Top(Closed),
}

/// The nodes of a writer's writes, each at a place.
#[derive(Drop)]
pub struct Book {
    writer: u32,
    nodes: Vec<Option<Node>>,
    // At how many places no node is open, so that whether there is one is no search (`has_place`).
    vacant: usize,
}

impl Model for Book {
    ghost use Rattle.std.specs.Prelude.{◌≡◌, count_by, is_none};
    ghost use Rattle.bio_books.specs.Books.{BookState};

    ghost Value = { BookState };

    ghost view = { λ b. record { writer = b.writer; nodes = b.nodes.items } };

    ghost invariant = { λ b. count_by is_none b.nodes.items ≡ b.vacant };
}

impl Book {
    /// A book of so many places, in which no node is open.
    ///
    /// # Errors
    /// Where there is no memory.
    pub fn open(alloc: Global, writer: u32, places: u32) -> Result<Book, AllocError>
        ensures { IfOk result (λ book. book ≡ record { writer = writer; nodes = replicate places None }) }
    {
        let mut nodes = Vec::with_capacity(alloc, places as usize)?;
        for _ in 0..places {
            nodes.push(None)?;
        }
        Ok(Book {
            writer,
            nodes,
            vacant: places as usize,
        })
    }

    // The node at a place, if one is open there.
    fn node(&self, place: u32) -> Option<&Node>
        ensures { MatchOption result (node_at self.now place ≡ None) (λ node. node_at self.now place ≡ Some node.now) }
    {
        match self.nodes.get(place as usize) {
            Some(Some(node)) => Some(node),
            _ => None,
        }
    }

    // The node at a place waits for one end more.
    fn raise(&mut self, place: u32)
        requires { IsSome (node_at self.old place) }
        ensures { IsRaisedAt self.old place self.new }
    {
        let Some(slot) = self.nodes.get_mut(place as usize) else {
            unreachable!()
        };
        let Some(node) = slot else { unreachable!() };
        node.raise();
    }

    // The node at a place is told of an end, and waits for others.
    fn lower(&mut self, place: u32, status: Status, part: Option<PlainBioElement>)
        requires { IsSome (node_at self.old place) }
        ensures { IsLoweredAt self.old place status part self.new }
    {
        let Some(slot) = self.nodes.get_mut(place as usize) else {
            unreachable!()
        };
        let Some(node) = slot else { unreachable!() };
        node.tell(status, part);
        node.count = node.count.saturating_sub(1);
    }

    // The node at a place is told of an end and closes, whatever it waited for: `tell` looks at the count.
    fn close(&mut self, place: u32, status: Status, part: Option<PlainBioElement>) -> Closed
        requires { IsSome (node_at self.old place) }
        ensures { IsClosedAt self.old place status part result self.new }
    {
        let Some(slot) = self.nodes.get_mut(place as usize) else {
            unreachable!()
        };
        let Some(node) = slot.take() else {
            unreachable!()
        };
        self.vacant += 1;
        node.told(status, part).close()
    }

    // The node at this place keeps this part, in place of one that it kept.
    fn keep(&mut self, place: u32, part: &PlainBioElement)
        requires { IsSome (node_at self.old place) }
        ensures { IsKeptAt self.old place part.now self.new }
    {
        let Some(slot) = self.nodes.get_mut(place as usize) else {
            unreachable!()
        };
        let Some(node) = slot else { unreachable!() };
        node.keep(part);
    }

    /// How many ends the node at a place waits for, if one is open there.
    pub fn count_at(&self, place: u32) -> Option<u64>
        ensures { TellsCount result (node_at self.now place) }
    {
        match self.nodes.get(place as usize) {
            Some(Some(node)) => Some(node.count),
            _ => None,
        }
    }

    /// Whether no node is open at some place.
    pub fn has_place(&self) -> bool
        ensures { IsDecisionOf result ((place : ℕ) × IsVacant self.now place) }
    {
        self.vacant > 0
    }

    // Whether no node is open at a place of the book.
    fn is_vacant(&self, place: u32) -> bool
        ensures { MatchBool result (IsVacant self.now place) (IsVacant self.now place → ⊥) }
    {
        matches!(self.nodes.get(place as usize), Some(None))
    }

    // A node is opened at a vacant place.
    #[tactic(auto, using(crate::proofs::object_lemmas::Vacancies::filled))]
    fn put(&mut self, place: u32, node: Node)
        requires { IsVacant self.old place }
        ensures { self.new ≡ with_node self.old place (Some node) }
    {
        self.nodes[place as usize] = Some(node);
        self.vacant -= 1;
    }

    /// Opens the node of a write at this place, where it is vacant.
    pub fn open_write(&mut self, write: u32, vector: Option<Vector>, place: u32) -> bool
        ensures { OpensIfVacant result self.old write vector place self.new }
    {
        if !self.is_vacant(place) {
            return false;
        }
        self.put(place, Node::new(Role::Top, write, vector));
        true
    }

    /// Opens a child of an open node, which waits for it (`bio_chain`, `block/bio.c`), and makes room in the lists for what comes of it.
    ///
    /// # Errors
    /// `NotEnabled` where it can't be opened, and `Memory` where only room lacks. Nothing is changed then.
    #[tactic(auto, using(crate::proofs::object_lemmas::OtherPlaces::stays, crate::proofs::object_lemmas::OtherPlaces::chained))]
    pub fn open_chain(
        &mut self,
        parent: u32,
        place: u32,
        lists: &mut Lists,
    ) -> Result<(), CoreFault>
        ensures opens { OpensSo self.old (Chains self.old parent (Made place)) result self.new }
        ensures same { lists_of lists.new ≡ lists_of lists.old }
        ensures room { OnOk result (ListsHaveCapacity 2 lists.new) }
    {
        let Some(node) = self.node(parent) else {
            return Err(CoreFault::NotEnabled);
        };
        let (count, write) = (node.count, node.write);
        if count == u64::MAX || !self.is_vacant(place) {
            return Err(CoreFault::NotEnabled);
        }
        lists.reserve()?;
        self.put(place, Node::new(Role::Chain { parent }, write, None));
        self.raise(parent);
        Ok(())
    }

    /// Opens a master at this place, with this record and so many legs, which stands for the own part of an open node.
    /// That node keeps this part meanwhile (`raid1_write_request`, `drivers/md/raid1.c`). It also makes room in the
    /// lists, for two bios more.
    ///
    /// # Errors
    /// `NotEnabled` where it can't be opened, and `Memory` where only room lacks. Nothing is changed then.
    #[tactic(auto, using(crate::proofs::object_lemmas::OtherPlaces::stays))]
    pub fn open_master(
        &mut self,
        parent: u32,
        part: &PlainBioElement,
        slip: &Slip,
        legs: u32,
        place: u32,
        lists: &mut Lists,
    ) -> Result<(), CoreFault>
        ensures opens { OpensSo self.old (Masters self.old parent part.now slip.now legs (Made place)) result self.new }
        ensures same { lists_of lists.new ≡ lists_of lists.old }
        ensures room { OnOk result (ListsHaveCapacity 2 lists.new) }
    {
        let Some(node) = self.node(parent) else {
            return Err(CoreFault::NotEnabled);
        };
        let write = node.write;
        if !self.is_vacant(place) {
            return Err(CoreFault::NotEnabled);
        }
        lists.reserve()?;
        self.put(place, Node::master(parent, write, slip, legs));
        self.keep(parent, part);
        Ok(())
    }

    /// Opens a leg of an open node, which has counted it already, and makes room in the lists for what comes of it.
    ///
    /// # Errors
    /// `NotEnabled` where it can't be opened, and `Memory` where only room lacks. Nothing is changed then.
    #[tactic(auto, using(crate::proofs::object_lemmas::OtherPlaces::legged))]
    pub fn open_leg(&mut self, master: u32, place: u32, lists: &mut Lists) -> Result<(), CoreFault>
        ensures opens { OpensSo self.old (Legs self.old master (Made place)) result self.new }
        ensures same { lists_of lists.new ≡ lists_of lists.old }
        ensures room { OnOk result (ListsHaveCapacity 2 lists.new) }
    {
        let Some(node) = self.node(master) else {
            return Err(CoreFault::NotEnabled);
        };
        let write = node.write;
        if !self.is_vacant(place) {
            return Err(CoreFault::NotEnabled);
        }
        lists.reserve()?;
        self.put(place, Node::new(Role::Leg { parent: master }, write, None));
        Ok(())
    }

    /// Tells an open node of an end, where that leaves this of it (`bio_endio`, `block/bio.c`).
    pub fn tell(
        &mut self,
        place: u32,
        status: Status,
        part: Option<PlainBioElement>,
        end: End,
    ) -> Option<NodeOutcome>
        ensures { IsEndTold self.old place status part end result self.new }
    {
        let node = self.node(place)?;
        let (count, role) = (node.count, node.role);
        match end {
            End::Left => {
                if count < 2 {
                    return None;
                }
                self.lower(place, status, part);
                Some(NodeOutcome::Left)
            }
            End::Up => {
                if count != 1 || parent_of(role).is_none() {
                    return None;
                }
                Some(NodeOutcome::Up(self.close(place, status, part)))
            }
            End::Top => {
                if count != 1 || parent_of(role).is_some() {
                    return None;
                }
                Some(NodeOutcome::Top(self.close(place, status, part)))
            }
        }
    }
}
