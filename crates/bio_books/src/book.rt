//! Books.
ghost use Rattle.std.specs.Prelude.{◌≡◌, ◌≤◌, None, IfOk, MatchResult, length, option_copied, replicate};
ghost use Rattle.bio_books.specs.Books.{node_at};
ghost use Rattle.bio_records.specs.Items.{item_of, IsAlone};
ghost use Rattle.bio_books.specs.Links.{Chains, Legs, Masters, Opens};
ghost use Rattle.bio_books.specs.Drops.{Drops, IsEmpty};
ghost use Rattle.bio_books.specs.Views.{bio_of, drop_outcome_of, linked_of, slip_item, vector_of, IsAlonePart, IsDroppedAlone, IsLinkAlone};

use crate::node::changes::{Keep, Lower, Raise};
use crate::node::{Back, ClosedNode, Node};
use crate::places::Places;
use bio_records::{BioElement, SlipElement, VecElement};
use stack_base::Status;
use std::alloc::{AllocError, Global};
use std::marker::Model;

/// What a call that opens a node answers.
#[derive(Drop)]
pub enum Link {
    /// The place of the node.
    Made(u32),
    /// No node was opened, as all places are taken, or as the parent waits for `u64::MAX` ends: a count of so many can't rise, though no run
    /// comes near it.
    NoRoom(Back),
    /// No node was opened, as the named one is not open.
    Stray(Back),
}

/// What a call that tells a node of an end answers.
#[derive(Drop)]
pub enum Dropped {
    /// The node waits for other ends.
    Left,
    /// The node closed, and was the child of another.
    Up(ClosedNode),
    /// The node closed, and with it its write.
    Top(ClosedNode),
    /// The node is not open. The part comes back.
    Stray(Option<BioElement>),
}

/// The nodes of the writes of one writer that have not ended.
///
/// Contracts see a map from places to plain nodes, so that bodies, boxes and keys of the slab are in none. A node's key is its place, and a book
/// hands out no other keys: no map of keys stands beside the places. Opening a node at a number which is no place is no step, however many
/// places are free.
pub struct Book {
    writer: u32,
    nodes: Places<Node>,
}

// A drop by hand is proved here, once. A derived one every crate above would prove anew that lets a book go, with that of its nodes.
impl Drop for Book {
    fn drop(self) {
        let Book { writer: _, nodes } = self;
        drop(nodes);
    }
}

impl Model for Book {
    ghost use Rattle.bio_books.specs.Books.{BookState};

    ghost Value = { BookState };

    ghost view = { λ b. record { writer = b.writer; nodes = b.nodes } };
}

impl Book {
    /// A book of so many places, in which no node is open. It is the only call that takes memory.
    ///
    /// # Errors
    ///
    /// Where there is no memory for the places.
    pub fn open(alloc: Global, writer: u32, places: u32) -> Result<Book, AllocError>
        ensures { IfOk result (λ book. book ≡ record { writer = writer; nodes = replicate places None }) }
    {
        let nodes = Places::open(alloc, places)?;
        Ok(Book { writer, nodes })
    }

    /// The number of the writer whose book it is.
    pub fn writer(&self) -> u32
        ensures { result ≡ self.now.writer }
    {
        self.writer
    }

    /// How many places it has. They are numbered from 0 on.
    pub fn places(&self) -> u32
        ensures { result ≡ length self.now.nodes }
    {
        self.nodes.count()
    }

    /// The node that is open at a place, if one is.
    pub fn node(&self, place: u32) -> Option<&Node>
        ensures { option_copied result ≡ node_at self.now place }
    {
        self.nodes.get(place)
    }

    /// Opens the top node of a write, which holds its vector and waits for one end. With no vacant place it hands the vector back.
    #[inline(always)] // what it answers is then made where it goes
    pub fn open_write(&mut self, write: u32, vector: Option<VecElement>) -> Link
        ensures opens { Opens self.old write (vector_of vector) (linked_of result) self.new }
        ensures alone { IsLinkAlone result }
    {
        match self.nodes.insert(Node::top(write, vector)) {
            Ok(place) => Link::Made(place),
            Err(node) => Link::NoRoom(node.into_held()),
        }
    }

    /// Opens a child of a node, of the same write and of one end, for which the node waits too (`bio_chain`, `block/bio.c`).
    #[inline(always)] // as `open_write`
    pub fn chain(&mut self, parent: u32) -> Link
        ensures chains { Chains self.old parent (linked_of result) self.new }
        ensures alone { IsLinkAlone result }
    {
        let Some(node) = self.nodes.get(parent) else {
            return Link::Stray(Back::nothing());
        };
        let (count, write) = (node.count(), node.write());
        if count == u64::MAX {
            return Link::NoRoom(Back::nothing());
        }
        match self.nodes.insert(Node::child(write, parent)) {
            Ok(place) => {
                self.nodes.alter(parent, Raise);
                Link::Made(place)
            }
            Err(child) => Link::NoRoom(child.into_held()),
        }
    }

    /// Opens the master of a mirror, which stands for the own part of a node and waits for an end of each leg. It holds the record, which has
    /// the number of legs from then on. The node keeps the part, in place of one that it kept, and waits for as many ends as before
    /// (`raid1_write_request`, `drivers/md/raid1.c`). Where no master is opened, the part and the record come back as they were.
    #[inline(always)] // as `open_write`
    pub fn master(&mut self, parent: u32, part: BioElement, slip: SlipElement, legs: u32) -> Link
        requires part { IsAlone part }
        requires legs { 1 ≤ legs }
        ensures masters { Masters self.old parent (item_of part) (slip_item slip) legs (linked_of result) self.new }
        ensures alone { IsLinkAlone result }
    {
        let write = match self.nodes.get(parent) {
            Some(node) => node.write(),
            None => return Link::Stray(Back::unmastered(part, slip)),
        };
        if self.nodes.is_full() {
            return Link::NoRoom(Back::unmastered(part, slip));
        }
        match self.nodes.insert(Node::master(write, parent, slip, legs)) {
            Ok(place) => {
                self.nodes.alter(parent, Keep { part });
                Link::Made(place)
            }
            Err(_) => unreachable!(),
        }
    }

    /// Opens a leg of a master, of the same write and of one end. The master waits for it already. It is for the caller to open as many legs
    /// as the master waits for, and to name a master: a master keeps no number of the legs that were opened, so a leg of any other open node is
    /// opened too, and that node does not wait for it.
    #[inline(always)] // as `open_write`
    pub fn leg(&mut self, master: u32) -> Link
        ensures legs { Legs self.old master (linked_of result) self.new }
        ensures alone { IsLinkAlone result }
    {
        let write = match self.nodes.get(master) {
            Some(node) => node.write(),
            None => return Link::Stray(Back::nothing()),
        };
        match self.nodes.insert(Node::leg(write, master)) {
            Ok(place) => Link::Made(place),
            Err(leg) => Link::NoRoom(leg.into_held()),
        }
    }

    /// Tells a node of one of its ends, and closes it with the last. It keeps the first end that failed, and the last part that came
    /// (`bio_endio`, `block/bio.c`). A master ends well where one of its legs did, else with `Status::Io` (`raid1_end_write_request` and
    /// `call_bio_endio`, `drivers/md/raid1.c`).
    // A caller takes most of the answer apart at once, so none of it is to be written.
    #[inline(always)]
    pub fn drop_one(&mut self, node: u32, status: Status, part: Option<BioElement>) -> Dropped
        requires { IsAlonePart part }
        ensures drops { Drops self.old node status (bio_of part) (drop_outcome_of result) self.new }
        ensures alone { IsDroppedAlone result }
    {
        let waits = match self.nodes.get(node) {
            Some(open) => open.count() > 1,
            None => false,
        };
        if waits {
            self.nodes.alter(node, Lower { status, part });
            return Dropped::Left;
        }
        let Some(mut last) = self.nodes.remove(node) else {
            return Dropped::Stray(part);
        };
        last.tell(status, part);
        let closed = last.close();
        match closed.parent {
            None => Dropped::Top(closed),
            Some(_) => Dropped::Up(closed),
        }
    }

    /// Ends the use of a book.
    ///
    /// # Errors
    ///
    /// The same book, where a node is open.
    pub fn close(self) -> Result<(), Book>
        ensures { MatchResult result (λ _. IsEmpty self) (λ book. (book ≡ self) × (IsEmpty self → ⊥)) }
    {
        if self.nodes.is_empty() {
            Ok(())
        } else {
            Err(self)
        }
    }
}
