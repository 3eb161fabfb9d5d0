//! The bios that wait in a disk.
ghost use Rattle.std.specs.Prelude.{◌≡◌, ◌++◌, ◌-◌, ◌^◌, ◌<◌, [], ◌∷◌, IfOk, Some, length, map, min, remove, reverse, slice_get};
ghost use Rattle.bio_records.specs.Items.{item_of, plain_of, IsAlone};

use crate::backlog::Backlog;
use crate::walk::Waiting;
use bio_records::{BioElement, Bios};
use std::alloc::{AllocError, Global};
use std::marker::Model;

/// How many bios stand in the window. A run asks for one of the first 64 alone, so none of its completions walks a list.
const WINDOW: usize = 64;

/// The bios that wait in a disk, in the order of their pushes, seen as a list.
///
/// The first of them stand in a window, side by side, and those behind them in a backlog. To take one out of the window moves the pointers behind
/// it, and the first of the backlog comes in behind them. No other bio's memory is touched, but that of the backlog's list where its ring is full.
///
/// The window is a vector with reserved room, not an `ArrayVec`, which wants a blank for each empty place: an element is two words here, and a
/// disk that is moved stays small.
pub struct Pending {
    // Its room is reserved at the opening. Each bio in it is in no list.
    window: Vec<BioElement>,
    // It is empty unless the window is full.
    rest: Backlog,
}

impl Model for Pending {
    ghost use Rattle.std.specs.Prelude.{◌++◌, List, map, vec_capacity};
    ghost use Rattle.bio_records.specs.declared.bio.Pad.{Pad};
    ghost use Rattle.bio_records.specs.Items.{Item, item_of};
    ghost use Rattle.model_disks.specs.Kept.{IsFront};
    ghost use Rattle.model_disks.specs.declared.pending.TheConstants.{WINDOW};

    ghost Value = { List (Item Pad) };

    ghost view = { λ p. map item_of p.window.items ++ p.rest };

    ghost invariant = { λ p. IsFront WINDOW (vec_capacity p.window) p.window.items p.rest };
}

// By hand, as that of `Disk`.
impl Drop for Pending {
    fn drop(self) {
        let Pending { window, rest } = self;
        drop(window);
        drop(rest);
    }
}

impl Pending {
    /// No bio, with room for one for each of so many sectors behind the window. Where more come, they are linked through their own boxes.
    ///
    /// # Errors
    ///
    /// Where there is no memory for that room.
    pub fn new(alloc: Global, sectors: u64) -> Result<Pending, AllocError>
        ensures { IfOk result (λ pending. pending ≡ []) }
    {
        Ok(Pending {
            window: Vec::with_capacity(alloc, WINDOW)?,
            rest: Backlog::new(alloc, sectors)?,
        })
    }

    /// How many bios there are, or `u64::MAX` where there are more.
    pub fn len(&self) -> u64
        ensures { result ≡ min (length self.now) (2 ^ 64 - 1) }
    {
        (self.window.len() as u64).saturating_add(self.rest.len())
    }

    /// Puts a bio at the end.
    pub fn push(&mut self, el: BioElement)
        requires { IsAlone el }
        ensures { self.new ≡ self.old ++ item_of el ∷ [] }
    {
        if self.window.len() < WINDOW {
            self.window.push_reserved(el);
        } else {
            self.rest.push(el);
        }
    }

    /// The bios, to be looked at: most of them in their order, and those behind them, the last one first.
    pub fn walk(&self) -> (Waiting<'_>, Bios<'_>)
        ensures { result.0 ++ reverse result.1 ≡ map plain_of self.now }
    {
        let (ring, wrapped, list) = self.rest.as_parts();
        let (front, back) = list.walk();
        (Waiting::new(&self.window, ring, wrapped, front), back)
    }

    /// Takes the bio at a place out. The others keep their order.
    pub fn take_at(&mut self, index: u64) -> BioElement
        requires { index < length self.old }
        ensures taken { slice_get self.old index ≡ Some (item_of result) }
        ensures rest { self.new ≡ remove self.old index }
        ensures alone { IsAlone result }
    {
        let near = self.window.len() as u64;
        if index >= near {
            return self.rest.take_at(index - near);
        }
        let el = self.window.remove(index as usize);
        if let Some(next) = self.rest.pop() {
            self.window.push_reserved(next);
        }
        el
    }
}
