//! The bios that wait in a disk behind its window.
ghost use Rattle.std.specs.Prelude.{◌≡◌, ◌++◌, ◌-◌, ◌^◌, ◌<◌, [], ◌∷◌, IfOk, Some, length, map, min, remove, slice_get};
ghost use Rattle.bio_records.specs.Items.{item_of, IsAlone, PopsFirst};

use bio_records::{BioElement, BioList};
use std::alloc::{AllocError, Global};
use std::collections::VecDeque;
use std::marker::Model;

/// Bios in the order of their pushes, seen as a list.
///
/// The first of them stand in a ring, and those that find no place there in a list that is linked through their own boxes. The list meets each
/// box twice more, once where the newest of them are turned round and once where one is popped, and each time its memory may have left the cache;
/// the ring meets none.
pub struct Backlog {
    // Its room is reserved at the opening. Each bio in it is in no list.
    ring: VecDeque<BioElement>,
    // It is empty unless the ring is full.
    list: BioList,
}

impl Model for Backlog {
    ghost use Rattle.std.specs.Prelude.{◌++◌, List, map};
    ghost use Rattle.std.specs.VecDeque.{deque_capacity};
    ghost use Rattle.bio_records.specs.declared.bio.Pad.{Pad};
    ghost use Rattle.bio_records.specs.Items.{Item, item_of};
    ghost use Rattle.model_disks.specs.Kept.{IsFront};

    ghost Value = { List (Item Pad) };

    ghost view = { λ b. map item_of b.ring.items ++ b.list };

    ghost invariant = { λ b. IsFront (deque_capacity b.ring) (deque_capacity b.ring) b.ring.items b.list };
}

// By hand, as that of `Disk`.
impl Drop for Backlog {
    fn drop(self) {
        let Backlog { ring, list } = self;
        drop(ring);
        drop(list);
    }
}

impl Backlog {
    /// No bio, with a place in the ring for each of so many sectors, since most bios that wait in a disk have sectors of their own. A place that is
    /// not used is reserved and not touched.
    ///
    /// # Errors
    ///
    /// Where there is no memory for the ring.
    pub fn new(alloc: Global, sectors: u64) -> Result<Backlog, AllocError>
        ensures { IfOk result (λ backlog. backlog ≡ []) }
    {
        Ok(Backlog {
            ring: VecDeque::with_capacity(alloc, sectors as usize)?,
            list: BioList::new(),
        })
    }

    /// How many bios there are, or `u64::MAX` where there are more.
    pub fn len(&self) -> u64
        ensures { result ≡ min (length self.now) (2 ^ 64 - 1) }
    {
        (self.ring.len() as u64).saturating_add(self.list.len())
    }

    /// Puts a bio at the end.
    pub fn push(&mut self, el: BioElement)
        requires { IsAlone el }
        ensures { self.new ≡ self.old ++ item_of el ∷ [] }
    {
        if self.ring.len() < self.ring.capacity() {
            self.ring.push_back_reserved(el);
        } else {
            self.list.push(el);
        }
    }

    /// The bios, to be looked at, in three parts: those of the ring up to its end and from its start on, and those of the list.
    pub fn as_parts(&self) -> (&[BioElement], &[BioElement], &BioList)
        ensures { map item_of (result.0.now ++ result.1.now) ++ result.2.now ≡ self.now }
    {
        let (front, wrapped) = self.ring.as_slices();
        (front, wrapped, &self.list)
    }

    /// Takes the first bio out, if there is one.
    pub fn pop(&mut self) -> Option<BioElement>
        ensures { PopsFirst self.old result self.new }
    {
        let Some(el) = self.ring.pop_front() else {
            return self.list.pop();
        };
        if let Some(next) = self.list.pop() {
            self.ring.push_back_reserved(next);
        }
        Some(el)
    }

    /// Takes the bio at an index out. The others keep their order. In the ring those of the shorter side are moved, one by one, and in the list
    /// those before it; no run asks for either, since it completes one of the first 64 alone, which stand in the disk's window.
    pub fn take_at(&mut self, index: u64) -> BioElement
        requires { index < length self.old }
        ensures taken { slice_get self.old index ≡ Some (item_of result) }
        ensures rest { self.new ≡ remove self.old index }
        ensures alone { IsAlone result }
    {
        let near = self.ring.len() as u64;
        if index >= near {
            return self.list.take_at(index - near);
        }
        let Some(el) = self.ring.remove(index as usize) else {
            unreachable!()
        };
        if let Some(next) = self.list.pop() {
            self.ring.push_back_reserved(next);
        }
        el
    }
}
