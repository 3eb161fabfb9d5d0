//! Lists of bios.
ghost use Rattle.std.specs.Prelude.{◌≡◌, ◌++◌, filter, ◌+◌, ◌<◌, [], ◌∷◌, List, length, map, reverse, remove, IsTrue, ◌↔◌, slice_get, min, ◌^◌, ◌-◌, Some};
ghost use Rattle.bio_records.specs.Items.{Item, item_of, plain_of, IsAlone, PopsFirst};
ghost use Rattle.bio_records.specs.Sorting.{is_of, is_of_other, sorted};

use crate::bio::Pad;
use crate::body::BioElement;
use crate::chain::{self, Link};
use crate::walk::Bios;
use stack_base::{DevId, SetId};
use std::marker::Model;
use std::mem;

/// A list of bios (`struct bio_list`), seen as its elements in order.
///
/// It is two chains through the elements' own boxes, since an element has one owner: those at the front, and those at the back with the last
/// one first. A push and a pop move one element, and over all pops each element moves from one chain to the other at most once. The count is
/// kept beside, up to 2^64 - 1.
///
/// A list that is dropped gives nothing back, since that takes the pool of its elements: they are dropped one after the other, however many
/// they are, and stay counted as out. Who owns a list pops it empty instead.
pub struct BioList {
    front: Link<Pad>,
    back: Link<Pad>,
    count: u64,
}

// A drop by hand is proved here, once. A derived one every crate above would prove anew that lets a list go, or what has one in it.
impl Drop for BioList {
    fn drop(self) {
        let BioList {
            front,
            back,
            count: _,
        } = self;
        drop(front);
        drop(back);
    }
}

impl Model for BioList {
    ghost use Rattle.std.specs.Prelude.{◌≡◌, ◌-◌, ◌^◌, List, length, min};
    ghost use Rattle.bio_records.specs.declared.bio.Pad.{Pad};
    ghost use Rattle.bio_records.specs.Items.{Item, in_order};

    ghost Value = { List (Item Pad) };

    ghost view = { λ l. in_order l.front l.back };

    ghost invariant = { λ l. l.count ≡ min (length (in_order l.front l.back)) (2 ^ 64 - 1) };
}

impl BioList {
    /// An empty list (`bio_list_init`).
    pub fn new() -> BioList
        ensures { result ≡ [] }
    {
        BioList {
            front: None,
            back: None,
            count: 0,
        }
    }

    /// How many bios there are (`bio_list_size`), or `u64::MAX` where there are more.
    pub fn len(&self) -> u64
        ensures { result ≡ min (length self.now) (2 ^ 64 - 1) }
    {
        self.count
    }

    /// Whether there is none (`bio_list_empty`).
    pub fn is_empty(&self) -> bool
        ensures { IsTrue result ↔ (self.now ≡ []) }
    {
        self.count == 0
    }

    /// Puts a bio at the end (`bio_list_add`).
    pub fn push(&mut self, element: BioElement)
        requires { IsAlone element }
        ensures { self.new ≡ self.old ++ item_of element ∷ [] }
    {
        chain::attach(&mut self.back, element);
        self.count = self.count.saturating_add(1);
    }

    /// Takes the first bio off, if there is one (`bio_list_pop`).
    #[inline(always)]
    pub fn pop(&mut self) -> Option<BioElement>
        ensures { PopsFirst self.old result self.new }
    {
        chain::bring_round(&mut self.front, &mut self.back);
        let element = chain::detach(&mut self.front)?;
        self.count = chain::count_less_one(self.count, &self.front, &self.back);
        Some(element)
    }

    // Puts another list, which is not the longer one, at the end.
    fn add_behind(&mut self, other: BioList)
        ensures { self.new ≡ self.old ++ other }
    {
        let BioList { front, back, count } = other;
        let behind = chain::reverse_onto(front, self.back.take());
        let whole = chain::reverse_onto(chain::reverse_onto(back, None), behind);
        chain::put(&mut self.back, whole);
        self.count = self.count.saturating_add(count);
    }

    // Puts another list, which is not the longer one, at the front.
    fn add_before(&mut self, other: BioList)
        ensures { self.new ≡ other ++ self.old }
    {
        let BioList { front, back, count } = other;
        let before = chain::reverse_onto(back, self.front.take());
        let whole = chain::reverse_onto(chain::reverse_onto(front, None), before);
        chain::put(&mut self.front, whole);
        self.count = self.count.saturating_add(count);
    }

    /// Puts the bios of another list at the end, in their order (`bio_list_merge`).
    ///
    /// It moves those of the shorter list one by one: a tail that two chains share would take constant time, and a raw pointer. So in any run of
    /// merges an element moves at most as often as the length can double.
    #[inline(always)]
    pub fn merge(&mut self, mut other: BioList)
        ensures { self.new ≡ self.old ++ other }
    {
        if self.count < other.count {
            mem::swap(self, &mut other);
            self.add_before(other);
        } else {
            self.add_behind(other);
        }
    }

    // Sorts the bios of another list before those of this one. It is long, and has a call of its own, so that what calls it stays short.
    #[inline(never)]
    fn sort_in(&mut self, other: &mut BioList, dev: DevId)
        ensures moved { other.new ≡ [] }
        ensures order { self.new ≡ sorted dev other.old self.old }
    {
        let own = self.front.take();
        let sorted = chain::sorted(other.front.take(), other.back.take(), dev, own);
        chain::put(&mut self.front, sorted);
        self.count = self.count.saturating_add(other.count);
        other.count = 0;
    }

    /// Puts the bios of another list at the front: first those for other devices than this one, and then those for it, each in their order
    /// (`__submit_bio_noacct`, `block/blk-core.c`). None is left there.
    #[inline(always)]
    pub fn sort_before(&mut self, other: &mut BioList, dev: DevId)
        ensures moved { other.new ≡ [] }
        ensures order { self.new ≡ sorted dev other.old self.old }
    {
        if other.count > 0 {
            self.sort_in(other, dev);
        }
    }

    /// Takes the bios of a set out of the list. They and the others each keep their order (`punt_bios_to_rescuer`, `block/bio.c`). It counts those
    /// that it takes, and those that stay only where the number of all stands at 2^64 - 1 and does not tell.
    pub fn take_set(&mut self, set: SetId) -> BioList
        ensures taken { result ≡ filter (is_of set) self.old }
        ensures rest { self.new ≡ filter (is_of_other set) self.old }
    {
        if self.count == 0 {
            return BioList::new();
        }
        let (chosen, others) = chain::set_apart(self.front.take(), self.back.take(), set);
        let (count, left) = chain::counts_apart(self.count, &chosen, &others);
        chain::put(&mut self.front, others);
        self.count = left;
        BioList {
            front: chosen,
            back: None,
            count,
        }
    }

    /// The bios, to be looked at: those at the front in their order, and those behind them, the last one first. Each of the two walks goes over
    /// its bios once. A walk takes no memory, and the list is two chains: so it is shown in two halves, the second turned round.
    #[tactic(auto, using(crate::proofs::Sorted::shown_in_two))]
    pub fn walk(&self) -> (Bios<'_>, Bios<'_>)
        ensures { result.0 ++ reverse result.1 ≡ map plain_of self.now }
    {
        (Bios::new(&self.front), Bios::new(&self.back))
    }

    /// Takes the bio at a place out of the list. The others keep their order. It goes over the places before it, and over the whole list
    /// only to bring its back to its front.
    ///
    /// A bio near the front is taken out where it stands, by calls within each other, one a place: moving the others aside and back took a tenth
    /// of a run with many pending bios. There are at most 64 such calls, which bounds the stack; from there on the others are moved.
    pub fn take_at(&mut self, index: u64) -> BioElement
        requires { index < length self.old }
        ensures taken { slice_get self.old index ≡ Some (item_of result) }
        ensures rest { self.new ≡ remove self.old index }
        ensures alone { IsAlone result }
    {
        let element = chain::take_out(&mut self.front, &mut self.back, index);
        self.count = chain::count_less_one(self.count, &self.front, &self.back);
        element
    }
}
