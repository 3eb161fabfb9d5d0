//! The lists of tasks and rescuers, of plain elements.
ghost use Rattle.std.specs.Prelude.{◌≡◌, ℕ, ◌+◌, ◌*◌, ◌-◌, ◌^◌, ◌<◌, ◌≤◌, ◌++◌, [], ◌∷◌, min, length, filter, drop, MatchOption, OnOk, OnErr};
ghost use Rattle.std.specs.VecDeque.{deque_capacity};
ghost use Rattle.stack_base.specs.declared.ids.SetId.TheVariants.{Of};
ghost use Rattle.bio_records.specs.Sorting.{is_of, is_of_other};
ghost use Rattle.bio_lists.specs.Submission.{no_lists, submitted, order};
ghost use Rattle.bio_lists.specs.Punt.{punted, unpunted};
ghost use Rattle.bioset_pools.specs.Sets.{is_empty};
ghost use Rattle.plain_core.specs.objects.Lists.{lists_of, is_picked, ListsHaveCapacity, IsFirstOfBios};

use crate::objects::part::PlainBioElement;
use bio_records::Waits;
use stack_base::{DevId, SetId};
use std::alloc::{AllocError, Global};
use std::collections::VecDeque;
use std::marker::Model;

/// What a task has submitted and not served yet (`current->bio_list`, `block/blk-core.c`): list 0 has what the driver that is served now
/// submits, and list 1 what was there before it.
#[derive(Drop)]
pub struct Lists {
    list0: VecDeque<PlainBioElement>,
    list1: VecDeque<PlainBioElement>,
}

// Whether a bio is of a device's set.
fn is_of(part: &PlainBioElement, dev: DevId) -> bool
    ensures { result ≡ is_of (Of dev) part.now }
{
    match part.bio().set {
        SetId::Fs => false,
        SetId::Of(other) => other.0 == dev.0,
    }
}

// How many bios of a list are of a device's set.
fn count_of(list: &VecDeque<PlainBioElement>, dev: DevId) -> u64
    ensures { result ≡ length (filter (is_of (Of dev)) list.now.items) }
{
    list.iter().filter(|part| is_of(part, dev)).count() as u64
}

// Puts those bios of list 0 before list 1 that are for other devices than this one, or those that are for it.
fn put_before(
    list0: &VecDeque<PlainBioElement>,
    dev: DevId,
    lower: bool,
    list1: &mut VecDeque<PlainBioElement>,
)
    requires { length list0.now.items + length list1.old.items ≤ deque_capacity list1.old }
    ensures items { list1.new.items ≡ filter (is_picked lower dev) list0.now.items ++ list1.old.items }
    ensures few { length list1.new.items ≤ length list0.now.items + length list1.old.items }
    ensures capacity { deque_capacity list1.new ≡ deque_capacity list1.old }
{
    let mut left = list0.len();
    'moving: while left > 0 {
        left -= 1;
        let part = &list0[left];
        if (part.bio().dev.0 != dev.0) == lower {
            list1.push_front(part.again()).unwrap();
        }
    }
}

// Puts a bio at the end of another list, if it is of a device's set, and else at the end of this one.
fn place(
    part: PlainBioElement,
    dev: DevId,
    from: &mut VecDeque<PlainBioElement>,
    into: &mut VecDeque<PlainBioElement>,
)
    requires from { length from.old.items < deque_capacity from.old }
    requires into { length into.old.items < deque_capacity into.old }
    ensures others { from.new.items ≡ from.old.items ++ filter (is_of_other (Of dev)) (part ∷ []) }
    ensures moved { into.new.items ≡ into.old.items ++ filter (is_of (Of dev)) (part ∷ []) }
    ensures few { length into.new.items ≤ length into.old.items + 1 }
    ensures capacity { deque_capacity into.new ≡ deque_capacity into.old }
{
    if is_of(&part, dev) {
        into.push_back(part).unwrap();
    } else {
        from.push_back(part).unwrap();
    }
}

// Moves the bios of a device's set to another list. The others keep their order.
fn sift(from: &mut VecDeque<PlainBioElement>, dev: DevId, into: &mut VecDeque<PlainBioElement>)
    requires { length into.old.items + length from.old.items ≤ deque_capacity into.old }
    ensures others { from.new.items ≡ filter (is_of_other (Of dev)) from.old.items }
    ensures moved { into.new.items ≡ into.old.items ++ filter (is_of (Of dev)) from.old.items }
    ensures few { length into.new.items ≤ length into.old.items + length from.old.items }
    ensures capacity { deque_capacity into.new ≡ deque_capacity into.old }
{
    'moving: for _ in 0..from.len() {
        let part = from.pop_front().unwrap();
        place(part, dev, from, into);
    }
}

impl Waits for Lists {
    ghost waiting = { lists_of };

    fn busy(&self) -> bool {
        !self.list0.is_empty() || !self.list1.is_empty()
    }
}

impl Lists {
    /// Two empty lists.
    pub fn new(alloc: Global) -> Lists
        ensures { lists_of result ≡ record { list0 = []; list1 = [] } }
    {
        Lists {
            list0: VecDeque::new(alloc),
            list1: VecDeque::new(alloc),
        }
    }

    /// Empties both lists.
    pub fn clear(&mut self)
        ensures { lists_of self.new ≡ no_lists }
    {
        self.list0.clear();
        self.list1.clear();
    }

    /// Makes room for two more bios in list 0, and in list 1 for twice as many as list 0 has with them: `next` moves list 0 there in two passes.
    ///
    /// # Errors
    /// Where there is no memory. The lists have the same bios in any case.
    pub fn reserve(&mut self) -> Result<(), AllocError>
        ensures same { lists_of self.new ≡ lists_of self.old }
        ensures room { OnOk result (ListsHaveCapacity 2 self.new) }
    {
        self.list0.reserve(2)?;
        self.list1.reserve(2 * (self.list0.len() + 2))?;
        Ok(())
    }

    /// How many bios that wait are of a device's set, or `u64::MAX` where there are more.
    pub fn count_of(&self, dev: DevId) -> u64
        ensures { result ≡ min (length (punted (Of dev) (lists_of self.now))) (2 ^ 64 - 1) }
    {
        count_of(&self.list0, dev).saturating_add(count_of(&self.list1, dev))
    }

    /// Submits a bio from within a driver.
    pub fn submit(&mut self, part: PlainBioElement)
        requires { ListsHaveCapacity 1 self.old }
        ensures submitted { lists_of self.new ≡ submitted part (lists_of self.old) }
        ensures room { (more : ℕ) → ListsHaveCapacity (more + 1) self.old → ListsHaveCapacity more self.new }
    {
        self.list0.push_back(part).unwrap();
    }

    /// The bio to serve next when the driver of a device has returned, if one waits (`__submit_bio_noacct`, `block/blk-core.c`). The others
    /// wait in list 1 then, first those of other devices, then those of this one, then what waited before, and list 0 is empty.
    pub fn next(&mut self, served: DevId) -> Option<PlainBioElement>
        requires { ListsHaveCapacity 0 self.old }
        ensures list0 { self.new.list0.items ≡ [] }
        ensures list1 { IsFirstOfBios (order served (lists_of self.old)) result self.new.list1.items }
    {
        put_before(&self.list0, served, false, &mut self.list1);
        put_before(&self.list0, served, true, &mut self.list1);
        self.list0.clear();
        self.list1.pop_front()
    }
}

/// The bios that wait for a rescuer.
#[derive(Drop)]
pub struct Rescue {
    bios: VecDeque<PlainBioElement>,
}

impl Model for Rescue {
    ghost use Rattle.std.specs.Prelude.{List};
    ghost use Rattle.bio_records.specs.declared.bio.Pad.{Pad};
    ghost use Rattle.bio_records.specs.Items.{Item};

    ghost Value = { List (Item Pad) };

    ghost view = { λ r. r.bios.items };
}

impl Rescue {
    /// None waits.
    pub fn new(alloc: Global) -> Rescue
        ensures { result ≡ [] }
    {
        Rescue {
            bios: VecDeque::new(alloc),
        }
    }

    /// Takes all bios of a device's set out of a task's lists (`punt_bios_to_rescuer`, `block/bio.c`).
    ///
    /// # Errors
    /// Where there is no memory. Nothing is changed then.
    pub fn punt(&mut self, dev: DevId, lists: &mut Lists) -> Result<(), AllocError>
        ensures moved { OnOk result (self.new ≡ self.old ++ punted (Of dev) (lists_of lists.old)) }
        ensures others { OnOk result (lists_of lists.new ≡ unpunted (Of dev) (lists_of lists.old)) }
        ensures err { OnErr result ((self.new ≡ self.old) × (lists_of lists.new ≡ lists_of lists.old)) }
    {
        self.bios.reserve(lists.list0.len() + lists.list1.len())?;
        sift(&mut lists.list0, dev, &mut self.bios);
        sift(&mut lists.list1, dev, &mut self.bios);
        Ok(())
    }

    /// Takes the first bio off, if there is one (`bio_alloc_rescue`, `block/bio.c`).
    pub fn pop(&mut self) -> Option<PlainBioElement>
        ensures first { MatchOption result ((self.old ≡ []) × (self.new ≡ self.old)) (λ part. self.old ≡ part ∷ self.new) }
        ensures rest { self.new ≡ drop 1 self.old }
    {
        self.bios.pop_front()
    }

    /// Whether none waits.
    pub fn is_empty(&self) -> bool
        ensures { result ≡ is_empty self.now }
    {
        self.bios.is_empty()
    }
}
