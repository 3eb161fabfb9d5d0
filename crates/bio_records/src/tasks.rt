//! The lists of a task, and the list of a set's rescuer.
ghost use Rattle.std.specs.Prelude.{◌≡◌, ◌++◌, ◌-◌, ◌^◌, ◌↔◌, [], length, map, min, reverse, IsTrue};
ghost use Rattle.stack_base.specs.declared.ids.DevId.{DevId};
ghost use Rattle.bio_records.specs.declared.tasks.TaskLists.{TaskLists as Lists};
ghost use Rattle.bio_records.specs.Items.{plain_of, PopsFirst};
ghost use Rattle.bio_records.specs.Waiting.{IsBusy};

use crate::body::BioElement;
use crate::list::BioList;
use crate::walk::Bios;
use stack_base::DevId;
use std::marker::Model;

/// The bios of a device's set that wait for its rescuer (`rescue_list` of `struct bio_set`), in the order in which they came.
pub struct RescueList {
    dev: DevId,
    bios: BioList,
}

// By hand, as that of `BioList`.
impl Drop for RescueList {
    fn drop(self) {
        let RescueList { dev: _, bios } = self;
        drop(bios);
    }
}

impl Model for RescueList {
    ghost use Rattle.bio_records.specs.Rescue.{Rescue};

    ghost Value = { Rescue };

    ghost view = { λ l. record { dev = l.dev; bios = l.bios } };
}

impl RescueList {
    /// The list of a device's set, with no bio.
    pub fn new(dev: DevId) -> RescueList
        ensures { result ≡ record { dev = dev; bios = [] } }
    {
        RescueList {
            dev,
            bios: BioList::new(),
        }
    }

    /// The device whose set it is of.
    pub fn dev(&self) -> DevId
        ensures { result ≡ self.now.dev }
    {
        self.dev
    }

    /// How many bios wait, or `u64::MAX` where there are more.
    pub fn len(&self) -> u64
        ensures { result ≡ min (length self.now.bios) (2 ^ 64 - 1) }
    {
        self.bios.len()
    }

    /// Whether none waits.
    pub fn is_empty(&self) -> bool
        ensures { IsTrue result ↔ (self.now.bios ≡ []) }
    {
        self.bios.is_empty()
    }

    /// The bios that wait, to be looked at, in the two parts that `BioList::walk` shows.
    pub fn walk(&self) -> (Bios<'_>, Bios<'_>)
        ensures { result.0 ++ reverse result.1 ≡ map plain_of self.now.bios }
    {
        self.bios.walk()
    }

    /// Puts bios at the end, in their order (`punt_bios_to_rescuer`, `block/bio.c`).
    pub fn add(&mut self, moved: BioList)
        ensures { self.new ≡ record self.old { bios = self.old.bios ++ moved } }
    {
        self.bios.merge(moved);
    }

    /// Takes the first bio off, if there is one (`bio_alloc_rescue`, `block/bio.c`).
    pub fn pop(&mut self) -> Option<BioElement>
        ensures dev { self.new.dev ≡ self.old.dev }
        ensures bios { PopsFirst self.old.bios result self.new.bios }
    {
        self.bios.pop()
    }
}

/// What a task has submitted and not served yet (`current->bio_list`, `block/blk-core.c`): list 0 has what the driver that is served now
/// submits, and list 1 what was there before it.
#[derive(Drop)]
pub struct TaskLists {
    pub list0: BioList,
    pub list1: BioList,
}

impl TaskLists {
    /// Two empty lists.
    pub fn new() -> TaskLists
        ensures { result ≡ record { list0 = []; list1 = [] } }
    {
        TaskLists {
            list0: BioList::new(),
            list1: BioList::new(),
        }
    }
}

/// What has two lists of a task's bios in it.
pub trait Waits {
    /// The two lists.
    ghost waiting: { Self → Lists };

    /// Whether one of the lists has a bio.
    fn busy(&self) -> bool
        ensures { IsTrue result ↔ IsBusy (waiting self.now) };
}

impl Waits for TaskLists {
    ghost waiting = { λ lists. lists };

    fn busy(&self) -> bool {
        !self.list0.is_empty() || !self.list1.is_empty()
    }
}
