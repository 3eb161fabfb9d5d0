//! What a task does with the bios that drivers submit.
ghost use Rattle.std.specs.Prelude.{◌≡◌, MatchOption};
ghost use Rattle.std.specs.Option.{option_map};
ghost use Rattle.bio_records.specs.Items.{item_of, IsAlone};
ghost use Rattle.bio_lists.specs.Submission.{submitted, GoesOn};
ghost use Rattle.bio_lists.specs.Punt.{punted, unpunted};

use bio_records::{BioElement, BioList, TaskLists, Waits};
use stack_base::{DevId, SetId};

/// A task's two lists of bios that wait to be served (`current->bio_list`, `block/blk-core.c`).
///
/// It is a trait, with one below it that tells whether they are busy (`Waits`), so that what serves and asks is proved for any lists. The order
/// goes by devices, where the kernel's goes by queues: a device here is its own queue.
pub trait SubmissionLists: Waits {
    /// Submits a bio from within a driver: it is put at the end of list 0 (`__submit_bio_noacct`, where `current->bio_list` is set).
    fn submit(&mut self, element: BioElement)
        requires { IsAlone element }
        ensures { Self.waiting self.new ≡ submitted (item_of element) (Self.waiting self.old) };

    /// The bio to serve next when the driver of a device has returned, if one waits. The bios of list 0 that are for other devices come
    /// first, then those for the same device, then list 1. The others wait in list 1 from then on (`__submit_bio_noacct`).
    fn next(&mut self, served: DevId) -> Option<BioElement>
        ensures order { GoesOn served (Self.waiting self.old) (option_map item_of result) (Self.waiting self.new) }
        ensures alone { MatchOption result (Unit {0}) IsAlone };

    /// Takes the bios of a set out of both lists, for its rescuer: those of list 0 come before those of list 1. All others wait on in their
    /// order (`punt_bios_to_rescuer`, `block/bio.c`).
    fn punt(&mut self, set: SetId) -> BioList
        ensures moved { result ≡ punted set (Self.waiting self.old) }
        ensures others { Self.waiting self.new ≡ unpunted set (Self.waiting self.old) };
}

impl SubmissionLists for TaskLists {
    fn submit(&mut self, element: BioElement) {
        self.list0.push(element);
    }

    // Sorting is a call of the list, since it works on the chains.
    #[inline(always)]
    #[tactic(auto, using(crate::proofs::Orders::goes_on))]
    fn next(&mut self, served: DevId) -> Option<BioElement> {
        self.list1.sort_before(&mut self.list0, served);
        self.list1.pop()
    }

    fn punt(&mut self, set: SetId) -> BioList {
        let mut moved = self.list0.take_set(set);
        moved.merge(self.list1.take_set(set));
        moved
    }
}
