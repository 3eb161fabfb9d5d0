//! The laws of the plan and of its fragments, over every tree of devices that cut as their kinds say, and so over every stack.
ghost use Rattle.layout_model.specs.OneWay.{OneWayARound};
ghost use Rattle.layout_model.specs.Laws.{PlanOfPieces, PlanOfLegs, PlanOfDisk, PlanGivesFragments, PlanKeepsOrder, PlanTakesNeeded, FragmentsAreCounted, TreesAreSound, PlanFragmentsDiffer, FragmentsCover, FragmentsFollow, WaysAreTold, OkIsAlone, SomeEndIsOpen, EndsOfDisk};

/// Where a device cuts a run, the plan of the run is the plan of its first piece in the member that the piece goes to, and then the
/// plans of the other pieces. These are the plan that the rest has as a run of its own, and there are none where there is no rest. So a
/// run may be cut piece by piece, and each time the rest is handed back to the device as a run.
pub fn plan_of_pieces()
    ensures { PlanOfPieces }
{}

/// Where a mirror copies a run, its plan is the plan of the same run in each member, in their order.
pub fn plan_of_legs()
    ensures { PlanOfLegs }
{}

/// A run that comes to a disk is one fragment.
pub fn plan_of_disk()
    ensures { PlanOfDisk }
{}

/// The fragments of a run's plan are exactly those of the layout, each of which comes to a disk as one bio.
pub fn plan_gives_fragments()
    ensures { PlanGivesFragments }
{}

/// The fragments of a run's plan stand in the order in which the run is cut: those of the first piece first, and those of a mirror's
/// first member first.
pub fn plan_keeps_order()
    ensures { PlanKeepsOrder }
{}

/// A plan takes exactly the elements that its run needs: a bio for each piece but the last of a run that is cut, and a record and a bio
/// for each member of a mirror.
pub fn plan_takes_needed()
    ensures { PlanTakesNeeded }
{}

/// A run's plan has as many fragments as the layout counts, sector by sector and without a cut. So what a write needs tells in how many
/// bios it comes to the disks.
pub fn fragments_are_counted()
    ensures { FragmentsAreCounted }
{}

/// The devices of a stack cut as their kinds say, and its mirrors have members. So what the laws say of such trees holds of every
/// device of a stack.
pub fn trees_are_sound()
    ensures { TreesAreSound }
{}

/// Over a stack, no two fragments of a run's plan begin at one sector of the write and lie on one disk. So each fragment stands there
/// once, and is known by its offset and its disk.
pub fn plan_fragments_differ()
    ensures { PlanFragmentsDiffer }
{}

/// Each sector of a run is in a fragment of the run, by whatever choices lead the sector down: a member at each mirror on its way.
pub fn fragments_cover()
    ensures { FragmentsCover }
{}

/// The sectors of a fragment follow one another on its disk, as they do in the write.
pub fn fragments_follow()
    ensures { FragmentsFollow }
{}

/// The heads of a sector's way are those of its steps, and the way ends where the sector lies.
pub fn ways_are_told()
    ensures { WaysAreTold }
{}

/// A run that may end well can end with nothing else, however its fragments end.
pub fn ok_is_alone()
    ensures { OkIsAlone }
{}

/// Each run may end somehow, however its fragments end.
pub fn some_end_is_open()
    ensures { SomeEndIsOpen }
{}

/// A run that comes to a disk may end as its fragment does, and not otherwise.
pub fn ends_of_disk()
    ensures { EndsOfDisk }
{}

/// Where writes of one round have no sector in common and go to devices that are no members, at most one of their sectors has a way to a
/// sector of a disk, and it has one way there: by one row of choices, and in one fragment.
pub fn one_way_a_round()
    ensures { OneWayARound }
{}
