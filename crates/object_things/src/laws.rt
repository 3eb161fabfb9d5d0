//! What holds of things, as functions that do nothing.
ghost use Rattle.object_things.specs.Books.{BookAnswers, BookLooks, BookServes, book_mark};
ghost use Rattle.object_things.specs.Disks.{DiskAnswers, DiskChooses, DiskLooks, DiskServes, disk_mark};
ghost use Rattle.object_things.specs.Histories.{KeepsHistory, StaysSpent};
ghost use Rattle.object_things.specs.Homes.{AddsUpAtHome, PoolAddsUp, ListAddsUp, DiskAddsUp, BookAddsUp, TallyAddsUp};
ghost use Rattle.object_things.specs.Lists.{ListAnswers, ListLooks, ListServes, list_mark};
ghost use Rattle.object_things.specs.Pools.{PoolAnswers, PoolLooks, PoolServes, pool_mark};
ghost use Rattle.object_things.specs.Stamps.{ChoosesNone};
ghost use Rattle.object_things.specs.Tallies.{TallyAnswers, TallyLooks, TallyServes, tally_mark};

/// Along each history of a thing tickets rise, from what the note had seen to what it has seen. The entries that carry one are a run of the object's
/// machine, which leaves the object as it is while no draw failed, and so are the calls that drew one. A call that was served and is no event changed
/// nothing, and its entry carries no ticket. One that drew none changes nothing, or found none, and tells of no event.
pub fn things_keep_histories()
    ensures pools { KeepsHistory PoolServes PoolLooks ChoosesNone }
    ensures lists { KeepsHistory ListServes ListLooks ChoosesNone }
    ensures disks { KeepsHistory DiskServes DiskLooks DiskChooses }
    ensures books { KeepsHistory BookServes BookLooks ChoosesNone }
    ensures tally { KeepsHistory TallyServes TallyLooks ChoosesNone }
{}

/// Once a draw at a thing found no ticket, none is drawn at it: no entry with a ticket follows one that was told so, and what is asked later finds
/// the thing marked. A thing is marked only by a call that found no ticket where no draw had failed before.
pub fn things_stay_spent()
    ensures pools { StaysSpent PoolServes PoolLooks ChoosesNone }
    ensures lists { StaysSpent ListServes ListLooks ChoosesNone }
    ensures disks { StaysSpent DiskServes DiskLooks DiskChooses }
    ensures books { StaysSpent BookServes BookLooks ChoosesNone }
    ensures tally { StaysSpent TallyServes TallyLooks ChoosesNone }
{}

/// What lies in a lock adds up at every moment at which it is at home, whatever calls were made and whether or not a draw failed: the numbers of a
/// pool, what a rescuer's list was handed and has handed out, the bios of a disk, the nodes of a book, and the writes that are left.
pub fn things_add_up_at_home()
    ensures pools { AddsUpAtHome pool_mark PoolAnswers PoolAddsUp }
    ensures lists { AddsUpAtHome list_mark ListAnswers ListAddsUp }
    ensures disks { AddsUpAtHome disk_mark DiskAnswers DiskAddsUp }
    ensures books { AddsUpAtHome book_mark BookAnswers BookAddsUp }
    ensures tally { AddsUpAtHome tally_mark TallyAnswers TallyAddsUp }
{}
