//! What holds of every run, as functions that do nothing.
ghost use Rattle.block_core.specs.Bounded.{OpenedRankIsBounded, RunsAreBounded};
ghost use Rattle.block_core.specs.Breaks.{NoTaskBreaks};
ghost use Rattle.block_core.specs.Charges.{EventsLowerRank};
ghost use Rattle.block_core.specs.Claim.{AcceptedTextsRunAsClaimed, EveryRunIsAsClaimed};
ghost use Rattle.block_core.specs.Dones.{NoneIsLeftUndone, RoundsStartInTurn, TallyHasStatuses, WritesAreDoneInTheirRound, WritesAreUnfinishedUntilDone};
ghost use Rattle.block_core.specs.DoneWrites.{DoneIsCompleted, EndedStatusesAreGiven, StatusesAreGiven};
ghost use Rattle.block_core.specs.Ending.{RunsEndWithTheirWrites, StartedRoundsAreThere};
ghost use Rattle.block_core.specs.Exact.{StepsWithoutMisses};
ghost use Rattle.block_core.specs.LargestCounts.{EndsAreWithinPlacesAndTasks, NoCounterIsFull, OutsAreWithinWhatWritesNeed};
ghost use Rattle.block_core.specs.Fragments.{EachIsCompletedOnce, FragmentsAddUp, NoOtherIsCompleted, NoneIsCompletedTwice, NothingComesWhereAllIsHome, NothingComesWhereEnded};
ghost use Rattle.block_core.specs.Images.{EndedRunsLeaveTheSame, ImagesAreLaidOut, ImagesAreOfCompleted, LaidIsOne, OneFragmentASectorARound, RoundsComeInOrder};
ghost use Rattle.block_core.specs.Present.{WorkIsPresent};
ghost use Rattle.block_core.specs.OfOneWrite.{AllAreOfOneWrite};
ghost use Rattle.block_core.specs.PayerCounts.{EachKindIsWithinItsPayers, PayersAreCounted};
ghost use Rattle.block_core.specs.Paying.{CostsAreCharged, EventsUseUpCharges, NoMoreIsSpent};
ghost use Rattle.block_core.specs.Replies.{RepliesAreEvents};
ghost use Rattle.block_core.specs.Rooms.{BooksHaveRoom};
ghost use Rattle.block_core.specs.Runnable.{AcceptedTextsAreRunnable, StepsFitIn24Bits};
ghost use Rattle.block_core.specs.Dones.{EachIsDoneOnce};
ghost use Rattle.block_core.specs.Stuck.{NoStateIsStuck};
ghost use Rattle.block_core.specs.Waits.{NoTaskWaitsForItself};
ghost use Rattle.block_core.specs.Sound.{EveryRunIsSound};
ghost use Rattle.block_core.specs.Stuck.{EachRunGoesOnOrHasEnded, NoAllowedStateIsStuck};
ghost use Rattle.block_core.specs.Values.{NodesAreValued};

/// After every event of every run of every scenario the state is sound: each pool adds up, is not past the entries of
/// its script, and has as many elements out as there are in tasks' hands and lists, in rescue lists, disks and nodes.
/// Each open node waits for at least one end, and for just its children or legs and its own part, which was dropped or
/// is in one place; nothing refers to a place at which no node is open. A node keeps what the run told it of how these
/// ended, and only what it may by the run of the bio that it was opened for; what is still to come to it ends so too,
/// and where that run is decided, it keeps what decides it, or that still comes. What nodes hold, and what is left of
/// closed ones, is of pools whose numbers rise from each node to its parent. Bios stand in lists in the order of their
/// sets and devices; where each mirror of two members or more has a rescuer, no task waits for a bio of a set of which
/// it has one in its lists, and bios wait for rescuers only where there are some. Each fragment was completed or is
/// still to come, once; bios have the data of their places, those that mirrors copy too, and disks that of the
/// completed fragments. The tally has the number of unfinished writes of each round, none of an earlier round is
/// unfinished, and nothing is begun of a later one. Each book has a place for every node that is open there or that its
/// writer's writes still open. What tasks have in hand is of the pools that they asked, and a bio that a completer
/// brings is of its disk and has the end of its fragment.
pub fn every_run_is_sound()
    ensures { EveryRunIsSound }
{}

/// After every event of every run of every scenario the bios that name a node, and the nodes under it, are parts of the node's own write: there
/// is a write for each place of each book such that all that stands at the place or refers to it is of that write.
pub fn nodes_are_of_one_write()
    ensures { AllAreOfOneWrite }
{}

/// No run of any scenario tells a write done twice, and each write is unfinished until it is told done. The tally has the status that was told of it.
/// So where no write is unfinished, each was told done once.
pub fn each_is_done_once()
    ensures once { EachIsDoneOnce }
    ensures unfinished { WritesAreUnfinishedUntilDone }
    ensures statuses { TallyHasStatuses }
    ensures ended { NoneIsLeftUndone }
{}

/// Each write of each run of every scenario is told done while its round is the present one, and the round that starts next is the one behind it.
pub fn rounds_go_by_their_numbers()
    ensures done { WritesAreDoneInTheirRound }
    ensures starts { RoundsStartInTurn }
{}

/// Where each mirror of two members or more has a rescuer, no task of any run waits for a bio of a set while it has one of that set in its own
/// lists. It tries for one without waiting, or punts, only where the set has a rescuer, and bios wait for rescuers only where there is one.
pub fn none_waits_for_itself()
    ensures { NoTaskWaitsForItself }
{}

/// While a write of a run is unfinished, an event can come next that needs no ordinary memory, whatever came before: where each mirror of two
/// or more members has a rescuer, each pool keeps an element, the rounds of writes do not fall, and fewer than 2^64 - 9 events came. In a
/// scenario that is allowed it does not matter how many came.
pub fn no_state_is_stuck()
    ensures few { NoStateIsStuck }
    ensures allowed { NoAllowedStateIsStuck }
{}

/// Every event of every run lowers the rank of the state, which is all that can still come of it. So no run of any scenario has more than
/// 8 E + 2 G + Z events: for the elements E and the fragments G of all its writes, and for its script entries, rounds behind the first and
/// changes of reserves, Z together.
pub fn runs_are_bounded()
    ensures lowers { EventsLowerRank }
    ensures opened { OpenedRankIsBounded }
    ensures bounded { RunsAreBounded }
{}

/// However the kinds of event are priced, the events of no run of any scenario cost more than all that pays for them, by the table of what each bio,
/// vector, record, fragment, entry, round and change pays for: so no charge is used twice, and no more is ever spent than is charged. Nor do the
/// events behind any reached state cost more than the charges that are open there without those that are open behind them.
pub fn events_have_charges()
    ensures all { CostsAreCharged }
    ensures spent { NoMoreIsSpent }
    ensures later { EventsUseUpCharges }
{}

/// How many things pay for events, the scenario tells by its layout, its scripts, its rounds and its changes of reserves:
/// the bios of writes, their vectors, the records of mirrors, and the bios of first pieces and of legs, which are together
/// the elements that all writes need; the fragments; the entries of scripts, the rounds behind the first, and the changes.
/// Whatever the price of each kind of event, all that a scenario is charged is the sum of what each of these pays. And of
/// each kind of event no run of any scenario has more than there are of what pays for it.
pub fn each_kind_is_within_its_payers()
    ensures counted { PayersAreCounted }
    ensures kinds { EachKindIsWithinItsPayers }
{}

/// Where no take of a run misses, the layout, the rounds and the changes of reserves fix how many events it has once it has ended: each element is
/// taken and given back, each node linked, and each fragment pushed and completed; each fragment and each node under another is told to a node,
/// each write is done, and the keeper has done all that it has to.
pub fn steps_without_misses()
    ensures { StepsWithoutMisses }
{}

/// After every event of every run of every scenario each book has a place for each node that is open there or that its writer's writes have
/// still to open.
pub fn books_have_room()
    ensures { BooksHaveRoom }
{}

/// No task of any run of any scenario that is allowed meets a refusal. Where it asks a book next, the book has a vacant place for a new node, and
/// each node that the task names is open; and where the keeper may change a reserve, every element is at home. So no task breaks off,
/// and once its look lets a task ask, whatever it is answered is an event that comes next, or changes neither the task nor an object.
pub fn no_task_breaks()
    ensures unrefused { NoTaskBreaks }
    ensures replies { RepliesAreEvents }
{}

/// No pool of any run of any scenario has more elements out than all writes need, and no node waits for more ends than its book has places and
/// there are tasks, and one. So in a scenario that is allowed no counter of 64 bits comes to its largest number.
pub fn no_counter_is_full()
    ensures outs { OutsAreWithinWhatWritesNeed }
    ensures ends { EndsAreWithinPlacesAndTasks }
    ensures counters { NoCounterIsFull }
{}

/// So a run of a scenario that is allowed either can go on with an event that needs no ordinary memory, or has ended: each write is done, and
/// each element is at home. As where no state is stuck, that is so where each mirror of two members or more has a rescuer, each pool keeps an
/// element, and rounds do not fall.
pub fn each_run_goes_on_or_has_ended()
    ensures { EachRunGoesOnOrHasEnded }
{}

/// Every run of every scenario has ended as soon as no write of it is unfinished: then each element is at home.
pub fn runs_end_with_their_writes()
    ensures { RunsEndWithTheirWrites }
{}

/// Where the keeper of a run is to start a round next, there is one behind the present one: where each pool keeps an element and the rounds of writes
/// do not fall.
pub fn started_rounds_are_there()
    ensures { StartedRoundsAreThere }
{}

/// Every run of every scenario completes each fragment of each write at most once, and no other. However fragments are counted, those that a
/// run has completed and those that are still to come are together those of the scenario's writes. So where nothing is left to come each was
/// completed exactly once.
pub fn fragments_are_completed_once()
    ensures all { FragmentsAddUp }
    ensures once { NoneIsCompletedTwice }
    ensures others { NoOtherIsCompleted }
    ensures ended { EachIsCompletedOnce }
{}

/// When a write of any run of any scenario is told done, nothing of it is left to come: each of its fragments was completed before, exactly once,
/// and no other with its number.
pub fn writes_are_completed_before_they_are_done()
    ensures { DoneIsCompleted }
{}

/// Whenever a write of any run of any scenario is told done, its status is one that its fragments give, each of which ends as the bad ranges of
/// its disk say: at a device that cuts well where every piece may end well, and else as some piece may; at a mirror well where some leg may end
/// well, and else with an error of no kind. So where a run has ended, the tally has such a status for each write. For after every event each open
/// node keeps only what its run may end with, and what decides whether its run ends well was kept or is still to come.
pub fn statuses_are_given()
    ensures kept { NodesAreValued }
    ensures done { StatusesAreGiven }
    ensures ended { EndedStatusesAreGiven }
{}

/// Nothing is left to come where no element is out of any pool and each write was begun: then no bio waits for a rescuer or in a disk, and no
/// task submits one. So it is where a run has ended.
pub fn nothing_comes_where_all_is_home()
    ensures home { NothingComesWhereAllIsHome }
    ensures ended { NothingComesWhereEnded }
{}

/// In every run of every scenario each sector of each disk holds the data of the last fragment there that has no fault in any of its sectors, of
/// those that the run has completed, at that fragment's place in its write, and zeros where there is none.
pub fn images_are_of_completed()
    ensures { ImagesAreOfCompleted }
{}

/// After every event of every run of every scenario all that is at work is of writes of the present round: each open node, what completers still
/// carry of closed ones, each bio that is submitted or brought or waits for a rescuer or in a disk, and each that a mirror copies. So nothing of an
/// earlier round is left when a round starts. What a writer has gathered for a write that has not begun, and what a task that broke off keeps, is not
/// at work.
pub fn work_is_of_the_present_round()
    ensures { WorkIsPresent }
{}

/// So every run of every scenario completes its fragments round by round.
pub fn rounds_come_in_order()
    ensures { RoundsComeInOrder }
{}

/// Where no two writes of a round have a sector in common, and each goes to a device that is no member, at most one fragment of a round writes a
/// sector.
pub fn one_fragment_a_sector_a_round()
    ensures { OneFragmentASectorARound }
{}

/// So every run of a scenario with such writes that has ended leaves exactly the laid-out images: each disk has its sectors, and each of them holds
/// what is laid out there, in whatever order events came and bios were completed.
pub fn images_are_laid_out()
    ensures { ImagesAreLaidOut }
{}

/// What is laid out in a sector is one thing. So all runs of a scenario that have ended leave the same images, where no two writes of a round have
/// a sector in common, and each goes to a device that is no member.
pub fn ended_runs_leave_the_same()
    ensures laid { LaidIsOne }
    ensures same { EndedRunsLeaveTheSame }
{}

/// What a text means of which no line is refused is a scenario that can be run: all that the laws ask of one holds, but that mirrors have
/// rescuers, which the check of declarations says by itself. The E, G and Z that were counted as it was read make its bound, 8 E + 2 G + Z, and
/// the bound of each such scenario is below 2^24.
pub fn accepted_texts_are_runnable()
    ensures runnable { AcceptedTextsAreRunnable }
    ensures few { StepsFitIn24Bits }
{}

/// So of every scenario that can be run, whose mirrors of two members or more have rescuers, in every interleaving: each pool adds up, each write
/// is told done at most once, after exactly its fragments and with a status that they give, an ended run leaves exactly the laid-out images, and has
/// the number of events that the layout fixes where no take missed, while a write is unfinished an event can come next that needs no ordinary memory,
/// and no run has more than 8 E + 2 G + Z events. So it is with every text of which no line is refused, by the bound that is told of it.
pub fn every_run_is_as_claimed()
    ensures all { EveryRunIsAsClaimed }
    ensures accepted { AcceptedTextsRunAsClaimed }
{}
