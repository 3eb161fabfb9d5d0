//! What holds of entries, as functions that do nothing.
ghost use Rattle.run_merge.specs.Closing.{ClosedRunsEnd};
ghost use Rattle.run_merge.specs.Merging.{MergesAreRuns};
ghost use Rattle.run_merge.specs.RoundNumbers.{RoundsAreNumbered};
ghost use Rattle.run_merge.specs.Products.{RunsAreProducts};
ghost use Rattle.run_merge.specs.SharedObjects.{ClosesAreRuns};
ghost use Rattle.run_merge.specs.Tracing.{NotesAreRuns};

/// A list of entries is that of a run exactly where it is a product: each is an event, those at each object are a run of its machine, those of
/// each task lead it on, the first take of each write stands behind the start of its round, and the start of each round and each change of a
/// reserve stand behind the end of all writes of the rounds before the one that starts next.
pub fn runs_are_products()
    ensures { RunsAreProducts }
{}

/// The first event of a run that starts a round starts round 1, and each later one the next round: the n-th of them has number n.
pub fn rounds_are_numbered()
    ensures { RoundsAreNumbered }
{}

/// The merge of histories is the entries of a run: where tickets rise along each object and each task, the entries at each object are a run of
/// its machine, those of each task lead it on, and each look let its task ask.
pub fn merges_are_runs()
    ensures { MergesAreRuns }
{}

/// Once every task has stopped, and whether or not draws failed and tasks were refused as far as anyone knows: what the closed objects show is enough
/// that none did and none was, that the merge of the histories is a run which has ended, and that it leaves the objects as they are.
pub fn closed_runs_end()
    ensures { ClosedRunsEnd }
{}

/// What a close of shared objects shows is enough for it, where they and the tasks were opened of an accepted text whose mirrors have rescuers: the
/// merge of the histories is a run that has ended and leaves what is left, no task broke off, and no draw failed. A call drew a ticket
/// exactly where it is an event of that run, which its entry carries; looks drew none.
pub fn closes_are_runs()
    ensures { ClosesAreRuns }
{}

/// The trace of a run by threads, of what a close shows: what all tasks noted of their calls, joined by the tickets that these drew, are the events
/// of each run whose entries are the merge of the histories.
pub fn notes_are_runs()
    ensures { NotesAreRuns }
{}
