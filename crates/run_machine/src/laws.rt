//! What holds of the machine's definitions, as functions that do nothing.
ghost use Rattle.run_machine.specs.Laws.{OneObjectChanges, OneObjectDecides, OthersStay, PoolsAreNumbered, RunsAreJoined};
ghost use Rattle.run_machine.specs.OneState.{EventsLeadToOneState, RunsLeadToOneState};

/// A request changes no object but the one that it is for.
pub fn one_object_changes()
    ensures { OneObjectChanges }
{}

/// What a request makes of its object depends on that object and on nothing else. So an event depends on its task, on the object that the task
/// asks, and on the one that it looks at.
pub fn one_object_decides()
    ensures { OneObjectDecides }
{}

/// A step changes no task but its own. So every other task looks at and asks for what it did before: that is a function of the task.
pub fn others_stay()
    ensures { OthersStay }
{}

/// A run can be cut between any two events, and runs that follow on are one run.
pub fn runs_are_joined()
    ensures { RunsAreJoined }
{}

/// A pool of a stack is told by its number.
pub fn pools_are_numbered()
    ensures { PoolsAreNumbered }
{}

/// From a state in which no two tasks have one name an event leads to one state, and so do the events of a run.
pub fn events_lead_to_one_state()
    ensures { EventsLeadToOneState }
{}

/// No two tasks have one name in a run of a scenario. So all runs of the same events from its start end in one state.
pub fn runs_lead_to_one_state()
    ensures { RunsLeadToOneState }
{}
