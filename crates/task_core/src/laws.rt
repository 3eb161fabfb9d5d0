//! What holds of the machine's definitions, as functions that do nothing.
ghost use Rattle.task_core.specs.opened.Begins.{OpenedBegins};
ghost use Rattle.task_core.specs.ObjectsOf.{ObjectsStay};
ghost use Rattle.task_core.specs.PlainSteps.{StepsAreEvents};

/// What a call makes of the objects of a stage are objects of this stage, and all that they hand out is at home in them.
pub fn objects_stay()
    ensures { ObjectsStay }
{}

/// A step over the objects of one thread that is told as an event is this event of the machine, with both its halves. One that is told as none,
/// where the task does not break off, changes nothing, and there the task has no event but such as need ordinary memory.
pub fn steps_are_events()
    ensures { StepsAreEvents }
{}

/// What is opened of a text is where the runs of its scenario begin.
pub fn opened_begins()
    ensures { OpenedBegins }
{}
