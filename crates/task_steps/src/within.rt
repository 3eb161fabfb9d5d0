//! What holds of submissions whose bios lie within their devices, as functions that do nothing.
ghost use Rattle.task_steps.specs.Within.{SubmissionsStayWithin, TasksStayWithin};

/// A submission of bios that all lie within their devices begins as such a one and stays one, whatever is replied, and what it punts lies
/// within too: each bio that it makes is a piece, a rest or a leg of one that it has. What its driver is asked for fits the device: a disk
/// takes the bio, a device that cuts has more than one piece of it, and a mirror has a leg left to make.
pub fn submissions_stay_within()
    ensures { SubmissionsStayWithin }
{}

/// So does a task whose writes do, if its rescuer takes no bios but such. What it punts is within, so that no rescuer takes any other.
pub fn tasks_stay_within()
    ensures { TasksStayWithin }
{}
