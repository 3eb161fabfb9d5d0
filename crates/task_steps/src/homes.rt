//! What holds of tasks whose bios can be served and whose elements are at home, as functions that do nothing.
ghost use Rattle.task_steps.specs.Homes.{SubmissionsStayHome, TasksStayHome};
ghost use Rattle.task_steps.specs.Named.{TasksNameTheStack};

/// What a submission asks for fits the objects where each of its bios can be served, and with what objects owe for their replies it stays so:
/// no element is lost to another pool.
pub fn submissions_stay_home()
    ensures { SubmissionsStayHome }
{}

/// So it is with each task of the scenario that the objects are of.
pub fn tasks_stay_home()
    ensures { TasksStayHome }
{}

/// Whatever event is told of a task that a stage's objects have, whatever was replied, it names devices, disks and pools of their stack.
pub fn tasks_name_the_stack()
    ensures { TasksNameTheStack }
{}
