//! What holds of the definitions, as functions that do nothing.
ghost use Rattle.decl_text.specs.Laws.{AcceptedStacksAreFit};

/// The devices of an accepted stack have names, no two the same; its pools keep 1 to 1,024 elements each, its disks have no pool and no
/// rescuer, and each bad range has a sector, ends within its disk and makes writes fail.
pub fn accepted_stacks_are_fit()
    ensures { AcceptedStacksAreFit }
{}
