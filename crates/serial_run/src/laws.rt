//! What holds of each run by one thread, as functions that do nothing.
ghost use Rattle.serial_run.specs.Laws.{TurnsAreARun};

/// Events that follow a stream of words turn by turn are a run.
pub fn turns_are_a_run()
    ensures { TurnsAreARun }
{}
