//! What holds of orders, as functions that do nothing.
ghost use Rattle.biostack_words.specs.Laws.{WorkersAreFew};

/// An order for threads is for 1 to 16 of them.
pub fn workers_are_few()
    ensures { WorkersAreFew }
{}
