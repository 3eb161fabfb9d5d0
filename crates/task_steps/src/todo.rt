//! The writes that a writer has still to begin.
ghost use Rattle.std.specs.Prelude.{◌≡◌, ◌≢◌, [], drop, MatchOption};
ghost use Rattle.task_steps.specs.WriterViews.{BeginsWith};

use layout_model::Write;
use std::marker::Model;

/// A write that a writer has still to begin.
#[derive(Clone, Copy)]
pub struct Todo {
    /// Its number, by its place in the text.
    pub number: u32,
    /// The round that it is of.
    pub round: u32,
    pub write: Write,
}

impl Model for Todo {
    ghost use Rattle.run_machine.specs.Tasks.{Todo as TodoState};

    ghost Value = { TodoState };

    ghost view = { λ t. record { number = t.number; round = t.round; write = t.write } };

    ghost inverse = { λ t. record { number = t.number; round = t.round; write = t.write } };
}

/// The writes of a writer that it has still to begin, seen as the list of these. Those that are begun stay in the
/// vector, so that a step moves and frees nothing; no call takes memory.
#[derive(Drop)]
pub struct Todos {
    writes: Vec<Todo>,
    // How many of them are begun.
    begun: usize,
}

impl Model for Todos {
    ghost use Rattle.std.specs.Prelude.{List, drop};
    ghost use Rattle.run_machine.specs.Tasks.{Todo as TodoState};

    ghost Value = { List TodoState };

    ghost view = { λ t. drop t.begun t.writes.items };
}

impl Todos {
    /// All of these are still to begin.
    pub fn new(writes: Vec<Todo>) -> Todos
        ensures { result ≡ writes.items }
    {
        Todos { writes, begun: 0 }
    }

    /// The first one, if there is one.
    pub fn first(&self) -> Option<Todo>
        ensures { MatchOption result (self.now ≡ []) (BeginsWith self.now) }
    {
        self.writes.get(self.begun).copied()
    }

    /// All that are left, in their order.
    pub fn rest(&self) -> &[Todo]
        ensures { result.now ≡ self.now }
    {
        self.writes.get(self.begun..).unwrap_or(&[])
    }

    /// The first one is begun.
    pub fn advance(&mut self)
        requires { self.old ≢ [] }
        ensures { self.new ≡ drop 1 self.old }
    {
        self.begun += 1;
    }
}
