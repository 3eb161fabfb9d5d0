//! Passes.
ghost use Rattle.std.specs.Prelude.{◌≡◌, max};
ghost use Rattle.tick_clock.specs.Tickets.{PassState};

use crate::note::Note;
use crate::ticking::PassView;
use atomic_table::Seat;
use std::marker::Model;

/// The leave to draw tickets from one clock. It keeps the greatest ticket that it has seen, of whatever clock.
///
/// Contracts see also which tickets were drawn with it, the last ticket of its clock that it has found, and whether it is the first
/// pass of its clock. It may be dropped; its tickets then stay drawn, and no other pass ever shows them.
///
/// It shows some row of all tickets, not the row: two passes that were never joined show two, which no clause compares. A join, and a draw that
/// finds no ticket, end with a look, so that what the pass has found is the last ticket at a moment of the call.
#[derive(Drop)]
pub struct Pass {
    pub(crate) seat: Seat<u64, PassView>,
    /// The greatest ticket that it has seen.
    pub(crate) seen: u64,
    /// The last ticket of its clock that it has found. The word is at least this.
    pub(crate) known: u64,
}

impl Model for Pass {
    ghost use Rattle.tick_clock.specs.Tickets.{PassState};
    ghost use Rattle.tick_clock.specs.Ticking.{state_of, IsPass};

    ghost Value = { PassState };

    ghost view = { λ p. state_of p.seat.table_id p.seat.me.0 p.seen };

    ghost invariant = { λ p. IsPass p.seat.me p.known };
}

impl Pass {
    /// The pass has then seen what the note has seen. The clock's word is not touched.
    pub fn meet(&mut self, note: &Note)
        ensures { self.new ≡ record self.old { seen = max self.old.seen note.now } }
    {
        self.seen = greater(self.seen, note.seen);
    }

    /// The greatest ticket that the pass has seen; 0 where it has seen none.
    pub fn seen(&self) -> u64
        ensures { result ≡ self.now.seen }
    {
        self.seen
    }
}

/// The greater of two numbers.
pub(crate) fn greater(a: u64, b: u64) -> u64
    ensures { result ≡ max a b }
{
    if a < b { b } else { a }
}
