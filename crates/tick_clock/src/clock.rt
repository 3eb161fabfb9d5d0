//! Clocks.
ghost use Rattle.std.specs.Prelude.{◌≡◌, ◌+◌, ◌<◌, ◌≤◌, ◌⊎◌, max, true, false, None, IfOk, IfSome};
ghost use Rattle.tick_clock.specs.Tickets.{first_pass, fresh_pass, is_first_pass, one_more_pass, drawn_with, joined_pass, IsEnd, IsSamePass, AreApart, ShowsTickets, Tries};

use crate::note::Note;
use crate::pass::{Pass, greater};
use crate::ticking::{Draw, JoinPass, Look, PassView, SplitPass, Ticking};
use atomic_table::Table;
use std::alloc::{AllocError, Global};
use std::marker::Model;

/// Gives out tickets, of 1 to 2^64 - 1. Contracts see which clock it is.
#[derive(Drop)]
pub struct Clock {
    table: Table<u64, PassView, (), Ticking, Global>,
}

impl Model for Clock {
    ghost use Rattle.std.specs.Prelude.{◌≡◌};
    ghost use Rattle.atomic_table.specs.Seated.{TableId};

    ghost Value = { TableId };

    ghost view = { λ c. c.table.shared.table_id };

    ghost invariant = { λ c. c.table.shared.table_id.words ≡ 1 };
}

impl Clock {
    /// A clock that has given out no ticket, and its first pass, which has seen none.
    ///
    /// # Errors
    ///
    /// Where there is no memory for its table, of one word.
    pub fn new(alloc: Global) -> Result<(Clock, Pass), AllocError>
        ensures { IfOk result (λ made. made.1 ≡ first_pass made.0) }
    {
        let (table, seat) = Table::of_words(alloc, &[0], &())?;
        let pass = Pass {
            seat,
            seen: 0,
            known: 0,
        };
        Ok((Clock { table }, pass))
    }

    /// Draws a ticket that is greater than all that the pass and the note have seen, and both have seen it then.
    ///
    /// `None` where there is none: the pass has found that the last ticket, 2^64 - 1, was drawn, or the pass or the note had seen a
    /// ticket 2^64 - 1, be it of another clock. Then nothing is drawn, and what both have seen stays as it was.
    pub fn draw(&self, pass: &mut Pass, note: &mut Note) -> Option<u64>
        requires { pass.old.clock ≡ self.now }
        ensures above { IfSome result (λ ticket. (max pass.old.seen note.old < ticket) × (pass.old.known < ticket)) }
        ensures drawn { IfSome result (λ ticket. pass.new ≡ drawn_with pass.old (max pass.old.seen note.old) ticket) }
        ensures told { IfSome result (λ ticket. note.new ≡ ticket) }
        ensures none { result ≡ None → (pass.new ≡ record pass.old { known = pass.new.known }) × (note.new ≡ note.old) }
        ensures end { result ≡ None → IsEnd pass.new.known ⊎ IsEnd (max pass.old.seen note.old) }
        ensures same { IsSamePass pass.old pass.new }
        ensures found { pass.old.known ≤ pass.new.known }
        ensures apart { AreApart pass.new.drawn }
        ensures shows { ShowsTickets pass.new }
    {
        let seen = greater(pass.seen, note.seen);
        let mut last = greater(pass.known, seen);
        while last < u64::MAX {
            let ticket = last + 1;
            if self.try_draw(pass, seen, ticket) {
                pass.seen = ticket;
                note.seen = ticket;
                return Some(ticket);
            }
            last = greater(pass.known, seen);
        }
        self.look(pass);
        None
    }

    /// Splits a pass off the first one. It has no tickets, and has seen what the first one has seen.
    pub fn split(&self, pass: &mut Pass) -> Pass
        requires own { pass.old.clock ≡ self.now }
        requires first { is_first_pass pass.old.rank ≡ true }
        ensures counted { pass.new ≡ record pass.old { rank = one_more_pass pass.old.rank } }
        ensures fresh { result ≡ fresh_pass pass.old }
    {
        let table = &self.table;
        let seat = table.shared.split_seat::<SplitPass>(&mut pass.seat);
        Pass {
            seat,
            seen: pass.seen,
            known: pass.known,
        }
    }

    /// Joins another pass into this one, which has then the tickets of both, and has seen what both had seen.
    pub fn join(&self, pass: &mut Pass, other: Pass)
        requires own { (pass.old.clock ≡ self.now) × (other.clock ≡ self.now) }
        requires other { is_first_pass other.rank ≡ false }
        ensures both { pass.new ≡ joined_pass pass.old other pass.new.known }
        ensures found { max pass.old.known other.known ≤ pass.new.known }
        ensures apart { AreApart pass.new.drawn }
        ensures shows { ShowsTickets pass.new }
    {
        let Pass { seat, seen, known } = other;
        let table = &self.table;
        table.shared.join_seat::<JoinPass>(&mut pass.seat, seat);
        pass.known = greater(pass.known, known);
        pass.seen = greater(pass.seen, seen);
        self.look(pass);
    }

    /// One try to draw this ticket. Where another was drawn since the pass last looked, it finds that one.
    fn try_draw(&self, pass: &mut Pass, seen: u64, ticket: u64) -> bool
        requires own { pass.old.clock ≡ self.now }
        requires next { ticket ≡ max pass.old.known seen + 1 }
        ensures tried { Tries pass.old seen ticket result pass.new }
        ensures shows { ShowsTickets pass.new }
    {
        let table = &self.table;
        let known = pass.known;
        let found = table
            .shared
            .compare_exchange_with::<Draw>(&mut pass.seat, 0, known, ticket, &seen);
        if found == known {
            pass.known = ticket;
            true
        } else {
            pass.known = found;
            false
        }
    }

    /// The pass finds the last ticket that was drawn.
    fn look(&self, pass: &mut Pass)
        requires { pass.old.clock ≡ self.now }
        ensures same { pass.new ≡ record pass.old { known = pass.new.known } }
        ensures found { pass.old.known ≤ pass.new.known }
        ensures shows { ShowsTickets pass.new }
    {
        let table = &self.table;
        pass.known = table.shared.load::<Look>(&mut pass.seat, 0);
    }
}
