//! What holds of the tickets of a clock, whoever drew them.
ghost use Rattle.std.specs.Prelude.{◌≡◌, ◌+◌, ◌<◌, ◌≤◌, List, length, All, IsPermutation};
ghost use Rattle.tick_clock.specs.declared.ticking.Ticket.{Ticket};
ghost use Rattle.tick_clock.specs.Tickets.{PassState, IsRising, EachInRow, last_of, AreApart, IsGreatest, IsOneOf, IsOneMore, SeeOwn, ShowsTickets, HasAll};

use crate::{Clock, Note, Pass};

/// No number is drawn twice.
pub fn no_number_occurs_twice()
    ensures { (row : List Ticket) → IsRising 0 row → AreApart row }
{}

/// Each ticket is greater than those before it, and one more than 0, than the ticket before it, or than what its pass or its note had
/// seen. Where they had seen no more than the ticket before it, it is one more than that one.
pub fn each_ticket_is_one_more()
    ensures above { EachInRow (λ front t. All (λ u. u.number < t.number) front) }
    ensures next { EachInRow (λ front t. t.seen ≤ last_of 0 front → t.number ≡ last_of 0 front + 1) }
    ensures of { (row : List Ticket) → IsRising 0 row → All (IsOneMore row) row }
{}

/// Where all notes and passes had seen tickets of this clock alone, the last ticket is the number of tickets.
pub fn tickets_are_counted()
    ensures { (row : List Ticket) → IsRising 0 row → SeeOwn row → last_of 0 row ≡ length row }
{}

/// What a pass has found is a ticket of its clock, where it is not 0, and is at least each ticket of the pass, of which no two are one number.
pub fn a_pass_has_each_ticket_once()
    ensures found { (pass : PassState) → (shown : ShowsTickets pass) → IsOneOf shown.row pass.known }
    ensures once { (pass : PassState) → ShowsTickets pass → AreApart pass.drawn × All (λ t. t.number ≤ pass.known) pass.drawn }
{}

/// Where every other pass was joined into the first one, its tickets are all of the clock, and what it has found is the greatest of them.
/// Each of them is one more than 0, than another of them, or than what its pass or its note had seen; and where these had seen
/// tickets of the clock alone, the greatest ticket is the number of tickets.
pub fn the_first_pass_has_all_tickets()
    ensures all { (pass : PassState) → (shown : ShowsTickets pass) → HasAll pass → IsPermutation shown.row pass.drawn }
    ensures greatest { (pass : PassState) → ShowsTickets pass → HasAll pass → IsGreatest pass.drawn pass.known }
    ensures one_more { (pass : PassState) → ShowsTickets pass → HasAll pass → All (IsOneMore pass.drawn) pass.drawn }
    ensures counted { (pass : PassState) → ShowsTickets pass → HasAll pass → SeeOwn pass.drawn → pass.known ≡ length pass.drawn }
{}

/// What is handed to it may go to another thread.
fn sent<X: Send>(x: &X) {
    let _ = x;
}

/// What is lent to it may be lent to several threads.
fn shared<X: Sync>(x: &X) {
    let _ = x;
}

/// Clocks may be shared among threads, and clocks, passes and notes handed from one to another.
fn threads_may_have_them(clock: &Clock, pass: &Pass, note: &Note) {
    shared(clock);
    sent(clock);
    sent(pass);
    sent(note);
}
