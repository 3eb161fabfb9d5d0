//! The rule of a clock's table, and its kinds of step: a draw, the split of a pass, the join of a pass, and the look after it.
ghost use Rattle.tick_clock.specs.Ticking.{IsTicking, first_pass_view, TriesToDraw, Looks, split_pass_view, fresh_pass_view, joined_pass_view, spent_pass_view};

use atomic_table::{Join, Play, Split, TableRule};
use std::collections::LinkedList;

/// Which of a clock's passes a pass is. No value of it is ever made.
pub enum PassRank {
    /// The one that was made with the clock, and the number of passes that were split off it.
    First(u64),
    /// One that was split off the first.
    Other,
    /// One that was joined into another.
    Spent,
}

/// A ticket as contracts see it. No value of it is ever made.
pub struct Ticket {
    /// The number that was drawn.
    pub number: u64,
    /// The greatest ticket that its pass or its note had seen before; 0 where they had seen none. It is kept so that "one more than what was
    /// seen" is one line of the definition.
    pub seen: u64,
}

/// What the seat of a pass knows. No value of it is ever made.
pub struct PassView {
    pub rank: PassRank,
    pub joined: u64,
    pub known: u64,
    pub drawn: LinkedList<Ticket>,
}

/// The word is the last ticket drawn, the tickets rise, and the views have each of them once.
pub struct Ticking;

impl TableRule<u64, PassView, ()> for Ticking {
    ghost holds = { λ _. IsTicking };

    ghost first = { λ _. first_pass_view };
}

/// A pass draws a ticket, or finds that another was drawn. The step announces what the pass and the note had seen.
pub struct Draw;

impl Play<u64, PassView> for Draw {
    ghost then = { TriesToDraw };
}

/// A pass finds the last ticket.
pub struct Look;

impl Play<u64, PassView> for Look {
    ghost then = { Looks };
}

/// The first pass splits another off.
pub struct SplitPass;

impl Split<PassView> for SplitPass {
    ghost left = { split_pass_view };

    ghost right = { fresh_pass_view };
}

/// A pass takes another in, which is spent.
pub struct JoinPass;

impl Join<PassView> for JoinPass {
    ghost both = { joined_pass_view };

    ghost spent = { spent_pass_view };
}
