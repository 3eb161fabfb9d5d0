//! The tally as a thing.
ghost use Rattle.std.specs.Prelude.{◌≡◌, ◌<◌};
ghost use Rattle.task_core.specs.Plains.{tally_of};
ghost use Rattle.run_machine.specs.Requests.{Done as DoneOf, NextRound};
ghost use Rattle.task_steps.specs.Stage.{Owes};
ghost use Rattle.object_things.specs.declared.tally.TallyAsk.TheVariants as ask;
ghost use Rattle.object_things.specs.Stamps.{PassByReply, stage_in};
ghost use Rattle.object_things.specs.Tallies.{IsTallyIn, TallyReplies, TallySays, tally_replied, tally_asked};

use crate::stamp::{Asked, Asking, Mark, NoTicket, Replied, Stamp, Told};
use seat_lock::Thing;
use stack_base::Status;
use std::marker::Model;
use task_core::Tally;
use tick_clock::{Note, Pass};

/// What is asked of the tally.
pub enum TallyAsk {
    /// A write of the present round is done, with this status.
    Done { write: u32, status: Status },
    /// The round behind the present one becomes the present one, if there is one.
    Next,
    /// The present round.
    Round,
    /// How many writes are unfinished.
    Left,
}

/// What the tally says.
#[derive(Drop)]
pub enum TallySaid {
    /// It did what was asked, or found no ticket.
    Did(Result<(), NoTicket>),
    /// The present round.
    Round(u32),
    /// So many writes are unfinished.
    Left(u32),
}

/// What the machine sees of the tally with its note. No value of it is ever made.
pub struct TallyData {
    tally: Tally,
}

impl Model for TallyData {
    ghost use Rattle.std.specs.Prelude.{false};
    ghost use Rattle.run_machine.specs.Objects.{TallyState};
    ghost use Rattle.task_core.specs.Plains.{tally_of};
    ghost use Rattle.object_things.specs.Stamps.{ThingState};

    ghost Value = { ThingState TallyState };

    ghost view = { λ k. record { object = tally_of k.tally; note = 0; spent = false } };
}

/// The tally with its note.
pub struct TallyThing {
    tally: Tally,
    stamp: Stamp,
}

// A drop by hand is proved here, once. A derived one every crate above would prove anew that drops a thing, or hands one to what may.
impl Drop for TallyThing {
    fn drop(self) {
        let TallyThing { tally, stamp } = self;
        drop(tally);
        drop(stamp);
    }
}

impl Model for TallyThing {
    ghost use Rattle.object_things.specs.Stamps.{Stamped};
    ghost use Rattle.run_machine.specs.Objects.{TallyState};
    ghost use Rattle.object_things.specs.Tallies.{IsLater};
    ghost use Rattle.task_core.specs.ObjectsOf.{IsTallyOf};
    ghost use Rattle.object_things.specs.Stamps.{stage_in, opened_tally};
    ghost use Rattle.task_core.specs.Plains.{tally_of};

    ghost Value = { Stamped TallyState };

    ghost view = { λ t. record { object = tally_of t.tally; stamp = t.stamp } };

    ghost invariant = { λ t. IsTallyOf (stage_in t.stamp.common) (tally_of t.tally) × IsLater (opened_tally t.stamp.common) (tally_of t.tally) };
}

impl TallyThing {
    /// The tally with this stamp.
    pub fn new(tally: Tally, stamp: Stamp) -> TallyThing
        requires { IsTallyIn stamp.common (tally_of tally) }
        ensures { result ≡ record { object = tally_of tally; stamp = stamp } }
    {
        TallyThing { tally, stamp }
    }

    /// The tally and its note.
    pub fn parts(self) -> (Tally, Note)
        ensures { (tally_of result.0 ≡ self.object) × (result.1 ≡ self.stamp.note) }
    {
        let TallyThing { tally, stamp } = self;
        (tally, stamp.into_note())
    }
}

impl Thing for TallyThing {
    ghost use Rattle.run_machine.specs.Laws.{OfTally};
    ghost use Rattle.object_things.specs.Stamps.{thing_state};
    ghost use Rattle.object_things.specs.Tallies.{TallyAnswers, TallyFits, TallyOwes, tally_asked, tally_mark, tally_told};

    type Request = Asking<TallyAsk>;

    type Reply = Replied<TallySaid>;

    type Data = TallyData;

    type Asked = Asked;

    type Told = Told;

    type Mark = Mark;

    ghost plain = { λ thing. thing_state thing.object thing.stamp };

    ghost mark = { tally_mark };

    ghost asked = { λ asking. tally_asked asking.ask };

    ghost told = { tally_told };

    ghost fits = { TallyFits };

    ghost owes = { TallyOwes };

    ghost answers = { TallyAnswers };

    #[inline(always)] // a request that is known where it is made then has one arm
    fn serve(&mut self, asking: Asking<TallyAsk>) -> Replied<TallySaid> {
        let Asking { pass, ask } = asking;
        match ask {
            TallyAsk::Done { write, status } => done(
                &mut self.tally,
                &mut self.stamp,
                pass,
                write,
                status,
            ),
            TallyAsk::Next => next(&mut self.tally, &mut self.stamp, pass),
            TallyAsk::Round => self.stamp.look(pass, TallySaid::Round(self.tally.round)),
            TallyAsk::Left => self.stamp.look(pass, TallySaid::Left(self.tally.left())),
        }
    }
}

// A write is done.
#[inline(always)] // as `serve`
fn done(
    tally: &mut Tally,
    stamp: &mut Stamp,
    pass: Pass,
    write: u32,
    status: Status,
) -> Replied<TallySaid>
    requires clock { pass.clock ≡ stamp.old.common.clock }
    requires fits { write < (stage_in stamp.old.common).writes }
    requires of { IsTallyIn stamp.old.common (tally_of tally.old) }
    ensures answers { TallyReplies (tally_of tally.old) stamp.old (DoneOf write status) result (tally_of tally.new) stamp.new }
    ensures pass { PassByReply tally_replied pass result }
    ensures owed { Owes (stage_in stamp.old.common) (DoneOf write status) (tally_replied result.said) }
    ensures says { TallySays (ask.Done write status) result.said }
    ensures same { stamp.new.common ≡ stamp.old.common }
    ensures of { IsTallyIn stamp.old.common (tally_of tally.new) }
{
    let (turn, drawn) = stamp.turn(pass);
    match drawn {
        Some(ticket) => {
            tally.done(write, status);
            turn.reply(Some(ticket), TallySaid::Did(Ok(())))
        }
        None => turn.reply(None, TallySaid::Did(Err(NoTicket))),
    }
}

// The next round.
#[inline(always)] // as `serve`
fn next(tally: &mut Tally, stamp: &mut Stamp, pass: Pass) -> Replied<TallySaid>
    requires clock { pass.clock ≡ stamp.old.common.clock }
    requires of { IsTallyIn stamp.old.common (tally_of tally.old) }
    ensures answers { TallyReplies (tally_of tally.old) stamp.old (NextRound 0) result (tally_of tally.new) stamp.new }
    ensures pass { PassByReply tally_replied pass result }
    ensures owed { Owes (stage_in stamp.old.common) (NextRound 0) (tally_replied result.said) }
    ensures says { TallySays ask.Next result.said }
    ensures same { stamp.new.common ≡ stamp.old.common }
    ensures of { IsTallyIn stamp.old.common (tally_of tally.new) }
{
    let (turn, drawn) = stamp.turn(pass);
    match drawn {
        Some(ticket) => {
            tally.next_round();
            turn.reply(Some(ticket), TallySaid::Did(Ok(())))
        }
        None => turn.reply(None, TallySaid::Did(Err(NoTicket))),
    }
}
