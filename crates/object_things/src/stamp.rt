//! What each thing has beside its object.
ghost use Rattle.std.specs.Prelude.{◌≡◌, ◌<◌, ◌≤◌, max, not, None, Some, true, false, IfSome};
ghost use Rattle.tick_clock.specs.Tickets.{drawn_with};
ghost use Rattle.object_things.specs.Stamps.{DrawsNone, HasDrawn, IsOver, PassBy, looked};

use std::alloc::Global;
use std::marker::Model;
use std::snapshot::Snapshot;
use std::sync::Arc;
use task_core::Plain;
use tick_clock::{Clock, Note, Pass};

/// What is the same for all things that were shared together.
#[derive(Drop)]
pub struct Common {
    clock: Clock,
    // The objects as they were opened. It has no bytes.
    opened: Snapshot<Plain>,
}

impl Model for Common {
    ghost use Rattle.object_things.specs.Stamps.{CommonState};

    ghost Value = { CommonState };

    ghost view = { λ c. record { clock = c.clock; opened = c.opened.value } };
}

/// What a thing has beside its object: the note, whether a draw found no ticket, and what it has in common with others.
#[derive(Drop)]
pub struct Stamp {
    note: Note,
    common: Arc<Common, Global>,
    // No ticket is drawn any more behind a draw that found none.
    spent: bool,
}

impl Model for Stamp {
    ghost use Rattle.object_things.specs.Stamps.{StampState};

    ghost Value = { StampState };

    ghost view = { λ s. record { note = s.note; spent = s.spent; common = s.common.value } };
}

/// The mark of a thing: which object it holds, and what it has in common with others. No value of it is ever made, nor of the next two: the trait
/// `Thing` names what its contracts speak of by types, and these stand there for their models.
pub struct Mark {
    common: Common,
}

impl Model for Mark {
    ghost use Rattle.object_things.specs.Stamps.{MarkState};
    ghost use Rattle.run_machine.specs.Laws.{OfNone};

    ghost Value = { MarkState };

    ghost view = { λ m. record { common = m.common; name = OfNone } };
}

/// What the history keeps of what is asked.
pub struct Asked;

impl Model for Asked {
    ghost use Rattle.run_machine.specs.Requests.{Request, Rest};

    ghost Value = { Request };

    ghost view = { λ _. Rest };
}

/// What the history keeps of a reply.
pub struct Told;

impl Model for Told {
    ghost use Rattle.std.specs.Prelude.{false, None};
    ghost use Rattle.object_things.specs.Stamps.{Told as State};
    ghost use Rattle.run_machine.specs.Requests.{NoTicket};

    ghost Value = { State };

    ghost view = { λ _. record { reply = NoTicket; note = 0; drew = false; drawn = None; chosen = None; ticket = None } };
}

/// What is asked of a thing, with the pass of the task that asks. Of a kind that has several objects it names the one, since what the history
/// keeps is made of the request alone.
pub struct Asking<Q> {
    pub pass: Pass,
    pub ask: Q,
}

/// A call could get no ticket, and was handed nothing that comes back.
#[derive(Clone, Copy)]
pub struct NoTicket;

/// What a call found of an object's note before it drew, the pass and the ticket behind that draw, and what was chosen.
pub(crate) struct Turn {
    pass: Pass,
    note: u64,
    drew: bool,
    drawn: Snapshot<Option<u64>>,
    chosen: Snapshot<Option<u64>>,
}

/// What a thing replies.
pub struct Replied<S> {
    pub pass: Pass,
    pub said: S,
    /// What the object's note had seen before.
    pub note: u64,
    /// Whether no draw had failed at the object before.
    pub drew: bool,
    /// The ticket that was drawn. It has no bytes: only clauses read it. So a close shows which call drew each ticket, and none has to be given back.
    pub drawn: Snapshot<Option<u64>>,
    /// The index that a completion was asked for, where it has completed a bio. It has no bytes either.
    pub chosen: Snapshot<Option<u64>>,
    /// The ticket that the entry of this call carries: the one that was drawn, where the call is an event. One that was refused is none.
    pub ticket: Option<u64>,
}

impl Common {
    /// The clock of these things, and the objects as they were opened.
    pub fn new(clock: Clock, opened: Snapshot<Plain>) -> Common
        ensures { result ≡ record { clock = clock; opened = opened.value } }
    {
        Common { clock, opened }
    }

    /// The clock that they draw from.
    pub fn clock(&self) -> &Clock
        ensures { result.now ≡ self.now.clock }
    {
        &self.clock
    }
}

impl Stamp {
    /// The stamp of an object that nothing was asked of.
    pub fn new(common: Arc<Common, Global>) -> Stamp
        ensures { result ≡ record { note = 0; spent = false; common = common.value } }
    {
        Stamp {
            note: Note::new(),
            common,
            spent: false,
        }
    }

    /// The note.
    pub(crate) fn into_note(self) -> Note
        ensures { result ≡ self.note }
    {
        self.note
    }

    /// What a call says that only looks: the pass meets the note, and nothing is drawn.
    #[inline(always)] // as the `serve` of each thing
    pub(crate) fn look<S>(&self, mut pass: Pass, said: S) -> Replied<S>
        ensures looks { result ≡ looked self.now pass result.drawn result.chosen said }
        ensures none { result.drawn.value ≡ None }
        ensures chosen { result.chosen.value ≡ None }
    {
        pass.meet(&self.note);
        let ticket = None;
        Replied {
            pass,
            said,
            note: self.note.seen(),
            drew: !self.spent,
            drawn: Snapshot::of(&ticket),
            chosen: Snapshot::of(&ticket),
            ticket,
        }
    }

    /// The turn of a call that draws a ticket, and the ticket, if there was one.
    #[inline(always)] // as the `serve` of each thing
    pub(crate) fn turn(&mut self, mut pass: Pass) -> (Turn, Option<u64>)
        requires { pass.clock ≡ self.old.common.clock }
        ensures found { (result.0.note ≡ self.old.note) × (result.0.drew ≡ not self.old.spent) }
        ensures drawn { result.0.drawn.value ≡ result.1 }
        ensures chosen { result.0.chosen.value ≡ None }
        ensures some { IfSome result.1 (λ n. HasDrawn self.old n self.new) }
        ensures none { result.1 ≡ None → self.new ≡ record self.old { spent = true } }
        ensures pass { PassBy pass self.old.note true (not self.old.spent) result.1 result.0.pass }
    {
        let note = self.note.seen();
        let drew = !self.spent;
        let ticket = self.draw(&mut pass);
        let drawn = Snapshot::of(&ticket);
        (
            Turn {
                pass,
                note,
                drew,
                drawn,
                chosen: Snapshot::of(&None),
            },
            ticket,
        )
    }

    // Draws a ticket, if there is one.
    #[inline(always)] // as the `serve` of each thing
    fn draw(&mut self, pass: &mut Pass) -> Option<u64>
        requires { pass.old.clock ≡ self.old.common.clock }
        ensures ready { IfSome result (λ _. self.old.spent ≡ false) }
        ensures above { IfSome result (λ n. (max pass.old.seen self.old.note < n) × (pass.old.known < n)) }
        ensures drawn { IfSome result (λ n. pass.new ≡ drawn_with pass.old (max pass.old.seen self.old.note) n) }
        ensures noted { IfSome result (λ n. self.new ≡ record self.old { note = n }) }
        ensures none { result ≡ None → DrawsNone pass.old self.old pass.new self.new }
        ensures over { result ≡ None → self.old.spent ≡ false → IsOver pass.old self.old.note pass.new }
        ensures found { pass.old.known ≤ pass.new.known }
    {
        if self.spent {
            return None;
        }
        let drawn = self.common.clock.draw(pass, &mut self.note);
        self.spent = drawn.is_none();
        drawn
    }
}

impl Turn {
    /// The same turn, of a completion of the bio at this index.
    #[inline(always)] // as the `serve` of each thing
    pub(crate) fn choosing(self, index: u64) -> Turn
        ensures same { result ≡ record self { chosen = result.chosen } }
        ensures chosen { result.chosen.value ≡ Some index }
    {
        let Turn {
            pass,
            note,
            drew,
            drawn,
            chosen: _,
        } = self;
        Turn {
            pass,
            note,
            drew,
            drawn,
            chosen: Snapshot::of(&Some(index)),
        }
    }

    /// What a call says, with the ticket that its entry carries.
    #[inline(always)] // as the `serve` of each thing
    pub(crate) fn reply<S>(self, ticket: Option<u64>, said: S) -> Replied<S>
        ensures { result ≡ record { pass = self.pass; said = said; note = self.note; drew = self.drew; drawn = self.drawn; chosen = self.chosen; ticket = ticket } }
    {
        let Turn {
            pass,
            note,
            drew,
            drawn,
            chosen,
        } = self;
        Replied {
            pass,
            said,
            note,
            drew,
            drawn,
            chosen,
            ticket,
        }
    }
}
