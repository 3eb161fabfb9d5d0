//! The list of a rescuer as a thing.
ghost use Rattle.std.specs.Prelude.{◌≡◌};
ghost use Rattle.run_machine.specs.Requests.{Punt, Pop};
ghost use Rattle.task_steps.specs.Stage.{AreServed, Owes};
ghost use Rattle.object_things.specs.declared.list.ListAsk.TheVariants as ask;
ghost use Rattle.object_things.specs.Stamps.{PassByReply, stage_in};
ghost use Rattle.object_things.specs.Lists.{ListReplies, ListSays, list_replied};

use crate::stamp::{Asked, Asking, Mark, NoTicket, Replied, Stamp, Told};
use bio_records::{BioElement, BioList, RescueList};
use seat_lock::Thing;
use stack_base::DevId;
use std::marker::Model;
use tick_clock::{Note, Pass};

/// What is asked of the list of a rescuer.
pub enum ListAsk {
    /// These bios go behind those that wait.
    Punt { dev: DevId, moved: BioList },
    /// The first bio that waits is taken out.
    Pop { dev: DevId },
}

/// What it says.
#[derive(Drop)]
pub enum ListSaid {
    /// The bios wait, or come back where there was no ticket.
    Punted(Result<(), BioList>),
    /// The bio, if one waited, or that there was no ticket.
    Popped(Result<Option<BioElement>, NoTicket>),
}

/// What the machine sees of a list with its note. No value of it is ever made.
pub struct ListData {
    list: RescueList,
}

impl Model for ListData {
    ghost use Rattle.std.specs.Prelude.{false};
    ghost use Rattle.bio_records.specs.Rescue.{Rescue};
    ghost use Rattle.object_things.specs.Stamps.{ThingState};

    ghost Value = { ThingState Rescue };

    ghost view = { λ k. record { object = k.list; note = 0; spent = false } };
}

/// The list of a rescuer with its note.
pub struct ListThing {
    list: RescueList,
    stamp: Stamp,
}

// A drop by hand is proved here, once. A derived one every crate above would prove anew that drops a thing, or hands one to what may.
impl Drop for ListThing {
    fn drop(self) {
        let ListThing { list, stamp } = self;
        drop(list);
        drop(stamp);
    }
}

impl Model for ListThing {
    ghost use Rattle.object_things.specs.Stamps.{Stamped};
    ghost use Rattle.bio_records.specs.Rescue.{Rescue};
    ghost use Rattle.object_things.specs.Stamps.{stage_in};
    ghost use Rattle.task_steps.specs.Stage.{AreServed};

    ghost Value = { Stamped Rescue };

    ghost view = { λ t. record { object = t.list; stamp = t.stamp } };

    ghost invariant = { λ t. AreServed (stage_in t.stamp.common) t.list.bios };
}

impl ListThing {
    /// The list of a rescuer with this stamp.
    pub fn new(list: RescueList, stamp: Stamp) -> ListThing
        requires { AreServed (stage_in stamp.common) list.bios }
        ensures { result ≡ record { object = list; stamp = stamp } }
    {
        ListThing { list, stamp }
    }

    /// The list of a rescuer and its note.
    pub fn parts(self) -> (RescueList, Note)
        ensures { (result.0 ≡ self.object) × (result.1 ≡ self.stamp.note) }
    {
        let ListThing { list, stamp } = self;
        (list, stamp.into_note())
    }
}

impl Thing for ListThing {
    ghost use Rattle.object_things.specs.Stamps.{thing_state};
    ghost use Rattle.object_things.specs.Lists.{ListAnswers, ListFits, ListOwes, list_asked, list_mark, list_told};

    type Request = Asking<ListAsk>;

    type Reply = Replied<ListSaid>;

    type Data = ListData;

    type Asked = Asked;

    type Told = Told;

    type Mark = Mark;

    ghost plain = { λ thing. thing_state thing.object thing.stamp };

    ghost mark = { list_mark };

    ghost asked = { λ asking. list_asked asking.ask };

    ghost told = { list_told };

    ghost fits = { ListFits };

    ghost owes = { ListOwes };

    ghost answers = { ListAnswers };

    #[inline(always)] // a request that is known where it is made then has one arm
    fn serve(&mut self, asking: Asking<ListAsk>) -> Replied<ListSaid> {
        let Asking { pass, ask } = asking;
        match ask {
            ListAsk::Punt { dev, moved } => punt(&mut self.list, &mut self.stamp, pass, dev, moved),
            ListAsk::Pop { dev } => pop(&mut self.list, &mut self.stamp, pass, dev),
        }
    }
}

// Bios come to the list.
#[inline(always)] // as `serve`
fn punt(
    list: &mut RescueList,
    stamp: &mut Stamp,
    pass: Pass,
    dev: DevId,
    moved: BioList,
) -> Replied<ListSaid>
    requires clock { pass.clock ≡ stamp.old.common.clock }
    requires own { dev.0 ≡ list.old.dev.0 }
    requires fits { AreServed (stage_in stamp.old.common) moved }
    requires of { AreServed (stage_in stamp.old.common) list.old.bios }
    ensures answers { ListReplies list.old stamp.old (Punt dev moved) result list.new stamp.new }
    ensures pass { PassByReply list_replied pass result }
    ensures owed { Owes (stage_in stamp.old.common) (Punt dev moved) (list_replied result.said) }
    ensures says { ListSays (ask.Punt dev moved) result.said }
    ensures same { (stamp.new.common ≡ stamp.old.common) × (list.new.dev ≡ list.old.dev) }
    ensures of { AreServed (stage_in stamp.old.common) list.new.bios }
{
    let (turn, drawn) = stamp.turn(pass);
    match drawn {
        Some(ticket) => {
            list.add(moved);
            turn.reply(Some(ticket), ListSaid::Punted(Ok(())))
        }
        None => turn.reply(None, ListSaid::Punted(Err(moved))),
    }
}

// The first bio leaves the list, if there is one.
#[inline(always)] // as `serve`
fn pop(list: &mut RescueList, stamp: &mut Stamp, pass: Pass, dev: DevId) -> Replied<ListSaid>
    requires clock { pass.clock ≡ stamp.old.common.clock }
    requires own { dev.0 ≡ list.old.dev.0 }
    requires of { AreServed (stage_in stamp.old.common) list.old.bios }
    ensures answers { ListReplies list.old stamp.old (Pop dev) result list.new stamp.new }
    ensures pass { PassByReply list_replied pass result }
    ensures owed { Owes (stage_in stamp.old.common) (Pop dev) (list_replied result.said) }
    ensures says { ListSays (ask.Pop dev) result.said }
    ensures same { (stamp.new.common ≡ stamp.old.common) × (list.new.dev ≡ list.old.dev) }
    ensures of { AreServed (stage_in stamp.old.common) list.new.bios }
{
    if list.is_empty() {
        return stamp.look(pass, ListSaid::Popped(Ok(None)));
    }
    let (turn, drawn) = stamp.turn(pass);
    let Some(ticket) = drawn else {
        return turn.reply(None, ListSaid::Popped(Err(NoTicket)));
    };
    let Some(el) = list.pop() else { unreachable!() };
    turn.reply(Some(ticket), ListSaid::Popped(Ok(Some(el))))
}
