//! A disk as a thing.
ghost use Rattle.std.specs.Prelude.{◌≡◌};
ghost use Rattle.bio_records.specs.Items.{item_of, IsAlone};
ghost use Rattle.task_core.specs.ObjectsOf.{IsDiskOf};
ghost use Rattle.run_machine.specs.Requests.{Push, Complete as CompleteOf};
ghost use Rattle.task_steps.specs.Stage.{RequestFits};
ghost use Rattle.object_things.specs.declared.disk.DiskAsk.TheVariants as ask;
ghost use Rattle.object_things.specs.Stamps.{stage_in, PassByReply};
ghost use Rattle.object_things.specs.Disks.{DiskReplies, DiskSays, KeepsChoice, disk_replied};

use crate::stamp::{Asked, Asking, Mark, NoTicket, Replied, Stamp, Told};
use bio_records::BioElement;
use model_disks::{Disk, Done};
use seat_lock::Thing;
use stack_base::DevId;
use std::marker::Model;
use tick_clock::{Note, Pass};

/// What is asked of a disk.
pub enum DiskAsk {
    /// A bio becomes the last one that waits.
    Push { el: BioElement },
    /// How many bios wait.
    Look { disk: DevId },
    /// The bio at an index is completed, or the last one where fewer wait.
    Complete { disk: DevId, index: u64 },
}

/// What a disk says.
#[derive(Drop)]
pub enum DiskSaid {
    /// The bio waits, or comes back where there was no ticket.
    Pushed(Result<(), BioElement>),
    /// So many bios wait.
    Waiting(u64),
    /// The index and the bio that was completed there, if one waited, or that there was no ticket.
    Completed(Result<Option<(u64, Done)>, NoTicket>),
}

/// What the machine sees of a disk with its note. No value of it is ever made.
pub struct DiskData {
    disk: Disk,
}

impl Model for DiskData {
    ghost use Rattle.std.specs.Prelude.{false};
    ghost use Rattle.model_disks.specs.Disks.{DiskState};
    ghost use Rattle.object_things.specs.Stamps.{ThingState};

    ghost Value = { ThingState DiskState };

    ghost view = { λ k. record { object = k.disk; note = 0; spent = false } };
}

/// A disk with its note.
pub struct DiskThing {
    disk: Disk,
    stamp: Stamp,
}

// A drop by hand is proved here, once. A derived one every crate above would prove anew that drops a thing, or hands one to what may.
impl Drop for DiskThing {
    fn drop(self) {
        let DiskThing { disk, stamp } = self;
        drop(disk);
        drop(stamp);
    }
}

impl Model for DiskThing {
    ghost use Rattle.object_things.specs.Stamps.{Stamped};
    ghost use Rattle.model_disks.specs.Disks.{DiskState};
    ghost use Rattle.object_things.specs.Stamps.{stage_in};
    ghost use Rattle.task_core.specs.ObjectsOf.{IsDiskOf};

    ghost Value = { Stamped DiskState };

    ghost view = { λ t. record { object = t.disk; stamp = t.stamp } };

    ghost invariant = { λ t. IsDiskOf (stage_in t.stamp.common) t.disk.dev.0 t.disk };
}

impl DiskThing {
    /// A disk with this stamp.
    pub fn new(disk: Disk, stamp: Stamp) -> DiskThing
        requires { IsDiskOf (stage_in stamp.common) disk.dev.0 disk }
        ensures { result ≡ record { object = disk; stamp = stamp } }
    {
        DiskThing { disk, stamp }
    }

    /// A disk and its note.
    pub fn parts(self) -> (Disk, Note)
        ensures { (result.0 ≡ self.object) × (result.1 ≡ self.stamp.note) }
    {
        let DiskThing { disk, stamp } = self;
        (disk, stamp.into_note())
    }
}

impl Thing for DiskThing {
    ghost use Rattle.object_things.specs.Stamps.{thing_state};
    ghost use Rattle.object_things.specs.Disks.{DiskAnswers, DiskFits, DiskOwes, disk_asked, disk_mark, disk_told};

    type Request = Asking<DiskAsk>;

    type Reply = Replied<DiskSaid>;

    type Data = DiskData;

    type Asked = Asked;

    type Told = Told;

    type Mark = Mark;

    ghost plain = { λ thing. thing_state thing.object thing.stamp };

    ghost mark = { disk_mark };

    ghost asked = { λ asking. disk_asked asking.ask };

    ghost told = { disk_told };

    ghost fits = { DiskFits };

    ghost owes = { DiskOwes };

    ghost answers = { DiskAnswers };

    #[inline(always)] // a request that is known where it is made then has one arm
    fn serve(&mut self, asking: Asking<DiskAsk>) -> Replied<DiskSaid> {
        let Asking { pass, ask } = asking;
        match ask {
            DiskAsk::Push { el } => push(&mut self.disk, &mut self.stamp, pass, el),
            DiskAsk::Look { disk: _ } => self
                .stamp
                .look(pass, DiskSaid::Waiting(self.disk.pending())),
            DiskAsk::Complete { disk, index } => complete(
                &mut self.disk,
                &mut self.stamp,
                pass,
                disk,
                index,
            ),
        }
    }
}

// A bio comes to the disk.
#[inline(always)] // as `serve`
fn push(disk: &mut Disk, stamp: &mut Stamp, pass: Pass, el: BioElement) -> Replied<DiskSaid>
    requires clock { pass.clock ≡ stamp.old.common.clock }
    requires own { (item_of el).bio.dev.0 ≡ disk.old.dev.0 }
    requires alone { IsAlone el }
    requires fits { RequestFits (stage_in stamp.old.common) (Push (item_of el)) }
    requires of { IsDiskOf (stage_in stamp.old.common) disk.old.dev.0 disk.old }
    ensures answers { DiskReplies disk.old stamp.old (Push (item_of el)) result disk.new stamp.new }
    ensures pass { PassByReply disk_replied pass result }
    ensures says { DiskSays (stage_in stamp.old.common) (ask.Push el) result.said }
    ensures choice { KeepsChoice (ask.Push el) (disk_replied result.said) result.chosen.value }
    ensures same { (stamp.new.common ≡ stamp.old.common) × (disk.new.dev ≡ disk.old.dev) }
    ensures of { IsDiskOf (stage_in stamp.old.common) disk.old.dev.0 disk.new }
{
    let (turn, drawn) = stamp.turn(pass);
    match drawn {
        Some(ticket) => {
            disk.push(el);
            turn.reply(Some(ticket), DiskSaid::Pushed(Ok(())))
        }
        None => turn.reply(None, DiskSaid::Pushed(Err(el))),
    }
}

// A bio is done, if one waits.
#[inline(always)] // as `serve`
fn complete(
    disk: &mut Disk,
    stamp: &mut Stamp,
    pass: Pass,
    dev: DevId,
    index: u64,
) -> Replied<DiskSaid>
    requires clock { pass.clock ≡ stamp.old.common.clock }
    requires own { dev.0 ≡ disk.old.dev.0 }
    requires of { IsDiskOf (stage_in stamp.old.common) disk.old.dev.0 disk.old }
    ensures answers { DiskReplies disk.old stamp.old (CompleteOf dev) result disk.new stamp.new }
    ensures pass { PassByReply disk_replied pass result }
    ensures says { DiskSays (stage_in stamp.old.common) (ask.Complete dev index) result.said }
    ensures choice { KeepsChoice (ask.Complete dev index) (disk_replied result.said) result.chosen.value }
    ensures same { (stamp.new.common ≡ stamp.old.common) × (disk.new.dev ≡ disk.old.dev) }
    ensures of { IsDiskOf (stage_in stamp.old.common) disk.old.dev.0 disk.new }
{
    let pending = disk.pending();
    if pending == 0 {
        return stamp.look(pass, DiskSaid::Completed(Ok(None)));
    }
    let (turn, drawn) = stamp.turn(pass);
    let Some(ticket) = drawn else {
        return turn.reply(None, DiskSaid::Completed(Err(NoTicket)));
    };
    let at = index.min(pending - 1);
    let done = disk.complete(at);
    let said = DiskSaid::Completed(Ok(Some((at, done))));
    turn.choosing(index).reply(Some(ticket), said)
}
