//! A desk as the objects of its task: each call is one by the seats that it has.

use crate::caller::Caller;
use crate::desk::Desk;
use bio_books::{Dropped, Link};
use bio_records::{BioBody, BioElement, BioList, Pad, Slip, SlipElement, VecElement, Vector};
use mempool_core::Taken;
use model_disks::Done;
use stack_base::{DevId, PoolId, SetId, Status};
use std::sync::Wait;
use task_steps::{Ask, Chooser, Objects, Unmade};

impl<'a, R: Wait> Objects for Desk<'a, R> {
    ghost use Rattle.shared_objects.specs.Callers.{OwnDeskServes};
    ghost use Rattle.shared_objects.specs.Desks.{DeskFinds, DeskPicks};
    ghost use Rattle.shared_objects.specs.Holding.{DeskHolds, desk_of, stage_at};

    ghost stage = { λ desk. stage_at desk.locks.now };

    ghost holds = { λ desk. DeskHolds desk.locks.now desk.seats };

    ghost serves = { OwnDeskServes };

    ghost picks = { λ old new. DeskPicks (desk_of old.seats) (desk_of new.seats) };

    ghost finds = { λ old new. DeskFinds (desk_of old.seats) (desk_of new.seats) };

    fn take_bio(&mut self, set: SetId, waits: bool) -> Result<Taken<BioBody<Pad>>, Unmade> {
        let mut caller = Caller {
            rt: self.rt,
            locks: self.locks,
            seats: &mut self.seats,
        };
        caller.take_bio(set, waits)
    }

    fn take_vec(&mut self) -> Result<Taken<Vector>, Unmade> {
        let mut caller = Caller {
            rt: self.rt,
            locks: self.locks,
            seats: &mut self.seats,
        };
        caller.take_vec()
    }

    fn take_slip(&mut self, dev: DevId) -> Result<Taken<Slip>, Unmade> {
        let mut caller = Caller {
            rt: self.rt,
            locks: self.locks,
            seats: &mut self.seats,
        };
        caller.take_slip(dev)
    }

    fn give_bio(&mut self, el: BioElement) -> Result<(), Unmade> {
        let mut caller = Caller {
            rt: self.rt,
            locks: self.locks,
            seats: &mut self.seats,
        };
        caller.give_bio(el)
    }

    fn give_vec(&mut self, el: VecElement) -> Result<(), Unmade> {
        let mut caller = Caller {
            rt: self.rt,
            locks: self.locks,
            seats: &mut self.seats,
        };
        caller.give_vec(el)
    }

    fn give_slip(&mut self, el: SlipElement) -> Result<(), Unmade> {
        let mut caller = Caller {
            rt: self.rt,
            locks: self.locks,
            seats: &mut self.seats,
        };
        caller.give_slip(el)
    }

    fn punt(&mut self, dev: DevId, moved: BioList) -> Result<(), Unmade> {
        let mut caller = Caller {
            rt: self.rt,
            locks: self.locks,
            seats: &mut self.seats,
        };
        caller.punt(dev, moved)
    }

    fn pop(&mut self, dev: DevId) -> Result<Option<BioElement>, Unmade> {
        let mut caller = Caller {
            rt: self.rt,
            locks: self.locks,
            seats: &mut self.seats,
        };
        caller.pop(dev)
    }

    fn push(&mut self, el: BioElement) -> Result<(), Unmade> {
        let mut caller = Caller {
            rt: self.rt,
            locks: self.locks,
            seats: &mut self.seats,
        };
        caller.push(el)
    }

    fn complete<C: Chooser>(
        &mut self,
        disk: DevId,
        chooser: &mut C,
    ) -> Result<Option<(u64, Done)>, Unmade> {
        let mut caller = Caller {
            rt: self.rt,
            locks: self.locks,
            seats: &mut self.seats,
        };
        caller.complete(disk, chooser)
    }

    fn link(&mut self, writer: u32, ask: Ask) -> Result<Link, Unmade> {
        let mut caller = Caller {
            rt: self.rt,
            locks: self.locks,
            seats: &mut self.seats,
        };
        caller.link(writer, ask)
    }

    fn drop_one(
        &mut self,
        writer: u32,
        node: u32,
        status: Status,
        part: Option<BioElement>,
    ) -> Result<Dropped, Unmade> {
        let mut caller = Caller {
            rt: self.rt,
            locks: self.locks,
            seats: &mut self.seats,
        };
        caller.drop_one(writer, node, status, part)
    }

    fn done(&mut self, write: u32, status: Status) -> Result<(), Unmade> {
        let mut caller = Caller {
            rt: self.rt,
            locks: self.locks,
            seats: &mut self.seats,
        };
        caller.done(write, status)
    }

    fn resize(&mut self, pool: PoolId, min: u32) -> Result<u64, Unmade> {
        let mut caller = Caller {
            rt: self.rt,
            locks: self.locks,
            seats: &mut self.seats,
        };
        caller.resize(pool, min)
    }

    fn next_round(&mut self) -> Result<(), Unmade> {
        let mut caller = Caller {
            rt: self.rt,
            locks: self.locks,
            seats: &mut self.seats,
        };
        caller.next_round()
    }

    fn left(&mut self) -> u32 {
        let mut caller = Caller {
            rt: self.rt,
            locks: self.locks,
            seats: &mut self.seats,
        };
        caller.left()
    }

    fn round(&mut self) -> u32 {
        let mut caller = Caller {
            rt: self.rt,
            locks: self.locks,
            seats: &mut self.seats,
        };
        caller.round()
    }
}
