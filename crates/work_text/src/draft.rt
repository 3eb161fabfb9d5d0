//! The work of a text so far.
ghost use Rattle.std.specs.Prelude.{◌≡◌, ◌+◌, ◌^◌, ◌<◌, ◌≤◌, [], ◌∷◌, ◌++◌, All, length, nat_lt, IfOk, OnOk};
ghost use Rattle.stack_base.specs.Stack.{IsStack};
ghost use Rattle.stack_base.specs.Tree.{size, tree};
ghost use Rattle.decl_text.specs.Fit.{IsFitStack};
ghost use Rattle.decl_text.specs.Stands.{stand_of};
ghost use Rattle.decl_text.specs.declared.item.Item.TheVariants as item;
ghost use Rattle.work_text.specs.Draft.{AddsToDraft, ChecksWrite, IsDraft, IsLeftOf, known_so_far};
ghost use Rattle.work_text.specs.Lines.{CanStand, HasSectors, ReadsLine, told_item};
ghost use Rattle.work_text.specs.Work.{known_of};

use crate::limits::{MOST_ELEMENTS, MOST_RESERVE, MOST_RESIZES, MOST_SECTORS, MOST_SYNCS};
use crate::marks::{Marks, no_marks};
use crate::names::{device_of, is_member};
use crate::pools::pool_of;
use crate::told::{Told, told_by};
use crate::{Resize, Work, resizes};
use decl_text::{LineFault, Reason, Stand, Word};
use layout_model::{Bounds, Needs, Write, need};
use stack_base::{Range, Stack};
use std::alloc::{AllocError, Global};

/// The work of a text so far, and which sectors of the devices the writes of the present round have.
#[derive(Drop)]
pub(crate) struct Draft {
    pub(crate) work: Work,
    /// How many `sync` lines there were.
    pub(crate) syncs: u32,
    /// Whether a write of the present round was there.
    is_written: bool,
    marks: Vec<Marks>,
}

impl Draft {
    /// No write yet. `entries` is the number of entries of all scripts.
    pub(crate) fn new(alloc: Global, stack: &Stack, entries: u64) -> Result<Draft, AllocError>
        requires { IsStack stack.now }
        ensures draft { IfOk result (λ draft. IsDraft stack.now draft) }
        ensures known { IfOk result (λ draft. known_so_far stack.now draft ≡ known_of stack.now) }
        ensures entries { IfOk result (λ draft. draft.work.bound.z ≡ entries) }
    {
        let marks = no_marks(alloc, stack)?;
        let bound = Bounds {
            e: 0,
            g: 0,
            z: entries,
        };
        let work = Work {
            writes: Vec::new(alloc),
            rounds: Vec::new(alloc),
            resizes: Vec::new(alloc),
            bound,
        };
        Ok(Draft {
            work,
            syncs: 0,
            is_written: false,
            marks,
        })
    }

    /// The work, without the `resize` lines behind the last write, and with what the others need.
    pub(crate) fn finish(self, alloc: Global) -> Result<Work, AllocError>
        requires entries { self.work.bound.z < 2 ^ 63 }
        requires rounds { All (λ round. round ≤ 1024) self.work.rounds.items }
        requires few { length self.work.resizes.items ≤ 4096 }
        ensures { IfOk result (IsLeftOf self.work) }
    {
        let Work {
            writes,
            rounds,
            resizes,
            mut bound,
        } = self.work;
        let last = resizes::last_round(&rounds);
        let resizes = resizes::lines_up_to(alloc, &resizes, last)?;
        bound.z += u64::from(last) + resizes.len() as u64;
        Ok(Work {
            writes,
            rounds,
            resizes,
            bound,
        })
    }

    // Where the next line stands.
    fn stand(&self, stack: &Stack) -> Stand
        requires draft { IsDraft stack.now self.now }
        ensures { result ≡ stand_of (known_so_far stack.now self.now) }
    {
        if self.is_written {
            Stand::BehindWrite
        } else if self.syncs == 0 {
            Stand::Front
        } else {
            Stand::BehindSync
        }
    }

    /// Adds what a line says of the work, where it says something.
    pub(crate) fn read_line(
        &mut self,
        alloc: Global,
        stack: &Stack,
        bytes: &[u8],
    ) -> Result<(), LineFault>
        requires stack { IsStack stack.now }
        requires fit { IsFitStack stack.now }
        requires draft { IsDraft stack.now self.old }
        requires stands { CanStand (known_so_far stack.now self.old) bytes.now }
        ensures draft { OnOk result (IsDraft stack.now self.new) }
        ensures entries { OnOk result (self.new.work.bound.z ≡ self.old.work.bound.z) }
        ensures read { ReadsLine (known_so_far stack.now self.old) bytes.now (known_so_far stack.now self.new) result }
    {
        match told_by(alloc, self.stand(stack), bytes)? {
            None => Ok(()),
            Some(told) => self.add(stack, &told),
        }
    }

    // Adds what is told.
    fn add(&mut self, stack: &Stack, told: &Told<'_>) -> Result<(), LineFault>
        requires stack { IsStack stack.now }
        requires fit { IsFitStack stack.now }
        requires draft { IsDraft stack.now self.old }
        requires sectors { HasSectors told.now }
        ensures draft { OnOk result (IsDraft stack.now self.new) }
        ensures entries { OnOk result (self.new.work.bound.z ≡ self.old.work.bound.z) }
        ensures added { AddsToDraft stack.now self.old (told_item told.now) self.new result }
    {
        match told {
            Told::Write {
                task,
                dev,
                range,
                tag,
            } => self.add_write(stack, *task, dev, *range, *tag),
            Told::Sync => self.add_sync(stack),
            Told::Resize { pool, min } => self.add_resize(stack, pool, *min),
        }
    }

    // Ends the round.
    #[tactic(auto, unfolding(decl_text::specs::Refusals::first_found))]
    fn add_sync(&mut self, stack: &Stack) -> Result<(), LineFault>
        requires draft { IsDraft stack.now self.old }
        ensures draft { OnOk result (IsDraft stack.now self.new) }
        ensures entries { OnOk result (self.new.work.bound.z ≡ self.old.work.bound.z) }
        ensures added { AddsToDraft stack.now self.old item.Sync self.new result }
    {
        if self.syncs >= MOST_SYNCS {
            return Err(LineFault::Wrong(Reason::TooLarge));
        }
        self.syncs += 1;
        self.is_written = false;
        Ok(())
    }

    // Adds the reserve of the pool of this name from the next round on.
    #[tactic(auto, unfolding(decl_text::specs::Refusals::first_found))]
    fn add_resize(&mut self, stack: &Stack, name: &Word<'_>, min: u64) -> Result<(), LineFault>
        requires stack { IsStack stack.now }
        requires draft { IsDraft stack.now self.old }
        ensures draft { OnOk result (IsDraft stack.now self.new) }
        ensures entries { OnOk result (self.new.work.bound.z ≡ self.old.work.bound.z) }
        ensures added { AddsToDraft stack.now self.old (item.Resize name.now min) self.new result }
    {
        let pool = pool_of(stack, name);
        if resizes::has_resize(&self.work.resizes, self.syncs, pool) {
            return Err(LineFault::Wrong(Reason::NameTaken));
        }
        if self.work.resizes.len() >= MOST_RESIZES || min > MOST_RESERVE {
            return Err(LineFault::Wrong(Reason::TooLarge));
        }
        if min == 0 {
            return Err(LineFault::Wrong(Reason::ReserveZero));
        }
        let Some(pool) = pool else {
            return Err(LineFault::Wrong(Reason::NoSuchPool));
        };
        let resize = Resize {
            round: self.syncs,
            pool,
            min: min as u32,
        };
        resizes::keep(&mut self.work.resizes, resize)?;
        Ok(())
    }

    // Adds a write to the device of this name.
    fn add_write(
        &mut self,
        stack: &Stack,
        task: u32,
        name: &Word<'_>,
        range: Range,
        tag: u64,
    ) -> Result<(), LineFault>
        requires stack { IsStack stack.now }
        requires fit { IsFitStack stack.now }
        requires draft { IsDraft stack.now self.old }
        requires some { 1 ≤ range.len }
        ensures draft { OnOk result (IsDraft stack.now self.new) }
        ensures entries { OnOk result (self.new.work.bound.z ≡ self.old.work.bound.z) }
        ensures added { AddsToDraft stack.now self.old (item.Write task name.now range tag) self.new result }
    {
        let Some(dev) = device_of(stack, name) else {
            return Err(LineFault::Wrong(Reason::NoSuchDevice));
        };
        let write = Write {
            task,
            dev,
            start: range.start,
            count: range.len,
            tag,
        };
        let needs = match self.check(stack, &write) {
            Ok(needs) => needs,
            Err(reason) => return Err(LineFault::Wrong(reason)),
        };
        keep(
            &mut self.work.writes,
            &mut self.work.rounds,
            write,
            self.syncs,
        )?;
        let marks = &mut self.marks[dev.0 as usize];
        marks.set(self.syncs + 1, write.start, write.count);
        self.is_written = true;
        self.work.bound.e += needs.elements;
        self.work.bound.g += needs.fragments;
        Ok(())
    }

    // What the write needs, where no check finds it.
    fn check(&self, stack: &Stack, write: &Write) -> Result<Needs, Reason>
        requires stack { IsStack stack.now }
        requires draft { IsDraft stack.now self.now }
        requires known { write.now.dev.0 < length stack.now.devices.items }
        requires some { 1 ≤ write.now.count }
        ensures { ChecksWrite stack.now self.now write.now result }
    {
        if is_member(stack, write.dev) {
            return Err(Reason::NotATop);
        }
        if ends_past(stack, write) {
            return Err(Reason::PastEnd);
        }
        let marks = &self.marks[write.dev.0 as usize];
        if marks.any(self.syncs + 1, write.start, write.count) {
            return Err(Reason::Overlap);
        }
        if write.count > MOST_SECTORS {
            return Err(Reason::TooManySegments);
        }
        let needs = need(stack, write);
        if needs.elements > MOST_ELEMENTS - self.work.bound.e {
            return Err(Reason::TooMuchWork);
        }
        Ok(needs)
    }
}

// Puts a write of this round behind the others.
fn keep(
    writes: &mut Vec<Write>,
    rounds: &mut Vec<u32>,
    write: Write,
    round: u32,
) -> Result<(), AllocError>
    ensures writes { OnOk result (writes.new.items ≡ writes.old.items ++ write ∷ []) }
    ensures rounds { OnOk result (rounds.new.items ≡ rounds.old.items ++ round ∷ []) }
{
    writes.push(write)?;
    rounds.push(round)?;
    Ok(())
}

// Whether the write ends behind its device.
fn ends_past(stack: &Stack, write: &Write) -> bool
    requires stack { IsStack stack.now }
    requires known { write.now.dev.0 < length stack.now.devices.items }
    ensures { result ≡ nat_lt (size (tree stack.now write.now.dev.0)) (write.now.start + write.now.count) }
{
    let size = stack.size(write.dev);
    write.count > size || write.start > size - write.count
}
