//! What the lines so far have declared.
ghost use Rattle.std.specs.Prelude.{◌≡◌, ◌==◌, ◌+◌, ◌||◌, false, nat_lt};
ghost use Rattle.decl_text.specs.Known.{nothing_declared};
ghost use Rattle.decl_text.specs.Read.{IsDeclaration};
ghost use Rattle.stack_check.specs.Adding.{Adds};

use crate::devices::Devices;
use crate::fault::AddFault;
use crate::placed::Placed;
use crate::scripts::Scripts;
use crate::what::MOST_ELEMENTS;
use decl_text::{Item, Reason, What, Word};
use fail_script::Script;
use stack_base::{Bad, DevId, Range};
use std::alloc::{AllocError, Global};
use std::marker::Model;

/// The bad ranges that there may be.
const MOST_BAD: usize = 1024;

/// A range of a disk at which writes fail.
#[derive(Drop)]
pub(crate) struct BadAt {
    pub(crate) disk: DevId,
    pub(crate) bad: Bad,
}

impl Model for BadAt {
    ghost use Rattle.decl_text.specs.Known.{BadOf};

    ghost Value = { BadOf };

    ghost view = { λ at. record { disk = at.disk.0; bad = at.bad } };
}

impl BadAt {
    /// Whether it is one of the disk of this number.
    pub(crate) fn is_at(&self, number: u32) -> bool
        ensures { result ≡ (self.now.disk == number) }
    {
        self.disk.0 == number
    }
}

/// The reserves of the writers' set.
#[derive(Drop)]
pub(crate) struct FsReserves {
    pub(crate) bios: u64,
    pub(crate) vecs: u64,
}

impl Model for FsReserves {
    ghost use Rattle.decl_text.specs.Known.{Reserves};

    ghost Value = { Reserves };

    ghost view = { λ reserves. record { bios = reserves.bios; vecs = reserves.vecs } };
}

/// What was declared, each in the order of its lines. What is known of the lines so far is one record of the definitions, and this is seen as it.
#[derive(Drop)]
pub(crate) struct Draft<'a> {
    pub(crate) devices: Devices<'a>,
    pub(crate) bad: Vec<BadAt>,
    pub(crate) fs: Option<FsReserves>,
    pub(crate) scripts: Scripts,
    /// Whether every pool without a script has no ordinary memory.
    pub(crate) no_memory: bool,
}

impl<'a> Model for Draft<'a> {
    ghost use Rattle.std.specs.Prelude.{[]};
    ghost use Rattle.decl_text.specs.Known.{Declarations};
    ghost use Rattle.stack_check.specs.Sound.{AreOfDisks, HasFewElements};

    ghost Value = { Declarations };

    ghost view = { λ draft. record { devices = draft.devices; fs = draft.fs; bad = draft.bad.items; scripts = draft.scripts; no_memory = draft.no_memory; writes = []; rounds = []; syncs = 0; resizes = [] } };

    ghost invariant = { λ draft. AreOfDisks draft.devices draft.bad.items × HasFewElements draft.fs };
}

impl<'a> Draft<'a> {
    /// Nothing.
    pub(crate) fn new(alloc: Global) -> Draft<'a>
        ensures { result ≡ nothing_declared }
    {
        Draft {
            devices: Devices::new(alloc),
            bad: Vec::new(alloc),
            fs: None,
            scripts: Scripts::new(alloc),
            no_memory: false,
        }
    }

    /// Adds what a line of the declarations says, if no check finds it wrong, where a loose one asks for no rescuers.
    pub(crate) fn add(&mut self, item: Item<'a>, loose: bool) -> Result<(), AddFault>
        requires { IsDeclaration item }
        ensures { Adds loose self.old item.entry self.new result }
    {
        match item {
            Item::Device {
                name,
                what,
                members,
                reserve,
                rescuer,
            } => self.add_device(name, what, members.as_slice(), reserve, rescuer, loose),
            Item::Bad { disk, range, kind } => self.add_bad(&disk, Bad { range, kind }),
            Item::Fs { bios, vecs } => self.add_fs(bios, vecs),
            Item::Script { pool, script } => self.add_script(&pool, script),
            Item::NoMemory => self.add_no_memory(),
            Item::Write { .. } | Item::Sync | Item::Resize { .. } => unreachable!(),
        }
    }

    /// Adds the device of this line.
    fn add_device(
        &mut self,
        name: Word<'a>,
        what: What,
        names: &[Word<'a>],
        reserve: u64,
        rescuer: bool,
        loose: bool,
    ) -> Result<(), AddFault>
        requires { IsDeclaration (Item.Device name what names.now reserve rescuer) }
        ensures { Adds loose self.old (Item.Device name.entry what names.entry.now reserve rescuer) self.new result }
    {
        let helped = is_helped(rescuer, loose);
        if let Some(reason) = self.devices.reason(&name, what, names, reserve, helped) {
            return Err(AddFault::Wrong(reason));
        }
        let members = self.devices.numbers(names);
        let capacity = self.devices.size_over(what, &members);
        let placed = Placed {
            name,
            what,
            members,
            reserve,
            rescuer,
        };
        self.devices.push(placed, capacity)?;
        Ok(())
    }

    /// Adds the range of the disk of this name, at which writes fail.
    #[tactic(auto, unfolding(decl_text::specs::Refusals::first_found))]
    fn add_bad(&mut self, disk: &Word<'_>, bad: Bad) -> Result<(), AddFault>
        ensures { Adds false self.old (Item.Bad disk.now bad.range bad.kind) self.new result }
    {
        let Some(number) = self.devices.place_of(disk) else {
            return Err(AddFault::Wrong(Reason::NoSuchDevice));
        };
        if !self.devices.is_disk_at(number) {
            return Err(AddFault::Wrong(Reason::BadShape));
        }
        if self.bad.len() >= MOST_BAD {
            return Err(AddFault::Wrong(Reason::TooLarge));
        }
        if ends_past(bad.range, self.devices.size_at(number)) {
            return Err(AddFault::Wrong(Reason::PastEnd));
        }
        let disk = DevId(number as u32);
        self.bad
            .push(BadAt { disk, bad })
            .map_err(AllocError::from)?;
        Ok(())
    }

    /// Adds the script of the pool of this name.
    #[tactic(auto, unfolding(decl_text::specs::Refusals::first_found))]
    fn add_script(&mut self, name: &Word<'_>, script: Script) -> Result<(), AddFault>
        ensures { Adds false self.old (Item.Script name.now script) self.new result }
    {
        let pool = self.devices.pool_of(name);
        if self.scripts.has(pool) {
            return Err(AddFault::Wrong(Reason::NameTaken));
        }
        if self.scripts.has_no_room(script.entries()) {
            return Err(AddFault::Wrong(Reason::TooLarge));
        }
        let Some(pool) = pool else {
            return Err(AddFault::Wrong(Reason::NoSuchPool));
        };
        self.scripts.push(pool, script)?;
        Ok(())
    }

    /// Adds the reserves of the writers' set.
    #[tactic(auto, unfolding(decl_text::specs::Refusals::first_found))]
    fn add_fs(&mut self, bios: u64, vecs: u64) -> Result<(), AddFault>
        ensures { Adds false self.old (Item.Fs bios vecs) self.new result }
    {
        if self.fs.is_some() {
            return Err(AddFault::Wrong(Reason::NameTaken));
        }
        if bios > MOST_ELEMENTS || vecs > MOST_ELEMENTS {
            return Err(AddFault::Wrong(Reason::TooLarge));
        }
        if bios == 0 || vecs == 0 {
            return Err(AddFault::Wrong(Reason::ReserveZero));
        }
        self.fs = Some(FsReserves { bios, vecs });
        Ok(())
    }

    /// Adds that pools without a script have no ordinary memory.
    #[tactic(auto, unfolding(decl_text::specs::Refusals::first_found))]
    fn add_no_memory(&mut self) -> Result<(), AddFault>
        ensures { Adds false self.old Item.NoMemory self.new result }
    {
        if self.no_memory {
            return Err(AddFault::Wrong(Reason::NameTaken));
        }
        self.no_memory = true;
        Ok(())
    }
}

/// Whether a device has a rescuer, or needs none where its line is read loosely.
fn is_helped(rescuer: bool, loose: bool) -> bool
    ensures { result ≡ (loose || rescuer) }
{
    loose || rescuer
}

/// Whether the range ends behind a device of this size.
fn ends_past(range: Range, size: u64) -> bool
    ensures { result ≡ nat_lt size (range.start + range.len) }
{
    range.start > size || range.len > size - range.start
}
