//! The devices that the lines so far declare.
ghost use Rattle.std.specs.Prelude.{◌≡◌, ◌<◌, ◌≤◌, ◌||◌, [], ◌∷◌, ◌++◌, All, IfSome, IsTrue, MatchResult, false, OnSome, is_none, length, map, slice_get, unwrap_or};
ghost use Rattle.std.specs.List.{list_any};
ghost use Rattle.std.specs.Option.{option_map};
ghost use Rattle.stack_base.specs.Tree.{size};
ghost use Rattle.decl_text.specs.Known.{device_of, device_before, number_in, tree_of, trees};
ghost use Rattle.decl_text.specs.Checks.{has_count, is_disk_device};
ghost use Rattle.stack_check.specs.Rows.{SetsFlags, device_reason, has_no_room, size_with, takes_taken};
ghost use Rattle.stack_check.specs.Sound.{AreSound, HasNumbers};

use crate::placed::Placed;
use crate::what;
use arrayvec::ArrayVec;
use decl_text::{Reason, What, Word};
use stack_base::DevId;
use std::alloc::{AllocError, Global};
use std::marker::Model;

/// The devices and the disks that there may be, and the sectors that these may have together.
const MOST_DEVICES: usize = 32;

const MOST_DISKS: u64 = 16;

const MOST_SECTORS: u64 = 262_144;

/// The devices in the order of their lines, and what is looked up of them often.
#[derive(Drop)]
pub(crate) struct Devices<'a> {
    placed: Vec<Placed<'a>>,
    /// How many sectors each has.
    sizes: ArrayVec<u64, MOST_DEVICES>,
    /// Whether the device of a number is a member of another.
    taken: [bool; MOST_DEVICES],
    /// How many disks there are, and how many sectors these have together.
    disks: u64,
    sectors: u64,
}

impl<'a> Model for Devices<'a> {
    ghost use Rattle.std.specs.Prelude.{List};
    ghost use Rattle.decl_text.specs.Known.{Declared};
    ghost use Rattle.stack_check.specs.Sound.{AreTalliedDevices};

    ghost Value = { List Declared };

    ghost view = { λ devices. devices.placed.items };

    ghost invariant = { λ devices. AreTalliedDevices devices.sizes.items devices.taken devices.disks devices.sectors devices.placed.items };
}

impl<'a> Devices<'a> {
    /// No device.
    pub(crate) fn new(alloc: Global) -> Devices<'a>
        ensures { result ≡ [] }
    {
        Devices {
            placed: Vec::new(alloc),
            sizes: ArrayVec::new(),
            taken: [false; MOST_DEVICES],
            disks: 0,
            sectors: 0,
        }
    }

    /// All of them, in the order of their lines, and how many sectors each has.
    pub(crate) fn into_placed(self) -> (Vec<Placed<'a>>, ArrayVec<u64, MOST_DEVICES>)
        ensures devices { result.0.items ≡ self.entry }
        ensures sizes { result.1.items ≡ map size (trees result.0.items) }
        ensures sound { AreSound result.0.items }
    {
        (self.placed, self.sizes)
    }

    /// The number of the device of this name.
    pub(crate) fn place_of(&self, name: &Word<'_>) -> Option<usize>
        ensures number { result ≡ device_of self.now name.now }
        ensures small { IfSome result (λ number. number < 32) }
    {
        self.placed.iter().position(|placed| placed.is_named(name))
    }

    /// The number of the device whose name, followed by this, is that word.
    pub(crate) fn number_before(&self, suffix: &[u8], word: &Word<'_>) -> Option<usize>
        ensures { result ≡ device_before suffix.now self.now word.now }
    {
        self.placed
            .iter()
            .position(|placed| placed.is_followed(suffix, word))
    }

    /// Its number, or 0 where there is none.
    pub(crate) fn number_or_0(&self, name: &Word<'_>) -> usize
        ensures number { result ≡ number_in self.now name.now }
        ensures small { result < 32 }
    {
        self.place_of(name).unwrap_or(0)
    }

    /// What the device of this number does.
    pub(crate) fn what_at(&self, number: usize) -> Option<What>
        ensures found { result ≡ option_map (λ device. device.what) (slice_get self.now number) }
        ensures small { OnSome result (number < 32) }
    {
        self.placed.get(number).map(|placed| placed.what)
    }

    /// Whether one of these names is that of no device.
    pub(crate) fn lacks_one(&self, names: &[Word<'_>]) -> bool
        ensures { result ≡ list_any (λ name. is_none (device_of self.now name)) names.now }
    {
        names.iter().any(|name| self.place_of(name).is_none())
    }

    /// Whether one of these devices is a member already, or stands twice.
    pub(crate) fn has_taken(&self, names: &[Word<'_>]) -> bool
        ensures { result ≡ takes_taken self.now names.now }
    {
        let mut taken = self.taken;
        for name in names {
            let number = self.number_or_0(name);
            if taken[number] {
                return true;
            }
            taken[number] = true;
        }
        false
    }

    /// The numbers of the devices of these names, in their order.
    pub(crate) fn numbers(&self, names: &[Word<'_>]) -> ArrayVec<DevId, 8>
        requires { length names.now ≤ 8 }
        ensures { map (λ m. m.0) result.items ≡ map (number_in self.now) names.now }
    {
        let mut numbers = ArrayVec::new();
        for name in names {
            numbers.push(DevId(self.number_or_0(name) as u32));
        }
        numbers
    }

    /// Whether there is no room for one more device that does this.
    pub(crate) fn has_no_room(&self, what: What) -> bool
        ensures { result ≡ has_no_room self.now what }
    {
        match what {
            What::Disk { sectors } => {
                self.placed.len() >= MOST_DEVICES
                    || self.disks >= MOST_DISKS
                    || sectors > MOST_SECTORS - self.sectors
            }
            _ => self.placed.len() >= MOST_DEVICES,
        }
    }

    /// Whether the device of this number is a disk.
    pub(crate) fn is_disk_at(&self, number: usize) -> bool
        ensures { result ≡ is_disk_device (slice_get self.now number) }
    {
        match self.what_at(number) {
            Some(what) => what::declares_disk(what),
            None => false,
        }
    }

    /// The size in sectors of the device of this number.
    pub(crate) fn size_at(&self, number: usize) -> u64
        requires { number < length self.now }
        ensures { result ≡ size (tree_of self.now number) }
    {
        self.sizes[number]
    }

    /// The sizes of these devices, in their order.
    fn sizes_of(&self, members: &[DevId]) -> ArrayVec<u64, 8>
        requires few { length members.now ≤ 8 }
        requires known { All (λ m. m < length self.now) (map (λ m. m.0) members.now) }
        ensures sizes { result.items ≡ map (λ m. size (tree_of self.now m)) (map (λ m. m.0) members.now) }
        ensures sound { AreSound self.now }
    {
        let mut sizes = ArrayVec::new();
        for member in members {
            sizes.push(self.sizes[member.0 as usize]);
        }
        sizes
    }

    /// The size in sectors of a device that does this, over these.
    pub(crate) fn size_over(&self, what: What, members: &[DevId]) -> u64
        requires count { IsTrue (has_count what (length members.now)) }
        requires numbers { HasNumbers what }
        requires known { All (λ m. m < length self.now) (map (λ m. m.0) members.now) }
        ensures size { result ≡ size_with self.now what (map (λ m. m.0) members.now) }
        ensures sound { AreSound self.now }
    {
        what::size_of(what, &self.sizes_of(members))
    }

    /// Why a line that declares such a device is refused.
    pub(crate) fn reason(
        &self,
        name: &Word<'_>,
        what: What,
        names: &[Word<'_>],
        reserve: u64,
        rescuer: bool,
    ) -> Option<Reason>
        requires { HasNumbers what }
        ensures { result ≡ device_reason self.now name.now what names.now reserve rescuer }
    {
        if self.place_of(name).is_some() {
            return Some(Reason::NameTaken);
        }
        if self.lacks_one(names) {
            return Some(Reason::NoSuchDevice);
        }
        if self.has_taken(names) {
            return Some(Reason::MemberTaken);
        }
        if !what::takes(what, names.len()) {
            return Some(Reason::BadShape);
        }
        if self.has_no_room(what) || what::is_large(what, reserve) {
            return Some(Reason::TooLarge);
        }
        if self.size_over(what, &self.numbers(names)) == 0 {
            return Some(Reason::EmptyDevice);
        }
        if what::has_zero(what, reserve) {
            return Some(Reason::ReserveZero);
        }
        if what::lacks_rescuer(what, names.len(), rescuer) {
            return Some(Reason::NeedsRescuer);
        }
        None
    }

    /// Adds the device, which has so many sectors.
    pub(crate) fn push(&mut self, placed: Placed<'a>, capacity: u64) -> Result<(), AllocError>
        requires sound { AreSound (self.old ++ placed ∷ []) }
        requires sized { capacity ≡ size_with self.old placed.what placed.members }
        ensures { MatchResult result (λ _. self.new ≡ self.old ++ placed.entry ∷ []) (λ _. self.new ≡ self.old) }
    {
        let mut taken = self.taken;
        mark(&mut taken, &placed.members);
        let sectors = what::own_sectors(placed.what);
        let disks = u64::from(what::declares_disk(placed.what));
        self.placed.push(placed)?;
        self.sizes.push(capacity);
        self.taken = taken;
        self.disks += disks;
        self.sectors += sectors;
        Ok(())
    }
}

/// Sets the flags of these devices.
fn mark(flags: &mut [bool], members: &[DevId])
    requires { All (λ m. m.0 < length flags.old) members.now }
    ensures { SetsFlags flags.old (map (λ m. m.0) members.now) flags.new }
{
    for member in members {
        flags[member.0 as usize] = true;
    }
}
