//! The devices of a stack, of those that lines declare.
ghost use Rattle.std.specs.Prelude.{◌≡◌, ◌<◌, ◌≤◌, [], IfOk, IsTrue, false, map};
ghost use Rattle.decl_text.specs.Text.{is_name};
ghost use Rattle.decl_text.specs.Known.{declares_disk};
ghost use Rattle.decl_text.specs.Accepting.{what_of_kind};
ghost use Rattle.stack_base.specs.Fault.{bads_of_kind};
ghost use Rattle.stack_check.specs.Finish.{AreBuilt, IsBuilt, ranges_of};
ghost use Rattle.stack_check.specs.Sound.{AreSound, AreOfDisks, IsFit, records_of_what};

use crate::draft::BadAt;
use crate::placed::Placed;
use arrayvec::ArrayString;
use decl_text::{What, Word};
use stack_base::{Bad, Device, Kind};
use std::alloc::{AllocError, Global};

/// The devices, each with the bad ranges of its number.
pub(crate) fn devices_of(
    alloc: Global,
    all: Vec<Placed<'_>>,
    bad: &[BadAt],
) -> Result<Vec<Device>, AllocError>
    requires sound { AreSound all.items }
    requires disks { AreOfDisks all.items bad.now }
    ensures { IfOk result (λ devices. AreBuilt all.entry.items bad.entry.now devices.items) }
{
    let mut devices = Vec::new(alloc);
    for placed in all {
        let number = devices.len() as u32;
        let device = device_of(alloc, placed, number, bad)?;
        devices.push(device)?;
    }
    Ok(devices)
}

/// The device, with the bad ranges of its number.
fn device_of(
    alloc: Global,
    placed: Placed<'_>,
    number: u32,
    bad: &[BadAt],
) -> Result<Device, AllocError>
    requires fit { IsFit placed }
    requires clean { declares_disk placed.what ≡ false → ranges_of bad.now number ≡ [] }
    ensures { IfOk result (λ device. IsBuilt placed.entry (ranges_of bad.entry.now number) device) }
{
    let kind = kind_of(alloc, placed.what, number, bad)?;
    Ok(Device {
        name: name_of(&placed.name),
        kind,
        members: placed.members,
        reserve: placed.reserve as u32,
        rescuer: placed.rescuer,
    })
}

/// The kind of a device that does this, with the bad ranges of its number.
fn kind_of(alloc: Global, what: What, number: u32, bad: &[BadAt]) -> Result<Kind, AllocError>
    requires few { records_of_what what ≤ 1024 }
    requires clean { declares_disk what ≡ false → ranges_of bad.now number ≡ [] }
    ensures { IfOk result (λ kind. (what_of_kind kind ≡ what) × (bads_of_kind kind ≡ ranges_of bad.now number)) }
{
    match what {
        What::Disk { sectors } => {
            let bad = ranges_of(alloc, number, bad)?;
            Ok(Kind::Disk { sectors, bad })
        }
        What::Linear => Ok(Kind::Linear),
        What::Stripe { chunk } => Ok(Kind::Stripe { chunk }),
        What::Zoned { chunk } => Ok(Kind::Zoned { chunk }),
        What::Limit { max, chunk } => Ok(Kind::Limit { max, chunk }),
        What::Mirror { records } => Ok(Kind::Mirror {
            records: records as u32,
        }),
    }
}

/// The bad ranges of the disk of this number, in their order.
fn ranges_of(alloc: Global, number: u32, bad: &[BadAt]) -> Result<Vec<Bad>, AllocError>
    ensures { IfOk result (λ ranges. ranges.items ≡ ranges_of bad.now number) }
{
    bad.iter()
        .filter(|at| at.is_at(number))
        .map(|at| at.bad)
        .collect(alloc)
}

/// The name of a device, as it keeps it.
fn name_of(name: &Word<'_>) -> ArrayString<16>
    requires { IsTrue (is_name name.now) }
    ensures { result.bytes ≡ name.now }
{
    let mut kept = ArrayString::new();
    kept.push_str(text_of(name));
    kept
}

/// The name as text.
fn text_of<'a>(name: &Word<'a>) -> &'a str
    requires { IsTrue (is_name name.now) }
    ensures { result.now ≡ name.now }
{
    str::from_utf8(name.bytes()).unwrap()
}
