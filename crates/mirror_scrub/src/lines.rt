//! Writes where the members of mirrors differ.
ghost use Rattle.std.specs.Prelude.{◌≡◌, ◌<◌, length};
ghost use Rattle.stack_base.specs.Stack.{IsStack};
ghost use Rattle.stack_base.specs.Tree.{tree, legs_of};
ghost use Rattle.stack_base.specs.Names.{name_of_device};
ghost use Rattle.outside_io.specs.Saying.{Says, Writes};
ghost use Rattle.mirror_scrub.specs.Seen.{AreDisksOf, held};
ghost use Rattle.mirror_scrub.specs.Text.{differ_line, leg_line, leg_lines, mirror_lines, scrub_text, stretch_lines};

use crate::mirror::{legs, next_unlike, unlike};
use itoa::Buffer;
use model_disks::Disk;
use outside_io::{Failed, Pen, Sink};
use stack_base::{DevId, Range, Stack};

// `scrub NAME leg K unlike C`
fn leg_line<K: Sink>(pen: &mut Pen, out: &mut K, name: &[u8], leg: u32, count: u64)
    ensures { Says K.Sink out.old pen.old out.new pen.new (leg_line name.now leg count) }
{
    let mut leg_digits = Buffer::new();
    let leg = leg_digits.format(leg).as_bytes();
    let mut count_digits = Buffer::new();
    let count = count_digits.format(count).as_bytes();
    pen.put(
        out,
        &[b"scrub ", name, b" leg ", leg, b" unlike ", count, b"\n"],
    );
}

// `differ NAME K START LEN`
fn differ_line<K: Sink>(pen: &mut Pen, out: &mut K, name: &[u8], leg: u32, run: Range)
    ensures { Says K.Sink out.old pen.old out.new pen.new (differ_line name.now leg run) }
{
    let mut leg_digits = Buffer::new();
    let leg = leg_digits.format(leg).as_bytes();
    let mut start_digits = Buffer::new();
    let start = start_digits.format(run.start).as_bytes();
    let mut len_digits = Buffer::new();
    let len = len_digits.format(run.len).as_bytes();
    pen.put(
        out,
        &[b"differ ", name, b" ", leg, b" ", start, b" ", len, b"\n"],
    );
}

// The name of a device.
fn name_of(stack: &Stack, dev: DevId) -> &[u8]
    requires { dev.0 < length stack.now.devices.items }
    ensures { result.now ≡ name_of_device stack.now dev.0 }
{
    stack.devices[dev.0 as usize].name.as_str().as_bytes()
}

// A line for each stretch of sectors that are unlike on a member, by rising start.
fn differ_lines<K: Sink>(
    pen: &mut Pen,
    out: &mut K,
    stack: &Stack,
    disks: &[Disk],
    mirror: DevId,
    leg: u32,
)
    requires stack { IsStack stack.now }
    requires disks { AreDisksOf stack.now disks.now }
    requires mirror { mirror.0 < length stack.now.devices.items }
    requires leg { leg < legs_of (tree stack.now mirror.0) }
    ensures { Says K.Sink out.old pen.old out.new pen.new (stretch_lines stack.now (held disks.now) mirror.0 leg) }
{
    let name = name_of(stack, mirror);
    let mut from = 0;
    'stretches: while let Some(run) = next_unlike(stack, disks, mirror, leg, from) {
        differ_line(pen, out, name, leg, run);
        from = run.start + run.len;
    }
}

// How many sectors are unlike on a member, and where.
fn leg_lines<K: Sink>(
    pen: &mut Pen,
    out: &mut K,
    stack: &Stack,
    disks: &[Disk],
    mirror: DevId,
    leg: u32,
)
    requires stack { IsStack stack.now }
    requires disks { AreDisksOf stack.now disks.now }
    requires mirror { mirror.0 < length stack.now.devices.items }
    requires leg { leg < legs_of (tree stack.now mirror.0) }
    ensures { Says K.Sink out.old pen.old out.new pen.new (leg_lines stack.now (held disks.now) mirror.0 leg) }
{
    let count = unlike(stack, disks, mirror, leg);
    leg_line(pen, out, name_of(stack, mirror), leg, count);
    if count > 0 {
        differ_lines(pen, out, stack, disks, mirror, leg);
    }
}

// The lines of each member of a mirror but the first.
fn mirror_lines<K: Sink>(pen: &mut Pen, out: &mut K, stack: &Stack, disks: &[Disk], mirror: DevId)
    requires stack { IsStack stack.now }
    requires disks { AreDisksOf stack.now disks.now }
    requires mirror { mirror.0 < length stack.now.devices.items }
    ensures { Says K.Sink out.old pen.old out.new pen.new (mirror_lines stack.now (held disks.now) mirror.0) }
{
    'legs: for leg in 1..legs(stack, mirror) {
        leg_lines(pen, out, stack, disks, mirror, leg);
    }
}

/// Writes how many sectors of each mirror are unlike on each member but the first, and where. The mirrors stand in the
/// order of the devices, and a mirror of one member has no line.
///
/// # Errors
///
/// `Failed` only where the sink's count of faults rose. The sink took a front of the text then, and nothing behind the fault.
pub fn scrub<K: Sink>(stack: &Stack, disks: &[Disk], out: &mut K) -> Result<(), Failed>
    requires stack { IsStack stack.now }
    requires disks { AreDisksOf stack.now disks.now }
    ensures { Writes K.Sink out.old out.new result (scrub_text stack.now (held disks.now)) }
{
    let mut pen = Pen::new();
    'devices: for number in 0..stack.devices.len() {
        mirror_lines(&mut pen, out, stack, disks, DevId(number as u32));
    }
    pen.finish(out)
}
