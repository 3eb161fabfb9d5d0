//! Writes what disks hold.
ghost use Rattle.std.specs.Prelude.{◌<◌, length};
ghost use Rattle.outside_io.specs.Saying.{Says};
ghost use Rattle.model_disks.specs.Runs.{written_runs};
ghost use Rattle.report_text.specs.Report.{disk_line, run_line, run_lines, sum_line, image_lines};
ghost use Rattle.report_text.specs.Views.{AreKnown, image_of, lines_of_images, lines_of_sums};

use crate::names::device_name;
use itoa::Buffer;
use model_disks::Disk;
use outside_io::{Pen, Sink};
use stack_base::{Range, Stack};

// `disk NAME sum HEX`
fn disk_line<K: Sink>(pen: &mut Pen, out: &mut K, name: &[u8], words: u64)
    ensures { Says K.Sink out.old pen.old out.new pen.new (disk_line name.now words) }
{
    let mut digits = [0; 16];
    hex::encode_to_slice(&words.to_be_bytes(), &mut digits).unwrap();
    pen.put(out, &[b"disk ", name, b" sum ", &digits, b"\n"]);
}

// `run NAME START LEN`
fn run_line<K: Sink>(pen: &mut Pen, out: &mut K, name: &[u8], run: Range)
    ensures { Says K.Sink out.old pen.old out.new pen.new (run_line name.now run) }
{
    let mut start_digits = Buffer::new();
    let start = start_digits.format(run.start).as_bytes();
    let mut len_digits = Buffer::new();
    let len = len_digits.format(run.len).as_bytes();
    pen.put(out, &[b"run ", name, b" ", start, b" ", len, b"\n"]);
}

// A line for each run of written sectors, by rising start.
fn run_lines<K: Sink>(pen: &mut Pen, out: &mut K, name: &[u8], disk: &Disk)
    ensures { Says K.Sink out.old pen.old out.new pen.new (run_lines name.now (written_runs disk.now.image)) }
{
    let mut from = 0;
    'runs: while let Some(run) = disk.next_run(from) {
        run_line(pen, out, name, run);
        from = run.start + run.len;
    }
}

// The line of a disk's sum.
fn sum_line<K: Sink>(pen: &mut Pen, out: &mut K, stack: &Stack, disk: &Disk)
    requires { disk.now.dev.0 < length stack.now.devices.items }
    ensures { Says K.Sink out.old pen.old out.new pen.new (sum_line stack.now (image_of disk.now)) }
{
    disk_line(pen, out, device_name(stack, disk.dev()), disk.sum());
}

// The line of a disk's sum, and those of its runs.
fn disk_lines<K: Sink>(pen: &mut Pen, out: &mut K, stack: &Stack, disk: &Disk)
    requires { disk.now.dev.0 < length stack.now.devices.items }
    ensures { Says K.Sink out.old pen.old out.new pen.new (image_lines stack.now (image_of disk.now)) }
{
    let name = device_name(stack, disk.dev());
    disk_line(pen, out, name, disk.sum());
    run_lines(pen, out, name, disk);
}

/// The lines of the disks: for each of them its sum and its runs.
pub(crate) fn image_lines<K: Sink>(pen: &mut Pen, out: &mut K, stack: &Stack, disks: &[Disk])
    requires { AreKnown stack.now disks.now }
    ensures { Says K.Sink out.old pen.old out.new pen.new (lines_of_images stack.now disks.now) }
{
    'disks: for disk in disks {
        disk_lines(pen, out, stack, disk);
    }
}

/// The lines of the disks' sums.
pub(crate) fn sum_lines<K: Sink>(pen: &mut Pen, out: &mut K, stack: &Stack, disks: &[Disk])
    requires { AreKnown stack.now disks.now }
    ensures { Says K.Sink out.old pen.old out.new pen.new (lines_of_sums stack.now disks.now) }
{
    'disks: for disk in disks {
        sum_line(pen, out, stack, disk);
    }
}
