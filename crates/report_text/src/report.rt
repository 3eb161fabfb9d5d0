//! Writes the report of a run that has ended.
ghost use Rattle.std.specs.Prelude.{◌^◌, ◌<◌};
ghost use Rattle.outside_io.specs.Saying.{Says, Writes};
ghost use Rattle.report_text.specs.CheckText.{steps_bound};
ghost use Rattle.report_text.specs.Report.{report, steps_line, write_line, write_lines};
ghost use Rattle.report_text.specs.Views.{IsEndedOfStack, told_beside};

use crate::images::image_lines;
use crate::pools::pool_lines;
use itoa::Buffer;
use layout_model::Bounds;
use outside_io::{Failed, Pen, Sink};
use run_machine::status_word;
use stack_base::{Stack, Status};
use task_core::Ended;

// `write W STATUS`
fn write_line<K: Sink>(pen: &mut Pen, out: &mut K, number: u64, status: Status)
    ensures { Says K.Sink out.old pen.old out.new pen.new (write_line number status) }
{
    let mut digits = Buffer::new();
    let number = digits.format(number).as_bytes();
    pen.put(out, &[b"write ", number, b" ", status_word(status), b"\n"]);
}

// A line for each write, in the order of the text.
fn write_lines<K: Sink>(pen: &mut Pen, out: &mut K, statuses: &[Status])
    ensures { Says K.Sink out.old pen.old out.new pen.new (write_lines 0 statuses.now) }
{
    'writes: for (number, status) in statuses.iter().enumerate() {
        write_line(pen, out, number as u64, *status);
    }
}

/// `steps S of B`
pub(crate) fn steps_line<K: Sink>(pen: &mut Pen, out: &mut K, steps: u64, bound: u64)
    ensures { Says K.Sink out.old pen.old out.new pen.new (steps_line steps bound) }
{
    let mut steps_digits = Buffer::new();
    let steps = steps_digits.format(steps).as_bytes();
    let mut bound_digits = Buffer::new();
    let bound = bound_digits.format(bound).as_bytes();
    pen.put(out, &[b"steps ", steps, b" of ", bound, b"\n"]);
}

/// Writes how many events a run had, beside the bound on them.
///
/// # Errors
///
/// `Failed` only where the sink's count of faults rose. The sink took a front of the line then.
pub fn write_steps<K: Sink>(steps: u64, bound: &Bounds, out: &mut K) -> Result<(), Failed>
    requires bound { steps_bound bound.now < 2 ^ 64 }
    ensures { Writes K.Sink out.old out.new result (steps_line steps (steps_bound bound.now)) }
{
    let mut pen = Pen::new();
    steps_line(&mut pen, out, steps, bound.total());
    pen.finish(out)
}

/// Writes the report of a run that has ended: the status of each write, what each disk holds, how the takes of each pool were served, and how
/// many events there were, beside the bound on them.
///
/// # Errors
///
/// `Failed` only where the sink's count of faults rose. The sink took a front of the text then.
pub fn write_report<K: Sink>(
    ended: &Ended,
    stack: &Stack,
    bound: &Bounds,
    out: &mut K,
) -> Result<(), Failed>
    requires ended { IsEndedOfStack stack.now ended.now }
    requires bound { steps_bound bound.now < 2 ^ 64 }
    ensures { Writes K.Sink out.old out.new result (report stack.now (told_beside ended.now bound.now)) }
{
    let mut pen = Pen::new();
    write_lines(&mut pen, out, &ended.statuses);
    image_lines(&mut pen, out, stack, &ended.disks);
    pool_lines(&mut pen, out, stack, &ended.pools);
    steps_line(&mut pen, out, ended.steps, bound.total());
    pen.finish(out)
}
