//! Writes the summary of a run of a generated scenario.
ghost use Rattle.std.specs.Prelude.{◌^◌, ◌<◌};
ghost use Rattle.outside_io.specs.Saying.{Says, Writes};
ghost use Rattle.report_text.specs.CheckText.{steps_bound};
ghost use Rattle.report_text.specs.Report.{gen_line, gen_text};
ghost use Rattle.report_text.specs.Views.{IsEndedOfStack, told_beside};

use crate::images::sum_lines;
use crate::report::steps_line;
use itoa::Buffer;
use layout_model::Bounds;
use outside_io::{Failed, Pen, Sink};
use stack_base::Stack;
use task_core::Ended;

// `gen N writes W sectors S`
fn gen_line<K: Sink>(pen: &mut Pen, out: &mut K, number: u64, writes: u64, sectors: u64)
    ensures { Says K.Sink out.old pen.old out.new pen.new (gen_line number writes sectors) }
{
    let mut number_digits = Buffer::new();
    let number = number_digits.format(number).as_bytes();
    let mut writes_digits = Buffer::new();
    let writes = writes_digits.format(writes).as_bytes();
    let mut sectors_digits = Buffer::new();
    let sectors = sectors_digits.format(sectors).as_bytes();
    pen.put(
        out,
        &[
            b"gen ",
            number,
            b" writes ",
            writes,
            b" sectors ",
            sectors,
            b"\n",
        ],
    );
}

/// Writes the summary of a run of the scenario that `number` makes, which had so many writes of so many sectors together: a line of these
/// numbers, the sum of each disk, and how many events there were, beside the bound on them.
///
/// # Errors
///
/// `Failed` only where the sink's count of faults rose. The sink took a front of the text then.
pub fn write_gen<K: Sink>(
    number: u64,
    writes: u64,
    sectors: u64,
    ended: &Ended,
    stack: &Stack,
    bound: &Bounds,
    out: &mut K,
) -> Result<(), Failed>
    requires ended { IsEndedOfStack stack.now ended.now }
    requires bound { steps_bound bound.now < 2 ^ 64 }
    ensures { Writes K.Sink out.old out.new result (gen_text number writes sectors stack.now (told_beside ended.now bound.now)) }
{
    let mut pen = Pen::new();
    gen_line(&mut pen, out, number, writes, sectors);
    sum_lines(&mut pen, out, stack, &ended.disks);
    steps_line(&mut pen, out, ended.steps, bound.total());
    pen.finish(out)
}
