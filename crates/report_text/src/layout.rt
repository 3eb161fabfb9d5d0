//! Writes where fragments go.
ghost use Rattle.std.specs.Prelude.{◌<◌, length};
ghost use Rattle.outside_io.specs.Saying.{Says, Writes};
ghost use Rattle.report_text.specs.LayoutText.{AreOnDevices, fragment_line, layout_text};

use crate::names::device_name;
use itoa::Buffer;
use layout_model::Fragment;
use outside_io::{Failed, Pen, Sink};
use stack_base::Stack;

// `fragment W OFFSET LEN DISK AT`
fn fragment_line<K: Sink>(pen: &mut Pen, out: &mut K, stack: &Stack, fragment: &Fragment)
    requires { fragment.now.disk.0 < length stack.now.devices.items }
    ensures { Says K.Sink out.old pen.old out.new pen.new (fragment_line stack.now fragment.now) }
{
    let mut write_digits = Buffer::new();
    let write = write_digits.format(fragment.write).as_bytes();
    let mut offset_digits = Buffer::new();
    let offset = offset_digits.format(fragment.offset).as_bytes();
    let mut len_digits = Buffer::new();
    let len = len_digits.format(fragment.len).as_bytes();
    let disk = device_name(stack, fragment.disk);
    let mut at_digits = Buffer::new();
    let at = at_digits.format(fragment.at).as_bytes();
    pen.put(
        out,
        &[
            b"fragment ",
            write,
            b" ",
            offset,
            b" ",
            len,
            b" ",
            disk,
            b" ",
            at,
            b"\n",
        ],
    );
}

// A line for each fragment, in their order.
fn fragment_lines<K: Sink>(pen: &mut Pen, out: &mut K, fragments: &[Fragment], stack: &Stack)
    requires { AreOnDevices stack.now fragments.now }
    ensures { Says K.Sink out.old pen.old out.new pen.new (layout_text stack.now fragments.now) }
{
    'fragments: for fragment in fragments {
        fragment_line(pen, out, stack, fragment);
    }
}

/// Writes a line for each fragment, in their order.
///
/// # Errors
///
/// `Failed` only where the sink's count of faults rose. The sink took a front of the text then.
pub fn write_layout<K: Sink>(
    fragments: &[Fragment],
    stack: &Stack,
    out: &mut K,
) -> Result<(), Failed>
    requires { AreOnDevices stack.now fragments.now }
    ensures { Writes K.Sink out.old out.new result (layout_text stack.now fragments.now) }
{
    let mut pen = Pen::new();
    fragment_lines(&mut pen, out, fragments, stack);
    pen.finish(out)
}
