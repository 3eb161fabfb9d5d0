//! Writes what a stack is, and what its writes need together.
ghost use Rattle.std.specs.Prelude.{◌≡◌, ◌^◌, ◌<◌};
ghost use Rattle.stack_base.specs.Stack.{IsStack};
ghost use Rattle.outside_io.specs.Saying.{Says, Writes};
ghost use Rattle.report_text.specs.CheckText.{kind_name, device_line, device_lines, steps_bound, need_line, check_text};

use itoa::Buffer;
use layout_model::Bounds;
use outside_io::{Failed, Pen, Sink};
use stack_base::{DevId, Device, Kind, Stack};

fn kind_name(kind: &Kind) -> &[u8]
    ensures { result.now ≡ kind_name kind.now }
{
    match kind {
        Kind::Disk { .. } => b"disk",
        Kind::Linear => b"linear",
        Kind::Stripe { .. } => b"stripe",
        Kind::Zoned { .. } => b"zoned",
        Kind::Limit { .. } => b"limit",
        Kind::Mirror { .. } => b"mirror",
    }
}

// `device NAME KIND SIZE`
fn device_line<K: Sink>(pen: &mut Pen, out: &mut K, device: &Device, sectors: u64)
    ensures { Says K.Sink out.old pen.old out.new pen.new (device_line device.now sectors) }
{
    let name = device.name.as_str().as_bytes();
    let mut digits = Buffer::new();
    let sectors = digits.format(sectors).as_bytes();
    pen.put(
        out,
        &[
            b"device ",
            name,
            b" ",
            kind_name(&device.kind),
            b" ",
            sectors,
            b"\n",
        ],
    );
}

// A line for each device, by its number.
fn device_lines<K: Sink>(pen: &mut Pen, out: &mut K, stack: &Stack)
    requires { IsStack stack.now }
    ensures { Says K.Sink out.old pen.old out.new pen.new (device_lines stack.now 0 stack.now.devices.items) }
{
    'devices: for (number, device) in stack.devices.iter().enumerate() {
        let sectors = stack.size(DevId(number as u32));
        device_line(pen, out, device, sectors);
    }
}

// `need e E g G z Z bound B`
fn need_line<K: Sink>(pen: &mut Pen, out: &mut K, bound: &Bounds)
    requires { steps_bound bound.now < 2 ^ 64 }
    ensures { Says K.Sink out.old pen.old out.new pen.new (need_line bound.now) }
{
    let mut e_digits = Buffer::new();
    let e = e_digits.format(bound.e).as_bytes();
    let mut g_digits = Buffer::new();
    let g = g_digits.format(bound.g).as_bytes();
    let mut z_digits = Buffer::new();
    let z = z_digits.format(bound.z).as_bytes();
    let mut total_digits = Buffer::new();
    let total = total_digits.format(bound.total()).as_bytes();
    pen.put(
        out,
        &[
            b"need e ", e, b" g ", g, b" z ", z, b" bound ", total, b"\n",
        ],
    );
}

/// Writes a line for each device of the stack, by its number, with its size in sectors, and a line of what all writes need.
///
/// # Errors
///
/// `Failed` only where the sink's count of faults rose. The sink took a front of the text then.
pub fn write_check<K: Sink>(stack: &Stack, bound: &Bounds, out: &mut K) -> Result<(), Failed>
    requires stack { IsStack stack.now }
    requires bound { steps_bound bound.now < 2 ^ 64 }
    ensures { Writes K.Sink out.old out.new result (check_text stack.now bound.now) }
{
    let mut pen = Pen::new();
    device_lines(&mut pen, out, stack);
    need_line(&mut pen, out, bound);
    pen.finish(out)
}
