//! Writes what a replay came to.
ghost use Rattle.std.specs.Prelude.{◌≡◌, All, map};
ghost use Rattle.std.specs.List.{flat_map};
ghost use Rattle.outside_io.specs.Saying.{Says, Writes};
ghost use Rattle.report_text.specs.Pools.{HasDeviceOfPool, told_pools};
ghost use Rattle.trace_replay.specs.Answer.{bad_line, events_line, extent_line, finish_line, replay_text};

use crate::extents::Extent;
use crate::walk::{Finish, Replayed};
use itoa::Buffer;
use outside_io::{Failed, Pen, Sink};
use report_text::pool_parts;
use stack_base::Stack;

// `replay events N`
fn put_events<K: Sink>(pen: &mut Pen, out: &mut K, events: u64)
    ensures { Says K.Sink out.old pen.old out.new pen.new (events_line events) }
{
    let mut digits = Buffer::new();
    let number = digits.format(events).as_bytes();
    pen.put(out, &[b"replay events ", number, b"\n"]);
}

// `bad line L`, where there is one
fn put_bad<K: Sink>(pen: &mut Pen, out: &mut K, bad: Option<u64>)
    ensures { Says K.Sink out.old pen.old out.new pen.new (bad_line bad) }
{
    if let Some(line) = bad {
        let mut digits = Buffer::new();
        let number = digits.format(line).as_bytes();
        pen.put(out, &[b"bad line ", number, b"\n"]);
    }
}

// `end ended`, `end open` or `end stuck`
fn put_finish<K: Sink>(pen: &mut Pen, out: &mut K, finish: Finish)
    ensures { Says K.Sink out.old pen.old out.new pen.new (finish_line finish) }
{
    match finish {
        Finish::Ended => pen.put(out, &[b"end ended\n"]),
        Finish::Open => pen.put(out, &[b"end open\n"]),
        Finish::Stuck => pen.put(out, &[b"end stuck\n"]),
    }
}

// `pool POOL lowest S most O`
#[tactic(auto, using(crate::proofs::AnswerLemmas::named))]
fn put_extent<K: Sink>(pen: &mut Pen, out: &mut K, stack: &Stack, extent: &Extent)
    requires { HasDeviceOfPool stack.now extent.now.pool }
    ensures { Says K.Sink out.old pen.old out.new pen.new (extent_line stack.now extent.now) }
{
    let (owner, element) = pool_parts(stack, extent.pool);
    let mut lowest_digits = Buffer::new();
    let lowest = lowest_digits.format(extent.lowest).as_bytes();
    let mut most_digits = Buffer::new();
    let most = most_digits.format(extent.most).as_bytes();
    pen.put(
        out,
        &[
            b"pool ",
            owner,
            element,
            b" lowest ",
            lowest,
            b" most ",
            most,
            b"\n",
        ],
    );
}

// A line for each of these pools, in their order.
fn put_extents<K: Sink>(pen: &mut Pen, out: &mut K, stack: &Stack, extents: &[Extent])
    requires { All (HasDeviceOfPool stack.now) (map (λ extent. extent.pool) extents.now) }
    ensures { Says K.Sink out.old pen.old out.new pen.new (flat_map (extent_line stack.now) extents.now) }
{
    'pools: for extent in extents {
        put_extent(pen, out, stack, extent);
    }
}

/// Writes how many events of a run came, its bad line if it has one, what it left, and how far each pool went.
///
/// # Errors
///
/// `Failed` only where the sink's count of faults rose. The sink took a front of the text then.
pub fn write_replayed<K: Sink>(
    replayed: &Replayed,
    stack: &Stack,
    out: &mut K,
) -> Result<(), Failed>
    requires { map (λ extent. extent.pool) replayed.now.extents.items ≡ told_pools stack.now }
    ensures { Writes K.Sink out.old out.new result (replay_text stack.now replayed.now) }
{
    let mut pen = Pen::new();
    put_events(&mut pen, out, replayed.events);
    put_bad(&mut pen, out, replayed.bad);
    put_finish(&mut pen, out, replayed.finish);
    put_extents(&mut pen, out, stack, &replayed.extents);
    pen.finish(out)
}
