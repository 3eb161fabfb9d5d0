//! Writes the facts of pools.
ghost use Rattle.std.specs.Prelude.{◌≡◌, ◌++◌, length, map};
ghost use Rattle.std.specs.List.{flat_map};
ghost use Rattle.outside_io.specs.Saying.{Says};
ghost use Rattle.stack_base.specs.Names.{pool_name};
ghost use Rattle.report_text.specs.Pools.{HasDeviceOfPool, falling_from, falling_pools, pools_at};
ghost use Rattle.report_text.specs.Report.{pool_line, pool_lines};
ghost use Rattle.report_text.specs.Views.{AreOfStack, facts_line, lines_of_devices};

use crate::names::pool_parts;
use itoa::Buffer;
use mempool_core::Facts;
use outside_io::{Pen, Sink};
use stack_base::{Kind, PoolId, Stack};

// How many pools a device has.
fn pool_count(kind: &Kind) -> usize
    ensures { result ≡ length (pools_at 0 kind.now) }
{
    match kind {
        Kind::Disk { .. } => 0,
        Kind::Linear | Kind::Stripe { .. } | Kind::Zoned { .. } | Kind::Limit { .. } => 1,
        Kind::Mirror { .. } => 2,
    }
}

// `pool POOL reserve MIN ordinary A spare B`, the name of the pool in two parts: whose it is, and what it holds.
#[tactic(auto, using(crate::proofs::PoolLemmas::named))]
fn named_line<K: Sink>(pen: &mut Pen, out: &mut K, owner: &[u8], element: &[u8], facts: &Facts)
    ensures { Says K.Sink out.old pen.old out.new pen.new (pool_line (owner.now ++ element.now) facts.now) }
{
    let mut min_digits = Buffer::new();
    let min = min_digits.format(facts.min).as_bytes();
    let mut ordinary_digits = Buffer::new();
    let ordinary = ordinary_digits.format(facts.ordinary).as_bytes();
    let mut spare_digits = Buffer::new();
    let spare = spare_digits.format(facts.spare).as_bytes();
    pen.put(
        out,
        &[
            b"pool ",
            owner,
            element,
            b" reserve ",
            min,
            b" ordinary ",
            ordinary,
            b" spare ",
            spare,
            b"\n",
        ],
    );
}

// The line of a pool.
fn pool_line<K: Sink>(pen: &mut Pen, out: &mut K, stack: &Stack, pool: PoolId, facts: &Facts)
    requires { HasDeviceOfPool stack.now pool }
    ensures { Says K.Sink out.old pen.old out.new pen.new (pool_line (pool_name stack.now pool) facts.now) }
{
    let (owner, element) = pool_parts(stack, pool);
    named_line(pen, out, owner, element, facts);
}

// A line for each of these pools, in their order.
fn lines_of<K: Sink>(pen: &mut Pen, out: &mut K, stack: &Stack, pools: &[(PoolId, Facts)])
    requires { AreOfStack stack.now pools.now }
    ensures { Says K.Sink out.old pen.old out.new pen.new (flat_map (facts_line stack.now) pools.now) }
{
    'pools: for (pool, facts) in pools {
        pool_line(pen, out, stack, *pool, facts);
    }
}

// The lines of the devices' pools: those of the first device stand last.
fn device_pools<K: Sink>(pen: &mut Pen, out: &mut K, stack: &Stack, pools: &[(PoolId, Facts)])
    requires { map (λ p. p.0) pools.now ≡ falling_from 0 stack.now.devices.items }
    ensures { Says K.Sink out.old pen.old out.new pen.new (lines_of_devices stack.now pools.now) }
{
    let mut rest = pools;
    'devices: for device in stack.devices.iter() {
        let (front, own) = rest.split_at(rest.len() - pool_count(&device.kind));
        lines_of(pen, out, stack, own);
        rest = front;
    }
}

/// A line for each pool: those of the writers, and then those of each device in their order. The pools are handed in by falling number.
pub(crate) fn pool_lines<K: Sink>(
    pen: &mut Pen,
    out: &mut K,
    stack: &Stack,
    pools: &[(PoolId, Facts)],
)
    requires { map (λ p. p.0) pools.now ≡ falling_pools stack.now }
    ensures { Says K.Sink out.old pen.old out.new pen.new (pool_lines stack.now pools.now) }
{
    let (writers, of_devices) = pools.split_at(2);
    lines_of(pen, out, stack, writers);
    device_pools(pen, out, stack, of_devices);
}
