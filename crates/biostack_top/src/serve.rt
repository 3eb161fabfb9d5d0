//! Carries out an order.
ghost use Rattle.std.specs.Prelude.{◌≡◌, true};
ghost use Rattle.outside_io.specs.Saying.{Writes};
ghost use Rattle.biostack_words.specs.declared.order.Order.TheVariants as order;
ghost use Rattle.biostack_top.specs.Scene.{IsSaid};
ghost use Rattle.biostack_top.specs.Orders.{is_alone, is_shown};
ghost use Rattle.biostack_top.specs.Ending.{OrderEndsBy, TextEndsBy};
ghost use Rattle.biostack_top.specs.Input.{IsMadeText, made_by};
ghost use Rattle.biostack_top.specs.Streams.{call, sink_stream};

use crate::ending::Ending;
use crate::input::input;
use crate::layout::layout_lines;
use crate::order::{is_replay, is_shown};
use crate::replay::replay;
use crate::run::{run, run_made};
use crate::scene::{Scene, read_scene};
use crate::scrub::scrub;
use biostack_words::Order;
use decl_text::ReadFault;
use outside_io::{Failed, Pen, Sink, Source};
use report_text::{write_check, write_layout};
use std::alloc::Global;

// Tells the scene's devices, and what its writes need.
fn check<K: Sink>(scene: &Scene<'_>, out: &mut K) -> Ending
    requires { IsSaid scene.now }
    ensures { TextEndsBy result order.Check scene.now.text.now (sink_stream K.Sink out.old out.new) }
{
    match write_check(&scene.accepted.stack, &scene.work.bound, out) {
        Ok(()) => Ending::Done,
        Err(Failed) => Ending::WriteFault,
    }
}

// Tells where the scene's writes go.
fn layout<K: Sink>(alloc: Global, scene: &Scene<'_>, out: &mut K) -> Ending
    requires { IsSaid scene.now }
    ensures { TextEndsBy result order.Layout scene.now.text.now (sink_stream K.Sink out.old out.new) }
{
    let Ok(fragments) = layout_lines(alloc, &scene.accepted.stack, &scene.work.writes) else {
        return Ending::Memory;
    };
    match write_layout(&fragments, &scene.accepted.stack, out) {
        Ok(()) => Ending::Done,
        Err(Failed) => Ending::WriteFault,
    }
}

// Shows a text that a number made.
fn show<K: Sink>(text: &[u8], out: &mut K) -> Result<(), Failed>
    ensures { Writes K.Sink out.old out.new result text.now }
{
    let mut pen = Pen::new();
    pen.put(out, &[text]);
    pen.finish(out)
}

// Tells the text that the order's number made.
fn tell_text<K: Sink>(order: Order, text: &[u8], out: &mut K) -> Ending
    requires shown { is_shown order ≡ true }
    requires made { IsMadeText (made_by order) text.now }
    ensures { TextEndsBy result order text.now (sink_stream K.Sink out.old out.new) }
{
    match show(text, out) {
        Ok(()) => Ending::Done,
        Err(Failed) => Ending::WriteFault,
    }
}

// Carries out an order over its text.
fn serve_text<K: Sink>(alloc: Global, order: Order, text: &[u8], out: &mut K) -> Ending
    requires alone { is_alone order ≡ true }
    requires made { IsMadeText (made_by order) text.now }
    ensures { TextEndsBy result order text.now (sink_stream K.Sink out.old out.new) }
{
    if is_shown(order) {
        return tell_text(order, text, out);
    }
    if is_replay(order) {
        return replay(alloc, text, out);
    }
    let scene = match read_scene(alloc, text, false) {
        Ok(scene) => scene,
        Err(ReadFault::Refused(refusal)) => return Ending::Refused(refusal),
        Err(ReadFault::Memory) => return Ending::Memory,
    };
    match order {
        Order::Run { number, trace } => run(alloc, number, trace, &scene, out),
        Order::Check => check(&scene, out),
        Order::Layout => layout(alloc, &scene, out),
        Order::Gen { number, .. } => run_made(alloc, number, &scene, out),
        Order::Scrub { number } => scrub(alloc, number, &scene, out),
        Order::Workers { .. } | Order::Replay => unreachable!(),
    }
}

/// Carries out an order, and tells how that ended.
pub fn serve<S: Source, K: Sink>(alloc: Global, order: Order, source: &mut S, out: &mut K) -> Ending
    requires { is_alone order ≡ true }
    ensures { OrderEndsBy result order (call S.Source source.old source.new K.Sink out.old out.new) }
{
    match input(alloc, order, source) {
        Ok(text) => serve_text(alloc, order, &text, out),
        Err(ending) => ending,
    }
}
