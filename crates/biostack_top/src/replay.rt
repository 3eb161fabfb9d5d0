//! Replays the trace that stands behind a scenario.
ghost use Rattle.std.specs.Prelude.{◌+◌, ◌^◌, ◌<◌, true, length, IfOk};
ghost use Rattle.biostack_words.specs.declared.order.Order.TheVariants as order;
ghost use Rattle.biostack_top.specs.Ending.{TextEndsBy};
ghost use Rattle.biostack_top.specs.Replaying.{ComeTo};
ghost use Rattle.biostack_top.specs.Scene.{IsSaidBy};
ghost use Rattle.biostack_top.specs.Streams.{sink_stream};
ghost use Rattle.trace_replay.specs.Lines.{told_in};

use crate::ending::Ending;
use crate::scene::{Scene, read_scene};
use decl_text::{ReadFault, Reason};
use outside_io::{Failed, Sink};
use plain_core::Core;
use plain_core::laws::accepted_texts_can_open;
use std::alloc::{AllocError, Global};
use trace_replay::laws::{none_is_stuck, runs_have_no_bad_line};
use trace_replay::{CutText, Replayed, cut_text, write_replayed};
use trace_text::laws::accepted_stacks_are_named;

// The most bytes that a text may have, with its trace.
const MOST_BYTES: usize = 4_194_304;

// What lines of events come to over the scene before them.
fn replayed(alloc: Global, scene: &Scene<'_>, parts: &CutText<'_>) -> Result<Replayed, AllocError>
    requires said { IsSaidBy true scene.now }
    requires few { parts.now.first + length parts.now.events.now < 2 ^ 64 }
    ensures { IfOk result (ComeTo scene.now.accepted scene.now.work (told_in parts.now.first parts.now.events.now)) }
{
    accepted_stacks_are_named();
    accepted_texts_can_open();
    runs_have_no_bad_line();
    none_is_stuck();
    let stack = &scene.accepted.stack;
    let core = Core::plain(alloc, stack, &scene.accepted.scripts, &scene.work)?;
    trace_replay::replay(alloc, core, parts.events, parts.first, stack)
}

/// Replays the lines of events of a text over the scenario before them, and tells how far they are a run of it.
pub(crate) fn replay<K: Sink>(alloc: Global, text: &[u8], out: &mut K) -> Ending
    ensures { TextEndsBy result order.Replay text.now (sink_stream K.Sink out.old out.new) }
{
    if text.len() > MOST_BYTES {
        return Ending::Refused(Reason::TooLong.at(0));
    }
    let parts = cut_text(text);
    let scene = match read_scene(alloc, parts.scenario, true) {
        Ok(scene) => scene,
        Err(ReadFault::Refused(refusal)) => return Ending::Refused(refusal),
        Err(ReadFault::Memory) => return Ending::Memory,
    };
    let Ok(replayed) = replayed(alloc, &scene, &parts) else {
        return Ending::Memory;
    };
    match write_replayed(&replayed, &scene.accepted.stack, out) {
        Err(Failed) => Ending::WriteFault,
        Ok(()) => {
            if replayed.bad.is_none() {
                Ending::Done
            } else {
                Ending::NotAllWell
            }
        }
    }
}
