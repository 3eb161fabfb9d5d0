//! Runs a text by threads.
ghost use Rattle.std.specs.Prelude.{◌≡◌, ◌≤◌, None};
ghost use Rattle.task_core.specs.opened.OfOne.{scenario_in};
ghost use Rattle.shared_objects.specs.Shared.{SharedHolds};
ghost use Rattle.biostack_top.specs.Ending.{SharedEndsBy, WorkersEndBy};
ghost use Rattle.biostack_top.specs.Running.{ShowsOutcome};
ghost use Rattle.biostack_top.specs.Scene.{IsSaid};
ghost use Rattle.biostack_top.specs.Streams.{call, sink_stream};

use crate::ending::Ending;
use crate::input::read;
use crate::report::report_behind;
use crate::scene::{Scene, read_scene};
use crate::trace::write_trace;
use bio_workers::{Gate, run_workers};
use decl_text::ReadFault;
use outside_io::{Sink, Source};
use run_merge::{Outcome, merge};
use shared_objects::{Shared, share};
use std::alloc::{AllocError, Global};
use std::sync::Wait;
use std::thread::Threads;
use task_core::open;

// Runs what was shared to its end, shows the gate what the threads left, and answers what the merge of that is.
fn run_shown<R: Threads + Wait + Sync, G: Gate + Sync>(
    rt: &R,
    alloc: Global,
    workers: u32,
    shared: Shared,
    gate: &mut G,
) -> Result<Outcome, AllocError>
    requires holds { SharedHolds shared }
    requires untaken { shared.next ≡ 0 }
    requires workers { (1 ≤ workers) × (workers ≤ 16) }
    ensures { ShowsOutcome (scenario_in shared.told.value) shared.locks.trace (G.shown gate.new) result }
{
    let closed = run_workers(rt, shared, workers, &*gate);
    gate.closed(&closed);
    merge(alloc, closed)
}

// Runs the scene's writes to their end by so many threads, and reports what the run left, behind its trace where there is to be one.
fn run_scene<R: Threads + Wait + Sync, K: Sink, G: Gate + Sync>(
    rt: &R,
    alloc: Global,
    workers: u32,
    trace: bool,
    scene: &Scene<'_>,
    out: &mut K,
    gate: &mut G,
) -> Ending
    requires said { IsSaid scene.now }
    requires workers { (1 ≤ workers) × (workers ≤ 16) }
    requires unshown { G.shown gate.old ≡ None }
    ensures { SharedEndsBy result trace (G.shown gate.new) scene.now.text.now (sink_stream K.Sink out.old out.new) }
{
    let Ok(opened) = open(alloc, &scene.accepted, &scene.work) else {
        return Ending::Memory;
    };
    let Ok(shared) = share(alloc, opened, trace) else {
        return Ending::Memory;
    };
    let Ok(outcome) = run_shown(rt, alloc, workers, shared, gate) else {
        return Ending::Memory;
    };
    let Outcome { ended, events } = outcome;
    let traced = write_trace(&events, &scene.accepted.stack, out);
    report_behind(traced, &ended, scene, out)
}

// Runs a text by so many threads, with a trace or with none.
fn serve_text<R: Threads + Wait + Sync, K: Sink, G: Gate + Sync>(
    rt: &R,
    alloc: Global,
    workers: u32,
    trace: bool,
    text: &[u8],
    out: &mut K,
    gate: &mut G,
) -> Ending
    requires workers { (1 ≤ workers) × (workers ≤ 16) }
    requires unshown { G.shown gate.old ≡ None }
    ensures { SharedEndsBy result trace (G.shown gate.new) text.now (sink_stream K.Sink out.old out.new) }
{
    match read_scene(alloc, text, false) {
        Ok(scene) => run_scene(rt, alloc, workers, trace, &scene, out, gate),
        Err(ReadFault::Refused(refusal)) => Ending::Refused(refusal),
        Err(ReadFault::Memory) => Ending::Memory,
    }
}

/// Runs the text of the source by so many threads, from 1 to 16, shows the gate what they left, and reports it, with a trace or with none. Tells
/// how that ended.
pub(crate) fn serve_workers<R: Threads + Wait + Sync, S: Source, K: Sink, G: Gate + Sync>(
    rt: &R,
    alloc: Global,
    workers: u32,
    trace: bool,
    source: &mut S,
    out: &mut K,
    gate: &mut G,
) -> Ending
    requires workers { (1 ≤ workers) × (workers ≤ 16) }
    requires unshown { G.shown gate.old ≡ None }
    ensures { WorkersEndBy result trace (G.shown gate.new)
        (call S.Source source.old source.new K.Sink out.old out.new) }
{
    match read(alloc, source) {
        Ok(text) => serve_text(rt, alloc, workers, trace, &text, out, gate),
        Err(ending) => ending,
    }
}
