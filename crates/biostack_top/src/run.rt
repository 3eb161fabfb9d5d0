//! Runs a scene to its end.
ghost use Rattle.std.specs.Prelude.{◌≡◌, ◌^◌, ◌<◌, List, false};
ghost use Rattle.run_machine.specs.declared.event.Event.{Event as Happening};
ghost use Rattle.task_core.specs.opened.OfOne.{IsOpened, scenario_in};
ghost use Rattle.biostack_words.specs.declared.order.Order.TheVariants as order;
ghost use Rattle.biostack_top.specs.Scene.{IsSaid};
ghost use Rattle.biostack_top.specs.Running.{ByNumber, HasRun, WritesRun, sectors_of_writes};
ghost use Rattle.biostack_top.specs.Streams.{sink_stream};
ghost use Rattle.biostack_top.specs.Tracing.{traced};
ghost use Rattle.biostack_top.specs.Ending.{TextEndsBy};

use crate::ending::Ending;
use crate::report::report_behind;
use crate::scene::Scene;
use crate::trace::run_traced;
use layout_model::Write;
use outside_io::{Failed, Sink};
use report_text::write_gen;
use serial_run::{Events, Schedule, run_serial};
use stack_base::Stack;
use std::alloc::Global;
use task_core::{Ended, Event, Opened, open};

// What the events of a run are handed to that has no trace.
#[derive(Drop)]
struct Silence;

impl Events for Silence {
    ghost happens = { λ old event new. Unit {0} };

    fn event(&mut self, _event: &Event) {}
}

/// Runs what was opened, and tells nothing of it.
pub(crate) fn run_quiet(opened: Opened, number: u64) -> Ended
    requires opened { IsOpened opened }
    ensures { (events : List Happening) × HasRun (scenario_in opened) (ByNumber number) events result }
{
    let mut schedule = Schedule::new(number);
    run_serial(opened, &mut schedule, &mut Silence)
}

// Runs what was opened, with a trace or with none. Answers how the writing of the trace ended, too.
fn run_opened<K: Sink>(
    opened: Opened,
    number: u64,
    trace: bool,
    stack: &Stack,
    out: &mut K,
) -> (Ended, Result<(), Failed>)
    requires opened { IsOpened opened }
    ensures { WritesRun (scenario_in opened) number (traced trace stack.now) result
        (sink_stream K.Sink out.old out.new) }
{
    if trace {
        run_traced(opened, number, stack, out)
    } else {
        (run_quiet(opened, number), Ok(()))
    }
}

/// Runs the scene's writes to their end by the schedule of a number, and reports what the run left.
pub(crate) fn run<K: Sink>(
    alloc: Global,
    number: u64,
    trace: bool,
    scene: &Scene<'_>,
    out: &mut K,
) -> Ending
    requires { IsSaid scene.now }
    ensures { TextEndsBy result (order.Run number trace) scene.now.text.now (sink_stream K.Sink out.old out.new) }
{
    let Ok(opened) = open(alloc, &scene.accepted, &scene.work) else {
        return Ending::Memory;
    };
    let (ended, traced) = run_opened(opened, number, trace, &scene.accepted.stack, out);
    report_behind(traced, &ended, scene, out)
}

// How many sectors writes have together.
fn sectors(writes: &[Write]) -> u64
    requires { sectors_of_writes writes.now < 2 ^ 64 }
    ensures { result ≡ sectors_of_writes writes.now }
{
    let mut sectors = 0;
    'adding: for write in writes {
        sectors += write.count;
    }
    sectors
}

/// Runs the scene that a number makes to its end, by the schedule of the same number, and tells what it had and left.
pub(crate) fn run_made<K: Sink>(
    alloc: Global,
    number: u64,
    scene: &Scene<'_>,
    out: &mut K,
) -> Ending
    requires { IsSaid scene.now }
    ensures { TextEndsBy result (order.Gen number false) scene.now.text.now (sink_stream K.Sink out.old out.new) }
{
    let Ok(opened) = open(alloc, &scene.accepted, &scene.work) else {
        return Ending::Memory;
    };
    let ended = run_quiet(opened, number);
    let writes = &scene.work.writes;
    let stack = &scene.accepted.stack;
    match write_gen(
        number,
        writes.len() as u64,
        sectors(writes),
        &ended,
        stack,
        &scene.work.bound,
        out,
    ) {
        Ok(()) => Ending::Done,
        Err(Failed) => Ending::WriteFault,
    }
}
