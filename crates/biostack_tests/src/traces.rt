//! Traces of runs by workers. Which run they make is not known beforehand, but each line has to be the event that comes next in it.
ghost use Rattle.trace_text.specs.Names.{DevicesAreNamed};

use crate::asks::holds;
use crate::calls::{ROOM, owned};
use crate::replays::begins;
use crate::scenes::scene_of;
use crate::texts::{MIRRORED, MIRRORED_REPORT, ONE_SECTOR, ONE_SECTOR_REPORT};
use crate::workers::{
    NESTED, NESTED_REPORT, RESIZED, RESIZED_REPORT, ROUNDS, ROUNDS_REPORT, run_by,
};
use decl_text::Lines;
use outside_io::Sink;
use plain_core::Core;
use plain_core::laws::accepted_texts_can_open;
use stack_base::Stack;
use std::process::Abort;
use std::sync::Wait;
use std::thread::Threads;
use trace_text::laws::accepted_stacks_are_named;
use trace_text::read_event;

/// A text, the most workers that run it, how many events each of its runs has, and its report.
#[derive(Clone, Copy)]
struct Traced(&'static str, u32, u64, &'static str);

const TRACES: &[Traced] = &[
    Traced(ONE_SECTOR, 2, 7, ONE_SECTOR_REPORT),
    Traced(MIRRORED, 4, 25, MIRRORED_REPORT),
    Traced(NESTED, 4, 61, NESTED_REPORT),
    Traced(ROUNDS, 4, 15, ROUNDS_REPORT),
    Traced(RESIZED, 4, 49, RESIZED_REPORT),
];

// Whether a line is that of an event which can come next. It has come then.
fn comes(core: &mut Core, stack: &Stack, line: &[u8]) -> bool
    requires { DevicesAreNamed stack.now }
{
    match read_event(line, stack) {
        Some(event) => core.apply(&event).is_ok(),
        None => false,
    }
}

// How many of the first lines are events, each of which can come behind those before it.
fn follow(core: &mut Core, stack: &Stack, text: &[u8]) -> u64
    requires { DevicesAreNamed stack.now }
{
    let mut lines = Lines::from(text, 0);
    let mut events: u64 = 0;
    for _ in 0..u64::MAX {
        let Some(line) = lines.next() else {
            return events;
        };
        if !comes(core, stack, line) {
            return events;
        }
        events = events.saturating_add(1);
    }
    events
}

// Whether the first lines are this many events, one after the other, and all is done behind them.
fn is_run_of(rt: &(impl Abort + AllocGlobal), text: &str, trace: &[u8], events: u64) -> bool {
    let scene = scene_of(rt, text);
    accepted_stacks_are_named();
    accepted_texts_can_open();
    let stack = &scene.accepted.stack;
    let mut core = Core::plain(rt.alloc(), stack, &scene.accepted.scripts, &scene.work).expect(
        rt, "no core",
    );
    follow(&mut core, stack, trace) == events && core.has_ended()
}

// Whether so many workers trace a run of a text, and report it.
fn traces(
    rt: &(impl Abort + AllocGlobal + Threads + Wait + Sync),
    workers: u32,
    row: Traced,
) -> bool {
    let Traced(text, _, events, report) = row;
    let done = run_by(rt, workers, true, text.as_bytes(), ROOM);
    let told = done.output.held();
    let is_written = told.ends_with(report.as_bytes()) && is_run_of(rt, text, told, events);
    done.status == 0 && is_written && done.errors.held().is_empty()
}

// Whether what so many workers wrote of a text, with a trace, is replayed behind it to the end of their run.
fn replays(
    rt: &(impl Abort + AllocGlobal + Threads + Wait + Sync),
    workers: u32,
    row: Traced,
) -> bool {
    let Traced(text, _, events, report) = row;
    let done = run_by(rt, workers, true, text.as_bytes(), ROOM);
    let told = done.output.held();
    let mut all = owned(rt, text.as_bytes());
    all.extend_from_slice(told).expect(rt, "no text");
    let lines = format!(in rt.alloc(); "replay events {events}\nend ended\n").expect(
        rt, "no lines",
    );
    told.ends_with(report.as_bytes()) && begins(rt, &all, lines.as_str())
}

#[test]
fn what_workers_trace_is_a_run(rt: HostRuntime) {
    for row in TRACES {
        for workers in 1..=row.1 {
            holds(&rt, traces(&rt, workers, *row), row.0);
        }
    }
}

#[test]
fn what_workers_trace_is_replayed_to_its_end(rt: HostRuntime) {
    for row in TRACES {
        for workers in 1..=row.1 {
            holds(&rt, replays(&rt, workers, *row), row.0);
        }
    }
}
