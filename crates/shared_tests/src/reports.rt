//! Reports of runs whose tasks step at desks, on one thread.
ghost use Rattle.std.specs.Prelude.{IfOk};
ghost use Rattle.stack_base.specs.Stack.{HasRescuers};
ghost use Rattle.run_machine.specs.ReadBehind.{IsReadBehind};
ghost use Rattle.report_text.specs.Views.{IsEndedOfStack};

use crate::opened::share_scene;
use crate::storage::{storage_report, storage_text};
use crate::turns::close_in_turn;
use outside_io::MemSink;
use report_text::write_report;
use run_merge::merge;
use std::alloc::{AllocError, AllocGlobal, Global};
use std::sync::Wait;
use std::test::Fail;
use task_core::Ended;
use task_tests::texts::{Scene, scene_of};

/// More than any report here has.
const ROOM: usize = 8192;

/// A mirror whose one spare bio is first one clone and then the other, which its rescuer submits.
pub const MIRROR: (&str, &str) = (
    "disk a 8\ndisk b 8\nmirror m a b reserve=1 records=1\nmemory none\nwrite 0 m 0 1 0\n",
    "write 0 ok\ndisk a sum 00000000000007e0\nrun a 0 1\ndisk b sum 00000000000007e0\nrun b 0 1\n\
     pool fs.bios reserve 2 ordinary 0 spare 1\npool fs.vecs reserve 2 ordinary 0 spare 0\n\
     pool m.records reserve 1 ordinary 0 spare 1\npool m.bios reserve 1 ordinary 0 spare 2\nsteps 25 of 36\n",
);

/// Two rounds, whose writes share a sector.
pub const ROUNDS: (&str, &str) = (
    "disk a 8\nwrite 0 a 0 2 0\nsync\nwrite 1 a 1 2 1000\n",
    "write 0 ok\nwrite 1 ok\ndisk a sum 0000000000021ba0\nrun a 0 3\n\
     pool fs.bios reserve 2 ordinary 2 spare 0\npool fs.vecs reserve 2 ordinary 0 spare 0\nsteps 15 of 21\n",
);

/// Texts, and their reports.
const RUNS: &[(&str, &str)] = &[
    // No task at all.
    (
        "",
        "pool fs.bios reserve 2 ordinary 0 spare 0\npool fs.vecs reserve 2 ordinary 0 spare 0\nsteps 0 of 0\n",
    ),
    // A writer and a completer. The words of the sector are 0 to 63.
    (
        "disk a 64\nwrite 0 a 0 1 0\n",
        "write 0 ok\ndisk a sum 00000000000007e0\nrun a 0 1\n\
         pool fs.bios reserve 2 ordinary 1 spare 0\npool fs.vecs reserve 2 ordinary 0 spare 0\nsteps 7 of 10\n",
    ),
    MIRROR,
    ROUNDS,
    // The mirror once more with a reserve of two, where no take misses.
    (
        "disk a 8\ndisk b 8\nmirror m a b reserve=1 records=1\nmemory none\nwrite 0 m 0 1 0\n\
         sync\nresize m.bios 2\nwrite 0 m 0 1 64\n",
        "write 0 ok\nwrite 1 ok\ndisk a sum 00000000000017e0\nrun a 0 1\ndisk b sum 00000000000017e0\nrun b 0 1\n\
         pool fs.bios reserve 2 ordinary 0 spare 2\npool fs.vecs reserve 2 ordinary 0 spare 0\n\
         pool m.records reserve 1 ordinary 0 spare 2\npool m.bios reserve 2 ordinary 0 spare 4\nsteps 49 of 74\n",
    ),
];

// What the run of a text leaves whose tasks step in turn.
fn leave(rt: &(impl Wait + AllocGlobal), scene: &Scene) -> Result<Ended, AllocError>
    requires read { IsReadBehind scene.now.accepted scene.now.work }
    requires rescuers { HasRescuers scene.now.accepted.stack }
    ensures { IfOk result (IsEndedOfStack scene.now.accepted.stack) }
{
    let shared = share_scene(rt.alloc(), scene)?;
    let closed = close_in_turn(rt, rt.alloc(), shared)?;
    let outcome = merge(rt.alloc(), closed)?;
    Ok(outcome.ended)
}

/// Whether this is the report of what a run left.
pub fn is_report(
    alloc: Global,
    scene: &Scene,
    ended: &Ended,
    report: &str,
) -> Result<bool, AllocError>
    requires read { IsReadBehind scene.now.accepted scene.now.work }
    requires ended { IsEndedOfStack scene.now.accepted.stack ended.now }
{
    let mut out = MemSink::new(alloc, ROOM)?;
    let written = write_report(ended, &scene.accepted.stack, &scene.work.bound, &mut out);
    Ok(written.is_ok() && out.held() == report.as_bytes())
}

// Whether this is the report of such a run.
fn reports(rt: &(impl Wait + AllocGlobal), text: &str, report: &str) -> Result<bool, Fail> {
    let scene = scene_of(rt.alloc(), text)?;
    let ended = leave(rt, &scene)?;
    Ok(is_report(rt.alloc(), &scene, &ended, report)?)
}

// No clause says that a call takes its memory where there is enough, that the tasks of a run come to their ends, or what the definitions make of
// these texts.
#[test]
fn tasks_at_desks_leave_what_the_rules_say(rt: HostRuntime) -> Result<(), Fail> {
    for (text, report) in RUNS {
        assert!(rt; reports(&rt, text, report)?, "{text}");
    }
    Ok(())
}

// The same of 11,318 events of nine tasks, four of them writers.
#[test]
fn tasks_at_desks_write_to_a_realistic_stack(rt: HostRuntime) -> Result<(), Fail> {
    let text = storage_text(rt.alloc())?;
    let report = storage_report(rt.alloc())?;
    assert!(rt; reports(&rt, text.as_str(), report.as_str())?);
    Ok(())
}
