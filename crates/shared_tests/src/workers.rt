//! Runs by workers, made anew ten thousand times: whoever has to wait is woken.
ghost use Rattle.std.specs.Prelude.{◌≤◌, IfOk, None};
ghost use Rattle.stack_base.specs.Stack.{HasRescuers};
ghost use Rattle.run_machine.specs.ReadBehind.{IsReadBehind};
ghost use Rattle.report_text.specs.Views.{IsEndedOfStack};

use crate::opened::share_scene;
use crate::reports::{MIRROR, ROUNDS, is_report};
use bio_workers::{Gate, run_workers};
use run_merge::merge;
use shared_objects::Closed;
use std::alloc::{AllocError, AllocGlobal};
use std::hint::spin_loop;
use std::snapshot::Snapshot;
use std::sync::Wait;
use std::sync::atomic::{AtomicU64, Ordering};
use std::test::Fail;
use std::thread::Threads;
use task_core::{Ended, TaskId};
use task_tests::texts::{Scene, scene_of};

/// How often a step of a writer looks whether it may begin, before it begins in any case: where threads are late, a run is no test of a wake-up.
const LOOKS: u64 = 20_000;

/// How often each of five tests makes a run.
const OFTEN: u64 = 2_000;

/// Holds writers back until tasks of other workers have been looked at. These workers met nothing then, so each of them sleeps, or is about to,
/// when the first event is rung.
#[derive(Drop)]
struct Late {
    /// The devices of these tasks, one bit each.
    awaited: u64,
    /// Those whose tasks were looked at.
    looked: AtomicU64,
    seen: Option<Snapshot<Closed>>,
}

impl Late {
    fn new(awaited: u64) -> Late {
        Late {
            awaited,
            looked: AtomicU64::new(0),
            seen: None,
        }
    }

    fn is_due(&self) -> bool {
        self.looked.load(Ordering::SeqCst) & self.awaited == self.awaited
    }
}

impl Gate for Late {
    ghost use Rattle.bio_workers.specs.Gates.{shown_by};

    ghost shown = { λ gate. shown_by gate.seen };

    fn before(&self, task: TaskId) {
        if !matches!(task, TaskId::Writer(_)) {
            return;
        }
        for _ in 0..LOOKS {
            if self.is_due() {
                return;
            }
            spin_loop();
        }
    }

    fn after(&self, task: TaskId) {
        if let TaskId::Rescuer(dev) | TaskId::Completer(dev) = task {
            self.looked.fetch_or(1 << (dev.0 % 64), Ordering::SeqCst);
        }
    }

    fn closed(&mut self, closed: &Closed) {
        self.seen = Some(Snapshot::of(closed));
    }
}

// What a run by so many workers leaves, whose writers wait for others.
fn leave(
    rt: &(impl Threads + Wait + Sync + AllocGlobal),
    scene: &Scene,
    workers: u32,
    awaited: u64,
) -> Result<Ended, AllocError>
    requires read { IsReadBehind scene.now.accepted scene.now.work }
    requires rescuers { HasRescuers scene.now.accepted.stack }
    requires workers { (1 ≤ workers) × (workers ≤ 16) }
    ensures { IfOk result (IsEndedOfStack scene.now.accepted.stack) }
{
    let shared = share_scene(rt.alloc(), scene)?;
    let closed = run_workers(rt, shared, workers, &Late::new(awaited));
    let outcome = merge(rt.alloc(), closed)?;
    Ok(outcome.ended)
}

// Whether such a run has this report.
fn reports(
    rt: &(impl Threads + Wait + Sync + AllocGlobal),
    scene: &Scene,
    workers: u32,
    awaited: u64,
    report: &str,
) -> Result<bool, AllocError>
    requires read { IsReadBehind scene.now.accepted scene.now.work }
    requires rescuers { HasRescuers scene.now.accepted.stack }
    requires workers { (1 ≤ workers) × (workers ≤ 16) }
{
    let ended = leave(rt, scene, workers, awaited)?;
    is_report(rt.alloc(), scene, &ended, report)
}

// Whether each such run has it.
fn report_each_time(
    rt: &(impl Threads + Wait + Sync + AllocGlobal),
    scene: &Scene,
    workers: u32,
    awaited: u64,
    report: &str,
) -> Result<bool, AllocError>
    requires read { IsReadBehind scene.now.accepted scene.now.work }
    requires rescuers { HasRescuers scene.now.accepted.stack }
    requires workers { (1 ≤ workers) × (workers ≤ 16) }
{
    for _ in 0..OFTEN {
        if !reports(rt, scene, workers, awaited, report)? {
            return Ok(false);
        }
    }
    Ok(true)
}

// In the mirror the writer, the rescuer and both completers wait for each other in turn.
fn mirror_each_time(
    rt: &(impl Threads + Wait + Sync + AllocGlobal),
    workers: u32,
    awaited: u64,
) -> Result<bool, Fail>
    requires { (1 ≤ workers) × (workers ≤ 16) }
{
    let (text, report) = MIRROR;
    let scene = scene_of(rt.alloc(), text)?;
    Ok(report_each_time(rt, &scene, workers, awaited, report)?)
}

// The second writer waits for the keeper of the rounds, which waits for the first one.
fn rounds_each_time(
    rt: &(impl Threads + Wait + Sync + AllocGlobal),
    workers: u32,
) -> Result<bool, Fail>
    requires { (1 ≤ workers) × (workers ≤ 16) }
{
    let (text, report) = ROUNDS;
    let scene = scene_of(rt.alloc(), text)?;
    Ok(report_each_time(rt, &scene, workers, 0, report)?)
}

// The other worker has the rescuer and the second completer.
#[test]
fn two_workers_of_a_mirror_are_woken_each_time(rt: HostRuntime) -> Result<(), Fail> {
    assert!(rt; mirror_each_time(&rt, 2, 0b110)?);
    Ok(())
}

// The others have the rescuer and the first completer.
#[test]
fn three_workers_of_a_mirror_are_woken_each_time(rt: HostRuntime) -> Result<(), Fail> {
    assert!(rt; mirror_each_time(&rt, 3, 0b101)?);
    Ok(())
}

// Each of the others has one of the three.
#[test]
fn four_workers_of_a_mirror_are_woken_each_time(rt: HostRuntime) -> Result<(), Fail> {
    assert!(rt; mirror_each_time(&rt, 4, 0b111)?);
    Ok(())
}

#[test]
fn two_workers_of_two_rounds_are_woken_each_time(rt: HostRuntime) -> Result<(), Fail> {
    assert!(rt; rounds_each_time(&rt, 2)?);
    Ok(())
}

#[test]
fn four_workers_of_two_rounds_are_woken_each_time(rt: HostRuntime) -> Result<(), Fail> {
    assert!(rt; rounds_each_time(&rt, 4)?);
    Ok(())
}
