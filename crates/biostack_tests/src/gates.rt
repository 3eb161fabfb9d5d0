//! Workers that really run beside each other: two writers that wait for each other's steps.
ghost use Rattle.std.specs.Prelude.{◌≡◌, None};

use crate::asks::holds;
use crate::calls::ROOM;
use crate::workers::make_call_by;
use bio_workers::Gate;
use outside_io::Sink;
use shared_objects::Closed;
use std::hint::spin_loop;
use std::process::Abort;
use std::snapshot::Snapshot;
use std::sync::Wait;
use std::sync::atomic::{AtomicU64, Ordering};
use std::thread::Threads;
use task_core::TaskId;

/// How often a step looks for the other writer, before it gives up.
const LOOKS: u64 = 100_000_000;

/// The steps of a task, as a gate is told of them.
#[derive(Drop)]
struct Steps {
    begun: AtomicU64,
    over: AtomicU64,
}

impl Steps {
    fn new() -> Steps {
        Steps {
            begun: AtomicU64::new(0),
            over: AtomicU64::new(0),
        }
    }

    fn begun(&self) -> u64 {
        self.begun.load(Ordering::SeqCst)
    }

    // One more begins. Whether all before it are over.
    fn begin(&self) -> bool {
        self.begun.fetch_add(1, Ordering::SeqCst) == self.over.load(Ordering::SeqCst)
    }

    // One more is over. Whether it has begun, and none behind it has.
    fn end(&self) -> bool {
        self.over.fetch_add(1, Ordering::SeqCst).wrapping_add(1) == self.begun()
    }

    // Whether all are over that have begun, and there were so many at least.
    fn are_over(&self, least: u64) -> bool {
        let over = self.over.load(Ordering::SeqCst);
        over == self.begun() && over >= least
    }
}

/// Each of the first three steps of a writer waits until the other writer has come to as many.
#[derive(Drop)]
struct Pair {
    first: Steps,
    second: Steps,
    /// The completer of the disk.
    completer: Steps,
    /// How many steps gave up, or were told of out of their order.
    missed: AtomicU64,
    /// How often it was shown what was left.
    shown: u64,
    seen: Option<Snapshot<Closed>>,
}

impl Pair {
    fn new() -> Pair
        ensures { ⟦<Pair as Gate>⟧.shown result ≡ None }
    {
        Pair {
            first: Steps::new(),
            second: Steps::new(),
            completer: Steps::new(),
            missed: AtomicU64::new(0),
            shown: 0,
            seen: None,
        }
    }

    // The steps of a task, of which there are three.
    fn steps(&self, task: TaskId) -> &Steps {
        match task {
            TaskId::Writer(0) => &self.first,
            TaskId::Writer(_) => &self.second,
            _ => &self.completer,
        }
    }

    fn miss(&self) {
        self.missed.fetch_add(1, Ordering::SeqCst);
    }

    // Waits until the others have begun as many steps as this writer, of the first three.
    fn meet(&self, mine: &Steps, others: &Steps) {
        let count = mine.begun();
        if count > 3 {
            return;
        }
        for _ in 0..LOOKS {
            if others.begun() >= count {
                return;
            }
            spin_loop();
        }
        self.miss();
    }

    // Whether no step gave up, each was told of before it and behind it, and what was left was shown once. Of a write the writer makes three steps
    // at least, and the completer four.
    fn have_met(&self) -> bool {
        let is_missed = self.missed.load(Ordering::SeqCst) != 0;
        !is_missed
            && self.shown == 1
            && self.first.are_over(3)
            && self.second.are_over(3)
            && self.completer.are_over(8)
    }
}

impl Gate for Pair {
    ghost use Rattle.bio_workers.specs.Gates.{shown_by};

    ghost shown = { λ gate. shown_by gate.seen };

    fn before(&self, task: TaskId) {
        if !self.steps(task).begin() {
            self.miss();
        }
        match task {
            TaskId::Writer(0) => self.meet(&self.first, &self.second),
            TaskId::Writer(1) => self.meet(&self.second, &self.first),
            _ => {}
        }
    }

    fn after(&self, task: TaskId) {
        if !self.steps(task).end() {
            self.miss();
        }
    }

    fn closed(&mut self, closed: &Closed) {
        self.shown = self.shown.saturating_add(1);
        self.seen = Some(Snapshot::of(closed));
    }
}

// Whether two writers meet at their first steps, under two workers, and both writes end well.
fn two_writers_meet(rt: &(impl Abort + AllocGlobal + Threads + Wait + Sync)) -> bool {
    let mut gate = Pair::new();
    let text = "disk a 64\nwrite 0 a 0 1 0\nwrite 1 a 1 1 0\n";
    let done = make_call_by(
        rt,
        &["run", "--workers", "2"],
        text.as_bytes(),
        ROOM,
        &mut gate,
    );
    let is_told = done.output.held().starts_with(b"write 0 ok\nwrite 1 ok\n");
    is_told && done.status == 0 && gate.have_met()
}

// It fails where one thread steps both writers.
#[test]
fn two_workers_run_beside_each_other(rt: HostRuntime) {
    holds(&rt, two_writers_meet(&rt), "two writers");
}
