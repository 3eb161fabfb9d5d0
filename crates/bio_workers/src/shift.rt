//! Workers at their tasks.
ghost use Rattle.std.specs.Prelude.{◌≡◌, ◌≤◌, ◌<◌, ◌+◌, All, IsPermutation, map};
ghost use Rattle.bio_workers.specs.Room.{TasksFitInMemory};
ghost use Rattle.bio_workers.specs.Visits.{AreVisited};
ghost use Rattle.bio_workers.specs.declared.work.WorkOutcome.TheVariants.{Over};

use crate::bell::Bell;
use crate::few::{Few, MOST_TASKS};
use crate::hand::{Hand, join, part};
use crate::job::{Job, run};
use crate::work::{Work, WorkOutcome};
use std::sync::Wait;
use std::sync::atomic::{AtomicU64, Ordering};
use std::thread::Threads;

/// What the workers of a run share.
#[derive(Drop)]
struct Shift<'a, W> {
    work: &'a W,
    workers: u32,
    bell: Bell,
    // The workers that could not be started, one bit each.
    refused: AtomicU64,
    ghost some: { 1 ≤ workers },
}

impl<'a, W> Shift<'a, W> {
    // Visits each task once.
    fn sweep<T: Drop, R: Wait>(&self, rt: &R, tasks: &mut Few<T>) -> WorkOutcome
    where
        W: Work<T>,
        requires { All (W.can self.now.work.now) (map W.key tasks.old) }
        ensures keys { map W.key tasks.new ≡ map W.key tasks.old }
        ensures over { result ≡ Over → All W.is_over tasks.new }
        ensures visits { AreVisited W.goes result tasks.old tasks.new }
    {
        let mut came = WorkOutcome::Over;
        for at in 0..tasks.len() {
            came = came.and(tasks.visit_at(rt, self.work, &self.bell, at));
        }
        came
    }

    // Sweeps once more, and listens meanwhile. It sleeps only where that sweep too met nothing, and some task may go on once others did.
    fn look_again<T: Drop, R: Wait>(&self, rt: &R, tasks: &mut Few<T>)
    where
        W: Work<T>,
        requires { All (W.can self.now.work.now) (map W.key tasks.old) }
        ensures { map W.key tasks.new ≡ map W.key tasks.old }
    {
        let heard = self.bell.listen();
        if self.sweep(rt, tasks) == WorkOutcome::Nothing {
            self.bell.wait(rt, heard);
        }
        self.bell.leave();
    }

    // Sweeps until no task goes on. Who met nothing looks once more before it sleeps.
    fn finish<T: Drop, R: Wait>(&self, rt: &R, tasks: &mut Few<T>)
    where
        W: Work<T>,
        requires { All (W.can self.now.work.now) (map W.key tasks.old) }
        ensures keys { map W.key tasks.new ≡ map W.key tasks.old }
        ensures over { All W.is_over tasks.new }
    {
        for _ in rt.forever() {
            match self.sweep(rt, tasks) {
                WorkOutcome::Happened => {}
                WorkOutcome::Nothing => self.look_again(rt, tasks),
                WorkOutcome::Over => return,
            }
        }
        unreachable!()
    }

    fn is_refused(&self, worker: u32) -> bool {
        self.refused.load(Ordering::SeqCst) >> (worker % 64) & 1 == 1
    }
}

impl<'a, T: Drop, W: Work<T>> Job<Hand<T>> for Shift<'a, W> {
    ghost use Rattle.std.specs.Prelude.{◌≡◌, ◌%◌, map};
    ghost use Rattle.bio_workers.specs.declared.few.TheConstants.{MOST_TASKS};

    type Key = W::Key;

    ghost keys = { λ hand. map W.key hand.tasks };

    ghost most = { MOST_TASKS };

    ghost can = { λ shift key. W.can shift.work.now key };

    ghost falls = { λ shift key worker. W.number key % shift.workers ≡ worker };

    ghost holder = { λ hand. hand.worker };

    fn deal(&self, all: &mut Hand<T>, worker: u32) -> Hand<T> {
        Hand {
            worker,
            tasks: part(self.work, &mut all.tasks, self.workers, worker),
        }
    }

    fn absorb(&self, hand: &mut Hand<T>, other: Hand<T>) {
        let Hand { worker: _, tasks } = other;
        join(&mut hand.tasks, tasks);
    }

    fn halt(&self, worker: u32) {
        self.refused.fetch_add(1 << (worker % 64), Ordering::SeqCst);
    }

    fn work<R: Wait>(&self, rt: &R, hand: &mut Hand<T>) {
        if !self.is_refused(hand.worker) {
            self.finish(rt, &mut hand.tasks);
        }
    }
}

/// Steps tasks by so many workers, of which the caller is one, until none of them goes on. Task number `k` falls to worker `k` modulo their
/// number, and to the caller where that worker's thread could not be started.
///
/// It takes no memory but for threads, and what steps take.
pub fn run_tasks<R: Threads + Wait + Sync, T: Send + Drop, W: Work<T> + Sync>(
    rt: &R,
    work: &W,
    tasks: Few<T>,
    workers: u32,
) -> Few<T>
    requires workers { (1 ≤ workers) × (workers ≤ 16) }
    requires can { All (W.can work.now) (map W.key tasks) }
    requires size { TasksFitInMemory T.row }
    ensures tasks { IsPermutation (map W.key tasks) (map W.key result) }
    ensures over { All W.is_over result }
{
    let count = tasks.len();
    prove!(count <= MOST_TASKS);
    let shift = Shift {
        work,
        workers,
        bell: Bell::new(),
        refused: AtomicU64::new(0),
    };
    let Hand {
        worker: _,
        mut tasks,
    } = run(rt, &shift, Hand { worker: 0, tasks }, workers);
    // Each worker left its tasks where none went on. That each of all is over is seen here once more, since a hand that comes back tells no more
    // than that its tasks are those that were dealt.
    shift.finish(rt, &mut tasks);
    tasks
}
