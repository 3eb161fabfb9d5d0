//! Runners that hand a baton on, as an example of tasks that wait for each other.
ghost use Rattle.std.specs.Prelude.{◌≡◌, ◌≤◌};
ghost use Rattle.bio_workers.specs.declared.work.WorkOutcome.TheVariants.{Over};

use bio_workers::{Few, MOST_TASKS, Work, WorkOutcome, run_tasks};
use std::sync::Wait;
use std::sync::atomic::{AtomicU64, Ordering};
use std::thread::Threads;

/// A runner takes the baton so often, each time after the runner before it.
#[derive(Drop)]
pub struct Runner {
    pub number: u32,
    pub left: u64,
}

/// A baton that goes round among so many runners.
#[derive(Drop)]
pub struct Relay {
    runners: u64,
    // How often it was handed on. The runner with this number, modulo the number of runners, has it.
    handed: AtomicU64,
}

impl Work<Runner> for Relay {
    ghost use Rattle.std.specs.Prelude.{◌≡◌, ◌≢◌, ◌+◌};
    ghost use Rattle.bio_workers.specs.declared.work.WorkOutcome.TheVariants.{Happened};

    type Key = u32;

    ghost key = { λ runner. runner.number };

    ghost number = { λ number. number };

    ghost can = { λ _ _. Unit {0} };

    ghost is_over = { λ runner. runner.left ≡ 0 };

    ghost goes = { λ came old new. (came ≡ Happened → new.left + 1 ≡ old.left) × (came ≢ Happened → new ≡ old) };

    fn number(&self, task: &Runner) -> u32 {
        task.number
    }

    fn step<R: Wait>(&self, _rt: &R, task: &mut Runner) -> WorkOutcome {
        if task.left == 0 {
            return WorkOutcome::Over;
        }
        let handed = self.handed.load(Ordering::SeqCst);
        if handed % self.runners.max(1) != u64::from(task.number) {
            return WorkOutcome::Nothing;
        }
        self.handed.fetch_add(1, Ordering::SeqCst);
        task.left -= 1;
        WorkOutcome::Happened
    }
}

/// Has so many runners take the baton so often each, and answers how many came back, and how often it was handed on.
pub fn run_relay<R: Threads + Wait + Sync>(
    rt: &R,
    workers: u32,
    runners: u32,
    often: u64,
) -> (usize, u64)
    requires { (1 ≤ workers) × (workers ≤ 16) }
{
    let mut tasks = Few::new();
    for number in 0..runners {
        if tasks.len() < MOST_TASKS {
            tasks.push(Runner {
                number,
                left: often,
            });
        }
    }
    let relay = Relay {
        runners: u64::from(runners),
        handed: AtomicU64::new(0),
    };
    let tasks = run_tasks(rt, &relay, tasks, workers);
    (tasks.len(), relay.handed.load(Ordering::SeqCst))
}
