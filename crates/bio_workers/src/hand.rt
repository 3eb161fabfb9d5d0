//! The tasks of one worker.
ghost use Rattle.std.specs.Prelude.{◌≡◌, ◌++◌, ◌+◌, ◌<◌, ◌≤◌, ◌%◌, ◌≢◌, All, IsPermutation, length};
ghost use Rattle.bio_workers.specs.Parting.{PutBy};
ghost use Rattle.bio_workers.specs.declared.few.TheConstants.{MOST_TASKS};

use crate::few::Few;
use crate::work::Work;

/// A worker's number, and its tasks.
#[derive(Drop)]
pub struct Hand<T: Drop> {
    pub(crate) worker: u32,
    pub(crate) tasks: Few<T>,
}

/// Adds all of the others.
pub(crate) fn join<T: Drop>(tasks: &mut Few<T>, others: Few<T>)
    requires { length tasks.old + length others ≤ MOST_TASKS }
    ensures { IsPermutation (others ++ tasks.old) tasks.new }
{
    let mut others = others;
    while let Some(task) = others.pop() {
        tasks.push(task);
    }
}

/// Takes out the tasks that fall to a worker, by their numbers. The others stay.
pub(crate) fn part<T: Drop, W: Work<T>>(
    work: &W,
    tasks: &mut Few<T>,
    workers: u32,
    worker: u32,
) -> Few<T>
    requires { 1 ≤ workers }
    ensures all { IsPermutation tasks.old (result ++ tasks.new) }
    ensures own { All (λ task. W.number (W.key task) % workers ≡ worker) result }
    ensures others { All (λ task. W.number (W.key task) % workers ≢ worker) tasks.new }
{
    let mut own = Few::new();
    let mut others = Few::new();
    let count = tasks.len();
    'parting: for done in 0..count {
        let Some(task) = tasks.pop() else {
            unreachable!()
        };
        put_by(work, task, workers, worker, &mut own, &mut others);
    }
    join(tasks, others);
    own
}

// Puts a task to the worker's own, or to the others.
fn put_by<T: Drop, W: Work<T>>(
    work: &W,
    task: T,
    workers: u32,
    worker: u32,
    own: &mut Few<T>,
    others: &mut Few<T>,
)
    requires some { 1 ≤ workers }
    requires room { length own.old + length others.old < MOST_TASKS }
    ensures { PutBy (λ t. W.number (W.key t) % workers ≡ worker) task own.old others.old own.new others.new }
{
    if work.number(&task) % workers == worker {
        own.push(task);
    } else {
        others.push(task);
    }
}
