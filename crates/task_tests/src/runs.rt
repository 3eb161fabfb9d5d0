//! Runs that a test makes by hand: it says which task is stepped in each turn, and what its step comes to.
ghost use Rattle.std.specs.Prelude.{◌≡◌, ◌-◌, min};
ghost use Rattle.trace_text.specs.Names.{DevicesAreNamed};
ghost use Rattle.task_core.specs.opened.OfOne.{AreOfOne, IsOpened};

use crate::nodes::Nodes;
use crate::texts::{Scene, scene_of};
use arrayvec::ArrayVec;
use model_disks::Disk;
use stack_base::{PoolId, Stack, Status};
use std::alloc::AllocGlobal;
use std::process::Abort;
use std::test::Fail;
use task_core::{Chooser, Event, Kind, Opened, Plain, Step, Task, TaskId, open};
use trace_text::{read_event, write_event};

/// What a step comes to.
#[derive(Clone, Copy)]
pub enum Answer {
    /// The event of this line, but for the numbers of nodes, which are the test's own.
    Event(&'static str),
    /// The task waits for an element of this pool.
    Blocked(PoolId),
    /// The task has nothing to do yet.
    Waiting,
    /// The task has nothing to do any more.
    Ended,
}

/// A turn: the task that is stepped, and what its step comes to.
pub type Turn = (TaskId, Answer);

/// Turns in their order. A bio that one of them completes is the one at this index of those that wait in its disk, or the last one where there
/// are fewer.
pub type Part = (u64, &'static [Turn]);

/// What a run leaves.
#[derive(Clone, Copy)]
pub struct Left {
    /// How many events it had.
    pub steps: u64,
    /// The status of each write.
    pub statuses: &'static [Status],
    /// The sum of each disk's words, and the start and the length of the run of its written sectors, if there is one.
    pub disks: &'static [(u64, Option<(u64, u64)>)],
}

// Chooses this index, or the last one where fewer wait.
#[derive(Clone, Copy)]
struct At {
    index: u64,
}

impl Chooser for At {
    ghost chooses = { λ old pending index new. (index ≡ min old.index (pending - 1)) × (new ≡ old) };

    fn choose(&mut self, pending: u64) -> u64 {
        self.index.min(pending - 1)
    }
}

// Whether the task has this name.
fn has_name(task: &Task, name: TaskId) -> bool {
    match (task.kind(), name) {
        (Kind::Writer(writer), TaskId::Writer(number)) => writer.number() == number,
        (Kind::Rescuer(rescuer), TaskId::Rescuer(dev)) => rescuer.dev() == dev,
        (Kind::Completer { disk, carried: _ }, TaskId::Completer(dev)) => *disk == dev,
        (Kind::Keeper(_), TaskId::Keeper) => true,
        _ => false,
    }
}

// A run under way: the objects and the tasks of one scenario, the numbers of its open nodes, and how many events it had.
#[derive(Drop)]
struct Running {
    objects: Plain,
    tasks: Vec<Task>,
    nodes: Nodes,
    steps: u64,
}

impl Running {
    // The beginning of a run.
    fn of(opened: Opened) -> Running
        requires { IsOpened opened }
        ensures { AreOfOne result.objects result.tasks.items }
    {
        Running {
            objects: opened.objects,
            tasks: opened.tasks,
            nodes: Nodes::new(),
            steps: 0,
        }
    }

    // The place of the task of this name, behind all others where there is none.
    fn place(&self, name: TaskId) -> usize {
        for place in 0..self.tasks.len() {
            if has_name(&self.tasks[place], name) {
                return place;
            }
        }
        self.tasks.len()
    }

    // What the step of the task at a place comes to, if there is one.
    fn step(&mut self, place: usize, index: u64) -> Option<Step>
        requires { AreOfOne self.old.objects self.old.tasks.items }
        ensures { AreOfOne self.new.objects self.new.tasks.items }
    {
        let task = self.tasks.get_mut(place)?;
        Some(task.step(&mut self.objects, &mut At { index }))
    }

    // A turn.
    fn turn(&mut self, rt: &impl Abort, stack: &Stack, index: u64, turn: &Turn)
        requires named { DevicesAreNamed stack.now }
        requires one { AreOfOne self.old.objects self.old.tasks.items }
        ensures { AreOfOne self.new.objects self.new.tasks.items }
    {
        let (name, wanted) = *turn;
        let place = self.place(name);
        let step = self.step(place, index);
        if is_event(rt, stack, &mut self.nodes, step, wanted, self.steps) {
            self.steps = self.steps.saturating_add(1);
        }
    }

    // Turns, one after the other.
    fn turns(&mut self, rt: &impl Abort, stack: &Stack, part: &Part)
        requires named { DevicesAreNamed stack.now }
        requires one { AreOfOne self.old.objects self.old.tasks.items }
        ensures { AreOfOne self.new.objects self.new.tasks.items }
    {
        let (index, turns) = *part;
        'turning: for turn in turns {
            self.turn(rt, stack, index, turn);
        }
    }

    // All turns of a run.
    fn all_turns(&mut self, rt: &impl Abort, stack: &Stack, parts: &[Part])
        requires named { DevicesAreNamed stack.now }
        requires one { AreOfOne self.old.objects self.old.tasks.items }
        ensures { AreOfOne self.new.objects self.new.tasks.items }
    {
        'turning: for part in parts {
            self.turns(rt, stack, part);
        }
    }

    // All tasks have ended.
    fn ends(&mut self, rt: &impl Abort)
        requires { AreOfOne self.old.objects self.old.tasks.items }
    {
        'ending: for place in 0..self.tasks.len() {
            let step = self.step(place, 0);
            assert!(rt; matches!(step, Some(Step::Ended)), "{place} has not ended");
        }
    }
}

// The event is that of the line.
fn is_line(rt: &impl Abort, stack: &Stack, nodes: &mut Nodes, event: Event, line: &str)
    requires { DevicesAreNamed stack.now }
{
    let Some(wanted) = read_event(line.as_bytes(), stack) else {
        panic!(rt; "no event: {line}");
    };
    let Some(found) = nodes.numbered(event, &wanted) else {
        panic!(rt; "the place of another node, or of none: {line}");
    };
    let mut written = ArrayVec::new();
    write_event(&found, stack, &mut written);
    assert!(rt;
        written.as_slice() == line.as_bytes(),
        "another event: {line}"
    );
}

// A step came to what was wanted of it. Whether it was an event is answered.
fn is_event(
    rt: &impl Abort,
    stack: &Stack,
    nodes: &mut Nodes,
    step: Option<Step>,
    wanted: Answer,
    steps: u64,
) -> bool
    requires { DevicesAreNamed stack.now }
{
    match (step, wanted) {
        (Some(Step::Stepped(event)), Answer::Event(line)) => {
            is_line(rt, stack, nodes, event, line);
            true
        }
        (Some(Step::Blocked(pool)), Answer::Blocked(other)) => {
            assert!(rt; pool == other, "another pool behind {steps} events");
            false
        }
        (Some(Step::Waiting), Answer::Waiting) => false,
        (Some(Step::Ended), Answer::Ended) => false,
        _ => panic!(rt; "another answer behind {steps} events"),
    }
}

// A disk has this sum, and this run of written sectors alone, if any.
#[tactic(auto, using(model_disks::proofs::WrittenLemmas::apart_at_start))]
fn expect_disk(rt: &impl Abort, disk: &Disk, sum: u64, run: Option<(u64, u64)>) {
    assert!(rt; disk.sum() == sum, "another sum of {sum}");
    match (disk.next_run(0), run) {
        (None, None) => {}
        (Some(found), Some((start, len))) => {
            assert!(rt;
                found.start == start && found.len == len,
                "another run at {start}"
            );
            assert!(rt;
                disk.next_run(found.start + found.len).is_none(),
                "a run behind {start}"
            );
        }
        _ => panic!(rt; "a run too many or too few, of sum {sum}"),
    }
}

// This is what a run leaves.
fn leaves(rt: &impl Abort, run: &Running, left: &Left) {
    let steps = run.steps;
    let objects = &run.objects;
    assert!(rt; steps == left.steps, "{steps} events");
    assert!(rt; objects.tally.statuses.as_slice() == left.statuses);
    assert!(rt; objects.disks.len() == left.disks.len());
    for (disk, (sum, run)) in objects.disks.iter().zip(left.disks) {
        expect_disk(rt, disk, *sum, *run);
    }
}

/// A run of a text, turn by turn, behind which each task has ended, and what it leaves.
pub fn run(
    rt: &(impl Abort + AllocGlobal),
    text: &str,
    parts: &[Part],
    left: &Left,
) -> Result<(), Fail> {
    let Scene { accepted, work } = scene_of(rt.alloc(), text)?;
    let mut run = Running::of(open(rt.alloc(), &accepted, &work)?);
    run.all_turns(rt, &accepted.stack, parts);
    run.ends(rt);
    leaves(rt, &run, left);
    Ok(())
}
