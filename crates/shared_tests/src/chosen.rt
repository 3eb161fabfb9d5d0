//! A completer whose chooser names the last of two bios that wait, at its desk and over the objects of one thread.
ghost use Rattle.std.specs.Prelude.{◌≡◌, ◌-◌};
ghost use Rattle.run_machine.specs.ReadBehind.{IsReadBehind};
ghost use Rattle.shared_objects.specs.Shared.{SharedHolds};
ghost use Rattle.stack_base.specs.Stack.{HasRescuers};
ghost use Rattle.task_core.specs.opened.OfOne.{AreOfOne};

use crate::beside::{STEPS, end_next, take_next};
use crate::opened::share_scene;
use shared_objects::{Ran, Shared};
use std::alloc::{AllocError, Global};
use std::sync::Wait;
use std::test::Fail;
use task_core::{Chooser, Event, Plain, Step, Task, What, open};
use task_tests::texts::{Scene, scene_of};

/// Two writers at one disk. Both bios wait in it once they have ended.
const TWO_BIOS: &str = "disk a 8\nwrite 0 a 0 1 0\nwrite 1 a 1 1 64\n";

/// Chooses the bio that came last.
#[derive(Clone, Copy)]
struct Newest;

impl Chooser for Newest {
    ghost chooses = { λ old pending index new. index ≡ pending - 1 };

    fn choose(&mut self, pending: u64) -> u64 {
        pending - 1
    }
}

// The index of the bio that a step completed.
fn completed(step: &Step) -> Option<u64> {
    match step {
        Step::Stepped(
            Event {
                task: _,
                what: What::Complete { index, .. },
            },
        ) => Some(*index),
        _ => None,
    }
}

// What one step of a task comes to, at its desk, by a chooser that names the newest bio.
fn step_by_newest(rt: &impl Wait, shared: &Shared, ran: Ran) -> Step
    requires { ran.home ≡ shared.now.locks }
{
    let (mut task, seats, _) = ran.parts();
    let mut desk = shared.desk(rt, seats);
    let step = task.step(&mut desk, &mut Newest);
    drop(desk.back());
    step
}

// Which bio the third task completes first, at its desk, once two writers have ended at theirs.
fn chosen_at_desk(rt: &impl Wait, shared: Shared) -> Option<u64>
    requires { SharedHolds shared }
{
    let mut shared = shared;
    let is_one = end_next(rt, &mut shared, true)?;
    let is_other = end_next(rt, &mut shared, true)?;
    let completer = take_next(&mut shared)?;
    let step = step_by_newest(rt, &shared, completer);
    if is_one && is_other {
        completed(&step)
    } else {
        None
    }
}

// What a step of the task at a place comes to over the objects of one thread, if there is one.
fn step_alone(objects: &mut Plain, tasks: &mut Vec<Task>, place: usize) -> Option<Step>
    requires { AreOfOne objects.old tasks.old.items }
    ensures { AreOfOne objects.new tasks.new.items }
{
    let task = tasks.get_mut(place)?;
    Some(task.step(objects, &mut Newest))
}

// Whether the task at a place comes to its end.
fn ends_alone(objects: &mut Plain, tasks: &mut Vec<Task>, place: usize) -> bool
    requires { AreOfOne objects.old tasks.old.items }
    ensures { AreOfOne objects.new tasks.new.items }
{
    'stepping: for _ in 0..STEPS {
        let step = step_alone(objects, tasks, place);
        if matches!(step, Some(Step::Ended)) {
            return true;
        }
    }
    false
}

// Which bio the third task completes first, over the objects of one thread, once two writers have ended.
fn chosen_alone(alloc: Global, scene: &Scene) -> Result<Option<u64>, AllocError>
    requires read { IsReadBehind scene.now.accepted scene.now.work }
    requires rescuers { HasRescuers scene.now.accepted.stack }
{
    let opened = open(alloc, &scene.accepted, &scene.work)?;
    let mut objects = opened.objects;
    let mut tasks = opened.tasks;
    let is_one = ends_alone(&mut objects, &mut tasks, 0);
    let is_other = ends_alone(&mut objects, &mut tasks, 1);
    let step = step_alone(&mut objects, &mut tasks, 2);
    if is_one && is_other {
        Ok(step.and_then(|step| completed(&step)))
    } else {
        Ok(None)
    }
}

#[test]
fn the_chosen_bio_is_completed(rt: HostRuntime) -> Result<(), Fail> {
    let scene = scene_of(rt.alloc(), TWO_BIOS)?;
    let alone = chosen_alone(rt.alloc(), &scene)?;
    let shared = share_scene(rt.alloc(), &scene)?;
    let at_desk = chosen_at_desk(&rt, shared);
    assert_eq!(rt; alone, Some(1));
    assert_eq!(rt; at_desk, Some(1));
    Ok(())
}
