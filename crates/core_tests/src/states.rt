//! Runs that a test makes: events as lines, applied one by one to a plain core.
ghost use Rattle.std.specs.Prelude.{IfOk};
ghost use Rattle.trace_text.specs.Names.{DevicesAreNamed};

use crate::texts::Opened;
use plain_core::laws::accepted_texts_can_open;
use plain_core::{Core, CoreFault};
use stack_base::Stack;
use std::alloc::AllocGlobal;
use std::process::Abort;
use std::test::Fail;
use task_core::{Event, TaskId, What, open};
use task_tests::texts::{Scene, scene_of};
use trace_text::read_event;

/// The state in which the runs of a text begin that is to be accepted.
pub fn opened_of(rt: &(impl Abort + AllocGlobal), text: &str) -> Result<Opened, Fail>
    ensures { IfOk result (λ opened. DevicesAreNamed opened.accepted.stack) }
{
    let Scene { accepted, work } = scene_of(rt.alloc(), text)?;
    accepted_texts_can_open();
    let core = Core::plain(rt.alloc(), &accepted.stack, &accepted.scripts, &work)?;
    Ok(Opened {
        accepted,
        writes: work.writes.len(),
        core,
    })
}

/// The plain state of the objects and tasks that are opened of such a text.
pub fn seen_of(rt: &(impl Abort + AllocGlobal), text: &str) -> Result<Opened, Fail>
    ensures { IfOk result (λ opened. DevicesAreNamed opened.accepted.stack) }
{
    let Scene { accepted, work } = scene_of(rt.alloc(), text)?;
    let opened = open(rt.alloc(), &accepted, &work)?;
    let core = Core::of(rt.alloc(), &opened)?;
    Ok(Opened {
        accepted,
        writes: work.writes.len(),
        core,
    })
}

/// The event of a line.
pub fn event_of(rt: &impl Abort, stack: &Stack, line: &str) -> Event
    requires { DevicesAreNamed stack.now }
{
    match read_event(line.as_bytes(), stack) {
        Some(event) => event,
        None => panic!(rt; "no event: {line}"),
    }
}

/// Applies an event that is to be a step.
pub fn step(rt: &impl Abort, stack: &Stack, core: &mut Core, line: &str)
    requires { DevicesAreNamed stack.now }
{
    let event = event_of(rt, stack, line);
    assert!(rt; core.apply(&event).is_ok(), "{line}");
}

/// Applies events that are to be steps, one after the other.
pub fn steps(rt: &impl Abort, stack: &Stack, core: &mut Core, lines: &[&str])
    requires { DevicesAreNamed stack.now }
{
    for line in lines {
        step(rt, stack, core, line);
    }
}

/// Applies an event that is to be no step.
pub fn refused(rt: &impl Abort, stack: &Stack, core: &mut Core, line: &str)
    requires { DevicesAreNamed stack.now }
{
    let event = event_of(rt, stack, line);
    assert!(rt;
        matches!(core.apply(&event), Err(CoreFault::NotEnabled)),
        "{line}"
    );
}

/// A state of a run: the first task that needs no ordinary memory to go on, if there is one, events that are no step from this state, and
/// the one that comes next.
pub type State = (Option<TaskId>, &'static [&'static str], &'static str);

// Whether these are one task, or none.
fn is_same(one: Option<TaskId>, other: Option<TaskId>) -> bool {
    match (one, other) {
        (None, None) => true,
        (Some(TaskId::Writer(number)), Some(TaskId::Writer(named))) => number == named,
        (Some(TaskId::Rescuer(dev)), Some(TaskId::Rescuer(named))) => dev == named,
        (Some(TaskId::Completer(disk)), Some(TaskId::Completer(named))) => disk == named,
        (Some(TaskId::Keeper), Some(TaskId::Keeper)) => true,
        _ => false,
    }
}

/// A state, and the step from it.
pub fn state(rt: &impl Abort, stack: &Stack, core: &mut Core, state: &State)
    requires { DevicesAreNamed stack.now }
{
    let (free, others, line) = *state;
    assert!(rt; is_same(core.free(), free), "before {line}");
    for other in others {
        refused(rt, stack, core, other);
    }
    step(rt, stack, core, line);
}

// Whether an event tells that this write is done.
fn ends(event: Event, write: usize) -> bool {
    matches!(event.what, What::Done { write: done, .. } if done as usize == write)
}

// How many events of a run tell that this write is done.
fn times_done(rt: &impl Abort, stack: &Stack, parts: &[&[State]], write: usize) -> usize
    requires { DevicesAreNamed stack.now }
{
    let mut times: usize = 0;
    for part in parts {
        for (_, _, line) in *part {
            if ends(event_of(rt, stack, line), write) {
                times = times.saturating_add(1);
            }
        }
    }
    times
}

// No write is unfinished: each of so many was done with one step of the run.
fn all_done(rt: &impl Abort, stack: &Stack, parts: &[&[State]], writes: usize)
    requires { DevicesAreNamed stack.now }
{
    for write in 0..writes {
        assert!(rt; times_done(rt, stack, parts, write) == 1, "write {write}");
    }
}

// The states of a run in their order, part by part, behind the last of which no task is free and no write is unfinished. In a stuck state no
// task is free either, but there a write is not done.
fn follow(rt: &impl Abort, opened: Opened, parts: &[&[State]])
    requires { DevicesAreNamed opened.accepted.stack }
{
    let Opened {
        accepted,
        writes,
        mut core,
    } = opened;
    let stack = &accepted.stack;
    for part in parts {
        for one in *part {
            state(rt, stack, &mut core, one);
        }
    }
    assert!(rt; core.free().is_none());
    all_done(rt, stack, parts, writes);
}

/// A run of a text, from its plain state and from that of what is opened of it.
pub fn run(rt: &(impl Abort + AllocGlobal), text: &str, parts: &[&[State]]) -> Result<(), Fail> {
    follow(rt, opened_of(rt, text)?, parts);
    follow(rt, seen_of(rt, text)?, parts);
    Ok(())
}
