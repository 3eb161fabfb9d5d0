//! Small states: a write of one sector, an event out of turn, and a mirror without a rescuer.
ghost use Rattle.std.specs.Prelude.{◌<◌, length};
ghost use Rattle.stack_base.specs.Stack.{IsStack};

use crate::mirrors::MIRROR;
use crate::states::{State, opened_of, refused, run, step, steps};
use crate::texts::{CA, Opened, W0, can_open};
use decl_text::Accepted;
use plain_core::Core;
use stack_base::Stack;
use std::process::Abort;
use std::test::Fail;
use task_tests::texts::{Scene, scene_of};

/// A write of one sector.
const ONE: &str = "disk a 64\nwrite 0 a 0 1 0\n";

/// All that happens.
const EVENTS: &[State] = &[
    (W0, &[], "event w0 take fs.bios ordinary"),
    (W0, &[], "event w0 link 0 write 0"),
    (W0, &[], "event w0 push a 0 1 leg 0"),
    (CA, &[], "event c:a complete a 0 ok"),
    (CA, &[], "event c:a drop 0 0 ok top"),
    (CA, &[], "event c:a give fs.bios"),
    (CA, &[], "event c:a done 0 ok"),
];

#[test]
fn seven_events_end_a_write(rt: HostRuntime) -> Result<(), Fail> {
    run(&rt, ONE, &[EVENTS])
}

#[test]
fn a_write_is_not_done_before_it_began(rt: HostRuntime) -> Result<(), Fail> {
    let Opened {
        accepted,
        mut core,
        ..
    } = opened_of(&rt, ONE)?;
    let stack = &accepted.stack;
    refused(&rt, stack, &mut core, "event c:a done 0 ok");
    for (_, _, line) in EVENTS {
        step(&rt, stack, &mut core, line);
    }
    Ok(())
}

/// The first events of the mirror's run.
const SIX: &[&str] = &[
    "event w0 take fs.bios spare",
    "event w0 link 0 write 0",
    "event w0 take m.records spare",
    "event w0 link 0 master 1",
    "event w0 take m.bios spare",
    "event w0 link 0 leg 2",
];

// The stack where the set of its third device has no rescuer.
fn without_rescuer(mut stack: Stack) -> Stack
    requires stack { IsStack stack }
    requires third { 2 < length stack.devices.items }
    ensures { IsStack result }
{
    stack.devices[2].rescuer = false;
    stack
}

#[test]
fn a_mirror_without_a_rescuer_comes_to_a_state_with_no_step(rt: HostRuntime) -> Result<(), Fail> {
    let named = scene_of(rt.alloc(), MIRROR)?.accepted;
    let Scene { accepted, work } = scene_of(rt.alloc(), MIRROR)?;
    let Accepted { stack, scripts, .. } = accepted;
    assert!(rt; stack.devices.len() == 3);
    let stack = without_rescuer(stack);
    assert!(rt; can_open(&stack, &scripts, &work));
    let mut core = Core::plain(rt.alloc(), &stack, &scripts, &work)?;
    steps(&rt, &named.stack, &mut core, SIX);
    assert!(rt; core.free().is_none());
    for line in STUCK {
        refused(&rt, &named.stack, &mut core, line);
    }
    Ok(())
}

/// What might come next, and can't.
const STUCK: &[&str] = &[
    "event w0 take m.bios spare",
    "event w0 take m.bios ordinary",
    "event w0 take m.bios missed",
    "event w0 try m.bios missed",
    "event r:m pop m",
    "event c:a complete a 0 ok",
];
