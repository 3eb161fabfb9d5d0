//! Texts that a test writes, and the names of their tasks.
ghost use Rattle.std.specs.Prelude.{IfOk};
ghost use Rattle.stack_base.specs.Stack.{HasRescuers, IsStack};
ghost use Rattle.run_machine.specs.ReadBehind.{IsReadBehind};
ghost use Rattle.trace_text.specs.Names.{DevicesAreNamed};

use decl_text::{Accepted, ReadFault, read_decl};
use stack_base::DevId;
use stack_check::accept;
use std::alloc::Global;
use std::test::Fail;
use task_core::TaskId;
use trace_text::laws::accepted_stacks_are_named;
use work_text::{Work, read_work};

/// What a text says.
#[derive(Drop)]
pub struct Scene {
    pub accepted: Accepted,
    pub work: Work,
}

// What a text says.
fn read(alloc: Global, text: &[u8]) -> Result<Scene, ReadFault>
    ensures stack { IfOk result (λ scene. IsStack scene.accepted.stack) }
    ensures read { IfOk result (λ scene. IsReadBehind scene.accepted scene.work) }
    ensures rescuers { IfOk result (λ scene. HasRescuers scene.accepted.stack) }
{
    let decl = read_decl(alloc, text)?;
    let accepted = accept(alloc, decl)?;
    let work = read_work(alloc, text, &accepted)?;
    Ok(Scene { accepted, work })
}

/// What a text says that is to be accepted.
pub fn scene_of(alloc: Global, text: &str) -> Result<Scene, Fail>
    ensures named { IfOk result (λ scene. DevicesAreNamed scene.accepted.stack) }
    ensures stack { IfOk result (λ scene. IsStack scene.accepted.stack) }
    ensures read { IfOk result (λ scene. IsReadBehind scene.accepted scene.work) }
    ensures rescuers { IfOk result (λ scene. HasRescuers scene.accepted.stack) }
{
    let scene = read(alloc, text.as_bytes())?;
    accepted_stacks_are_named();
    Ok(scene)
}

/// Tasks of the tests, whose first devices are disks.
pub const W0: TaskId = TaskId::Writer(0);

pub const W1: TaskId = TaskId::Writer(1);

pub const CA: TaskId = TaskId::Completer(DevId(0));

pub const CB: TaskId = TaskId::Completer(DevId(1));

pub const CC: TaskId = TaskId::Completer(DevId(2));

/// The rescuer of the third device, and of the fourth one.
pub const R2: TaskId = TaskId::Rescuer(DevId(2));

pub const R3: TaskId = TaskId::Rescuer(DevId(3));

pub const K: TaskId = TaskId::Keeper;
