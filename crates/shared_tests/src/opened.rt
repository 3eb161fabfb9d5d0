//! Shared objects of texts.
ghost use Rattle.std.specs.Prelude.{◌≡◌, IfOk};
ghost use Rattle.stack_base.specs.Stack.{HasRescuers};
ghost use Rattle.task_core.specs.opened.OfOne.{scenario_in};
ghost use Rattle.run_machine.specs.ReadBehind.{IsReadBehind};
ghost use Rattle.run_machine.specs.Scenario.{scenario_of};
ghost use Rattle.shared_objects.specs.Shared.{SharedHolds};

use shared_objects::{Shared, share};
use std::alloc::{AllocError, Global};
use std::test::Fail;
use task_core::open;
use task_tests::texts::{Scene, scene_of};

/// Two writers, each with a disk of its own.
pub const TWO_DISKS: &str = "disk a 8\ndisk b 8\nwrite 0 a 0 1 0\nwrite 1 b 0 1 0\n";

/// The objects and the tasks of what a text says, without a trace.
pub fn share_scene(alloc: Global, scene: &Scene) -> Result<Shared, AllocError>
    requires read { IsReadBehind scene.now.accepted scene.now.work }
    requires rescuers { HasRescuers scene.now.accepted.stack }
    ensures holds { IfOk result SharedHolds }
    ensures untaken { IfOk result (λ shared. shared.next ≡ 0) }
    ensures of { IfOk result (λ shared. scenario_in shared.told.value ≡ scenario_of scene.now.accepted scene.now.work) }
{
    let opened = open(alloc, &scene.accepted, &scene.work)?;
    share(alloc, opened, false)
}

/// Those of a text.
pub fn shared_of(alloc: Global, text: &str) -> Result<Shared, Fail>
    ensures { IfOk result SharedHolds }
{
    let scene = scene_of(alloc, text)?;
    Ok(share_scene(alloc, &scene)?)
}
