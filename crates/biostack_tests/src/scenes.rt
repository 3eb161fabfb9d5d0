//! Scenarios as a test writes them: texts.
ghost use Rattle.std.specs.Prelude.{◌↔◌, ◌+◌, ◌≤◌, IfOk, IsTrue};
ghost use Rattle.stack_base.specs.Stack.{IsStack};
ghost use Rattle.layout_model.specs.Writes.{AreWritesOf, IsWrite};
ghost use Rattle.run_machine.specs.ReadBehind.{IsReadBehind};

use decl_text::{Accepted, ReadFault, Refusal, read_decl};
use layout_model::Write;
use stack_base::Stack;
use stack_check::accept;
use std::alloc::Global;
use std::process::Abort;
use work_text::{Work, read_work};

/// What a text says.
#[derive(Drop)]
pub struct Scene {
    /// The stack and the scripts of its pools.
    pub accepted: Accepted,
    /// The writes, and what they need.
    pub work: Work,
}

/// What a text says, by the three calls that read one.
pub fn read(alloc: Global, text: &[u8]) -> Result<Scene, ReadFault>
    ensures stack { IfOk result (λ scene. IsStack scene.accepted.stack) }
    ensures read { IfOk result (λ scene. IsReadBehind scene.accepted scene.work) }
{
    let decl = read_decl(alloc, text)?;
    let accepted = accept(alloc, decl)?;
    let work = read_work(alloc, text, &accepted)?;
    Ok(Scene { accepted, work })
}

/// What a text says that has to be accepted.
pub fn scene_of(rt: &(impl Abort + AllocGlobal), text: &str) -> Scene
    ensures stack { IsStack result.accepted.stack }
    ensures read { IsReadBehind result.accepted result.work }
{
    read(rt.alloc(), text.as_bytes()).expect(rt, "no scene")
}

/// Why a text is refused, and nothing where it is accepted.
pub fn refusal_of(rt: &(impl Abort + AllocGlobal), text: &[u8]) -> Option<Refusal> {
    match read(rt.alloc(), text) {
        Ok(_) => None,
        Err(ReadFault::Refused(refusal)) => Some(refusal),
        Err(ReadFault::Memory) => rt.panic("no memory"),
    }
}

/// Whether the write is to a device of the stack, has a sector and ends within the device.
pub fn is_write(stack: &Stack, write: &Write) -> bool
    requires { IsStack stack.now }
    ensures { IsTrue result ↔ IsWrite stack.now write.now }
{
    (write.dev.0 as usize) < stack.devices.len()
        && 1 <= write.count
        && ends_within(write.start, write.count, stack.size(write.dev))
}

// Whether a run ends within so many sectors.
fn ends_within(start: u64, len: u64, size: u64) -> bool
    ensures { IsTrue result ↔ (start + len ≤ size) }
{
    len <= size && start <= size - len
}

/// Whether the stack can serve each of the writes.
pub fn are_writes(stack: &Stack, writes: &[Write]) -> bool
    requires { IsStack stack.now }
    ensures { IsTrue result → AreWritesOf stack.now writes.now }
{
    writes.iter().all(|write| is_write(stack, write))
}
