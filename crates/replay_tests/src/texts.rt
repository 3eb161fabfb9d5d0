//! Scenarios as texts, and the lines of events behind them.
ghost use Rattle.std.specs.Prelude.{◌≡◌, map, IfOk};
ghost use Rattle.report_text.specs.Pools.{told_pools};
ghost use Rattle.run_machine.specs.ReadBehind.{IsReadBehind};

use decl_text::{Accepted, ReadFault, read_decl};
use outside_io::MemSink;
use plain_core::Core;
use plain_core::laws::accepted_texts_can_open;
use stack_check::accept_loose;
use std::alloc::Global;
use std::test::Fail;
use trace_replay::{Replayed, replay, write_replayed};
use trace_text::laws::accepted_stacks_are_named;
use work_text::{Work, read_work};

/// More than any answer here has.
const ROOM: usize = 1024;

/// What a text says.
#[derive(Drop)]
pub struct Scene {
    pub accepted: Accepted,
    pub work: Work,
}

/// What a replay is of, by the number of the first line of its events.
#[derive(Clone, Copy)]
pub struct Events<'a> {
    pub scenario: &'a str,
    pub first: u8,
    pub lines: &'a str,
}

// What a text says whose mirrors may lack rescuers.
fn read(alloc: Global, text: &[u8]) -> Result<Scene, ReadFault>
    ensures { IfOk result (λ scene. IsReadBehind scene.accepted scene.work) }
{
    let decl = read_decl(alloc, text)?;
    let accepted = accept_loose(alloc, decl)?;
    let work = read_work(alloc, text, &accepted)?;
    Ok(Scene { accepted, work })
}

/// A scenario, and what a replay of events behind it comes to.
#[derive(Drop)]
pub struct Came {
    pub accepted: Accepted,
    pub replayed: Replayed,
}

/// How far a run goes, and what it leaves.
pub fn replayed(alloc: Global, events: Events<'_>) -> Result<Came, Fail>
    ensures { IfOk result (λ came. map (λ extent. extent.pool) came.replayed.extents.items ≡ told_pools came.accepted.stack) }
{
    let Scene { accepted, work } = read(alloc, events.scenario.as_bytes())?;
    accepted_stacks_are_named();
    accepted_texts_can_open();
    let core = Core::plain(alloc, &accepted.stack, &accepted.scripts, &work)?;
    let lines = events.lines.as_bytes();
    let first = u64::from(events.first);
    let replayed = replay(alloc, core, lines, first, &accepted.stack)?;
    Ok(Came { accepted, replayed })
}

/// Whether this is what is written of it.
pub fn writes(alloc: Global, events: Events<'_>, answer: &str) -> Result<bool, Fail> {
    let Came { accepted, replayed } = replayed(alloc, events)?;
    let mut out = MemSink::new(alloc, ROOM)?;
    let written = write_replayed(&replayed, &accepted.stack, &mut out);
    Ok(written.is_ok() && out.held() == answer.as_bytes())
}
