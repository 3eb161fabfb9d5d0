//! Replays a given run.
ghost use Rattle.std.specs.Prelude.{◌≡◌, ◌+◌, ◌-◌, ◌^◌, ◌<◌, [], ◌∷◌, length, map, IfOk};
ghost use Rattle.trace_text.specs.Names.{DevicesAreNamed};
ghost use Rattle.plain_core.specs.Cores.{scene_of_core, state_of_core};
ghost use Rattle.report_text.specs.Pools.{told_pools};
ghost use Rattle.trace_replay.specs.Replay.{IsFinish, IsReplay};
ghost use Rattle.trace_replay.specs.Lines.{told_in};
ghost use Rattle.trace_replay.specs.KeptNames.{AppliesByNames, names_in_entries};
ghost use Rattle.trace_replay.specs.Names.{no_names};
ghost use Rattle.trace_replay.specs.Walks.{HasFollowed, extents_over};

use crate::extents::{Extent, first_extents, note};
use crate::names::Names;
use crate::told::is_told;
use decl_text::Lines;
use plain_core::{Core, CoreFault};
use stack_base::Stack;
use std::alloc::{AllocError, Global};
use trace_text::laws::events_are_apart;
use trace_text::read_event;

/// What a run leaves that was followed as far as it goes.
#[derive(Clone, Copy, PartialEq, Eq)]
pub enum Finish {
    /// Every write is done, and every element is at home.
    Ended,
    /// It can go on, without ordinary memory where a write is unfinished.
    Open,
    /// A write is unfinished, and nothing can come that needs no ordinary memory.
    Stuck,
}

/// How far a given run goes, and what it leaves.
#[derive(Drop)]
pub struct Replayed {
    /// How many of its events came.
    pub events: u64,
    /// The line behind them, where that is not the line of an event that can come next.
    pub bad: Option<u64>,
    /// What they leave.
    pub finish: Finish,
    /// How far each pool went, in the order of a report.
    pub extents: Vec<Extent>,
}

// Applies the event that a line tells, and answers whether it could come.
fn apply_line(
    core: &mut Core,
    names: &mut Names,
    line: &[u8],
    stack: &Stack,
) -> Result<bool, AllocError>
    requires { DevicesAreNamed stack.now }
    ensures { IfOk result (λ applied. AppliesByNames stack.now line.now names.old core.old applied names.new core.new) }
{
    events_are_apart();
    let Some(told) = read_event(line, stack) else {
        return Ok(false);
    };
    let Some(event) = names.event_placed(&told) else {
        return Ok(false);
    };
    match core.apply(&event) {
        Ok(()) => {
            names.note(told.what)?;
            Ok(true)
        }
        Err(CoreFault::NotEnabled) => Ok(false),
        Err(CoreFault::Memory) => Err(AllocError),
    }
}

// What a run leaves in this state.
fn finish_of(core: &Core) -> Finish
    ensures { IsFinish (scene_of_core core.now) (state_of_core core.now) result }
{
    if core.has_ended() {
        Finish::Ended
    } else if core.unfinished() > 0 && core.free().is_none() {
        Finish::Stuck
    } else {
        Finish::Open
    }
}

// Follows the lines of a text, the first of which has this number, up to a bad one: how many events came, and its number.
fn follow(
    core: &mut Core,
    names: &mut Names,
    text: &[u8],
    first: u64,
    stack: &Stack,
    extents: &mut Vec<Extent>,
) -> Result<(u64, Option<u64>), AllocError>
    requires named { DevicesAreNamed stack.now }
    requires countable { first + length text.now < 2 ^ 64 }
    requires names { names_in_entries names.old ≡ no_names }
    requires extents { extents.old.items ≡ extents_over stack.now (state_of_core core.old ∷ []) }
    ensures { IfOk result (HasFollowed stack.now (told_in first text.now) core.old core.new extents.new.items) }
{
    let mut lines = Lines::from(text, 0);
    let mut number = first;
    let mut events = 0;
    while let Some(line) = lines.next() {
        if is_told(line) {
            if !apply_line(core, names, line, stack)? {
                return Ok((events, Some(number)));
            }
            note(core, extents);
            events += 1;
        }
        number += 1;
    }
    Ok((events, None))
}

/// Follows the run whose events the lines of a text tell, from this state, in which runs of this stack begin. A line
/// whose first word is not `event` is passed over. The first line of the text has the number `first`.
///
/// # Errors
///
/// Where there is no memory.
pub fn replay(
    alloc: Global,
    core: Core,
    lines: &[u8],
    first: u64,
    stack: &Stack,
) -> Result<Replayed, AllocError>
    requires named { DevicesAreNamed stack.now }
    requires countable { first + length lines.now < 2 ^ 64 }
    ensures replay { IfOk result (IsReplay (scene_of_core core) stack.now (state_of_core core) (told_in first lines.now)) }
    ensures pools { IfOk result (λ replayed. map (λ extent. extent.pool) replayed.extents.items ≡ told_pools stack.now) }
{
    let mut core = core;
    let mut extents = first_extents(alloc, &core, stack)?;
    let mut names = Names::new(alloc);
    let (events, bad) = follow(&mut core, &mut names, lines, first, stack, &mut extents)?;
    Ok(Replayed {
        events,
        bad,
        finish: finish_of(&core),
        extents,
    })
}
