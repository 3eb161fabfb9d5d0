//! Reads the work of a text: its writes, their rounds, and the reserves that change between rounds.
#![tactic(auto)]

ghost use Rattle.std.specs.Prelude.{◌≡◌, ◌+◌, ◌<◌, ◌≤◌, ◌^◌, [], length, IfOk, OnOk};
ghost use Rattle.layout_model.specs.Writes.{AreWritesOf};
ghost use Rattle.decl_text.specs.Reading.{declarations};
ghost use Rattle.work_text.specs.Draft.{DraftReads, IsDraft, known_so_far};
ghost use Rattle.work_text.specs.Lines.{CanStand};
ghost use Rattle.work_text.specs.Reading.{ReadsBehind, ReadsWork, work_lines};
ghost use Rattle.work_text.specs.Work.{all_entries, last_round};

mod draft;
mod generator;
pub mod laws;
mod limits;
mod mark_page;
mod marks;
mod names;
mod pools;
mod resizes;
mod told;

use crate::draft::Draft;
pub use crate::generator::generate;
use decl_text::{Accepted, LineFault, Lines, ReadFault};
use layout_model::{Bounds, Write};
use stack_base::PoolId;
use std::alloc::Global;

/// The reserve that a pool has from a round on.
#[derive(Clone, Copy, PartialEq, Eq)]
pub struct Resize {
    /// The round that starts next.
    pub round: u32,
    pub pool: PoolId,
    /// How many elements it keeps.
    pub min: u32,
}

/// The writes of a text, in their order, and what they need together.
#[derive(Drop)]
pub struct Work {
    pub writes: Vec<Write>,
    /// The round of each write, from 0 on: so many `sync` lines stand before it.
    pub rounds: Vec<u32>,
    /// The `resize` lines, in their order, but for those behind which no write follows.
    pub resizes: Vec<Resize>,
    pub bound: Bounds,
}

/// The work of a text whose declarations were accepted, which end before the first write or `sync` line. A `sync` line behind which no
/// write follows is checked and left out, with its `resize` lines.
///
/// That the rest begins with a write or has no line is asked for, as `read_decl` answers it: else this would check declarations too.
///
/// # Errors
///
/// Where a line is refused, with the first of them and its number, or where there is no memory.
pub fn read_work(alloc: Global, text: &[u8], accepted: &Accepted) -> Result<Work, ReadFault>
    requires rest { accepted.now.rest ≤ length text.now }
    requires lines { accepted.now.line + length text.now < 2 ^ 64 }
    requires work { declarations (work_lines text.now accepted.now) ≡ [] }
    ensures read { ReadsWork text.now accepted.now result }
    ensures served { IfOk result (λ work. AreWritesOf accepted.now.stack work.writes.items) }
    ensures few { IfOk result (λ work. last_round work.rounds.items + length work.resizes.items ≤ 5120) }
{
    let mut draft = Draft::new(alloc, &accepted.stack, all_entries(accepted))?;
    read_lines(alloc, text, accepted, &mut draft)?;
    let work = draft.finish(alloc)?;
    Ok(work)
}

// The entries of all scripts. By the checks of declarations they fit.
fn all_entries(accepted: &Accepted) -> u64
    ensures { result ≡ all_entries accepted.now.scripts.items }
{
    let mut entries = 0;
    for (_, script) in accepted.scripts.iter() {
        entries += script.entries();
    }
    entries
}

// Adds what all lines behind the declarations say.
fn read_lines(
    alloc: Global,
    text: &[u8],
    accepted: &Accepted,
    draft: &mut Draft,
) -> Result<(), ReadFault>
    requires rest { accepted.now.rest ≤ length text.now }
    requires lines { accepted.now.line + length text.now < 2 ^ 64 }
    requires work { declarations (work_lines text.now accepted.now) ≡ [] }
    requires draft { IsDraft accepted.now.stack draft.old }
    ensures draft { OnOk result (IsDraft accepted.now.stack draft.new) }
    ensures entries { OnOk result (draft.new.work.bound.z ≡ draft.old.work.bound.z) }
    ensures read { ReadsBehind text.now accepted.now draft.old draft.new result }
{
    let mut lines = Lines::from(text, accepted.rest as usize);
    let mut number = accepted.line;
    while let Some(bytes) = lines.next() {
        read_numbered(alloc, bytes, number, accepted, draft)?;
        number += 1;
    }
    Ok(())
}

// Adds what the line with this number says.
fn read_numbered(
    alloc: Global,
    bytes: &[u8],
    number: u64,
    accepted: &Accepted,
    draft: &mut Draft,
) -> Result<(), ReadFault>
    requires draft { IsDraft accepted.now.stack draft.old }
    requires stands { CanStand (known_so_far accepted.now.stack draft.old) bytes.now }
    ensures draft { OnOk result (IsDraft accepted.now.stack draft.new) }
    ensures entries { OnOk result (draft.new.work.bound.z ≡ draft.old.work.bound.z) }
    ensures read { DraftReads accepted.now.stack number bytes.now draft.old result draft.new }
{
    match draft.read_line(alloc, &accepted.stack, bytes) {
        Ok(()) => Ok(()),
        Err(LineFault::Wrong(reason)) => Err(ReadFault::Refused(reason.at(number))),
        Err(LineFault::Memory) => Err(ReadFault::Memory),
    }
}
