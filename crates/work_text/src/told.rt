//! What a line from the first write or `sync` line on says.
ghost use Rattle.std.specs.Prelude.{◌≡◌};
ghost use Rattle.work_text.specs.Lines.{CanStandAt, HasSectors, IsToldWork, Tells, told_item};

use decl_text::{Item, LineFault, Stand, TextLine, Word, is_blank_line};
use stack_base::Range;
use std::alloc::Global;

/// What a line says of the work.
#[derive(Drop)]
pub(crate) enum Told<'a> {
    /// A write to the device of this name.
    Write {
        task: u32,
        dev: Word<'a>,
        range: Range,
        tag: u64,
    },
    /// The end of a round.
    Sync,
    /// The reserve of the pool of this name, from the next round on.
    Resize {
        pool: Word<'a>,
        min: u64,
    },
}

/// What a line says of the work, which stands there, and nothing where it is skipped.
///
/// # Errors
///
/// Where the line is wrong by its words, or may not stand there, or where there is no memory.
pub(crate) fn told_by<'a>(
    alloc: Global,
    stand: Stand,
    bytes: &'a [u8],
) -> Result<Option<Told<'a>>, LineFault>
    requires { CanStandAt stand bytes.now }
    ensures { Tells stand bytes.now result }
{
    if is_blank_line(bytes) {
        return Ok(None);
    }
    let line = TextLine::of(alloc, bytes)?;
    match line.said(alloc, stand)? {
        None => Ok(None),
        Some(item) => Ok(Some(work_of(item))),
    }
}

// The item, as what it says of the work.
fn work_of<'a>(item: Item<'a>) -> Told<'a>
    requires { IsToldWork item }
    ensures same { item.entry ≡ told_item result }
    ensures sectors { HasSectors result }
{
    match item {
        Item::Write {
            task,
            dev,
            range,
            tag,
        } => Told::Write {
            task: task as u32,
            dev,
            range,
            tag,
        },
        Item::Sync => Told::Sync,
        Item::Resize { pool, min } => Told::Resize { pool, min },
        _ => unreachable!(),
    }
}
