//! Reads a whole text.
ghost use Rattle.stack_check.specs.Accept.{AcceptsBy};
ghost use Rattle.biostack_top.specs.Scene.{ReadsScene};

use decl_text::{Accepted, Decl, ReadFault, read_decl};
use stack_check::{accept, accept_loose};
use std::alloc::Global;
use work_text::{Work, read_work};

/// What a text says.
#[derive(Drop)]
pub struct Scene<'a> {
    /// The text.
    pub text: &'a [u8],
    /// The stack and the scripts of its pools.
    pub accepted: Accepted,
    /// The writes, and what they need.
    pub work: Work,
}

// What declarations mean, by all checks or by the loose ones.
fn accepted(alloc: Global, decl: Decl<'_>, loose: bool) -> Result<Accepted, ReadFault>
    ensures { AcceptsBy loose decl.entry result }
{
    if loose {
        accept_loose(alloc, decl)
    } else {
        accept(alloc, decl)
    }
}

/// Reads a text and checks it. By the loose checks its mirrors may lack rescuers.
///
/// # Errors
///
/// Where a line is refused, with the first of them, or where there is no memory.
pub(crate) fn read_scene<'a>(
    alloc: Global,
    text: &'a [u8],
    loose: bool,
) -> Result<Scene<'a>, ReadFault>
    ensures { ReadsScene loose text.now result }
{
    let decl = read_decl(alloc, text)?;
    let accepted = accepted(alloc, decl, loose)?;
    let work = read_work(alloc, text, &accepted)?;
    Ok(Scene {
        text,
        accepted,
        work,
    })
}
