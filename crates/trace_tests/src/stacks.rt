//! Stacks as a test writes them: texts.
ghost use Rattle.std.specs.Prelude.{IfOk};
ghost use Rattle.trace_text.specs.Names.{DevicesAreNamed};

use decl_text::{Accepted, read_decl};
use stack_check::accept;
use std::alloc::Global;
use std::test::Fail;
use trace_text::laws::accepted_stacks_are_named;

/// The declarations of a text that is to be accepted.
pub fn stack_of(alloc: Global, text: &str) -> Result<Accepted, Fail>
    ensures { IfOk result (λ accepted. DevicesAreNamed accepted.stack) }
{
    let decl = read_decl(alloc, text.as_bytes())?;
    let accepted = accept(alloc, decl)?;
    accepted_stacks_are_named();
    Ok(accepted)
}
