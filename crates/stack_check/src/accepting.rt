//! What becomes of the declarations of a text.
ghost use Rattle.std.specs.Prelude.{◌≡◌, true, None};
ghost use Rattle.decl_text.specs.Read.{AreDeclarations, IsDeclaration};
ghost use Rattle.stack_check.specs.Accept.{Accepts, AcceptsBy, AcceptsLoose};
ghost use Rattle.stack_check.specs.Adding.{AddsLine};
ghost use Rattle.stack_check.specs.Drafting.{Closes, Drafts, IsDeclaredBy};

use crate::draft::Draft;
use crate::fault::AddFault;
use crate::finish::finish;
use decl_text::{Accepted, Decl, DeclParts, Numbered, ReadFault, Refusal};
use std::alloc::Global;

/// The stack and the scripts that the declarations mean. Each mirror of two members or more has a rescuer then.
///
/// # Errors
///
/// The first refusal: that of the first line that a check finds wrong, or of the line at which the reading stopped. Or there is no
/// memory.
pub fn accept(alloc: Global, decl: Decl<'_>) -> Result<Accepted, ReadFault>
    ensures { Accepts decl.entry result }
{
    accept_by(alloc, decl, false)
}

/// The same of declarations whose mirrors may lack rescuers, so that runs over their stack may hang.
///
/// # Errors
///
/// The first refusal but for one that asks for a rescuer. Or there is no memory.
pub fn accept_loose(alloc: Global, decl: Decl<'_>) -> Result<Accepted, ReadFault>
    ensures { AcceptsLoose decl.entry result }
{
    accept_by(alloc, decl, true)
}

/// What the declarations mean by all checks, or loosely, by all but that of rescuers.
fn accept_by(alloc: Global, decl: Decl<'_>, loose: bool) -> Result<Accepted, ReadFault>
    ensures { AcceptsBy loose decl.entry result }
{
    let DeclParts {
        items,
        fault,
        rest,
        line,
    } = decl.parts();
    match drafted(alloc, items, loose) {
        Ok(draft) => close(alloc, draft, fault, rest, line),
        Err(fault) => Err(fault),
    }
}

/// The stack and the scripts of a draft, unless the line behind those of the draft has this fault.
fn close(
    alloc: Global,
    draft: Draft<'_>,
    fault: Option<Refusal>,
    rest: u64,
    line: u64,
) -> Result<Accepted, ReadFault>
    requires { fault ≡ None → ∥ IsDeclaredBy true draft ∥₁ }
    ensures { Closes draft.entry fault rest line result }
{
    if let Some(refusal) = fault {
        return Err(ReadFault::Refused(refusal));
    }
    let accepted = finish(alloc, draft, rest, line)?;
    Ok(accepted)
}

/// What the items declare, each checked against those before it.
fn drafted(alloc: Global, items: Vec<Numbered<'_>>, loose: bool) -> Result<Draft<'_>, ReadFault>
    requires { AreDeclarations items.items }
    ensures { Drafts loose items.entry.items result }
{
    let mut draft = Draft::new(alloc);
    for next in items {
        if let Err(fault) = add_line(&mut draft, next, loose) {
            return Err(fault);
        }
    }
    Ok(draft)
}

/// Adds what the line says.
fn add_line<'a>(draft: &mut Draft<'a>, next: Numbered<'a>, loose: bool) -> Result<(), ReadFault>
    requires { IsDeclaration next.item }
    ensures { AddsLine loose draft.old next.entry draft.new result }
{
    match draft.add(next.item, loose) {
        Ok(()) => Ok(()),
        Err(AddFault::Wrong(reason)) => Err(ReadFault::Refused(reason.at(next.line))),
        Err(AddFault::Memory) => Err(ReadFault::Memory),
    }
}
