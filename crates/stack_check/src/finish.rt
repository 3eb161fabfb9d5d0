//! The stack and the scripts that a draft means.
ghost use Rattle.std.specs.Prelude.{◌≡◌, true, IfOk};
ghost use Rattle.stack_base.specs.Stack.{IsStack};
ghost use Rattle.decl_text.specs.Accepting.{MeansStack, reserves_or_two};
ghost use Rattle.stack_check.specs.Drafting.{IsDeclaredBy};

use crate::built::devices_of;
use crate::draft::{Draft, FsReserves};
use crate::shared::share;
use decl_text::Accepted;
use fail_script::Script;
use stack_base::{PoolId, Stack};
use std::alloc::{AllocError, Global};

/// What the draft means, of lines that no check refuses but perhaps that of rescuers. The rest of the text begins at this byte and this line.
pub(crate) fn finish(
    alloc: Global,
    draft: Draft<'_>,
    rest: u64,
    line: u64,
) -> Result<Accepted, AllocError>
    requires { ∥ IsDeclaredBy true draft ∥₁ }
    ensures means { IfOk result (λ accepted. MeansStack draft.entry accepted.stack accepted.scripts.items) }
    ensures rest { IfOk result (λ accepted. (accepted.rest ≡ rest) × (accepted.line ≡ line)) }
{
    let (stack, scripts) = meaning(alloc, draft)?;
    Ok(Accepted {
        stack,
        scripts,
        rest,
        line,
    })
}

/// The stack and the scripts of all pools, by falling number.
fn meaning(alloc: Global, draft: Draft<'_>) -> Result<(Stack, Vec<(PoolId, Script)>), AllocError>
    ensures { IfOk result (λ made. MeansStack draft.entry made.0 made.1.items × IsStack made.0) }
{
    let Draft {
        devices,
        bad,
        fs,
        scripts,
        no_memory,
    } = draft;
    let (placed, sizes) = devices.into_placed();
    let scripts = share(alloc, &placed, scripts.into_given(), !no_memory)?;
    let devices = devices_of(alloc, placed, &bad)?;
    let fs = reserves_of(fs);
    let stack = Stack {
        devices,
        sizes,
        fs_bios: fs.bios as u32,
        fs_vecs: fs.vecs as u32,
    };
    Ok((stack, scripts))
}

/// The reserves of the writers' set, which are 2 where no line says otherwise.
fn reserves_of(fs: Option<FsReserves>) -> FsReserves
    ensures { result ≡ reserves_or_two fs }
{
    fs.unwrap_or(FsReserves { bios: 2, vecs: 2 })
}
