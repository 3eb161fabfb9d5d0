//! The `resize` lines of a text so far, and the round up to which they count.
ghost use Rattle.std.specs.Prelude.{◌≡◌, ◌≤◌, ◌==◌, ◌&&◌, [], ◌∷◌, ◌++◌, All, filter, map, nat_le, IfOk, IfSome, OnOk};
ghost use Rattle.std.specs.List.{list_any};
ghost use Rattle.stack_base.specs.PoolId.{pool_number};
ghost use Rattle.decl_text.specs.Checks.{has_resize};
ghost use Rattle.work_text.specs.Work.{last_round, change_of};

use crate::Resize;
use stack_base::PoolId;
use std::alloc::{AllocError, Global};

// Puts a `resize` line behind the others.
pub(crate) fn keep(resizes: &mut Vec<Resize>, resize: Resize) -> Result<(), AllocError>
    ensures { OnOk result (resizes.new.items ≡ resizes.old.items ++ resize ∷ []) }
{
    resizes.push(resize)?;
    Ok(())
}

// Whether one of these lines is of the pool, if there is one, and of this round.
pub(crate) fn has_resize(resizes: &[Resize], round: u32, pool: Option<PoolId>) -> bool
    requires small { IfSome pool (λ p. pool_number p ≤ 65) }
    requires pools { All (λ resize. pool_number resize.pool ≤ 65) resizes.now }
    ensures { result ≡ has_resize (map change_of resizes.now) round pool }
{
    match pool {
        Some(pool) => has_one(resizes, round, pool.no()),
        None => false,
    }
}

// Whether one of these lines is of the pool of this number and of this round.
fn has_one(resizes: &[Resize], round: u32, number: u32) -> bool
    requires { All (λ resize. pool_number resize.pool ≤ 65) resizes.now }
    ensures { result ≡ list_any (λ resize. (resize.round == round) && (pool_number resize.pool == number)) resizes.now }
{
    resizes.iter().any(|resize| resize.round == round && resize.pool.no() == number)
}

// The lines of the rounds up to this one.
pub(crate) fn lines_up_to(
    alloc: Global,
    resizes: &[Resize],
    last: u32,
) -> Result<Vec<Resize>, AllocError>
    ensures { IfOk result (λ kept. kept.items ≡ filter (λ resize. nat_le resize.round last) resizes.now) }
{
    resizes
        .iter()
        .copied()
        .filter(|resize| resize.round <= last)
        .collect(alloc)
}

// The round of the last write, and 0 where there is none.
pub(crate) fn last_round(rounds: &[u32]) -> u32
    ensures { result ≡ last_round rounds.now }
{
    rounds.last().copied().unwrap_or(0)
}
