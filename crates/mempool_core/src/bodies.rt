//! Bodies for elements of a pool, as they are had of memory.
ghost use Rattle.std.specs.Prelude.{◌≡◌, ◌≤◌, All, IfOk, vec_len, vec_capacity};

use elem_ledger::Fresh;
use std::alloc::{AllocError, Global};

/// `count` clear bodies, in a vector that has room for as many.
pub(crate) fn fresh_bodies<P: Fresh + Drop>(
    alloc: Global,
    count: usize,
) -> Result<Vec<Box<P>>, AllocError>
    ensures len { IfOk result (λ bodies. vec_len bodies ≡ count) }
    ensures room { IfOk result (λ bodies. count ≤ vec_capacity bodies) }
    ensures clear { IfOk result (λ bodies. All (λ body. P.is_clear body.value) bodies.items) }
{
    let mut bodies = Vec::with_capacity(alloc, count)?;
    'filling: for _ in 0..count {
        bodies.push(Box::new(alloc, P::fresh())?).unwrap();
    }
    Ok(bodies)
}
