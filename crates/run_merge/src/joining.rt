//! Joins lists by tickets.
ghost use Rattle.std.specs.Prelude.{All, IfOk};
ghost use Rattle.std.specs.List.Sorted.{IsNonDecreasingBy};
ghost use Rattle.run_merge.specs.Joining.{IsJoinedByTicket, all_in};

use crate::heads::{open_heads, take, winner_of};
use std::alloc::{AllocError, Global};

/// What stands in these lists, in the order of the tickets and without them. Along each list tickets rise.
///
/// The time is linear in the elements times the logarithm of the number of lists.
///
/// # Errors
///
/// Where there is no memory for all elements once more.
pub fn join_by_ticket<T: Copy + Drop>(
    alloc: Global,
    lists: Vec<Vec<(u64, T)>>,
) -> Result<Vec<T>, AllocError>
    requires rises { All (λ list. IsNonDecreasingBy (λ e. e.0) list.items) lists.items }
    ensures { IfOk result (λ joined. IsJoinedByTicket (all_in lists.items) joined.items) }
{
    let mut heads = open_heads(alloc, &lists)?;
    let mut joined = Vec::with_capacity(alloc, total(&lists))?;
    'joining: while let Some(head) = winner_of(&heads) {
        joined.push(take(&lists, &mut heads, head))?;
    }
    Ok(joined)
}

// How many elements stand in these lists, for the memory alone.
fn total<T>(lists: &[Vec<T>]) -> usize {
    lists
        .iter()
        .fold(0usize, |sum, list| sum.saturating_add(list.len()))
}
