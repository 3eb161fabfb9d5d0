//! What all writes of a scenario need together. No memory is taken.
ghost use Rattle.std.specs.Prelude.{◌≡◌, ◌+◌, ◌*◌, ◌^◌, ◌<◌, IfErr, IfOk};
ghost use Rattle.stack_base.specs.Stack.{IsStack};
ghost use Rattle.layout_model.specs.Bound.{IsBound, IsTooMuch};
ghost use Rattle.layout_model.specs.Writes.{AreWritesOf};

use crate::{Write, need};
use stack_base::Stack;

/// No scenario may need more elements.
const MOST_ELEMENTS: u64 = 1_048_576;

/// What all writes of a scenario need together.
#[derive(Clone, Copy, Debug, PartialEq, Eq)]
pub struct Bounds {
    /// The elements of pools.
    pub e: u64,
    /// The fragments.
    pub g: u64,
    /// The entries of the scripts of all pools, the rounds after the first, and the changes of reserves between rounds.
    pub z: u64,
}

impl Bounds {
    /// `8e + 2g + z`, the bound on the steps of a run.
    pub fn total(&self) -> u64
        requires { 8 * self.now.e + 2 * self.now.g + self.now.z < 2 ^ 64 }
        ensures { result ≡ 8 * self.now.e + 2 * self.now.g + self.now.z }
    {
        8 * self.e + 2 * self.g + self.z
    }
}

/// The writes need more elements than they may.
#[derive(Clone, Copy, Debug, PartialEq, Eq)]
pub struct TooMuchWork {
    /// The number of the first write with which they do.
    pub write: u32,
    /// How many elements the writes up to this one need, itself included.
    pub e: u64,
}

/// What the writes need together, and `z`, as it was given.
///
/// The number of writes is bounded by no condition, since each needs its own bio: the first with too much work is among the first 1,048,577.
///
/// # Errors
///
/// Exactly where the writes need more than 1,048,576 elements.
pub fn bound(stack: &Stack, writes: &[Write], z: u64) -> Result<Bounds, TooMuchWork>
    requires stack { IsStack stack.now }
    requires served { AreWritesOf stack.now writes.now }
    ensures bounds { IfOk result (λ bounds. IsBound stack.now writes.now z bounds) }
    ensures refused { IfErr result (λ refusal. IsTooMuch stack.now writes.now refusal) }
{
    let mut e = 0;
    let mut g = 0;
    for (number, write) in writes.iter().enumerate() {
        let needs = need(stack, write);
        e += needs.elements;
        if e > MOST_ELEMENTS {
            return Err(TooMuchWork {
                write: number as u32,
                e,
            });
        }
        g += needs.fragments;
    }
    Ok(Bounds { e, g, z })
}
