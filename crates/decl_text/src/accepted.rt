//! Declarations that were checked.
ghost use Rattle.decl_text.specs.Accepting.{IsDeclaredSo, IsStack-prop};
ghost use Rattle.stack_base.specs.Stack.{IsStack};

use fail_script::Script;
use stack_base::{PoolId, Stack};

/// A stack and the scripts of its pools, which the declarations of a text mean. They have no refusal but perhaps that a mirror of two
/// members or more has no rescuer.
///
/// The stack is kept by the lines that declare it, of which none is refused, and not by what they say: so each fact of such lines follows from the
/// type, and none has to be listed. That some lines mean it is a truncated fact, since a type may keep only facts that have one proof.
#[derive(Drop)]
pub struct Accepted {
    pub stack: Stack,
    /// The script of each pool, once, by falling number.
    pub scripts: Vec<(PoolId, Script)>,
    /// The byte at which the declarations end: the first one of the first write or `sync` line, or the text's length.
    pub rest: u64,
    /// One more than the number of lines before it.
    pub line: u64,
    pub ghost is_stack: { IsStack stack } by { IsStack-prop _ },
    pub ghost declared: { ∥ IsDeclaredSo stack scripts.items ∥₁ },
}
