//! Where bytes come from.
ghost use Rattle.std.specs.Prelude.{◌≡◌, ℕ, ◌<◌, ◌≤◌, List, Option, length, take, IfOk, OnErr};
ghost use Rattle.std.specs.Io.KnownBytes.{Consumes, IsAtEnd, Keeps};
ghost use Rattle.outside_io.specs.Causes.{HasCause, risen};

use thiserror::Error;

/// A fault of the outside: a source did not give, or a sink did not take.
#[derive(Clone, Copy, Debug, PartialEq, Eq, Error)]
#[error("a read or a write failed")]
pub struct Failed;

impl Failed {
    // A fault, which is counted. A count rises at a failure and at nothing else, so that no body can fail, try again and answer as if nothing had
    // been. It stands at 2^64 - 1 once it is there, and "the count rose" holds then too: min (before + 1) (2^64 - 1) <= now.
    pub(crate) fn counted(faults: &mut u64) -> Failed
        ensures rises { faults.new ≡ risen faults.old }
        ensures later { faults.old ≤ faults.new }
    {
        *faults = faults.saturating_add(1);
        Failed
    }
}

/// Gives bytes, a piece at a time.
pub trait Source {
    /// The bytes that are left, where the source tells them.
    ghost left: { Self → Option (List ℕ) };

    /// How often the source has failed. The count never falls.
    ghost faults: { Self → ℕ };

    /// Takes the next bytes into the front of `into`, which is not empty, and answers how many they
    /// are. They may be fewer than fit, and are 0 exactly where none are left.
    ///
    /// # Errors
    ///
    /// `Failed` only where the count of faults rose. No byte was taken then.
    fn take(&mut self, into: &mut [u8]) -> Result<usize, Failed>
        requires { 0 < length into.old }
        ensures within { IfOk result (λ n. n ≤ length into.new) }
        ensures taken { IfOk result
            (λ n. Consumes (left self.old) (left self.new) (take n into.new)) }
        ensures end { IfOk result (λ n. n ≡ 0 → IsAtEnd (left self.old)) }
        ensures err { OnErr result (Keeps (left self.old) (left self.new)) }
        ensures cause { HasCause (faults self.old) (faults self.new) result };
}
