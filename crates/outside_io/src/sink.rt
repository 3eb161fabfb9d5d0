//! Where bytes go.
ghost use Rattle.std.specs.Prelude.{ℕ, ◌<◌, ◌≤◌, List, Option, length, take, IfOk, OnErr};
ghost use Rattle.std.specs.Io.KnownBytes.{Appends, Keeps};
ghost use Rattle.outside_io.specs.Causes.{HasCause};

use crate::Failed;

/// Takes bytes, a piece at a time.
pub trait Sink {
    /// The bytes that the sink holds, where it tells them.
    ghost held: { Self → Option (List ℕ) };

    /// How often the sink has failed. The count never falls.
    ghost faults: { Self → ℕ };

    /// Appends the front of `piece`, which is not empty, and answers how many bytes of it: at least
    /// 1, and perhaps not all.
    ///
    /// # Errors
    ///
    /// `Failed` only where the count of faults rose. Nothing was appended then.
    fn put(&mut self, piece: &[u8]) -> Result<usize, Failed>
        requires { 0 < length piece.now }
        ensures within { IfOk result (λ n. (1 ≤ n) × (n ≤ length piece.now)) }
        ensures appended { IfOk result
            (λ n. Appends (held self.old) (held self.new) (take n piece.now)) }
        ensures err { OnErr result (Keeps (held self.old) (held self.new)) }
        ensures cause { HasCause (faults self.old) (faults self.new) result };
}
