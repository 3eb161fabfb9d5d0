//! Where a line stands among the others.
ghost use Rattle.std.specs.Prelude.{◌≡◌};
ghost use Rattle.decl_text.specs.Stands.{may_stand};

use crate::Command;

/// Where a line stands, as far as it matters for what the line may be about. A declaration between a `sync` and a `resize` line needs no case of its
/// own, since it is refused itself.
#[derive(Clone, Copy, PartialEq, Eq)]
pub enum Stand {
    /// Before all writes and `sync` lines.
    Front,
    /// Behind a `sync` line, with nothing but `resize` lines between.
    BehindSync,
    /// Behind a write, with no `sync` line between.
    BehindWrite,
}

impl Stand {
    /// Whether a line of this command may stand there: a declaration before all writes and `sync` lines, a `resize` line right behind
    /// a `sync` line or another such line, and a write or a `sync` line anywhere.
    pub(crate) fn takes(self, command: Command) -> bool
        ensures { result ≡ may_stand self command }
    {
        match command {
            Command::Write | Command::Sync => true,
            Command::Resize => self == Stand::BehindSync,
            _ => self == Stand::Front,
        }
    }
}
