//! Notes.
ghost use Rattle.std.specs.Prelude.{◌≡◌, ℕ};

use std::marker::Model;

/// Keeps the greatest ticket that it has seen. Contracts see it as that number.
///
/// It is of no clock: what it has seen of one clock it can bring to another, where it is taken as seen, and the next ticket is above it.
#[derive(Drop)]
pub struct Note {
    pub(crate) seen: u64,
}

impl Model for Note {
    ghost use Rattle.std.specs.Prelude.{ℕ};

    ghost Value = { ℕ };

    ghost view = { λ n. n.seen };
}

impl Note {
    /// A note that has seen nothing.
    pub fn new() -> Note
        ensures { result ≡ 0 }
    {
        Note { seen: 0 }
    }

    /// The greatest ticket that the note has seen; 0 where it has seen none.
    pub fn seen(&self) -> u64
        ensures { result ≡ self.now }
    {
        self.seen
    }
}
