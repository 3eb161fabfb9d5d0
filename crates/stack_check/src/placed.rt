//! A device that a line declares.
ghost use Rattle.std.specs.Prelude.{◌≡◌, ◌++◌, map};
ghost use Rattle.std.specs.Str.{bytes_eq};

use arrayvec::ArrayVec;
use decl_text::{What, Word};
use stack_base::DevId;
use std::marker::Model;

/// A device by its name, with the numbers of its members.
#[derive(Drop)]
pub(crate) struct Placed<'a> {
    pub(crate) name: Word<'a>,
    pub(crate) what: What,
    pub(crate) members: ArrayVec<DevId, 8>,
    pub(crate) reserve: u64,
    pub(crate) rescuer: bool,
}

impl<'a> Model for Placed<'a> {
    ghost use Rattle.std.specs.Prelude.{map};
    ghost use Rattle.decl_text.specs.Known.{Declared};

    ghost Value = { Declared };

    ghost view = { λ placed. record { name = placed.name; what = placed.what; members = map (λ m. m.0) placed.members.items; reserve = placed.reserve; rescuer = placed.rescuer } };
}

impl Placed<'_> {
    /// Whether this is its name.
    pub(crate) fn is_named(&self, name: &Word<'_>) -> bool
        ensures { result ≡ bytes_eq self.now.name name.now }
    {
        self.name.is(name.bytes())
    }

    /// Whether its name, followed by this, is that word.
    pub(crate) fn is_followed(&self, suffix: &[u8], word: &Word<'_>) -> bool
        ensures { result ≡ bytes_eq (self.now.name ++ suffix.now) word.now }
    {
        word.is_joined(self.name.bytes(), suffix)
    }
}
