//! The forms of lines: what may stand behind the first word of each. They are a table (places, options, members), so that whether words and numbers
//! are right is asked once for all lines.
ghost use Rattle.std.specs.Prelude.{◌≡◌};
ghost use Rattle.decl_text.specs.Words.{has_number, is_one_of, is_word, key_word};
ghost use Rattle.decl_text.specs.Forms.{form};

use crate::{Command, Word};

/// One of a few words.
#[derive(Clone, Copy, PartialEq, Eq)]
pub enum Few {
    /// How a write to a bad range ends: `io`, `medium` or `nospace`.
    Faults,
    /// `yes` or `no`.
    YesNo,
    /// The tail of a script: `+` or `-`.
    Tails,
    /// `none` alone.
    None,
}

/// What may stand at a place of a line, or behind the `=` of an option.
#[derive(Clone, Copy, PartialEq, Eq)]
pub enum Place {
    /// A name that is declared here.
    Name,
    /// The name of a device or a pool, which is looked up later.
    Mention,
    /// A number in this range.
    Number { least: u64, most: u64 },
    /// One of a few words.
    OneOf(Few),
    /// The entries of a script.
    Pattern,
}

/// What an option is about.
#[derive(Clone, Copy, PartialEq, Eq)]
pub enum Key {
    /// How many elements the device's pool of bios keeps.
    Reserve,
    /// Whether the device's set has a rescuer.
    Rescuer,
    /// Sectors of a chunk.
    Chunk,
    /// Sectors of a piece, at the most.
    Max,
    /// How many elements the mirror's pool of records keeps.
    Records,
    /// How many elements the writers' pool of bios keeps.
    Bios,
    /// How many elements the writers' pool of vectors keeps.
    Vecs,
}

/// An option of a line: what it is about, whether it has to be there, and what its value may be.
#[derive(Clone, Copy, PartialEq, Eq)]
pub struct Setting {
    pub key: Key,
    pub wanted: bool,
    pub place: Place,
}

impl Few {
    /// Whether the word is one of them.
    pub(crate) fn has(self, word: &Word<'_>) -> bool
        ensures { result ≡ is_one_of self word.now }
    {
        match self {
            Few::Faults => word.is(b"io") || word.is(b"medium") || word.is(b"nospace"),
            Few::YesNo => word.is(b"yes") || word.is(b"no"),
            Few::Tails => word.is(b"+") || word.is(b"-"),
            Few::None => word.is(b"none"),
        }
    }
}

impl Key {
    /// The word before the `=`.
    pub(crate) fn word(self) -> &'static [u8]
        ensures { result.now ≡ key_word self }
    {
        match self {
            Key::Reserve => b"reserve",
            Key::Rescuer => b"rescuer",
            Key::Chunk => b"chunk",
            Key::Max => b"max",
            Key::Records => b"records",
            Key::Bios => b"bios",
            Key::Vecs => b"vecs",
        }
    }
}

impl Place {
    /// Whether the word may stand there, but for its number.
    pub(crate) fn takes(self, word: &Word<'_>) -> bool
        ensures { result ≡ is_word self word.now }
    {
        match self {
            Place::Name => word.is_name(),
            Place::Mention | Place::Number { .. } => true,
            Place::OneOf(few) => few.has(word),
            Place::Pattern => word.is_pattern(),
        }
    }

    /// Whether its number may, where a number has to stand.
    pub(crate) fn counts(self, word: &Word<'_>) -> bool
        ensures { result ≡ has_number self word.now }
    {
        match self {
            Place::Number { least, most } => match word.number() {
                Some(n) => least <= n && n <= most,
                None => false,
            },
            _ => true,
        }
    }
}

/// Any number.
const ANY: Place = Place::Number {
    least: 0,
    most: u64::MAX,
};

/// Any number but 0.
const SOME: Place = Place::Number {
    least: 1,
    most: u64::MAX,
};

/// A task: 0 to 7.
const TASK: Place = Place::Number { least: 0, most: 7 };

const RESERVE: Setting = Setting {
    key: Key::Reserve,
    wanted: false,
    place: ANY,
};

const RESCUER: Setting = Setting {
    key: Key::Rescuer,
    wanted: false,
    place: Place::OneOf(Few::YesNo),
};

const CHUNK: Setting = Setting {
    key: Key::Chunk,
    wanted: true,
    place: SOME,
};

const MAX: Setting = Setting {
    key: Key::Max,
    wanted: true,
    place: SOME,
};

const LIMIT_CHUNK: Setting = Setting {
    key: Key::Chunk,
    wanted: false,
    place: ANY,
};

const RECORDS: Setting = Setting {
    key: Key::Records,
    wanted: false,
    place: ANY,
};

const BIOS: Setting = Setting {
    key: Key::Bios,
    wanted: false,
    place: ANY,
};

const VECS: Setting = Setting {
    key: Key::Vecs,
    wanted: false,
    place: ANY,
};

impl Command {
    /// What stands right behind the first word.
    pub(crate) fn places(self) -> &'static [Place]
        ensures { result.now ≡ (form self).places }
    {
        match self {
            Command::Disk => &[Place::Name, ANY],
            Command::Bad => &[Place::Mention, ANY, SOME, Place::OneOf(Few::Faults)],
            Command::Linear | Command::Stripe | Command::Zoned | Command::Limit | Command::Mirror =>
                &[Place::Name],
            Command::Fs | Command::Sync => &[],
            Command::Script => &[Place::Mention, Place::Pattern, Place::OneOf(Few::Tails)],
            Command::Memory => &[Place::OneOf(Few::None)],
            Command::Write => &[TASK, Place::Mention, ANY, SOME, ANY],
            Command::Resize => &[Place::Mention, ANY],
        }
    }

    /// The options that may stand behind that.
    pub(crate) fn settings(self) -> &'static [Setting]
        ensures { result.now ≡ (form self).settings }
    {
        match self {
            Command::Linear => &[RESERVE, RESCUER],
            Command::Stripe | Command::Zoned => &[RESERVE, RESCUER, CHUNK],
            Command::Limit => &[RESERVE, RESCUER, MAX, LIMIT_CHUNK],
            Command::Mirror => &[RESERVE, RESCUER, RECORDS],
            Command::Fs => &[BIOS, VECS],
            Command::Disk
            | Command::Bad
            | Command::Script
            | Command::Memory
            | Command::Write
            | Command::Sync
            | Command::Resize => &[],
        }
    }

    /// Whether other words, which name members, may stand among these.
    pub(crate) fn takes_members(self) -> bool
        ensures { result ≡ (form self).members }
    {
        match self {
            Command::Linear | Command::Stripe | Command::Zoned | Command::Limit | Command::Mirror =>
                true,
            _ => false,
        }
    }
}
