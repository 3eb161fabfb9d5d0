//! Why a text is refused.
ghost use Rattle.std.specs.Prelude.{◌≡◌};
ghost use Rattle.decl_text.specs.Reasons.{number_of_reason, name_of_number};

use std::alloc::AllocError;
use thiserror::Error;

/// What is wrong with a line, or with the whole text. Each has a number and a name, which the program prints.
#[derive(Clone, Copy, Debug, PartialEq, Eq)]
pub enum Reason {
    /// A first word, a number of words, an option, a name or a word of a few that does not belong there, or a line that may not stand
    /// there.
    BadWord,
    /// A word for a number that holds none, or one that may not stand there.
    BadNumber,
    /// A name, a set, a script or `memory` for the second time, or a pool that is changed twice behind one `sync` line.
    NameTaken,
    /// A device that no earlier line declares.
    NoSuchDevice,
    /// A member of an earlier device, or one that stands twice.
    MemberTaken,
    /// Too few or too many members, or a bad range of a device that is no disk.
    BadShape,
    /// More than there may be.
    TooLarge,
    /// A device without a sector.
    EmptyDevice,
    /// A pool without an element.
    ReserveZero,
    /// A mirror of two members or more without a rescuer.
    NeedsRescuer,
    /// A write to a device that is a member of another.
    NotATop,
    /// A range that ends behind its device.
    PastEnd,
    /// A write to a sector that an earlier write of its round has.
    Overlap,
    /// A write of more segments than a vector has.
    TooManySegments,
    /// A script or a change of a pool that no earlier line gives.
    NoSuchPool,
    /// More bytes than a text may have.
    TooLong,
    /// A byte that no text has.
    NotText,
    /// Writes that need more elements than they may.
    TooMuchWork,
}

impl Reason {
    /// Its number.
    pub fn number(self) -> u32
        ensures { result ≡ number_of_reason self }
    {
        match self {
            Reason::BadWord => 1,
            Reason::BadNumber => 2,
            Reason::NameTaken => 3,
            Reason::NoSuchDevice => 4,
            Reason::MemberTaken => 5,
            Reason::BadShape => 6,
            Reason::TooLarge => 7,
            Reason::EmptyDevice => 8,
            Reason::ReserveZero => 9,
            Reason::NeedsRescuer => 10,
            Reason::NotATop => 11,
            Reason::PastEnd => 12,
            Reason::Overlap => 13,
            Reason::TooManySegments => 14,
            Reason::NoSuchPool => 15,
            Reason::TooLong => 16,
            Reason::NotText => 17,
            Reason::TooMuchWork => 18,
        }
    }

    /// Why a line is refused, as an answer: the reason's number, and the line's.
    pub fn at(self, line: u64) -> Refusal
        ensures { result ≡ record { number = number_of_reason self; line = line } }
    {
        Refusal {
            number: self.number(),
            line,
        }
    }
}

/// That a text is refused: the number of the reason, and the line, counted from 1, or 0 for the whole text.
#[derive(Clone, Copy, Debug, PartialEq, Eq)]
pub struct Refusal {
    /// The number of the reason.
    pub number: u32,
    /// The line.
    pub line: u64,
}

impl Refusal {
    /// The name of the reason, and nothing where no reason has this number.
    pub fn name(&self) -> &'static [u8]
        ensures { result.now ≡ name_of_number self.now.number }
    {
        match self.number {
            1 => b"BadWord",
            2 => b"BadNumber",
            3 => b"NameTaken",
            4 => b"NoSuchDevice",
            5 => b"MemberTaken",
            6 => b"BadShape",
            7 => b"TooLarge",
            8 => b"EmptyDevice",
            9 => b"ReserveZero",
            10 => b"NeedsRescuer",
            11 => b"NotATop",
            12 => b"PastEnd",
            13 => b"Overlap",
            14 => b"TooManySegments",
            15 => b"NoSuchPool",
            16 => b"TooLong",
            17 => b"NotText",
            18 => b"TooMuchWork",
            _ => b"",
        }
    }
}

/// Why no scenario was read.
#[derive(Clone, Copy, Debug, PartialEq, Eq, Error)]
pub enum ReadFault {
    #[error("the text is refused")]
    Refused(Refusal),
    #[error("out of memory")]
    Memory,
}

impl From<AllocError> for ReadFault {
    ghost use Rattle.std.specs.Prelude.{◌≡◌};
    ghost use Rattle.decl_text.specs.declared.reason.ReadFault.TheVariants.{Memory};

    ghost from_gives = { λ _ fault. fault ≡ Memory };

    fn from(_: AllocError) -> Self {
        ReadFault::Memory
    }
}
