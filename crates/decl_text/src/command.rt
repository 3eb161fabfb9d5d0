//! The first words of lines.
ghost use Rattle.std.specs.Prelude.{◌≡◌};
ghost use Rattle.decl_text.specs.Commands.{command_of, word_of};

use crate::Word;

/// What a line is about, as its first word says.
#[derive(Clone, Copy, PartialEq, Eq)]
pub enum Command {
    /// A disk.
    Disk,
    /// A range of a disk at which writes fail.
    Bad,
    /// A device whose members stand one behind the other.
    Linear,
    /// A device whose chunks go round its members.
    Stripe,
    /// A stripe over members of any sizes.
    Zoned,
    /// A device that splits by size and at boundaries.
    Limit,
    /// A device that copies to every member.
    Mirror,
    /// The reserves of the writers' set.
    Fs,
    /// Which attempts of a pool at ordinary memory may succeed.
    Script,
    /// That no attempt may, at pools without a script.
    Memory,
    /// A write.
    Write,
    /// The end of a round.
    Sync,
    /// The reserve of a pool from the next round on.
    Resize,
}

/// All commands.
const ALL: [Command; 13] = [
    Command::Disk,
    Command::Bad,
    Command::Linear,
    Command::Stripe,
    Command::Zoned,
    Command::Limit,
    Command::Mirror,
    Command::Fs,
    Command::Script,
    Command::Memory,
    Command::Write,
    Command::Sync,
    Command::Resize,
];

impl Command {
    /// The word of this command.
    pub fn word(self) -> &'static [u8]
        ensures { result.now ≡ word_of self }
    {
        match self {
            Command::Disk => b"disk",
            Command::Bad => b"bad",
            Command::Linear => b"linear",
            Command::Stripe => b"stripe",
            Command::Zoned => b"zoned",
            Command::Limit => b"limit",
            Command::Mirror => b"mirror",
            Command::Fs => b"fs",
            Command::Script => b"script",
            Command::Memory => b"memory",
            Command::Write => b"write",
            Command::Sync => b"sync",
            Command::Resize => b"resize",
        }
    }

    /// The command of this word.
    #[tactic(auto, unfolding(crate::specs::Commands::command_of))]
    pub fn of(word: &Word<'_>) -> Option<Command>
        ensures { result ≡ command_of word.now }
    {
        // Nearly all lines of a long text are writes.
        if word.is(b"write") {
            return Some(Command::Write);
        }
        ALL.iter()
            .copied()
            .find(|command| command.word() == word.bytes())
    }
}
