//! The first word.
ghost use Rattle.std.specs.Prelude.{◌≡◌};
ghost use Rattle.biostack_words.specs.Grammar.{command_named};

/// What the first word asks for.
#[derive(Clone, Copy)]
pub(crate) enum Command {
    Run,
    Check,
    Layout,
    Gen,
    Replay,
    Scrub,
}

impl Command {
    // The command of this name.
    pub(crate) fn named(word: &str) -> Option<Command>
        ensures { result ≡ command_named word.now }
    {
        if word == "run" {
            Some(Command::Run)
        } else if word == "check" {
            Some(Command::Check)
        } else if word == "layout" {
            Some(Command::Layout)
        } else if word == "gen" {
            Some(Command::Gen)
        } else if word == "replay" {
            Some(Command::Replay)
        } else if word == "scrub" {
            Some(Command::Scrub)
        } else {
            None
        }
    }
}
