//! The words that tell one kind of event from another, and those that have few choices.
ghost use Rattle.std.specs.Prelude.{◌≡◌, ◌≤◌, length};
ghost use Rattle.trace_text.specs.Lines.{end_word, got_word, how_word};
ghost use Rattle.trace_text.specs.Reading.{end_of_word, got_of_word, how_of_word, status_of_word, verb_of_word, verb_word};

use run_machine::{End, Got, How, status_word};
use stack_base::Status;

/// The word behind the task: what the task did.
#[derive(Clone, Copy)]
pub(crate) enum Verb {
    Take,
    Try,
    Give,
    Punt,
    Pop,
    Push,
    Complete,
    Link,
    Drop,
    Done,
    Resize,
    Round,
}

const VERBS: [Verb; 12] = [
    Verb::Take,
    Verb::Try,
    Verb::Give,
    Verb::Punt,
    Verb::Pop,
    Verb::Push,
    Verb::Complete,
    Verb::Link,
    Verb::Drop,
    Verb::Done,
    Verb::Resize,
    Verb::Round,
];

const STATUSES: [Status; 4] = [Status::Ok, Status::Io, Status::Medium, Status::NoSpace];

const GOTS: [Got; 3] = [Got::Ordinary, Got::Spare, Got::Missed];

const HOWS: [How; 4] = [How::Write, How::Chain, How::Master, How::Leg];

const ENDS: [End; 3] = [End::Left, End::Up, End::Top];

fn verb_word(verb: Verb) -> &'static [u8]
    ensures { result.now ≡ verb_word verb }
{
    match verb {
        Verb::Take => b"take",
        Verb::Try => b"try",
        Verb::Give => b"give",
        Verb::Punt => b"punt",
        Verb::Pop => b"pop",
        Verb::Push => b"push",
        Verb::Complete => b"complete",
        Verb::Link => b"link",
        Verb::Drop => b"drop",
        Verb::Done => b"done",
        Verb::Resize => b"resize",
        Verb::Round => b"round",
    }
}

/// The verb of this word.
pub(crate) fn verb_of_word(word: &[u8]) -> Option<Verb>
    ensures { result ≡ verb_of_word word.now }
{
    VERBS.iter().copied().find(|verb| verb_word(*verb) == word)
}

/// The status of this word.
pub(crate) fn status_of_word(word: &[u8]) -> Option<Status>
    ensures { result ≡ status_of_word word.now }
{
    STATUSES
        .iter()
        .copied()
        .find(|status| status_word(*status) == word)
}

/// The word for where a take had its element from.
pub(crate) fn got_word(got: Got) -> &'static [u8]
    ensures word { result.now ≡ got_word got }
    ensures short { length result.now ≤ 8 }
{
    match got {
        Got::Ordinary => b"ordinary",
        Got::Spare => b"spare",
        Got::Missed => b"missed",
    }
}

/// Where a take had its element from, by its word.
pub(crate) fn got_of_word(word: &[u8]) -> Option<Got>
    ensures { result ≡ got_of_word word.now }
{
    GOTS.iter().copied().find(|got| got_word(*got) == word)
}

/// The word for what a node was opened for.
pub(crate) fn how_word(how: How) -> &'static [u8]
    ensures word { result.now ≡ how_word how }
    ensures short { length result.now ≤ 6 }
{
    match how {
        How::Write => b"write",
        How::Chain => b"chain",
        How::Master => b"master",
        How::Leg => b"leg",
    }
}

/// What a node was opened for, by its word.
pub(crate) fn how_of_word(word: &[u8]) -> Option<How>
    ensures { result ≡ how_of_word word.now }
{
    HOWS.iter().copied().find(|how| how_word(*how) == word)
}

/// The word for what an end left of its node.
pub(crate) fn end_word(end: End) -> &'static [u8]
    ensures word { result.now ≡ end_word end }
    ensures short { length result.now ≤ 4 }
{
    match end {
        End::Left => b"left",
        End::Up => b"up",
        End::Top => b"top",
    }
}

/// What an end left of its node, by its word.
pub(crate) fn end_of_word(word: &[u8]) -> Option<End>
    ensures { result ≡ end_of_word word.now }
{
    ENDS.iter().copied().find(|end| end_word(*end) == word)
}
