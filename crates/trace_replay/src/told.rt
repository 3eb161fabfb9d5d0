//! Which lines tell events.
ghost use Rattle.std.specs.Prelude.{◌≡◌};
ghost use Rattle.std.specs.Str.{bytes_eq};
ghost use Rattle.trace_replay.specs.Lines.{is_told};

use decl_text::first_word;

// Whether a word is this one.
fn is(word: &[u8], other: &[u8]) -> bool
    ensures { result ≡ bytes_eq word.now other.now }
{
    word == other
}

/// Whether the first word of a line is `event`, so that it is the line of an event, or a bad one.
pub(crate) fn is_told(line: &[u8]) -> bool
    ensures { result ≡ is_told line.now }
{
    match first_word(line) {
        None => false,
        Some(word) => is(word, b"event"),
    }
}
