//! The words of a line, one after the other.
ghost use Rattle.std.specs.Prelude.{◌≡◌, ◌∷◌, ◌==◌, [], MatchOption, position};
ghost use Rattle.std.specs.List.{slice_split};
ghost use Rattle.trace_text.specs.Reading.{is_nil};

use std::marker::Model;

/// What is left of a line, which contracts see as its words.
#[derive(Drop)]
pub(crate) struct Words<'a> {
    // What stands behind the blank behind the words that were taken, where there was one.
    rest: Option<&'a [u8]>,
}

impl<'a> Model for Words<'a> {
    ghost use Rattle.std.specs.Prelude.{List, ℕ};
    ghost use Rattle.trace_text.specs.Reading.{words_in};

    ghost Value = { List (List ℕ) };

    ghost view = { λ words. words_in words.rest };
}

// The place of the first blank.
fn blank_place(bytes: &[u8]) -> Option<usize>
    ensures { result ≡ position (λ byte. byte == 32) bytes.now }
{
    bytes.iter().position(|byte| *byte == b' ')
}

impl<'a> Words<'a> {
    /// The words of the line: what stands between two blanks, perhaps nothing, is a word.
    pub(crate) fn of(line: &'a [u8]) -> Words<'a>
        ensures { result ≡ slice_split (λ byte. byte == 32) line.now }
    {
        Words { rest: Some(line) }
    }

    /// Takes the first word.
    pub(crate) fn next(&mut self) -> Option<&'a [u8]>
        ensures { MatchOption result ((self.old ≡ []) × (self.new ≡ [])) (λ word. self.old ≡ word.now ∷ self.new) }
    {
        let rest = self.rest?;
        match blank_place(rest) {
            None => {
                self.rest = None;
                Some(rest)
            }
            Some(end) => {
                let (word, _) = rest.split_at(end);
                let (_, behind) = rest.split_at(end + 1);
                self.rest = Some(behind);
                Some(word)
            }
        }
    }

    /// Whether no word is left.
    pub(crate) fn is_done(&self) -> bool
        ensures { result ≡ is_nil self.now }
    {
        self.rest.is_none()
    }
}
