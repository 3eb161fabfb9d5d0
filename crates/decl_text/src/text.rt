//! The lines of a text.
ghost use Rattle.std.specs.Prelude.{◌≡◌, ◌<◌, ◌≤◌, ◌∷◌, ◌==◌, length, drop, MatchOption, position};
ghost use Rattle.decl_text.specs.Text.{lines};
ghost use Rattle.decl_text.specs.Places.{BeginsWhereverCut, IsNextLine, IsNextOfFront, StaysAtEnd};

use std::marker::Model;

/// The lines of a text from a place on, which is the first byte of a line, or the end. A line is cut by a small
/// function, and not by std's `split`: its clause says what one cut leaves, where std's says what a whole run yields.
#[derive(Drop)]
pub struct Lines<'a> {
    text: &'a [u8],
    place: usize,
}

impl<'a> Model for Lines<'a> {
    ghost use Rattle.std.specs.Prelude.{◌≤◌, length};
    ghost use Rattle.decl_text.specs.Places.{TextPlace};

    ghost Value = { TextPlace };

    ghost view = { λ lines. record { text = lines.text.now; place = lines.place } };

    ghost invariant = { λ lines. lines.place ≤ length lines.text.now };
}

impl<'a> Lines<'a> {
    /// The lines from this place on.
    pub fn from(text: &'a [u8], place: usize) -> Lines<'a>
        requires { place ≤ length text.now }
        ensures { result ≡ record { text = text.now; place = place } }
    {
        Lines { text, place }
    }

    /// The place of the next line, in bytes.
    pub fn place(&self) -> usize
        ensures place { result ≡ self.now.place }
        ensures within { result ≤ length self.now.text }
    {
        self.place
    }

    /// The next line, without the byte 10 that may end it, and nothing at the end of the text.
    pub fn next(&mut self) -> Option<&'a [u8]>
        ensures line { MatchOption result (StaysAtEnd self.old self.new) (λ line. IsNextLine self.old line.now self.new) }
        ensures text { self.new.text ≡ self.old.text }
        ensures on { MatchOption result (self.new.place ≡ self.old.place) (λ line. self.old.place < self.new.place) }
        ensures within { self.new.place ≤ length self.old.text }
        // The same line comes where the text ends at any place behind it.
        ensures cut { MatchOption result (Unit {0}) (λ line. IsNextOfFront self.old line.now self.new) }
    {
        let (_, left) = self.text.split_at(self.place);
        if left.is_empty() {
            return None;
        }
        let (line, taken) = first_line(left);
        self.place += taken;
        Some(line)
    }
}

// The place of the first byte 10.
fn end_of(text: &[u8]) -> Option<usize>
    ensures { result ≡ position (λ byte. byte == 10) text.now }
{
    text.iter().position(|byte| *byte == b'\n')
}

// The first line of a text that is not empty, and how many bytes it takes with the byte 10 that may end it.
fn first_line(text: &[u8]) -> (&[u8], usize)
    requires { 1 ≤ length text.now }
    ensures line { lines text.now ≡ result.0.now ∷ lines (drop result.1 text.now) }
    ensures some { 1 ≤ result.1 }
    ensures within { result.1 ≤ length text.now }
    ensures cut { BeginsWhereverCut text.now result.0.now result.1 }
{
    match end_of(text) {
        Some(end) => {
            let (line, _) = text.split_at(end);
            (line, end + 1)
        }
        None => (text, text.len()),
    }
}
