//! One line of a text: its words, and what it says.
ghost use Rattle.std.specs.Prelude.{◌≡◌, ◌<◌, ◌∷◌, ◌++◌, [], false, filter, length, position, slice_get, IfOk, MatchOption, Some};
ghost use Rattle.std.specs.List.{list_all};
ghost use Rattle.decl_text.specs.Text.{IsCutLine, is_blank, is_some_text, is_text, words, words as words_in};
ghost use Rattle.decl_text.specs.Forms.{is_malformed, is_misnumbered};
ghost use Rattle.decl_text.specs.Items.{begins_work, is_comment, malformed, misnumbered, said};
ghost use Rattle.decl_text.specs.Lines.{CommandSays, LineSays, command_first};

use crate::meaning::meaning;
use crate::wrong::{is_malformed, is_misnumbered};
use crate::{Command, Item, Reason, Stand, Word};
use std::alloc::{AllocError, Global};
use std::marker::Model;
use thiserror::Error;

/// Why a line says nothing.
#[derive(Clone, Copy, Debug, PartialEq, Eq, Error)]
pub enum LineFault {
    #[error("the line is wrong")]
    Wrong(Reason),
    #[error("out of memory")]
    Memory,
}

impl From<AllocError> for LineFault {
    ghost use Rattle.std.specs.Prelude.{◌≡◌};
    ghost use Rattle.decl_text.specs.declared.line.LineFault.TheVariants.{Memory};

    ghost from_gives = { λ _ fault. fault ≡ Memory };

    fn from(_: AllocError) -> Self {
        LineFault::Memory
    }
}

/// A line, which contracts see as its bytes.
#[derive(Drop)]
pub struct TextLine<'a> {
    bytes: &'a [u8],
    words: Vec<Word<'a>>,
}

impl<'a> Model for TextLine<'a> {
    ghost use Rattle.std.specs.Prelude.{◌≡◌, List, ℕ};
    ghost use Rattle.decl_text.specs.Text.{words as words_in};

    ghost Value = { List ℕ };

    ghost view = { λ line. line.bytes.now };

    ghost invariant = { λ line. line.words.items ≡ words_in line.bytes.now };
}

impl<'a> TextLine<'a> {
    /// These bytes as a line.
    ///
    /// # Errors
    ///
    /// Where there is no memory for its words.
    pub fn of(alloc: Global, bytes: &'a [u8]) -> Result<TextLine<'a>, AllocError>
        ensures { IfOk result (λ line. line ≡ bytes.now) }
    {
        let words = words_of(alloc, bytes)?;
        Ok(TextLine { bytes, words })
    }

    /// Whether it is a write or a `sync` line, by its first word.
    pub fn begins_work(&self) -> bool
        ensures { result ≡ begins_work (words self.now) }
    {
        matches!(
            first_of(&self.words),
            First::Command(Command::Write | Command::Sync)
        )
    }

    /// What it says, where it stands, and nothing where it is skipped.
    ///
    /// # Errors
    ///
    /// Where it has a byte that no text has, a wrong word, or a wrong number, in this order, or where there is no memory. A first word
    /// that may not stand there is a wrong word.
    pub fn said(&self, alloc: Global, stand: Stand) -> Result<Option<Item<'a>>, LineFault>
        ensures { LineSays stand self.now result }
    {
        read(alloc, stand, self.bytes, &self.words)
    }

    /// What it says, where its words and numbers are right, and nothing where it is skipped.
    ///
    /// # Errors
    ///
    /// Where there is no memory.
    pub fn item(&self, alloc: Global) -> Result<Option<Item<'a>>, AllocError>
        requires formed { malformed (words self.now) ≡ false }
        requires numbered { misnumbered (words self.now) ≡ false }
        ensures { IfOk result (λ item. item ≡ said (words self.now)) }
    {
        match first_of(&self.words) {
            First::Skipped | First::Unknown => Ok(None),
            First::Command(command) => {
                let (_, rest) = self.words.split_at(1);
                Ok(Some(meaning(alloc, command, rest)?))
            }
        }
    }
}

/// What the first word of a line says.
#[derive(Clone, Copy, PartialEq, Eq)]
pub enum First {
    /// There is none, or it begins a comment.
    Skipped,
    /// It is no word of a line.
    Unknown,
    /// What the line is about.
    Command(Command),
}

// What the first of these words says.
fn first_of(words: &[Word<'_>]) -> First
    ensures { result ≡ command_first words.now }
{
    match words.first() {
        None => First::Skipped,
        Some(word) if is_comment(word) => First::Skipped,
        Some(word) => match Command::of(word) {
            None => First::Unknown,
            Some(command) => First::Command(command),
        },
    }
}

// Whether the word begins a comment.
fn is_comment(word: &Word<'_>) -> bool
    ensures { result ≡ is_comment word.now }
{
    word.bytes().first() == Some(&b'#')
}

fn is_text(line: &[u8]) -> bool
    ensures { result ≡ is_text line.now }
{
    line.iter()
        .all(|byte| is_blank(*byte) || (b' ' < *byte && *byte < 127))
}

/// Whether a line has blanks at the most, so that it has no word and says nothing. A reader that asks first makes no list of words for it: a text may
/// have four million of them, and a list of no words that is moved about costs more than the line.
pub fn is_blank_line(line: &[u8]) -> bool
    ensures { result ≡ list_all is_blank line.now }
{
    line.iter().all(|byte| is_blank(*byte))
}

fn is_blank(byte: u8) -> bool
    ensures { result ≡ is_blank byte }
{
    byte == b' ' || byte == b'\t' || byte == b'\r'
}

// The place of the first blank.
fn blank_place(line: &[u8]) -> Option<usize>
    ensures { result ≡ position is_blank line.now }
{
    line.iter().position(|byte| is_blank(*byte))
}

// What stands before the first blank, and what stands behind it, where there is one.
fn cut(line: &[u8]) -> (&[u8], Option<&[u8]>)
    ensures parts { IsCutLine line.now result.0.now result.1 (λ rest. rest.now) }
    ensures shorter { MatchOption result.1 (Unit {0}) (λ rest. length rest.now < length line.now) }
{
    match blank_place(line) {
        Some(end) => {
            let (part, _) = line.split_at(end);
            let (_, rest) = line.split_at(end + 1);
            (part, Some(rest))
        }
        None => (line, None),
    }
}

/// The first word of a line, if it has one.
pub fn first_word(line: &[u8]) -> Option<&[u8]>
    ensures { MatchOption result (words line.now ≡ []) (λ word. slice_get (words line.now) 0 ≡ Some word.now) }
{
    let mut left = line;
    'cutting: loop {
        let (part, rest) = cut(left);
        if !part.is_empty() {
            return Some(part);
        }
        match rest {
            Some(rest) => left = rest,
            None => return None,
        }
    }
}

// Keeps a part that is a word.
fn keep_word<'a>(all: &mut Vec<Word<'a>>, part: &'a [u8]) -> Result<(), AllocError>
    ensures { IfOk result (λ _. all.new.items ≡ all.old.items ++ filter is_some_text (part.now ∷ [])) }
{
    if !part.is_empty() {
        all.push(Word::of(part))?;
    }
    Ok(())
}

// The words of a line.
fn words_of<'a>(alloc: Global, line: &'a [u8]) -> Result<Vec<Word<'a>>, AllocError>
    ensures { IfOk result (λ all. all.items ≡ words line.now) }
{
    let mut all = Vec::new(alloc);
    let mut left = line;
    loop {
        let (part, rest) = cut(left);
        keep_word(&mut all, part)?;
        match rest {
            Some(rest) => left = rest,
            None => return Ok(all),
        }
    }
}

// What the words behind the first one say.
fn read_command<'a>(
    alloc: Global,
    command: Command,
    words: &[Word<'a>],
) -> Result<Item<'a>, LineFault>
    ensures { CommandSays command words.now result }
{
    if is_malformed(command, words) {
        return Err(LineFault::Wrong(Reason::BadWord));
    }
    if is_misnumbered(command, words) {
        return Err(LineFault::Wrong(Reason::BadNumber));
    }
    let item = meaning(alloc, command, words)?;
    Ok(item)
}

// What a line of these words says, which stands there.
fn read<'a>(
    alloc: Global,
    stand: Stand,
    line: &[u8],
    words: &[Word<'a>],
) -> Result<Option<Item<'a>>, LineFault>
    requires { words.now ≡ words_in line.now }
    ensures { LineSays stand line.now result }
{
    if !is_text(line) {
        return Err(LineFault::Wrong(Reason::NotText));
    }
    match first_of(words) {
        First::Skipped => Ok(None),
        First::Unknown => Err(LineFault::Wrong(Reason::BadWord)),
        First::Command(command) => {
            if !stand.takes(command) {
                return Err(LineFault::Wrong(Reason::BadWord));
            }
            let (_, rest) = words.split_at(1);
            match read_command(alloc, command, rest) {
                Ok(item) => Ok(Some(item)),
                Err(fault) => Err(fault),
            }
        }
    }
}
