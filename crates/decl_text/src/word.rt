//! Words of a line.
ghost use Rattle.std.specs.Prelude.{◌≡◌, ◌<◌, ◌≤◌, ◌==◌, ◌++◌, true, false, true, is_some, MatchOption, Some, IfOk, length, map, position};
ghost use Rattle.std.specs.List.{list_all};
ghost use Rattle.std.specs.Char.{is_ascii_digit};
ghost use Rattle.std.specs.Str.{bytes_eq};
ghost use Rattle.std.specs.Str.Parse.{digits_value};
ghost use Rattle.decl_text.specs.Text.{IsOption, begins_with_letter, is_entry, is_name, is_name_byte, is_option, is_pattern, number_of};
ghost use Rattle.decl_text.specs.Forms.{value_of};
ghost use Rattle.decl_text.specs.Items.{entries, number};

use crate::form::Key;
use std::alloc::{AllocError, Global};
use std::marker::Model;

/// A part of a line without blanks. It is borrowed from the text until a device keeps its name, since a text may have two million of them.
#[derive(Drop)]
pub struct Word<'a> {
    bytes: &'a [u8],
}

impl<'a> Model for Word<'a> {
    ghost use Rattle.std.specs.Prelude.{List, ℕ};

    ghost Value = { List ℕ };

    ghost view = { λ word. word.bytes.now };
}

impl<'a> Word<'a> {
    /// These bytes as a word.
    pub fn of(bytes: &'a [u8]) -> Word<'a>
        ensures { result ≡ bytes.now }
    {
        Word { bytes }
    }

    /// Its bytes.
    pub fn bytes(&self) -> &'a [u8]
        ensures { result.now ≡ self.now }
    {
        self.bytes
    }

    /// The same word once more.
    pub fn share(&self) -> Word<'a>
        ensures { result ≡ self.now }
    {
        Word { bytes: self.bytes }
    }

    /// Whether it is this word.
    pub fn is(&self, word: &[u8]) -> bool
        ensures { result ≡ bytes_eq self.now word.now }
    {
        self.bytes == word
    }

    /// Whether it is these bytes, followed by those.
    pub fn is_joined(&self, front: &[u8], back: &[u8]) -> bool
        ensures { result ≡ bytes_eq (front.now ++ back.now) self.now }
    {
        let word = self.bytes;
        if word.len() < back.len() {
            return false;
        }
        let (first, last) = word.split_at(word.len() - back.len());
        last == back && front == first
    }

    /// Whether it is an option: it has a `=`.
    pub(crate) fn is_option(&self) -> bool
        ensures { result ≡ is_option self.now }
    {
        self.bytes.iter().any(|byte| *byte == b'=')
    }

    /// The key and the value, where it is an option.
    pub(crate) fn option(&self) -> Option<(&'a [u8], Word<'a>)>
        ensures { MatchOption result (is_option self.now ≡ false) (λ parts. IsOption self.now parts.0.now parts.1) }
    {
        let (key, value) = key_and_value(self.bytes)?;
        Some((key, Word::of(value)))
    }

    /// Its value, where it is an option of this key.
    pub(crate) fn value_of(&self, key: Key) -> Option<Word<'a>>
        ensures { result ≡ value_of key self.now }
    {
        let (name, value) = self.option()?;
        if name == key.word() {
            Some(value)
        } else {
            None
        }
    }

    /// Whether it is a name: 1 to 16 letters, digits, `_` and `-`, a letter first, and not `fs`.
    #[tactic(auto, unfolding(crate::specs::Text::is_name))]
    pub(crate) fn is_name(&self) -> bool
        ensures { result ≡ is_name self.now }
    {
        if self.bytes.len() > 16 || self.is(b"fs") {
            return false;
        }
        begins_with_letter(self.bytes) && has_name_bytes(self.bytes)
    }

    /// The number that it writes in 1 to 20 decimal digits, where that fits 64 bits.
    pub(crate) fn number(&self) -> Option<u64>
        ensures { result ≡ number_of self.now }
    {
        number(self.bytes)
    }

    /// The number that it writes, where it writes one.
    pub(crate) fn digits(&self) -> u64
        requires { is_some (number_of self.now) ≡ true }
        ensures { result ≡ number self.now }
    {
        self.number().unwrap()
    }

    /// Whether it has the entries of a script: `+` and `-`, or one dot.
    pub(crate) fn is_pattern(&self) -> bool
        ensures { result ≡ is_pattern self.now }
    {
        self.is(b".") || (!self.bytes.is_empty() && all_entries(self.bytes))
    }

    /// The entries of a script.
    pub(crate) fn entries(&self, alloc: Global) -> Result<Vec<bool>, AllocError>
        ensures { IfOk result (λ all. all.items ≡ entries self.now) }
    {
        if self.is(b".") {
            return Ok(Vec::new(alloc));
        }
        entries_of(alloc, self.bytes)
    }
}

fn begins_with_letter(word: &[u8]) -> bool
    ensures { result ≡ begins_with_letter word.now }
{
    match word.first() {
        Some(first) => first.is_ascii_alphabetic(),
        None => false,
    }
}

fn has_name_bytes(word: &[u8]) -> bool
    ensures { result ≡ list_all is_name_byte word.now }
{
    word.iter().all(|byte| byte.is_ascii_alphanumeric() || *byte == b'_' || *byte == b'-')
}

fn all_entries(word: &[u8]) -> bool
    ensures { result ≡ list_all is_entry word.now }
{
    word.iter().all(|byte| *byte == b'+' || *byte == b'-')
}

fn all_digits(word: &[u8]) -> bool
    ensures { result ≡ list_all is_ascii_digit word.now }
{
    word.iter().all(|byte| byte.is_ascii_digit())
}

// The digits as text.
fn digits_text(word: &[u8]) -> &str
    requires { list_all is_ascii_digit word.now ≡ true }
    ensures { result.now ≡ word.now }
{
    str::from_utf8(word).unwrap()
}

// The number that at most 19 digits write, which fits 64 bits.
fn short_number(digits: &[u8]) -> u64
    requires digits { list_all is_ascii_digit digits.now ≡ true }
    requires few { length digits.now ≤ 19 }
    ensures { result ≡ digits_value 10 digits.now }
{
    let mut number = 0;
    'reading: for digit in digits {
        number = 10 * number + u64::from(*digit - b'0');
    }
    number
}

// The number that the digits write, where they are 1 to 20 and it fits 64 bits.
#[tactic(auto, unfolding(crate::specs::Text::number_of))]
fn number(word: &[u8]) -> Option<u64>
    ensures { result ≡ number_of word.now }
{
    if word.is_empty() || word.len() > 20 || !all_digits(word) {
        return None;
    }
    if word.len() < 20 {
        return Some(short_number(word));
    }
    digits_text(word).parse().ok()
}

// The place of the first `=`.
fn equals_place(word: &[u8]) -> Option<usize>
    ensures { result ≡ position (λ byte. byte == 61) word.now }
{
    word.iter().position(|byte| *byte == b'=')
}

// What stands before the first `=`, and what stands behind it.
fn key_and_value(word: &[u8]) -> Option<(&[u8], &[u8])>
    ensures { MatchOption result (is_option word.now ≡ false) (λ parts. IsOption word.now parts.0.now parts.1.now) }
{
    match equals_place(word) {
        None => None,
        Some(end) => {
            let (key, _) = word.split_at(end);
            let (_, value) = word.split_at(end + 1);
            Some((key, value))
        }
    }
}

// The entries of these bytes.
fn entries_of(alloc: Global, word: &[u8]) -> Result<Vec<bool>, AllocError>
    ensures { IfOk result (λ all. all.items ≡ map (λ byte. byte == 43) word.now) }
{
    word.iter().map(|byte| *byte == b'+').collect(alloc)
}

/// Words, in their order.
#[derive(Drop)]
pub struct Words<'a> {
    words: Vec<Word<'a>>,
}

impl<'a> Model for Words<'a> {
    ghost use Rattle.std.specs.Prelude.{List, ℕ};

    ghost Value = { List (List ℕ) };

    ghost view = { λ words. words.words.items };
}

impl<'a> Words<'a> {
    /// These words.
    pub(crate) fn of(words: Vec<Word<'a>>) -> Words<'a>
        ensures { result ≡ words.entry.items }
    {
        Words { words }
    }

    /// All of them.
    pub fn as_slice(&self) -> &[Word<'a>]
        ensures { result.now ≡ self.now }
    {
        &self.words
    }
}
