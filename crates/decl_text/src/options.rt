//! The options among the words of a line.
ghost use Rattle.std.specs.Prelude.{◌≡◌, false, is_some};
ghost use Rattle.std.specs.List.{list_any};
ghost use Rattle.decl_text.specs.Text.{number_of};
ghost use Rattle.decl_text.specs.Forms.{fails, value_of};
ghost use Rattle.decl_text.specs.Items.{number_or, value_in, yes_or};

use crate::Word;
use crate::form::Key;

// The value of the first option of this key.
fn value_in<'a>(words: &[Word<'a>], key: Key) -> Option<Word<'a>>
    ensures { result ≡ value_in key words.now }
{
    for word in words {
        let value = word.value_of(key);
        if value.is_some() {
            return value;
        }
    }
    None
}

/// The number of an option, or this one where there is none.
pub(crate) fn number_or(words: &[Word<'_>], key: Key, default: u64) -> u64
    requires { list_any (λ word. fails (λ value. is_some (number_of value)) (value_of key word)) words.now ≡ false }
    ensures { result ≡ number_or default (value_in key words.now) }
{
    match value_in(words, key) {
        None => default,
        Some(value) => value.digits(),
    }
}

/// Whether an option says yes, or this where there is none.
pub(crate) fn yes_or(words: &[Word<'_>], key: Key, default: bool) -> bool
    ensures { result ≡ yes_or default (value_in key words.now) }
{
    match value_in(words, key) {
        None => default,
        Some(value) => value.is(b"yes"),
    }
}
