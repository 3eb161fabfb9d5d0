//! Which words of a line are wrong.
ghost use Rattle.std.specs.Prelude.{◌≡◌, ◌&&◌, ◌||◌, not, zip, is_some};
ghost use Rattle.std.specs.List.{list_any};
ghost use Rattle.std.specs.Str.{bytes_eq};
ghost use Rattle.decl_text.specs.Words.{has_number, is_word, key_word};
ghost use Rattle.decl_text.specs.Forms.{fails, form, is_malformed, is_misnumbered, is_misplaced, is_misset, is_missized, is_setting, is_strange, behind_places, times, value_of};

use crate::form::{Key, Place, Setting};
use crate::{Command, Word};

/// Whether some word behind the first one is wrong, whatever the numbers.
pub(crate) fn is_malformed(command: Command, words: &[Word<'_>]) -> bool
    ensures { result ≡ is_malformed (form command) words.now }
{
    let places = command.places();
    if words.len() < places.len() {
        return true;
    }
    let (_, others) = words.split_at(places.len());
    any_misplaced(places, words)
        || any_strange(command, others)
        || any_misset(command.settings(), others)
}

/// Whether some number is wrong.
pub(crate) fn is_misnumbered(command: Command, words: &[Word<'_>]) -> bool
    ensures { result ≡ is_misnumbered (form command) words.now }
{
    let places = command.places();
    let (_, others) = words.split_at(places.len().min(words.len()));
    any_uncounted(places, words) || any_missized(command.settings(), others)
}

// Whether a word at its place is an option, or may not stand there.
fn any_misplaced(places: &[Place], words: &[Word<'_>]) -> bool
    ensures { result ≡ list_any (λ at. is_misplaced at.0 at.1) (zip places.now words.now) }
{
    places
        .iter()
        .zip(words)
        .any(|(place, word)| word.is_option() || !place.takes(word))
}

// Whether a word at its place has no number that may stand there.
fn any_uncounted(places: &[Place], words: &[Word<'_>]) -> bool
    ensures { result ≡ list_any (λ at. not (has_number at.0 at.1)) (zip places.now words.now) }
{
    places
        .iter()
        .zip(words)
        .any(|(place, word)| !place.counts(word))
}

// Whether a word behind the places does not belong to the line.
fn any_strange(command: Command, others: &[Word<'_>]) -> bool
    ensures { result ≡ list_any (is_strange (form command)) others.now }
{
    others.iter().any(|word| is_strange(command, word))
}

// Whether the word is an option that is unknown to the line, or another word where none may stand.
fn is_strange(command: Command, word: &Word<'_>) -> bool
    ensures { result ≡ is_strange (form command) word.now }
{
    match word.option() {
        Some((key, _)) => !is_setting(command.settings(), key),
        None => !command.takes_members(),
    }
}

// Whether one of the options has this key.
fn is_setting(settings: &[Setting], key: &[u8]) -> bool
    ensures { result ≡ list_any (λ setting. bytes_eq key.now (key_word setting.key)) settings.now }
{
    settings.iter().any(|setting| key == setting.key.word())
}

// Whether an option is repeated or missing, or has a word that may not stand there.
fn any_misset(settings: &[Setting], others: &[Word<'_>]) -> bool
    ensures { result ≡ list_any (is_misset others.now) settings.now }
{
    settings.iter().any(|setting| is_misset(setting, others))
}

fn is_misset(setting: &Setting, others: &[Word<'_>]) -> bool
    ensures { result ≡ is_misset others.now setting.now }
{
    let times = times(setting.key, others);
    1 < times || (setting.wanted && times == 0) || any_misspelt(setting, others)
}

// How often there is an option of this key.
fn times(key: Key, others: &[Word<'_>]) -> usize
    ensures { result ≡ times key others.now }
{
    others
        .iter()
        .filter(|word| word.value_of(key).is_some())
        .count()
}

// Whether its value is a word that may not stand there.
fn any_misspelt(setting: &Setting, others: &[Word<'_>]) -> bool
    ensures { result ≡ list_any (λ word. fails (is_word setting.now.place) (value_of setting.now.key word)) others.now }
{
    others.iter().any(|word| match word.value_of(setting.key) {
        Some(value) => !setting.place.takes(&value),
        None => false,
    })
}

// Whether an option has no number that may stand there.
fn any_missized(settings: &[Setting], others: &[Word<'_>]) -> bool
    ensures { result ≡ list_any (is_missized others.now) settings.now }
{
    settings.iter().any(|setting| is_missized(setting, others))
}

fn is_missized(setting: &Setting, others: &[Word<'_>]) -> bool
    ensures { result ≡ is_missized others.now setting.now }
{
    others.iter().any(|word| match word.value_of(setting.key) {
        Some(value) => !setting.place.counts(&value),
        None => false,
    })
}
