//! Numbers.
ghost use Rattle.std.specs.Prelude.{◌≡◌, true};
ghost use Rattle.std.specs.List.{list_all};
ghost use Rattle.std.specs.Char.{is_ascii_digit};
ghost use Rattle.biostack_words.specs.Numbers.{number_of, workers_of};

fn all_digits(word: &[u8]) -> bool
    ensures { result ≡ list_all is_ascii_digit word.now }
{
    word.iter().all(|byte| byte.is_ascii_digit())
}

// The number that the word writes in 1 to 20 decimal digits, where it fits 64 bits.
#[tactic(auto, unfolding(crate::specs::Numbers::number_of))]
pub(crate) fn number(word: &str) -> Option<u64>
    ensures { result ≡ number_of word.now }
{
    if word.is_empty() || word.len() > 20 || !all_digits(word.as_bytes()) {
        return None;
    }
    word.parse().ok()
}

// The number of threads that the word writes.
pub(crate) fn workers(word: &str) -> Option<u32>
    ensures { result ≡ workers_of word.now }
{
    let number = number(word)?;
    if number < 1 || number > 16 {
        return None;
    }
    Some(number as u32)
}
