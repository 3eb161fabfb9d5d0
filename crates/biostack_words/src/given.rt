//! What stands behind the first word.
ghost use Rattle.std.specs.Prelude.{◌≡◌, map};
ghost use Rattle.std.specs.String.{string_bytes};
ghost use Rattle.std.specs.List.{list_any};
ghost use Rattle.clap.specs.Matches.{found_of};
ghost use Rattle.clap.specs.Walk.{rows_of};
ghost use Rattle.clap.specs.Values.{kind_of};
ghost use Rattle.clap.specs.declared.error.kind.ErrorKind.TheVariants.{OutOfMemory};
ghost use Rattle.biostack_words.specs.Grammar.{is_dashed, order_of};
ghost use Rattle.biostack_words.specs.Reading.{ReadsGiven, IsSeen, fault_for};

use crate::WordFault;
use crate::command::Command;
use crate::grammar::grammar;
use crate::number::{number, workers};
use crate::order::Order;
use clap::ArgMatches;
use clap::error::ErrorKind;
use std::alloc::Global;
use std::marker::Model;

/// The options behind the first word, and the number.
#[derive(Drop)]
pub(crate) struct Given<'a> {
    seed: Option<&'a str>,
    workers: Option<&'a str>,
    trace: bool,
    text: bool,
    number: Option<&'a str>,
}

impl<'a> Model for Given<'a> {
    ghost use Rattle.std.specs.Option.{option_map};
    ghost use Rattle.biostack_words.specs.Grammar.{GivenWords as Shown};

    ghost Value = { Shown };

    ghost view = { λ given. record {
      seed = option_map (λ word. word.now) given.seed;
      workers = option_map (λ word. word.now) given.workers;
      trace = given.trace;
      text = given.text;
      number = option_map (λ word. word.now) given.number;
    } };
}

impl<'a> Given<'a> {
    // What the words behind the first give.
    pub(crate) fn read(alloc: Global, words: &'a [String]) -> Result<Given<'a>, WordFault>
        ensures { ReadsGiven (map string_bytes words.now) result }
    {
        if has_dashed_word(words) {
            return Err(WordFault::Refused);
        }
        let parser = grammar(alloc)?;
        match parser.try_get_matches_from(words) {
            Ok(matches) => Ok(Given::of(&matches)),
            Err(error) => Err(fault_for(error.kind())),
        }
    }

    // What the matches have.
    fn of(matches: &ArgMatches<'a>) -> Given<'a>
        ensures { IsSeen (rows_of (found_of matches.now)) result }
    {
        Given {
            seed: matches.get_str("seed"),
            workers: matches.get_str("workers"),
            trace: matches.get_flag("trace"),
            text: matches.get_flag("text"),
            number: matches.get_str("number"),
        }
    }

    // The order of this command, with what is given.
    pub(crate) fn order(&self, command: Command) -> Option<Order>
        ensures { result ≡ order_of command self.now }
    {
        match (
            command,
            self.seed,
            self.workers,
            self.trace,
            self.text,
            self.number,
        ) {
            (Command::Run, None, None, trace, false, None) => Some(Order::Run { number: 0, trace }),
            (Command::Run, Some(seed), None, trace, false, None) => {
                let number = number(seed)?;
                Some(Order::Run { number, trace })
            }
            (Command::Run, None, Some(word), trace, false, None) => {
                let n = workers(word)?;
                Some(Order::Workers { n, trace })
            }
            (Command::Check, None, None, false, false, None) => Some(Order::Check),
            (Command::Layout, None, None, false, false, None) => Some(Order::Layout),
            (Command::Gen, None, None, false, text, Some(word)) => {
                let number = number(word)?;
                Some(Order::Gen { number, text })
            }
            (Command::Replay, None, None, false, false, None) => Some(Order::Replay),
            (Command::Scrub, None, None, false, false, None) => Some(Order::Scrub { number: 0 }),
            (Command::Scrub, Some(seed), None, false, false, None) => {
                let number = number(seed)?;
                Some(Order::Scrub { number })
            }
            _ => None,
        }
    }
}

// Whether a word is `--`, behind which `clap` would read no options, or has short options, of which there are none.
fn has_dashed_word(words: &[String]) -> bool
    ensures { result ≡ list_any (λ word. is_dashed (string_bytes word)) words.now }
{
    words.iter().any(|word| is_dashed(word.as_bytes()))
}

fn is_dashed(word: &[u8]) -> bool
    ensures { result ≡ is_dashed word.now }
{
    match word {
        [b'-', b'-', _, ..] => false,
        [b'-', _, ..] => true,
        _ => false,
    }
}

// What an error of this kind says.
fn fault_for(kind: ErrorKind) -> WordFault
    ensures { result ≡ fault_for kind }
{
    match kind {
        ErrorKind::OutOfMemory => WordFault::Memory,
        _ => WordFault::Refused,
    }
}
