//! What `clap` is told of the words.
ghost use Rattle.std.specs.Prelude.{◌≡◌, false, codes, IfOk};
ghost use Rattle.clap.specs.Simple.{app_of, new_app, new_rule};
ghost use Rattle.clap.specs.Walk.{rule_of};
ghost use Rattle.biostack_words.specs.Parser.{flag_rule, parser, valued, without_help};

use clap::{Arg, ArgAction, Command};
use std::alloc::{AllocError, Global};

// The option `--NAME`, which has a value.
fn valued<'a>(alloc: Global, name: &'a str) -> Arg<'a>
    ensures rule { rule_of result ≡ valued name.entry.now }
    ensures local { result.global ≡ false }
{
    Arg::new(alloc, name).long(name)
}

// The option `--NAME`, which has none.
fn flag<'a>(alloc: Global, name: &'a str) -> Arg<'a>
    ensures rule { rule_of result ≡ flag_rule name.entry.now }
    ensures local { result.global ≡ false }
{
    Arg::new(alloc, name).long(name).action(ArgAction::SetTrue)
}

// A word alone.
fn place<'a>(alloc: Global, name: &'a str) -> Arg<'a>
    ensures rule { rule_of result ≡ new_rule name.entry.now }
    ensures local { result.global ≡ false }
{
    Arg::new(alloc, name)
}

// A command without options, not even help.
fn without_help<'a>(alloc: Global) -> Command<'a>
    ensures { app_of result ≡ without_help (new_app (codes "biostack")) }
{
    Command::new(alloc, "biostack")
        .disable_help_flag(true)
        .no_binary_name(true)
}

// The options of all commands, and a word alone.
pub(crate) fn grammar<'a>(alloc: Global) -> Result<Command<'a>, AllocError>
    ensures { IfOk result (λ command. app_of command ≡ parser) }
{
    without_help(alloc)
        .arg(valued(alloc, "seed"))?
        .arg(valued(alloc, "workers"))?
        .arg(flag(alloc, "trace"))?
        .arg(flag(alloc, "text"))?
        .arg(place(alloc, "number"))
}
