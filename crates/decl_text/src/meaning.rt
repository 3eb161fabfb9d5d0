//! What the words of a line say, where their form is right: one function for each kind of line.
ghost use Rattle.std.specs.Prelude.{◌≡◌, ◌∷◌, ◌++◌, [], false, true, IfOk, Some};
ghost use Rattle.std.specs.List.{list_any};
ghost use Rattle.decl_text.specs.Text.{is_option};
ghost use Rattle.decl_text.specs.Words.{has_number};
ghost use Rattle.decl_text.specs.Forms.{any_number, fails, form, is_malformed, is_misnumbered, value_of};
ghost use Rattle.decl_text.specs.Items.{device, kind_of_bad, meaning, members};
ghost use Rattle.decl_text.specs.declared.command.Command.TheVariants as command;
ghost use Rattle.decl_text.specs.declared.form.Key.TheVariants as key;

use crate::form::Key;
use crate::options::{number_or, yes_or};
use crate::{Command, Item, What, Word, Words};
use fail_script::Script;
use stack_base::{Range, Status};
use std::alloc::{AllocError, Global};

/// How many elements a pool keeps where a line does not say otherwise (`BIO_POOL_SIZE`).
const RESERVE: u64 = 2;

/// What the words behind the first one say.
///
/// # Errors
///
/// Where there is no memory for its members or its entries.
#[tactic(auto, unfolding(crate::specs::Items::meaning))]
pub(crate) fn meaning<'a>(
    alloc: Global,
    command: Command,
    words: &[Word<'a>],
) -> Result<Item<'a>, AllocError>
    requires formed { is_malformed (form command) words.now ≡ false }
    requires numbered { is_misnumbered (form command) words.now ≡ false }
    ensures { IfOk result (λ item. meaning command words.now ≡ Some item) }
{
    match command {
        Command::Disk => Ok(disk(alloc, words)),
        Command::Bad => Ok(bad(words)),
        Command::Linear => linear(alloc, words),
        Command::Stripe => stripe(alloc, words),
        Command::Zoned => zoned(alloc, words),
        Command::Limit => limit(alloc, words),
        Command::Mirror => mirror(alloc, words),
        Command::Fs => Ok(fs(words)),
        Command::Script => script(alloc, words),
        Command::Memory => Ok(Item::NoMemory),
        Command::Write => Ok(write(words)),
        Command::Sync => Ok(Item::Sync),
        Command::Resize => Ok(resize(words)),
    }
}

// `disk NAME SECTORS`
#[tactic(auto, unfolding(crate::specs::Items::meaning))]
fn disk<'a>(alloc: Global, words: &[Word<'a>]) -> Item<'a>
    requires formed { is_malformed (form command.Disk) words.now ≡ false }
    requires numbered { is_misnumbered (form command.Disk) words.now ≡ false }
    ensures { meaning command.Disk words.now ≡ Some result }
{
    let [name, sectors] = words else {
        unreachable!()
    };
    Item::Device {
        name: name.share(),
        what: What::Disk {
            sectors: sectors.digits(),
        },
        members: Words::of(Vec::new(alloc)),
        reserve: 0,
        rescuer: false,
    }
}

// `bad DISK FROM COUNT KIND`
#[tactic(auto, unfolding(crate::specs::Items::meaning))]
fn bad<'a>(words: &[Word<'a>]) -> Item<'a>
    requires formed { is_malformed (form command.Bad) words.now ≡ false }
    requires numbered { is_misnumbered (form command.Bad) words.now ≡ false }
    ensures { meaning command.Bad words.now ≡ Some result }
{
    let [disk, from, count, kind] = words else {
        unreachable!()
    };
    Item::Bad {
        disk: disk.share(),
        range: Range {
            start: from.digits(),
            len: count.digits(),
        },
        kind: kind_of_bad(kind),
    }
}

// How a write to a bad range ends.
fn kind_of_bad(word: &Word<'_>) -> Status
    ensures { result ≡ kind_of_bad word.now }
{
    if word.is(b"io") {
        Status::Io
    } else if word.is(b"medium") {
        Status::Medium
    } else {
        Status::NoSpace
    }
}

// `linear NAME MEMBER ..`
#[tactic(auto, unfolding(crate::specs::Items::meaning))]
fn linear<'a>(alloc: Global, words: &[Word<'a>]) -> Result<Item<'a>, AllocError>
    requires formed { is_malformed (form command.Linear) words.now ≡ false }
    requires numbered { is_misnumbered (form command.Linear) words.now ≡ false }
    ensures { IfOk result (λ item. meaning command.Linear words.now ≡ Some item) }
{
    let [name, rest @ ..] = words else {
        unreachable!()
    };
    device(alloc, name, What::Linear, false, rest)
}

// `stripe NAME chunk=N MEMBER ..`
#[tactic(auto, unfolding(crate::specs::Items::meaning))]
fn stripe<'a>(alloc: Global, words: &[Word<'a>]) -> Result<Item<'a>, AllocError>
    requires formed { is_malformed (form command.Stripe) words.now ≡ false }
    requires numbered { is_misnumbered (form command.Stripe) words.now ≡ false }
    ensures { IfOk result (λ item. meaning command.Stripe words.now ≡ Some item) }
{
    let [name, rest @ ..] = words else {
        unreachable!()
    };
    let chunk = number_or(rest, Key::Chunk, 0);
    device(alloc, name, What::Stripe { chunk }, false, rest)
}

// `zoned NAME chunk=N MEMBER ..`
#[tactic(auto, unfolding(crate::specs::Items::meaning))]
fn zoned<'a>(alloc: Global, words: &[Word<'a>]) -> Result<Item<'a>, AllocError>
    requires formed { is_malformed (form command.Zoned) words.now ≡ false }
    requires numbered { is_misnumbered (form command.Zoned) words.now ≡ false }
    ensures { IfOk result (λ item. meaning command.Zoned words.now ≡ Some item) }
{
    let [name, rest @ ..] = words else {
        unreachable!()
    };
    let chunk = number_or(rest, Key::Chunk, 0);
    device(alloc, name, What::Zoned { chunk }, false, rest)
}

// `limit NAME max=N chunk=N MEMBER`
#[tactic(auto, unfolding(crate::specs::Items::meaning))]
fn limit<'a>(alloc: Global, words: &[Word<'a>]) -> Result<Item<'a>, AllocError>
    requires formed { is_malformed (form command.Limit) words.now ≡ false }
    requires numbered { is_misnumbered (form command.Limit) words.now ≡ false }
    ensures { IfOk result (λ item. meaning command.Limit words.now ≡ Some item) }
{
    let [name, rest @ ..] = words else {
        unreachable!()
    };
    let max = number_or(rest, Key::Max, 0);
    let chunk = number_or(rest, Key::Chunk, 0);
    device(alloc, name, What::Limit { max, chunk }, false, rest)
}

// `mirror NAME records=N MEMBER ..`
#[tactic(auto, unfolding(crate::specs::Items::meaning))]
fn mirror<'a>(alloc: Global, words: &[Word<'a>]) -> Result<Item<'a>, AllocError>
    requires formed { is_malformed (form command.Mirror) words.now ≡ false }
    requires numbered { is_misnumbered (form command.Mirror) words.now ≡ false }
    ensures { IfOk result (λ item. meaning command.Mirror words.now ≡ Some item) }
{
    let [name, rest @ ..] = words else {
        unreachable!()
    };
    let records = number_or(rest, Key::Records, RESERVE);
    device(alloc, name, What::Mirror { records }, true, rest)
}

// `fs bios=N vecs=N`
#[tactic(auto, unfolding(crate::specs::Items::meaning))]
fn fs<'a>(words: &[Word<'a>]) -> Item<'a>
    requires formed { is_malformed (form command.Fs) words.now ≡ false }
    requires numbered { is_misnumbered (form command.Fs) words.now ≡ false }
    ensures { meaning command.Fs words.now ≡ Some result }
{
    Item::Fs {
        bios: number_or(words, Key::Bios, RESERVE),
        vecs: number_or(words, Key::Vecs, RESERVE),
    }
}

// `script POOL PATTERN TAIL`
#[tactic(auto, unfolding(crate::specs::Items::meaning))]
fn script<'a>(alloc: Global, words: &[Word<'a>]) -> Result<Item<'a>, AllocError>
    requires formed { is_malformed (form command.Script) words.now ≡ false }
    requires numbered { is_misnumbered (form command.Script) words.now ≡ false }
    ensures { IfOk result (λ item. meaning command.Script words.now ≡ Some item) }
{
    let [pool, pattern, tail] = words else {
        unreachable!()
    };
    let entries = pattern.entries(alloc)?;
    Ok(Item::Script {
        pool: pool.share(),
        script: Script::new(entries, tail.is(b"+")),
    })
}

// `write TASK DEVICE START COUNT TAG`
#[tactic(auto, unfolding(crate::specs::Items::meaning))]
fn write<'a>(words: &[Word<'a>]) -> Item<'a>
    requires formed { is_malformed (form command.Write) words.now ≡ false }
    requires numbered { is_misnumbered (form command.Write) words.now ≡ false }
    ensures { meaning command.Write words.now ≡ Some result }
{
    let [task, dev, start, count, tag] = words else {
        unreachable!()
    };
    Item::Write {
        task: task.digits(),
        dev: dev.share(),
        range: Range {
            start: start.digits(),
            len: count.digits(),
        },
        tag: tag.digits(),
    }
}

// `resize POOL N`
#[tactic(auto, unfolding(crate::specs::Items::meaning))]
fn resize<'a>(words: &[Word<'a>]) -> Item<'a>
    requires formed { is_malformed (form command.Resize) words.now ≡ false }
    requires numbered { is_misnumbered (form command.Resize) words.now ≡ false }
    ensures { meaning command.Resize words.now ≡ Some result }
{
    let [pool, min] = words else { unreachable!() };
    Item::Resize {
        pool: pool.share(),
        min: min.digits(),
    }
}

// A device over members, with the options that each of them may have.
fn device<'a>(
    alloc: Global,
    name: &Word<'a>,
    what: What,
    rescuer: bool,
    rest: &[Word<'a>],
) -> Result<Item<'a>, AllocError>
    requires { list_any (λ word. fails (has_number any_number) (value_of key.Reserve word)) rest.now ≡ false }
    ensures { IfOk result (λ item. item ≡ device name.now what rescuer rest.now) }
{
    Ok(Item::Device {
        name: name.share(),
        what,
        members: members(alloc, rest)?,
        reserve: number_or(rest, Key::Reserve, RESERVE),
        rescuer: yes_or(rest, Key::Rescuer, rescuer),
    })
}

// Keeps a word that is no option.
fn keep_member<'a>(all: &mut Vec<Word<'a>>, word: &Word<'a>) -> Result<(), AllocError>
    ensures { IfOk result (λ _. all.new.items ≡ all.old.items ++ members (word.now ∷ [])) }
{
    if !word.is_option() {
        all.push(word.share())?;
    }
    Ok(())
}

// The words that are no options.
fn members<'a>(alloc: Global, words: &[Word<'a>]) -> Result<Words<'a>, AllocError>
    ensures { IfOk result (λ all. all ≡ members words.now) }
{
    let mut all = Vec::new(alloc);
    for word in words {
        keep_member(&mut all, word)?;
    }
    Ok(Words::of(all))
}
