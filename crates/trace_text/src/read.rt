//! Reads events.
ghost use Rattle.std.specs.Prelude.{◌≡◌, ◌≤◌, length};
ghost use Rattle.trace_text.specs.Laws.{IsEventRead};
ghost use Rattle.trace_text.specs.Names.{DevicesAreNamed};
ghost use Rattle.trace_text.specs.Reading.{Reads, device_of_word, disk_of, end_of_word, event_of, field, got_of_word, how_of_word, long_of, fixed_word, pool_of_word, short_of, status_of_word, task_of_word, verb_of_word, what_in, take_behind, try_behind, give_behind, punt_behind, pop_behind, push_behind, complete_behind, link_behind, drop_behind, done_behind, resize_behind, round_behind};

use crate::verb::{Verb, end_of_word, got_of_word, how_of_word, status_of_word, verb_of_word};
use crate::word::{device_of, disk_of, is, long_of, pool_of, short_of, task_of_word};
use crate::words::Words;
use run_machine::{End, Event, Got, How, TaskId, What};
use stack_base::{DevId, PoolId, Stack, Status};

// Each of the following takes one word, and answers what it tells, or nothing where it tells no such thing.

fn mark(words: &mut Words<'_>, mark: &[u8]) -> Option<()>
    ensures { Reads (field (fixed_word mark.now)) words.old result words.new }
{
    if is(words.next()?, mark) {
        Some(())
    } else {
        None
    }
}

fn verb(words: &mut Words<'_>) -> Option<Verb>
    ensures { Reads (field verb_of_word) words.old result words.new }
{
    verb_of_word(words.next()?)
}

fn status(words: &mut Words<'_>) -> Option<Status>
    ensures { Reads (field status_of_word) words.old result words.new }
{
    status_of_word(words.next()?)
}

fn got(words: &mut Words<'_>) -> Option<Got>
    ensures { Reads (field got_of_word) words.old result words.new }
{
    got_of_word(words.next()?)
}

fn how(words: &mut Words<'_>) -> Option<How>
    ensures { Reads (field how_of_word) words.old result words.new }
{
    how_of_word(words.next()?)
}

fn end(words: &mut Words<'_>) -> Option<End>
    ensures { Reads (field end_of_word) words.old result words.new }
{
    end_of_word(words.next()?)
}

fn short(words: &mut Words<'_>) -> Option<u32>
    ensures { Reads (field short_of) words.old result words.new }
{
    short_of(words.next()?)
}

fn long(words: &mut Words<'_>) -> Option<u64>
    ensures { Reads (field long_of) words.old result words.new }
{
    long_of(words.next()?)
}

fn device(words: &mut Words<'_>, stack: &Stack) -> Option<DevId>
    requires { length stack.now.devices.items ≤ 32 }
    ensures { Reads (field (device_of_word stack.now)) words.old result words.new }
{
    device_of(stack, words.next()?)
}

fn disk(words: &mut Words<'_>, stack: &Stack) -> Option<DevId>
    requires { length stack.now.devices.items ≤ 32 }
    ensures { Reads (field (disk_of stack.now)) words.old result words.new }
{
    disk_of(stack, words.next()?)
}

fn pool(words: &mut Words<'_>, stack: &Stack) -> Option<PoolId>
    requires { length stack.now.devices.items ≤ 32 }
    ensures { Reads (field (pool_of_word stack.now)) words.old result words.new }
{
    pool_of(stack, words.next()?)
}

fn task(words: &mut Words<'_>, stack: &Stack) -> Option<TaskId>
    requires { length stack.now.devices.items ≤ 32 }
    ensures { Reads (field (task_of_word stack.now)) words.old result words.new }
{
    task_of_word(stack, words.next()?)
}

// Each of the following takes what stands behind its verb.

#[tactic(auto, unfolding(crate::specs::Reading::read_both, crate::specs::Reading::made))]
fn take(words: &mut Words<'_>, stack: &Stack) -> Option<What>
    requires { length stack.now.devices.items ≤ 32 }
    ensures { Reads (take_behind stack.now) words.old result words.new }
{
    let pool = pool(words, stack)?;
    let got = got(words)?;
    Some(What::Take { pool, got })
}

#[tactic(auto, unfolding(crate::specs::Reading::read_both, crate::specs::Reading::made))]
fn try_take(words: &mut Words<'_>, stack: &Stack) -> Option<What>
    requires { length stack.now.devices.items ≤ 32 }
    ensures { Reads (try_behind stack.now) words.old result words.new }
{
    let pool = pool(words, stack)?;
    let got = got(words)?;
    Some(What::Try { pool, got })
}

#[tactic(auto, unfolding(crate::specs::Reading::made))]
fn give(words: &mut Words<'_>, stack: &Stack) -> Option<What>
    requires { length stack.now.devices.items ≤ 32 }
    ensures { Reads (give_behind stack.now) words.old result words.new }
{
    let pool = pool(words, stack)?;
    Some(What::Give { pool })
}

#[tactic(auto, unfolding(crate::specs::Reading::read_both, crate::specs::Reading::made))]
fn punt(words: &mut Words<'_>, stack: &Stack) -> Option<What>
    requires { length stack.now.devices.items ≤ 32 }
    ensures { Reads (punt_behind stack.now) words.old result words.new }
{
    let dev = device(words, stack)?;
    let moved = long(words)?;
    Some(What::Punt { dev, moved })
}

#[tactic(auto, unfolding(crate::specs::Reading::made))]
fn pop(words: &mut Words<'_>, stack: &Stack) -> Option<What>
    requires { length stack.now.devices.items ≤ 32 }
    ensures { Reads (pop_behind stack.now) words.old result words.new }
{
    let dev = device(words, stack)?;
    Some(What::Pop { dev })
}

#[tactic(auto, unfolding(crate::specs::Reading::read_both, crate::specs::Reading::made))]
fn push(words: &mut Words<'_>, stack: &Stack) -> Option<What>
    requires { length stack.now.devices.items ≤ 32 }
    ensures { Reads (push_behind stack.now) words.old result words.new }
{
    let disk = disk(words, stack)?;
    let at = long(words)?;
    let len = long(words)?;
    mark(words, b"leg")?;
    let leg = short(words)?;
    Some(What::Push { disk, at, len, leg })
}

#[tactic(auto, unfolding(crate::specs::Reading::read_both, crate::specs::Reading::made))]
fn complete(words: &mut Words<'_>, stack: &Stack) -> Option<What>
    requires { length stack.now.devices.items ≤ 32 }
    ensures { Reads (complete_behind stack.now) words.old result words.new }
{
    let disk = disk(words, stack)?;
    let index = long(words)?;
    let status = status(words)?;
    Some(What::Complete {
        disk,
        index,
        status,
    })
}

#[tactic(auto, unfolding(crate::specs::Reading::read_both, crate::specs::Reading::made))]
fn link(words: &mut Words<'_>) -> Option<What>
    ensures { Reads link_behind words.old result words.new }
{
    let writer = short(words)?;
    let how = how(words)?;
    let node = short(words)?;
    Some(What::Link { writer, how, node })
}

#[tactic(auto, unfolding(crate::specs::Reading::read_both, crate::specs::Reading::made))]
fn drop_node(words: &mut Words<'_>) -> Option<What>
    ensures { Reads drop_behind words.old result words.new }
{
    let writer = short(words)?;
    let node = short(words)?;
    let status = status(words)?;
    let end = end(words)?;
    Some(What::Drop {
        writer,
        node,
        status,
        end,
    })
}

#[tactic(auto, unfolding(crate::specs::Reading::read_both, crate::specs::Reading::made))]
fn done(words: &mut Words<'_>) -> Option<What>
    ensures { Reads done_behind words.old result words.new }
{
    let write = short(words)?;
    let status = status(words)?;
    Some(What::Done { write, status })
}

#[tactic(auto, unfolding(crate::specs::Reading::read_both, crate::specs::Reading::made))]
fn resize(words: &mut Words<'_>, stack: &Stack) -> Option<What>
    requires { length stack.now.devices.items ≤ 32 }
    ensures { Reads (resize_behind stack.now) words.old result words.new }
{
    let pool = pool(words, stack)?;
    let min = short(words)?;
    Some(What::Resize { pool, min })
}

#[tactic(auto, unfolding(crate::specs::Reading::made))]
fn round(words: &mut Words<'_>) -> Option<What>
    ensures { Reads round_behind words.old result words.new }
{
    let round = short(words)?;
    Some(What::Round { round })
}

// What a task did: a verb, and what stands behind it.
#[tactic(auto, unfolding(crate::specs::Reading::what_in))]
fn what(words: &mut Words<'_>, stack: &Stack) -> Option<What>
    requires { length stack.now.devices.items ≤ 32 }
    ensures { Reads (what_in stack.now) words.old result words.new }
{
    match verb(words)? {
        Verb::Take => take(words, stack),
        Verb::Try => try_take(words, stack),
        Verb::Give => give(words, stack),
        Verb::Punt => punt(words, stack),
        Verb::Pop => pop(words, stack),
        Verb::Push => push(words, stack),
        Verb::Complete => complete(words, stack),
        Verb::Link => link(words),
        Verb::Drop => drop_node(words),
        Verb::Done => done(words),
        Verb::Resize => resize(words, stack),
        Verb::Round => round(words),
    }
}

// All words as an event.
#[tactic(auto, unfolding(crate::specs::Reading::event_of, crate::specs::Reading::read_both, crate::specs::Reading::made))]
fn event(words: &mut Words<'_>, stack: &Stack) -> Option<Event>
    requires { length stack.now.devices.items ≤ 32 }
    ensures { result ≡ event_of stack.now words.old }
{
    mark(words, b"event")?;
    let task = task(words, stack)?;
    let what = what(words, stack)?;
    if words.is_done() {
        Some(Event { task, what })
    } else {
        None
    }
}

/// The event whose line this is, and nothing where it is the line of none: words are told apart by one blank each, numbers have no leading
/// zeros and fit their fields, and what a word names the stack has.
pub fn read_event(line: &[u8], stack: &Stack) -> Option<Event>
    requires { DevicesAreNamed stack.now }
    ensures { IsEventRead stack.now line.now result }
{
    event(&mut Words::of(line), stack)
}
