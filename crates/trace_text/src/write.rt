//! Writes events.
ghost use Rattle.std.specs.Prelude.{◌≡◌, ◌+◌, ◌≤◌, ◌++◌, ◌∷◌, decimal, length};
ghost use Rattle.trace_text.specs.Lines.{done_words, drop_words, line_of_event, link_words, round_words, task_word, what_words};
ghost use Rattle.stack_base.specs.Names.{name_of_device, pool_name};
ghost use Rattle.trace_text.specs.Writing.{spaced};
ghost use Rattle.run_machine.specs.declared.event.What.TheVariants as what;

use crate::verb::{end_word, got_word, how_word};
use arrayvec::ArrayVec;
use itoa::Buffer;
use run_machine::{End, Event, Got, How, TaskId, What, status_word};
use stack_base::{DevId, PoolId, Stack, Status};

// A line as it is written. The longest one has 103 bytes.
type LineBytes = ArrayVec<u8, 128>;

// A blank and a word.
fn put(into: &mut LineBytes, word: &[u8])
    requires { length into.old.items + 1 + length word.now ≤ 128 }
    ensures items { into.new.items ≡ into.old.items ++ 32 ∷ word.now }
    ensures len { length into.new.items ≡ length into.old.items + 1 + length word.now }
{
    into.push(b' ');
    into.try_extend_from_slice(word).unwrap();
}

// A blank and a word of two parts.
fn put_joined(into: &mut LineBytes, front: &[u8], back: &[u8])
    requires { length into.old.items + 1 + length front.now + length back.now ≤ 128 }
    ensures items { into.new.items ≡ into.old.items ++ 32 ∷ (front.now ++ back.now) }
    ensures len { length into.new.items ≡ length into.old.items + 1 + length front.now + length back.now }
{
    put(into, front);
    into.try_extend_from_slice(back).unwrap();
}

// A blank and a number.
fn put_number(into: &mut LineBytes, number: u64)
    requires { length into.old.items ≤ 107 }
    ensures items { into.new.items ≡ into.old.items ++ 32 ∷ decimal number }
    ensures len { length into.new.items ≤ length into.old.items + 21 }
{
    let mut digits = Buffer::new();
    put(into, digits.format(number).as_bytes());
}

// The name of a device, and nothing where there is no such device.
fn device_name(stack: &Stack, dev: DevId) -> &[u8]
    ensures name { result.now ≡ name_of_device stack.now dev.0 }
    ensures short { length result.now ≤ 16 }
{
    match stack.devices.get(dev.0 as usize) {
        Some(device) => device.name.as_str().as_bytes(),
        None => b"",
    }
}

// A blank and the name of a device.
fn put_device(into: &mut LineBytes, stack: &Stack, dev: DevId)
    requires { length into.old.items ≤ 111 }
    ensures items { into.new.items ≡ into.old.items ++ 32 ∷ name_of_device stack.now dev.0 }
    ensures len { length into.new.items ≤ length into.old.items + 17 }
{
    put(into, device_name(stack, dev));
}

// A blank and the name of a pool.
fn put_pool(into: &mut LineBytes, stack: &Stack, pool: PoolId)
    requires { length into.old.items ≤ 103 }
    ensures items { into.new.items ≡ into.old.items ++ 32 ∷ pool_name stack.now pool }
    ensures len { length into.new.items ≤ length into.old.items + 25 }
{
    match pool {
        PoolId::FsBios => put(into, b"fs.bios"),
        PoolId::FsVecs => put(into, b"fs.vecs"),
        PoolId::Bios(dev) => put_joined(into, device_name(stack, dev), b".bios"),
        PoolId::Records(dev) => put_joined(into, device_name(stack, dev), b".records"),
    }
}

// A blank and the word of a task.
fn put_task(into: &mut LineBytes, stack: &Stack, task: TaskId)
    requires { length into.old.items ≤ 100 }
    ensures items { into.new.items ≡ into.old.items ++ 32 ∷ task_word stack.now task }
    ensures len { length into.new.items ≤ length into.old.items + 22 }
{
    match task {
        TaskId::Writer(number) => {
            let mut digits = Buffer::new();
            put_joined(into, b"w", digits.format(number).as_bytes());
        }
        TaskId::Rescuer(dev) => put_joined(into, b"r:", device_name(stack, dev)),
        TaskId::Completer(disk) => put_joined(into, b"c:", device_name(stack, disk)),
        TaskId::Keeper => put(into, b"k"),
    }
}

// Each of the following puts what a task did.

fn take(into: &mut LineBytes, stack: &Stack, pool: PoolId, got: Got)
    requires { length into.old.items ≤ 27 }
    ensures { into.new.items ≡ into.old.items ++ spaced (what_words stack.now (what.Take pool got)) }
{
    put(into, b"take");
    put_pool(into, stack, pool);
    put(into, got_word(got));
}

fn try_take(into: &mut LineBytes, stack: &Stack, pool: PoolId, got: Got)
    requires { length into.old.items ≤ 27 }
    ensures { into.new.items ≡ into.old.items ++ spaced (what_words stack.now (what.Try pool got)) }
{
    put(into, b"try");
    put_pool(into, stack, pool);
    put(into, got_word(got));
}

fn give(into: &mut LineBytes, stack: &Stack, pool: PoolId)
    requires { length into.old.items ≤ 27 }
    ensures { into.new.items ≡ into.old.items ++ spaced (what_words stack.now (what.Give pool)) }
{
    put(into, b"give");
    put_pool(into, stack, pool);
}

fn punt(into: &mut LineBytes, stack: &Stack, dev: DevId, moved: u64)
    requires { length into.old.items ≤ 27 }
    ensures { into.new.items ≡ into.old.items ++ spaced (what_words stack.now (what.Punt dev moved)) }
{
    put(into, b"punt");
    put_device(into, stack, dev);
    put_number(into, moved);
}

fn pop(into: &mut LineBytes, stack: &Stack, dev: DevId)
    requires { length into.old.items ≤ 27 }
    ensures { into.new.items ≡ into.old.items ++ spaced (what_words stack.now (what.Pop dev)) }
{
    put(into, b"pop");
    put_device(into, stack, dev);
}

fn push(into: &mut LineBytes, stack: &Stack, disk: DevId, at: u64, len: u64, leg: u32)
    requires { length into.old.items ≤ 27 }
    ensures { into.new.items ≡ into.old.items ++ spaced (what_words stack.now (what.Push disk at len leg)) }
{
    put(into, b"push");
    put_device(into, stack, disk);
    put_number(into, at);
    put_number(into, len);
    put(into, b"leg");
    put_number(into, u64::from(leg));
}

fn complete(into: &mut LineBytes, stack: &Stack, disk: DevId, index: u64, status: Status)
    requires { length into.old.items ≤ 27 }
    ensures { into.new.items ≡ into.old.items ++ spaced (what_words stack.now (what.Complete disk index status)) }
{
    put(into, b"complete");
    put_device(into, stack, disk);
    put_number(into, index);
    put(into, status_word(status));
}

fn link(into: &mut LineBytes, writer: u32, how: How, node: u32)
    requires { length into.old.items ≤ 27 }
    ensures { into.new.items ≡ into.old.items ++ spaced (link_words writer how node) }
{
    put(into, b"link");
    put_number(into, u64::from(writer));
    put(into, how_word(how));
    put_number(into, u64::from(node));
}

fn drop_node(into: &mut LineBytes, writer: u32, node: u32, status: Status, end: End)
    requires { length into.old.items ≤ 27 }
    ensures { into.new.items ≡ into.old.items ++ spaced (drop_words writer node status end) }
{
    put(into, b"drop");
    put_number(into, u64::from(writer));
    put_number(into, u64::from(node));
    put(into, status_word(status));
    put(into, end_word(end));
}

fn done(into: &mut LineBytes, write: u32, status: Status)
    requires { length into.old.items ≤ 27 }
    ensures { into.new.items ≡ into.old.items ++ spaced (done_words write status) }
{
    put(into, b"done");
    put_number(into, u64::from(write));
    put(into, status_word(status));
}

fn resize(into: &mut LineBytes, stack: &Stack, pool: PoolId, min: u32)
    requires { length into.old.items ≤ 27 }
    ensures { into.new.items ≡ into.old.items ++ spaced (what_words stack.now (what.Resize pool min)) }
{
    put(into, b"resize");
    put_pool(into, stack, pool);
    put_number(into, u64::from(min));
}

fn round_starts(into: &mut LineBytes, round: u32)
    requires { length into.old.items ≤ 27 }
    ensures { into.new.items ≡ into.old.items ++ spaced (round_words round) }
{
    put(into, b"round");
    put_number(into, u64::from(round));
}

// What a task did.
fn put_what(into: &mut LineBytes, stack: &Stack, what: What)
    requires { length into.old.items ≤ 27 }
    ensures { into.new.items ≡ into.old.items ++ spaced (what_words stack.now what) }
{
    match what {
        What::Take { pool, got } => take(into, stack, pool, got),
        What::Try { pool, got } => try_take(into, stack, pool, got),
        What::Give { pool } => give(into, stack, pool),
        What::Punt { dev, moved } => punt(into, stack, dev, moved),
        What::Pop { dev } => pop(into, stack, dev),
        What::Push { disk, at, len, leg } => push(into, stack, disk, at, len, leg),
        What::Complete {
            disk,
            index,
            status,
        } => complete(into, stack, disk, index, status),
        What::Link { writer, how, node } => link(into, writer, how, node),
        What::Drop {
            writer,
            node,
            status,
            end,
        } => drop_node(into, writer, node, status, end),
        What::Done { write, status } => done(into, write, status),
        What::Resize { pool, min } => resize(into, stack, pool, min),
        What::Round { round } => round_starts(into, round),
    }
}

/// Makes `into` the event's line, without the byte 10 that would end it. Where the stack has what the event names, and its devices have different
/// names, `read_event` reads the event again. A device that the stack does not have is told by no name, so that a trace needs no condition on
/// runs: that each event of a run names what the stack has is a law beside it.
pub fn write_event(e: &Event, stack: &Stack, into: &mut ArrayVec<u8, 128>)
    ensures { into.new.items ≡ line_of_event stack.now e.now }
{
    into.clear();
    into.try_extend_from_slice(b"event").unwrap();
    put_task(into, stack, e.task);
    put_what(into, stack, e.what);
}
