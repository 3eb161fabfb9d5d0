//! What single words tell.
ghost use Rattle.std.specs.Prelude.{◌≡◌, ◌<◌, ◌≤◌, true, length, position, IfSome};
ghost use Rattle.std.specs.Option.{option_map};
ghost use Rattle.std.specs.List.{list_all};
ghost use Rattle.std.specs.Char.{is_ascii_digit};
ghost use Rattle.std.specs.Str.{bytes_eq};
ghost use Rattle.trace_text.specs.Names.{is_disk_kind, is_mirror_kind};
ghost use Rattle.trace_text.specs.Reading.{past_front, device_bios, completer_of_word, device_of_word, device_pool, disk_of, fs_pool, is_dot, is_plain, long_of, pool_of_word, device_records, rescuer_of_word, short_of, task_of_word, writer_of_word};

use run_machine::TaskId;
use stack_base::{DevId, Device, Kind, PoolId, Stack};

/// Whether two words are the same.
pub(crate) fn is(word: &[u8], other: &[u8]) -> bool
    ensures { result ≡ bytes_eq word.now other.now }
{
    word == other
}

fn all_digits(word: &[u8]) -> bool
    ensures { result ≡ list_all is_ascii_digit word.now }
{
    word.iter().all(|byte| byte.is_ascii_digit())
}

// Whether it is a number as lines have them: digits, one at least, and no 0 before others.
fn is_plain(word: &[u8]) -> bool
    ensures { result ≡ is_plain word.now }
{
    !word.is_empty() && (word[0] != b'0' || word.len() == 1) && all_digits(word)
}

// The digits as text.
fn digits_text(word: &[u8]) -> &str
    requires { list_all is_ascii_digit word.now ≡ true }
    ensures { result.now ≡ word.now }
{
    str::from_utf8(word).unwrap()
}

/// The number of 32 bits that the word writes in decimal, without leading zeros.
#[tactic(auto, unfolding(crate::specs::Reading::plain_number))]
pub(crate) fn short_of(word: &[u8]) -> Option<u32>
    ensures { result ≡ short_of word.now }
{
    if !is_plain(word) {
        return None;
    }
    digits_text(word).parse().ok()
}

/// The number of 64 bits that the word writes in decimal, without leading zeros.
#[tactic(auto, unfolding(crate::specs::Reading::plain_number))]
pub(crate) fn long_of(word: &[u8]) -> Option<u64>
    ensures { result ≡ long_of word.now }
{
    if !is_plain(word) {
        return None;
    }
    digits_text(word).parse().ok()
}

fn is_disk_kind(kind: &Kind) -> bool
    ensures { result ≡ is_disk_kind kind.now }
{
    matches!(kind, Kind::Disk { .. })
}

fn is_mirror_kind(kind: &Kind) -> bool
    ensures { result ≡ is_mirror_kind kind.now }
{
    matches!(kind, Kind::Mirror { .. })
}

// The place of the first device of this name.
fn place_of(devices: &[Device], name: &[u8]) -> Option<usize>
    ensures place { result ≡ position (λ device. bytes_eq device.name.bytes name.now) devices.now }
    ensures within { IfSome result (λ place. place < length devices.now) }
{
    devices
        .iter()
        .position(|device| device.name.as_str().as_bytes() == name)
}

/// The device of this name.
#[tactic(auto, unfolding(crate::specs::Reading::device_of_word))]
pub(crate) fn device_of(stack: &Stack, name: &[u8]) -> Option<DevId>
    requires { length stack.now.devices.items ≤ 32 }
    ensures device { result ≡ device_of_word stack.now name.now }
    ensures within { IfSome result (λ dev. dev.0 < length stack.now.devices.items) }
{
    let place = place_of(&stack.devices, name)?;
    Some(DevId(place as u32))
}

/// The disk of this name.
#[tactic(auto, unfolding(crate::specs::Reading::disk_of))]
pub(crate) fn disk_of(stack: &Stack, name: &[u8]) -> Option<DevId>
    requires { length stack.now.devices.items ≤ 32 }
    ensures { result ≡ disk_of stack.now name.now }
{
    let dev = device_of(stack, name)?;
    if is_disk_kind(&stack.devices[dev.0 as usize].kind) {
        Some(dev)
    } else {
        None
    }
}

// The pool of bios of the device of this name.
#[tactic(auto, unfolding(crate::specs::Reading::device_bios))]
fn device_bios(stack: &Stack, name: &[u8]) -> Option<PoolId>
    requires { length stack.now.devices.items ≤ 32 }
    ensures { result ≡ device_bios stack.now name.now }
{
    let dev = device_of(stack, name)?;
    if is_disk_kind(&stack.devices[dev.0 as usize].kind) {
        None
    } else {
        Some(PoolId::Bios(dev))
    }
}

// The pool of records of the device of this name.
#[tactic(auto, unfolding(crate::specs::Reading::device_records))]
fn device_records(stack: &Stack, name: &[u8]) -> Option<PoolId>
    requires { length stack.now.devices.items ≤ 32 }
    ensures { result ≡ device_records stack.now name.now }
{
    let dev = device_of(stack, name)?;
    if is_mirror_kind(&stack.devices[dev.0 as usize].kind) {
        Some(PoolId::Records(dev))
    } else {
        None
    }
}

// The place of the first dot.
fn dot_place(word: &[u8]) -> Option<usize>
    ensures { result ≡ position is_dot word.now }
{
    word.iter().position(|byte| *byte == b'.')
}

// The pool of the writers' set that keeps this.
fn fs_pool(kept: &[u8]) -> Option<PoolId>
    ensures { result ≡ fs_pool kept.now }
{
    if is(kept, b"bios") {
        Some(PoolId::FsBios)
    } else if is(kept, b"vecs") {
        Some(PoolId::FsVecs)
    } else {
        None
    }
}

// The pool of the device of this name that keeps this.
fn device_pool(stack: &Stack, name: &[u8], kept: &[u8]) -> Option<PoolId>
    requires { length stack.now.devices.items ≤ 32 }
    ensures { result ≡ device_pool stack.now name.now kept.now }
{
    if is(kept, b"bios") {
        device_bios(stack, name)
    } else if is(kept, b"records") {
        device_records(stack, name)
    } else {
        None
    }
}

/// The pool of this name: that of a set, a dot, and what the pool keeps.
#[tactic(auto, unfolding(crate::specs::Reading::pool_of_word))]
pub(crate) fn pool_of(stack: &Stack, word: &[u8]) -> Option<PoolId>
    requires { length stack.now.devices.items ≤ 32 }
    ensures { result ≡ pool_of_word stack.now word.now }
{
    let dot = dot_place(word)?;
    let (name, _) = word.split_at(dot);
    let (_, kept) = word.split_at(dot + 1);
    if is(name, b"fs") {
        fs_pool(kept)
    } else {
        device_pool(stack, name, kept)
    }
}

// What follows this in the word.
fn past_front<'a>(front: &[u8], word: &'a [u8]) -> Option<&'a [u8]>
    ensures { option_map (λ rest. rest.now) result ≡ past_front front.now word.now }
{
    word.strip_prefix(front)
}

// `w` and a writer's number.
fn writer_of_word(word: &[u8]) -> Option<TaskId>
    ensures { result ≡ writer_of_word word.now }
{
    let number = past_front(b"w", word)?;
    Some(TaskId::Writer(short_of(number)?))
}

// `r:` and the name of a device.
fn rescuer_of_word(stack: &Stack, word: &[u8]) -> Option<TaskId>
    requires { length stack.now.devices.items ≤ 32 }
    ensures { result ≡ rescuer_of_word stack.now word.now }
{
    let name = past_front(b"r:", word)?;
    Some(TaskId::Rescuer(device_of(stack, name)?))
}

// `c:` and the name of a disk.
fn completer_of_word(stack: &Stack, word: &[u8]) -> Option<TaskId>
    requires { length stack.now.devices.items ≤ 32 }
    ensures { result ≡ completer_of_word stack.now word.now }
{
    let name = past_front(b"c:", word)?;
    Some(TaskId::Completer(disk_of(stack, name)?))
}

/// The task of this word.
#[tactic(auto, unfolding(crate::specs::Reading::task_of_word))]
pub(crate) fn task_of_word(stack: &Stack, word: &[u8]) -> Option<TaskId>
    requires { length stack.now.devices.items ≤ 32 }
    ensures { result ≡ task_of_word stack.now word.now }
{
    if is(word, b"k") {
        return Some(TaskId::Keeper);
    }
    if let Some(task) = writer_of_word(word) {
        return Some(task);
    }
    if let Some(task) = rescuer_of_word(stack, word) {
        return Some(task);
    }
    completer_of_word(stack, word)
}
