//! Pools of a stack, as a text names them.
ghost use Rattle.std.specs.Prelude.{◌≡◌, ◌≤◌, ◌++◌, IfSome, length, position};
ghost use Rattle.std.specs.Str.{bytes_eq};
ghost use Rattle.stack_base.specs.PoolId.{pool_number};
ghost use Rattle.decl_text.specs.Accepting.{shown_devices};
ghost use Rattle.decl_text.specs.Known.{bios_named, bios_pool_of, device_before, pool_if, declared_pool, records_named, records_pool_of};

use decl_text::Word;
use stack_base::{DevId, Device, Kind, PoolId, Stack};

/// The pool of this name: `fs.bios`, `fs.vecs`, or a device's name and what the pool keeps.
#[tactic(auto, unfolding(decl_text::specs::Known::declared_pool))]
pub(crate) fn pool_of(stack: &Stack, word: &Word<'_>) -> Option<PoolId>
    requires { length stack.now.devices.items ≤ 32 }
    ensures pool { result ≡ declared_pool (shown_devices stack.now) word.now }
    ensures small { IfSome result (λ pool. pool_number pool ≤ 65) }
{
    if word.is(b"fs.bios") {
        return Some(PoolId::FsBios);
    }
    if word.is(b"fs.vecs") {
        return Some(PoolId::FsVecs);
    }
    match bios_named(stack, word) {
        Some(pool) => Some(pool),
        None => records_named(stack, word),
    }
}

// The pool of bios of this name.
fn bios_named(stack: &Stack, word: &Word<'_>) -> Option<PoolId>
    requires { length stack.now.devices.items ≤ 32 }
    ensures pool { result ≡ bios_named (shown_devices stack.now) word.now }
    ensures small { IfSome result (λ pool. pool_number pool ≤ 65) }
{
    let number = number_before(stack, b".bios", word)?;
    bios_at(stack, number)
}

// The pool of records of this name.
fn records_named(stack: &Stack, word: &Word<'_>) -> Option<PoolId>
    requires { length stack.now.devices.items ≤ 32 }
    ensures pool { result ≡ records_named (shown_devices stack.now) word.now }
    ensures small { IfSome result (λ pool. pool_number pool ≤ 65) }
{
    let number = number_before(stack, b".records", word)?;
    records_at(stack, number)
}

// The number of the device whose name, followed by this, is that word.
fn number_before(stack: &Stack, suffix: &[u8], word: &Word<'_>) -> Option<usize>
    ensures { result ≡ device_before suffix.now (shown_devices stack.now) word.now }
{
    place_before(&stack.devices, suffix, word)
}

// The place of the first device whose name, followed by this, is that word.
fn place_before(devices: &[Device], suffix: &[u8], word: &Word<'_>) -> Option<usize>
    ensures { result ≡ position (λ device. bytes_eq (device.name.bytes ++ suffix.now) word.now) devices.now }
{
    devices.iter().position(|device| word.is_joined(device.name.as_str().as_bytes(), suffix))
}

// The pool of bios of the device of this number.
fn bios_at(stack: &Stack, number: usize) -> Option<PoolId>
    requires { length stack.now.devices.items ≤ 32 }
    ensures pool { result ≡ pool_if bios_pool_of (shown_devices stack.now) number }
    ensures small { IfSome result (λ pool. pool_number pool ≤ 65) }
{
    match stack.devices.get(number)?.kind {
        Kind::Disk { .. } => None,
        _ => Some(PoolId::Bios(DevId(number as u32))),
    }
}

// The pool of records of the device of this number.
fn records_at(stack: &Stack, number: usize) -> Option<PoolId>
    requires { length stack.now.devices.items ≤ 32 }
    ensures pool { result ≡ pool_if records_pool_of (shown_devices stack.now) number }
    ensures small { IfSome result (λ pool. pool_number pool ≤ 65) }
{
    match stack.devices.get(number)?.kind {
        Kind::Mirror { .. } => Some(PoolId::Records(DevId(number as u32))),
        _ => None,
    }
}
