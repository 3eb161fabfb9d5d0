//! Makes a large text of a number.
ghost use Rattle.std.specs.Prelude.{◌≡◌, ◌+◌, ◌%◌, ◌<◌, ◌≤◌, ◌++◌, flat_map, IfOk, OnOk};
ghost use Rattle.work_text.specs.Generated.{AddsLineOf, behind, behind_all, chunk_in, declaration_words, fitting_writes, generated, limit_words, longest_in, memory_words, mirror_size, stripe_size, stripe_words, text_of, word, write_words};

use itoa::Buffer;
use rand_core::SeedableRng;
use rand_core::utils::NextWord;
use rand_pcg::Lcg64Xsh32;
use std::alloc::{AllocError, Global};

/// The sectors of each disk.
const DISK_SECTORS: u64 = 32768;

/// A text of the generator, which depends on the number alone: a mirror over two stripes over two limits each, and as many writes to it, one
/// behind the other, as it has sectors for. No generated text is refused.
///
/// # Errors
///
/// Where there is no memory.
pub fn generate(alloc: Global, number: u64) -> Result<Vec<u8>, AllocError>
    ensures { IfOk result (λ text. text.items ≡ generated number) }
{
    let mut words = Lcg64Xsh32::seed_from_u64(number);
    let mut text = Vec::new(alloc);
    let sectors = add_declarations(&mut text, &mut words, number)?;
    add_writes(&mut text, &mut words, sectors)?;
    Ok(text)
}

// The next word, modulo this.
fn pick(words: &mut Lcg64Xsh32, below: u32) -> u64
    requires { 1 ≤ below }
    ensures picked { result ≡ word words.old % below }
    ensures within { result < below }
    ensures behind { words.new ≡ behind words.old }
{
    u64::from(words.next_word() % below)
}

// Adds these, one behind the other.
fn add(text: &mut Vec<u8>, parts: &[&[u8]]) -> Result<(), AllocError>
    ensures { OnOk result (text.new.items ≡ text.old.items ++ flat_map (λ part. part.now) parts.now) }
{
    for part in parts {
        text.extend_from_slice(part)?;
    }
    Ok(())
}

// Adds the lines of declarations, and answers how many sectors the mirror has.
fn add_declarations(
    text: &mut Vec<u8>,
    words: &mut Lcg64Xsh32,
    number: u64,
) -> Result<u64, AllocError>
    ensures text { OnOk result (text.new.items ≡ text.old.items ++ text_of (declaration_words number words.old)) }
    ensures words { OnOk result (words.new ≡ behind_all 6 words.old) }
    ensures sectors { IfOk result (λ sectors. sectors ≡ mirror_size words.old) }
{
    text.extend_from_slice(b"disk d0 32768\ndisk d1 32768\ndisk d2 32768\ndisk d3 32768\n")?;
    add_limit(text, words, b"l0", b"d0")?;
    add_limit(text, words, b"l1", b"d1")?;
    add_limit(text, words, b"l2", b"d2")?;
    add_limit(text, words, b"l3", b"d3")?;
    let first = add_stripe(text, words, b"s0", b"l0", b"l1")?;
    let second = add_stripe(text, words, b"s1", b"l2", b"l3")?;
    text.extend_from_slice(b"mirror m s0 s1\n")?;
    add_memory(text, number)?;
    Ok(first.min(second))
}

// Adds that there is no memory, to the text of an odd number.
fn add_memory(text: &mut Vec<u8>, number: u64) -> Result<(), AllocError>
    ensures { OnOk result (text.new.items ≡ text.old.items ++ text_of (memory_words number)) }
{
    if number % 2 == 1 {
        text.extend_from_slice(b"memory none\n")
    } else {
        Ok(())
    }
}

// Adds a limit over a disk.
fn add_limit(
    text: &mut Vec<u8>,
    words: &mut Lcg64Xsh32,
    name: &[u8],
    disk: &[u8],
) -> Result<(), AllocError>
    ensures text { OnOk result
        (AddsLineOf (limit_words name.now disk.now (longest_in words.old)) text.old.items text.new.items) }
    ensures words { words.new ≡ behind words.old }
{
    let longest = 16 + pick(words, 241);
    let mut digits = Buffer::new();
    add(
        text,
        &[
            b"limit ",
            name,
            b" max=",
            digits.format(longest).as_bytes(),
            b" ",
            disk,
            b"\n",
        ],
    )
}

// Adds a stripe over two limits, and answers how many sectors it has.
fn add_stripe(
    text: &mut Vec<u8>,
    words: &mut Lcg64Xsh32,
    name: &[u8],
    first: &[u8],
    second: &[u8],
) -> Result<u64, AllocError>
    ensures text { OnOk result
        (AddsLineOf (stripe_words name.now first.now second.now (chunk_in words.old)) text.old.items text.new.items) }
    ensures size { IfOk result (λ sectors. sectors ≡ stripe_size (chunk_in words.old)) }
    ensures words { words.new ≡ behind words.old }
{
    let chunk = 8 * (1 + pick(words, 32));
    add_stripe_of(text, name, chunk, first, second)?;
    Ok(2 * chunk * (DISK_SECTORS / chunk))
}

// Adds a stripe of this chunk.
fn add_stripe_of<'a>(
    text: &mut Vec<u8>,
    name: &'a [u8],
    chunk: u64,
    first: &'a [u8],
    second: &'a [u8],
) -> Result<(), AllocError>
    ensures { OnOk result
        (AddsLineOf (stripe_words name.now first.now second.now chunk) text.old.items text.new.items) }
{
    let mut digits = Buffer::new();
    add(
        text,
        &[
            b"stripe ",
            name,
            b" chunk=",
            digits.format(chunk).as_bytes(),
            b" ",
            first,
            b" ",
            second,
            b"\n",
        ],
    )
}

// Adds the writes that fit this many sectors.
fn add_writes(text: &mut Vec<u8>, words: &mut Lcg64Xsh32, sectors: u64) -> Result<(), AllocError>
    requires { sectors ≤ 65536 }
    ensures { OnOk result (text.new.items ≡ text.old.items ++ text_of (fitting_writes sectors words.old)) }
{
    let mut number = 0;
    let mut start = 0;
    let mut count = 1 + pick(words, 512);
    while start + count <= sectors {
        add_write(text, number, start, count)?;
        start += count;
        number += 1;
        count = 1 + pick(words, 512);
    }
    Ok(())
}

// Adds the write of this number.
fn add_write(text: &mut Vec<u8>, number: u64, start: u64, count: u64) -> Result<(), AllocError>
    requires { start ≤ 65536 }
    ensures { OnOk result
        (AddsLineOf (write_words number (record { start = start; count = count })) text.old.items text.new.items) }
{
    let mut task = Buffer::new();
    let mut at = Buffer::new();
    let mut len = Buffer::new();
    let mut tag = Buffer::new();
    add(
        text,
        &[
            b"write ",
            task.format(number % 4).as_bytes(),
            b" m ",
            at.format(start).as_bytes(),
            b" ",
            len.format(count).as_bytes(),
            b" ",
            tag.format(64 * start).as_bytes(),
            b"\n",
        ],
    )
}
