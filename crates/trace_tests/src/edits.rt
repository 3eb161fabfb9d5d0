//! Edits of lines at each place. Whatever event is read of one is written as just that line.
ghost use Rattle.std.specs.Prelude.{◌<◌, length};
ghost use Rattle.trace_text.specs.Names.{DevicesAreNamed};

use crate::lines::{MIRROR, OTHERS, RUN, is_event};
use crate::stacks::stack_of;
use stack_base::Stack;
use std::alloc::{AllocError, Global};
use std::process::Abort;
use std::test::Fail;

/// The bytes that a byte is changed to.
const BYTES: &[u8] = b" 01a.mbk";

/// How many of the edited lines are events, as a reader by one regular expression says.
const EVENTS: u64 = 777;

// The line without the byte at this place.
fn without(alloc: Global, line: &[u8], place: usize) -> Result<Vec<u8>, AllocError>
    requires { place < length line.now }
{
    let mut edited = Vec::from_slice(alloc, line)?;
    edited.remove(place);
    Ok(edited)
}

// The line with the byte at this place twice.
fn doubled(alloc: Global, line: &[u8], place: usize) -> Result<Vec<u8>, AllocError>
    requires { place < length line.now }
{
    let mut edited = Vec::from_slice(alloc, line)?;
    edited.insert(place, line[place])?;
    Ok(edited)
}

// The line with this byte at this place.
fn changed(alloc: Global, line: &[u8], place: usize, byte: u8) -> Result<Vec<u8>, AllocError>
    requires { place < length line.now }
{
    let mut edited = Vec::from_slice(alloc, line)?;
    edited[place] = byte;
    Ok(edited)
}

// How many lines with another byte at this place are events.
fn changes(
    rt: &(impl Abort + AllocGlobal),
    stack: &Stack,
    line: &[u8],
    place: usize,
) -> Result<u64, Fail>
    requires named { DevicesAreNamed stack.now }
    requires within { place < length line.now }
{
    let mut events: u64 = 0;
    for byte in BYTES {
        let edited = changed(rt.alloc(), line, place, *byte)?;
        events = events.saturating_add(u64::from(is_event(rt, stack, &edited)));
    }
    Ok(events)
}

// How many of the edits at this place are events.
fn edits_at(
    rt: &(impl Abort + AllocGlobal),
    stack: &Stack,
    line: &[u8],
    place: usize,
) -> Result<u64, Fail>
    requires named { DevicesAreNamed stack.now }
    requires within { place < length line.now }
{
    let shorter = without(rt.alloc(), line, place)?;
    let longer = doubled(rt.alloc(), line, place)?;
    let events = u64::from(is_event(rt, stack, &shorter)).saturating_add(u64::from(is_event(
        rt, stack, &longer,
    )));
    Ok(events.saturating_add(changes(rt, stack, line, place)?))
}

// How many edits of this line are events.
fn edits(rt: &(impl Abort + AllocGlobal), stack: &Stack, line: &[u8]) -> Result<u64, Fail>
    requires { DevicesAreNamed stack.now }
{
    let mut events: u64 = 0;
    for place in 0..line.len() {
        events = events.saturating_add(edits_at(rt, stack, line, place)?);
    }
    Ok(events)
}

// How many edits of these lines are events.
fn all_edits(rt: &(impl Abort + AllocGlobal), stack: &Stack, lines: &[&str]) -> Result<u64, Fail>
    requires { DevicesAreNamed stack.now }
{
    let mut events: u64 = 0;
    for line in lines {
        events = events.saturating_add(edits(rt, stack, line.as_bytes())?);
    }
    Ok(events)
}

#[test]
fn what_is_read_of_an_edited_line_is_written_as_that_line(rt: HostRuntime) -> Result<(), Fail> {
    let accepted = stack_of(rt.alloc(), MIRROR)?;
    let events = all_edits(&rt, &accepted.stack, RUN)?;
    let others = all_edits(&rt, &accepted.stack, OTHERS)?;
    assert_eq!(rt; events.saturating_add(others), EVENTS);
    Ok(())
}
