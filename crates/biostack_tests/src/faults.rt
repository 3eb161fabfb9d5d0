//! A fault of the source or of a sink at every call that the program makes of them.
mod alone;
mod by_workers;

use crate::calls::{ROOM, owned, words_of};
use crate::workers::make_call_by;
use bio_workers::NoGate;
use biostack_top::biostack;
use outside_io::{FailSink, FailSource, Sink};
use std::process::Abort;
use std::sync::Wait;
use std::thread::Threads;

const READ_FAULT: &[u8] = b"biostack: read fault\n";

const WRITE_FAULT: &[u8] = b"biostack: write fault\n";

/// A call of the program: its words, the text, and what it writes and ends with where nothing fails.
#[derive(Clone, Copy)]
pub struct Call<'a> {
    pub words: &'a [&'a str],
    pub text: &'a str,
    pub output: &'a str,
    pub status: u8,
}

/// The calls at which the source and the sinks fail, counted from 1 (0: none); how many bytes the output has room for, and how many it
/// takes a call. The others give and take one byte a call.
#[derive(Clone, Copy, Debug)]
struct Faults {
    source: u64,
    out: u64,
    errors: u64,
    room: usize,
    most: usize,
}

/// No faults, where the output takes one byte a call.
const NONE: Faults = Faults {
    source: 0,
    out: 0,
    errors: 0,
    room: 2 * ROOM,
    most: 1,
};

/// The status of a call, and how many bytes the output and errors have, or nothing where they are not the first ones of their texts.
type Outcome = (u8, Option<usize>, Option<usize>);

// The number of a call, alone.
fn at(rt: &(impl Abort + AllocGlobal), number: u64) -> Vec<u64> {
    Vec::from_slice(rt.alloc(), &[number]).expect(rt, "no number")
}

// A sink that takes so many bytes a call, and fails at one call.
fn sink(rt: &(impl Abort + AllocGlobal), room: usize, number: u64, most: usize) -> FailSink {
    FailSink::new(rt.alloc(), room, at(rt, number), most.max(1)).expect(rt, "no sink")
}

// A source of a text that gives one byte a call, and fails at one call.
fn source(rt: &(impl Abort + AllocGlobal), text: &str, number: u64) -> FailSource {
    FailSource::new(owned(rt, text.as_bytes()), at(rt, number), 1)
}

// The line on errors of a status.
fn fault_line(status: u8) -> &'static [u8] {
    match status {
        4 => READ_FAULT,
        5 => WRITE_FAULT,
        _ => b"",
    }
}

// How long the front of a text is that these bytes are, or nothing where they are none.
fn front_of(text: &[u8], bytes: &[u8]) -> Option<usize> {
    if text.starts_with(bytes) {
        Some(bytes.len())
    } else {
        None
    }
}

// Makes a call with these faults.
fn outcome(
    rt: &(impl Abort + AllocGlobal + Threads + Wait + Sync),
    call: Call<'_>,
    faults: Faults,
) -> Outcome {
    let words = words_of(rt, call.words);
    let mut source = source(rt, call.text, faults.source);
    let mut out = sink(rt, faults.room, faults.out, faults.most);
    let mut errors = sink(rt, ROOM, faults.errors, 1);
    let exit = biostack(
        rt,
        rt.alloc(),
        &words,
        &mut source,
        &mut out,
        &mut errors,
        &mut NoGate::new(),
    );
    let output = front_of(call.output.as_bytes(), out.held());
    let line = front_of(fault_line(exit.0), errors.held());
    (exit.0, output, line)
}

// A call with these faults has to end with this status, and to write so many bytes to the output and to errors.
fn ends(
    rt: &(impl Abort + AllocGlobal + Threads + Wait + Sync),
    call: Call<'_>,
    faults: Faults,
    (status, output, line): (u8, usize, usize),
) {
    let found = outcome(rt, call, faults);
    assert_eq!(rt; found, (status, Some(output), Some(line)), "{faults:?}");
}

// The outcome of a call that meets no fault.
fn whole(call: Call<'_>) -> (u8, usize, usize) {
    (call.status, call.output.len(), 0)
}

/// A source that fails at any call ends with 4.
pub fn source_fails(rt: &(impl Abort + AllocGlobal + Threads + Wait + Sync), call: Call<'_>) {
    // One byte a call, and one call that meets the end.
    let calls = call.text.len() as u64 + 1;
    for source in 1..calls + 1 {
        ends(
            rt,
            call,
            Faults { source, ..NONE },
            (4, 0, READ_FAULT.len()),
        );
    }
    let source = calls + 1;
    ends(rt, call, Faults { source, ..NONE }, whole(call))
}

/// An output that fails at any call ends with 5, and holds what it was given before.
pub fn output_fails(rt: &(impl Abort + AllocGlobal + Threads + Wait + Sync), call: Call<'_>) {
    for before in 0..call.output.len() {
        let out = before as u64 + 1;
        ends(
            rt,
            call,
            Faults { out, ..NONE },
            (5, before, WRITE_FAULT.len()),
        );
    }
    let out = call.output.len() as u64 + 1;
    ends(rt, call, Faults { out, ..NONE }, whole(call))
}

/// An output that is full at any byte ends with 5, and holds what it had room for.
pub fn output_is_full(rt: &(impl Abort + AllocGlobal + Threads + Wait + Sync), call: Call<'_>) {
    let most = ROOM;
    for room in 0..call.output.len() {
        let faults = Faults { room, most, ..NONE };
        ends(rt, call, faults, (5, room, WRITE_FAULT.len()));
    }
    let room = call.output.len();
    ends(rt, call, Faults { room, most, ..NONE }, whole(call))
}

/// Errors that fail hold a front of their line, and change nothing else.
pub fn errors_fail(rt: &(impl Abort + AllocGlobal + Threads + Wait + Sync), call: Call<'_>) {
    for held in 0..READ_FAULT.len() {
        let faults = Faults {
            source: 1,
            errors: held as u64 + 1,
            ..NONE
        };
        ends(rt, call, faults, (4, 0, held));
    }
    let faults = Faults {
        out: 3,
        errors: 4,
        ..NONE
    };
    ends(rt, call, faults, (5, 2, 3))
}

/// The output of a call that meets no fault.
pub fn output_of(
    rt: &(impl Abort + AllocGlobal + Threads + Wait + Sync),
    words: &[&str],
    text: &str,
) -> String {
    let done = make_call_by(rt, words, text.as_bytes(), 2 * ROOM, &mut NoGate::new());
    String::from_utf8_lossy(rt.alloc(), done.output.held()).expect(rt, "no output")
}
