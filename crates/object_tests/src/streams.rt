//! Readers and writers of std as sources and sinks, and reading up to a limit.
ghost use Rattle.std.specs.Prelude.{◌<◌, length};

use crate::asks::holds;
use outside_io::{Failed, MemSource, Sink, Source, StdSink, StdSource, read_up_to};
use std::cell::Cell;
use std::io::{self, ErrorKind, Read, Write};
use std::process::Abort;

/// What a take or a put answers.
type Answer = Result<usize, Failed>;

// What three takes of pieces of this length answer.
fn takes<S: Source + Drop>(mut source: S, piece: &mut [u8]) -> [Answer; 3]
    requires { 0 < length piece.old }
{
    let first = source.take(piece);
    let second = source.take(piece);
    [first, second, source.take(piece)]
}

// What puts of these two pieces answer.
fn puts<K: Sink + Drop>(mut sink: K, first: &[u8], second: &[u8]) -> [Answer; 2]
    requires first { 0 < length first.now }
    requires second { 0 < length second.now }
{
    let first = sink.put(first);
    [first, sink.put(second)]
}

// What is read of these bytes up to a limit, and how many bytes are taken then.
fn read(rt: &(impl Abort + AllocGlobal), bytes: &[u8], limit: usize) -> (Vec<u8>, Answer) {
    let bytes = Vec::from_slice(rt.alloc(), bytes).expect(rt, "no bytes");
    let mut source = MemSource::new(bytes);
    let text = read_up_to(rt.alloc(), &mut source, limit).expect(rt, "no text");
    (text, source.take(&mut [0; 16]))
}

// A reader of many bytes that gives one at a time, and counts how often it is read; and a writer of the same kind.
#[derive(Drop)]
struct OneByOne<'a> {
    calls: &'a Cell<u64>,
}

impl Read for OneByOne<'_> {
    fn read(&mut self, buf: &mut [u8]) -> io::Result<usize> {
        self.calls.set(self.calls.get().saturating_add(1));
        Ok(buf.len().min(1))
    }
}

impl Write for OneByOne<'_> {
    fn write(&mut self, buf: &[u8]) -> io::Result<usize> {
        self.calls.set(self.calls.get().saturating_add(1));
        Ok(buf.len().min(1))
    }

    fn flush(&mut self) -> io::Result<()> {
        Ok(())
    }
}

// A reader and a writer that fail once and work from then on.
#[derive(Drop)]
struct FailsOnce {
    kind: ErrorKind,
    failed: bool,
}

impl Read for FailsOnce {
    fn read(&mut self, _buf: &mut [u8]) -> io::Result<usize> {
        if self.failed {
            return Ok(0);
        }
        self.failed = true;
        Err(io::Error::from(self.kind))
    }
}

impl Write for FailsOnce {
    fn write(&mut self, buf: &[u8]) -> io::Result<usize> {
        if self.failed {
            return Ok(buf.len());
        }
        self.failed = true;
        Err(io::Error::from(self.kind))
    }

    fn flush(&mut self) -> io::Result<()> {
        Ok(())
    }
}

// One that fails once by an error of this kind.
fn failing(kind: ErrorKind) -> FailsOnce {
    FailsOnce {
        kind,
        failed: false,
    }
}

// Whether a source of std reads once a call, and a sink writes once.
fn call_once() -> bool {
    let calls = Cell::new(0);
    let taken = takes(StdSource::new(OneByOne { calls: &calls }), &mut [0; 4]);
    let read = calls.get();
    let put = puts(StdSink::new(OneByOne { calls: &calls }), b"abcd", b"abcd");
    taken == [Ok(1); 3] && read == 3 && put == [Ok(1); 2] && calls.get() == 5
}

// Whether an error of this kind is a fault, and is not tried again.
fn fails_once(kind: ErrorKind) -> bool {
    takes(StdSource::new(failing(kind)), &mut [0; 4]) == [Err(Failed), Ok(0), Ok(0)]
        && puts(StdSink::new(failing(kind)), b"abc", b"abc") == [Err(Failed), Ok(3)]
}

#[test]
fn readers_and_writers_of_std_are_sources_and_sinks(rt: HostRuntime) {
    let (text, left) = read(&rt, b"0123456789", 4);
    let is_front = text.as_slice() == b"0123".as_slice();
    holds(&rt, is_front && left == Ok(6), "reading stops at the limit");
    let taken = takes(StdSource::new(b"abc".as_slice()), &mut [0; 2]);
    holds(&rt, taken == [Ok(2), Ok(1), Ok(0)], "a slice is a source");
    let put = puts(StdSink::new(Vec::new(rt.alloc())), b"abc", b"d");
    holds(&rt, put == [Ok(3), Ok(1)], "a vector is a sink");
    let mut room = [0; 2];
    let put = puts(StdSink::new(room.as_mut_slice()), b"abc", b"c");
    holds(&rt, put == [Ok(2), Err(Failed)], "no byte taken is a fault");
    holds(&rt, call_once(), "one call of std for one");
    holds(&rt, fails_once(ErrorKind::Interrupted), "an interrupt");
    holds(&rt, fails_once(ErrorKind::Other), "another error");
}
