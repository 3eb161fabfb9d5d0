//! The readers and writers of std as sources and sinks.
ghost use Rattle.std.specs.Prelude.{◌≡◌, ℕ, ◌<◌, ◌≤◌, length, take, IfOk, OnErr};
ghost use Rattle.std.specs.Io.KnownBytes.{Appends, Consumes, IsAtEnd, Keeps};
ghost use Rattle.outside_io.specs.Causes.{Counts, HasCause};
ghost use Rattle.outside_io.specs.StdEnds.{read_faults, reader, write_faults, writer};

use crate::{Failed, Sink, Source};
use std::io::{Read, Write};

/// Gives what a reader of std gives.
///
/// Each take is one read, and an error of it a fault, an interrupted read too. That it is one is in no clause, since std's traits tell of bytes and
/// count no calls; a test counts them.
#[derive(Drop)]
pub struct StdSource<R> {
    from: R,
    faults: u64,
}

impl<R: Read> StdSource<R> {
    /// A source of what the reader gives from here on.
    pub fn new(from: R) -> StdSource<R>
        ensures reader { reader result ≡ from }
        ensures faults { read_faults result ≡ 0 }
    {
        StdSource { from, faults: 0 }
    }
}

impl<R: Read> Source for StdSource<R> {
    ghost left = { λ source. R.remaining (reader source) };

    ghost faults = { read_faults };

    fn take(&mut self, into: &mut [u8]) -> Result<usize, Failed>
        requires { 0 < length into.old }
        ensures within { IfOk result (λ n. n ≤ length into.new) }
        ensures taken { IfOk result (λ n. Consumes
            (R.remaining (reader self.old)) (R.remaining (reader self.new)) (take n into.new)) }
        ensures end { IfOk result (λ n. n ≡ 0 → IsAtEnd (R.remaining (reader self.old))) }
        ensures err { OnErr result
            (Keeps (R.remaining (reader self.old)) (R.remaining (reader self.new))) }
        ensures cause { HasCause (read_faults self.old) (read_faults self.new) result }
        ensures counts { Counts (read_faults self.old) (read_faults self.new) result }
    {
        match self.from.read(into) {
            Ok(count) => Ok(count),
            Err(_) => Err(Failed::counted(&mut self.faults)),
        }
    }
}

/// Passes bytes on to a writer of std.
///
/// Each put is one write. An error of it is a fault, an interrupted write too, and so is a write of
/// no byte.
#[derive(Drop)]
pub struct StdSink<W> {
    to: W,
    faults: u64,
}

impl<W: Write> StdSink<W> {
    /// A sink that passes its bytes on to the writer.
    pub fn new(to: W) -> StdSink<W>
        ensures writer { writer result ≡ to }
        ensures faults { write_faults result ≡ 0 }
    {
        StdSink { to, faults: 0 }
    }
}

impl<W: Write> Sink for StdSink<W> {
    ghost held = { λ sink. W.contents (writer sink) };

    ghost faults = { write_faults };

    fn put(&mut self, piece: &[u8]) -> Result<usize, Failed>
        requires { 0 < length piece.now }
        ensures within { IfOk result (λ n. (1 ≤ n) × (n ≤ length piece.now)) }
        ensures appended { IfOk result (λ n. Appends
            (W.contents (writer self.old)) (W.contents (writer self.new)) (take n piece.now)) }
        ensures err { OnErr result
            (Keeps (W.contents (writer self.old)) (W.contents (writer self.new))) }
        ensures cause { HasCause (write_faults self.old) (write_faults self.new) result }
        ensures counts { Counts (write_faults self.old) (write_faults self.new) result }
    {
        match self.to.write(piece) {
            Ok(count) if count > 0 => Ok(count),
            _ => Err(Failed::counted(&mut self.faults)),
        }
    }
}
