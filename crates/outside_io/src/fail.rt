//! A source and a sink that fail at given calls, to try what stands above them.
ghost use Rattle.std.specs.Prelude.{◌≡◌, ℕ, ◌<◌, ◌≤◌, List, Some, length, take, IfOk, OnErr};
ghost use Rattle.std.specs.Io.KnownBytes.{Appends, Consumes, IsAtEnd, Keeps};
ghost use Rattle.outside_io.specs.Causes.{HasCause};
ghost use Rattle.outside_io.specs.Failing.{PutsOrFails, TakesOrFails, new_sink, new_source};

use crate::{Failed, MemSink, MemSource, Sink, Source};
use std::alloc::{AllocError, Global};
use std::marker::Model;

/// Gives the bytes of a vector, a few at a time, and fails at given calls.
#[derive(Drop)]
pub struct FailSource {
    source: MemSource,
    fails: Vec<u64>,
    most: usize,
    calls: u64,
    faults: u64,
}

impl Model for FailSource {
    ghost use Rattle.std.specs.Prelude.{◌≤◌};
    ghost use Rattle.outside_io.specs.Failing.{FailSourceState};

    ghost Value = { FailSourceState };

    ghost view = { λ s. record {
      left = s.source;
      fails = s.fails.items;
      most = s.most;
      calls = s.calls;
      faults = s.faults;
    } };

    ghost invariant = { λ s. 1 ≤ s.most };
}

impl FailSource {
    /// A source of these bytes, of which a call gives `most` at most. The calls whose numbers are
    /// in `fails` fail, and the first call has number 1.
    pub fn new(bytes: Vec<u8>, fails: Vec<u64>, most: usize) -> FailSource
        requires { 1 ≤ most }
        ensures { result ≡ new_source bytes.items fails.items most }
    {
        FailSource {
            source: MemSource::new(bytes),
            fails,
            most,
            calls: 0,
            faults: 0,
        }
    }
}

impl Source for FailSource {
    ghost left = { λ source. Some source.left };

    ghost faults = { λ source. source.faults };

    #[tactic(auto, using(crate::proofs::TakeLemmas::take_filled))]
    fn take(&mut self, into: &mut [u8]) -> Result<usize, Failed>
        requires { 0 < length into.old }
        ensures within { IfOk result (λ n. n ≤ length into.new) }
        ensures taken { IfOk result
            (λ n. Consumes (Some self.old.left) (Some self.new.left) (take n into.new)) }
        ensures end { IfOk result (λ n. n ≡ 0 → IsAtEnd (Some self.old.left)) }
        ensures err { OnErr result (Keeps (Some self.old.left) (Some self.new.left)) }
        ensures cause { HasCause self.old.faults self.new.faults result }
        ensures exact { TakesOrFails self.old self.new into.old into.new result }
    {
        self.calls = self.calls.saturating_add(1);
        if self.fails.contains(&self.calls) {
            return Err(Failed::counted(&mut self.faults));
        }
        Ok(self.source.give(into, self.most))
    }
}

/// Holds the bytes that are put into it, a few at a time and up to a room that is fixed when it is
/// made, and fails at given calls.
#[derive(Drop)]
pub struct FailSink {
    sink: MemSink,
    fails: Vec<u64>,
    most: usize,
    calls: u64,
}

impl Model for FailSink {
    ghost use Rattle.std.specs.Prelude.{◌≤◌};
    ghost use Rattle.outside_io.specs.Failing.{FailSinkState};

    ghost Value = { FailSinkState };

    ghost view = { λ s. record {
      held = s.sink.held;
      room = s.sink.room;
      fails = s.fails.items;
      most = s.most;
      calls = s.calls;
      faults = s.sink.faults;
    } };

    ghost invariant = { λ s. 1 ≤ s.most };
}

impl FailSink {
    /// A sink that holds nothing, with room for `room` bytes, of which a call takes `most` at most.
    /// The calls whose numbers are in `fails` fail, and the first call has number 1.
    ///
    /// # Errors
    ///
    /// Where there is no memory for the room.
    pub fn new(
        alloc: Global,
        room: usize,
        fails: Vec<u64>,
        most: usize,
    ) -> Result<FailSink, AllocError>
        requires { 1 ≤ most }
        ensures { IfOk result (λ sink. sink ≡ new_sink room fails.items most) }
    {
        Ok(FailSink {
            sink: MemSink::new(alloc, room)?,
            fails,
            most,
            calls: 0,
        })
    }

    /// The bytes that were put into it.
    pub fn held(&self) -> &[u8]
        ensures bytes { result.now ≡ self.now.held }
        ensures within { length result.now ≤ self.now.room }
    {
        self.sink.held()
    }
}

impl Sink for FailSink {
    ghost held = { λ sink. Some sink.held };

    ghost faults = { λ sink. sink.faults };

    fn put(&mut self, piece: &[u8]) -> Result<usize, Failed>
        requires { 0 < length piece.now }
        ensures within { IfOk result (λ n. (1 ≤ n) × (n ≤ length piece.now)) }
        ensures appended { IfOk result
            (λ n. Appends (Some self.old.held) (Some self.new.held) (take n piece.now)) }
        ensures err { OnErr result (Keeps (Some self.old.held) (Some self.new.held)) }
        ensures cause { HasCause self.old.faults self.new.faults result }
        ensures exact { PutsOrFails self.old self.new piece.now result }
    {
        self.calls = self.calls.saturating_add(1);
        if self.fails.contains(&self.calls) {
            return Err(self.sink.fail());
        }
        let count = piece.len().min(self.most);
        self.sink.put(&piece[..count])
    }
}
