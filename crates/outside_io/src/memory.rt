//! A source and a sink in memory.
ghost use Rattle.std.specs.Prelude.{◌≡◌, ℕ, ◌<◌, ◌≤◌, List, [], ◌++◌, Some, min, length, take, drop, IfOk, OnErr};
ghost use Rattle.std.specs.Io.KnownBytes.{Appends, Consumes, IsAtEnd, Keeps};
ghost use Rattle.outside_io.specs.Causes.{HasCause, risen};
ghost use Rattle.outside_io.specs.Memory.{PutsIntoMemory, TakesFromMemory};

use crate::{Failed, Sink, Source};
use std::alloc::{AllocError, Global};
use std::marker::Model;

/// Gives the bytes of a vector, as many at a time as are asked for, and never fails.
#[derive(Drop)]
pub struct MemSource {
    bytes: Vec<u8>,
    at: usize,
}

impl Model for MemSource {
    ghost use Rattle.std.specs.Prelude.{ℕ, ◌≤◌, List, drop, vec_len};

    ghost Value = { List ℕ };

    ghost view = { λ source. drop source.at source.bytes.items };

    ghost invariant = { λ source. source.at ≤ vec_len source.bytes };
}

impl MemSource {
    /// A source of these bytes.
    pub fn new(bytes: Vec<u8>) -> MemSource
        ensures { result ≡ bytes.items }
    {
        MemSource { bytes, at: 0 }
    }

    // Moves the next bytes to the front of `into`, `most` of them at most, and answers how many.
    pub(crate) fn give(&mut self, into: &mut [u8], most: usize) -> usize
        ensures count { result ≡ min (min (length into.old) most) (length self.old) }
        ensures filled { into.new ≡ take result self.old ++ drop result into.old }
        ensures left { self.new ≡ drop result self.old }
    {
        let (_, left) = self.bytes.split_at(self.at);
        let count = into.len().min(most).min(left.len());
        into[..count].copy_from_slice(&left[..count]);
        self.at += count;
        count
    }
}

impl Source for MemSource {
    ghost left = { λ source. Some source };

    ghost faults = { λ _. 0 };

    #[tactic(auto, using(crate::proofs::TakeLemmas::take_filled))]
    fn take(&mut self, into: &mut [u8]) -> Result<usize, Failed>
        requires { 0 < length into.old }
        ensures within { IfOk result (λ n. n ≤ length into.new) }
        ensures taken { IfOk result
            (λ n. Consumes (Some self.old) (Some self.new) (take n into.new)) }
        ensures end { IfOk result (λ n. n ≡ 0 → IsAtEnd (Some self.old)) }
        ensures err { OnErr result (Keeps (Some self.old) (Some self.new)) }
        ensures cause { HasCause 0 0 result }
        ensures exact { TakesFromMemory self.old self.new into.old into.new result }
    {
        let most = into.len();
        Ok(self.give(into, most))
    }
}

/// Holds the bytes that are put into it, up to a room that is fixed when it is made.
#[derive(Drop)]
pub struct MemSink {
    bytes: Vec<u8>,
    room: usize,
    faults: u64,
}

impl Model for MemSink {
    ghost use Rattle.std.specs.Prelude.{◌≤◌, vec_len};
    ghost use Rattle.std.specs.Vec.{vec_capacity};
    ghost use Rattle.outside_io.specs.Memory.{MemSinkState};

    ghost Value = { MemSinkState };

    ghost view = { λ sink. record {
      held = sink.bytes.items;
      room = sink.room;
      faults = sink.faults;
    } };

    ghost invariant = { λ sink.
        (vec_len sink.bytes ≤ sink.room) × (sink.room ≤ vec_capacity sink.bytes) };
}

impl MemSink {
    /// A sink that holds nothing, with room for `room` bytes.
    ///
    /// # Errors
    ///
    /// Where there is no memory for the room.
    pub fn new(alloc: Global, room: usize) -> Result<MemSink, AllocError>
        ensures { IfOk result (λ sink. sink ≡ record { held = []; room = room; faults = 0 }) }
    {
        let bytes = Vec::with_capacity(alloc, room)?;
        Ok(MemSink {
            bytes,
            room,
            faults: 0,
        })
    }

    /// The bytes that were put into it.
    pub fn held(&self) -> &[u8]
        ensures bytes { result.now ≡ self.now.held }
        ensures within { length result.now ≤ self.now.room }
    {
        &self.bytes
    }

    // Counts one more fault.
    pub(crate) fn fail(&mut self) -> Failed
        ensures state { self.new ≡ record self.old { faults = risen self.old.faults } }
        ensures later { self.old.faults ≤ self.new.faults }
    {
        Failed::counted(&mut self.faults)
    }
}

impl Sink for MemSink {
    ghost held = { λ sink. Some sink.held };

    ghost faults = { λ sink. sink.faults };

    fn put(&mut self, piece: &[u8]) -> Result<usize, Failed>
        requires { 0 < length piece.now }
        ensures within { IfOk result (λ n. (1 ≤ n) × (n ≤ length piece.now)) }
        ensures appended { IfOk result
            (λ n. Appends (Some self.old.held) (Some self.new.held) (take n piece.now)) }
        ensures err { OnErr result (Keeps (Some self.old.held) (Some self.new.held)) }
        ensures cause { HasCause self.old.faults self.new.faults result }
        ensures exact { PutsIntoMemory self.old self.new piece.now result }
    {
        let count = piece.len().min(self.room - self.bytes.len());
        if count == 0 {
            return Err(self.fail());
        }
        self.bytes.extend_from_slice(&piece[..count]).unwrap();
        Ok(count)
    }
}
