//! A pen that collects what it is told, hands it on in whole buffers, and falls silent at the first fault.
ghost use Rattle.std.specs.Prelude.{◌≡◌, ◌-◌, ◌<◌, ◌++◌, [], false, true, min, length, take, MatchResult};
ghost use Rattle.std.specs.List.{flat_map};
ghost use Rattle.outside_io.specs.Saying.{Says, Writes, emptied};

use crate::{Failed, Sink};
use arrayvec::ArrayVec;
use std::marker::Model;

/// How many bytes a pen collects.
const ROOM: usize = 8192;

// Puts the whole text, by as many puts as that takes, and nothing behind a fault.
#[tactic(auto, using(crate::proofs::PutLemmas::appends_next))]
fn put_all<K: Sink>(sink: &mut K, text: &[u8]) -> Result<(), Failed>
    ensures { Writes K.Sink sink.old sink.new result text.now }
{
    let mut at = 0;
    'putting: while at < text.len() {
        let (_, rest) = text.split_at(at);
        at += sink.put(rest)?;
    }
    Ok(())
}

/// Writes to a sink until the sink fails, and says nothing from then on.
///
/// So what has many parts is written straight through, with no exit at each of them. What the pen is told waits in a buffer of 8,192 bytes,
/// which takes no memory, and goes on to the sink where that is full: a put for each line of a trace would be a call of the system for
/// each event. So a line leaves later than its event. Whoever ends a text calls [`Pen::finish`], which hands on the rest: nothing can be said of
/// what a drop would write. What is pending is part of what the pen stands at, so the relation of one call composes with that of the next.
///
/// All calls of one text name the same sink.
#[derive(Drop)]
pub struct Pen {
    buffer: ArrayVec<u8, ROOM>,
    failed: bool,
}

impl Model for Pen {
    ghost use Rattle.outside_io.specs.Saying.{PenState};

    ghost Value = { PenState };

    ghost view = { λ pen. record { failed = pen.failed; pending = pen.buffer.items } };
}

impl Pen {
    /// A pen that has not failed and was told nothing.
    pub fn new() -> Self
        ensures { result ≡ emptied false }
    {
        Pen {
            buffer: ArrayVec::new(),
            failed: false,
        }
    }

    // Puts what is pending, unless a put has failed before.
    fn hand_on<K: Sink>(&mut self, sink: &mut K)
        ensures says { Says K.Sink sink.old self.old sink.new self.new [] }
        ensures handed { self.new.pending ≡ [] }
    {
        if !self.failed {
            self.failed = put_all(sink, self.buffer.as_slice()).is_err();
        }
        self.buffer.clear();
    }

    // Hands on what is pending if it fills the buffer.
    fn make_room<K: Sink>(&mut self, sink: &mut K)
        ensures says { Says K.Sink sink.old self.old sink.new self.new [] }
        ensures room { length self.new.pending < 8192 }
    {
        if self.buffer.is_full() {
            self.hand_on(sink);
        }
    }

    // Takes the front of a text that fits into the buffer, and answers how many bytes that are.
    fn fill(&mut self, text: &[u8]) -> usize
        ensures count { result ≡ min (length text.now) (8192 - length self.old.pending) }
        ensures pending { self.new.pending ≡ self.old.pending ++ take result text.now }
        ensures failed { self.new.failed ≡ self.old.failed }
    {
        let count = text.len().min(self.buffer.remaining_capacity());
        self.buffer.try_extend_from_slice(&text[..count]).unwrap();
        count
    }

    // Takes a text into the buffer, which is handed on as often as it is full.
    fn say<K: Sink>(&mut self, sink: &mut K, text: &[u8])
        ensures { Says K.Sink sink.old self.old sink.new self.new text.now }
    {
        let mut at = 0;
        'saying: while at < text.len() {
            self.make_room(sink);
            let (_, rest) = text.split_at(at);
            at += self.fill(rest);
        }
    }

    /// Tells the pen the parts of a text, one after the other. Where the buffer is full it goes on to the sink, unless the pen has failed before.
    pub fn put<K: Sink>(&mut self, sink: &mut K, parts: &[&[u8]])
        ensures { Says K.Sink sink.old self.old sink.new self.new (flat_map (λ part. part.now) parts.now) }
    {
        'parts: for part in parts {
            self.say(sink, part);
        }
    }

    /// Ends a text: hands on the rest of it, unless the pen has failed before.
    ///
    /// # Errors
    ///
    /// Exactly where a put of this pen has failed, now or before.
    pub fn finish<K: Sink>(&mut self, sink: &mut K) -> Result<(), Failed>
        ensures says { Says K.Sink sink.old self.old sink.new self.new [] }
        ensures handed { self.new.pending ≡ [] }
        ensures failed { MatchResult result (λ _. self.new.failed ≡ false) (λ _. self.new.failed ≡ true) }
    {
        self.hand_on(sink);
        if self.failed { Err(Failed) } else { Ok(()) }
    }
}
