//! What wakes workers that found nothing to do.
use std::sync::Wait;
use std::sync::atomic::{AtomicU64, Ordering};

/// A bell: who changed something rings. Who found nothing to do listens, looks round once more, and waits until it rings.
///
/// It rings only where somebody listens: an event that nobody waits for is one look at a word, which no thread changes then, and no step that all
/// processors must see.
///
/// No clause says that anybody is woken. Why no ring is lost: a change is rung after it was made, and a worker listens before it looks round
/// (every step on a word, those of an object's lock too, stands in one order of all threads).
///
/// - Where the ringer finds that a worker does not listen, that worker begins to listen later than the change, so it sees it when it looks round.
/// - Where it finds that the worker listens, it makes `rings` another number. A worker that read the bell later looks round later than the change.
///   For one that read it before, that is another number than it heard. The ringer then reads `sleepers`.
///   Where it finds some, it wakes all that sleep, and who is about to sleep finds another number.
///   Where it finds none, the worker counts itself only after that read, hence after the ring: so it finds another number, and does not sleep.
///
/// So it does not matter how many steps a worker makes at a task before it looks at the next one: each event is rung by itself, before the next
/// step, which may wait for others at its lock or at a gate.
///
/// `park` compares the low 32 bits alone. So a sleep would be begun wrongly only where a whole multiple of 2^32 rings falls between the read
/// and the sleep, in which a worker looks at each of its tasks once.
#[derive(Drop)]
pub struct Bell {
    // How often it rang, modulo 2^64.
    rings: AtomicU64,
    // How many workers listen.
    listeners: AtomicU64,
    // How many of them sleep, or are about to.
    sleepers: AtomicU64,
}

impl Bell {
    /// A bell that never rang.
    pub fn new() -> Bell {
        Bell {
            rings: AtomicU64::new(0),
            listeners: AtomicU64::new(0),
            sleepers: AtomicU64::new(0),
        }
    }

    /// Begins to listen, and tells how often it rang so far. A worker does so before it looks round once more.
    pub fn listen(&self) -> u64 {
        self.listeners.fetch_add(1, Ordering::SeqCst);
        self.rings.load(Ordering::SeqCst)
    }

    /// Listens no more.
    pub fn leave(&self) {
        self.listeners.fetch_sub(1, Ordering::SeqCst);
    }

    /// Rings where somebody listens, and wakes all that wait. It makes no system call where none does.
    pub fn ring(&self) {
        if self.listeners.load(Ordering::SeqCst) != 0 {
            self.ring_out();
        }
    }

    // Rings, and wakes all that wait.
    fn ring_out(&self) {
        self.rings.fetch_add(1, Ordering::SeqCst);
        if self.sleepers.load(Ordering::SeqCst) != 0 {
            self.rings.wake_all();
        }
    }

    /// Waits until it has rung more often than was heard, by one who listens. It may return for no reason, so who calls it looks round again.
    pub fn wait<R: Wait>(&self, rt: &R, heard: u64) {
        self.sleepers.fetch_add(1, Ordering::SeqCst);
        if self.rings.load(Ordering::SeqCst) == heard {
            self.rings.park(rt, (heard % (1 << 32)) as u32);
        }
        self.sleepers.fetch_sub(1, Ordering::SeqCst);
    }
}
