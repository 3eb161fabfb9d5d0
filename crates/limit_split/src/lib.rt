//! Devices that limit how long a piece is, as the queue limits of Linux 6.1 do (`bio_split_rw`, `block/blk-merge.c`). No call takes
//! memory.
#![tactic(auto)]

ghost use Rattle.std.specs.Prelude.{◌≡◌, ◌≤◌, ◌∷◌, []};
ghost use Rattle.stack_base.specs.Stack.{HasShape};

use stack_base::{Kind, MapLaw, Piece};
use std::marker::Model;

/// A device that limits the length of pieces and lets none cross a multiple of `chunk`, where that is not 0, seen as its numbers
/// (`max_sectors` and `chunk_sectors` of `struct queue_limits`, `include/linux/blkdev.h`).
#[derive(Drop)]
pub struct Limit {
    max: u64,
    chunk: u64,
    size: u64,
}

impl Model for Limit {
    ghost use Rattle.limit_split.specs.Numbers.{LimitNumbers, IsLimit};

    ghost Value = { LimitNumbers };

    ghost view = { λ l. record { longest = l.max; chunk = l.chunk; sectors = l.size } };

    ghost invariant = { λ l. IsLimit (record { longest = l.max; chunk = l.chunk; sectors = l.size }) };
}

impl Limit {
    /// A device over one member of `size` sectors, as an accepted stack has it: pieces have at most `max` sectors, of which there is 1 or
    /// more, and cross no multiple of `chunk`, where that is not 0; the member has no more than 262,144 sectors.
    pub fn new(max: u64, chunk: u64, size: u64) -> Limit
        requires shape { HasShape (Kind.Limit max chunk) 1 }
        requires small { size ≤ 262144 }
        ensures kind { ⟦<Limit as MapLaw>⟧.kind result ≡ Kind.Limit max chunk }
        ensures sizes { ⟦<Limit as MapLaw>⟧.sizes result ≡ size ∷ [] }
    {
        Limit { max, chunk, size }
    }
}

impl MapLaw for Limit {
    ghost use Rattle.std.specs.Prelude.{◌∷◌, []};
    ghost use Rattle.stack_base.specs.declared.stack.Kind.TheVariants.{Limit as LimitKind};

    ghost kind = { λ l. LimitKind l.longest l.chunk };

    ghost sizes = { λ l. l.sectors ∷ [] };

    /// How many sectors its member has.
    fn size(&self) -> u64 {
        self.size
    }

    /// The first piece of a run is as long as the limit lets it be: up to the next multiple of `chunk`, where that is not 0, and up to the
    /// run's end (`get_max_io_size`, `block/blk-merge.c`).
    fn piece(&self, start: u64, len: u64) -> Piece {
        let longest = if self.chunk == 0 {
            self.max
        } else {
            self.max.min(self.chunk - start % self.chunk)
        };
        Piece {
            len: longest.min(len),
            member: 0,
            at: start,
        }
    }
}
