//! What the elements of the pools of bios hold.
ghost use Rattle.std.specs.Prelude.{◌≡◌, []};

use crate::bio::{Bio, Iter, Pad, Slip};
use crate::segment::{Segment, Vector};
use arrayvec::ArrayVec;
use elem_ledger::{Element, Fresh, Share};
use stack_base::{DevId, Range, SetId};

/// The memory of a bio: padding for its driver, the bio, and four segments (`bi_inline_vecs`).
pub struct BioBody<F: Drop> {
    /// In a list, the element behind this one, by its two parts (`bi_next`). Outside of a list there is none. It stands first, beside what a list
    /// and a disk read of a bio: so a long list costs one line of the cache for each bio that is moved.
    pub next: Option<(Box<BioBody<F>>, Share)>,
    pub pad: F,
    pub bio: Bio,
    pub short: ArrayVec<Segment, 4>,
}

/// A bio of one of the sets.
pub type BioElement = Element<BioBody<Pad>>;

/// A vector of the writers' set.
pub type VecElement = Element<Vector>;

/// A record of a mirror.
pub type SlipElement = Element<Slip>;

impl<F: Drop> Drop for BioBody<F> {
    // The elements of a list are dropped one after the other, and not one inside the other.
    fn drop(mut self) {
        loop {
            let BioBody {
                next,
                pad: _,
                bio: _,
                short: _,
            } = self;
            match next {
                None => return,
                Some((rest, _)) => self = Box::into_inner(rest),
            }
        }
    }
}

impl Fresh for BioBody<Pad> {
    ghost use Rattle.bio_records.specs.Clear.{IsClearBody};

    ghost is_clear = { IsClearBody };

    fn fresh() -> Self {
        BioBody {
            next: None,
            pad: Pad { leg: 0 },
            bio: Bio {
                write: 0,
                writer: 0,
                node: 0,
                dev: DevId(0),
                range: Range { start: 0, len: 0 },
                word: 0,
                at: Iter {
                    segment: 0,
                    done: 0,
                },
                set: SetId::Fs,
            },
            short: ArrayVec::new(),
        }
    }
}

impl Fresh for Vector {
    ghost use Rattle.bio_records.specs.Clear.{IsClearVector};

    ghost is_clear = { IsClearVector };

    fn fresh() -> Self {
        Vector {
            segments: ArrayVec::new(),
        }
    }
}

impl Fresh for Slip {
    ghost use Rattle.bio_records.specs.Clear.{IsClearSlip};

    ghost is_clear = { IsClearSlip };

    fn fresh() -> Self {
        Slip { legs: 0 }
    }
}
