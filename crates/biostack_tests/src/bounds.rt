//! What the writes of made texts are bounded by, up to as much work as there may be, and texts of as many bytes as there may be. They show
//! that reading a text takes no more than its bytes and its writes do.
ghost use Rattle.stack_base.specs.Stack.{IsStack};

use crate::asks::{Case, all_hold, holds};
use crate::made::{Part, STORAGE, STORAGE_WRITES, text_of};
use crate::scenes::{are_writes, scene_of};
use layout_model::{Bounds, TooMuchWork, Write, bound};
use stack_base::{DevId, Stack};
use std::process::Abort;

/// A limit that makes each sector a piece, over a mirror of a mirror of one disk: 5 elements a sector.
const SECTOR_BY_SECTOR: Part = Part::Once(
    "disk a 262144\nmirror m a\nmirror n m\nlimit l max=1 n\nscript fs.bios +-+-+ +\n",
);

/// 102 writes of 10,241 elements, and 2,048 fragments.
const MOST_WRITES: Part = Part::Writes {
    dev: "l",
    lines: 102,
    from: 0,
    each: 2048,
};

/// A write behind those.
const NEXT_WRITE: Write = Write {
    task: 0,
    dev: DevId(3),
    start: 208_896,
    count: 2048,
    tag: 0,
};

/// A text, and the elements, the fragments and what is counted beside them.
struct Bound(&'static [Part], u64, u64, u64);

const BOUNDS: &[Bound] = &[
    Bound(&[SECTOR_BY_SECTOR, MOST_WRITES], 1_044_582, 208_896, 5),
    // The last four writes need 1,001, 1,001, 1,001 and 991 elements.
    Bound(
        &[
            SECTOR_BY_SECTOR,
            MOST_WRITES,
            Part::Writes {
                dev: "l",
                lines: 3,
                from: 208_896,
                each: 200,
            },
            Part::Once("write 0 l 209496 198 0\n"),
        ],
        1_048_576,
        209_694,
        5,
    ),
    // Two hundred writes to a mirror of stripes.
    Bound(&[STORAGE, STORAGE_WRITES], 1_874, 1_354, 0),
];

/// Texts of as many bytes as there may be.
const LONGEST: &[Bound] = &[
    // 151,289 lines and a last one without a byte 10: 100,000 writes, each of one sector, behind them 51,288 comments, and one more.
    Bound(
        &[
            Part::Once("disk a 262144\n"),
            Part::Writes {
                dev: "a",
                lines: 100_000,
                from: 0,
                each: 1,
            },
            Part::Times(51_288, "# a comment of forty-three bytes, no more.\n"),
            Part::Times(16, "#"),
        ],
        100_000,
        100_000,
        0,
    ),
    Bound(&[Part::Times(4_194_304, "\n")], 0, 0, 0),
    Bound(&[Part::Times(4_194_304, "#")], 0, 0, 0),
];

impl Case for Bound {
    fn holds(&self, rt: &(impl Abort + AllocGlobal)) -> bool {
        let Bound(parts, e, g, z) = *self;
        let text = text_of(rt, parts);
        let scene = scene_of(rt, text.as_str());
        scene.work.bound == (Bounds { e, g, z })
    }
}

// Whether these writes and 5 entries of scripts are bounded so.
fn has_bound(stack: &Stack, writes: &[Write], told: Result<Bounds, TooMuchWork>) -> bool
    requires { IsStack stack.now }
{
    are_writes(stack, writes) && bound(stack, writes, 5) == told
}

// Whether work is refused at the first write with which it is too much.
fn is_too_much(rt: &(impl Abort + AllocGlobal)) -> bool {
    let text = text_of(rt, &[SECTOR_BY_SECTOR, MOST_WRITES]);
    let scene = scene_of(rt, text.as_str());
    let allowed = Bounds {
        e: 1_044_582,
        g: 208_896,
        z: 5,
    };
    let refused = TooMuchWork {
        write: 102,
        e: 1_054_823,
    };
    let stack = &scene.accepted.stack;
    let mut writes = Vec::from_slice(rt.alloc(), &scene.work.writes).expect(rt, "no writes");
    let is_allowed = has_bound(stack, &writes, Ok(allowed));
    writes.push(NEXT_WRITE).expect(rt, "no writes");
    writes.push(NEXT_WRITE).expect(rt, "no writes");
    let is_refused = has_bound(stack, &writes, Err(refused));
    is_allowed && is_refused
}

#[test]
fn work_is_bounded_and_refused_where_it_is_too_much(rt: HostRuntime) {
    all_hold(&rt, BOUNDS);
    holds(&rt, is_too_much(&rt), "the write with which it is");
}

#[test]
fn texts_of_as_many_bytes_as_there_may_be_are_read(rt: HostRuntime) {
    for Bound(parts, ..) in LONGEST {
        let text = text_of(&rt, *parts);
        holds(&rt, text.len() == 4_194_304, "the bytes of the text");
    }
    all_hold(&rt, LONGEST);
}
