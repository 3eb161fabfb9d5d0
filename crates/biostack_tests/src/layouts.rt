//! Layouts that were worked out by hand: where the sectors of a write go, and what the write needs.
ghost use Rattle.stack_base.specs.Stack.{IsStack};
ghost use Rattle.layout_model.specs.Writes.{IsWrite};

use crate::asks::{Case, all_hold};
use crate::scenes::{Scene, is_write, scene_of};
use crate::slow::is_way;
use layout_model::{Bounds, Fragment, Write, fragments, need, place};
use stack_base::{DevId, Stack};
use std::process::Abort;

/// A text of one write, and what was worked out for it.
struct Layout {
    text: &'static str,
    /// For each fragment the offset, the length, the disk, and the sector there.
    fragments: &'static [(u64, u64, u32, u64)],
    elements: u64,
    nodes: u64,
    /// The most steps of a run of the text.
    steps: u64,
}

const LAYOUTS: &[Layout] = &[
    // A stripe cuts at the ends of its chunks.
    Layout {
        text: "disk a 64\ndisk b 64\nstripe s chunk=8 a b\nwrite 0 s 5 20 0\n",
        fragments: &[(0, 3, 0, 5), (3, 8, 1, 0), (11, 8, 0, 8), (19, 1, 1, 8)],
        elements: 4,
        nodes: 4,
        steps: 40,
    },
    // A zoned device goes on round the members that have chunks left.
    Layout {
        text: "disk a 16\ndisk b 32\ndisk c 20\nzoned z a b c chunk=8\nwrite 0 z 40 16 0\n",
        fragments: &[(0, 8, 2, 8), (8, 8, 1, 16)],
        elements: 2,
        nodes: 2,
        steps: 20,
    },
    // A zone begins at its own first member.
    Layout {
        text: "disk a 8\ndisk b 16\ndisk c 16\nzoned z a b c chunk=8\nwrite 0 z 24 16 0\n",
        fragments: &[(0, 8, 1, 8), (8, 8, 2, 8)],
        elements: 2,
        nodes: 2,
        steps: 20,
    },
    // A zoned device over members of one size is a stripe.
    Layout {
        text: "disk a 64\ndisk b 64\nzoned s chunk=8 a b\nwrite 0 s 5 20 0\n",
        fragments: &[(0, 3, 0, 5), (3, 8, 1, 0), (11, 8, 0, 8), (19, 1, 1, 8)],
        elements: 4,
        nodes: 4,
        steps: 40,
    },
    // A limit cuts by length from the last boundary on.
    Layout {
        text: "disk a 64\nlimit l max=3 chunk=8 a\nwrite 0 l 6 10 0\n",
        fragments: &[(0, 2, 0, 6), (2, 3, 0, 8), (5, 3, 0, 11), (8, 2, 0, 14)],
        elements: 4,
        nodes: 4,
        steps: 40,
    },
    // A limit without a chunk cuts by length alone.
    Layout {
        text: "disk a 64\nlimit l max=3 a\nwrite 0 l 6 10 0\n",
        fragments: &[(0, 3, 0, 6), (3, 3, 0, 9), (6, 3, 0, 12), (9, 1, 0, 15)],
        elements: 4,
        nodes: 4,
        steps: 40,
    },
    // A linear device cuts at the end of a member.
    Layout {
        text: "disk a 8\ndisk b 8\nlinear n a b\nwrite 0 n 6 4 0\n",
        fragments: &[(0, 2, 0, 6), (2, 2, 1, 0)],
        elements: 2,
        nodes: 2,
        steps: 20,
    },
    // A mirror copies.
    Layout {
        text: "disk a 64\ndisk b 64\nmirror m a b\nwrite 0 m 6 4 0\n",
        fragments: &[(0, 4, 0, 6), (0, 4, 1, 6)],
        elements: 4,
        nodes: 4,
        steps: 36,
    },
    // A mirror whose second leg is cut.
    Layout {
        text: "disk a 64\ndisk b 64\nlimit l max=3 chunk=8 b\nmirror m a l\nwrite 0 m 6 10 0\n",
        fragments: &[
            (0, 10, 0, 6),
            (0, 2, 1, 6),
            (2, 3, 1, 8),
            (5, 3, 1, 11),
            (8, 2, 1, 14),
        ],
        elements: 7,
        nodes: 7,
        steps: 66,
    },
    // Mirrors over mirrors.
    Layout {
        text: "disk a 64\ndisk b 64\ndisk c 64\ndisk d 64\nmirror x a b\nmirror y x c\nmirror z y d\nwrite 0 z 0 8 0\n",
        fragments: &[(0, 8, 0, 0), (0, 8, 1, 0), (0, 8, 2, 0), (0, 8, 3, 0)],
        elements: 10,
        nodes: 10,
        steps: 88,
    },
    // Four segments have room in a bio.
    Layout {
        text: "disk a 4096\nwrite 0 a 1 32 0\n",
        fragments: &[(0, 32, 0, 1)],
        elements: 1,
        nodes: 1,
        steps: 10,
    },
    // A fifth segment takes a vector.
    Layout {
        text: "disk a 4096\nwrite 0 a 1 33 0\n",
        fragments: &[(0, 33, 0, 1)],
        elements: 2,
        nodes: 1,
        steps: 18,
    },
    // A whole page of segments.
    Layout {
        text: "disk a 4096\nwrite 0 a 0 2048 0\n",
        fragments: &[(0, 2048, 0, 0)],
        elements: 2,
        nodes: 1,
        steps: 18,
    },
    // Entries of scripts are counted in the steps.
    Layout {
        text: "disk a 64\nlimit l max=1 a\nscript l.bios +- -\nscript fs.vecs --- +\nwrite 0 l 0 4 0\n",
        fragments: &[(0, 1, 0, 0), (1, 1, 0, 1), (2, 1, 0, 2), (3, 1, 0, 3)],
        elements: 4,
        nodes: 4,
        steps: 45,
    },
];

// Whether these fragments of write 7 are those of the layout.
fn are_its(found: &[Fragment], layout: &Layout) -> bool {
    for (fragment, (offset, len, disk, at)) in found.iter().zip(layout.fragments) {
        let wanted = Fragment {
            write: 7,
            offset: *offset,
            len: *len,
            disk: DevId(*disk),
            at: *at,
        };
        if *fragment != wanted {
            return false;
        }
    }
    found.len() == layout.fragments.len()
}

// Whether a write has the fragments of a layout, and needs as much.
fn is_laid_out(
    rt: &(impl Abort + AllocGlobal),
    stack: &Stack,
    write: &Write,
    layout: &Layout,
) -> bool
    requires stack { IsStack stack.now }
    requires write { IsWrite stack.now write.now }
{
    let found = fragments(rt.alloc(), stack, 7, write).expect(rt, "no fragments");
    let are_its = are_its(&found, layout);
    let needs = need(stack, write);
    are_its
        && needs.elements == layout.elements
        && needs.nodes == layout.nodes
        && needs.fragments == layout.fragments.len() as u64
}

// Whether the steps of a run are bounded by this number.
fn is_bounded(bound: Bounds, steps: u64) -> bool {
    bound.e < 1000 && bound.g < 1000 && bound.z < 1000 && bound.total() == steps
}

// Whether the one write of a text is laid out so.
fn has_layout(rt: &(impl Abort + AllocGlobal), scene: &Scene, layout: &Layout) -> bool
    requires { IsStack scene.now.accepted.stack }
{
    let stack = &scene.accepted.stack;
    let [write] = scene.work.writes.as_slice() else {
        return false;
    };
    is_bounded(scene.work.bound, layout.steps)
        && is_write(stack, write)
        && is_laid_out(rt, stack, write, layout)
}

impl Case for Layout {
    fn holds(&self, rt: &(impl Abort + AllocGlobal)) -> bool {
        has_layout(rt, &scene_of(rt, self.text), self)
    }
}

const STRIPE: &str = "disk a 64\ndisk b 64\nstripe s chunk=8 a b\n";

const LINEAR: &str = "disk a 8\ndisk b 8\nlinear n a b\n";

const MIRROR: &str = "disk a 64\ndisk b 64\nmirror m a b\n";

const MIRRORS: &str =
    "disk a 64\ndisk b 64\ndisk c 64\ndisk d 64\nmirror x a b\nmirror y x c\nmirror z y d\n";

/// A device of a text, a sector of it, the choices on its way, and where it lies.
struct Spot(&'static str, u32, u64, &'static [u32], (u32, u64));

const PLACES: &[Spot] = &[
    Spot(STRIPE, 2, 17, &[], (0, 9)),
    Spot(STRIPE, 2, 15, &[], (1, 7)),
    Spot(STRIPE, 2, 127, &[], (1, 63)),
    Spot(LINEAR, 2, 7, &[], (0, 7)),
    Spot(LINEAR, 2, 8, &[], (1, 0)),
    Spot("disk a 64\nlimit l max=3 chunk=8 a\n", 1, 9, &[], (0, 9)),
    Spot(MIRROR, 2, 9, &[0], (0, 9)),
    Spot(MIRROR, 2, 9, &[1], (1, 9)),
    Spot(
        "disk a 64\ndisk b 64\nlimit l max=3 chunk=8 b\nmirror m a l\n",
        3,
        9,
        &[1],
        (1, 9),
    ),
    Spot(MIRRORS, 6, 9, &[0, 0, 1], (1, 9)),
    Spot(MIRRORS, 6, 9, &[0, 1], (2, 9)),
    Spot(MIRRORS, 6, 9, &[1], (3, 9)),
];

impl Case for Spot {
    fn holds(&self, rt: &(impl Abort + AllocGlobal)) -> bool {
        let Spot(text, dev, sector, choices, (disk, at)) = *self;
        let scene = scene_of(rt, text);
        let stack = &scene.accepted.stack;

        is_way(stack, DevId(dev), sector, choices)
            && place(stack, DevId(dev), sector, choices) == (DevId(disk), at)
    }
}

#[test]
fn writes_and_sectors_lie_where_they_were_worked_out(rt: HostRuntime) {
    all_hold(&rt, LAYOUTS);
    all_hold(&rt, PLACES);
}
