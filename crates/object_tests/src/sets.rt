//! Sets of pools, and what their elements hold.
ghost use Rattle.std.specs.Prelude.{◌≡◌, ◌<◌, ◌^◌, None};
ghost use Rattle.stack_base.specs.PoolId.{pool_number};
ghost use Rattle.bioset_pools.specs.Sets.{IsPlan, bios_of};

use crate::asks::{Case, all_hold, holds};
use crate::bios::{bio_of, element_of, one};
use crate::task_lists::lists_with;
use bio_records::SlipElement;
use bioset_pools::{BioSet, SetParts, SetPlan, clear_bio, first_is_try};
use fail_script::Script;
use mempool_core::{Fresh, Pool, Taken};
use stack_base::{DevId, Range, SetId};
use std::process::Abort;

// What a pool shows: its reserve, the number of an element that it lends, and whether that is a spare. It is given back.
fn lends<P: Fresh + Drop>(pool: &mut Pool<P>) -> [u64; 3] {
    let min = pool.facts().min;
    let (element, spares) = match pool.take() {
        Taken::Ordinary(element) => (element, 0),
        Taken::Spare(element) => (element, 1),
        Taken::Miss { .. } => return [min, 0, 2],
    };
    let number = u64::from(element.no());
    pool.give(element);
    [min, number, spares]
}

/// What a set has: its bios, as its pool shows them; its vectors, if it has some; and the bios that wait for its rescuer, if it has one.
type Shown = ([u64; 3], Option<[u64; 3]>, Option<u64>);

/// A device, the reserve of bios of its set, whether that has a rescuer, and what it has.
struct Set(u32, u32, bool, Shown);

const SETS: &[Set] = &[
    Set(31, 5, true, ([5, 62, 0], None, Some(0))),
    Set(0, 2, false, ([2, 0, 0], None, None)),
];

// Opens a set whose bios may have ordinary memory, and whose vectors may not.
fn open(rt: &(impl Abort + AllocGlobal), plan: SetPlan) -> SetParts
    requires plan { IsPlan plan }
    requires number { pool_number (bios_of plan.set) < 2 ^ 32 }
{
    let allowed = Script::new(Vec::new(rt.alloc()), true);
    let refused = Script::new(Vec::new(rt.alloc()), false);
    let opened = BioSet::open(rt.alloc(), plan, allowed, refused);
    opened.expect(rt, "no set").parts()
}

// The plan of the set of a device.
fn plan_of(dev: u32, bios: u32, rescuer: bool) -> SetPlan
    ensures { result ≡ record { set = SetId.Of (record { 0 = dev }); bios = bios; vecs = None; rescuer = rescuer } }
{
    SetPlan {
        set: SetId::Of(DevId(dev)),
        bios,
        vecs: None,
        rescuer,
    }
}

/// The writers' set, of one bio and three vectors.
const WRITERS: SetPlan = SetPlan {
    set: SetId::Fs,
    bios: 1,
    vecs: Some(3),
    rescuer: false,
};

// What a set has.
fn shown(set: SetParts) -> Shown {
    let SetParts {
        mut bios,
        vecs,
        list,
    } = set;
    let vecs = match vecs {
        Some(mut pool) => Some(lends(&mut pool)),
        None => None,
    };
    let waits = match list {
        Some(list) => Some(list.len()),
        None => None,
    };
    (lends(&mut bios), vecs, waits)
}

impl Case for Set {
    fn holds(&self, rt: &(impl Abort + AllocGlobal)) -> bool {
        let Set(dev, bios, rescuer, wanted) = *self;
        dev < 32 && bios > 0 && shown(open(rt, plan_of(dev, bios, rescuer))) == wanted
    }
}

/// Whether a set has a rescuer, the writes in the two lists of a task, and whether its first attempt does not wait.
struct Try(bool, &'static [u32], &'static [u32], bool);

const TRIES: &[Try] = &[
    Try(false, &[], &[], false),
    Try(true, &[], &[], false),
    Try(false, &[1], &[1], false),
    Try(true, &[1], &[], true),
    Try(true, &[], &[1], true),
    Try(true, &[1], &[1], true),
];

impl Case for Try {
    // Whether the first attempt does not wait exactly where a task is busy.
    fn holds(&self, rt: &(impl Abort + AllocGlobal)) -> bool {
        let plan = plan_of(0, 2, self.0);
        let lists = lists_with(rt, self.1, self.2);
        first_is_try(&plan, &lists) == self.3
    }
}

// Whether a bio that is cleared stays of its pool.
fn clears(rt: &(impl Abort + AllocGlobal)) -> bool {
    let bio = bio_of(7, Range { start: 3, len: 2 }, 5);
    let mut element = element_of(rt, bio);
    let filled = element.body.bio;
    clear_bio(&mut element);
    let cleared = element.body.bio;
    filled == bio && cleared == bio_of(0, Range { start: 0, len: 0 }, 0) && element.no() == 65
}

#[test]
fn sets_have_their_pools(rt: HostRuntime) {
    let writers = shown(open(&rt, WRITERS));
    holds(
        &rt,
        writers == ([1, 65, 0], Some([3, 64, 1]), None),
        "the writers' set",
    );
    all_hold(&rt, SETS);
    all_hold(&rt, TRIES);
    holds(&rt, clears(&rt), "a bio that is cleared");
    let slip: SlipElement = one(&rt, 1);
    holds(&rt, slip.body.legs == 0, "a record has no legs yet");
}
