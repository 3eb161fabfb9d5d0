//! Pools of notes: what they lend by their scripts and reserves, and their numbers.
use crate::asks::holds;
use crate::pool_calls::{
    Found, Numbers, Seen, are, close, give, open, resize, script_of, take, unseen, widen,
};
use fail_script::Script;
use mempool_core::Taken;
use stack_base::{DevId, PoolId};
use std::process::Abort;

// A pool whose script allows it takes ordinary memory.
fn allowed(rt: &(impl Abort + AllocGlobal)) -> Seen {
    let mut seen = unseen();
    let mut pool = open(rt, &mut seen, 2, &[], true);
    let element = take(&mut seen, &mut pool);
    give(&mut seen, &mut pool, element);
    close(&mut seen, pool);
    seen
}

const ALLOWED: &[(Found, Numbers)] = &[
    (Found::Opened, [2, 0, 0, 0]),
    (Found::Ordinary, [2, 1, 1, 0]),
    (Found::Given, [2, 0, 0, 0]),
    (Found::Closed(2, 1, 0), [2, 0, 0, 0]),
];

// A pool whose script refuses lends its spares, and then misses. It does not close while an element is out.
fn refused(rt: &(impl Abort + AllocGlobal)) -> Seen {
    let mut seen = unseen();
    let mut pool = open(rt, &mut seen, 1, &[], false);
    let element = take(&mut seen, &mut pool);
    drop(take(&mut seen, &mut pool));
    if let Some(mut pool) = close(&mut seen, pool) {
        give(&mut seen, &mut pool, element);
        close(&mut seen, pool);
    }
    seen
}

const REFUSED: &[(Found, Numbers)] = &[
    (Found::Opened, [1, 0, 0, 0]),
    (Found::Spare, [0, 1, 0, 0]),
    (Found::Missed(false), [0, 1, 0, 0]),
    (Found::Kept, [0, 1, 0, 0]),
    (Found::Given, [1, 0, 0, 0]),
    (Found::Closed(1, 0, 1), [1, 0, 0, 0]),
];

// A pool goes by its script.
fn scripted(rt: &(impl Abort + AllocGlobal)) -> Seen {
    let mut seen = unseen();
    let mut pool = open(rt, &mut seen, 1, &[true, false], false);
    let first = take(&mut seen, &mut pool);
    let second = take(&mut seen, &mut pool);
    give(&mut seen, &mut pool, first);
    give(&mut seen, &mut pool, second);
    let third = take(&mut seen, &mut pool);
    drop(take(&mut seen, &mut pool));
    if let Some(mut pool) = close(&mut seen, pool) {
        give(&mut seen, &mut pool, third);
        close(&mut seen, pool);
    }
    seen
}

const SCRIPTED: &[(Found, Numbers)] = &[
    (Found::Opened, [1, 0, 0, 0]),
    (Found::Ordinary, [1, 1, 1, 1]),
    (Found::Spare, [0, 2, 1, 2]),
    (Found::Given, [1, 1, 1, 2]),
    (Found::Given, [1, 0, 0, 2]),
    (Found::Spare, [0, 1, 0, 2]),
    (Found::Missed(false), [0, 1, 0, 2]),
    (Found::Kept, [0, 1, 0, 2]),
    (Found::Given, [1, 0, 0, 2]),
    (Found::Closed(1, 1, 2), [1, 0, 0, 2]),
];

// A take that misses uses up an entry. A share that is dropped stays out.
fn used_up(rt: &(impl Abort + AllocGlobal)) -> Seen {
    let mut seen = unseen();
    let mut pool = open(rt, &mut seen, 1, &[false, false, true], false);
    let element = take(&mut seen, &mut pool);
    drop(take(&mut seen, &mut pool));
    drop(take(&mut seen, &mut pool));
    give(&mut seen, &mut pool, element);
    close(&mut seen, pool);
    seen
}

const USED_UP: &[(Found, Numbers)] = &[
    (Found::Opened, [1, 0, 0, 0]),
    (Found::Spare, [0, 1, 0, 1]),
    (Found::Missed(true), [0, 1, 0, 2]),
    (Found::Ordinary, [0, 2, 1, 3]),
    (Found::Given, [1, 1, 1, 3]),
    (Found::Kept, [1, 1, 1, 3]),
];

// A pool lends what was laid aside only when it is resized.
fn laid_aside(rt: &(impl Abort + AllocGlobal)) -> Seen {
    let mut seen = unseen();
    let mut pool = open(rt, &mut seen, 1, &[], false);
    widen(rt, &mut pool, 3);
    let only = take(&mut seen, &mut pool);
    drop(take(&mut seen, &mut pool));
    give(&mut seen, &mut pool, only);
    resize(&mut seen, &mut pool, 3);
    for _ in 0..4 {
        drop(take(&mut seen, &mut pool));
    }
    seen
}

const LAID_ASIDE: &[(Found, Numbers)] = &[
    (Found::Opened, [1, 0, 0, 0]),
    (Found::Spare, [0, 1, 0, 0]),
    (Found::Missed(false), [0, 1, 0, 0]),
    (Found::Given, [1, 0, 0, 0]),
    (Found::Resized, [3, 0, 0, 0]),
    (Found::Spare, [2, 1, 0, 0]),
    (Found::Spare, [1, 2, 0, 0]),
    (Found::Spare, [0, 3, 0, 0]),
    (Found::Missed(false), [0, 3, 0, 0]),
];

// A pool is resized down and up again.
fn resized(rt: &(impl Abort + AllocGlobal)) -> Seen {
    let mut seen = unseen();
    let mut pool = open(rt, &mut seen, 1, &[], false);
    widen(rt, &mut pool, 3);
    resize(&mut seen, &mut pool, 3);
    let first = take(&mut seen, &mut pool);
    let second = take(&mut seen, &mut pool);
    give(&mut seen, &mut pool, first);
    give(&mut seen, &mut pool, second);
    resize(&mut seen, &mut pool, 1);
    let only = take(&mut seen, &mut pool);
    drop(take(&mut seen, &mut pool));
    give(&mut seen, &mut pool, only);
    widen(rt, &mut pool, 2);
    resize(&mut seen, &mut pool, 3);
    close(&mut seen, pool);
    seen
}

const RESIZED: &[(Found, Numbers)] = &[
    (Found::Opened, [1, 0, 0, 0]),
    (Found::Resized, [3, 0, 0, 0]),
    (Found::Spare, [2, 1, 0, 0]),
    (Found::Spare, [1, 2, 0, 0]),
    (Found::Given, [2, 1, 0, 0]),
    (Found::Given, [3, 0, 0, 0]),
    (Found::Resized, [1, 0, 0, 0]),
    (Found::Spare, [0, 1, 0, 0]),
    (Found::Missed(false), [0, 1, 0, 0]),
    (Found::Given, [1, 0, 0, 0]),
    (Found::Resized, [3, 0, 0, 0]),
    (Found::Closed(3, 0, 3), [3, 0, 0, 0]),
];

#[test]
fn pools_lend_by_their_scripts_and_reserves(rt: HostRuntime) {
    holds(&rt, are(&allowed(&rt), ALLOWED), "allowed");
    holds(&rt, are(&refused(&rt), REFUSED), "refused");
    holds(&rt, are(&scripted(&rt), SCRIPTED), "scripted");
    holds(&rt, are(&used_up(&rt), USED_UP), "used up");
    holds(&rt, are(&laid_aside(&rt), LAID_ASIDE), "laid aside");
    holds(&rt, are(&resized(&rt), RESIZED), "resized");
}

// The numbers of a pool that was laid out for two, of its element, and whether its script's tail allows takes.
fn numbers(rt: &(impl Abort + AllocGlobal)) -> [u64; 3] {
    let mut pool = open(rt, &mut unseen(), 1, &[], false);
    let tail = u64::from(pool.script().tail());
    let no = match pool.take() {
        Taken::Ordinary(element) | Taken::Spare(element) => element.no(),
        Taken::Miss { .. } => 0,
    };
    [u64::from(pool.no()), u64::from(no), tail]
}

/// An entry of a script of two that refuse and one that allows, with a tail that refuses, and whether it allows.
const ENTRIES: &[(u64, bool)] = &[
    (0, false),
    (1, false),
    (2, true),
    (3, false),
    (u64::MAX, false),
];

// Whether a script allows by its entries and then by its tail.
fn allows(script: &Script) -> bool {
    for (pos, allowed) in ENTRIES {
        if script.allows(*pos) != *allowed {
            return false;
        }
    }
    script.entries() == 3 && !script.tail()
}

const NUMBERS: &[(PoolId, u32)] = &[
    (PoolId::FsBios, 65),
    (PoolId::FsVecs, 64),
    (PoolId::Bios(DevId(0)), 0),
    (PoolId::Records(DevId(0)), 1),
    (PoolId::Bios(DevId(31)), 62),
    (PoolId::Records(DevId(31)), 63),
];

#[test]
fn pools_and_scripts_show_what_they_are(rt: HostRuntime) {
    for (pool, no) in NUMBERS {
        holds(&rt, pool.no() == *no, "the number of a pool");
    }
    holds(&rt, numbers(&rt) == [65, 65, 0], "a pool's own numbers");
    let script = script_of(&rt, &[false, false, true], false);
    holds(&rt, allows(&script), "the entries of a script");
}
