//! Calls of a pool of notes: what each finds, and the numbers of the pool behind it.
ghost use Rattle.std.specs.Prelude.{◌≡◌, ◌≤◌, max, IfSome};

use crate::elements::Note;
use fail_script::Script;
use mempool_core::{Element, Facts, Pool, Taken};
use std::process::Abort;

/// What a call of a pool was, or what a take found.
#[derive(Clone, Copy, PartialEq, Eq)]
pub enum Found {
    Opened,
    Ordinary,
    Spare,
    /// Whether an entry was used up.
    Missed(bool),
    Given,
    Resized,
    /// It was asked to close while an element was out, and came back.
    Kept,
    /// It closed: its reserve, and how many takes had ordinary memory, and how many a spare.
    Closed(u64, u64, u64),
}

/// The spares of a pool, its elements that are out and live, and its script's position.
pub type Numbers = [u64; 4];

/// The calls of a pool, and its numbers behind each.
#[derive(Clone, Copy)]
pub struct Seen {
    calls: [(Found, Numbers); 16],
    count: usize,
}

/// No calls.
pub fn unseen() -> Seen {
    Seen {
        calls: [(Found::Opened, [0; 4]); 16],
        count: 0,
    }
}

// Notes a call of a pool that had these facts behind it.
fn note(seen: &mut Seen, found: Found, facts: Facts) {
    if let Some(call) = seen.calls.get_mut(seen.count) {
        *call = (found, [facts.spares, facts.out, facts.live, facts.pos]);
        seen.count = seen.count.saturating_add(1);
    }
}

/// A script of these entries.
pub fn script_of(rt: &(impl Abort + AllocGlobal), entries: &[bool], tail: bool) -> Script {
    let entries = Vec::from_slice(rt.alloc(), entries);
    Script::new(entries.expect(rt, "no entries"), tail)
}

// A pool of the number 65 with this reserve of notes and this script.
fn open_pool(rt: &(impl Abort + AllocGlobal), min: u32, script: Script) -> Pool<Note>
    requires { 1 ≤ min }
    ensures { result.most ≡ min }
{
    Pool::open(rt.alloc(), 65, min, script).expect(rt, "no pool")
}

/// A pool with this reserve of notes and a script of these entries. The opening is noted.
pub fn open(
    rt: &(impl Abort + AllocGlobal),
    seen: &mut Seen,
    min: u32,
    entries: &[bool],
    tail: bool,
) -> Pool<Note>
    requires { 1 ≤ min }
    ensures { result.most ≡ min }
{
    let pool = open_pool(rt, min, script_of(rt, entries, tail));
    note(seen, Found::Opened, pool.facts());
    pool
}

/// The next element, if there is one.
pub fn take(seen: &mut Seen, pool: &mut Pool<Note>) -> Option<Element<Note>>
    ensures most { pool.new.most ≡ pool.old.most }
    ensures ledger { pool.new.ledger ≡ pool.old.ledger }
    ensures element { IfSome result (λ element. element.share ≡ pool.old.ledger) }
{
    let (found, element) = match pool.take() {
        Taken::Ordinary(element) => (Found::Ordinary, Some(element)),
        Taken::Spare(element) => (Found::Spare, Some(element)),
        Taken::Miss { used } => (Found::Missed(used), None),
    };
    note(seen, found, pool.facts());
    element
}

/// Gives an element back, if there is one.
pub fn give(seen: &mut Seen, pool: &mut Pool<Note>, element: Option<Element<Note>>)
    requires { IfSome element (λ element. element.share ≡ pool.old.ledger) }
    ensures most { pool.new.most ≡ pool.old.most }
    ensures ledger { pool.new.ledger ≡ pool.old.ledger }
{
    if let Some(element) = element {
        pool.give(element);
    }
    note(seen, Found::Given, pool.facts());
}

/// Resizes a pool that nothing is out of.
pub fn resize(seen: &mut Seen, pool: &mut Pool<Note>, min: u32)
    requires some { 1 ≤ min }
    requires within { min ≤ pool.old.most }
    ensures most { pool.new.most ≡ pool.old.most }
    ensures ledger { pool.new.ledger ≡ pool.old.ledger }
{
    if pool.facts().out == 0 {
        pool.resize(min);
    }
    note(seen, Found::Resized, pool.facts());
}

/// Lays elements aside in a pool, so that its reserve can be as many.
pub fn widen(rt: &impl Abort, pool: &mut Pool<Note>, most: u32)
    ensures most { pool.new.most ≡ max pool.old.most most }
    ensures ledger { pool.new.ledger ≡ pool.old.ledger }
{
    assert!(rt; pool.facts().out == 0);
    pool.widen(most).expect(rt, "no elements");
}

/// Closes a pool, or has it back.
pub fn close(seen: &mut Seen, pool: Pool<Note>) -> Option<Pool<Note>>
    ensures { IfSome result (λ kept. kept ≡ pool) }
{
    match pool.close() {
        Ok(facts) => {
            let closed = Found::Closed(facts.min, facts.ordinary, facts.spare);
            note(seen, closed, facts);
            None
        }
        Err(pool) => {
            note(seen, Found::Kept, pool.facts());
            Some(pool)
        }
    }
}

/// Whether the calls of a pool are these.
pub fn are(seen: &Seen, wanted: &[(Found, Numbers)]) -> bool {
    seen.calls.get(..seen.count) == Some(wanted)
}
