//! The heads of lists by ticket: which list has the smallest one.
//!
//! They are a tournament of the lists, as a tree in a vector: node 1 is the root, those below node n are 2n and 2n + 1, and the leaf of list k is
//! node `count + k`. Each inner node has the head of the two below it that comes first. So a list that goes on plays again on its way to the root
//! alone, which is the logarithm of the number of lists.
ghost use Rattle.std.specs.Prelude.{◌≡◌, ◌+◌, ◌*◌, ◌<◌, ◌≤◌, [], ℕ, IfOk, length, slice_index_or, slice_set};
ghost use Rattle.run_merge.specs.Heads.{AreHeadsAdded, TakesHead, IsTournament, IsTournamentBut, IsTournamentAt, winner_of, head_at, node_head, rows, smaller, smaller_below};

use std::alloc::{AllocError, Global};

/// The first element of a list that was not taken yet.
#[derive(Clone, Copy)]
pub(crate) struct Head {
    /// Its ticket; none where all are taken.
    pub(crate) ticket: Option<u64>,
    /// Which list.
    pub(crate) list: usize,
    /// Its place there.
    pub(crate) at: usize,
}

// The head of a list from this place on.
fn head_at<T>(lists: &[Vec<(u64, T)>], list: usize, at: usize) -> Head
    requires { list < length lists.now }
    ensures { result ≡ head_at (rows lists.now) list at }
{
    let ticket = match lists[list].get(at) {
        Some(entry) => Some(entry.0),
        None => None,
    };
    Head { ticket, list, at }
}

// Which of two heads comes first.
fn smaller(first: Head, second: Head) -> Head
    ensures { result ≡ smaller first second }
{
    match (first.ticket, second.ticket) {
        (Some(ticket), Some(other)) => { if other < ticket { second } else { first } }
        (Some(_), None) | (None, None) => first,
        (None, Some(_)) => second,
    }
}

// Adds the heads of all lists.
fn add_heads<T>(lists: &[Vec<(u64, T)>], nodes: &mut Vec<Head>) -> Result<(), AllocError>
    ensures { IfOk result (λ _. AreHeadsAdded (rows lists.now) nodes.old.items nodes.new.items) }
{
    'adding: for list in 0..lists.len() {
        nodes.push(head_at(lists, list, 0))?;
    }
    Ok(())
}

// Plays the match at an inner node.
fn play(nodes: &mut Vec<Head>, number: usize)
    requires { 2 * number + 1 < length nodes.old.items }
    ensures { nodes.new.items ≡ slice_set nodes.old.items number (smaller_below nodes.old.items number) }
{
    nodes[number] = smaller(nodes[2 * number], nodes[2 * number + 1]);
}

/// The tournament of lists of which nothing was taken.
pub(crate) fn open_heads<T>(alloc: Global, lists: &[Vec<(u64, T)>]) -> Result<Vec<Head>, AllocError>
    ensures { IfOk result (λ nodes. IsTournamentAt (rows lists.now) (λ list. 0) nodes.items) }
{
    let count = lists.len();
    let mut nodes = Vec::with_capacity(alloc, count.saturating_mul(2))?;
    add_heads(lists, &mut nodes)?;
    add_heads(lists, &mut nodes)?;
    'playing: for number in (1..count).rev() {
        play(&mut nodes, number);
    }
    Ok(nodes)
}

// Plays again all matches above a leaf.
fn replay(nodes: &mut Vec<Head>, leaf: usize, count: usize)
    requires leaf { (1 ≤ leaf) × (count ≤ leaf) × (leaf < count + count) }
    requires holds { IsTournamentBut count nodes.old.items leaf }
    ensures holds { IsTournament count nodes.new.items }
    ensures leaves { (number : ℕ) → count ≤ number → node_head nodes.new.items number ≡ node_head nodes.old.items number }
{
    let mut number = leaf;
    'replaying: while number > 1 {
        number /= 2;
        play(nodes, number);
    }
}

/// The head that comes first, if not all is taken.
pub(crate) fn winner_of(nodes: &[Head]) -> Option<Head>
    ensures { result ≡ winner_of nodes.now }
{
    match nodes.get(1) {
        Some(head) => match head.ticket {
            Some(_) => Some(*head),
            None => None,
        },
        None => None,
    }
}

/// Takes the head of a list, and answers what stood there.
pub(crate) fn take<T: Copy>(lists: &[Vec<(u64, T)>], nodes: &mut Vec<Head>, head: Head) -> T
    requires list { head.list < length lists.now }
    requires at { head.at < length (slice_index_or (rows lists.now) head.list []) }
    requires holds { IsTournament (length lists.now) nodes.old.items }
    ensures taken { TakesHead (rows lists.now) head nodes.old.items nodes.new.items }
    ensures value { result ≡ (slice_index_or (slice_index_or (rows lists.now) head.list []) head.at (0, result)).1 }
{
    let count = lists.len();
    let leaf = count + head.list;
    let entry = &lists[head.list][head.at];
    nodes[leaf] = head_at(lists, head.list, head.at + 1);
    replay(nodes, leaf, count);
    entry.1
}
