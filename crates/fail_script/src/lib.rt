//! Scripts of memory: which attempts of a pool at ordinary memory may succeed, so that a run can ask for a shortage of it.
//!
//! Linux has nothing like it but for fault injection (`failslab`, `mm/failslab.c`), which refuses allocations by chance or by count.
#![tactic(auto)]

ghost use Rattle.std.specs.Prelude.{◌≡◌, ℕ, ◌≤◌};
ghost use Rattle.fail_script.specs.Script.{allows_at, entries_of};

use std::marker::Model;

/// Which takes of a pool may have ordinary memory, by their position.
///
/// Each of the first takes has an entry of its own, and the tail answers for all takes behind them. Contracts see a script as its answers, a list
/// and a tail, since its vector is its own affair.
#[derive(Drop)]
pub struct Script {
    entries: Vec<bool>,
    tail: bool,
}

impl Model for Script {
    ghost use Rattle.fail_script.specs.Script.{Answers};

    ghost Value = { Answers };

    ghost view = { λ s. record { entries = s.entries.items; tail = s.tail } };
}

impl Script {
    /// The script with these entries, the first take's first, and this tail.
    pub fn new(entries: Vec<bool>, tail: bool) -> Script
        ensures { result ≡ record { entries = entries.items; tail = tail } }
    {
        Script { entries, tail }
    }

    /// Whether the take at position `pos`, counted from 0, may have ordinary memory.
    pub fn allows(&self, pos: u64) -> bool
        ensures { result ≡ allows_at self.now pos }
    {
        self.entries.get(pos as usize).copied().unwrap_or(self.tail)
    }

    /// How many entries the script has.
    pub fn entries(&self) -> u64
        ensures { result ≡ entries_of self.now }
    {
        self.entries.len() as u64
    }

    /// The answer for all takes behind the entries.
    pub fn tail(&self) -> bool
        ensures tail { result ≡ self.now.tail }
        ensures decides { (pos : ℕ) → entries_of self.now ≤ pos → allows_at self.now pos ≡ result }
    {
        self.tail
    }
}
