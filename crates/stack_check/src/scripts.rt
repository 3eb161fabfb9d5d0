//! The scripts that the lines so far give to pools.
ghost use Rattle.std.specs.Prelude.{◌≡◌, ◌+◌, ◌<◌, ◌≤◌, [], ◌∷◌, ◌++◌, All, IfOk, length, nat_lt, sum_by, IfSome};
ghost use Rattle.stack_base.specs.PoolId.{pool_number};
ghost use Rattle.std.specs.List.{list_any};
ghost use Rattle.decl_text.specs.Checks.{has_script, is_of_pool};

use fail_script::Script;
use stack_base::PoolId;
use std::alloc::{AllocError, Global};
use std::marker::Model;

/// The entries that all scripts may have together.
const MOST_ENTRIES: u64 = 65_536;

/// A pool and its script.
#[derive(Drop)]
pub(crate) struct Scripted {
    pub(crate) pool: PoolId,
    pub(crate) script: Script,
}

impl Model for Scripted {
    ghost use Rattle.decl_text.specs.Known.{Scripted as GivenScript};

    ghost Value = { GivenScript };

    ghost view = { λ scripted. record { pool = scripted.pool; script = scripted.script } };
}

/// Scripts in the order of their lines.
#[derive(Drop)]
pub(crate) struct Scripts {
    given: Vec<Scripted>,
    /// How many entries they have together.
    entries: u64,
}

impl Model for Scripts {
    ghost use Rattle.std.specs.Prelude.{◌≡◌, ◌≤◌, List, All, length, sum_by};
    ghost use Rattle.stack_base.specs.PoolId.{pool_number};
    ghost use Rattle.decl_text.specs.Known.{Scripted as GivenScript};

    ghost Value = { List GivenScript };

    ghost view = { λ scripts. scripts.given.items };

    ghost invariant = { λ scripts. All (λ s. pool_number s.pool ≤ 65) scripts.given.items × (scripts.entries ≡ sum_by (λ s. length s.script.entries) scripts.given.items) × (scripts.entries ≤ 65536) };
}

impl Scripts {
    /// No script.
    pub(crate) fn new(alloc: Global) -> Scripts
        ensures { result ≡ [] }
    {
        Scripts {
            given: Vec::new(alloc),
            entries: 0,
        }
    }

    /// All of them, in the order of their lines.
    pub(crate) fn into_given(self) -> Vec<Scripted>
        ensures scripts { result.items ≡ self }
        ensures small { All (λ s. pool_number s.pool ≤ 65) result.items }
    {
        self.given
    }

    /// Whether the pool, if there is one, has a script.
    pub(crate) fn has(&self, pool: Option<PoolId>) -> bool
        requires { IfSome pool (λ p. pool_number p ≤ 65) }
        ensures { result ≡ has_script self.now pool }
    {
        match pool {
            Some(pool) => self.has_one(pool),
            None => false,
        }
    }

    /// Whether the pool has one.
    fn has_one(&self, pool: PoolId) -> bool
        requires { pool_number pool ≤ 65 }
        ensures { result ≡ list_any (is_of_pool pool) self.now }
    {
        let number = pool.no();
        self.given
            .iter()
            .any(|scripted| scripted.pool.no() == number)
    }

    /// Whether there is no room for so many entries more.
    pub(crate) fn has_no_room(&self, entries: u64) -> bool
        ensures { result ≡ nat_lt 65536 (sum_by (λ s. length s.script.entries) self.now + entries) }
    {
        entries > MOST_ENTRIES - self.entries
    }

    /// Gives the pool its script, for whose entries there is room.
    pub(crate) fn push(&mut self, pool: PoolId, script: Script) -> Result<(), AllocError>
        requires pool { pool_number pool ≤ 65 }
        requires room { sum_by (λ s. length s.script.entries) self.old + length script.entries ≤ 65536 }
        ensures { IfOk result (λ _. self.new ≡ self.old ++ record { pool = pool; script = script } ∷ []) }
    {
        let entries = script.entries();
        self.given.push(Scripted { pool, script })?;
        self.entries += entries;
        Ok(())
    }
}
