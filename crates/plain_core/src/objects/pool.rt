//! Pools as numbers.
ghost use Rattle.std.specs.Prelude.{◌≡◌, ◌<◌, MatchBool};
ghost use Rattle.mempool_core.specs.Facts.{AddsUp};
ghost use Rattle.mempool_core.specs.Move.{opened, gives, resizes, CanMove, after_move};
ghost use Rattle.plain_core.specs.objects.Questions.{TellsSpare};
ghost use Rattle.plain_core.specs.objects.Pools.{move_of, uses, CanTake};

use fail_script::Script;
use mempool_core::Facts;
use std::marker::Model;
use task_core::Got;

/// A pool with its script and its numbers, and without bodies.
#[derive(Drop)]
pub struct Pool {
    script: Script,
    facts: Facts,
}

impl Model for Pool {
    ghost use Rattle.mempool_core.specs.Facts.{AddsUp};
    ghost use Rattle.mempool_core.specs.Move.{PoolState};

    ghost Value = { PoolState };

    ghost view = { λ p. record { script = p.script; facts = p.facts } };

    ghost invariant = { λ p. AddsUp p.facts };
}

impl Pool {
    /// A full pool with this reserve.
    pub fn new(reserve: u32, script: Script) -> Pool
        ensures { result ≡ opened reserve script }
    {
        let reserve = u64::from(reserve);
        Pool {
            script,
            facts: Facts {
                min: reserve,
                spares: reserve,
                out: 0,
                live: 0,
                pos: 0,
                ordinary: 0,
                spare: 0,
            },
        }
    }

    /// A pool with this script and these numbers.
    pub fn of(script: Script, facts: Facts) -> Pool
        requires { AddsUp facts }
        ensures { result ≡ record { script = script; facts = facts } }
    {
        Pool { script, facts }
    }

    // Whether a take uses up an entry of the script.
    fn uses(&self) -> bool
        ensures { result ≡ uses self.now }
    {
        self.facts.pos < self.script.entries()
    }

    /// Whether a take can have this, and an event tells it.
    pub fn can_take(&self, waits: bool, got: Got) -> bool
        ensures { MatchBool result (CanTake self.now waits got) (CanTake self.now waits got → ⊥) }
    {
        match got {
            Got::Ordinary => self.script.allows(self.facts.pos) && self.facts.out < u64::MAX,
            Got::Spare => self.facts.spares > 0 && self.facts.out < u64::MAX,
            Got::Missed => {
                (self.facts.spares == 0 || self.facts.out == u64::MAX) && (!waits || self.uses())
            }
        }
    }

    /// Whether a take can have a spare.
    pub fn has_spare(&self) -> bool
        ensures { TellsSpare result self.now }
    {
        self.facts.spares > 0 && self.facts.out < u64::MAX
    }

    /// A take that had this: an element of ordinary memory, a spare, or none, where it missed. Whatever it had, it uses up
    /// an entry of the script, while there are any (`mempool_alloc`, `mm/mempool.c`).
    pub fn take(&mut self, got: Got)
        requires { CanMove self.old (move_of self.old got) }
        ensures { self.new ≡ after_move self.old (move_of self.old got) }
    {
        if self.facts.pos < self.script.entries() {
            self.facts.pos += 1;
        }
        match got {
            Got::Ordinary => {
                self.facts.out += 1;
                self.facts.live += 1;
                self.facts.ordinary = self.facts.ordinary.saturating_add(1);
            }
            Got::Spare => {
                self.facts.spares -= 1;
                self.facts.out += 1;
                self.facts.spare = self.facts.spare.saturating_add(1);
            }
            Got::Missed => {}
        }
    }

    /// How many elements are out.
    pub fn out(&self) -> u64
        ensures { result ≡ self.now.facts.out }
    {
        self.facts.out
    }

    /// The numbers.
    pub fn facts(&self) -> Facts
        ensures { result ≡ self.now.facts }
    {
        self.facts
    }

    /// Gives an element back (`mempool_free`, `mm/mempool.c`).
    pub fn give(&mut self)
        requires { CanMove self.old gives }
        ensures { self.new ≡ after_move self.old gives }
    {
        self.facts.out -= 1;
        if self.facts.spares < self.facts.min {
            self.facts.spares += 1;
        } else {
            self.facts.live -= 1;
        }
    }

    /// Sets the reserve to another number (`mempool_resize`, `mm/mempool.c`).
    pub fn resize(&mut self, min: u32)
        requires { CanMove self.old (resizes min) }
        ensures { self.new ≡ after_move self.old (resizes min) }
    {
        self.facts.min = u64::from(min);
        self.facts.spares = u64::from(min);
    }
}
