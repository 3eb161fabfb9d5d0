//! Memory pools as Linux 6.1 has them (`mm/mempool.c`): a pool is made with `min` elements, and keeps up to as many as
//! spares, so that a taker who is refused ordinary memory can still be served once an element has come back.
//!
//! `Pool::open` is `mempool_create`, `Pool::give` is `mempool_free`, and `Pool::close` stands for `mempool_destroy`. `Pool::take`
//! is `mempool_alloc` for a taker who may not wait: it tries once, and what follows a miss is the taker's affair.
//! `Pool::resize` is `mempool_resize` between uses, with elements that `Pool::widen` had of memory beforehand.
//! A script says which takes may have ordinary memory at all, so that a run can ask for a shortage of it.
#![tactic(auto)]

ghost use Rattle.std.specs.Prelude.{◌≡◌, ℕ, ◌≤◌, IfOk, OnOk, OnErr, vec_len};
ghost use Rattle.fail_script.specs.Script.{entries_of};
ghost use Rattle.mempool_core.specs.Position.{uses_entry, next_pos};
ghost use Rattle.mempool_core.specs.Facts.{AddsUp};
ghost use Rattle.mempool_core.specs.Move.{gives, resizes, opened};
ghost use Rattle.mempool_core.specs.Pool.{ClosesIfHome, PoolMoves, widened};
ghost use Rattle.mempool_core.specs.Taken.{TakeOf};

mod bodies;

use crate::bodies::fresh_bodies;
use elem_ledger::Ledger;
pub use elem_ledger::{Element, Fresh};
use fail_script::Script;
use std::alloc::{AllocError, Global};
use std::marker::Model;

// The position behind a take at `pos`, and whether that take uses up an entry of the script.
fn advance(script: &Script, pos: u64) -> (u64, bool)
    ensures next { result.0 ≡ next_pos script.now pos }
    ensures used { result.1 ≡ uses_entry script.now pos }
{
    if pos < script.entries() {
        (pos + 1, true)
    } else {
        (pos, false)
    }
}

/// What a take had: an element in ordinary memory, a spare, or neither.
///
/// `used` says whether the take that missed used up an entry of the script.
#[derive(Drop)]
pub enum Taken<P> {
    /// An element in ordinary memory.
    Ordinary(Element<P>),
    /// A spare.
    Spare(Element<P>),
    /// Neither.
    Miss { used: bool },
}

/// The numbers of a pool: elements at first, then takes.
#[derive(Clone, Copy, PartialEq, Eq)]
pub struct Facts {
    /// The reserve: the elements that the pool was made with or last resized to, which is also the most spares that it keeps
    /// (`min_nr`).
    pub min: u64,
    /// The elements that lie in the pool for a take (`curr_nr`).
    pub spares: u64,
    /// The elements that were taken and not given back.
    pub out: u64,
    /// The elements that ordinary takes added and no give has returned to ordinary memory.
    pub live: u64,
    /// The script's position: the entries that takes have used up.
    pub pos: u64,
    /// The takes that had ordinary memory. The count stays at `u64::MAX`.
    pub ordinary: u64,
    /// The takes that had a spare. The count stays at `u64::MAX`.
    pub spare: u64,
}

// What a pool counts beside its bodies and its ledger.
#[derive(Clone, Copy, PartialEq, Eq)]
struct Counts {
    min: u64,
    // The bodies that are laid aside.
    aside: u64,
    live: u64,
    pos: u64,
    ordinary: u64,
    spare: u64,
}

/// A pool of elements with bodies of one type. It keeps the allocator that it was made with, so a take is handed none, and a refusal by real memory
/// is a spare or a miss, never an error.
///
/// What is out of it is the total of its ledger, whoever has the elements. Contracts see it as its ledger, its state
/// and the most that its reserve may be; the state is plain data without the others, for a larger machine.
pub struct Pool<P: Fresh + Drop> {
    alloc: Global,
    ledger: Ledger,
    script: Script,
    // Those laid aside, and the spares behind them: a take has the last one, where that is a spare. So a resize moves a border, in constant time and
    // without memory.
    bodies: Vec<Box<P>>,
    counts: Counts,
}

// A drop by hand is proved here, once. A derived one every crate above would prove anew that lets a pool go, with that of its ledger.
impl<P: Fresh + Drop> Drop for Pool<P> {
    fn drop(self) {
        let Pool {
            alloc: _,
            ledger,
            script,
            bodies,
            counts: _,
        } = self;
        drop(ledger);
        drop(script);
        drop(bodies);
    }
}

impl<P: Fresh + Drop> Model for Pool<P> {
    ghost use Rattle.std.specs.Prelude.{◌+◌, ◌-◌, vec_len};
    ghost use Rattle.mempool_core.specs.Pool.{LedgerPool, state_with, IsSoundPool};

    ghost Value = { LedgerPool };

    ghost view = { λ p. record {
      ledger = p.ledger.id;
      state = state_with p.script p.counts (vec_len p.bodies - p.counts.aside) p.ledger.total;
      most = p.counts.min + p.counts.aside;
    } };

    ghost invariant = { λ p.
        IsSoundPool P.is_clear (state_with p.script p.counts (vec_len p.bodies - p.counts.aside) p.ledger.total) p.counts.aside p.bodies };
}

impl<P: Fresh + Drop> Pool<P> {
    /// Makes pool `no` with `min` elements (`mempool_create`), and a ledger of that number.
    ///
    /// # Errors
    ///
    /// Where they cannot all be had. Those that were had are given up again.
    pub fn open(alloc: Global, no: u32, min: u32, script: Script) -> Result<Pool<P>, AllocError>
        requires { 1 ≤ min }
        ensures { IfOk result (λ pool. (pool.ledger.no ≡ no) × (pool.state ≡ opened min script) × (pool.most ≡ min)) }
    {
        let ledger = Ledger::new(alloc, no)?;
        let bodies = fresh_bodies(alloc, min as usize)?;
        let counts = Counts {
            min: u64::from(min),
            aside: 0,
            live: 0,
            pos: 0,
            ordinary: 0,
            spare: 0,
        };
        Ok(Pool {
            alloc,
            ledger,
            script,
            bodies,
            counts,
        })
    }

    /// Lays elements aside, so that `resize` may later set the reserve to as many as `most`. No take gives them before, and the
    /// numbers of the pool stay. Nothing may be out.
    ///
    /// `mempool_resize` asks for memory when it is called; here it is asked for once, beforehand. That nothing is out is asked for, as by
    /// `resize`, so that what has to be added is what the vector lacks. All new bodies are had in a vector of their own first, so that a
    /// refusal changes nothing.
    ///
    /// # Errors
    ///
    /// Where they cannot all be had. The pool is as it was before then.
    pub fn widen(&mut self, most: u32) -> Result<(), AllocError>
        requires { self.old.state.facts.out ≡ 0 }
        ensures ok { OnOk result (self.new ≡ widened most self.old) }
        ensures err { OnErr result (self.new ≡ self.old) }
        ensures adds_up { AddsUp self.new.state.facts }
    {
        let lacking = (most as usize).saturating_sub(self.bodies.len());
        let mut more = fresh_bodies(self.alloc, lacking)?;
        self.bodies.append(&mut more)?;
        self.counts.aside += lacking as u64;
        Ok(())
    }

    /// Sets the reserve to `min` elements, which all lie in the pool then (`mempool_resize`). Nothing may be out, and `min` is from 1
    /// to the most that the pool was opened or widened for. It takes no memory: more spares are had of the elements that are laid
    /// aside, and what is too many is laid aside.
    ///
    /// `mempool_resize` also works while elements are out. It frees what is too many, and answers well where memory for more is refused:
    /// what is given back later fills the reserve up.
    pub fn resize(&mut self, min: u32)
        requires home { self.old.state.facts.out ≡ 0 }
        requires some { 1 ≤ min }
        requires within { min ≤ self.old.most }
        ensures resizes { PoolMoves self.old (resizes min) self.new }
        ensures adds_up { AddsUp self.new.state.facts }
    {
        let min = u64::from(min);
        self.counts.aside = self.bodies.len() as u64 - min;
        self.counts.min = min;
    }

    // The spares: the bodies that are not laid aside.
    fn spares(&self) -> u64
        ensures { result ≡ self.now.state.facts.spares }
    {
        self.bodies.len() as u64 - self.counts.aside
    }

    /// Takes an element (`mempool_alloc`): ordinary memory is tried first, once, and the spares after that.
    ///
    /// The try may succeed only where the script allows it; where real memory refuses what the script allows, the try is
    /// refused all the same. At `u64::MAX` elements out a take misses.
    // In shortage most takes miss, and a caller then drops what was answered at once: none of it is to be written.
    #[inline(always)]
    pub fn take(&mut self) -> Taken<P>
        ensures takes { TakeOf P.is_clear self.old result self.new }
        ensures adds_up { AddsUp self.new.state.facts }
    {
        let is_allowed = self.script.allows(self.counts.pos);
        let (pos, used) = advance(&self.script, self.counts.pos);
        self.counts.pos = pos;
        if self.ledger.total() == u64::MAX {
            return Taken::Miss { used };
        }
        if is_allowed && let Ok(body) = Box::new(self.alloc, P::fresh()) {
            self.counts.live += 1;
            self.counts.ordinary = self.counts.ordinary.saturating_add(1);
            return Taken::Ordinary(self.ledger.issue(body));
        }
        if self.spares() == 0 {
            return Taken::Miss { used };
        }
        let body = self.bodies.pop().unwrap();
        self.counts.spare = self.counts.spare.saturating_add(1);
        Taken::Spare(self.ledger.issue(body))
    }

    /// Gives an element of this pool back (`mempool_free`), which is never refused and takes no memory.
    ///
    /// It becomes a spare, with a clear body, while there are fewer than `min`, wherever its memory came from. Otherwise
    /// it goes to ordinary memory.
    pub fn give(&mut self, element: Element<P>)
        requires { element.share ≡ self.old.ledger }
        ensures gives { PoolMoves self.old gives self.new }
        ensures adds_up { AddsUp self.new.state.facts }
    {
        let is_kept = self.spares() < self.counts.min;
        let mut body = self.ledger.redeem(element);
        if is_kept {
            *body = P::fresh();
            self.bodies.push(body).unwrap();
        } else {
            self.counts.live -= 1;
        }
    }

    /// The numbers of the pool.
    pub fn facts(&self) -> Facts
        ensures facts { result ≡ self.now.state.facts }
        ensures adds_up { AddsUp result }
        ensures within { result.pos ≤ entries_of self.now.state.script }
    {
        Facts {
            min: self.counts.min,
            spares: self.spares(),
            out: self.ledger.total(),
            live: self.counts.live,
            pos: self.counts.pos,
            ordinary: self.counts.ordinary,
            spare: self.counts.spare,
        }
    }

    /// The number of the pool, which is that of its ledger.
    pub fn no(&self) -> u32
        ensures { result ≡ self.now.ledger.no }
    {
        self.ledger.no()
    }

    /// The script that the pool was opened with.
    pub fn script(&self) -> &Script
        ensures { result.now ≡ self.now.state.script }
    {
        &self.script
    }

    /// Ends the pool and tells its numbers. A pool with an element out is handed back as it was, where `mempool_destroy` would not look.
    pub fn close(self) -> Result<Facts, Pool<P>>
        ensures ends { ClosesIfHome self result }
        // all that the pool was made with lies in it, and nothing that takes added is left
        ensures whole { IfOk result (λ facts. (facts.spares ≡ facts.min) × (facts.live ≡ 0)) }
    {
        if self.ledger.total() > 0 {
            return Err(self);
        }
        Ok(self.facts())
    }
}
