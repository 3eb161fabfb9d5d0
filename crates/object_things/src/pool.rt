//! A pool as a thing.
ghost use Rattle.std.specs.Prelude.{◌≡◌, ◌≤◌};
ghost use Rattle.run_machine.specs.Requests.{Resize};
ghost use Rattle.object_things.specs.declared.pool.PoolAsk.TheVariants as ask;
ghost use Rattle.object_things.specs.declared.pool.PoolSaid.TheVariants as said;
ghost use Rattle.object_things.specs.Stamps.{PassByReply, stage_in};
ghost use Rattle.object_things.specs.Pools.{GoesBack, IsPoolOf, PoolReplies, PoolSays, WaitsAt, TakenOf, is_look, take_request, give_of, pool_replied};

use crate::stamp::{Asked, Asking, Mark, NoTicket, Replied, Stamp, Told};
use elem_ledger::{Element, Fresh};
use mempool_core::{Pool, Taken};
use seat_lock::Thing;
use stack_base::PoolId;
use std::marker::Model;
use task_core::resize_home;
use tick_clock::{Note, Pass};

/// What is asked of a pool, with its name.
pub enum PoolAsk<P> {
    /// An element is taken, from memory or of the spares, by a task that may wait or not.
    Take { pool: PoolId, waits: bool },
    /// An element comes back.
    Give { pool: PoolId, el: Element<P> },
    /// The reserve becomes this many elements, where none is out.
    Resize { pool: PoolId, min: u32 },
}

/// What a pool says. A pool is of any body here, so what a take had goes with the name of the pool, by which the machine's reply is known.
#[derive(Drop)]
pub enum PoolSaid<P> {
    /// What a take of this pool had, or that there was no ticket.
    Took {
        pool: PoolId,
        result: Result<Taken<P>, NoTicket>,
    },
    /// The element is back, or comes back to the caller where there was no ticket.
    Gave(Result<(), Element<P>>),
    /// How many elements are out (the reserve stays where any is), or that there was no ticket.
    Resized(Result<u64, NoTicket>),
}

/// What the machine sees of a pool with its note. No value of it is ever made.
pub struct PoolData<P: Fresh + Drop> {
    pool: Pool<P>,
}

impl<P: Fresh + Drop> Model for PoolData<P> {
    ghost use Rattle.std.specs.Prelude.{false};
    ghost use Rattle.mempool_core.specs.Pool.{LedgerPool};
    ghost use Rattle.object_things.specs.Stamps.{ThingState};

    ghost Value = { ThingState LedgerPool };

    ghost view = { λ k. record { object = k.pool; note = 0; spent = false } };
}

/// A pool with its note.
pub struct PoolThing<P: Fresh + Drop> {
    pool: Pool<P>,
    stamp: Stamp,
}

// A drop by hand is proved here, once. A derived one every crate above would prove anew that drops a thing, or hands one to what may.
impl<P: Fresh + Drop> Drop for PoolThing<P> {
    fn drop(self) {
        let PoolThing { pool, stamp } = self;
        drop(pool);
        drop(stamp);
    }
}

impl<P: Fresh + Drop> Model for PoolThing<P> {
    ghost use Rattle.object_things.specs.Stamps.{Stamped};
    ghost use Rattle.mempool_core.specs.Pool.{LedgerPool};
    ghost use Rattle.object_things.specs.Pools.{IsPoolOf};
    ghost use Rattle.object_things.specs.Stamps.{stage_in};

    ghost Value = { Stamped LedgerPool };

    ghost view = { λ t. record { object = t.pool; stamp = t.stamp } };

    ghost invariant = { λ t. IsPoolOf (stage_in t.stamp.common) t.pool };
}

impl<P: Fresh + Drop> PoolThing<P> {
    /// A pool with this stamp.
    pub fn new(pool: Pool<P>, stamp: Stamp) -> PoolThing<P>
        requires { IsPoolOf (stage_in stamp.common) pool }
        ensures { result ≡ record { object = pool; stamp = stamp } }
    {
        PoolThing { pool, stamp }
    }

    /// A pool and its note.
    pub fn parts(self) -> (Pool<P>, Note)
        ensures { (result.0 ≡ self.object) × (result.1 ≡ self.stamp.note) }
    {
        let PoolThing { pool, stamp } = self;
        (pool, stamp.into_note())
    }
}

impl<P: Fresh + Drop> Thing for PoolThing<P> {
    ghost use Rattle.object_things.specs.Stamps.{thing_state};
    ghost use Rattle.object_things.specs.Pools.{PoolAnswers, PoolFits, PoolOwes, pool_asked, pool_mark, pool_told};

    type Request = Asking<PoolAsk<P>>;

    type Reply = Replied<PoolSaid<P>>;

    type Data = PoolData<P>;

    type Asked = Asked;

    type Told = Told;

    type Mark = Mark;

    ghost plain = { λ thing. thing_state thing.object thing.stamp };

    ghost mark = { pool_mark };

    ghost asked = { λ asking. pool_asked asking.ask };

    ghost told = { pool_told };

    ghost fits = { PoolFits };

    ghost owes = { PoolOwes P.is_clear };

    ghost answers = { PoolAnswers };

    #[inline(always)] // a request that is known where it is made then has one arm
    fn serve(&mut self, asking: Asking<PoolAsk<P>>) -> Replied<PoolSaid<P>> {
        let Asking { pass, ask } = asking;
        match ask {
            PoolAsk::Take { pool, waits } => take(
                &mut self.pool,
                &mut self.stamp,
                pass,
                pool,
                waits,
            ),
            PoolAsk::Give { pool, el } => give(&mut self.pool, &mut self.stamp, pass, pool, el),
            PoolAsk::Resize { pool, min } => resize(
                &mut self.pool,
                &mut self.stamp,
                pass,
                pool,
                min,
            ),
        }
    }
}

// Puts back what a take has had that gets no ticket.
#[inline(always)] // as `serve`
fn undo<P: Fresh + Drop>(pool: &mut Pool<P>, taken: Taken<P>)
    requires { TakenOf taken pool.old.ledger }
    ensures { GoesBack taken pool.old pool.new }
{
    match taken {
        Taken::Ordinary(el) | Taken::Spare(el) => pool.give(el),
        Taken::Miss { used: _ } => {}
    }
}

// Whether a take is told as nothing.
#[inline(always)] // as `serve`
fn is_look<P: Fresh + Drop>(taken: &Taken<P>, waits: bool) -> bool
    ensures { result ≡ is_look waits taken.now }
{
    match taken {
        Taken::Miss { used } => waits && !*used,
        Taken::Ordinary(_) | Taken::Spare(_) => false,
    }
}

// What a take says.
#[inline(always)] // as `serve`
fn took<P: Fresh + Drop>(pool: PoolId, of: Result<Taken<P>, NoTicket>) -> PoolSaid<P>
    ensures { result ≡ said.Took pool of }
{
    PoolSaid::Took { pool, result: of }
}

// A take, with its ticket.
#[tactic(auto, using(crate::proofs::PoolCalls::took_served, crate::proofs::PoolCalls::miss_looks, crate::proofs::PoolCalls::take_spent, crate::proofs::PoolCalls::undone, crate::proofs::PoolCalls::took_from, crate::proofs::PoolCalls::take_stays))]
#[inline(always)] // as `serve`
fn take<P: Fresh + Drop>(
    pool: &mut Pool<P>,
    stamp: &mut Stamp,
    pass: Pass,
    name: PoolId,
    waits: bool,
) -> Replied<PoolSaid<P>>
    requires clock { pass.clock ≡ stamp.old.common.clock }
    requires waits { WaitsAt name waits }
    ensures answers { PoolReplies pool.old stamp.old (take_request name waits) result pool.new stamp.new }
    ensures pass { PassByReply pool_replied pass result }
    ensures says { PoolSays P.is_clear pool.old.ledger (ask.Take name waits) result.said }
    ensures pool { (pool.new.ledger ≡ pool.old.ledger) × (pool.new.most ≡ pool.old.most) }
    ensures same { stamp.new.common ≡ stamp.old.common }
{
    let taken = pool.take();
    if is_look(&taken, waits) {
        return stamp.look(pass, took(name, Ok(Taken::Miss { used: false })));
    }
    let (turn, drawn) = stamp.turn(pass);
    match drawn {
        Some(ticket) => turn.reply(Some(ticket), took(name, Ok(taken))),
        None => {
            undo(pool, taken);
            turn.reply(None, took(name, Err(NoTicket)))
        }
    }
}

// A give, with its ticket.
#[tactic(auto, using(crate::proofs::PoolCalls::give_served, crate::proofs::PoolCalls::give_spent))]
#[inline(always)] // as `serve`
fn give<P: Fresh + Drop>(
    pool: &mut Pool<P>,
    stamp: &mut Stamp,
    pass: Pass,
    name: PoolId,
    el: Element<P>,
) -> Replied<PoolSaid<P>>
    requires clock { pass.clock ≡ stamp.old.common.clock }
    requires own { el.share ≡ pool.old.ledger }
    ensures answers { PoolReplies pool.old stamp.old (give_of name el.share) result pool.new stamp.new }
    ensures pass { PassByReply pool_replied pass result }
    ensures says { PoolSays P.is_clear pool.old.ledger (ask.Give name el) result.said }
    ensures pool { (pool.new.ledger ≡ pool.old.ledger) × (pool.new.most ≡ pool.old.most) }
    ensures same { stamp.new.common ≡ stamp.old.common }
{
    let (turn, drawn) = stamp.turn(pass);
    match drawn {
        Some(ticket) => {
            pool.give(el);
            turn.reply(Some(ticket), PoolSaid::Gave(Ok(())))
        }
        None => turn.reply(None, PoolSaid::Gave(Err(el))),
    }
}

// A change of the reserve, with its ticket.
#[inline(always)] // as `serve`
fn resize<P: Fresh + Drop>(
    pool: &mut Pool<P>,
    stamp: &mut Stamp,
    pass: Pass,
    name: PoolId,
    min: u32,
) -> Replied<PoolSaid<P>>
    requires clock { pass.clock ≡ stamp.old.common.clock }
    requires fits { (1 ≤ min) × (min ≤ pool.old.most) }
    ensures answers { PoolReplies pool.old stamp.old (Resize name min) result pool.new stamp.new }
    ensures pass { PassByReply pool_replied pass result }
    ensures says { PoolSays P.is_clear pool.old.ledger (ask.Resize name min) result.said }
    ensures pool { (pool.new.ledger ≡ pool.old.ledger) × (pool.new.most ≡ pool.old.most) }
    ensures same { stamp.new.common ≡ stamp.old.common }
{
    let (turn, drawn) = stamp.turn(pass);
    let Some(number) = drawn else {
        return turn.reply(None, PoolSaid::Resized(Err(NoTicket)));
    };
    let out = resize_home(pool, min);
    // One that finds elements out is refused, and its entry carries no ticket.
    let ticket = if out == 0 { Some(number) } else { None };
    turn.reply(ticket, PoolSaid::Resized(Ok(out)))
}
