//! Locks and their seats.
ghost use Rattle.std.specs.Prelude.{◌≡◌, ◌<◌, true, false, [], ◌∷◌, IfOk, IfErr};
ghost use Rattle.seat_lock.specs.History.{HistoryLeaves};
ghost use Rattle.seat_lock.specs.Seats.{AreOfLock, Calls, HasJoined, IsOfLock, IsWhole, first_seat, is_first, new_seat, own, split_more, split_of};
ghost use Rattle.seat_lock.specs.Turning.{EndsRun, FoundTurn, HasServed, HasThing, IsIdle, WaitsFor, after_call};
ghost use Rattle.seat_lock.specs.declared.view.Rank.TheVariants.{First};

use crate::thing::Thing;
use crate::turn::{Call, Cut, DrawTurn, Glue, Learn, LookTurn, PassOn, Turning};
use crate::view::View;
use atomic_table::{Refused, Table};
use std::alloc::{AllocFailed, Global};
use std::hint::spin_loop;
use std::marker::{Brand, Model};
use std::snapshot::Snapshot;
use std::sync::Wait;

// The word with the next turn to draw, and the word with the turn that is served. Both go round.
const DRAWN: usize = 0;

const SERVED: usize = 1;

// The slot of the thing.
const THING: usize = 0;

// How often a caller looks whether its turn has come before it sleeps. A look takes some nanoseconds, and a turn that is handed to a sleeper
// some thousand; but who looks keeps a processor from whoever is served. Who passes a turn on wakes sleepers only where a later turn was drawn,
// so a free lock makes no system call.
const LOOKS: u32 = 300;

/// A lock round a thing. It serves one caller at a time, and has a history of its calls.
///
/// The history stands in the rule of the table alone, with a beginning of it in each seat's view, so that no list grows in a running program. A
/// turn has three steps (a draw, looks, a pass-on): the look takes the thing and the pass-on puts it back, so it is never out while none is
/// served.
#[derive(Drop)]
pub struct SeatLock<T: Thing> {
    table: Table<T, View<T, T::Asked, T::Told>, Snapshot<T>, Turning, Global>,
}

impl<T: Thing> Model for SeatLock<T> {
    ghost use Rattle.std.specs.Prelude.{◌≡◌};
    ghost use Rattle.seat_lock.specs.Seats.{LockId};

    ghost Value = { LockId T };

    ghost view = { λ l. record { table = l.table.shared.table_id; key = l.table.shared.key } };

    ghost invariant = { λ l. (l.table.shared.table_id.words ≡ 2) × (l.table.shared.table_id.slots ≡ 1) };
}

/// The right to call a lock, one call at a time. It has no bytes. Contracts see what is known of the lock through it, and not the turn that it may
/// have: between two calls it has none, which the type keeps.
pub struct Seat<T: Thing> {
    inner: atomic_table::Seat<T, View<T, T::Asked, T::Told>>,
}

impl<T: Thing> Model for Seat<T> {
    ghost use Rattle.std.specs.Prelude.{◌≡◌};
    ghost use Rattle.seat_lock.specs.Seats.{SeatState};
    ghost use Rattle.seat_lock.specs.Turning.{IsIdle};

    ghost Value = { SeatState T T.Asked T.Told };

    ghost view = { λ s. record { table = s.inner.table_id; known = s.inner.me.0.known } };

    ghost invariant = { λ s. IsIdle s.inner.me };
}

impl<T: Thing> Drop for Seat<T> {
    fn drop(self) {
        let Seat { inner: _ } = self;
    }
}

impl<T: Thing> Seat<T> {
    // The seat of the table.
    fn into_inner(self) -> atomic_table::Seat<T, View<T, T::Asked, T::Told>>
        ensures { (result.table_id ≡ self.table) × (result.me.0.known ≡ self.known) × IsIdle result.me }
    {
        let Seat { inner } = self;
        inner
    }
}

/// What is left of a lock.
#[derive(Drop)]
pub struct Shut<T: Thing> {
    /// The thing, as the calls have left it.
    pub thing: T,
    /// The first seat as it was at the end. What it has seen is the whole history.
    pub told: Snapshot<Seat<T>>,
}

impl<T: Thing> SeatLock<T> {
    /// A lock round a thing, with no call in its history, and its first seat.
    ///
    /// # Errors
    ///
    /// The thing, where there is no memory for the lock.
    pub fn new(alloc: Global, thing: T) -> Result<(SeatLock<T>, Seat<T>), T>
        ensures ok { IfOk result (λ made. IsOfLock made.0 made.1 × (made.1.known ≡ first_seat made.0.key) × (made.0.key.value ≡ thing)) }
        ensures err { IfErr result (λ back. back ≡ thing) }
    {
        let start = Snapshot::of(&thing);
        let mut slots = Vec::new(alloc);
        if let Err(failed) = slots.push(thing) {
            slots.destroy_empty();
            let AllocFailed { value } = failed;
            return Err(value);
        }
        match Table::new(alloc, &[0, 0], slots, &start) {
            Ok((table, inner)) => Ok((SeatLock { table }, Seat { inner })),
            Err(Refused { mut slots }) => {
                let Some(thing) = slots.pop() else {
                    unreachable!()
                };
                slots.destroy_empty();
                Err(thing)
            }
        }
    }

    /// Asks the thing, in a turn of its own. It waits until all who came before were served, and may wait for ever.
    ///
    /// The call joins the history when its turn is passed on, so no other call stands between its request and its reply.
    #[inline(always)] // a request that is known where it is made has one arm of the thing's `serve`
    pub fn call<R: Wait>(&self, rt: &R, seat: &mut Seat<T>, request: T::Request) -> T::Reply
        requires of { IsOfLock self.now seat.old }
        requires fits { T.fits (T.mark self.now.key.value) request }
        ensures of { IsOfLock self.now seat.new }
        ensures calls { Calls T.answers (T.plain self.now.key.value) seat.old.known (T.asked request) (T.told result) seat.new.known }
        ensures owed { T.owes (T.mark self.now.key.value) request result }
    {
        let table = &self.table;
        let inner = &mut seat.inner;
        let turn = table.shared.fetch_add::<DrawTurn>(inner, DRAWN, 1);
        self.await_turn(rt, inner, turn);
        self.serve_in_turn(inner, request)
    }

    // Waits until the turn that a seat has drawn is served: then it has the thing. Where nobody else wants the lock, the first look finds so.
    #[inline(always)] // as `call`
    fn await_turn<R: Wait>(
        &self,
        rt: &R,
        inner: &mut atomic_table::Seat<T, View<T, T::Asked, T::Told>>,
        turn: u64,
    )
        requires of { inner.old.table_id ≡ self.now.table }
        requires waits { WaitsFor turn inner.old.me }
        ensures of { inner.new.table_id ≡ inner.old.table_id }
        ensures found { FoundTurn T.plain T.mark T.answers turn inner.old.me inner.new.me }
    {
        let table = &self.table;
        let served = table.shared.load::<LookTurn>(inner, SERVED);
        if served != turn {
            self.look_on(rt, inner, turn);
        }
    }

    // Looks until the turn is served.
    #[inline(never)] // who finds the turn at once pays for none of its registers
    fn look_on<R: Wait>(
        &self,
        rt: &R,
        inner: &mut atomic_table::Seat<T, View<T, T::Asked, T::Told>>,
        turn: u64,
    )
        requires of { inner.old.table_id ≡ self.now.table }
        requires waits { WaitsFor turn inner.old.me }
        ensures of { inner.new.table_id ≡ inner.old.table_id }
        ensures found { FoundTurn T.plain T.mark T.answers turn inner.old.me inner.new.me }
    {
        let table = &self.table;
        let mut looks = 0;
        for _ in rt.forever() {
            let served = table.shared.load::<LookTurn>(inner, SERVED);
            if served == turn {
                return;
            }
            looks = self.wait(rt, served, looks);
        }
        unreachable!()
    }

    // Waits a moment, or, after so many looks, until a turn was passed on. Answers the number of looks.
    fn wait<R: Wait>(&self, rt: &R, served: u64, looks: u32) -> u32 {
        if looks < LOOKS {
            spin_loop();
            return looks + 1;
        }
        let low = (served % (1 << 32)) as u32;
        self.table.shared.park(rt, SERVED, low);
        looks
    }

    // Serves the request of a seat whose turn it is.
    #[inline(always)] // as `call`
    fn serve_in_turn(
        &self,
        inner: &mut atomic_table::Seat<T, View<T, T::Asked, T::Told>>,
        request: T::Request,
    ) -> T::Reply
        requires of { inner.old.table_id ≡ self.now.table }
        requires turn { HasThing T.plain T.mark T.answers self.now.key inner.old.me }
        requires fits { T.fits (T.mark self.now.key.value) request }
        ensures of { inner.new.table_id ≡ inner.old.table_id }
        ensures view { inner.new.me ≡ (after_call inner.old.me.0 (T.asked request) (T.told result), []) }
        ensures run { EndsRun T.plain T.answers self.now.key inner.old.me.0 (T.asked request) (T.told result) }
        ensures owed { T.owes (T.mark self.now.key.value) request result }
    {
        let table = &self.table;
        let kept = inner.slot_mut(&table.shared, THING);
        let asked = Snapshot::of(&request);
        let reply = kept.serve(request);
        let told = Snapshot::of(&reply);
        self.pass_on::<Brand>(inner, asked, told);
        reply
    }

    // Passes the turn on, and wakes those who wait for theirs, if there are any. At this step the call joins the history.
    #[inline(always)] // as `call`
    fn pass_on<B: Call<T::Asked, T::Told>>(
        &self,
        inner: &mut atomic_table::Seat<T, View<T, T::Asked, T::Told>>,
        asked: Snapshot<T::Request>,
        told: Snapshot<T::Reply>,
    )
        requires of { inner.old.table_id ≡ self.now.table }
        requires turn { HasServed T.plain T.mark T.answers self.now.key (T.asked asked.value) (T.told told.value) inner.old.me }
        requires pick { B.calls ≡ (T.asked asked.value, T.told told.value) ∷ [] }
        ensures of { inner.new.table_id ≡ inner.old.table_id }
        ensures view { inner.new.me ≡ (after_call inner.old.me.0 (T.asked asked.value) (T.told told.value), []) }
    {
        let table = &self.table;
        let served = table.shared.fetch_add::<PassOn<B>>(inner, SERVED, 1);
        if table.shared.peek(DRAWN) != served.wrapping_add(1) {
            table.shared.wake_all(SERVED);
        }
    }

    /// One more seat of the lock, split from its first one. It has made no call, and knows what the first seat knows.
    pub fn split(&self, seat: &mut Seat<T>) -> Seat<T>
        requires of { IsOfLock self.now seat.old }
        requires first { (is_first seat.old.known.rank ≡ true) × (split_of seat.old.known.rank < 65535) }
        ensures of { AreOfLock self.now seat.new result }
        ensures seats { (seat.new.known ≡ split_more seat.old.known) × (result.known ≡ new_seat seat.old.known) }
        ensures calls { own result.known ≡ [] }
    {
        let table = &self.table;
        let mut inner = table.shared.split_seat::<Cut>(&mut seat.inner);
        table.shared.load::<Learn>(&mut inner, DRAWN);
        Seat { inner }
    }

    /// Joins a seat, which is not the first one, into another. The joined seat shows the calls of both.
    pub fn join(&self, seat: &mut Seat<T>, other: Seat<T>)
        requires of { AreOfLock self.now seat.old other }
        requires other { is_first other.known.rank ≡ false }
        ensures of { IsOfLock self.now seat.new }
        ensures joined { HasJoined seat.old.known other.known seat.new.known }
        ensures whole { IsWhole seat.new.known }
    {
        let theirs = other.into_inner();
        let table = &self.table;
        table.shared.join_seat::<Glue>(&mut seat.inner, theirs);
        table.shared.load::<Learn>(&mut seat.inner, DRAWN);
    }

    /// Ends the use of a lock, with its first seat, into which all others were joined. No turn is out then, so the thing is at home.
    pub fn close(self, seat: Seat<T>) -> Shut<T>
        requires of { IsOfLock self seat }
        requires whole { seat.known.rank ≡ First seat.known.joined }
        ensures told { result.told.value ≡ seat }
        ensures thing { HistoryLeaves T.plain T.mark T.answers self.key.value seat.known.seen result.thing }
        ensures all { own seat.known ≡ seat.known.seen }
    {
        let told = Snapshot::of(&seat);
        let inner = seat.into_inner();
        let SeatLock { table } = self;
        let mut closed = table.close_with(inner);
        let thing = closed.take(THING);
        closed.free();
        Shut { thing, told }
    }
}
