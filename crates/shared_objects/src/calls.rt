//! One call of an object by its seat, and what came of it.
ghost use Rattle.std.specs.Prelude.{◌≡◌};
ghost use Rattle.seat_lock.specs.Seats.{IsOfLock};
ghost use Rattle.object_things.specs.Stamps.{or_unmade};
ghost use Rattle.shared_objects.specs.Calling.{AreSeatedAt, FitsAt, FitsWith, HasAsked, HasAskedAt};

use object_things::stamp::{Asked, Mark, Told};
use object_things::{Asking, NoTicket, Replied};
use seat_lock::{Seat, SeatLock, Thing};
use std::sync::Wait;
use task_steps::Unmade;
use tick_clock::Pass;

/// Asks the object behind a lock. The pass goes with what is asked, and comes back.
#[inline(always)] // what is asked is known where it stands, so that the arms of other requests fall away
pub(crate) fn call<Q, S, T, R>(
    rt: &R,
    lock: &SeatLock<T>,
    seat: &mut Seat<T>,
    pass: &mut Option<Pass>,
    ask: Q,
) -> S
where
    R: Wait,
    T: Thing<Request = Asking<Q>, Reply = Replied<S>, Asked = Asked, Told = Told, Mark = Mark>,
    requires of { IsOfLock lock.now seat.old }
    requires fits { FitsWith (T.fits (T.mark lock.now.key.value)) pass.old ask }
    ensures of { IsOfLock lock.now seat.new }
    ensures asked { HasAsked T.asked T.told (T.owes (T.mark lock.now.key.value)) seat.old.known pass.old ask result seat.new.known pass.new }
{
    let Some(held) = pass.take() else {
        unreachable!()
    };
    let Replied {
        pass: back,
        said,
        note: _,
        drew: _,
        drawn: _,
        chosen: _,
        ticket: _,
    } = lock.call(rt, seat, Asking { pass: held, ask });
    *pass = Some(back);
    said
}

/// The same of the object at a place among those of its kind.
#[inline(always)] // as `call`
pub(crate) fn call_at<K, Q, S, T, R>(
    rt: &R,
    locks: &[(K, SeatLock<T>)],
    seats: &mut Vec<(K, Seat<T>)>,
    pass: &mut Option<Pass>,
    place: usize,
    ask: Q,
) -> S
where
    R: Wait,
    T: Thing<Request = Asking<Q>, Reply = Replied<S>, Asked = Asked, Told = Told, Mark = Mark>,
    requires seated { AreSeatedAt locks.now seats.old.items place }
    requires fits { FitsAt T.mark T.fits locks.now place pass.old ask }
    ensures { HasAskedAt T.asked T.told (λ thing. T.owes (T.mark thing)) place locks.now seats.old.items pass.old ask result seats.new.items pass.new }
{
    call(rt, &locks[place].1, &mut seats[place].1, pass, ask)
}

/// What came of a call that was handed nothing, as the objects say it.
#[inline(always)] // as the calls of `Caller`
pub(crate) fn or_unmade<T>(got: Result<T, NoTicket>) -> Result<T, Unmade>
    ensures { result ≡ or_unmade got }
{
    match got {
        Ok(got) => Ok(got),
        Err(NoTicket) => Err(Unmade::Nothing),
    }
}
