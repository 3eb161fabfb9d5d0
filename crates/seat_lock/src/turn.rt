//! The rule of a lock's table, and its kinds of step.
use crate::thing::Thing;
use crate::view::View;
use atomic_table::{Join, Play, Split, TableRule};
use std::marker::{Brand, PhantomData};
use std::snapshot::Snapshot;

/// The calls that a step adds to the history. Each call of `pass_on` picks its own.
pub trait Call<A, R> {
    ghost use Rattle.std.specs.Prelude.{List};

    ghost calls: { List (A × R) };
}

impl<A, R> Call<A, R> for Brand {
    ghost use Rattle.std.specs.Prelude.{[]};

    ghost calls = { [] };
}

/// The thing at home is what the history leaves, one seat at the most has it out, and each seat knows a beginning of the history with all of
/// its own calls.
pub struct Turning;

impl<T: Thing> TableRule<T, View<T, T::Asked, T::Told>, Snapshot<T>> for Turning {
    ghost use Rattle.seat_lock.specs.Turning.{IsTurning, first_view};

    ghost holds = { IsTurning T.plain T.mark T.answers };

    ghost first = { first_view };
}

/// A turn is drawn.
pub struct DrawTurn;

impl<T: Thing> Play<T, View<T, T::Asked, T::Told>> for DrawTurn {
    ghost use Rattle.seat_lock.specs.Turning.{Drew};

    ghost then = { Drew };
}

/// A look at the turn that is served. Where it is the seat's own, the seat takes the thing.
pub struct LookTurn;

impl<T: Thing> Play<T, View<T, T::Asked, T::Told>> for LookTurn {
    ghost use Rattle.seat_lock.specs.Turning.{HasLooked};

    ghost then = { HasLooked T.plain T.mark T.answers };
}

/// The thing goes home and the turn is passed on. With this step the call joins the history.
pub struct PassOn<B> {
    call: PhantomData<B>,
}

impl<T, A, R, B: Call<A, R>> Play<T, View<T, A, R>> for PassOn<B> {
    ghost use Rattle.seat_lock.specs.Turning.{Passed};

    ghost then = { Passed B.calls };
}

/// A look that tells a seat what a split or a join made of it. It changes no word: the step itself tells its caller nothing, and the look what the
/// rule makes of it.
pub struct Learn;

impl<T: Thing> Play<T, View<T, T::Asked, T::Told>> for Learn {
    ghost use Rattle.seat_lock.specs.Turning.{Learnt};

    ghost then = { Learnt };
}

/// A seat is split from the first one.
pub struct Cut;

impl<T: Thing> Split<View<T, T::Asked, T::Told>> for Cut {
    ghost use Rattle.seat_lock.specs.Turning.{first_after_split, new_view};

    ghost left = { first_after_split };

    ghost right = { new_view };
}

/// A seat is joined into another.
pub struct Glue;

impl<T: Thing> Join<View<T, T::Asked, T::Told>> for Glue {
    ghost use Rattle.seat_lock.specs.Turning.{joined_view, spent_view};

    ghost both = { joined_view };

    ghost spent = { spent_view };
}
