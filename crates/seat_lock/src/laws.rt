//! What holds of every history.
ghost use Rattle.seat_lock.specs.History.{ContinuesOn, EachInPlace, PartsContinue};

use crate::thing::Thing;

/// Each call of a history is answered by the thing as the calls before it have left it, and leads it on to those behind it.
pub fn each_reply_is_in_place<T: Thing>()
    ensures { EachInPlace T.answers }
{}

/// A seat that saw another's history go on without further calls of its own shows the same calls, however often it went on.
pub fn calls_stay<T: Thing>()
    ensures { ContinuesOn T.Asked T.Told }
{}

/// The calls of seats that were joined stay apart: a history that has no further call of all of them has none of any.
pub fn joined_calls_stay_apart<T: Thing>()
    ensures { PartsContinue T.Asked T.Told }
{}
