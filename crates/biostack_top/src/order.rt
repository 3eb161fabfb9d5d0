//! What the words ask for.
ghost use Rattle.std.specs.Prelude.{◌≡◌, map};
ghost use Rattle.std.specs.String.{string_bytes};
ghost use Rattle.biostack_top.specs.Orders.{is_replay, is_shown, workers_in};
ghost use Rattle.biostack_top.specs.Ending.{IsOrderAsked};

use crate::ending::Ending;
use biostack_words::{Order, WordFault, read_words};
use std::alloc::Global;

/// How many threads an order is for, and whether there is to be a trace, where it is one for threads.
pub(crate) fn workers_in(order: Order) -> Option<(u32, bool)>
    ensures { result ≡ workers_in order }
{
    match order {
        Order::Workers { n, trace } => Some((n, trace)),
        Order::Run { .. } => None,
        Order::Check => None,
        Order::Layout => None,
        Order::Gen { .. } => None,
        Order::Replay => None,
        Order::Scrub { .. } => None,
    }
}

/// Whether an order is to show the text that its number makes.
pub(crate) fn is_shown(order: Order) -> bool
    ensures { result ≡ is_shown order }
{
    match order {
        Order::Gen { text, .. } => text,
        Order::Run { .. } => false,
        Order::Workers { .. } => false,
        Order::Check => false,
        Order::Layout => false,
        Order::Replay => false,
        Order::Scrub { .. } => false,
    }
}

/// Whether an order is to replay the trace that stands behind the scenario of its text.
pub(crate) fn is_replay(order: Order) -> bool
    ensures { result ≡ is_replay order }
{
    matches!(order, Order::Replay)
}

/// The order that the words give.
///
/// # Errors
///
/// How the call ends otherwise: `Usage` where they give none, and `Memory` where there is none to read them.
pub(crate) fn order_of(alloc: Global, words: &[String]) -> Result<Order, Ending>
    ensures { IsOrderAsked (map string_bytes words.now) result }
{
    match read_words(alloc, words) {
        Ok(order) => Ok(order),
        Err(WordFault::Refused) => Err(Ending::Usage),
        Err(WordFault::Memory) => Err(Ending::Memory),
    }
}
