//! The text that an order is about.
ghost use Rattle.std.specs.Prelude.{◌≡◌, None, Some};
ghost use Rattle.biostack_top.specs.Input.{HasInput, made_by};
ghost use Rattle.biostack_top.specs.Streams.{source_stream};

use crate::ending::Ending;
use biostack_words::Order;
use outside_io::{ReadError, Source, read_up_to};
use std::alloc::{AllocError, Global};
use work_text::generate;

/// How many bytes of the source are read at the most: one more than a text may have.
const LIMIT: usize = 4_194_305;

// The number that makes the text of an order, where it reads none.
fn made_by(order: Order) -> Option<u64>
    ensures { result ≡ made_by order }
{
    match order {
        Order::Gen { number, .. } => Some(number),
        Order::Run { .. } => None,
        Order::Workers { .. } => None,
        Order::Check => None,
        Order::Layout => None,
        Order::Replay => None,
        Order::Scrub { .. } => None,
    }
}

/// The text of a source, to its end or to one byte more than a text may have.
///
/// # Errors
///
/// How the call ends without a text: `ReadFault` where the source failed, and `Memory` where there was none.
pub(crate) fn read<S: Source>(alloc: Global, source: &mut S) -> Result<Vec<u8>, Ending>
    ensures { HasInput None (source_stream S.Source source.old source.new) result }
{
    match read_up_to(alloc, source, LIMIT) {
        Ok(text) => Ok(text),
        Err(ReadError::Source) => Err(Ending::ReadFault),
        Err(ReadError::Memory) => Err(Ending::Memory),
    }
}

/// The text that the order's number makes, or else that of the source, to its end or to one byte more than a text may have.
///
/// # Errors
///
/// How the call ends without a text: `ReadFault` where the source failed, and `Memory` where there was none.
pub(crate) fn input<S: Source>(
    alloc: Global,
    order: Order,
    source: &mut S,
) -> Result<Vec<u8>, Ending>
    ensures { HasInput (made_by order) (source_stream S.Source source.old source.new) result }
{
    let Some(number) = made_by(order) else {
        return read(alloc, source);
    };
    match generate(alloc, number) {
        Ok(text) => Ok(text),
        Err(AllocError) => Err(Ending::Memory),
    }
}
