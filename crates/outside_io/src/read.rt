//! Reading a source to its end or to a limit.
ghost use Rattle.std.specs.Prelude.{◌≡◌, ◌≤◌, Err, IfOk, OnErr, vec_len};
ghost use Rattle.std.specs.Io.KnownBytes.{Consumes};
ghost use Rattle.outside_io.specs.declared.read.ReadError.TheVariants.{Memory, Source as SourceFailed};
ghost use Rattle.outside_io.specs.Causes.{Rose};
ghost use Rattle.outside_io.specs.Reading.{IsRead, TakesWithin, ReadCause};

use crate::{Failed, Source};
use std::alloc::{AllocError, Global};
use thiserror::Error;

/// Why a source was not read.
#[derive(Clone, Copy, Debug, PartialEq, Eq, Error)]
pub enum ReadError {
    /// The source failed.
    #[error("the source failed")]
    Source,
    /// There was no memory for what the source gave.
    #[error("out of memory")]
    Memory,
}

impl From<Failed> for ReadError {
    ghost from_gives = { λ _ e. e ≡ SourceFailed };

    fn from(_: Failed) -> Self {
        ReadError::Source
    }
}

impl From<AllocError> for ReadError {
    ghost from_gives = { λ _ e. e ≡ Memory };

    fn from(_: AllocError) -> Self {
        ReadError::Memory
    }
}

// The most bytes that are asked of a source at a time.
const PIECE: usize = 4096;

/// Reads the source to its end, or to `limit` bytes of it.
///
/// # Errors
///
/// `Source` only where the source's count of faults rose, and `Memory` where there was none for the
/// text. What was read is lost then.
pub fn read_up_to<S: Source>(
    alloc: Global,
    source: &mut S,
    limit: usize,
) -> Result<Vec<u8>, ReadError>
    ensures text { IfOk result (λ text. IsRead limit (S.left source.old) text.items) }
    ensures within { IfOk result (λ text. vec_len text ≤ limit) }
    ensures taken { IfOk result
        (λ text. Consumes (S.left source.old) (S.left source.new) text.items) }
    ensures err { OnErr result (TakesWithin limit (S.left source.old) (S.left source.new)) }
    ensures cause { ReadCause (S.faults source.old) (S.faults source.new) result }
{
    let mut text = Vec::new(alloc);
    let mut piece = [0; PIECE];
    'reading: while text.len() < limit {
        let room = PIECE.min(limit - text.len());
        let count = source.take(&mut piece[..room])?;
        if count == 0 {
            return Ok(text);
        }
        text.extend_from_slice(&piece[..count])?;
    }
    Ok(text)
}
