//! How a bio ends on a disk with bad ranges.
ghost use Rattle.std.specs.Prelude.{◌≡◌};
ghost use Rattle.stack_base.specs.Fault.{touches, starts_before, fault};

use stack_base::{Bad, Range, Status};

// Whether two ranges share a sector. Their ends may have more than 64 bits.
fn touches(one: Range, other: Range) -> bool
    ensures { result ≡ touches one other }
{
    let end = u128::from(one.start) + u128::from(one.len);
    let other_end = u128::from(other.start) + u128::from(other.len);
    u128::from(one.start.max(other.start)) < end.min(other_end)
}

// Whether a bad range starts before the one that was found so far, if any was.
fn starts_before(bad: Bad, found: Option<Bad>) -> bool
    ensures { result ≡ starts_before bad found }
{
    match found {
        None => true,
        Some(found) => bad.range.start < found.range.start,
    }
}

/// How a bio of these sectors ends: as the bad range says that it touches, and of several the one that starts first, and of these the
/// earliest; and well where it touches none (`badblocks_check`, `block/badblocks.c`).
pub fn fault(bads: &[Bad], range: Range) -> Status
    ensures { result ≡ fault bads.now range }
{
    let mut found = None;
    for bad in bads {
        if touches(bad.range, range) && starts_before(*bad, found) {
            found = Some(*bad);
        }
    }
    match found {
        None => Status::Ok,
        Some(bad) => bad.kind,
    }
}
