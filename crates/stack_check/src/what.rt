//! What a declared device does: how many members it takes, its reserves and its size.
ghost use Rattle.std.specs.Prelude.{◌≡◌, ◌<◌, ◌^◌, ◌&&◌, nat_le, not, IsTrue, length, sum};
ghost use Rattle.decl_text.specs.Known.{declares_disk, declares_mirror, sectors_of};
ghost use Rattle.decl_text.specs.Checks.{has_count};
ghost use Rattle.stack_check.specs.Rows.{has_zero, is_large};
ghost use Rattle.stack_check.specs.Sound.{HasNumbers, what_size};

use decl_text::What;
use stack_base::{Kind, kind_size};

/// The elements that a pool may keep.
pub(crate) const MOST_ELEMENTS: u64 = 1024;

/// Whether it takes so many members.
pub(crate) fn takes(what: What, count: usize) -> bool
    ensures { result ≡ has_count what count }
{
    match what {
        What::Disk { .. } => count == 0,
        What::Limit { .. } => count == 1,
        What::Linear | What::Stripe { .. } | What::Zoned { .. } | What::Mirror { .. } => 1 <= count
            && count <= 8,
    }
}

/// Whether one of its pools keeps more elements than it may.
pub(crate) fn is_large(what: What, reserve: u64) -> bool
    ensures { result ≡ is_large what reserve }
{
    match what {
        What::Disk { .. } => false,
        What::Mirror { records } => records > MOST_ELEMENTS || reserve > MOST_ELEMENTS,
        What::Linear | What::Stripe { .. } | What::Zoned { .. } | What::Limit { .. } => reserve
            > MOST_ELEMENTS,
    }
}

/// Whether one of its pools keeps none.
pub(crate) fn has_zero(what: What, reserve: u64) -> bool
    ensures { result ≡ has_zero what reserve }
{
    match what {
        What::Disk { .. } => false,
        What::Mirror { records } => records == 0 || reserve == 0,
        What::Linear | What::Stripe { .. } | What::Zoned { .. } | What::Limit { .. } => reserve
            == 0,
    }
}

/// Whether it copies to two members or more, and its set has no rescuer. Then a write may wait for a bio that no one gives back.
pub(crate) fn lacks_rescuer(what: What, count: usize, rescuer: bool) -> bool
    ensures { result ≡ (declares_mirror what && nat_le 2 count && not rescuer) }
{
    match what {
        What::Mirror { .. } => count >= 2 && !rescuer,
        _ => false,
    }
}

/// Whether it is a disk.
pub(crate) fn declares_disk(what: What) -> bool
    ensures { result ≡ declares_disk what }
{
    matches!(what, What::Disk { .. })
}

/// The sectors that it brings itself.
pub(crate) fn own_sectors(what: What) -> u64
    ensures { result ≡ sectors_of what }
{
    match what {
        What::Disk { sectors } => sectors,
        _ => 0,
    }
}

/// Its size in sectors, over members of these sizes.
pub(crate) fn size_of(what: What, sizes: &[u64]) -> u64
    requires count { IsTrue (has_count what (length sizes.now)) }
    requires numbers { HasNumbers what }
    requires fits { sum sizes.now < 2 ^ 64 }
    ensures { result ≡ what_size what sizes.now }
{
    match what {
        What::Disk { sectors } => sectors,
        What::Linear => kind_size(&Kind::Linear, sizes),
        What::Stripe { chunk } => kind_size(&Kind::Stripe { chunk }, sizes),
        What::Zoned { chunk } => kind_size(&Kind::Zoned { chunk }, sizes),
        What::Limit { max, chunk } => kind_size(&Kind::Limit { max, chunk }, sizes),
        What::Mirror { .. } => kind_size(&Kind::Mirror { records: 0 }, sizes),
    }
}
