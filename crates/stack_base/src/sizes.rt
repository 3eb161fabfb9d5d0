//! How large a device is, by the sizes of its members.
ghost use Rattle.std.specs.Prelude.{◌≡◌, ◌<◌, ◌≤◌, ◌^◌, length, sum};
ghost use Rattle.stack_base.specs.Mapping.{size_of, smallest, whole_chunks};
ghost use Rattle.stack_base.specs.Stack.{HasShape};

use crate::Kind;

/// The size in sectors of a device of this kind over members of these sizes: the sum of them where its members stand one behind the
/// other (`linear_size`, `drivers/md/md-linear.c`), as often the smallest in whole chunks as there are members at a stripe, the sum of
/// them in whole chunks where it is zoned (`raid0_size`, `drivers/md/raid0.c`), and else the smallest (`raid1_size`,
/// `drivers/md/raid1.c`).
#[tactic(auto, unfolding(crate::specs::Mapping::size_of))]
pub fn kind_size(kind: &Kind, sizes: &[u64]) -> u64
    requires shape { HasShape kind.now (length sizes.now) }
    requires fits { sum sizes.now < 2 ^ 64 }
    ensures { result ≡ size_of kind.now sizes.now }
{
    match kind {
        Kind::Disk { sectors, .. } => *sectors,
        Kind::Linear => sizes.iter().sum(),
        Kind::Stripe { chunk } => least(sizes) / *chunk * *chunk * (sizes.len() as u64),
        Kind::Zoned { chunk } => all_chunks(*chunk, sizes) * *chunk,
        Kind::Limit { .. } | Kind::Mirror { .. } => least(sizes),
    }
}

/// The smallest of these sizes, or 0 where there is none.
#[tactic(auto, unfolding(crate::specs::Mapping::smallest))]
fn least(sizes: &[u64]) -> u64
    ensures { result ≡ smallest sizes.now }
{
    sizes.iter().copied().reduce(|a, b| a.min(b)).unwrap_or(0)
}

/// How many whole chunks members of these sizes have together.
fn all_chunks(chunk: u64, sizes: &[u64]) -> u64
    requires chunk { 1 ≤ chunk }
    requires fits { sum sizes.now < 2 ^ 64 }
    ensures { result ≡ sum (whole_chunks chunk sizes.now) }
{
    sizes.iter().map(|size| size / chunk).sum()
}
