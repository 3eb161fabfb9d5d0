//! Devices whose members stand one behind the other, as `drivers/md/md-linear.c` of Linux 6.1 has them. No call takes memory.
#![tactic(auto)]

ghost use Rattle.std.specs.Prelude.{◌≡◌, ◌≤◌, length};
ghost use Rattle.stack_base.specs.Mapping.{size_of};
ghost use Rattle.stack_base.specs.Stack.{HasShape};

use arrayvec::ArrayVec;
use stack_base::{Kind, MapLaw, Piece};
use std::marker::Model;

/// A device whose members stand one behind the other, seen as their sizes in sectors, in their order (`struct linear_conf`,
/// `drivers/md/md-linear.h`).
#[derive(Drop)]
pub struct Linear {
    sizes: ArrayVec<u64, 8>,
    // How many sectors they have together (`array_sectors`).
    sectors: u64,
}

impl Model for Linear {
    ghost use Rattle.std.specs.Prelude.{ℕ, List};
    ghost use Rattle.linear_map.specs.Members.{IsLinear};

    ghost Value = { List ℕ };

    ghost view = { λ l. l.sizes.items };

    ghost invariant = { λ l. IsLinear l.sizes.items l.sectors };
}

impl Linear {
    /// A linear device over members of these sizes in sectors, as an accepted stack has them: from 1 to 8 members, with no more than
    /// 262,144 sectors together (`linear_conf`, `drivers/md/md-linear.c`). Members with a sector are not asked for, since nothing rests on it;
    /// nor do stripes, limits and zoned devices.
    #[tactic(auto, unfolding(stack_base::specs::Mapping::size_of))]
    pub fn new(sizes: ArrayVec<u64, 8>) -> Linear
        requires shape { HasShape Kind.Linear (length sizes.items) }
        requires small { size_of Kind.Linear sizes.items ≤ 262144 }
        ensures kind { ⟦<Linear as MapLaw>⟧.kind result ≡ Kind.Linear }
        ensures sizes { ⟦<Linear as MapLaw>⟧.sizes result ≡ sizes.items }
    {
        let sectors = sizes.iter().sum();
        Linear { sizes, sectors }
    }
}

impl MapLaw for Linear {
    ghost use Rattle.stack_base.specs.declared.stack.Kind.TheVariants.{Linear as LinearKind};

    ghost kind = { λ _. LinearKind };

    ghost sizes = { λ sizes. sizes };

    /// How many sectors the members have together (`linear_size`, `drivers/md/md-linear.c`).
    fn size(&self) -> u64 {
        self.sectors
    }

    /// The first piece of a run is on the member that holds the run's first sector, and ends with that member or with the run
    /// (`which_dev`, `linear_make_request`, `drivers/md/md-linear.c`).
    #[tactic(auto, unfolding(stack_base::specs::Mapping::size_of))]
    fn piece(&self, start: u64, len: u64) -> Piece {
        let mut at = start;
        for (member, size) in self.sizes.iter().enumerate() {
            if at < *size {
                return Piece {
                    len: (*size - at).min(len),
                    member: member as u32,
                    at,
                };
            }
            at -= *size;
        }
        unreachable!()
    }
}
