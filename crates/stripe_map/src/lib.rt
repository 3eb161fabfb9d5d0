//! Devices whose chunks go round their members, as `drivers/md/raid0.c` of Linux 6.1 has them where all members have the same number of
//! chunks. No call takes memory.
#![tactic(auto)]

ghost use Rattle.std.specs.Prelude.{◌≡◌, ◌≤◌, replicate};
ghost use Rattle.stack_base.specs.Mapping.{size_of};
ghost use Rattle.stack_base.specs.Stack.{HasShape};

use stack_base::{Kind, MapLaw, Piece};
use std::marker::Model;

/// A device whose chunks go round its members, seen as its numbers (`struct r0conf`, `drivers/md/raid0.h`, of one zone).
#[derive(Drop)]
pub struct Stripe {
    chunk: u64,
    members: u32,
    smallest: u64,
}

impl Model for Stripe {
    ghost use Rattle.stripe_map.specs.Numbers.{Numbers, IsStripe};

    ghost Value = { Numbers };

    ghost view = { λ s. record { chunk = s.chunk; members = s.members; smallest = s.smallest } };

    ghost invariant = { λ s. IsStripe (record { chunk = s.chunk; members = s.members; smallest = s.smallest }) };
}

impl Stripe {
    /// A stripe of chunks of `chunk` sectors over `members` members, the smallest of which has `smallest` sectors. It is as an accepted
    /// stack has it: a chunk of 1 sector or more, from 1 to 8 members, and no more than 262,144 sectors together. What a member has
    /// besides the whole chunks of the smallest one is not used (`create_strip_zones`, `drivers/md/raid0.c`), so the sizes of the
    /// others do not matter: it is seen as one over members of the smallest size, and a law says that a stripe goes by nothing else
    /// (`stripes_go_by_smallest`).
    pub fn new(chunk: u64, members: u32, smallest: u64) -> Stripe
        requires shape { HasShape (Kind.Stripe chunk) members }
        requires small { size_of (Kind.Stripe chunk) (replicate members smallest) ≤ 262144 }
        ensures kind { ⟦<Stripe as MapLaw>⟧.kind result ≡ Kind.Stripe chunk }
        ensures sizes { ⟦<Stripe as MapLaw>⟧.sizes result ≡ replicate members smallest }
    {
        Stripe {
            chunk,
            members,
            smallest,
        }
    }
}

impl MapLaw for Stripe {
    ghost use Rattle.std.specs.Prelude.{replicate};
    ghost use Rattle.stack_base.specs.declared.stack.Kind.TheVariants.{Stripe as StripeKind};

    ghost kind = { λ s. StripeKind s.chunk };

    ghost sizes = { λ s. replicate s.members s.smallest };

    /// As many whole chunks as the smallest member has, once for each member (`raid0_size`, `drivers/md/raid0.c`).
    fn size(&self) -> u64 {
        self.smallest / self.chunk * self.chunk * u64::from(self.members)
    }

    /// The first piece of a run is on the member whose turn the run's first chunk is, and ends with that chunk or with the run
    /// (`raid0_make_request`, `map_sector`, `drivers/md/raid0.c`).
    fn piece(&self, start: u64, len: u64) -> Piece {
        let members = u64::from(self.members);
        let number = start / self.chunk;
        let within = start % self.chunk;
        Piece {
            len: (self.chunk - within).min(len),
            member: (number % members) as u32,
            at: number / members * self.chunk + within,
        }
    }
}
