//! How a device that cuts runs maps a piece of one to a member.
ghost use Rattle.std.specs.Prelude.{◌≡◌, ℕ, List, ◌+◌, ◌<◌, ◌≤◌, length};
ghost use Rattle.stack_base.specs.declared.stack.Kind.{Kind as Kinds};
ghost use Rattle.stack_base.specs.Mapping.{size_of, slot, head};
ghost use Rattle.stack_base.specs.Cutting.{CanCut};
ghost use Rattle.stack_base.specs.Piece.{IsPiece};
ghost use Rattle.stack_base.specs.Stack.{HasShape};

/// The first piece of a run: how many sectors it has, the member that it goes to, and its first sector there.
#[derive(Clone, Copy, Debug, PartialEq, Eq)]
pub struct Piece {
    /// How many sectors it has.
    pub len: u64,
    /// The member that it goes to, by its place among the members.
    pub member: u32,
    /// Its first sector there.
    pub at: u64,
}

/// What a device that cuts runs promises: how large it is, and where the first piece of a run ends and goes.
///
/// It is for kinds that cut alone, which `size` says with it: a mirror answers legs, and gets no law of pieces. Where a piece ends (`next`) stands
/// in no clause, since heads alone say a piece; `next` is how proofs find it.
pub trait MapLaw {
    /// The device's kind, with its numbers.
    ghost kind: { Self → Kinds };

    /// The sizes of its members, in their order.
    ghost sizes: { Self → List ℕ };

    /// The device's size in sectors. Its kind is one that cuts, with numbers that are not 0 and as many members as it wants.
    fn size(&self) -> u64
        ensures cuts { CanCut (kind self.now) }
        ensures shape { HasShape (kind self.now) (length (sizes self.now)) }
        ensures size { result ≡ size_of (kind self.now) (sizes self.now) };

    /// The first piece of the run of `len` sectors from `start` on, which has a sector and ends within the device: exactly the
    /// sectors before the run's next head (`bio_split`, `block/bio.c`, as drivers call it).
    fn piece(&self, start: u64, len: u64) -> Piece
        requires some { 1 ≤ len }
        requires within { start + len ≤ size_of (kind self.now) (sizes self.now) }
        ensures { IsPiece (kind self.now) (sizes self.now) start len result };
}
