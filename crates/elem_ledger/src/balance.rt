//! The rule of a ledger's table, and its two kinds of step: an issue splits one share off, and a redeem joins one.
ghost use Rattle.std.specs.Prelude.{◌≡◌, ◌≤◌};
ghost use Rattle.elem_ledger.specs.Balance.{IsBalanced, issued_by, redeemed_by, one_more_issued, one_more_redeemed};
ghost use Rattle.elem_ledger.specs.declared.balance.View.TheVariants.{Keeper, Out, Spent};

use atomic_table::{Join, Play, Split, TableRule};

/// What a seat of a ledger's table knows. No value of it is ever made.
pub enum View {
    /// The seat of the ledger itself: the shares that it issued, and those that it redeemed. It has both numbers, and not what is left of them, so
    /// that the look behind a join can tell that the total was at least 1.
    Keeper(u64, u64),
    /// The seat of a share that is out. One that is dropped stays so.
    Out,
    /// The seat of a share that was redeemed.
    Spent,
}

/// There is one keeper, and the shares that it issued and has not redeemed are those that are out.
pub struct Balance;

impl TableRule<(), View, ()> for Balance {
    ghost holds = { λ _. IsBalanced };

    ghost first = { λ _. Keeper 0 0 };
}

/// The keeper splits off the seat of one share.
pub struct Issue;

impl Split<View> for Issue {
    ghost left = { one_more_issued };

    ghost right = { λ _. Out };
}

/// The keeper takes in the seat of one share.
pub struct Redeem;

impl Join<View> for Redeem {
    ghost both = { λ keeper _. one_more_redeemed keeper };

    ghost spent = { Spent };
}

/// The keeper takes in a second keeper. Since there is only one, no table is ever in a state where this could come, so what it makes is free:
/// a keeper that has redeemed more than it issued.
pub struct Merge;

impl Join<View> for Merge {
    ghost both = { λ _ _. Keeper 0 1 };

    ghost spent = { Spent };
}

/// A look tells the keeper that it has not redeemed more than it issued.
pub struct Look;

impl Play<(), View> for Look {
    ghost then = { λ _ before _ after. (after ≡ before) × (redeemed_by before.0 ≤ issued_by before.0) };
}
