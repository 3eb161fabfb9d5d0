//! What a share in hand shows, and where it can go.
ghost use Rattle.std.specs.Prelude.{◌≡◌, ◌+◌, ◌≤◌};

use crate::{Element, Ledger};

/// An element in hand shows that the total of its ledger is at least 1, and nothing is changed by the look.
pub fn a_share_is_counted<P>(ledger: &mut Ledger, element: Element<P>) -> Element<P>
    requires { element.share ≡ ledger.old.id }
    ensures counted { 1 ≤ ledger.old.total }
    ensures same { (ledger.new ≡ ledger.old) × (result ≡ element) }
{
    let body = ledger.redeem(element);
    ledger.issue(body)
}

/// Of two elements each goes to its own ledger, and takes one share off that ledger's total alone, even where both ledgers have one number.
pub fn each_share_goes_home<P>(
    first: &mut Ledger,
    second: &mut Ledger,
    one: Element<P>,
    other: Element<P>,
) -> (Box<P>, Box<P>)
    requires one { one.share ≡ first.old.id }
    requires other { other.share ≡ second.old.id }
    ensures bodies { (result.0 ≡ one.body) × (result.1 ≡ other.body) }
    ensures first { first.old ≡ record first.new { total = first.new.total + 1 } }
    ensures second { second.old ≡ record second.new { total = second.new.total + 1 } }
{
    let body = first.redeem(one);
    (body, second.redeem(other))
}

/// No two ledgers are one, whatever their numbers: where two were one, anything would follow. So an element that is of one ledger is of
/// no other. It is a law whose condition cannot come true, since no clause of `Ledger::new` can say that its table is a new one.
pub fn two_ledgers_are_never_one(first: Ledger, second: Ledger)
    requires { first.id ≡ second.id }
    ensures { ⊥ }
{
    first.clash(second);
}
