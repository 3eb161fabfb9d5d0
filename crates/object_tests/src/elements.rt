//! Ledgers and shares that have one number and are two.
ghost use Rattle.std.specs.Prelude.{◌≡◌};

use crate::asks::holds;
use elem_ledger::{Fresh, Ledger, laws};
use std::process::Abort;

/// A body that is a number.
#[derive(Drop)]
pub struct Note(pub u8);

impl Fresh for Note {
    ghost is_clear = { λ _. Unit {0} };

    fn fresh() -> Self {
        Note(0)
    }
}

// A box with a note of this number.
fn boxed(rt: &(impl Abort + AllocGlobal), number: u8) -> Box<Note> {
    Box::new(rt.alloc(), Note(number)).expect(rt, "no box")
}

// A ledger of the number 7.
fn ledger(rt: &(impl Abort + AllocGlobal)) -> Ledger
    ensures { result.total ≡ 0 }
{
    Ledger::new(rt.alloc(), 7).expect(rt, "no ledger")
}

// What a ledger of the number 7 counts before an issue, behind it, behind a law, and when the element was redeemed; the
// number of its note, of the element and of its share.
fn counts(rt: &(impl Abort + AllocGlobal)) -> [u64; 7] {
    let mut ledger = ledger(rt);
    let before = ledger.total();
    let element = ledger.issue(boxed(rt, 1));
    let issued = ledger.total();
    let (no, share_no) = (element.no(), element.share.no());
    let element = laws::a_share_is_counted(&mut ledger, element);
    let counted = ledger.total();
    let note = Box::into_inner(ledger.redeem(element)).0;
    [
        before,
        issued,
        counted,
        ledger.total(),
        u64::from(note),
        u64::from(no),
        u64::from(share_no),
    ]
}

// What two ledgers of one number count while each has an element out, and then; and the numbers of the two notes.
fn counts_of_two(rt: &(impl Abort + AllocGlobal)) -> [u64; 6] {
    let mut first = ledger(rt);
    let mut second = ledger(rt);
    let one = first.issue(boxed(rt, 1));
    let other = second.issue(boxed(rt, 2));
    let issued = (first.total(), second.total());
    let (one, other) = laws::each_share_goes_home(&mut first, &mut second, one, other);
    let (note, other_note) = (Box::into_inner(one).0, Box::into_inner(other).0);
    [
        issued.0,
        issued.1,
        first.total(),
        second.total(),
        u64::from(note),
        u64::from(other_note),
    ]
}

#[test]
fn ledgers_count_their_own_shares(rt: HostRuntime) {
    holds(
        &rt,
        counts(&rt) == [0, 1, 1, 0, 1, 7, 7],
        "a ledger counts its shares",
    );
    holds(
        &rt,
        counts_of_two(&rt) == [1, 1, 0, 0, 1, 2],
        "two of one number are two",
    );
}
