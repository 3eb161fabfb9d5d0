//! Locks over a number.
use crate::number::{added_by_two, added_in_turn};
use std::test::Fail;

#[test]
fn calls_of_two_seats_are_served(rt: HostRuntime) -> Result<(), Fail> {
    for (one, other, early, late) in [(2, 3, 2, 5), (0, 0, 0, 0), (u64::MAX, 3, u64::MAX, 2)] {
        match added_in_turn(&rt, rt.alloc(), one, other) {
            Ok(added) => assert_eq!(rt; added, (early, late, late)),
            Err(_) => return Err(Fail::from("no memory for a lock")),
        }
    }
    Ok(())
}

#[test]
fn no_call_of_two_threads_is_lost(rt: HostRuntime) -> Result<(), Fail> {
    for often in [1000, 1, 0] {
        match added_by_two(&rt, rt.alloc(), often) {
            Ok(added) => assert_eq!(rt; added, (2 * often, true)),
            Err(_) => return Err(Fail::from("no memory for a lock")),
        }
    }
    Ok(())
}
