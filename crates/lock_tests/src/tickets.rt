//! Tickets of a clock.
use crate::drawing::drawn_by_two;
use std::test::Fail;
use tick_clock::{Clock, Note};

#[test]
fn a_ticket_is_above_all_that_was_seen(rt: HostRuntime) -> Result<(), Fail> {
    let (clock, mut first) = Clock::new(rt.alloc())?;
    let mut note = Note::new();
    assert_eq!(rt; note.seen(), 0);
    assert_eq!(rt; clock.draw(&mut first, &mut note), Some(1));
    assert_eq!(rt; clock.draw(&mut first, &mut note), Some(2));
    assert_eq!(rt; note.seen(), 2);
    let mut second = clock.split(&mut first);
    second.meet(&note);
    let mut other = Note::new();
    assert_eq!(rt; clock.draw(&mut second, &mut other), Some(3));
    assert_eq!(rt; other.seen(), 3);
    clock.join(&mut first, second);
    assert_eq!(rt; clock.draw(&mut first, &mut note), Some(4));
    Ok(())
}

// A clock's ticket goes on from what a note brings from another clock.
#[test]
fn a_note_brings_what_it_saw_to_another_clock(rt: HostRuntime) -> Result<(), Fail> {
    let (one, mut pass) = Clock::new(rt.alloc())?;
    let (other, mut its_pass) = Clock::new(rt.alloc())?;
    let mut note = Note::new();
    assert_eq!(rt; one.draw(&mut pass, &mut note), Some(1));
    assert_eq!(rt; one.draw(&mut pass, &mut note), Some(2));
    assert_eq!(rt; other.draw(&mut its_pass, &mut note), Some(3));
    assert_eq!(rt; one.draw(&mut pass, &mut note), Some(4));
    assert_eq!(rt; one.draw(&mut pass, &mut Note::new()), Some(5));
    Ok(())
}

// Whether each number is above the one before.
fn rise(numbers: &[u64]) -> bool {
    numbers
        .iter()
        .zip(numbers.iter().skip(1))
        .all(|(before, after)| before < after)
}

#[test]
fn tickets_of_two_threads_rise_and_differ(rt: HostRuntime) -> Result<(), Fail> {
    let (mut all, theirs) = drawn_by_two(&rt, rt.alloc(), 500)?;
    assert!(rt; rise(&all) && rise(&theirs));
    all.extend_from_slice(&theirs)?;
    all.sort_unstable();
    assert!(rt; rise(&all));
    assert_eq!(rt; (all.len(), all.last()), (1000, Some(&1000)));
    Ok(())
}
