//! Texts and why they are refused, each worked out by hand from the rules: the number of the reason, and the line, counted from 1.
mod accepted;
mod lines;
mod order;
mod rounds;
mod sizes;
mod words;

use crate::asks::holds;
use crate::made::{Part, text_of};
use crate::scenes::refusal_of;
use decl_text::{Reason, Refusal};
use std::process::Abort;

/// The reasons by their numbers, from 1 on, and their names.
const NAMES: &[(Reason, &str)] = &[
    (Reason::BadWord, "BadWord"),
    (Reason::BadNumber, "BadNumber"),
    (Reason::NameTaken, "NameTaken"),
    (Reason::NoSuchDevice, "NoSuchDevice"),
    (Reason::MemberTaken, "MemberTaken"),
    (Reason::BadShape, "BadShape"),
    (Reason::TooLarge, "TooLarge"),
    (Reason::EmptyDevice, "EmptyDevice"),
    (Reason::ReserveZero, "ReserveZero"),
    (Reason::NeedsRescuer, "NeedsRescuer"),
    (Reason::NotATop, "NotATop"),
    (Reason::PastEnd, "PastEnd"),
    (Reason::Overlap, "Overlap"),
    (Reason::TooManySegments, "TooManySegments"),
    (Reason::NoSuchPool, "NoSuchPool"),
    (Reason::TooLong, "TooLong"),
    (Reason::NotText, "NotText"),
    (Reason::TooMuchWork, "TooMuchWork"),
];

/// A text, and the line that is refused.
type RefusedText = (&'static str, u64);

/// A text, the number of the reason, and the line.
type Fault = (&'static str, u32, u64);

// Why a text is refused, where it is, has to be this.
fn is_told(rt: &(impl Abort + AllocGlobal), text: &[u8], told: Option<Refusal>) {
    let found = refusal_of(rt, text);
    assert_eq!(rt; found, told, "of {:?}", str::from_utf8(text));
}

// A text has to be refused for the reason of this number, at this line.
fn is_refused(rt: &(impl Abort + AllocGlobal), text: &str, number: u32, line: u64) {
    is_told(rt, text.as_bytes(), Some(Refusal { number, line }))
}

// Whether a reason has this number and this name.
fn is_named(reason: Reason, number: usize, name: &str) -> bool {
    let Refusal {
        number: found,
        line,
    } = reason.at(7);
    found as usize == number && line == 7 && reason.at(7).name() == name.as_bytes()
}

#[test]
fn reasons_have_their_numbers_and_names(rt: HostRuntime) {
    for (before, (reason, name)) in NAMES.iter().enumerate() {
        holds(&rt, is_named(*reason, before + 1, name), name);
    }
}

// Texts have to be refused for this reason, each at its line.
fn are_wrong(rt: &(impl Abort + AllocGlobal), reason: Reason, texts: &[RefusedText]) {
    for (text, line) in texts {
        is_refused(rt, text, reason.at(*line).number, *line);
    }
}

// A prover's steps have a limit, which a test of some 290 rows passes.
#[test]
fn wrong_counts_of_words_and_options_are_refused(rt: HostRuntime) {
    are_wrong(&rt, Reason::BadWord, words::WORD_COUNTS);
    are_wrong(&rt, Reason::BadWord, words::OPTIONS);
}

#[test]
fn wrong_words_and_late_declarations_are_refused(rt: HostRuntime) {
    are_wrong(&rt, Reason::BadWord, words::WORDS);
    are_wrong(&rt, Reason::BadWord, words::BEHIND_A_WRITE);
    are_wrong(&rt, Reason::BadNumber, lines::BAD_NUMBERS);
}

#[test]
fn wrong_names_and_members_are_refused(rt: HostRuntime) {
    are_wrong(&rt, Reason::NameTaken, lines::NAMES_TAKEN);
    are_wrong(&rt, Reason::NoSuchDevice, lines::NO_DEVICES);
    are_wrong(&rt, Reason::MemberTaken, lines::MEMBERS_TAKEN);
    are_wrong(&rt, Reason::BadShape, lines::BAD_SHAPES);
    are_wrong(&rt, Reason::NoSuchPool, lines::NO_POOLS);
}

#[test]
fn wrong_sizes_and_writes_are_refused(rt: HostRuntime) {
    are_wrong(&rt, Reason::TooLarge, lines::TOO_LARGE);
    are_wrong(&rt, Reason::EmptyDevice, lines::EMPTY_DEVICES);
    are_wrong(&rt, Reason::ReserveZero, lines::RESERVES_ZERO);
    are_wrong(&rt, Reason::NeedsRescuer, lines::RESCUERS_MISSING);
    are_wrong(&rt, Reason::NotATop, lines::NOT_TOPS);
    are_wrong(&rt, Reason::PastEnd, lines::PAST_ENDS);
    are_wrong(&rt, Reason::Overlap, lines::OVERLAPS);
    are_wrong(&rt, Reason::TooManySegments, lines::TOO_MANY_SEGMENTS);
}

#[test]
fn wrong_lines_of_rounds_are_refused(rt: HostRuntime) {
    are_wrong(&rt, Reason::BadWord, rounds::BAD_WORDS);
    are_wrong(&rt, Reason::BadNumber, rounds::BAD_NUMBERS);
    are_wrong(&rt, Reason::NameTaken, rounds::NAMES_TAKEN);
    are_wrong(&rt, Reason::TooLarge, rounds::TOO_LARGE);
    are_wrong(&rt, Reason::ReserveZero, rounds::RESERVES_ZERO);
    are_wrong(&rt, Reason::NoSuchPool, rounds::NO_POOLS);
    are_wrong(&rt, Reason::Overlap, rounds::OVERLAPS);
}

// Of texts with more than one fault this one has to be told.
fn are_told(rt: &(impl Abort + AllocGlobal), texts: &[Fault]) {
    for (text, number, line) in texts {
        is_refused(rt, text, *number, *line);
    }
}

#[test]
fn the_first_fault_of_the_first_wrong_line_is_told(rt: HostRuntime) {
    are_told(&rt, order::TWO_FAULTS);
    are_told(&rt, order::EARLIER_LINES);
    are_told(&rt, order::COUNTED);
    are_told(&rt, rounds::TWO_FAULTS);
}

#[test]
fn bytes_that_no_text_has_are_refused(rt: HostRuntime) {
    for (text, line) in order::NOT_TEXT {
        is_told(&rt, *text, Some(Reason::NotText.at(*line)));
    }
}

// Texts that are made have to be refused so.
fn are_refused(rt: &(impl Abort + AllocGlobal), rows: &[(&[Part], u32, u64)]) {
    for (parts, number, line) in rows {
        let text = text_of(rt, *parts);
        is_refused(rt, text.as_str(), *number, *line);
    }
}

#[test]
fn texts_with_too_much_are_refused(rt: HostRuntime) {
    are_refused(&rt, sizes::MADE);
}

#[test]
fn texts_with_too_many_rounds_are_refused(rt: HostRuntime) {
    are_refused(&rt, rounds::MADE);
}

#[test]
fn texts_without_a_fault_are_accepted(rt: HostRuntime) {
    for text in accepted::ACCEPTED {
        is_told(&rt, text.as_bytes(), None);
    }
    for parts in sizes::MADE_ACCEPTED {
        let text = text_of(&rt, *parts);
        is_told(&rt, text.as_bytes(), None);
    }
}
