//! Words, and the orders that they give.
use biostack_words::{Order, WordFault, read_words};
use std::alloc::AllocGlobal;
use std::process::Abort;

/// Words, and their order.
type Row = (&'static [&'static str], Order);

const RUNS: &[Row] = &[
    (
        &["run"],
        Order::Run {
            number: 0,
            trace: false,
        },
    ),
    (
        &["run", "--trace"],
        Order::Run {
            number: 0,
            trace: true,
        },
    ),
    (
        &["run", "--seed", "5"],
        Order::Run {
            number: 5,
            trace: false,
        },
    ),
    (
        &["run", "--seed=5", "--trace"],
        Order::Run {
            number: 5,
            trace: true,
        },
    ),
    (
        &["run", "--trace", "--seed", "5"],
        Order::Run {
            number: 5,
            trace: true,
        },
    ),
    (
        &["run", "--seed", "007"],
        Order::Run {
            number: 7,
            trace: false,
        },
    ),
    (
        &["run", "--seed=18446744073709551615"],
        Order::Run {
            number: 18446744073709551615,
            trace: false,
        },
    ),
    (
        &["run", "--seed", "00000000000000000001"],
        Order::Run {
            number: 1,
            trace: false,
        },
    ),
];

const WORKERS: &[Row] = &[
    (
        &["run", "--workers", "1"],
        Order::Workers { n: 1, trace: false },
    ),
    (
        &["run", "--workers=02"],
        Order::Workers { n: 2, trace: false },
    ),
    (
        &["run", "--workers", "16", "--trace"],
        Order::Workers { n: 16, trace: true },
    ),
    (
        &["run", "--trace", "--workers=4"],
        Order::Workers { n: 4, trace: true },
    ),
];

const OTHERS: &[Row] = &[
    (&["check"], Order::Check),
    (&["layout"], Order::Layout),
    (
        &["gen", "7"],
        Order::Gen {
            number: 7,
            text: false,
        },
    ),
    (
        &["gen", "7", "--text"],
        Order::Gen {
            number: 7,
            text: true,
        },
    ),
    (
        &["gen", "--text", "7"],
        Order::Gen {
            number: 7,
            text: true,
        },
    ),
    (&["replay"], Order::Replay),
    (&["scrub"], Order::Scrub { number: 0 }),
    (&["scrub", "--seed=3"], Order::Scrub { number: 3 }),
    (&["scrub", "--seed", "3"], Order::Scrub { number: 3 }),
];

/// Words that are no order: other first words, and what may not stand behind a command.
const NO_COMMANDS: &[&[&str]] = &[
    &[],
    &[""],
    &["-"],
    &["--"],
    &["help"],
    &["--help"],
    &["-h"],
    &["--version"],
    &["-V"],
    &["Run"],
    &["ru"],
    &["runs"],
    &["--seed=1", "run"],
    &["--trace", "run"],
    &["--", "run"],
    &["check", "check"],
    &["check", "--trace"],
    &["check", "--seed=1"],
    &["layout", "7"],
    &["layout", "--text"],
    &["replay", "--trace"],
    &["replay", "--seed", "1"],
    &["scrub", "--trace"],
    &["scrub", "--workers", "2"],
    &["scrub", "3"],
    &["gen", "7", "--seed", "1"],
    &["gen", "7", "--trace"],
    &["run", "7"],
    &["run", "--text"],
    &["run", ""],
    &["run", "check"],
];

/// Options that are wrong: repeated, without a value, with one too many, shortened, of another name, or a request for help.
const NO_OPTIONS: &[&[&str]] = &[
    &["run", "--seed", "1", "--workers", "2"],
    &["run", "--workers=2", "--seed=1"],
    &["run", "--trace", "--trace"],
    &["run", "--seed", "1", "--seed", "1"],
    &["run", "--seed=1", "--seed=1"],
    &["run", "--seed=1", "--seed", "1"],
    &["run", "--seed", "1", "--seed=1"],
    &["run", "--seed", "1", "--trace", "--seed", "1"],
    &["run", "--workers", "2", "--workers", "2"],
    &["scrub", "--seed", "1", "--seed", "1"],
    &["gen", "1", "2"],
    &["gen", "1", "--text", "2"],
    &["gen", "7", "--text", "--text"],
    &["gen"],
    &["gen", "--text"],
    &["run", "--seed"],
    &["run", "--workers"],
    &["run", "--seed", "--trace"],
    &["run", "--trace", "--seed"],
    &["scrub", "--seed"],
    &["run", "--trace=yes"],
    &["run", "--trace="],
    &["run", "--trace", "yes"],
    &["gen", "7", "--text=1"],
    &["run", "--tra"],
    &["run", "--see", "5"],
    &["run", "--work=2"],
    &["gen", "7", "--tex"],
    &["run", "--Trace"],
    &["run", "-s", "5"],
    &["run", "-t"],
    &["run", "-"],
    &["run", "--"],
    &["run", "--seed", "--", "5"],
    &["run", "--trace", "--"],
    &["gen", "--", "7"],
    &["run", "--help"],
    &["run", "-h"],
    &["run", "help"],
    &["run", "--version"],
    &["gen", "--help"],
    &["gen", "help"],
];

/// Values that are no numbers, or none of these.
const NO_NUMBERS: &[&[&str]] = &[
    &["run", "--seed="],
    &["run", "--seed", ""],
    &["run", "--seed", "-1"],
    &["run", "--seed=-1"],
    &["run", "--seed", "-"],
    &["run", "--seed=-"],
    &["run", "--seed", "+5"],
    &["run", "--seed==5"],
    &["run", "--seed=5 "],
    &["run", "--seed", " 5"],
    &["run", "--seed", "5x"],
    &["run", "--seed", "0x5"],
    &["run", "--seed", "1_000"],
    &["run", "--seed", "1.0"],
    &["run", "--seed", "١"],
    &["run", "--seed=18446744073709551616"],
    &["run", "--seed=000000000000000000001"],
    &["run", "--workers", "0"],
    &["run", "--workers", "17"],
    &["run", "--workers=017"],
    &["run", "--workers="],
    &["run", "--workers", "-1"],
    &["run", "--workers=4294967298"],
    &["gen", "-7"],
    &["gen", "+7"],
    &["gen", ""],
    &["gen", "7x"],
    &["gen", "18446744073709551616"],
    &["scrub", "--seed="],
    &["scrub", "--seed=-1"],
];

// The words of a command line.
fn words_of(rt: &(impl Abort + AllocGlobal), row: &[&str]) -> Vec<String> {
    let mut words = Vec::new(rt.alloc());
    for word in row {
        let word = String::from_str(rt.alloc(), word).expect(rt, "no word");
        words.push(word).expect(rt, "no words");
    }
    words
}

// Words have to give this order, or to be refused.
fn give(rt: &(impl Abort + AllocGlobal), row: &[&str], order: Result<Order, WordFault>) {
    let words = words_of(rt, row);
    let found = read_words(rt.alloc(), words.as_slice());
    assert_eq!(rt; found, order, "of {row:?}");
}

// Words have to give their orders.
fn give_orders(rt: &(impl Abort + AllocGlobal), rows: &[Row]) {
    for (row, order) in rows {
        give(rt, *row, Ok(*order));
    }
}

// Words have to be refused.
fn are_refused(rt: &(impl Abort + AllocGlobal), rows: &[&[&str]]) {
    for row in rows {
        give(rt, *row, Err(WordFault::Refused));
    }
}

#[test]
fn words_give_their_orders(rt: HostRuntime) {
    give_orders(&rt, RUNS);
    give_orders(&rt, WORKERS);
    give_orders(&rt, OTHERS);
}

#[test]
fn other_words_are_refused(rt: HostRuntime) {
    are_refused(&rt, NO_COMMANDS);
    are_refused(&rt, NO_OPTIONS);
    are_refused(&rt, NO_NUMBERS);
}
