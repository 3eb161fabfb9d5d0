//! Calls of books, and what they answer.
use crate::books::{Answer, Call, Calls};
use bio_books::Role;
use stack_base::Status;

/// A node closes with its last end, as the first of its ends that failed.
pub const CASES: &[Calls] = &[
    Calls(
        0,
        &[
            (Call::Open(None), Answer::NoRoom),
            (Call::Chain(0), Answer::Stray),
            (Call::Drop(0, Status::Ok), Answer::Stray),
        ],
        true,
    ),
    Calls(
        1,
        &[
            (Call::Open(None), Answer::Made),
            (Call::Chain(0), Answer::NoRoom),
            (Call::Drop(0, Status::Io), Answer::Top(Status::Io)),
            (Call::Drop(0, Status::Io), Answer::Stray),
        ],
        true,
    ),
    Calls(
        1,
        &[
            (Call::Open(None), Answer::Made),
            (Call::Drop(0, Status::Ok), Answer::Top(Status::Ok)),
            (Call::Open(None), Answer::Made),
            (Call::Drop(1, Status::NoSpace), Answer::Top(Status::NoSpace)),
        ],
        true,
    ),
    Calls(
        2,
        &[
            (Call::Open(None), Answer::Made),
            (Call::Chain(3), Answer::Stray),
        ],
        false,
    ),
    Calls(
        3,
        &[
            (Call::Open(None), Answer::Made),
            (Call::Chain(0), Answer::Made),
            (Call::Chain(0), Answer::Made),
            (Call::Chain(0), Answer::NoRoom),
            (Call::Drop(2, Status::Medium), Answer::Up(Status::Medium)),
            (Call::Drop(0, Status::Medium), Answer::Left),
            (Call::Drop(0, Status::Ok), Answer::Left),
            (Call::Drop(1, Status::Io), Answer::Up(Status::Io)),
            (Call::Drop(0, Status::Io), Answer::Top(Status::Medium)),
        ],
        true,
    ),
    Calls(
        3,
        &[
            (Call::Open(None), Answer::Made),
            (Call::Chain(0), Answer::Made),
            (Call::Chain(1), Answer::Made),
            (Call::Drop(1, Status::NoSpace), Answer::Left),
            (Call::Drop(2, Status::Io), Answer::Up(Status::Io)),
            (Call::Drop(1, Status::Io), Answer::Up(Status::NoSpace)),
            (Call::Drop(0, Status::NoSpace), Answer::Left),
            (Call::Drop(0, Status::Ok), Answer::Top(Status::NoSpace)),
        ],
        true,
    ),
];

/// A master ends well where one leg did.
pub const MIRRORS: &[Calls] = &[
    // Two legs, one of which fails, and both of which fail.
    Calls(
        4,
        &[
            (Call::Open(None), Answer::Made),
            (Call::Master(0, 2), Answer::Made),
            (Call::Leg(1), Answer::Made),
            (Call::Leg(1), Answer::Made),
            (Call::Leg(1), Answer::NoRoom),
            (Call::Drop(2, Status::Medium), Answer::Up(Status::Medium)),
            (Call::Drop(1, Status::Medium), Answer::Left),
            (Call::Drop(3, Status::Ok), Answer::Up(Status::Ok)),
            (Call::Drop(1, Status::Ok), Answer::Up(Status::Ok)),
            (Call::Drop(0, Status::Ok), Answer::Top(Status::Ok)),
        ],
        true,
    ),
    Calls(
        4,
        &[
            (Call::Open(None), Answer::Made),
            (Call::Master(0, 2), Answer::Made),
            (Call::Leg(1), Answer::Made),
            (Call::Leg(1), Answer::Made),
            (Call::Drop(2, Status::Medium), Answer::Up(Status::Medium)),
            (Call::Drop(1, Status::Medium), Answer::Left),
            (Call::Drop(3, Status::NoSpace), Answer::Up(Status::NoSpace)),
            (Call::Drop(1, Status::NoSpace), Answer::Up(Status::Io)),
            (Call::Drop(0, Status::Io), Answer::Top(Status::Io)),
        ],
        true,
    ),
    // Three legs, of which the first has ended well before the others are opened.
    Calls(
        5,
        &[
            (Call::Open(None), Answer::Made),
            (Call::Master(0, 3), Answer::Made),
            (Call::Leg(1), Answer::Made),
            (Call::Drop(2, Status::Ok), Answer::Up(Status::Ok)),
            (Call::Drop(1, Status::Ok), Answer::Left),
            (Call::Leg(1), Answer::Made),
            (Call::Leg(1), Answer::Made),
            (Call::Drop(4, Status::NoSpace), Answer::Up(Status::NoSpace)),
            (Call::Drop(1, Status::NoSpace), Answer::Left),
            (Call::Drop(3, Status::Io), Answer::Up(Status::Io)),
            (Call::Drop(1, Status::Io), Answer::Up(Status::Ok)),
            (Call::Drop(0, Status::Ok), Answer::Top(Status::Ok)),
        ],
        true,
    ),
    // A mirror for the own part of a node with two children, of which one fails.
    Calls(
        5,
        &[
            (Call::Open(None), Answer::Made),
            (Call::Chain(0), Answer::Made),
            (Call::Chain(0), Answer::Made),
            (Call::Master(0, 1), Answer::Made),
            (Call::Leg(3), Answer::Made),
            (Call::Drop(4, Status::Ok), Answer::Up(Status::Ok)),
            (Call::Drop(3, Status::Ok), Answer::Up(Status::Ok)),
            (Call::Drop(0, Status::Ok), Answer::Left),
            (Call::Drop(2, Status::NoSpace), Answer::Up(Status::NoSpace)),
            (Call::Drop(0, Status::NoSpace), Answer::Left),
            (Call::Drop(1, Status::Ok), Answer::Up(Status::Ok)),
            (Call::Drop(0, Status::Ok), Answer::Top(Status::NoSpace)),
        ],
        true,
    ),
    // A mirror below a mirror: the leg of the first has a master of its own, and a child.
    Calls(
        6,
        &[
            (Call::Open(None), Answer::Made),
            (Call::Master(0, 1), Answer::Made),
            (Call::Leg(1), Answer::Made),
            (Call::Chain(2), Answer::Made),
            (Call::Master(2, 1), Answer::Made),
            (Call::Leg(4), Answer::Made),
            (Call::Drop(5, Status::Medium), Answer::Up(Status::Medium)),
            (Call::Drop(4, Status::Medium), Answer::Up(Status::Io)),
            (Call::Drop(2, Status::Io), Answer::Left),
            (Call::Drop(3, Status::Medium), Answer::Up(Status::Medium)),
            (Call::Drop(2, Status::Medium), Answer::Up(Status::Io)),
            (Call::Drop(1, Status::Io), Answer::Up(Status::Io)),
            (Call::Drop(0, Status::Io), Answer::Top(Status::Io)),
        ],
        true,
    ),
    Calls(
        1,
        &[
            (Call::Master(0, 2), Answer::Stray),
            (Call::Leg(0), Answer::Stray),
            (Call::Open(None), Answer::Made),
            (Call::Master(0, 2), Answer::NoRoom),
            (Call::Leg(0), Answer::NoRoom),
            (Call::Drop(0, Status::Ok), Answer::Top(Status::Ok)),
            (Call::Master(0, 2), Answer::Stray),
            (Call::Leg(0), Answer::Stray),
        ],
        true,
    ),
];

/// What nodes hold and hand out.
pub const HELD: &[Calls] = &[
    Calls(
        1,
        &[
            (Call::Open(Some(5)), Answer::Made),
            (Call::End(0, true), Answer::Back((Some(7), Some(5), None))),
        ],
        true,
    ),
    // The master holds the record, and its node the part.
    Calls(
        2,
        &[
            (Call::Open(Some(5)), Answer::Made),
            (Call::Master(0, 2), Answer::Made),
            (
                Call::Show(0),
                Answer::Node(Role::Top, 1, Status::Ok, Some(7), None),
            ),
            (
                Call::Show(1),
                Answer::Node(Role::Master { parent: 0 }, 2, Status::Io, None, Some(2)),
            ),
            (Call::Show(2), Answer::Stray),
            (Call::Drop(1, Status::Ok), Answer::Left),
            (
                Call::Show(1),
                Answer::Node(Role::Master { parent: 0 }, 1, Status::Ok, None, Some(2)),
            ),
            (Call::End(1, false), Answer::Back((None, None, Some(2)))),
            (Call::End(0, false), Answer::Back((Some(7), Some(5), None))),
        ],
        true,
    ),
    // What no master was made for comes back.
    Calls(
        1,
        &[
            (Call::Open(None), Answer::Made),
            (Call::Unmade(0), Answer::Back((Some(7), None, Some(0)))),
            (Call::Unmade(8), Answer::Back((Some(7), None, Some(0)))),
        ],
        false,
    ),
];
