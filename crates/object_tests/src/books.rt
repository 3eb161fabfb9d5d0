//! Books of the parts of writes.
mod tables;

use crate::asks::{Case, all_hold};
use crate::bios::{bio_of_write, element_of, one, write_of};
use arrayvec::ArrayVec;
use bio_books::{Back, Book, ClosedNode, Dropped, Link, Role};
use bio_records::{Segment, VecElement};
use stack_base::Status;
use std::process::Abort;

/// A call of a book of write 7. Nodes are numbered in the order in which they were opened.
#[derive(Clone, Copy)]
enum Call {
    /// A top node, with a vector of so many segments or with none.
    Open(Option<u32>),
    Chain(usize),
    /// A master for this node, of so many legs.
    Master(usize, u32),
    Leg(usize),
    Drop(usize, Status),
    /// The last end of this node, which ends well, with the own part or without it.
    End(usize, bool),
    /// A master for this node, of two legs, which is not made.
    Unmade(usize),
    Show(usize),
}

/// What a node holds: the write of its bio, the segments of its vector, and the legs of its record.
type Held = (Option<u32>, Option<usize>, Option<u32>);

/// What a book answers, without elements and places, or what it hands out, or what a node shows.
#[derive(Clone, Copy, PartialEq, Eq)]
enum Answer {
    Made,
    NoRoom,
    Stray,
    Left,
    Up(Status),
    Top(Status),
    Back(Held),
    /// The role, the count and the status of a node, the write of its bio, and the legs of its record.
    Node(Role, u64, Status, Option<u32>, Option<u32>),
}

/// The places of a book, its calls with their answers, and whether no node is open then.
struct Calls(u32, &'static [(Call, Answer)], bool);

/// The places of the nodes that were opened.
type Places = ArrayVec<u32, 8>;

// The place of a node, or one that no book has.
fn place_of(places: &Places, node: usize) -> u32 {
    match places.get(node) {
        Some(place) => *place,
        None => u32::MAX,
    }
}

// What a call that opens a node answers; its place is kept.
fn opened(link: Link, places: &mut Places) -> Answer {
    match link {
        Link::Made(place) => {
            let _full = places.try_push(place);
            Answer::Made
        }
        Link::NoRoom(_) => Answer::NoRoom,
        Link::Stray(_) => Answer::Stray,
    }
}

// What a call that opens no node hands back.
fn unmade(link: Link) -> Answer {
    match link {
        Link::Made(_) => Answer::Made,
        Link::NoRoom(back) | Link::Stray(back) => Answer::Back(came_back(back)),
    }
}

// What a call that tells a node of an end answers.
fn told(dropped: Dropped) -> Answer {
    match dropped {
        Dropped::Left => Answer::Left,
        Dropped::Up(closed) => Answer::Up(closed.status),
        Dropped::Top(closed) => Answer::Top(closed.status),
        Dropped::Stray(_) => Answer::Stray,
    }
}

// What a node hands out that was told of its last end.
fn ended(dropped: Dropped) -> Answer {
    match dropped {
        Dropped::Up(closed) => handed(closed, false),
        Dropped::Top(closed) => handed(closed, true),
        Dropped::Left => Answer::Left,
        Dropped::Stray(_) => Answer::Stray,
    }
}

// What a node hands out that is of write 7, ended well, and had a parent but for a top node.
fn handed(closed: ClosedNode, is_top: bool) -> Answer {
    if closed.write == 7 && closed.status == Status::Ok && closed.parent.is_none() == is_top {
        Answer::Back(came_back(closed.held))
    } else {
        Answer::Stray
    }
}

// What came back.
fn came_back(back: Back) -> Held {
    let segments = match &back.vector {
        Some(element) => Some(element.body.segments.len()),
        None => None,
    };
    let legs = match &back.slip {
        Some(element) => Some(element.body.legs),
        None => None,
    };
    (write_of(back.bio), segments, legs)
}

// The role of a node, where a master of the first node has that node's number for its place.
fn numbered(places: &Places, role: Role) -> Role {
    let master = Role::Master {
        parent: place_of(places, 0),
    };
    if role == master {
        Role::Master { parent: 0 }
    } else {
        role
    }
}

// What a node shows.
fn shown(book: &Book, places: &Places, number: usize) -> Answer {
    let Some(node) = book.node(place_of(places, number)) else {
        return Answer::Stray;
    };
    let write = match node.bio() {
        Some(element) => Some(element.body.bio.write),
        None => None,
    };
    let legs = match node.slip() {
        Some(element) => Some(element.body.legs),
        None => None,
    };
    let role = numbered(places, node.role());
    Answer::Node(role, node.count(), node.status(), write, legs)
}

// A vector of so many segments.
fn vector_of(rt: &(impl Abort + AllocGlobal), segments: u32) -> VecElement {
    let mut element: VecElement = one(rt, 64);
    for _ in 0..segments {
        let _full = element.body.segments.try_push(Segment::default());
    }
    element
}

// Opens the top node of write 7.
fn open_write(rt: &(impl Abort + AllocGlobal), book: &mut Book, segments: Option<u32>) -> Link {
    let vector = match segments {
        Some(segments) => Some(vector_of(rt, segments)),
        None => None,
    };
    book.open_write(7, vector)
}

// Opens the master of a mirror of so many legs, and of one at least, for the node at a place.
fn master(rt: &(impl Abort + AllocGlobal), book: &mut Book, place: u32, legs: u32) -> Link {
    let part = element_of(rt, bio_of_write(7));
    let slip = one(rt, 1);
    book.master(place, part, slip, legs.max(1))
}

// Tells the node at a place of a good end, with the own part or without it.
fn end(rt: &(impl Abort + AllocGlobal), book: &mut Book, place: u32, has_part: bool) -> Dropped {
    if has_part {
        let part = element_of(rt, bio_of_write(7));
        return book.drop_one(place, Status::Ok, Some(part));
    }
    book.drop_one(place, Status::Ok, None)
}

// Carries out a call.
fn carry_out(
    rt: &(impl Abort + AllocGlobal),
    book: &mut Book,
    places: &mut Places,
    call: Call,
) -> Answer {
    match call {
        Call::Open(segments) => opened(open_write(rt, book, segments), places),
        Call::Chain(node) => opened(book.chain(place_of(places, node)), places),
        Call::Master(node, legs) => {
            opened(master(rt, book, place_of(places, node), legs), places)
        }
        Call::Leg(node) => opened(book.leg(place_of(places, node)), places),
        Call::Drop(node, status) => told(book.drop_one(place_of(places, node), status, None)),
        Call::End(node, has_part) => ended(end(rt, book, place_of(places, node), has_part)),
        Call::Unmade(node) => unmade(master(rt, book, place_of(places, node), 2)),
        Call::Show(node) => shown(book, places, node),
    }
}

// Whether calls answer as stated there.
fn do_answer(rt: &(impl Abort + AllocGlobal), book: &mut Book, calls: &[(Call, Answer)]) -> bool {
    let mut places = Places::new();
    for (call, answer) in calls {
        if carry_out(rt, book, &mut places, *call) != *answer {
            return false;
        }
    }
    true
}

impl Case for Calls {
    fn holds(&self, rt: &(impl Abort + AllocGlobal)) -> bool {
        let mut book = Book::open(rt.alloc(), 3, self.0).expect(rt, "no book");
        let is_its = book.writer() == 3 && book.places() == self.0;
        let are_answered = do_answer(rt, &mut book, self.1);
        let is_done = book.close().is_ok();
        is_its && are_answered && is_done == self.2
    }
}

#[test]
fn books_keep_nodes_until_their_last_ends(rt: HostRuntime) {
    all_hold(&rt, tables::CASES);
    all_hold(&rt, tables::MIRRORS);
    all_hold(&rt, tables::HELD);
}
