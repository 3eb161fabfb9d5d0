//! Nodes as plain data: what each holds, how many ends it waits for, and how it ends.
ghost use Rattle.std.specs.Prelude.{◌≡◌, ◌^◌, ◌-◌, ◌<◌, None, Some};
ghost use Rattle.bio_books.specs.Books.{Node as Open, told, raised, with_kept_part, top_node, master_node};
ghost use Rattle.bio_books.specs.Drops.{closed_of};

use crate::objects::part::{PlainBioElement, Slip, Vector};
use bio_books::{Role, closing, kept_with, parent_of};
use stack_base::Status;
use std::marker::Model;

/// What a node holds until it closes.
#[derive(Drop)]
pub struct Holding {
    pub bio: Option<PlainBioElement>,
    pub vector: Option<Vector>,
    pub slip: Option<Slip>,
}

impl Model for Holding {
    ghost use Rattle.bio_books.specs.Books.{Holding as Held};

    ghost Value = { Held };

    ghost view = { λ h. record { bio = h.bio; vector = h.vector; slip = h.slip } };
}

/// A part of a write that has not ended.
#[derive(Drop)]
pub struct Node {
    pub(crate) role: Role,
    pub(crate) write: u32,
    pub(crate) count: u64,
    pub(crate) status: Status,
    pub(crate) held: Holding,
}

impl Model for Node {
    ghost use Rattle.bio_books.specs.Books.{Node as Open};

    ghost Value = { Open };

    ghost view = { λ n. record { role = n.role; write = n.write; count = n.count; status = n.status; held = n.held } };
}

/// What is left of a node that has closed.
#[derive(Drop)]
pub struct Closed {
    pub held: Holding,
    pub parent: Option<u32>,
    pub write: u32,
    pub status: Status,
}

impl Model for Closed {
    ghost use Rattle.bio_books.specs.Drops.{Closed as Left};

    ghost Value = { Left };

    ghost view = { λ c. record { held = c.held; parent = c.parent; write = c.write; status = c.status } };
}

impl Holding {
    // No element but perhaps a vector.
    pub(crate) fn of(vector: Option<Vector>) -> Holding
        ensures { result ≡ record { bio = None; vector = vector; slip = None } }
    {
        Holding {
            bio: None,
            vector,
            slip: None,
        }
    }

    /// The same once more.
    pub fn again(&self) -> Holding
        ensures { result ≡ self.now }
    {
        Holding {
            bio: self.bio.as_ref().map(|part| part.again()),
            vector: self.vector.as_ref().map(|vector| vector.again()),
            slip: self.slip.as_ref().map(|slip| slip.again()),
        }
    }
}

impl Node {
    // A new node of one end.
    pub(crate) fn new(role: Role, write: u32, vector: Option<Vector>) -> Node
        ensures { result ≡ record (top_node write vector) { role = role } }
    {
        Node {
            role,
            write,
            count: 1,
            status: Status::Ok,
            held: Holding::of(vector),
        }
    }

    // A new master, of as many ends as there are legs.
    pub(crate) fn master(parent: u32, write: u32, slip: &Slip, legs: u32) -> Node
        ensures { result ≡ master_node write parent slip.now legs }
    {
        Node {
            role: Role::Master { parent },
            write,
            count: u64::from(legs),
            status: Status::Io,
            held: Holding {
                bio: None,
                vector: None,
                slip: Some(slip.of(legs)),
            },
        }
    }

    // It waits for one end more.
    pub(crate) fn raise(&mut self)
        ensures { self.old.count < 2 ^ 64 - 1 → self.new ≡ raised self.old }
    {
        self.count = self.count.wrapping_add(1);
    }

    // The node keeps this part.
    pub(crate) fn keep(&mut self, part: &PlainBioElement)
        ensures { self.new ≡ with_kept_part part.now self.old }
    {
        self.held.bio = Some(part.again());
    }

    // One of its ends is told: its status changes by its role, and a part that comes is the one that it holds then. How
    // many ends it waits for stays as it was (`__bio_chain_endio`, `block/bio.c`).
    pub(crate) fn tell(&mut self, status: Status, part: Option<PlainBioElement>)
        ensures { self.new ≡ told self.old status part }
    {
        self.status = kept_with(self.role, self.status, status);
        if part.is_some() {
            self.held.bio = part;
        }
    }

    // The node with one of its ends told.
    pub(crate) fn told(mut self, status: Status, part: Option<PlainBioElement>) -> Node
        ensures { result ≡ told self status part }
    {
        self.tell(status, part);
        self
    }

    // What is left of it as it closes.
    pub(crate) fn close(self) -> Closed
        ensures { result ≡ closed_of self }
    {
        let Node {
            role,
            write,
            status,
            held,
            ..
        } = self;
        Closed {
            held,
            parent: parent_of(role),
            write,
            status: closing(role, status),
        }
    }
}
