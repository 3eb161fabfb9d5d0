//! The nodes of a book.
ghost use Rattle.std.specs.Prelude.{◌≡◌, ◌≤◌, option_copied};
ghost use Rattle.bio_records.specs.Items.{item_of, IsAlone};
ghost use Rattle.bio_books.specs.Books.{child_node, closing, kept_with, leg_node, master_node, nothing_held, parent_of, told, top_node, unmastered};
ghost use Rattle.bio_books.specs.Views.{bio_of, closed_node_of, holding_of, slip_item, slip_of, vector_of, IsAlonePart};
ghost use Rattle.bio_books.specs.Drops.{closed_of};

pub mod changes;

use crate::attachment::Attachment;
use crate::statuses::{closing, kept_with};
use bio_records::{BioElement, SlipElement, VecElement};
use stack_base::Status;
use std::marker::Model;

/// Elements that a node kept, or that no node was made for.
#[derive(Drop)]
pub struct Back {
    pub bio: Option<BioElement>,
    pub vector: Option<VecElement>,
    pub slip: Option<SlipElement>,
}

/// What is left of a node that has closed.
#[derive(Drop)]
pub struct ClosedNode {
    /// What it held.
    pub held: Back,
    /// The place of the node that it was a child of, which is to be told of its end.
    pub parent: Option<u32>,
    /// The write that it was a part of.
    pub write: u32,
    /// How it ended: as the first of its ends that failed, or well.
    pub status: Status,
}

/// What a node is to others.
#[derive(Clone, Copy, Debug, PartialEq, Eq)]
pub enum Role {
    /// The whole of a write.
    Top,
    /// A child of the node at this place, which waits for it.
    Chain { parent: u32 },
    /// What a mirror makes of the own part of the node at this place.
    Master { parent: u32 },
    /// The part of one member of a mirror, and a child of the master at this place.
    Leg { parent: u32 },
}

/// A part of a write that has not ended. Its role says what it is to others, and how its status is kept and how it closes go by that. A master's
/// mark is its status, `io` until a leg has ended well: a mark of its own would say the same thing twice in every node.
#[derive(Drop)]
pub struct Node {
    // In this order the least room is lost between them, and a node takes 72 bytes: a book touches one for each part of a write.
    role: Role,
    write: u32,
    status: Status,
    count: u64,
    bio: Option<BioElement>,
    attachment: Attachment,
}

impl Model for Node {
    ghost use Rattle.bio_books.specs.Books.{Node as NodeState};
    ghost use Rattle.bio_books.specs.Kept.{held_with, IsOpen};

    ghost Value = { NodeState };

    ghost view = { λ n. record { role = n.role; write = n.write; count = n.count; status = n.status; held = held_with n.bio n.attachment } };

    ghost invariant = { λ n. IsOpen n.count n.bio };
}

/// The place of the node that a node of a role is a child of, if it is one.
pub fn parent_of(role: Role) -> Option<u32>
    ensures { result ≡ parent_of role }
{
    match role {
        Role::Top => None,
        Role::Chain { parent } | Role::Master { parent } | Role::Leg { parent } => Some(parent),
    }
}

impl Back {
    /// No element.
    pub(crate) fn nothing() -> Back
        ensures held { holding_of result ≡ nothing_held }
        ensures alone { IsAlonePart result.bio }
    {
        Back {
            bio: None,
            vector: None,
            slip: None,
        }
    }

    /// The own part of a node and a mirror's record, for which there is no master.
    pub(crate) fn unmastered(part: BioElement, slip: SlipElement) -> Back
        requires { IsAlone part }
        ensures held { holding_of result ≡ unmastered (item_of part) (slip_item slip) }
        ensures alone { IsAlonePart result.bio }
    {
        Back {
            bio: Some(part),
            vector: None,
            slip: Some(slip),
        }
    }
}

impl Node {
    /// The top node of a write.
    pub(crate) fn top(write: u32, vector: Option<VecElement>) -> Node
        ensures { result ≡ top_node write (vector_of vector) }
    {
        Node {
            role: Role::Top,
            write,
            status: Status::Ok,
            count: 1,
            bio: None,
            attachment: Attachment::of_vector(vector),
        }
    }

    /// A child of the node at a place, of the same write.
    pub(crate) fn child(write: u32, parent: u32) -> Node
        ensures { result ≡ child_node write parent }
    {
        Node {
            role: Role::Chain { parent },
            write,
            status: Status::Ok,
            count: 1,
            bio: None,
            attachment: Attachment::Nothing,
        }
    }

    /// A master, which stands for the own part of the node at a place, of the same write and of as many ends as there are legs. It holds
    /// the mirror's record, which has their number from then on.
    pub(crate) fn master(write: u32, parent: u32, mut slip: SlipElement, legs: u32) -> Node
        requires { 1 ≤ legs }
        ensures { result ≡ master_node write parent (slip_item slip) legs }
    {
        slip.body.legs = legs;
        Node {
            role: Role::Master { parent },
            write,
            status: Status::Io,
            count: u64::from(legs),
            bio: None,
            attachment: Attachment::Slip(slip),
        }
    }

    /// A leg of the master at a place, of the same write.
    pub(crate) fn leg(write: u32, parent: u32) -> Node
        ensures { result ≡ leg_node write parent }
    {
        Node {
            role: Role::Leg { parent },
            write,
            status: Status::Ok,
            count: 1,
            bio: None,
            attachment: Attachment::Nothing,
        }
    }

    /// What it is to other nodes.
    pub fn role(&self) -> Role
        ensures { result ≡ self.now.role }
    {
        self.role
    }

    /// How it has ended so far. It is `Status::Io` at a master until a leg has ended well, and `Status::Ok` from then on.
    pub fn status(&self) -> Status
        ensures { result ≡ self.now.status }
    {
        self.status
    }

    /// The part that it keeps, if it keeps one.
    pub fn bio(&self) -> Option<&BioElement>
        ensures bio { bio_of (option_copied result) ≡ self.now.held.bio }
        ensures alone { IsAlonePart (option_copied result) }
    {
        self.bio.as_ref()
    }

    /// The record of the mirror that it keeps, if it is a master.
    pub fn slip(&self) -> Option<&SlipElement>
        ensures { slip_of (option_copied result) ≡ self.now.held.slip }
    {
        match &self.attachment {
            Attachment::Slip(element) => Some(element),
            Attachment::Nothing | Attachment::Vector(_) => None,
        }
    }

    /// The vector that it keeps, if it is the top node of a write that has one.
    pub fn vector(&self) -> Option<&VecElement>
        ensures { vector_of (option_copied result) ≡ self.now.held.vector }
    {
        match &self.attachment {
            Attachment::Vector(element) => Some(element),
            Attachment::Nothing | Attachment::Slip(_) => None,
        }
    }

    /// How many ends it waits for.
    pub fn count(&self) -> u64
        ensures count { result ≡ self.now.count }
        ensures some { 1 ≤ self.now.count }
    {
        self.count
    }

    /// The write that it is a part of.
    pub fn write(&self) -> u32
        ensures { result ≡ self.now.write }
    {
        self.write
    }

    /// Keeps the first end that failed, and the last part that came (`__bio_chain_endio`, `block/bio.c`).
    #[inline(always)] // as `alter`
    pub(crate) fn tell(&mut self, status: Status, part: Option<BioElement>)
        requires { IsAlonePart part }
        ensures { self.new ≡ told self.old status (bio_of part) }
    {
        self.status = kept_with(self.role, self.status, status);
        if part.is_some() {
            self.bio = part;
        }
    }

    /// What it holds, where it is not kept.
    pub(crate) fn into_held(self) -> Back
        ensures held { holding_of result ≡ self.held }
        ensures alone { IsAlonePart result.bio }
    {
        let Node {
            bio,
            attachment,
            ..
        } = self;
        attachment.into_held(bio)
    }

    /// What is left of it as it closes.
    pub(crate) fn close(self) -> ClosedNode
        ensures closed { closed_node_of result ≡ closed_of self }
        ensures alone { IsAlonePart result.held.bio }
    {
        let Node {
            role,
            write,
            status,
            bio,
            attachment,
            ..
        } = self;
        ClosedNode {
            held: attachment.into_held(bio),
            parent: parent_of(role),
            write,
            status: closing(role, status),
        }
    }
}
