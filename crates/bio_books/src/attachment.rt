//! What a node keeps beside its bio.
ghost use Rattle.std.specs.Prelude.{◌≡◌, None};
ghost use Rattle.bio_books.specs.Books.{holding_vector};
ghost use Rattle.bio_books.specs.Kept.{held_with};
ghost use Rattle.bio_books.specs.Views.{holding_of, vector_of};

use crate::node::Back;
use bio_records::{BioElement, SlipElement, VecElement};

/// What a node keeps beside its bio: a top node its vector, a master its mirror's record. No node keeps both, so it has room for one of them.
#[derive(Drop)]
pub enum Attachment {
    /// Neither.
    Nothing,
    /// The segments of a write.
    Vector(VecElement),
    /// The record of a mirror, with the number of its legs.
    Slip(SlipElement),
}

impl Attachment {
    /// A vector, if there is one.
    pub fn of_vector(vector: Option<VecElement>) -> Attachment
        ensures { held_with None result ≡ holding_vector (vector_of vector) }
    {
        match vector {
            Some(element) => Attachment::Vector(element),
            None => Attachment::Nothing,
        }
    }

    /// What a node held that kept it and this bio.
    pub fn into_held(self, bio: Option<BioElement>) -> Back
        ensures held { holding_of result ≡ held_with bio self }
        ensures bio { result.bio ≡ bio }
    {
        let (vector, slip) = match self {
            Attachment::Nothing => (None, None),
            Attachment::Vector(element) => (Some(element), None),
            Attachment::Slip(element) => (None, Some(element)),
        };
        Back { bio, vector, slip }
    }
}
