//! Walks over the bios of a list.
ghost use Rattle.std.specs.Prelude.{◌≡◌, map};
ghost use Rattle.std.specs.Iterator.{YieldsFirstBy, item_count};
ghost use Rattle.bio_records.specs.Items.{items, plain_body, plain_of};

use crate::bio::Pad;
use crate::body::BioBody;
use crate::chain::Link;
use std::marker::Model;

/// Some bios of a list, one after the other, seen as the list of those that are left (`bio_list_for_each`).
#[derive(Drop)]
pub struct Bios<'a> {
    rest: &'a Link<Pad>,
}

impl<'a> Model for Bios<'a> {
    ghost use Rattle.std.specs.Prelude.{List, map};
    ghost use Rattle.bio_records.specs.Items.{items, plain_of, PlainBio};

    ghost Value = { List PlainBio };

    ghost view = { λ b. map plain_of (items b.rest.now) };
}

impl<'a> Bios<'a> {
    /// The elements of a chain, from its first on.
    pub(crate) fn new(chain: &'a Link<Pad>) -> Bios<'a>
        ensures { result ≡ map plain_of (items chain.now) }
    {
        Bios { rest: chain }
    }
}

impl<'a> Iterator for Bios<'a> {
    type Item = &'a BioBody<Pad>;

    ghost next_gives = { YieldsFirstBy (λ body. plain_body body.now) (λ rest. rest) };

    ghost remaining = { item_count (λ rest. rest) };

    fn next(&mut self) -> Option<&'a BioBody<Pad>> {
        let (body, _) = self.rest.as_ref()?;
        self.rest = &body.next;
        Some(body)
    }
}
