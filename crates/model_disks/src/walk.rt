//! A walk over the bios that wait in a disk.
ghost use Rattle.std.specs.Prelude.{◌≡◌, ◌++◌, map};
ghost use Rattle.std.specs.Iterator.{YieldsFirstBy, item_count};
ghost use Rattle.bio_records.specs.Items.{item_of, plain_body, plain_of};

use bio_records::{BioBody, BioElement, Bios, Pad};
use std::marker::Model;

/// Some of the bios that wait in a disk, one after the other, seen as the list of those that are left: first those that stand side by side, in
/// three parts, and then those of a list.
#[derive(Drop)]
pub struct Waiting<'a> {
    window: &'a [BioElement],
    ring: &'a [BioElement],
    wrapped: &'a [BioElement],
    rest: Bios<'a>,
}

impl<'a> Model for Waiting<'a> {
    ghost use Rattle.std.specs.Prelude.{◌++◌, List, map};
    ghost use Rattle.bio_records.specs.Items.{item_of, plain_of, PlainBio};

    ghost Value = { List PlainBio };

    ghost view = { λ w. map plain_of (map item_of (w.window.now ++ w.ring.now ++ w.wrapped.now)) ++ w.rest };
}

impl<'a> Waiting<'a> {
    /// The bios of a window, of the two parts of a ring, and then those of a list.
    pub(crate) fn new(
        window: &'a [BioElement],
        ring: &'a [BioElement],
        wrapped: &'a [BioElement],
        rest: Bios<'a>,
    ) -> Waiting<'a>
        ensures { result ≡ map plain_of (map item_of (window.now ++ ring.now ++ wrapped.now)) ++ rest.entry }
    {
        Waiting {
            window,
            ring,
            wrapped,
            rest,
        }
    }
}

impl<'a> Iterator for Waiting<'a> {
    type Item = &'a BioBody<Pad>;

    ghost next_gives = { YieldsFirstBy (λ body. plain_body body.now) (λ rest. rest) };

    ghost remaining = { item_count (λ rest. rest) };

    fn next(&mut self) -> Option<&'a BioBody<Pad>> {
        if let Some((first, others)) = self.window.split_first() {
            self.window = others;
            return Some(&first.body);
        }
        if let Some((first, others)) = self.ring.split_first() {
            self.ring = others;
            return Some(&first.body);
        }
        if let Some((first, others)) = self.wrapped.split_first() {
            self.wrapped = others;
            return Some(&first.body);
        }
        self.rest.next()
    }
}
