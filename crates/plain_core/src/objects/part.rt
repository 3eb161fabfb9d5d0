//! Elements without boxes and shares.
ghost use Rattle.std.specs.Prelude.{◌≡◌, ◌<◌};
ghost use Rattle.bio_records.specs.Segments.{segments_of};
ghost use Rattle.run_machine.specs.Objects.{clear_bio, clear_vector, clear_slip};
ghost use Rattle.plain_core.specs.objects.Ledgers.{ledger_of};

use bio_records::{Bio, Pad};
use std::marker::Model;

/// The data of a write, whose segments follow from them: the first word, and how many sectors there are, or none.
#[derive(Clone, Copy)]
pub struct Data {
    pub first: u64,
    pub count: u64,
}

/// A bio that is out of a pool: an element without its box, of whose share the pool's number is known.
#[derive(Drop)]
pub struct PlainBioElement {
    bio: Bio,
    pad: Pad,
    // Of the segments that it has itself.
    content: Data,
    pool: u32,
}

impl Model for PlainBioElement {
    ghost use Rattle.std.specs.Prelude.{◌<◌};
    ghost use Rattle.bio_records.specs.declared.bio.Pad.{Pad};
    ghost use Rattle.bio_records.specs.Items.{Item};
    ghost use Rattle.bio_records.specs.Segments.{segments_of};
    ghost use Rattle.plain_core.specs.objects.Ledgers.{ledger_of};

    ghost Value = { Item Pad };

    ghost view = { λ p. record { pad = p.pad; bio = p.bio; short = segments_of p.content.first p.content.count; share = ledger_of p.pool } };

    ghost invariant = { λ p. p.pool < 66 };
}

impl PlainBioElement {
    /// The same once more.
    pub fn again(&self) -> PlainBioElement
        ensures { result ≡ self.now }
    {
        PlainBioElement {
            bio: self.bio,
            pad: self.pad,
            content: self.content,
            pool: self.pool,
        }
    }

    /// The bio in it.
    pub fn bio(&self) -> Bio
        ensures { result ≡ self.now.bio }
    {
        self.bio
    }

    /// Which leg of a mirror it is.
    pub fn pad(&self) -> Pad
        ensures { result ≡ self.now.pad }
    {
        self.pad
    }

    /// The number of its pool.
    pub fn pool(&self) -> u32
        ensures number { result ≡ self.now.share.no }
        ensures small { self.now.share.no < 66 }
    {
        self.pool
    }

    /// The same element with another bio in it.
    pub fn with(&self, bio: Bio, pad: Pad) -> PlainBioElement
        ensures { result ≡ record self.now { bio = bio; pad = pad } }
    {
        PlainBioElement {
            bio,
            pad,
            content: self.content,
            pool: self.pool,
        }
    }
}

/// A bio as its pool hands it out, with nothing in it yet.
#[derive(Drop)]
pub struct Hand {
    pool: u32,
}

impl Model for Hand {
    ghost use Rattle.std.specs.Prelude.{◌<◌};
    ghost use Rattle.bio_records.specs.declared.bio.Pad.{Pad};
    ghost use Rattle.bio_records.specs.Items.{Item};
    ghost use Rattle.run_machine.specs.Objects.{clear_bio};
    ghost use Rattle.plain_core.specs.objects.Ledgers.{ledger_of};

    ghost Value = { Item Pad };

    ghost view = { λ h. clear_bio (ledger_of h.pool) };

    ghost invariant = { λ h. h.pool < 66 };
}

impl Hand {
    /// What the pool of this number hands out.
    pub fn of(pool: u32) -> Hand
        requires { pool < 66 }
        ensures { result ≡ clear_bio (ledger_of pool) }
    {
        Hand { pool }
    }

    /// The same once more.
    pub fn again(&self) -> Hand
        ensures { result ≡ self.now }
    {
        Hand { pool: self.pool }
    }

    /// What was taken, with this bio and this pad in it. It has no segments, since nothing that a pool hands out has.
    pub fn with(&self, bio: Bio, pad: Pad) -> PlainBioElement
        ensures { result ≡ record self.now { bio = bio; pad = pad } }
    {
        PlainBioElement {
            bio,
            pad,
            content: Data { first: 0, count: 0 },
            pool: self.pool,
        }
    }

    /// The element with a write's bio in it, and with the write's segments.
    pub fn with_data(&self, bio: Bio, run: Data) -> PlainBioElement
        ensures { result ≡ record self.now { bio = bio; pad = record { leg = 0 }; short = segments_of run.first run.count } }
    {
        PlainBioElement {
            bio,
            pad: Pad { leg: 0 },
            content: run,
            pool: self.pool,
        }
    }
}

/// A vector that is out of the pool of vectors.
#[derive(Drop)]
pub struct Vector {
    content: Data,
    pool: u32,
}

impl Model for Vector {
    ghost use Rattle.std.specs.Prelude.{◌<◌};
    ghost use Rattle.bio_records.specs.Segments.{segments_of};
    ghost use Rattle.bio_books.specs.Books.{VectorItem};
    ghost use Rattle.plain_core.specs.objects.Ledgers.{ledger_of};

    ghost Value = { VectorItem };

    ghost view = { λ v. record { segments = segments_of v.content.first v.content.count; share = ledger_of v.pool } };

    ghost invariant = { λ v. v.pool < 66 };
}

impl Vector {
    /// A vector as the pool of this number hands it out.
    pub fn clear(pool: u32) -> Vector
        requires { pool < 66 }
        ensures { result ≡ clear_vector (ledger_of pool) }
    {
        Vector {
            content: Data { first: 0, count: 0 },
            pool,
        }
    }

    /// The number of its pool.
    pub fn pool(&self) -> u32
        ensures number { result ≡ self.now.share.no }
        ensures small { self.now.share.no < 66 }
    {
        self.pool
    }

    /// The same once more, with a write's segments.
    pub fn filled(&self, run: Data) -> Vector
        ensures { result ≡ record self.now { segments = segments_of run.first run.count } }
    {
        Vector {
            content: run,
            pool: self.pool,
        }
    }

    /// The same once more.
    pub fn again(&self) -> Vector
        ensures { result ≡ self.now }
    {
        self.filled(self.content)
    }
}

/// A record of a mirror that is out of its pool.
#[derive(Drop)]
pub struct Slip {
    legs: u32,
    pool: u32,
}

impl Model for Slip {
    ghost use Rattle.std.specs.Prelude.{◌<◌};
    ghost use Rattle.bio_books.specs.Books.{SlipItem};
    ghost use Rattle.plain_core.specs.objects.Ledgers.{ledger_of};

    ghost Value = { SlipItem };

    ghost view = { λ s. record { legs = s.legs; share = ledger_of s.pool } };

    ghost invariant = { λ s. s.pool < 66 };
}

impl Slip {
    /// A record as the pool of this number hands it out.
    pub fn clear(pool: u32) -> Slip
        requires { pool < 66 }
        ensures { result ≡ clear_slip (ledger_of pool) }
    {
        Slip { legs: 0, pool }
    }

    /// The number of its pool.
    pub fn pool(&self) -> u32
        ensures number { result ≡ self.now.share.no }
        ensures small { self.now.share.no < 66 }
    {
        self.pool
    }

    /// The same once more, for a bio of so many legs.
    pub fn of(&self, legs: u32) -> Slip
        ensures { result ≡ record self.now { legs = legs } }
    {
        Slip {
            legs,
            pool: self.pool,
        }
    }

    /// The same once more.
    pub fn again(&self) -> Slip
        ensures { result ≡ self.now }
    {
        self.of(self.legs)
    }
}
