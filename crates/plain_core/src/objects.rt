//! The objects of a run as plain data.
ghost use Rattle.std.specs.Prelude.{◌≡◌, ℕ, ◌+◌, ◌-◌, ◌<◌, ◌==◌, length, sum, Option, None, Some};
ghost use Rattle.std.specs.List.{list_all};
ghost use Rattle.stack_base.specs.PoolId.{pool_number};
ghost use Rattle.bio_books.specs.Books.{node_at};
ghost use Rattle.bio_books.specs.Links.{IsVacant};
ghost use Rattle.task_core.specs.Plains.{tally_of};
ghost use Rattle.plain_core.specs.objects.Questions.{IsDecisionOf, TellsSpare, TellsCount};
ghost use Rattle.plain_core.specs.objects.Plain.{HasPlacesForStack, core_book_at, core_disk_at, is_home, core_pool_at, core_rescue_at, core_objects};

pub(crate) mod book;
pub(crate) mod disk;
mod links;
pub(crate) mod lists;
mod moves;
pub(crate) mod node;
pub(crate) mod part;
pub(crate) mod pool;
pub(crate) mod told;

use crate::objects::book::Book;
use crate::objects::disk::Disk;
use crate::objects::lists::Rescue;
use crate::objects::pool::Pool;
use mempool_core::Facts;
use stack_base::{DevId, PoolId};
use std::marker::Model;
use std::snapshot::Snapshot;
use task_core::{Routes, Tally};

/// The number of a pool.
pub fn pool_place(pool: PoolId) -> u64
    ensures { result ≡ pool_number pool }
{
    match pool {
        PoolId::FsBios => 65,
        PoolId::FsVecs => 64,
        PoolId::Bios(dev) => 2 * u64::from(dev.0),
        PoolId::Records(dev) => 2 * u64::from(dev.0) + 1,
    }
}

/// The objects of a run: the pools by their numbers, the bios that wait for rescuers and the disks by devices, the books by writers, and
/// the tally.
#[derive(Drop)]
pub struct Objects {
    // Whose objects they are, which has no bytes here.
    stage: Snapshot<Routes>,
    pools: Vec<Pool>,
    rescues: Vec<Rescue>,
    // By devices, of which those that are no disks have none.
    disks: Vec<Option<Disk>>,
    books: Vec<Book>,
    tally: Tally,
}

impl Model for Objects {
    ghost use Rattle.task_core.specs.Plains.{tally_of};
    ghost use Rattle.plain_core.specs.objects.Plain.{CoreObjects, HasPlacesForStack};

    ghost Value = { CoreObjects };

    ghost view = { λ o. record {
      stack = o.stage.value.stack;
      pools = o.pools.items;
      rescues = o.rescues.items;
      disks = o.disks.items;
      books = o.books.items;
      tally = tally_of o.tally;
    } };

    ghost invariant = { λ o. HasPlacesForStack o.stage.value.stack o.pools.items o.rescues.items o.disks.items };
}

impl Objects {
    /// Objects of these parts. They must have a place for each pool and device of the routes' stack, disks of its sizes, and within their
    /// devices the bios that wait for rescuers.
    pub fn new(
        routes: &Routes,
        pools: Vec<Pool>,
        rescues: Vec<Rescue>,
        disks: Vec<Option<Disk>>,
        books: Vec<Book>,
        tally: Tally,
    ) -> Objects
        requires { HasPlacesForStack routes.now.stack pools.items rescues.items disks.items }
        ensures { result ≡ core_objects routes.now.stack pools.items rescues.items disks.items books.items (tally_of tally) }
    {
        Objects {
            stage: Snapshot::of(routes),
            pools,
            rescues,
            disks,
            books,
            tally,
        }
    }

    /// There is a place for all that the stack has.
    pub fn known(&self)
        ensures { HasPlacesForStack self.now.stack self.now.pools self.now.rescues self.now.disks }
    {
        let _ = &self.pools;
    }

    /// The present round.
    pub fn round(&self) -> u32
        ensures { result ≡ self.now.tally.round }
    {
        self.tally.round
    }

    /// Whether exactly so many writes are unfinished, of all rounds together.
    pub fn has_left(&self, count: u32) -> bool
        ensures { result ≡ (sum self.now.tally.left == count) }
    {
        self.tally.left() == count
    }

    /// How many writes are unfinished.
    pub fn unfinished(&self) -> u128
        ensures { result ≡ sum self.now.tally.left }
    {
        u128::from(self.tally.left())
    }

    /// Whether a round is behind the present one.
    pub fn has_next(&self) -> bool
        ensures { IsDecisionOf result (self.now.tally.round + 1 < length self.now.tally.left) }
    {
        (self.tally.round as usize) + 1 < self.tally.left.len()
    }

    /// Whether a take of this pool can have a spare.
    pub fn has_spare(&self, pool: PoolId) -> bool
        ensures { TellsSpare result (core_pool_at self.now (pool_number pool)) }
    {
        match self.pools.get(pool_place(pool) as usize) {
            None => false,
            Some(pool) => pool.has_spare(),
        }
    }

    /// How many elements of the pool of this number are out, and 0 where there is no such pool.
    pub fn out(&self, number: u64) -> u64
        ensures { result ≡ (core_pool_at self.now number).facts.out }
    {
        match self.pools.get(number as usize) {
            None => 0,
            Some(pool) => pool.out(),
        }
    }

    /// The numbers of the pool of this number, which are those of an empty one where there is none.
    pub fn facts(&self, number: u64) -> Facts
        ensures { result ≡ (core_pool_at self.now number).facts }
    {
        match self.pools.get(number as usize) {
            None => Facts {
                min: 0,
                spares: 0,
                out: 0,
                live: 0,
                pos: 0,
                ordinary: 0,
                spare: 0,
            },
            Some(pool) => pool.facts(),
        }
    }

    /// Whether every element of all pools is at home.
    pub fn are_home(&self) -> bool
        ensures { result ≡ list_all is_home self.now.pools }
    {
        self.pools.iter().all(|pool| pool.out() == 0)
    }

    /// Whether a bio waits for the rescuer of this device's set.
    pub fn has_rescued(&self, dev: DevId) -> bool
        ensures { IsDecisionOf result (0 < length (core_rescue_at self.now dev.0)) }
    {
        match self.rescues.get(dev.0 as usize) {
            None => false,
            Some(rescue) => !rescue.is_empty(),
        }
    }

    /// Whether a bio waits in this disk.
    pub fn has_pending(&self, disk: DevId) -> bool
        ensures { IsDecisionOf result (0 < length (core_disk_at self.now disk.0).pending) }
    {
        match self.disks.get(disk.0 as usize) {
            Some(Some(disk)) => disk.is_busy(),
            _ => false,
        }
    }

    /// Whether the writer's book has a vacant place.
    pub fn has_place(&self, writer: u32) -> bool
        ensures { IsDecisionOf result ((place : ℕ) × IsVacant (core_book_at self.now writer) place) }
    {
        match self.books.get(writer as usize) {
            None => false,
            Some(book) => book.has_place(),
        }
    }

    /// How many ends the node at a place of the writer's book waits for, if one is open there.
    pub fn count_at(&self, writer: u32, place: u32) -> Option<u64>
        ensures { TellsCount result (node_at (core_book_at self.now writer) place) }
    {
        self.books.get(writer as usize)?.count_at(place)
    }
}
