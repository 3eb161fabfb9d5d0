//! What a run leaves.
ghost use Rattle.std.specs.Prelude.{◌≡◌};

use crate::plain::Plain;
use mempool_core::Facts;
use model_disks::Disk;
use stack_base::{PoolId, Status};

/// What a run that has ended leaves.
#[derive(Drop)]
pub struct Ended {
    /// The status of each write, in the order of the text.
    pub statuses: Vec<Status>,
    /// The disks of the stack, in the order of its devices.
    pub disks: Vec<Disk>,
    /// The facts of each pool, by falling number (`PoolId::no`).
    pub pools: Vec<(PoolId, Facts)>,
    /// How many events the run had.
    pub steps: u64,
}

impl Plain {
    /// What objects keep of a run that has ended: the statuses of its writes, and the disks. All else is dropped here, so that no crate above
    /// has to prove again how each object is dropped.
    pub fn leaves(self) -> (Vec<Status>, Vec<Disk>)
        ensures { result ≡ (self.tally.statuses, self.disks) }
    {
        let tally = self.tally;
        (tally.statuses, self.disks)
    }
}
