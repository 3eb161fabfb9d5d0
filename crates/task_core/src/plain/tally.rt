//! The tally: the present round, the unfinished writes of each round, and how writes ended.
ghost use Rattle.std.specs.Prelude.{◌≡◌, ◌<◌, ◌≤◌, ◌^◌, length, sum};

use stack_base::Status;

/// The present round, how many writes of each round are unfinished, and the status of each write that is done.
///
/// The present round is one of the rounds, of which there are at most 2^32, and there are at most `u32::MAX` unfinished writes.
#[derive(Drop)]
pub struct Tally {
    /// The present round, from 0 on.
    pub round: u32,
    /// How many writes of each round are unfinished.
    pub left: Vec<u32>,
    /// The status of each write that is done, by the write's number, and `Status::Ok` of each other.
    pub statuses: Vec<Status>,
    // How many writes are unfinished, kept beside `left`, so that a look adds up nothing.
    all: u32,
    ghost is_round: { round < length left.items },
    ghost few: { length left.items ≤ 2 ^ 32 },
    ghost adds_up: { sum left.items ≡ all },
}

// The sum of some numbers.
fn total(numbers: &[u32]) -> u32
    requires { sum numbers.now < 2 ^ 32 }
    ensures { result ≡ sum numbers.now }
{
    numbers.iter().sum()
}

impl Tally {
    ghost use Rattle.run_machine.specs.Objects.{done_one};
    ghost use Rattle.task_core.specs.Plains.{tally_of, Advances};

    /// A tally in round 0, with so many unfinished writes in each round.
    pub fn new(left: Vec<u32>, statuses: Vec<Status>) -> Tally
        requires some { 0 < length left.items }
        requires few { length left.items ≤ 2 ^ 32 }
        requires unfinished { sum left.items < 2 ^ 32 }
        ensures { tally_of result ≡ record { round = 0; left = left.items; statuses = statuses.items } }
    {
        let all = total(&left);
        Tally {
            round: 0,
            left,
            statuses,
            all,
        }
    }

    /// How many writes are unfinished.
    pub fn left(&self) -> u32
        ensures { result ≡ sum self.now.left.items }
    {
        self.all
    }

    /// The numbers of unfinished writes of all rounds add up to one of 32 bits.
    pub fn known(&self)
        ensures { sum self.now.left.items < 2 ^ 32 }
    {
        let _ = self.left();
    }

    /// A write of the present round is done, and ended so. The number of the present round falls by one, or stays at 0. Where there is no such
    /// write, no status is kept.
    pub fn done(&mut self, write: u32, status: Status)
        ensures { tally_of self.new ≡ done_one write status (tally_of self.old) }
    {
        let round = self.round as usize;
        let before = self.left[round];
        if before > 0 {
            self.left[round] = before - 1;
            self.all -= 1;
        }
        if let Some(known) = self.statuses.get_mut(write as usize) {
            *known = status;
        }
    }

    /// The next round becomes the present one. Where there is none, nothing changes.
    pub fn next_round(&mut self)
        ensures { Advances (tally_of self.old) (tally_of self.new) }
    {
        if (self.round as usize) + 1 < self.left.len() {
            self.round += 1;
        }
    }
}
