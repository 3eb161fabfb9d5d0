//! The order of a run by one thread.
ghost use Rattle.std.specs.Prelude.{◌≡◌, ◌%◌, min};
ghost use Rattle.rand_core.specs.Pcg32Seed.{pcg32_seed};
ghost use Rattle.rand_pcg.specs.Pcg.{pcg32_of_seed};
ghost use Rattle.work_text.specs.Generated.{word, behind};

use rand_core::SeedableRng;
use rand_core::utils::NextWord;
use rand_pcg::Lcg64Xsh32;
use std::marker::Model;
use task_core::Chooser;

/// A stream of words that orders a run: each turn takes one, and each completion one more.
#[derive(Drop)]
pub struct Schedule {
    words: Lcg64Xsh32,
}

impl Model for Schedule {
    ghost use Rattle.rand_pcg.specs.Lcg.{Lcg};

    ghost Value = { Lcg };

    ghost view = { λ s. s.words };
}

impl Schedule {
    /// The stream of this number.
    pub fn new(number: u64) -> Schedule
        ensures { result ≡ pcg32_of_seed (pcg32_seed 16 number) }
    {
        Schedule {
            words: Lcg64Xsh32::seed_from_u64(number),
        }
    }

    /// The next word.
    pub fn word(&mut self) -> u32
        ensures word { result ≡ word self.old }
        ensures behind { self.new ≡ behind self.old }
    {
        self.words.next_word()
    }
}

impl Chooser for Schedule {
    ghost chooses = { λ old pending index new. (index ≡ word old % min pending 64) × (new ≡ behind old) };

    fn choose(&mut self, pending: u64) -> u64 {
        let word = u64::from(self.word());
        let most = pending.min(64);
        // By a number that is known here, as in `turn::named`: often many wait.
        if most == 64 { word % 64 } else { word % most }
    }
}
