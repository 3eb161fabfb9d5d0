//! The pools of the devices so far, by their names.
ghost use Rattle.std.specs.Prelude.{◌≡◌, ◌≤◌, IfSome};
ghost use Rattle.stack_base.specs.PoolId.{pool_number};
ghost use Rattle.decl_text.specs.Known.{bios_named, bios_pool_of, pool_if, declared_pool, records_named, records_pool_of};

use crate::devices::Devices;
use decl_text::{What, Word};
use stack_base::{DevId, PoolId};

impl Devices<'_> {
    /// The pool of this name: `fs.bios`, `fs.vecs`, or a device's name and what the pool keeps.
    #[tactic(auto, unfolding(decl_text::specs::Known::declared_pool))]
    pub(crate) fn pool_of(&self, word: &Word<'_>) -> Option<PoolId>
        ensures pool { result ≡ declared_pool self.now word.now }
        ensures small { IfSome result (λ pool. pool_number pool ≤ 65) }
    {
        if word.is(b"fs.bios") {
            return Some(PoolId::FsBios);
        }
        if word.is(b"fs.vecs") {
            return Some(PoolId::FsVecs);
        }
        match self.bios_named(word) {
            Some(pool) => Some(pool),
            None => self.records_named(word),
        }
    }

    /// The pool of bios of this name.
    fn bios_named(&self, word: &Word<'_>) -> Option<PoolId>
        ensures pool { result ≡ bios_named self.now word.now }
        ensures small { IfSome result (λ pool. pool_number pool ≤ 65) }
    {
        let number = self.number_before(b".bios", word)?;
        self.bios_at(number)
    }

    /// The pool of records of this name.
    fn records_named(&self, word: &Word<'_>) -> Option<PoolId>
        ensures pool { result ≡ records_named self.now word.now }
        ensures small { IfSome result (λ pool. pool_number pool ≤ 65) }
    {
        let number = self.number_before(b".records", word)?;
        self.records_at(number)
    }

    /// The pool of bios of the device of this number.
    fn bios_at(&self, number: usize) -> Option<PoolId>
        ensures pool { result ≡ pool_if bios_pool_of self.now number }
        ensures small { IfSome result (λ pool. pool_number pool ≤ 65) }
    {
        match self.what_at(number)? {
            What::Disk { .. } => None,
            _ => Some(PoolId::Bios(DevId(number as u32))),
        }
    }

    /// The pool of records of the device of this number.
    fn records_at(&self, number: usize) -> Option<PoolId>
        ensures pool { result ≡ pool_if records_pool_of self.now number }
        ensures small { IfSome result (λ pool. pool_number pool ≤ 65) }
    {
        match self.what_at(number)? {
            What::Mirror { .. } => Some(PoolId::Records(DevId(number as u32))),
            _ => None,
        }
    }
}
