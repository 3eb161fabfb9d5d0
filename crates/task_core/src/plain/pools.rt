//! What the pools of one thread tell of themselves: their numbers, and the scripts that they have left.
ghost use Rattle.std.specs.Prelude.{◌≡◌, IsTrue};
ghost use Rattle.stack_base.specs.PoolId.{pool_number};
ghost use Rattle.stack_base.specs.declared.ids.PoolId.TheVariants.{Records};
ghost use Rattle.bioset_pools.specs.Sets.{bios_of};
ghost use Rattle.task_steps.specs.Stage.{is_pool};
ghost use Rattle.task_core.specs.Plains.{objects_of, stage_of, Holds};

use crate::plain::index::place;
use crate::plain::{Plain, bios_number};
use fail_script::Script;
use mempool_core::Facts;
use stack_base::{DevId, PoolId, SetId};

impl Plain {
    // The numbers of a set's pool of bios.
    fn bios_facts(&self, set: SetId) -> Facts
        requires holds { Holds self.now }
        requires pool { IsTrue (is_pool (stage_of self.now) (bios_of set)) }
        ensures { result ≡ ((objects_of self.now).pool (pool_number (bios_of set))).facts }
    {
        let at = place(&self.index.bios, bios_number(set));
        self.bios[at].1.facts()
    }

    // The numbers of the pool of a mirror's records.
    fn records_facts(&self, dev: DevId) -> Facts
        requires holds { Holds self.now }
        requires pool { IsTrue (is_pool (stage_of self.now) (Records dev)) }
        ensures { result ≡ ((objects_of self.now).pool (pool_number (Records dev))).facts }
    {
        let at = place(&self.index.records, PoolId::Records(dev).no());
        self.records[at].1.facts()
    }

    /// The numbers of a pool of the stack.
    pub fn facts(&self, pool: PoolId) -> Facts
        requires holds { Holds self.now }
        requires pool { IsTrue (is_pool (stage_of self.now) pool) }
        ensures { result ≡ ((objects_of self.now).pool (pool_number pool)).facts }
    {
        match pool {
            PoolId::FsBios => self.bios_facts(SetId::Fs),
            PoolId::FsVecs => self.vecs.facts(),
            PoolId::Bios(dev) => self.bios_facts(SetId::Of(dev)),
            PoolId::Records(dev) => self.records_facts(dev),
        }
    }

    // The script of a set's pool of bios.
    fn bios_script(&self, set: SetId) -> &Script
        requires holds { Holds self.now }
        requires pool { IsTrue (is_pool (stage_of self.now) (bios_of set)) }
        ensures { result.now ≡ ((objects_of self.now).pool (pool_number (bios_of set))).script }
    {
        let at = place(&self.index.bios, bios_number(set));
        self.bios[at].1.script()
    }

    // The script of the pool of a mirror's records.
    fn records_script(&self, dev: DevId) -> &Script
        requires holds { Holds self.now }
        requires pool { IsTrue (is_pool (stage_of self.now) (Records dev)) }
        ensures { result.now ≡ ((objects_of self.now).pool (pool_number (Records dev))).script }
    {
        let at = place(&self.index.records, PoolId::Records(dev).no());
        self.records[at].1.script()
    }

    /// The script of a pool of the stack.
    pub fn script(&self, pool: PoolId) -> &Script
        requires holds { Holds self.now }
        requires pool { IsTrue (is_pool (stage_of self.now) pool) }
        ensures { result.now ≡ ((objects_of self.now).pool (pool_number pool)).script }
    {
        match pool {
            PoolId::FsBios => self.bios_script(SetId::Fs),
            PoolId::FsVecs => self.vecs.script(),
            PoolId::Bios(dev) => self.bios_script(SetId::Of(dev)),
            PoolId::Records(dev) => self.records_script(dev),
        }
    }
}
