//! Bio sets as Linux 6.1 has them (`struct bio_set`, `block/bio.c`): a pool of bios, for the writers' set a pool of vectors besides, and
//! for a set with a rescuer the list of the bios that wait for it.
#![tactic(auto)]

ghost use Rattle.std.specs.Prelude.{◌≡◌, ◌≢◌, ◌≤◌, ◌<◌, ◌^◌, ◌↔◌, ◌⊎◌, [], IsTrue, IfOk};
ghost use Rattle.stack_base.specs.PoolId.{pool_number};
ghost use Rattle.bio_records.specs.Items.{item_of, IsAlone};
ghost use Rattle.bio_records.specs.Clear.{IsClearBody};
ghost use Rattle.bioset_pools.specs.Sets.{IsPlan, IsPlanned, bios_of, rescue_of, waits_first, IsFirstTry};

use bio_records::{Bio, BioBody, BioElement, Pad, RescueList, Vector, Waits};
use elem_ledger::Fresh;
use fail_script::Script;
use mempool_core::Pool;
use stack_base::{PoolId, SetId};
use std::alloc::{AllocError, Global};
use std::marker::Model;

/// What a set is made with.
#[derive(Clone, Copy, PartialEq, Eq)]
pub struct SetPlan {
    /// Whose set it is.
    pub set: SetId,
    /// How many bios its pool keeps (`bioset_init`).
    pub bios: u32,
    /// How many vectors its second pool keeps, if it has one (`BIOSET_NEED_BVECS`).
    pub vecs: Option<u32>,
    /// Whether it has a rescuer (`BIOSET_NEED_RESCUER`).
    pub rescuer: bool,
}

/// The parts of a set.
#[derive(Drop)]
pub struct SetParts {
    /// The pool of bios (`bio_pool`).
    pub bios: Pool<BioBody<Pad>>,
    /// The pool of vectors of 256 segments (`bvec_pool`), of the writers' set alone. An element is one vector with that room, and its length says
    /// how many segments are filled.
    pub vecs: Option<Pool<Vector>>,
    /// The list of bios that wait for the rescuer (`rescue_list`), where the set has one.
    pub list: Option<RescueList>,
}

/// A set that was made as its plan says, before it is taken apart.
#[derive(Drop)]
pub struct BioSet {
    parts: SetParts,
}

impl Model for BioSet {
    ghost use Rattle.bioset_pools.specs.declared.SetParts.{SetParts};

    ghost Value = { SetParts };

    ghost view = { λ s. s.parts };
}

/// The pool of a set's bios.
pub fn bios_of(set: SetId) -> PoolId
    ensures { result ≡ bios_of set }
{
    match set {
        SetId::Fs => PoolId::FsBios,
        SetId::Of(dev) => PoolId::Bios(dev),
    }
}

// The list of a set's rescuer, if it has one. The writers' set has none.
fn list_of(plan: &SetPlan) -> Option<RescueList>
    ensures { result ≡ rescue_of plan.now }
{
    match plan.set {
        SetId::Of(dev) if plan.rescuer => Some(RescueList::new(dev)),
        _ => None,
    }
}

impl BioSet {
    /// Makes a set as the plan says (`bioset_init`). The scripts say which takes of its bios and its vectors may have ordinary memory. Reserves are
    /// at least 1, so that a set is never without an element when nobody has one, and the number of its pool of bios is below 2 ^ 32.
    ///
    /// # Errors
    ///
    /// Where the reserves cannot all be had. Those that were had are given up again.
    pub fn open(
        alloc: Global,
        plan: SetPlan,
        bios: Script,
        vecs: Script,
    ) -> Result<BioSet, AllocError>
        requires plan { IsPlan plan }
        requires number { pool_number (bios_of plan.set) < 2 ^ 32 }
        ensures { IfOk result (IsPlanned plan bios vecs) }
    {
        let list = list_of(&plan);
        let bios = Pool::open(alloc, bios_of(plan.set).no(), plan.bios, bios)?;
        let vecs = match plan.vecs {
            Some(min) => Some(Pool::open(alloc, PoolId::FsVecs.no(), min, vecs)?),
            None => None,
        };
        Ok(BioSet {
            parts: SetParts { bios, vecs, list },
        })
    }

    /// Takes the set apart. From then on each part has its own users.
    pub fn parts(self) -> SetParts
        ensures { result ≡ self }
    {
        self.parts
    }
}

/// Whether the first attempt at a bio of a set, within a submission, waits (`bio_alloc_bioset`): unless the set has a rescuer and one of the
/// task's lists has a bio. Only this task could submit that one.
pub fn waits_first<L: Waits>(rescuer: bool, lists: &L) -> bool
    ensures { result ≡ waits_first rescuer (L.waiting lists.now) }
{
    !rescuer || !lists.busy()
}

/// Whether the first attempt at a bio of the set of this plan is one that does not wait.
pub fn first_is_try<L: Waits>(plan: &SetPlan, lists: &L) -> bool
    ensures { IsTrue result ↔ IsFirstTry plan.now (L.waiting lists.now) }
{
    !waits_first(plan.rescuer, lists)
}

/// Fills a bio that was taken (`bio_init`). Its own segments stay.
pub fn fill_bio(element: &mut BioElement, bio: Bio, pad: Pad)
    requires { IsAlone element.old }
    ensures filled { item_of element.new ≡ record (item_of element.old) { pad = pad; bio = bio } }
    ensures alone { IsAlone element.new }
{
    element.body.bio = bio;
    element.body.pad = pad;
}

/// Empties a bio (`bio_reset`). It stays an element of its pool.
pub fn clear_bio(element: &mut BioElement)
    requires { IsAlone element.old }
    ensures clear { IsClearBody element.new.body.value }
    ensures share { element.new.share ≡ element.old.share }
{
    *element.body = BioBody::fresh();
}
