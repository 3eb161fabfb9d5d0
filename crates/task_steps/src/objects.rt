//! What a task asks of the objects.
ghost use Rattle.std.specs.Prelude.{◌≡◌, ◌≤◌, ◌<◌, ℕ, IfErr, Option};
ghost use Rattle.bio_records.specs.Items.{item_of, IsAlone};
ghost use Rattle.bio_records.specs.Clear.{IsClearBody};
ghost use Rattle.bio_books.specs.Views.{bio_of, slip_item, IsAlonePart};
ghost use Rattle.task_steps.specs.declared.objects.Unmade.TheVariants as unmade;
ghost use Rattle.run_machine.specs.Requests.{Request, Reply, TakeBio, TakeVec, TakeSlip, GiveBio, GiveVec, GiveSlip, Punt, Pop, Push, Complete, Link as LinkOf, Drop as DropOf, Done as DoneOf, Resize, NextRound, LookRound, LookLeft, Present, LeftOver};
ghost use Rattle.stack_base.specs.declared.ids.DevId.{DevId as DevId'};
ghost use Rattle.task_steps.specs.Stage.{Stage, RequestFits, Owes};
ghost use Rattle.task_steps.specs.Views.{vec_item, opening_of, took_bio, took_vec, took_slip, did, popped_reply, completed_reply, linked_reply, dropped_reply, resized_reply, IsAskAlone, TookClear, PoppedAlone, Choice, unmade_part, CompletedAlone, LinkedAlone, DroppedAlone};

use bio_books::{Dropped, Link};
use bio_records::{BioBody, BioElement, BioList, Pad, Slip, SlipElement, VecElement, Vector};
use mempool_core::Taken;
use model_disks::Done;
use stack_base::{DevId, PoolId, SetId, Status};

/// Chooses which of the bios that wait in a disk it is done with next.
pub trait Chooser {
    /// What a choice is: the chooser before, how many bios wait, the index that it chooses, and the chooser after.
    ghost chooses: { Self → ℕ → ℕ → Self → Type 0 };

    /// An index below `pending`, which is at least 1.
    fn choose(&mut self, pending: u64) -> u64
        requires { 1 ≤ pending }
        ensures below { result < pending }
        ensures chooses { chooses self.old pending result self.new };
}

/// Always chooses the bio that has waited longest.
#[derive(Clone, Copy)]
pub struct Oldest;

impl Chooser for Oldest {
    ghost chooses = { λ old pending index new. (index ≡ 0) × (new ≡ old) };

    fn choose(&mut self, _pending: u64) -> u64 {
        0
    }
}

/// What a node is opened for.
#[derive(Drop)]
pub enum Ask {
    /// A write, with its vector if it has one.
    Write {
        write: u32,
        vector: Option<VecElement>,
    },
    /// The front of a bio that is split.
    Chain {
        parent: u32,
    },
    /// A bio that a mirror copies to so many legs, with the record of the mirror.
    Master {
        parent: u32,
        part: BioElement,
        slip: SlipElement,
        legs: u32,
    },
    /// One of these legs.
    Leg {
        master: u32,
    },
}

/// What a call was handed, where it could get no ticket.
#[derive(Drop)]
pub enum Unmade {
    Nothing,
    Bio(BioElement),
    Vec(VecElement),
    Slip(SlipElement),
    List(BioList),
    Ask(Ask),
}

/// The objects of a run: pools, the lists of rescuers, disks, books and the tally. A call asks one of them, and names one that there is.
///
/// All elements that they are handed and hand out are of the ledgers that they name, one for each pool. Where others use them too, a call
/// may need a ticket that it cannot get: it changes nothing then, but for a take, whose element goes back, and hands back what it was handed. Plain
/// objects always answer.
///
/// What they tell of a call (`serves`) and what they owe for it are two clauses: the first is theirs to define, as the
/// machine's relation or a seat's history. The second is one definition for all: a reply that answers the request, with
/// elements that are at home in them. Which bio a disk completes is told by the chooser's own relation and by theirs
/// (`chooses`, `picks`), so that a run by a stream of words can say which index each word gave. How many bios wait, of
/// which the chooser is told, is what the first look of a completion found (`finds`). They may also tell that none was
/// left when the disk was asked again, for disks that others use; the objects of one thread never do.
pub trait Objects {
    /// Which objects there are, and which ledger each pool has.
    ghost stage: { Self → Stage };

    /// What holds of them between calls.
    ghost holds: { Self → Type 0 };

    /// What they tell of a call: the objects before, what was asked and replied, and the objects after.
    ghost serves: { Self → Request → Reply → Self → Type 0 };

    /// What becomes of a choice: the objects before it and after it, the disk, how many bios wait there as a chooser is told, the index that it
    /// chooses, and that of the bio which is completed, or none where others had taken them all by then, or there was no ticket.
    ghost picks: { Self → Self → DevId' → ℕ → ℕ → Option ℕ → Type 0 };

    /// What a completion finds: the objects before it and after it, the disk, and how many bios waited there at its first look.
    ghost finds: { Self → Self → DevId' → ℕ → Type 0 };

    /// Takes a bio of a set. An attempt that does not wait is told also where it misses.
    fn take_bio(&mut self, set: SetId, waits: bool) -> Result<Taken<BioBody<Pad>>, Unmade>
        requires holds { holds self.old }
        requires fits { RequestFits (stage self.old) (TakeBio set waits) }
        ensures serves { serves self.old (TakeBio set waits) (took_bio result) self.new }
        ensures owed { Owes (stage self.old) (TakeBio set waits) (took_bio result) }
        ensures clear { TookClear IsClearBody result }
        ensures back { IfErr result (λ back. back ≡ unmade.Nothing) }
        ensures kept { holds self.new × (stage self.new ≡ stage self.old) };

    /// Takes a vector, and waits.
    fn take_vec(&mut self) -> Result<Taken<Vector>, Unmade>
        requires holds { holds self.old }
        ensures serves { serves self.old TakeVec (took_vec result) self.new }
        ensures owed { Owes (stage self.old) TakeVec (took_vec result) }
        ensures back { IfErr result (λ back. back ≡ unmade.Nothing) }
        ensures kept { holds self.new × (stage self.new ≡ stage self.old) };

    /// Takes a record of a mirror, and waits.
    fn take_slip(&mut self, dev: DevId) -> Result<Taken<Slip>, Unmade>
        requires holds { holds self.old }
        requires fits { RequestFits (stage self.old) (TakeSlip dev) }
        ensures serves { serves self.old (TakeSlip dev) (took_slip result) self.new }
        ensures owed { Owes (stage self.old) (TakeSlip dev) (took_slip result) }
        ensures back { IfErr result (λ back. back ≡ unmade.Nothing) }
        ensures kept { holds self.new × (stage self.new ≡ stage self.old) };

    /// Gives a bio back to its pool.
    fn give_bio(&mut self, el: BioElement) -> Result<(), Unmade>
        requires holds { holds self.old }
        requires alone { IsAlone el }
        requires fits { RequestFits (stage self.old) (GiveBio (item_of el)) }
        ensures serves { serves self.old (GiveBio (item_of el)) (did result) self.new }
        ensures back { IfErr result (λ back. back ≡ unmade.Bio el) }
        ensures kept { holds self.new × (stage self.new ≡ stage self.old) };

    /// Gives a vector back to its pool.
    fn give_vec(&mut self, el: VecElement) -> Result<(), Unmade>
        requires holds { holds self.old }
        requires fits { RequestFits (stage self.old) (GiveVec (vec_item el)) }
        ensures serves { serves self.old (GiveVec (vec_item el)) (did result) self.new }
        ensures back { IfErr result (λ back. back ≡ unmade.Vec el) }
        ensures kept { holds self.new × (stage self.new ≡ stage self.old) };

    /// Gives a record back to its pool.
    fn give_slip(&mut self, el: SlipElement) -> Result<(), Unmade>
        requires holds { holds self.old }
        requires fits { RequestFits (stage self.old) (GiveSlip (slip_item el)) }
        ensures serves { serves self.old (GiveSlip (slip_item el)) (did result) self.new }
        ensures back { IfErr result (λ back. back ≡ unmade.Slip el) }
        ensures kept { holds self.new × (stage self.new ≡ stage self.old) };

    /// Puts bios at the end of the list of a device's rescuer.
    fn punt(&mut self, dev: DevId, moved: BioList) -> Result<(), Unmade>
        requires holds { holds self.old }
        requires fits { RequestFits (stage self.old) (Punt dev moved) }
        ensures serves { serves self.old (Punt dev moved) (did result) self.new }
        ensures back { IfErr result (λ back. back ≡ unmade.List moved) }
        ensures kept { holds self.new × (stage self.new ≡ stage self.old) };

    /// Takes the first bio off the list of a device's rescuer, if there is one.
    fn pop(&mut self, dev: DevId) -> Result<Option<BioElement>, Unmade>
        requires holds { holds self.old }
        requires fits { RequestFits (stage self.old) (Pop dev) }
        ensures serves { serves self.old (Pop dev) (popped_reply result) self.new }
        ensures owed { Owes (stage self.old) (Pop dev) (popped_reply result) }
        ensures alone { PoppedAlone result }
        ensures back { IfErr result (λ back. back ≡ unmade.Nothing) }
        ensures kept { holds self.new × (stage self.new ≡ stage self.old) };

    /// Pushes a bio to the disk that it is at.
    fn push(&mut self, el: BioElement) -> Result<(), Unmade>
        requires holds { holds self.old }
        requires alone { IsAlone el }
        requires fits { RequestFits (stage self.old) (Push (item_of el)) }
        ensures serves { serves self.old (Push (item_of el)) (did result) self.new }
        ensures back { IfErr result (λ back. back ≡ unmade.Bio el) }
        ensures kept { holds self.new × (stage self.new ≡ stage self.old) };

    /// Completes the chosen one of the bios that wait in a disk, if one does, or the last one where there are fewer by then. Answers `None` where
    /// none waits at the last look. The chooser is asked, once, exactly where one waited at the first, and is told how many did.
    fn complete<C: Chooser>(
        &mut self,
        disk: DevId,
        chooser: &mut C,
    ) -> Result<Option<(u64, Done)>, Unmade>
        requires holds { holds self.old }
        requires fits { RequestFits (stage self.old) (Complete disk) }
        ensures serves { serves self.old (Complete disk) (completed_reply result) self.new }
        ensures owed { Owes (stage self.old) (Complete disk) (completed_reply result) }
        ensures chosen { Choice C.chooses (finds self.old self.new disk) (picks self.old self.new disk) chooser.old (completed_reply result) chooser.new }
        ensures alone { CompletedAlone result }
        ensures back { IfErr result (λ back. back ≡ unmade.Nothing) }
        ensures kept { holds self.new × (stage self.new ≡ stage self.old) };

    /// Opens a node in the book of a writer.
    fn link(&mut self, writer: u32, ask: Ask) -> Result<Link, Unmade>
        requires holds { holds self.old }
        requires alone { IsAskAlone ask }
        requires fits { RequestFits (stage self.old) (LinkOf writer (opening_of ask)) }
        ensures serves { serves self.old (LinkOf writer (opening_of ask)) (linked_reply result) self.new }
        ensures owed { Owes (stage self.old) (LinkOf writer (opening_of ask)) (linked_reply result) }
        ensures alone { LinkedAlone result }
        ensures back { IfErr result (λ back. back ≡ unmade.Ask ask) }
        ensures kept { holds self.new × (stage self.new ≡ stage self.old) };

    /// Tells a node in the book of a writer of an end, with the bio that comes with it, if one does. Without a ticket that bio comes back.
    fn drop_one(
        &mut self,
        writer: u32,
        node: u32,
        status: Status,
        part: Option<BioElement>,
    ) -> Result<Dropped, Unmade>
        requires holds { holds self.old }
        requires alone { IsAlonePart part }
        requires fits { RequestFits (stage self.old) (DropOf writer node status (bio_of part)) }
        ensures serves { serves self.old (DropOf writer node status (bio_of part)) (dropped_reply result) self.new }
        ensures owed { Owes (stage self.old) (DropOf writer node status (bio_of part)) (dropped_reply result) }
        ensures alone { DroppedAlone result }
        ensures back { IfErr result (λ back. back ≡ unmade_part part) }
        ensures kept { holds self.new × (stage self.new ≡ stage self.old) };

    /// A write of the present round is done, with this status.
    fn done(&mut self, write: u32, status: Status) -> Result<(), Unmade>
        requires holds { holds self.old }
        requires fits { RequestFits (stage self.old) (DoneOf write status) }
        ensures serves { serves self.old (DoneOf write status) (did result) self.new }
        ensures back { IfErr result (λ back. back ≡ unmade.Nothing) }
        ensures kept { holds self.new × (stage self.new ≡ stage self.old) };

    /// Sets the reserve of a pool, where nothing of it is out. It answers how much is.
    fn resize(&mut self, pool: PoolId, min: u32) -> Result<u64, Unmade>
        requires holds { holds self.old }
        requires fits { RequestFits (stage self.old) (Resize pool min) }
        ensures serves { serves self.old (Resize pool min) (resized_reply result) self.new }
        ensures back { IfErr result (λ back. back ≡ unmade.Nothing) }
        ensures kept { holds self.new × (stage self.new ≡ stage self.old) };

    /// The round behind the present one becomes the present one, if there is one.
    fn next_round(&mut self) -> Result<(), Unmade>
        requires holds { holds self.old }
        ensures serves { (round : ℕ) → serves self.old (NextRound round) (did result) self.new }
        ensures back { IfErr result (λ back. back ≡ unmade.Nothing) }
        ensures kept { holds self.new × (stage self.new ≡ stage self.old) };

    /// How many writes are unfinished.
    fn left(&mut self) -> u32
        requires holds { holds self.old }
        ensures serves { serves self.old LookLeft (LeftOver result) self.new }
        ensures kept { holds self.new × (stage self.new ≡ stage self.old) };

    /// The present round.
    fn round(&mut self) -> u32
        requires holds { holds self.old }
        ensures serves { serves self.old LookRound (Present result) self.new }
        ensures kept { holds self.new × (stage self.new ≡ stage self.old) };
}
