//! The keeper of the rounds: it changes reserves between them, and starts them.
ghost use Rattle.std.specs.Prelude.{◌≡◌, ℕ, List, Some, map, drop};
ghost use Rattle.run_machine.specs.declared.event.Breach.TheVariants as Breach';
ghost use Rattle.run_machine.specs.declared.event.TaskId.TheVariants as TaskId';
ghost use Rattle.task_steps.specs.declared.step.Step.TheVariants as Step';
ghost use Rattle.run_machine.specs.Requests.{NextRound, Resize};
ghost use Rattle.run_machine.specs.Tasks.{Duty as DutyState, Keeper as Keeping', Keeps, Resizes, Starts, duty_request, later_of};
ghost use Rattle.task_steps.specs.KeeperViews.{duty_of, keeping_of, IsDutyAt};
ghost use Rattle.task_steps.specs.TaskSteps.{KeeperAsks, KeeperDoes, HoldsTask};
ghost use Rattle.task_steps.specs.Answers.{Ready};

use crate::objects::{Objects, Unmade};
use crate::step::Step;
use run_machine::{Breach, Event, TaskId, What};
use stack_base::PoolId;
use std::marker::Model;

/// What the keeper does between two rounds. `later` is how many writes there are of the round that starts next and of those behind it: none
/// but these is unfinished when it may be done.
#[derive(Clone, Copy)]
pub enum Duty {
    /// A pool gets another reserve (`mempool_resize`, `mm/mempool.c`).
    Resizes { pool: PoolId, min: u32, later: u32 },
    /// The round of this number starts.
    Starts { round: u32, later: u32 },
}

/// The keeper, with what it has still to do.
///
/// It counts the writes that are left, against how many there are of later rounds: one number, which it knows from the start. In every run they
/// are as many exactly where no earlier round has an unfinished write.
#[derive(Drop)]
pub struct Keeper {
    duties: Vec<Duty>,
    // The place of the next one. Those that are done stay, so that a step moves and frees nothing.
    next: usize,
    broken: Option<Breach>,
}

impl Model for Keeper {
    ghost use Rattle.std.specs.Prelude.{map, drop};
    ghost use Rattle.run_machine.specs.Tasks.{Keeping};
    ghost use Rattle.task_steps.specs.KeeperViews.{duty_of, keeping_of};

    ghost Value = { Keeping };

    ghost view = { λ k. keeping_of k.broken (map duty_of (drop k.next k.duties.items)) };
}

// The event that the keeper has done this.
fn keeps(what: What) -> Step
    ensures { result ≡ Step'.Stepped (record { task = TaskId'.Keeper; what = what }) }
{
    Step::Stepped(Event {
        task: TaskId::Keeper,
        what,
    })
}

// The keeper breaks off, since there was no ticket for its call, which was handed nothing.
fn breaks_for_ticket(nothing: Unmade) -> (Option<Breach>, Step)
    ensures { result ≡ (Some Breach'.Spent, Step'.Broken Breach'.Spent) }
{
    drop(nothing);
    (Some(Breach::Spent), Step::Broken(Breach::Spent))
}

// Sets the reserve of a pool. It answers why the keeper cannot go on, where it cannot.
fn resize<O: Objects>(objects: &mut O, pool: PoolId, min: u32) -> (Option<Breach>, Step)
    requires ready { Ready O.Objects objects.old (Resize pool min) }
    ensures does { (later : ℕ) → KeeperAsks O.Objects (Resizes pool min later) objects.old result objects.new }
{
    match objects.resize(pool, min) {
        Ok(0) => (None, keeps(What::Resize { pool, min })),
        Ok(out) => {
            let breach = Breach::Out { pool, out };
            (Some(breach), Step::Broken(breach))
        }
        Err(nothing) => breaks_for_ticket(nothing),
    }
}

// Starts the round of this number. It answers why the keeper cannot go on, where it cannot.
fn start<O: Objects>(objects: &mut O, round: u32) -> (Option<Breach>, Step)
    requires ready { Ready O.Objects objects.old (NextRound round) }
    ensures does { (later : ℕ) → KeeperAsks O.Objects (Starts round later) objects.old result objects.new }
{
    match objects.next_round() {
        Ok(()) => (None, keeps(What::Round { round })),
        Err(nothing) => breaks_for_ticket(nothing),
    }
}

impl Duty {
    /// How many writes there are of the round that starts next and of those behind it.
    pub fn later(self) -> u32
        ensures { result ≡ later_of (duty_of self) }
    {
        match self {
            Duty::Resizes { later, .. } | Duty::Starts { later, .. } => later,
        }
    }

    // Does it. It answers why the keeper cannot go on, where it cannot.
    fn attend<O: Objects>(self, objects: &mut O) -> (Option<Breach>, Step)
        requires ready { Ready O.Objects objects.old (duty_request (duty_of self)) }
        ensures does { KeeperAsks O.Objects (duty_of self) objects.old result objects.new }
    {
        match self {
            Duty::Resizes { pool, min, .. } => resize(objects, pool, min),
            Duty::Starts { round, .. } => start(objects, round),
        }
    }
}

/// The duty at a place, if there is one.
#[tactic(auto, using(crate::proofs::KeeperLemmas::duty_there, crate::proofs::KeeperLemmas::duties_over))]
pub fn duty_at(duties: &[Duty], next: usize) -> Option<Duty>
    ensures { IsDutyAt duties.now next result }
{
    duties.get(next).copied()
}

impl Keeper {
    /// A keeper that does this, in its order.
    pub fn new(duties: Vec<Duty>) -> Keeper
        ensures { result ≡ Keeps (map duty_of duties.items) }
    {
        Keeper {
            duties,
            next: 0,
            broken: None,
        }
    }

    /// What it has still to do, in this order. Of a keeper that has broken off nothing is said.
    pub fn duties(&self) -> &[Duty]
        ensures { (duties : List DutyState) → self.now ≡ Keeps duties → map duty_of result.now ≡ duties }
    {
        self.duties.get(self.next..).unwrap_or(&[])
    }

    /// A step of the keeper. With nothing left to do it has ended. Else it looks at the number of unfinished writes, does what is next where
    /// none is left of the rounds so far, and waits where one is. Where that is refused it breaks off, and answers so from then on.
    pub fn step<O: Objects>(&mut self, objects: &mut O) -> Step
        requires ready { HoldsTask O.Objects objects.old (Keeping' self.old) }
        ensures does { KeeperDoes O.Objects self.old objects.old self.new objects.new result }
    {
        if let Some(breach) = self.broken {
            return Step::Broken(breach);
        }
        let Some(duty) = duty_at(&self.duties, self.next) else {
            return Step::Ended;
        };
        if objects.left() != duty.later() {
            return Step::Waiting;
        }
        let (broken, step) = duty.attend(objects);
        self.next += 1;
        self.broken = broken;
        step
    }
}
