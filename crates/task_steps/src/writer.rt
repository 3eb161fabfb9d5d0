//! Writers: each begins its writes one after the other, when their round has come, and submits the bio of each.
ghost use Rattle.std.specs.Prelude.{◌≡◌, ◌≢◌, [], true, false};
ghost use Rattle.stack_base.specs.declared.ids.SetId.TheVariants.{Fs};
ghost use Rattle.run_machine.specs.Requests.{TakeBio, LookRound};
ghost use Rattle.run_machine.specs.Submissions.{Rests, rests};
ghost use Rattle.run_machine.specs.Tasks.{Todo as TodoState, NoBio};
ghost use Rattle.task_steps.specs.SubmissionViews.{is_asking};
ghost use Rattle.task_steps.specs.WriterViews.{writer_task, tried, IsNextAlone, BeginsWith, IsAttemptAtBioAlone, is_taken, writer_next};
ghost use Rattle.task_steps.specs.TaskSteps.{TaskAsks, HoldsTask, WriterDoes, WriterTurns};
ghost use Rattle.task_steps.specs.Answers.{Ready};

pub(crate) mod begin;
pub(crate) mod first_bio;

use crate::objects::Objects;
use crate::routes::Routes;
use crate::step::Step;
use crate::submission::{Kept, Submission};
use crate::todo::{Todo, Todos};
use crate::writer::begin::{Attempt, Gathered, Next, go_on, take_bio};
use run_machine::{Breach, TaskId};
use std::marker::Model;
use std::mem;

/// A writer.
#[derive(Drop)]
pub struct Writer {
    number: u32,
    todo: Todos,
    taken: Gathered,
    submission: Submission,
}

impl Model for Writer {
    ghost use Rattle.task_steps.specs.WriterViews.{WriterState, gathered_of, IsGatheredAlone};

    ghost Value = { WriterState };

    ghost view = { λ w. record { number = w.number; todo = w.todo; taken = gathered_of w.taken; submission = w.submission } };

    ghost invariant = { λ w. IsGatheredAlone w.taken };
}

impl Writer {
    /// The writer of this number, which is to begin these writes.
    pub fn new(number: u32, todo: Todos) -> Writer
        ensures { result ≡ record { number = number; todo = todo; taken = NoBio; submission = rests } }
    {
        Writer {
            number,
            todo,
            taken: Gathered::NoBio,
            submission: Submission::rests(),
        }
    }

    /// Its number.
    pub fn number(&self) -> u32
        ensures { result ≡ self.now.number }
    {
        self.number
    }

    /// The writes that it has still to begin.
    pub fn todo(&self) -> &Todos
        ensures { result.now ≡ self.now.todo }
    {
        &self.todo
    }

    // What a step has made of its next write.
    fn put(&mut self, next: Next)
        requires todo { self.old.todo ≢ [] }
        requires none { self.old.taken ≡ NoBio }
        requires alone { IsNextAlone next }
        ensures { (todo : TodoState) → BeginsWith self.old.todo todo → writer_task self.new ≡ writer_next next self.old todo }
    {
        match next {
            Next::Begins => self.todo.advance(),
            Next::Waits(taken) => self.taken = taken,
        }
    }

    // Asks for what its next write needs, whose bio it has taken.
    fn act<O: Objects>(&mut self, objects: &mut O, routes: &Routes, todo: &Todo) -> Step
        requires ready { HoldsTask O.Objects objects.old (writer_task self.old) }
        requires routing { (O.stage objects.old).routing ≡ routes.now }
        requires rests { self.old.submission.doing ≡ Rests }
        requires first { BeginsWith self.old.todo todo.now }
        requires some { is_taken self.old.taken ≡ true }
        ensures does { WriterDoes O.Objects routes.now self.old objects.old self.new objects.new result }
    {
        let taken = mem::replace(&mut self.taken, Gathered::NoBio);
        let (next, step) = go_on(
            objects,
            routes,
            self.number,
            todo,
            taken,
            &mut self.submission,
        );
        self.put(next);
        step
    }

    // What came of an attempt at the bio of its next write: it has taken it, or is as before where there was no bio, or breaks off where there
    // was no ticket.
    // As `Pool::take`: in shortage most attempts come to nothing.
    #[inline(always)]
    fn take_in(&mut self, attempt: Attempt)
        requires rests { self.old.submission.doing ≡ Rests }
        requires none { self.old.taken ≡ NoBio }
        requires alone { IsAttemptAtBioAlone attempt }
        ensures { writer_task self.new ≡ tried attempt self.old.number self.old.todo self.old.submission }
    {
        match attempt {
            Attempt::Had(bio) => self.taken = Gathered::HasBio(bio),
            Attempt::Missed => {}
            Attempt::NoTicket => self.submission.breaks(Breach::Spent, Kept::nothing()),
        }
    }

    // Asks for the bio of its next write.
    #[inline(always)] // as `Task::step`
    fn take<O: Objects>(&mut self, objects: &mut O) -> Step
        requires ready { Ready O.Objects objects.old (TakeBio Fs true) }
        requires rests { self.old.submission.doing ≡ Rests }
        requires none { self.old.taken ≡ NoBio }
        requires some { self.old.todo ≢ [] }
        ensures does { TaskAsks O.Objects (writer_task self.old) objects.old (writer_task self.new) objects.new result }
    {
        let (attempt, step) = take_bio(objects, self.number);
        self.take_in(attempt);
        step
    }

    // Asks for a bio, if the round of its next write has come.
    #[inline(always)] // as `Task::step`
    fn look<O: Objects>(&mut self, objects: &mut O, todo: &Todo) -> Step
        requires ready { Ready O.Objects objects.old LookRound }
        requires rests { self.old.submission.doing ≡ Rests }
        requires first { BeginsWith self.old.todo todo.now }
        requires none { is_taken self.old.taken ≡ false }
        ensures does { WriterTurns O.Objects self.old objects.old self.new objects.new result }
    {
        let round = objects.round();
        if round < todo.round {
            return Step::Waiting;
        }
        self.take(objects)
    }

    // Whether it has taken the bio of its next write.
    fn has_bio(&self) -> bool
        ensures { result ≡ is_taken self.now.taken }
    {
        match self.taken {
            Gathered::NoBio => false,
            Gathered::HasBio(_) | Gathered::HasBoth(..) => true,
        }
    }

    // The next step of its submission.
    #[inline(always)] // what a step comes to has a place in the frame of this arm alone
    fn submit<O: Objects>(&mut self, objects: &mut O, routes: &Routes) -> Step
        requires routing { (O.stage objects.old).routing ≡ routes.now }
        requires ready { HoldsTask O.Objects objects.old (writer_task self.old) }
        requires asks { is_asking self.old.submission.doing ≡ true }
        ensures does { WriterDoes O.Objects routes.now self.old objects.old self.new objects.new result }
    {
        let task = TaskId::Writer(self.number);
        self.submission.step(objects, routes, task)
    }

    // What it does for its next write.
    #[inline(always)] // as `submit`
    fn begin<O: Objects>(&mut self, objects: &mut O, routes: &Routes, todo: &Todo) -> Step
        requires routing { (O.stage objects.old).routing ≡ routes.now }
        requires ready { HoldsTask O.Objects objects.old (writer_task self.old) }
        requires rests { self.old.submission.doing ≡ Rests }
        requires first { BeginsWith self.old.todo todo.now }
        ensures does { WriterDoes O.Objects routes.now self.old objects.old self.new objects.new result }
    {
        if self.has_bio() {
            self.act(objects, routes, todo)
        } else {
            self.look(objects, todo)
        }
    }

    /// Its next step: it asks one object once, for what its submission or its next write needs, and goes on with the reply. Before the
    /// first take of a write it looks at the present round, and waits where the write is of a later one. Where it has broken off, or has no
    /// more writes and ends, it asks nothing.
    #[inline(always)] // as `Task::step`
    pub fn step<O: Objects>(&mut self, objects: &mut O, routes: &Routes) -> Step
        requires routing { (O.stage objects.old).routing ≡ routes.now }
        requires ready { HoldsTask O.Objects objects.old (writer_task self.old) }
        ensures does { WriterDoes O.Objects routes.now self.old objects.old self.new objects.new result }
    {
        if self.submission.asks() {
            return self.submit(objects, routes);
        }
        if let Some(breach) = self.submission.breach() {
            return Step::Broken(breach);
        }
        let Some(todo) = self.todo.first() else {
            return Step::Ended;
        };
        self.begin(objects, routes, &todo)
    }
}
