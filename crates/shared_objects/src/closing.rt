//! Ends the use of shared objects.
ghost use Rattle.std.specs.Prelude.{◌≡◌, ◌+◌, ◌≤◌, All, None, Some, [], length, vec_capacity};
ghost use Rattle.std.specs.Option.{is_some};
ghost use Rattle.shared_objects.specs.Holding.{IsPassOf, LocksHold, SeatsHold};
ghost use Rattle.shared_objects.specs.Joining.{AreHere, ArePutAway, CanEnd, HasBeside, HasJoinedPass, HasJoinedSeats, IsPutAway, IsWithNoted, MayGrow, RowsFit};
ghost use Rattle.shared_objects.specs.Left.{HasClosed};
ghost use Rattle.shared_objects.specs.Rans.{IsOtherPass, RanHolds};
ghost use Rattle.shared_objects.specs.Rows.{Abreast, AreAdded, CanClose, IsAt};
ghost use Rattle.shared_objects.specs.Shared.{FirstsHold, HaveStopped, IsRoomForTrace, SharedHolds};
ghost use Rattle.shared_objects.specs.Shutting.{HasShut, IsShutDisk};
ghost use Rattle.shared_objects.specs.Taking.{TakenHold};
ghost use Rattle.shared_objects.specs.Tickets.{ShowsItsTickets};

use crate::closed::{Closed, ClosedTask, Room};
use crate::locks::Locks;
use crate::noted::Noted;
use crate::ran::Ran;
use crate::rows::{close_one, close_row, join_row};
use crate::seats::TaskSeats;
use crate::shared::Shared;
use object_things::DiskThing;
use seat_lock::{Seat, SeatLock, Shut};
use stack_base::DevId;
use std::snapshot::Snapshot;
use task_core::Opened;
use tick_clock::{Clock, Pass};

// Joins a task's pass into the first one.
fn join_pass(clock: &Clock, first: &mut Option<Pass>, other: Option<Pass>)
    requires first { IsPassOf clock.now first.old }
    requires other { IsPassOf clock.now other × IsOtherPass other }
    ensures joined { HasJoinedPass first.old other first.new }
    ensures of { IsPassOf clock.now first.new }
{
    let Some(mut pass) = first.take() else {
        unreachable!()
    };
    let Some(other) = other else { unreachable!() };
    clock.join(&mut pass, other);
    *first = Some(pass);
}

// Joins a task's seats into the first ones.
pub(crate) fn join_seats(locks: &Locks, firsts: &mut TaskSeats, seats: TaskSeats)
    requires firsts { FirstsHold locks.now firsts.old }
    requires seats { SeatsHold locks.now seats }
    requires pass { IsPassOf locks.now.common.value.clock seats.pass × IsOtherPass seats.pass }
    ensures joined { HasJoinedSeats locks.now firsts.old seats firsts.new }
    ensures of { FirstsHold locks.now firsts.new }
{
    let TaskSeats {
        number: _,
        pass,
        bios,
        vecs,
        records,
        lists,
        disks,
        books,
        tally,
    } = seats;
    join_row(&locks.bios, &mut firsts.bios, bios);
    locks.vecs.join(&mut firsts.vecs, vecs);
    join_row(&locks.records, &mut firsts.records, records);
    join_row(&locks.lists, &mut firsts.lists, lists);
    join_row(&locks.disks, &mut firsts.disks, disks);
    join_row(&locks.books, &mut firsts.books, books);
    locks.tally.join(&mut firsts.tally, tally);
    join_pass(locks.common.clock(), &mut firsts.pass, pass);
}

// Puts what a task noted behind what those before it did, where there is a trace. There is room for it.
fn keep_noted(trace: &mut Option<Vec<Noted>>, noted: Option<Noted>)
    requires listed { is_some noted ≡ is_some trace.old }
    requires room { MayGrow trace.old }
    ensures { IsWithNoted trace.old noted trace.new }
{
    let Some(list) = trace else {
        return;
    };
    let Some(noted) = noted else { unreachable!() };
    list.push(noted).unwrap();
}

// Puts all tasks away, and joins the seats of each into the first ones. There is room for them, and for what they noted.
pub(crate) fn join_tasks(
    locks: &Locks,
    firsts: &mut TaskSeats,
    tasks: Vec<Option<Ran>>,
    closed: &mut Vec<ClosedTask>,
    trace: &mut Option<Vec<Noted>>,
)
    requires firsts { FirstsHold locks.now firsts.old }
    requires taken { TakenHold (length tasks.items) locks.now [] firsts.old }
    requires here { AreHere locks.now tasks.items }
    requires room { (closed.old.items ≡ []) × (length tasks.items ≤ vec_capacity closed.old) }
    requires trace { IsRoomForTrace locks.now.trace (length tasks.items) trace.old }
    ensures { ArePutAway (length tasks.items) locks.now tasks.items firsts.new closed.new.items trace.new }
{
    'joining: for slot in tasks {
        let Some(ran) = slot else { unreachable!() };
        let (task, noted) = ran.join(locks, firsts);
        closed.push(task).unwrap();
        keep_noted(trace, noted);
    }
}

// Ends the use of the disks' locks, with their first seats. What is left of each stands behind what was there, for which there is room; which
// device it is, the disk knows.
fn close_disks(
    locks: Vec<(DevId, SeatLock<DiskThing>)>,
    firsts: Vec<(DevId, Seat<DiskThing>)>,
    shut: &mut Vec<Shut<DiskThing>>,
)
    requires of { Abreast IsAt locks.items firsts.items }
    requires whole { All CanClose firsts.items }
    requires room { length shut.old.items + length locks.items ≤ vec_capacity shut.old }
    ensures { AreAdded IsShutDisk locks.items firsts.items shut.old.items shut.new.items }
{
    let mut rest = firsts.into_iter();
    'closing: for lock in locks {
        let Some(first) = rest.next() else {
            unreachable!()
        };
        let (_, left) = close_one(lock, first);
        shut.push(left).unwrap();
    }
}

// The first pass as it is at the end.
fn last_of(pass: Option<Pass>) -> Snapshot<Pass>
    requires { pass ≡ None → ⊥ }
    ensures { pass ≡ Some result.value }
{
    let Some(pass) = pass else { unreachable!() };
    Snapshot::of(&pass)
}

// Ends the use of the locks, with their first seats, into which those of all tasks were joined.
pub(crate) fn close_locks(
    locks: Locks,
    firsts: TaskSeats,
    mut room: Room,
    told: Snapshot<Opened>,
) -> Closed
    requires locks { LocksHold locks }
    requires firsts { FirstsHold locks firsts }
    requires whole { CanEnd firsts }
    requires room { RowsFit locks room }
    ensures shut { HasShut locks firsts result }
    ensures beside { HasBeside told.value firsts room result }
{
    close_row(locks.bios, firsts.bios, &mut room.bios);
    close_row(locks.records, firsts.records, &mut room.records);
    close_row(locks.lists, firsts.lists, &mut room.lists);
    close_disks(locks.disks, firsts.disks, &mut room.disks);
    close_row(locks.books, firsts.books, &mut room.books);
    Closed {
        bios: room.bios,
        vecs: locks.vecs.close(firsts.vecs),
        records: room.records,
        lists: room.lists,
        disks: room.disks,
        books: room.books,
        tally: locks.tally.close(firsts.tally),
        told,
        tasks: room.tasks,
        trace: room.trace,
        pass: last_of(firsts.pass),
        room: room.ended,
    }
}
