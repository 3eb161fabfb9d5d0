//! Two threads that draw tickets from one clock.
ghost use Rattle.std.specs.Prelude.{◌≡◌, IfOk};
ghost use Rattle.lock_tests.specs.Drawing.{PassHasDrawn, Differ};

use std::alloc::{AllocError, Global};
use std::thread;
use std::thread::Threads;
use tick_clock::{Clock, Note, Pass};

/// Draws so often with one pass and one note, and answers the pass and the tickets.
fn draw_often(
    alloc: Global,
    clock: &Clock,
    mut pass: Pass,
    often: u64,
) -> Result<(Pass, Vec<u64>), AllocError>
    requires { pass.clock ≡ clock.now }
    ensures { IfOk result (λ drawn. PassHasDrawn pass drawn.0 drawn.1.items) }
{
    let mut note = Note::new();
    let mut tickets = Vec::new(alloc);
    'drawing: for _ in 0..often {
        if let Some(ticket) = clock.draw(&mut pass, &mut note) {
            tickets.push(ticket)?;
        }
    }
    Ok((pass, tickets))
}

/// The tickets that two threads have drawn, one so often each with a pass of its own. No two of them are one number.
///
/// # Errors
///
/// Where there is no memory for the clock, or for the tickets.
pub fn drawn_by_two<R: Threads + Sync>(
    rt: &R,
    alloc: Global,
    often: u64,
) -> Result<(Vec<u64>, Vec<u64>), AllocError>
    ensures { IfOk result (λ both. Differ both.0.items both.1.items) }
{
    let (clock, mut first) = Clock::new(alloc)?;
    let second = clock.split(&mut first);
    let (mine, theirs) = thread::join(
        rt,
        || -> Result<(Pass, Vec<u64>), AllocError>
            requires { first.clock ≡ clock }
            ensures { IfOk result (λ drawn. PassHasDrawn first drawn.0 drawn.1.items) }
        { draw_often(alloc, &clock, first, often) },
        || -> Result<(Pass, Vec<u64>), AllocError>
            requires { second.clock ≡ clock }
            ensures { IfOk result (λ drawn. PassHasDrawn second drawn.0 drawn.1.items) }
        { draw_often(alloc, &clock, second, often) },
    );
    let (mut first, mine) = mine?;
    let (second, theirs) = theirs?;
    clock.join(&mut first, second);
    Ok((mine, theirs))
}
