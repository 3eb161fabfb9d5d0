//! The top call of `biostack`: all that the program does, over any source and sinks.
#![tactic(auto)]

ghost use Rattle.std.specs.Prelude.{◌≡◌, ◌⊎◌, ◌≤◌, is_some, true, None, Some};
ghost use Rattle.outside_io.specs.Causes.{Rose};
ghost use Rattle.outside_io.specs.Saying.{StopsAtFault};
ghost use Rattle.biostack_words.specs.declared.order.Order.TheVariants.{Workers};
ghost use Rattle.biostack_top.specs.Ending.{HadRefusedText, IsToldTo, MayFollowRun, exit_of};
ghost use Rattle.biostack_top.specs.Calls.{AskForRefusedText, AskForUnwell, CarriesOut, CarriesOutWords, Exits, MayFollowWorkers, OrderExits, WorkersExit, given_order};
ghost use Rattle.biostack_top.specs.Orders.{is_alone, may_be_unwell};
ghost use Rattle.biostack_top.specs.Streams.{call, sink_stream};

mod ending;
mod input;
pub mod laws;
mod layout;
mod order;
mod replay;
mod report;
mod run;
mod scene;
mod scrub;
mod serve;
mod trace;
mod workers;

use bio_workers::Gate;
pub use biostack_words::Order;
pub use ending::{Ending, Exit};
use outside_io::{Sink, Source};
use std::alloc::Global;
use std::sync::Wait;
use std::thread::Threads;

// Tells an ending to errors, and answers its status.
fn end<E: Sink>(ending: Ending, errors: &mut E) -> Exit
    ensures exit { result.0 ≡ exit_of ending }
    ensures told { IsToldTo ending (sink_stream E.Sink errors.old errors.new) }
{
    let _told = ending.tell(errors);
    ending.exit()
}

/// Carries out an order without threads: reads a scenario from the source and checks it, and then runs it to its end by the schedule of a
/// number and writes its report, with the line of each event before it where there is to be a trace (`Run`), or where the
/// members of its mirrors differ in what such a run left (`Scrub`); or writes its devices and what its writes need
/// (`Check`), or where its writes go (`Layout`); or makes a scenario of a number, and shows it, or runs it and writes what
/// it had and left (`Gen`); or reads a scenario with a trace behind it, and writes how far that is a run of it (`Replay`).
/// A run by threads (`Workers`) is not handed in.
///
/// The status is 0 where the whole text was written, 1 where it was but some write that `Run` ran did not end well,
/// `Scrub` found a sector that is unlike or `Replay` a bad line, 3 where the scenario is refused, 4 where the source
/// failed, 5 where the output did, and 6 where there was no memory for reading, for the text of a number, for the
/// fragments of a layout, for opening the scenario or for a replay. With 3, 4 and 6 nothing was written, and behind a
/// fault of the output nothing more was. `errors` gets the line of the status. A fault of `errors` changes nothing
/// else: it has a front of the line then.
pub fn serve_alone<S: Source, K: Sink, E: Sink>(
    alloc: Global,
    order: &Order,
    source: &mut S,
    out: &mut K,
    errors: &mut E,
) -> Exit
    requires { is_alone order.now ≡ true }

    // How it ended is one of the causes, and what the output and the errors hold is what goes with it.
    ensures whole { OrderExits order.now result.0
        (call S.Source source.old source.new K.Sink out.old out.new)
        E.Sink errors.old errors.new }

    // What each status alone says.
    ensures not_all_well { result.0 ≡ 1 → may_be_unwell order.now ≡ true }
    ensures refused { result.0 ≡ 3 → HadRefusedText order.now (S.left source.old) }
    ensures read_fault { result.0 ≡ 4 → Rose (S.faults source.old) (S.faults source.new) }
    ensures no_read_fault { (result.0 ≡ 4) ⊎ (S.faults source.new ≡ S.faults source.old) }
    ensures write_fault { result.0 ≡ 5 → Rose (K.faults out.old) (K.faults out.new) }
    ensures no_write_fault { (result.0 ≡ 5) ⊎ (K.faults out.new ≡ K.faults out.old) }

    // What the output holds by now it held before any fault.
    ensures stops { StopsAtFault K.Sink out.old out.new }

    // Over a text that is not refused the order is carried out where nothing fails, but for want of memory.
    ensures complete { CarriesOut order.now result.0
        (call S.Source source.old source.new K.Sink out.old out.new) }
{
    let ending = serve::serve(alloc, *order, source, out);
    end(ending, errors)
}

// Runs the text of the source by so many threads, with a trace or with none, as `biostack` does with such an order.
fn serve_shared<R: Threads + Wait + Sync, S: Source, K: Sink, E: Sink, G: Gate + Sync>(
    rt: &R,
    alloc: Global,
    workers: u32,
    trace: bool,
    source: &mut S,
    out: &mut K,
    errors: &mut E,
    gate: &mut G,
) -> Exit
    requires workers { (1 ≤ workers) × (workers ≤ 16) }
    requires unshown { G.shown gate.old ≡ None }
    ensures whole { WorkersExit trace (G.shown gate.new) result.0
        (call S.Source source.old source.new K.Sink out.old out.new)
        E.Sink errors.old errors.new }
    ensures no_usage { (result.0 ≡ 2) → ⊥ }
    ensures refused { result.0 ≡ 3 → HadRefusedText (Workers workers trace) (S.left source.old) }
    ensures read_fault { result.0 ≡ 4 → Rose (S.faults source.old) (S.faults source.new) }
    ensures no_read_fault { (result.0 ≡ 4) ⊎ (S.faults source.new ≡ S.faults source.old) }
    ensures write_fault { result.0 ≡ 5 → Rose (K.faults out.old) (K.faults out.new) }
    ensures no_write_fault { (result.0 ≡ 5) ⊎ (K.faults out.new ≡ K.faults out.old) }
    ensures stops { StopsAtFault K.Sink out.old out.new }
    ensures shown { is_some (G.shown gate.new) ≡ true → MayFollowRun trace result.0 }
    ensures complete { CarriesOut (Workers workers trace) result.0
        (call S.Source source.old source.new K.Sink out.old out.new) }
{
    let ending = workers::serve_workers(rt, alloc, workers, trace, source, out, gate);
    end(ending, errors)
}

/// Carries out the words after the program's name, as `serve_alone` does with an order.
///
/// The status is as there; 2 where the words give no order, and 6 also where there was no memory to read them. Nothing is read or written
/// then.
///
/// A run by threads has 1 to 16 workers, of which the caller is one. The gate is told of their steps, and once all have ended it is shown what
/// they left: the history of each object. The report is that of the run which the merge of these histories is, and a trace before it has the
/// lines of its events. Memory is not wanting any more then, but for such a trace: with 6 nothing was written. Nothing else shows the gate
/// anything. Such a run waits for its threads, so all here holds where the call returns; any other order
/// is carried out by `serve_alone`, which does.
pub fn biostack<R: Threads + Wait + Sync, S: Source, K: Sink, E: Sink, G: Gate + Sync>(
    rt: &R,
    alloc: Global,
    words: &[String],
    source: &mut S,
    out: &mut K,
    errors: &mut E,
    gate: &mut G,
) -> Exit
    requires { G.shown gate.old ≡ None }

    // How it ended is one of the causes, and what the output and the errors hold is what goes with it.
    ensures whole { Exits words.now (G.shown gate.new) result.0
        (call S.Source source.old source.new K.Sink out.old out.new)
        E.Sink errors.old errors.new }

    // What each status alone says.
    ensures usage { result.0 ≡ 2 → given_order words.now ≡ None }
    ensures no_order { given_order words.now ≡ None → (result.0 ≡ 2) ⊎ (result.0 ≡ 6) }
    ensures not_all_well { result.0 ≡ 1 → AskForUnwell words.now }
    ensures refused { result.0 ≡ 3 → AskForRefusedText words.now (S.left source.old) }
    ensures read_fault { result.0 ≡ 4 → Rose (S.faults source.old) (S.faults source.new) }
    ensures no_read_fault { (result.0 ≡ 4) ⊎ (S.faults source.new ≡ S.faults source.old) }
    ensures write_fault { result.0 ≡ 5 → Rose (K.faults out.old) (K.faults out.new) }
    ensures no_write_fault { (result.0 ≡ 5) ⊎ (K.faults out.new ≡ K.faults out.old) }

    // A gate is shown something by a run of threads alone, which then was reported, but for a fault of the output, or want of memory for its
    // trace.
    ensures shown { is_some (G.shown gate.new) ≡ true → MayFollowWorkers words.now result.0 }

    // What the output holds by now it held before any fault.
    ensures stops { StopsAtFault K.Sink out.old out.new }

    // An order over a text that is not refused is carried out where nothing fails, but for want of memory.
    ensures complete { CarriesOutWords words.now result.0
        (call S.Source source.old source.new K.Sink out.old out.new) }
{
    match order::order_of(alloc, words) {
        Ok(order) => match order::workers_in(order) {
            Some((workers, trace)) => {
                serve_shared(rt, alloc, workers, trace, source, out, errors, gate)
            }
            None => serve_alone(alloc, &order, source, out, errors),
        },
        Err(ending) => end(ending, errors),
    }
}
