//! Tells a pen the line of each event: as it happens, or of events that were kept.
ghost use Rattle.std.specs.Prelude.{◌≡◌, All, [], false, true, MatchResult};
ghost use Rattle.outside_io.specs.Saying.{Says, Writes};
ghost use Rattle.task_core.specs.opened.OfOne.{IsOpened, scenario_in};
ghost use Rattle.biostack_top.specs.Running.{WritesRun};
ghost use Rattle.biostack_top.specs.Streams.{sink_stream};
ghost use Rattle.run_machine.specs.Named.{FitsEvent};
ghost use Rattle.biostack_top.specs.Tracing.{FitsKept, WritesKept, event_line, event_lines};

use arrayvec::ArrayVec;
use outside_io::{Failed, Pen, Sink};
use serial_run::{Events, Schedule, run_serial};
use stack_base::Stack;
use task_core::{Ended, Event, Opened};
use trace_text::write_event;

/// A pen that is told the line of each event. Lines go to the sink as the pen's buffer is full, and the rest at the end; after a fault of the
/// sink nothing does.
pub(crate) struct Trace<'k, 's, K> {
    out: &'k mut K,
    stack: &'s Stack,
    pen: Pen,
}

// The numbers of an event are such as its fields have.
fn fits(event: Event)
    ensures { FitsEvent event }
{}

// Tells the line of an event, with the byte 10 that ends it.
fn write_line<K: Sink>(pen: &mut Pen, out: &mut K, stack: &Stack, event: &Event)
    ensures says { Says K.Sink out.old pen.old out.new pen.new (event_line stack.now event.now) }
    ensures fits { FitsEvent event.now }
{
    fits(*event);
    let mut line = ArrayVec::new();
    write_event(event, stack, &mut line);
    pen.put(out, &[line.as_slice(), b"\n"]);
}

impl<'k, 's, K> Drop for Trace<'k, 's, K> {
    fn drop(self)
        ensures { self.exit.0.now ≡ self.entry.out.now }
    {
        let Self {
            out: _,
            stack: _,
            pen: _,
        } = self;
    }
}

impl<'k, 's, K: Sink> Events for Trace<'k, 's, K> {
    ghost use Rattle.biostack_top.specs.Tracing.{WritesLine};

    ghost happens = { WritesLine K.Sink };

    fn event(&mut self, event: &Event) {
        write_line(&mut self.pen, self.out, self.stack, event);
    }
}

impl<'k, 's, K: Sink> Trace<'k, 's, K> {
    // Hands on what waits in the pen. An error says that the sink has failed, now or before.
    fn finish(&mut self) -> Result<(), Failed>
        ensures same_reference { self.new.out.ghost_name ≡ self.old.out.ghost_name }
        ensures says { Says K.Sink self.old.out.now self.old.pen self.new.out.now self.new.pen [] }
        ensures handed { self.new.pen.pending ≡ [] }
        ensures failed { MatchResult result (λ _. self.new.pen.failed ≡ false) (λ _. self.new.pen.failed ≡ true) }
    {
        self.pen.finish(self.out)
    }
}

/// Runs what was opened by the schedule of a number, and writes the line of each event: a pen is told it as it happens. Answers what the run
/// left, and how the writing ended.
pub(crate) fn run_traced<K: Sink>(
    opened: Opened,
    number: u64,
    stack: &Stack,
    out: &mut K,
) -> (Ended, Result<(), Failed>)
    requires opened { IsOpened opened }
    ensures { WritesRun (scenario_in opened) number (event_lines stack.now) result
        (sink_stream K.Sink out.old out.new) }
{
    let mut schedule = Schedule::new(number);
    let mut trace = Trace {
        out,
        stack,
        pen: Pen::new(),
    };
    let ended = run_serial(opened, &mut schedule, &mut trace);
    let told = trace.finish();
    (ended, told)
}

// Tells the lines of events, in their order.
fn write_lines<K: Sink>(pen: &mut Pen, out: &mut K, stack: &Stack, events: &[Event])
    ensures says { Says K.Sink out.old pen.old out.new pen.new (event_lines stack.now events.now) }
    ensures fits { All FitsEvent events.now }
{
    'telling: for event in events {
        write_line(pen, out, stack, event);
    }
}

// Writes the lines of events, in their order.
fn write_events<K: Sink>(events: &[Event], stack: &Stack, out: &mut K) -> Result<(), Failed>
    ensures written { Writes K.Sink out.old out.new result (event_lines stack.now events.now) }
    ensures fits { All FitsEvent events.now }
{
    let mut pen = Pen::new();
    write_lines(&mut pen, out, stack, events);
    pen.finish(out)
}

/// Writes the line of each event that was kept of a run: of all of them, or of none where there is to be no trace. An error says that the sink
/// has failed.
pub(crate) fn write_trace<K: Sink>(
    kept: &Option<Vec<Event>>,
    stack: &Stack,
    out: &mut K,
) -> Result<(), Failed>
    ensures written { WritesKept kept.now stack.now result (sink_stream K.Sink out.old out.new) }
    ensures fits { FitsKept kept.now }
{
    match kept {
        Some(events) => write_events(events, stack, out),
        None => Ok(()),
    }
}
