//! What holds of every replay, as functions that do nothing.
ghost use Rattle.trace_replay.specs.Exact.{NoneIsStuck, RunsHaveNoBadLine};
ghost use Rattle.trace_replay.specs.Traces.{AcceptedTextsTellNoEvent, NextPlacesAreVacant, ReportedRunsReplay, ReportsTellNoEvent, RunsAreReadByNames, TracesReplay};

use trace_text::laws::{events_are_apart, lines_are_text};

/// A replay from the start of a scenario has no bad line exactly where its lines are those of a run.
pub fn runs_have_no_bad_line()
    ensures { RunsHaveNoBadLine }
{
    events_are_apart();
}

/// Where each mirror of two members or more has a rescuer, no replay of a scenario that can be run is stuck.
pub fn none_is_stuck()
    ensures { NoneIsStuck }
{}

/// The events of every run of every scenario, read by names, are a run too, in which each new node has the next place of
/// its writer's book. It leaves the same in pools, tally and images.
pub fn runs_are_read_by_names()
    ensures { RunsAreReadByNames }
{}

/// In a run that is read so, wherever a node of a writer can be opened, the next place of the writer's book is vacant.
pub fn next_places_are_vacant()
    ensures { NextPlacesAreVacant }
{}

/// No line of a text that is not refused begins with the word `event`, whether all checks are made or the loose ones.
pub fn accepted_texts_tell_no_event()
    ensures { AcceptedTextsTellNoEvent }
{}

/// So the trace of every run of every scenario, between a text that is not refused and lines that tell no event, is
/// replayed to its end: no line is bad, all events are counted, and the replay has ended where the run has. The scenario
/// ends where the trace begins.
pub fn traces_replay()
    ensures { TracesReplay }
{
    accepted_texts_tell_no_event();
    events_are_apart();
    lines_are_text();
}

/// No line of a report of a stack whose devices have names begins with the word `event`.
pub fn reports_tell_no_event()
    ensures { ReportsTellNoEvent }
{}

/// So what `run --trace` writes, behind the text of its scenario, is replayed to its end: nothing is asked of the report.
pub fn reported_runs_replay()
    ensures { ReportedRunsReplay }
{
    traces_replay();
    reports_tell_no_event();
}
