//! What holds of what is told of a run, as functions that do nothing.
ghost use Rattle.biostack_top.specs.Laws.{TracedRunsReplay, TracesAreReadBack};
ghost use Rattle.biostack_top.specs.Scrubbed.{UnlikeWhereLaidDiffers};

/// The line of each event of a run to its end is read back as this event.
pub fn traces_are_read_back()
    ensures { TracesAreReadBack }
{
    trace_text::laws::accepted_stacks_are_named();
    trace_text::laws::lines_are_read_back();
}

/// What `run --trace` writes of a text that has a write, by the schedule of a number or by threads, is read by `replay` behind
/// this text, to the end of that run: nothing is refused, if it is not too long together, and no line is bad.
pub fn traced_runs_replay()
    ensures { TracedRunsReplay }
{
    trace_text::laws::accepted_stacks_are_named();
    trace_replay::laws::traces_replay();
    trace_replay::laws::reports_tell_no_event();
}

/// Where each disk holds what the writes lay out on it, as it does when a run has ended, a sector of a mirror is unlike on
/// a member exactly where what is laid out at two places differs: at the sectors of disks that the member and the first
/// member show there.
pub fn unlike_where_laid_differs()
    ensures { UnlikeWhereLaidDiffers }
{}
