//! The report of a run behind its trace, and how a call ends that has written them.
ghost use Rattle.std.specs.Prelude.{◌≡◌, ◌^◌, ◌<◌, IsErr, OnErr, OnOk};
ghost use Rattle.stack_base.specs.declared.ids.Status.TheVariants.{Ok as no_error};
ghost use Rattle.stack_base.specs.Fault.{status_eq};
ghost use Rattle.outside_io.specs.Saying.{Writes};
ghost use Rattle.report_text.specs.CheckText.{steps_bound};
ghost use Rattle.report_text.specs.Views.{IsEndedOfStack};
ghost use Rattle.biostack_top.specs.Streams.{sink_stream};
ghost use Rattle.biostack_top.specs.Ending.{EndsReported, all_well, report_left};

use crate::ending::Ending;
use crate::scene::Scene;
use outside_io::{Failed, Sink};
use report_text::write_report;
use stack_base::Status;
use task_core::Ended;

// Whether a write ended well.
fn is_well(end: Status) -> bool
    ensures { result ≡ status_eq end no_error }
{
    matches!(end, Status::Ok)
}

// Whether each write ended well.
fn all_well(statuses: &[Status]) -> bool
    ensures { result ≡ all_well statuses.now }
{
    statuses.iter().all(|end| is_well(*end))
}

// Writes the report behind a trace, if that was written.
fn write_behind<K: Sink>(
    traced: Result<(), Failed>,
    ended: &Ended,
    scene: &Scene<'_>,
    out: &mut K,
) -> Result<(), Failed>
    requires ended { IsEndedOfStack scene.now.accepted.stack ended.now }
    requires bound { steps_bound scene.now.work.bound < 2 ^ 64 }
    ensures ok { OnOk traced (Writes K.Sink out.old out.new result (report_left scene.now ended.now)) }
    ensures err { OnErr traced (IsErr result × (out.new ≡ out.old)) }
{
    traced?;
    write_report(ended, &scene.accepted.stack, &scene.work.bound, out)
}

/// Writes the report of what a run of the scene left, behind its trace if that was written, and tells how the call ends.
pub(crate) fn report_behind<K: Sink>(
    traced: Result<(), Failed>,
    ended: &Ended,
    scene: &Scene<'_>,
    out: &mut K,
) -> Ending
    requires ended { IsEndedOfStack scene.now.accepted.stack ended.now }
    requires bound { steps_bound scene.now.work.bound < 2 ^ 64 }
    ensures { EndsReported result traced scene.now ended.now (sink_stream K.Sink out.old out.new) }
{
    match write_behind(traced, ended, scene, out) {
        Err(Failed) => Ending::WriteFault,
        Ok(()) => {
            if all_well(&ended.statuses) {
                Ending::Done
            } else {
                Ending::NotAllWell
            }
        }
    }
}
