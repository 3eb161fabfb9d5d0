//! Compares the members of mirrors behind a run.
ghost use Rattle.std.specs.Prelude.{◌≡◌, ◌^◌, ◌<◌, IsErr, OnErr, OnOk};
ghost use Rattle.outside_io.specs.Saying.{Writes};
ghost use Rattle.report_text.specs.CheckText.{steps_bound};
ghost use Rattle.report_text.specs.Report.{steps_line};
ghost use Rattle.biostack_words.specs.declared.order.Order.TheVariants as order;
ghost use Rattle.biostack_top.specs.Scene.{IsSaid};
ghost use Rattle.biostack_top.specs.Streams.{sink_stream};
ghost use Rattle.biostack_top.specs.Ending.{TextEndsBy};

use crate::ending::Ending;
use crate::run::run_quiet;
use crate::scene::Scene;
use layout_model::Bounds;
use mirror_scrub::all_alike;
use outside_io::{Failed, Sink};
use report_text::write_steps;
use std::alloc::Global;
use task_core::open;

// Writes how many events a run had, behind what was told of it, if that was written.
fn steps_behind<K: Sink>(
    told: Result<(), Failed>,
    steps: u64,
    bound: &Bounds,
    out: &mut K,
) -> Result<(), Failed>
    requires { steps_bound bound.now < 2 ^ 64 }
    ensures ok { OnOk told (Writes K.Sink out.old out.new result (steps_line steps (steps_bound bound.now))) }
    ensures err { OnErr told (IsErr result × (out.new ≡ out.old)) }
{
    told?;
    write_steps(steps, bound, out)
}

/// Runs the scene's writes to their end by the schedule of a number, and tells where the members of its mirrors differ in what the run left.
pub(crate) fn scrub<K: Sink>(alloc: Global, number: u64, scene: &Scene<'_>, out: &mut K) -> Ending
    requires { IsSaid scene.now }
    ensures { TextEndsBy result (order.Scrub number) scene.now.text.now (sink_stream K.Sink out.old out.new) }
{
    let Ok(opened) = open(alloc, &scene.accepted, &scene.work) else {
        return Ending::Memory;
    };
    let ended = run_quiet(opened, number);
    let stack = &scene.accepted.stack;
    let told = mirror_scrub::scrub(stack, &ended.disks, out);
    match steps_behind(told, ended.steps, &scene.work.bound, out) {
        Err(Failed) => Ending::WriteFault,
        Ok(()) => {
            if all_alike(stack, &ended.disks) {
                Ending::Done
            } else {
                Ending::NotAllWell
            }
        }
    }
}
