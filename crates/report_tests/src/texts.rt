//! Texts, whole and cut short.
ghost use Rattle.std.specs.Prelude.{◌≤◌};
ghost use Rattle.report_text.specs.Views.{IsEndedOfStack};

use crate::made::made;
use layout_model::{Bounds, Fragment};
use outside_io::{FailSink, MemSink, Sink};
use report_text::{write_gen, write_layout, write_report};
use stack_base::{DevId, Stack};
use std::process::Abort;
use std::test::Fail;
use task_core::Ended;

const REPORT: &[u8] = b"write 0 ok
write 1 medium
disk a sum 0000000000002a20
run a 1 2
run a 5 1
disk b sum 0000000000000000
pool fs.bios reserve 2 ordinary 3 spare 4
pool fs.vecs reserve 5 ordinary 0 spare 6
pool m.records reserve 7 ordinary 8 spare 9
pool m.bios reserve 10 ordinary 11 spare 12
pool l.bios reserve 13 ordinary 14 spare 15
steps 29 of 46
";

const SUMMARY: &[u8] = b"gen 7 writes 2 sectors 3
disk a sum 0000000000002a20
disk b sum 0000000000000000
steps 29 of 46
";

// 8 * 5 + 2 * 2 + 2 is 46.
const BOUND: Bounds = Bounds { e: 5, g: 2, z: 2 };

// Whether the report was written whole.
fn report_to<K: Sink>(ended: &Ended, stack: &Stack, out: &mut K) -> bool
    requires { IsEndedOfStack stack.now ended.now }
{
    write_report(ended, stack, &BOUND, out).is_ok()
}

#[test]
fn a_report_has_its_lines_in_order(rt: HostRuntime) -> Result<(), Fail> {
    let (stack, ended) = made(&rt)?;
    let mut out = MemSink::new(rt.alloc(), 1000)?;
    assert!(rt; report_to(&ended, &stack, &mut out));
    assert_eq!(rt; out.held(), REPORT);
    Ok(())
}

#[test]
fn a_summary_has_sums_and_no_runs(rt: HostRuntime) -> Result<(), Fail> {
    let (stack, ended) = made(&rt)?;
    let mut out = MemSink::new(rt.alloc(), 1000)?;
    assert!(rt; write_gen(7, 2, 3, &ended, &stack, &BOUND, &mut out).is_ok());
    assert_eq!(rt; out.held(), SUMMARY);
    Ok(())
}

// Writes the report to a sink that takes so many bytes a call and fails at one call: how many bytes it holds, all of them in front of the report.
fn held_of(
    rt: &(impl Abort + AllocGlobal),
    ended: &Ended,
    stack: &Stack,
    number: u64,
    most: usize,
) -> Result<usize, Fail>
    requires of { IsEndedOfStack stack.now ended.now }
    requires most { 1 ≤ most }
{
    let mut out = FailSink::new(rt.alloc(), 1000, vec![in rt.alloc(); number]?, most)?;
    let whole = report_to(ended, stack, &mut out);
    let held = out.held();
    assert!(rt; REPORT.starts_with(held));
    assert_eq!(rt; whole, held.len() == REPORT.len());
    Ok(held.len())
}

#[test]
fn a_sink_that_fails_holds_a_front(rt: HostRuntime) -> Result<(), Fail> {
    let (stack, ended) = made(&rt)?;
    for number in 1..REPORT.len() as u64 + 1 {
        let held = held_of(&rt, &ended, &stack, number, 1)?;
        assert_eq!(rt; held as u64, number.saturating_sub(1));
    }
    Ok(())
}

#[test]
fn a_report_that_fits_is_one_call(rt: HostRuntime) -> Result<(), Fail> {
    let (stack, ended) = made(&rt)?;
    assert_eq!(rt; held_of(&rt, &ended, &stack, 1, 1000)?, 0);
    assert_eq!(rt; held_of(&rt, &ended, &stack, 2, 1000)?, REPORT.len());
    Ok(())
}
