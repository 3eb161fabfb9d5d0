//! Faults under small runs, a trace, a check, a layout, a scrub, a replay and generated texts.
use super::{
    Call, Faults, NONE, WRITE_FAULT, ends, errors_fail, output_fails, output_is_full, output_of,
    source_fails, whole,
};
use crate::scrubs::{ALIKE, ALIKE_LINES};
use crate::texts::{
    BAD_SECTOR, BAD_SECTOR_REPORT, ONE_SECTOR, ONE_SECTOR_GIVEN, ONE_SECTOR_REPLAYED,
    ONE_SECTOR_REPORT, ONE_SECTOR_TRACE, STRIPED, STRIPED_CHECK, STRIPED_LAYOUT,
};
use std::process::Abort;
use std::sync::Wait;
use std::thread::Threads;

const CALLS: [Call<'static>; 7] = [
    Call {
        words: &["run"],
        text: ONE_SECTOR,
        output: ONE_SECTOR_REPORT,
        status: 0,
    },
    // Its write fails, and a fault of the source or of the output hides that.
    Call {
        words: &["run"],
        text: BAD_SECTOR,
        output: BAD_SECTOR_REPORT,
        status: 1,
    },
    Call {
        words: &["run", "--trace"],
        text: ONE_SECTOR,
        output: ONE_SECTOR_TRACE,
        status: 0,
    },
    Call {
        words: &["check"],
        text: STRIPED,
        output: STRIPED_CHECK,
        status: 0,
    },
    Call {
        words: &["layout"],
        text: STRIPED,
        output: STRIPED_LAYOUT,
        status: 0,
    },
    Call {
        words: &["scrub"],
        text: ALIKE,
        output: ALIKE_LINES,
        status: 0,
    },
    Call {
        words: &["replay"],
        text: ONE_SECTOR_GIVEN,
        output: ONE_SECTOR_REPLAYED,
        status: 0,
    },
];

#[test]
fn a_source_that_fails_at_any_call_ends_with_4(rt: HostRuntime) {
    for call in CALLS {
        source_fails(&rt, call);
    }
}

#[test]
fn an_output_that_fails_or_is_full_ends_with_5(rt: HostRuntime) {
    for call in CALLS {
        output_fails(&rt, call);
        output_is_full(&rt, call);
    }
}

#[test]
fn errors_that_fail_change_nothing_else(rt: HostRuntime) {
    for call in CALLS {
        errors_fail(&rt, call);
    }
}

// `gen` reads nothing, so a source that fails changes nothing.
fn reads_nothing(rt: &(impl Abort + AllocGlobal + Threads + Wait + Sync), call: Call<'_>) {
    ends(rt, call, Faults { source: 1, ..NONE }, whole(call))
}

#[test]
fn an_output_that_fails_under_a_generated_text_ends_with_5(rt: HostRuntime) {
    let words: &[&str] = &["gen", "7", "--text"];
    let output = output_of(&rt, words, "");
    let call = Call {
        words,
        text: "",
        output: output.as_str(),
        status: 0,
    };
    reads_nothing(&rt, call);
    output_fails(&rt, call);
}

#[test]
fn an_output_that_fails_under_a_generated_run_ends_with_5(rt: HostRuntime) {
    let words: &[&str] = &["gen", "7"];
    let output = output_of(&rt, words, "");
    let call = Call {
        words,
        text: "",
        output: output.as_str(),
        status: 0,
    };
    reads_nothing(&rt, call);
    let all = call.output.len();
    for held in [0, 1, all.saturating_sub(1)] {
        let out = (held as u64).saturating_add(1);
        ends(
            &rt,
            call,
            Faults { out, ..NONE },
            (5, held, WRITE_FAULT.len()),
        );
    }
    let out = (all as u64).saturating_add(1);
    ends(&rt, call, Faults { out, ..NONE }, whole(call));
}
