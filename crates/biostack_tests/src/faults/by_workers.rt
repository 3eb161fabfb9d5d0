//! Faults under small runs by workers, with a trace or with none.
use super::{Call, errors_fail, output_fails, output_is_full, output_of, source_fails};
use crate::texts::{
    BAD_SECTOR, BAD_SECTOR_REPORT, BAD_SECTOR_TRACE, MIRRORED, MIRRORED_REPORT, ONE_SECTOR,
    ONE_SECTOR_REPORT,
};

/// What workers report of these texts is the same, whatever their threads do; and so is the trace of one write to a disk, whose tasks can go
/// on one at a time alone.
const CALLS: [Call<'static>; 4] = [
    Call {
        words: &["run", "--workers", "1"],
        text: ONE_SECTOR,
        output: ONE_SECTOR_REPORT,
        status: 0,
    },
    // Its write fails, and a fault of the source or of the output hides that.
    Call {
        words: &["run", "--workers", "2"],
        text: BAD_SECTOR,
        output: BAD_SECTOR_REPORT,
        status: 1,
    },
    Call {
        words: &["run", "--workers", "4"],
        text: MIRRORED,
        output: MIRRORED_REPORT,
        status: 0,
    },
    Call {
        words: &["run", "--workers", "2", "--trace"],
        text: BAD_SECTOR,
        output: BAD_SECTOR_TRACE,
        status: 1,
    },
];

#[test]
fn a_source_that_fails_under_workers_ends_with_4(rt: HostRuntime) {
    for call in CALLS {
        source_fails(&rt, call);
    }
}

#[test]
fn an_output_that_fails_or_is_full_under_workers_ends_with_5(rt: HostRuntime) {
    for call in CALLS {
        output_fails(&rt, call);
        output_is_full(&rt, call);
    }
}

#[test]
fn errors_that_fail_under_workers_change_nothing_else(rt: HostRuntime) {
    for call in CALLS {
        errors_fail(&rt, call);
    }
}

// One worker steps all tasks in turn, and so makes the same run of a text each time.
#[test]
fn an_output_that_fails_under_a_longer_trace_ends_with_5(rt: HostRuntime) {
    let words: &[&str] = &["run", "--workers", "1", "--trace"];
    let output = output_of(&rt, words, MIRRORED);
    let call = Call {
        words,
        text: MIRRORED,
        output: output.as_str(),
        status: 0,
    };
    output_fails(&rt, call);
    output_is_full(&rt, call);
}
