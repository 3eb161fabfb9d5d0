//! Events, and the lines that they are.
ghost use Rattle.trace_text.specs.Names.{DevicesAreNamed};

use crate::lines::{MIRROR, is_event};
use crate::stacks::stack_of;
use arrayvec::ArrayVec;
use stack_base::{DevId, PoolId, Stack, Status};
use std::process::Abort;
use std::test::Fail;
use task_core::{End, Event, Got, How, TaskId, What};
use trace_text::write_event;

/// Lines of the stack of a mirror, and the events that they are.
const EVENTS: &[(&str, Event)] = &[
    (
        "event w7 take fs.vecs ordinary",
        Event {
            task: TaskId::Writer(7),
            what: What::Take {
                pool: PoolId::FsVecs,
                got: Got::Ordinary,
            },
        },
    ),
    (
        "event r:m try m.bios missed",
        Event {
            task: TaskId::Rescuer(DevId(2)),
            what: What::Try {
                pool: PoolId::Bios(DevId(2)),
                got: Got::Missed,
            },
        },
    ),
    (
        "event c:b give m.records",
        Event {
            task: TaskId::Completer(DevId(1)),
            what: What::Give {
                pool: PoolId::Records(DevId(2)),
            },
        },
    ),
    (
        "event k resize fs.bios 2",
        Event {
            task: TaskId::Keeper,
            what: What::Resize {
                pool: PoolId::FsBios,
                min: 2,
            },
        },
    ),
    (
        "event w0 punt m 3",
        Event {
            task: TaskId::Writer(0),
            what: What::Punt {
                dev: DevId(2),
                moved: 3,
            },
        },
    ),
    (
        "event r:m pop m",
        Event {
            task: TaskId::Rescuer(DevId(2)),
            what: What::Pop { dev: DevId(2) },
        },
    ),
    (
        "event w1 push b 4 5 leg 6",
        Event {
            task: TaskId::Writer(1),
            what: What::Push {
                disk: DevId(1),
                at: 4,
                len: 5,
                leg: 6,
            },
        },
    ),
    (
        "event c:a complete a 9 medium",
        Event {
            task: TaskId::Completer(DevId(0)),
            what: What::Complete {
                disk: DevId(0),
                index: 9,
                status: Status::Medium,
            },
        },
    ),
    (
        "event w0 link 1 master 2",
        Event {
            task: TaskId::Writer(0),
            what: What::Link {
                writer: 1,
                how: How::Master,
                node: 2,
            },
        },
    ),
    (
        "event c:a drop 3 4 nospace up",
        Event {
            task: TaskId::Completer(DevId(0)),
            what: What::Drop {
                writer: 3,
                node: 4,
                status: Status::NoSpace,
                end: End::Up,
            },
        },
    ),
    (
        "event c:b done 5 io",
        Event {
            task: TaskId::Completer(DevId(1)),
            what: What::Done {
                write: 5,
                status: Status::Io,
            },
        },
    ),
    (
        "event k round 6",
        Event {
            task: TaskId::Keeper,
            what: What::Round { round: 6 },
        },
    ),
];

/// Checks that each of these events is written as its line, and that the line is read as an event that is written so again. No two events of
/// a stack are written as one line, so it is the same one.
pub fn check_told(rt: &impl Abort, stack: &Stack, events: &[(&str, Event)])
    requires { DevicesAreNamed stack.now }
{
    for (line, event) in events {
        let mut written = ArrayVec::new();
        write_event(event, stack, &mut written);
        assert!(rt; written.as_slice() == line.as_bytes(), "{line}");
        assert!(rt; is_event(rt, stack, line.as_bytes()), "{line}");
    }
}

#[test]
fn lines_are_their_events(rt: HostRuntime) -> Result<(), Fail> {
    let accepted = stack_of(rt.alloc(), MIRROR)?;
    check_told(&rt, &accepted.stack, EVENTS);
    Ok(())
}
