//! A stack whose names differ in their last byte, and its lines.
use crate::events::check_told;
use crate::lines::{check_events, check_none};
use crate::stacks::stack_of;
use stack_base::{DevId, PoolId};
use std::test::Fail;
use task_core::{Event, TaskId, What};

/// Two disks whose names have 16 characters and differ in the last one, and a device whose name they begin with.
const LONG_NAMES: &str =
    "disk abcdefghijklmno_ 8\ndisk abcdefghijklmno- 8\nlinear a abcdefghijklmno_ abcdefghijklmno-\n";

/// Lines of that stack. The last one is as long as a line may be, 103 bytes.
const LONG: &[&str] = &[
    "event w0 take a.bios ordinary",
    "event w0 push abcdefghijklmno- 0 1 leg 0",
    "event c:abcdefghijklmno_ drop 0 1 ok up",
    "event c:abcdefghijklmno- push abcdefghijklmno_ 18446744073709551615 18446744073709551615 leg 4294967295",
];

/// Lines that are no events of that stack.
const NOT_LONG: &[&str] = &[
    "event r:abcdefghijklmno pop a",
    "event r:abcdefghijklmno__ pop a",
    "event w0 give a.records",
    "event w0 take m.bios spare",
    "event r:m pop m",
];

const LONG_EVENTS: &[(&str, Event)] = &[(
    "event c:abcdefghijklmno- give a.bios",
    Event {
        task: TaskId::Completer(DevId(1)),
        what: What::Give {
            pool: PoolId::Bios(DevId(2)),
        },
    },
)];

#[test]
fn names_are_told_apart_by_their_last_byte(rt: HostRuntime) -> Result<(), Fail> {
    let accepted = stack_of(rt.alloc(), LONG_NAMES)?;
    check_events(&rt, &accepted.stack, LONG);
    check_none(&rt, &accepted.stack, NOT_LONG);
    check_told(&rt, &accepted.stack, LONG_EVENTS);
    Ok(())
}
