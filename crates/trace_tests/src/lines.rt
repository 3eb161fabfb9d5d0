//! Lines that were written by hand: those of events, and those that are none.
ghost use Rattle.trace_text.specs.Names.{DevicesAreNamed};

use crate::stacks::stack_of;
use arrayvec::ArrayVec;
use stack_base::Stack;
use std::process::Abort;
use std::test::Fail;
use trace_text::{read_event, write_event};

/// Two disks, and a mirror with one bio and one record.
pub const MIRROR: &str = "disk a 8\ndisk b 8\nmirror m a b reserve=1 records=1\n";

/// All events of a run of that stack, with one write of one sector and no ordinary memory.
pub const RUN: &[&str] = &[
    "event w0 take fs.bios spare",
    "event w0 link 0 write 0",
    "event w0 take m.records spare",
    "event w0 link 0 master 1",
    "event w0 take m.bios spare",
    "event w0 link 0 leg 2",
    "event w0 try m.bios missed",
    "event w0 punt m 1",
    "event r:m pop m",
    "event r:m push a 0 1 leg 0",
    "event c:a complete a 0 ok",
    "event c:a drop 0 2 ok up",
    "event c:a give m.bios",
    "event c:a drop 0 1 ok left",
    "event w0 take m.bios spare",
    "event w0 link 0 leg 2",
    "event w0 push b 0 1 leg 1",
    "event c:b complete b 0 ok",
    "event c:b drop 0 2 ok up",
    "event c:b give m.bios",
    "event c:b drop 0 1 ok up",
    "event c:b give m.records",
    "event c:b drop 0 0 ok top",
    "event c:b give fs.bios",
    "event c:b done 0 ok",
];

/// Lines of the other kinds and words, and of the greatest numbers.
pub const OTHERS: &[&str] = &[
    "event w7 take fs.vecs ordinary",
    "event w7 take m.bios missed",
    "event r:m try m.bios spare",
    "event w1 link 1 chain 3",
    "event c:b complete b 63 io",
    "event c:b drop 7 9 medium up",
    "event c:a drop 0 10 nospace top",
    "event c:a done 12 nospace",
    "event r:a pop b",
    "event k resize m.bios 2",
    "event k resize fs.vecs 1024",
    "event k round 1",
    "event w4294967295 link 4294967295 leg 4294967295",
    "event w0 punt b 18446744073709551615",
    "event k push a 18446744073709551615 18446744073709551615 leg 4294967295",
];

/// Lines that are no events of that stack.
const NONE: &[&str] = &[
    "",
    " ",
    "event",
    "event ",
    "event k",
    "event w0 take fs.bios spare ",
    "event w0 take fs.bios  spare",
    "event  w0 take fs.bios spare",
    " event w0 take fs.bios spare",
    "event w0 take fs.bios spare\n",
    "event w0 take fs.bios\tspare",
    "event w0 take fs.bios spare x",
    "event w0 take fs.bios",
    "Event w0 take fs.bios spare",
    "events w0 take fs.bios spare",
    "w0 take fs.bios spare",
    "event w take fs.bios spare",
    "event 0 take fs.bios spare",
    "event w00 take fs.bios spare",
    "event w01 take fs.bios spare",
    "event w+1 take fs.bios spare",
    "event w-1 take fs.bios spare",
    "event w4294967296 take fs.bios spare",
    "event kk round 1",
    "event r:x pop m",
    "event r: pop m",
    "event c: complete a 0 ok",
    "event c:m complete a 0 ok",
    "event c:aa complete a 0 ok",
    "event w0 grab fs.bios spare",
    "event w0 take fs spare",
    "event w0 take fs.records spare",
    "event w0 take fs.bios.bios spare",
    "event w0 take .bios spare",
    "event w0 take m. spare",
    "event w0 take a.bios spare",
    "event w0 take a.records spare",
    "event w0 take m.vecs spare",
    "event w0 take M.bios spare",
    "event w0 take m.bios Spare",
    "event w0 take m.bios leg",
    "event w0 give m.bios spare",
    "event w0 punt x 1",
    "event w0 punt m 01",
    "event w0 punt m 18446744073709551616",
    "event w0 punt m 100000000000000000000",
    "event w0 push m 0 1 leg 0",
    "event w0 push b 0 1 1",
    "event w0 push b 0 1 lag 1",
    "event w0 push b 0 1 leg 4294967296",
    "event w0 push b 0 1 leg",
    "event w0 push b 0 leg 1",
    "event c:a complete a 0 none",
    "event c:a complete m 0 ok",
    "event c:a complete a -1 ok",
    "event w0 link 0 master 4294967296",
    "event w0 link 0 1",
    "event w0 link 4294967296 leg 1",
    "event c:a drop 0 2 up ok",
    "event c:a drop 0 2 ok down",
    "event c:a done 4294967296 ok",
    "event c:a done 0",
    "event k resize a.bios 2",
    "event k resize m.bios 4294967296",
    "event k round",
    "event k round 00",
];

/// Whether the line is that of an event, and if so, checks that the event is written as that line.
pub fn is_event(rt: &impl Abort, stack: &Stack, line: &[u8]) -> bool
    requires { DevicesAreNamed stack.now }
{
    match read_event(line, stack) {
        None => false,
        Some(event) => {
            let mut written = ArrayVec::new();
            write_event(&event, stack, &mut written);
            assert!(rt; written.as_slice() == line);
            true
        }
    }
}

/// Checks that each line is that of an event.
pub fn check_events(rt: &impl Abort, stack: &Stack, lines: &[&str])
    requires { DevicesAreNamed stack.now }
{
    for line in lines {
        assert!(rt; is_event(rt, stack, line.as_bytes()), "{line}");
    }
}

/// Checks that no line is that of an event.
pub fn check_none(rt: &impl Abort, stack: &Stack, lines: &[&str])
    requires { DevicesAreNamed stack.now }
{
    for line in lines {
        assert!(rt; !is_event(rt, stack, line.as_bytes()), "{line}");
    }
}

#[test]
fn events_of_a_run_are_read_and_written(rt: HostRuntime) -> Result<(), Fail> {
    let accepted = stack_of(rt.alloc(), MIRROR)?;
    assert_eq!(rt; RUN.len(), 25);
    check_events(&rt, &accepted.stack, RUN);
    check_events(&rt, &accepted.stack, OTHERS);
    Ok(())
}

#[test]
fn other_lines_are_no_events(rt: HostRuntime) -> Result<(), Fail> {
    let accepted = stack_of(rt.alloc(), MIRROR)?;
    check_none(&rt, &accepted.stack, NONE);
    Ok(())
}
