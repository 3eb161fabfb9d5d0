//! Pens, and how often they put.
use biostack_top::Ending;
use decl_text::Refusal;
use outside_io::{FailSink, Pen};
use std::alloc::{AllocError, Global};
use std::test::Fail;

// A sink that takes all that it is given, and fails at this call.
fn failing_sink(alloc: Global, number: u64) -> Result<FailSink, AllocError> {
    FailSink::new(alloc, 30000, vec![in alloc; number]?, 30000)
}

// Tells a pen eight times 2,500 bytes, for a sink that fails at this call: whether all was written, and how many bytes the sink holds.
fn tell(alloc: Global, number: u64) -> Result<(bool, usize), AllocError> {
    let part = vec![in alloc; 7; 1250]?;
    let mut sink = failing_sink(alloc, number)?;
    let mut pen = Pen::new();
    for _ in 0..8 {
        pen.put(&mut sink, &[part.as_slice(), b"", part.as_slice()]);
    }
    let whole = pen.finish(&mut sink).is_ok();
    Ok((whole, sink.held().len()))
}

#[test]
fn a_pen_puts_whole_buffers_until_a_fault(rt: HostRuntime) -> Result<(), Fail> {
    let rows = [
        (1, false, 0),
        (2, false, 8192),
        (3, false, 16384),
        (4, true, 20000),
    ];
    for (number, whole, held) in rows {
        assert_eq!(rt;
            tell(rt.alloc(), number)?,
            (whole, held),
            "a fault at call {number}"
        );
    }
    Ok(())
}

#[test]
fn a_line_on_errors_is_one_call(rt: HostRuntime) -> Result<(), Fail> {
    let refused = Ending::Refused(Refusal {
        number: 3,
        line: 12,
    });
    let mut sink = failing_sink(rt.alloc(), 2)?;
    assert!(rt; refused.tell(&mut sink).is_ok());
    assert_eq!(rt; sink.held(), b"biostack: line 12: 3 NameTaken\n".as_slice());
    let mut failing = failing_sink(rt.alloc(), 1)?;
    assert!(rt; refused.tell(&mut failing).is_err());
    assert!(rt; failing.held().is_empty());
    Ok(())
}
