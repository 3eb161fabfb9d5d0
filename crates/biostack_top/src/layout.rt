//! Makes the fragments of all writes.
ghost use Rattle.std.specs.Prelude.{◌^◌, ◌≤◌, length, IfOk, OnOk};
ghost use Rattle.stack_base.specs.Stack.{IsStack};
ghost use Rattle.layout_model.specs.Writes.{AreWritesOf, IsWrite};
ghost use Rattle.report_text.specs.LayoutText.{AreOnDevices};
ghost use Rattle.biostack_top.specs.LayoutText.{AddsFragmentsOf, AreLaid};

use layout_model::{Fragment, Write, fragments};
use stack_base::Stack;
use std::alloc::{AllocError, Global};

// Appends the fragments of a write.
fn add_fragments(
    alloc: Global,
    stack: &Stack,
    number: u32,
    write: &Write,
    all: &mut Vec<Fragment>,
) -> Result<(), AllocError>
    requires stack { IsStack stack.now }
    requires write { IsWrite stack.now write.now }
    ensures { OnOk result (AddsFragmentsOf stack.now number write.now all.old.items all.new.items) }
{
    let own = fragments(alloc, stack, number, write)?;
    all.extend_from_slice(&own)
}

/// The fragments of all writes, those of each write by offset and then by disk, one write after the other. Writes are numbered from 0.
///
/// # Errors
///
/// Where there is no memory for them.
pub(crate) fn layout_lines(
    alloc: Global,
    stack: &Stack,
    writes: &[Write],
) -> Result<Vec<Fragment>, AllocError>
    requires stack { IsStack stack.now }
    requires served { AreWritesOf stack.now writes.now }
    requires few { length writes.now ≤ 2 ^ 32 }
    ensures laid { IfOk result (λ all. AreLaid stack.now 0 writes.now all.items) }
    ensures known { IfOk result (λ all. AreOnDevices stack.now all.items) }
{
    let mut all = Vec::new(alloc);
    'laying: for (number, write) in writes.iter().enumerate() {
        add_fragments(alloc, stack, number as u32, write, &mut all)?;
    }
    Ok(all)
}
