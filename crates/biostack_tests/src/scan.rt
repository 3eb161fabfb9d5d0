//! The fast layout against a slow one, which goes by the definition: for every choice of members, sector by sector.
ghost use Rattle.stack_base.specs.Stack.{IsStack};
ghost use Rattle.layout_model.specs.Writes.{IsWrite};

use crate::asks::{Case, all_hold};
use crate::scenes::{is_write, scene_of};
use crate::slow::{fits, walk};
use layout_model::{Fragment, Write, fragments, need};
use stack_base::{DevId, Stack};
use std::process::Abort;

/// Every choice at up to three mirrors of up to two members.
const CHOICES: &[&[u32]] = &[
    &[],
    &[0],
    &[1],
    &[0, 0],
    &[0, 1],
    &[1, 0],
    &[1, 1],
    &[0, 0, 0],
    &[0, 0, 1],
    &[0, 1, 0],
    &[0, 1, 1],
    &[1, 0, 0],
    &[1, 0, 1],
    &[1, 1, 0],
    &[1, 1, 1],
];

/// A small stack, which is written to at its last device.
struct Shape(&'static str);

/// Stacks of every shape.
const SHAPES: &[Shape] = &[
    Shape("disk a 9\n"),
    Shape("disk a 3\ndisk b 1\ndisk c 7\nlinear n b a c\n"),
    Shape("disk a 7\ndisk b 6\ndisk c 8\nstripe s chunk=3 a b c\n"),
    Shape("disk a 20\nlimit l max=3 chunk=8 a\n"),
    Shape("disk a 20\nlimit l max=5 chunk=3 a\n"),
    Shape("disk a 14\nlimit l max=3 a\n"),
    Shape("disk a 5\ndisk b 7\nmirror m a b\n"),
    Shape("disk a 6\ndisk b 6\ndisk c 4\nstripe s chunk=2 a b\nlinear n c s\n"),
    Shape("disk a 9\ndisk b 8\nlimit l max=2 a\nstripe s chunk=4 b l\n"),
    Shape("disk a 5\ndisk b 9\nlinear n a b\nlimit l max=4 chunk=6 n\n"),
    Shape("disk a 6\ndisk b 7\ndisk c 14\nstripe s chunk=3 a b\nlimit l max=5 c\nmirror m s l\n"),
    Shape("disk a 4\ndisk b 4\ndisk c 6\nmirror m a b\nlinear n c m\n"),
    Shape(
        "disk a 6\ndisk b 6\ndisk c 6\ndisk d 6\nmirror left a b\nmirror right c d\nstripe s chunk=2 left right\n",
    ),
    Shape(
        "disk a 7\ndisk b 7\ndisk c 7\nmirror inner a b\nlimit l max=3 inner\nmirror outer l c\n",
    ),
];

/// The fragments of a write, from all choices: a new one begins wherever the heads are other ones than at the sector before.
fn scanned(
    rt: &(impl Abort + AllocGlobal),
    stack: &Stack,
    number: u32,
    write: &Write,
) -> Vec<Fragment>
    requires stack { IsStack stack.now }
    requires write { IsWrite stack.now write.now }
{
    let mut found = Vec::new(rt.alloc());
    for choices in CHOICES {
        scan(rt, stack, number, write, *choices, &mut found);
    }
    let sorted = found.sort_by_key(|fragment| (fragment.offset, fragment.disk.0));
    sorted.expect(rt, "no order");
    found
}

/// Appends the fragments that these choices lead to.
fn scan(
    rt: &(impl Abort + AllocGlobal),
    stack: &Stack,
    number: u32,
    write: &Write,
    choices: &[u32],
    found: &mut Vec<Fragment>,
)
    requires stack { IsStack stack.now }
    requires write { IsWrite stack.now write.now }
{
    let mut before = Vec::new(rt.alloc());
    for offset in 0..write.count {
        let sector = write.start + offset;
        let mut heads = Vec::new(rt.alloc());
        if fits(stack, write.dev, sector, choices) {
            let place = walk(stack, write.dev, write.start, sector, choices, &mut heads);
            let (disk, at) = place.expect(rt, "no heads");
            if heads == before {
                lengthen(found);
            } else {
                let fragment = Fragment {
                    write: number,
                    offset,
                    len: 1,
                    disk,
                    at,
                };
                found.push(fragment).expect(rt, "no fragments");
            }
        }
        before = heads;
    }
}

/// The last fragment gets a sector more.
fn lengthen(found: &mut [Fragment]) {
    if let Some(last) = found.last_mut() {
        last.len = last.len.saturating_add(1);
    }
}

// Whether a write has the fragments that a slow scan finds, and is said to have as many.
fn is_as_scanned(rt: &(impl Abort + AllocGlobal), stack: &Stack, write: &Write) -> bool
    requires stack { IsStack stack.now }
    requires write { IsWrite stack.now write.now }
{
    let slow = scanned(rt, stack, 3, write);
    let fast = fragments(rt.alloc(), stack, 3, write).expect(rt, "no fragments");
    fast == slow && need(stack, write).fragments == slow.len() as u64
}

// Whether each write to a device is laid out as a slow scan finds.
fn are_as_scanned(rt: &(impl Abort + AllocGlobal), stack: &Stack, dev: DevId, size: u64) -> bool
    requires { IsStack stack.now }
{
    for start in 0..size {
        for count in 1..=size - start {
            let write = Write {
                task: 0,
                dev,
                start,
                count,
                tag: 0,
            };
            if !is_write(stack, &write) || !is_as_scanned(rt, stack, &write) {
                return false;
            }
        }
    }
    true
}

impl Case for Shape {
    fn holds(&self, rt: &(impl Abort + AllocGlobal)) -> bool {
        let scene = scene_of(rt, self.0);
        let stack = &scene.accepted.stack;
        let Some(last) = (stack.devices.len() as u32).checked_sub(1) else {
            return false;
        };
        are_as_scanned(rt, stack, DevId(last), stack.size(DevId(last)))
    }
}

#[test]
fn small_stacks_of_every_shape_are_laid_out_as_defined(rt: HostRuntime) {
    all_hold(&rt, SHAPES);
}
