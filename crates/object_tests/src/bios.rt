//! Elements, bios and lists of them as a test makes them.
ghost use Rattle.std.specs.Prelude.{◌≡◌};
ghost use Rattle.std.specs.Iterator.{IsFinite};
ghost use Rattle.bio_records.specs.Items.{item_of, IsAlone};

use bio_records::{Bio, BioBody, BioElement, BioList, Bios, Iter, Pad};
use bioset_pools::fill_bio;
use fail_script::Script;
use mempool_core::{Element, Fresh, Pool, Taken};
use stack_base::{DevId, Range, SetId};
use std::process::Abort;

/// A pool of bios, of which each take may have ordinary memory.
pub fn open_bios(rt: &(impl Abort + AllocGlobal)) -> Pool<BioBody<Pad>> {
    let script = Script::new(Vec::new(rt.alloc()), true);
    Pool::open(rt.alloc(), 65, 1, script).expect(rt, "no pool")
}

/// An element of a pool of this number, as it is when it is taken.
pub fn one<P: Fresh + Drop>(rt: &(impl Abort + AllocGlobal), no: u32) -> Element<P>
    ensures { P.is_clear result.body.value }
{
    let script = Script::new(Vec::new(rt.alloc()), true);
    let opened = Pool::open(rt.alloc(), no, 1, script);
    match opened.expect(rt, "no pool").take() {
        Taken::Ordinary(element) | Taken::Spare(element) => element,
        Taken::Miss { .. } => rt.panic("no element"),
    }
}

/// The bio of a write of this number, to this run of device 0, whose data begin with this word.
pub fn bio_of(write: u32, range: Range, word: u64) -> Bio
    ensures { result.range ≡ range }
{
    Bio {
        write,
        writer: 0,
        node: 0,
        dev: DevId(0),
        range,
        word,
        at: Iter {
            segment: 0,
            done: 0,
        },
        set: SetId::Fs,
    }
}

/// The bio of a write of this number to the first sector of device 0.
pub fn bio_of_write(write: u32) -> Bio {
    bio_of(write, Range { start: 0, len: 1 }, 0)
}

/// An element that holds this bio.
pub fn element_of(rt: &(impl Abort + AllocGlobal), bio: Bio) -> BioElement
    ensures bio { (item_of result).bio ≡ bio }
    ensures alone { IsAlone result }
{
    let mut element = one(rt, 65);
    fill_bio(&mut element, bio, Pad { leg: 0 });
    element
}

/// The list of the bios of writes of these numbers.
pub fn list_of(rt: &(impl Abort + AllocGlobal), writes: &[u32]) -> BioList {
    let mut list = BioList::new();
    for write in writes {
        list.push(element_of(rt, bio_of_write(*write)));
    }
    list
}

/// The number of the write whose bio a pop had.
pub fn write_of(popped: Option<BioElement>) -> Option<u32> {
    match popped {
        Some(element) => Some(element.body.bio.write),
        None => None,
    }
}

/// Whether a list has the bios of these writes, in this order.
pub fn has(list: BioList, writes: &[u32]) -> bool {
    let mut left = list;
    let are_its = pops(&mut left, writes);
    are_its && left.is_empty()
}

// Whether the next bios of a list are those of these writes.
fn pops(list: &mut BioList, writes: &[u32]) -> bool {
    for write in writes {
        if write_of(list.pop()) != Some(*write) {
            return false;
        }
    }
    true
}

/// Whether the two walks over a list show the bios of these writes: the first one in order, and the second one with the last one first.
pub fn shows<'a, I: Iterator<Item = &'a BioBody<Pad>> + Drop>(
    walks: (I, Bios<'_>),
    writes: &[u32],
) -> bool
    requires can { I.can_next walks.0 }
    requires ends { IsFinite (I.remaining walks.0) }
{
    let (front, back) = walks;
    let mut left = writes;
    for body in front {
        match left.split_first() {
            Some((first, others)) if *first == body.bio.write => left = others,
            _ => return false,
        }
    }
    for body in back {
        match left.split_last() {
            Some((last, others)) if *last == body.bio.write => left = others,
            _ => return false,
        }
    }
    left.is_empty()
}
