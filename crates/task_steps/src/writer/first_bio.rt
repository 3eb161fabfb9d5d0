//! The bio of a write, its segments, and the vector that has them where they are many (`bio_alloc_bioset`, `block/bio.c`).
ghost use Rattle.std.specs.Prelude.{◌≡◌, ◌≤◌, false};
ghost use Rattle.stack_base.specs.declared.ids.SetId.TheVariants.{Fs};
ghost use Rattle.bio_records.specs.Items.{item_of, IsAlone};
ghost use Rattle.stack_base.specs.Segments.{segment_count};
ghost use Rattle.bio_records.specs.Segments.{segments_of};
ghost use Rattle.run_machine.specs.Tasks.{needs_vector, first_bio, filled, filled_short, filled_vector};
ghost use Rattle.task_steps.specs.Views.{vec_item};

use crate::todo::Todo;
use arrayvec::ArrayVec;
use bio_records::{Bio, BioElement, Iter, Pad, Segment, VecElement, fill, segments};
use bioset_pools::fill_bio;
use layout_model::Write;
use stack_base::{Range, SetId};

// How many sectors the segments have that a bio keeps itself: four (`BIO_INLINE_VECS`, `block/bio.c`) of eight each.
const INLINE: u64 = 32;

/// Whether a write has more segments than its bio keeps itself.
pub fn needs_vector(write: &Write) -> bool
    ensures { result ≡ needs_vector write.now }
{
    write.count > INLINE
}

// Fills in the segments of a write.
fn fill_segments<const N: usize>(into: &mut ArrayVec<Segment, N>, write: &Write)
    requires some { 1 ≤ write.now.count }
    requires few { write.now.count ≤ 2048 }
    requires room { segment_count write.now.count ≤ N }
    ensures { into.new.items ≡ segments_of write.now.tag write.now.count }
{
    into.clear();
    'making: for _ in 0..segments(write.count) {
        into.push(Segment::default());
    }
    fill(write.tag, write.count, into.as_mut_slice());
}

/// The bio of a write of this writer, at its device, with the node at this place: all of its sectors, from its first word on.
pub fn first_bio(number: u32, todo: &Todo, node: u32) -> Bio
    ensures { result ≡ first_bio number todo.now node }
{
    let write = &todo.write;
    Bio {
        write: todo.number,
        writer: number,
        node,
        dev: write.dev,
        range: Range {
            start: write.start,
            len: write.count,
        },
        word: write.tag,
        at: Iter {
            segment: 0,
            done: 0,
        },
        set: SetId::Fs,
    }
}

// A bio that was taken, as the bio of a write with a vector.
pub(crate) fn filled(number: u32, todo: &Todo, node: u32, mut bio: BioElement) -> BioElement
    requires { IsAlone bio }
    ensures filled { item_of result ≡ filled number todo.now node (item_of bio) }
    ensures alone { IsAlone result }
{
    fill_bio(&mut bio, first_bio(number, todo, node), Pad { leg: 0 });
    bio
}

// The same for a write whose segments the bio keeps itself.
pub(crate) fn filled_short(number: u32, todo: &Todo, node: u32, mut bio: BioElement) -> BioElement
    requires alone { IsAlone bio }
    requires some { 1 ≤ todo.now.write.count }
    requires few { todo.now.write.count ≤ 2048 }
    requires short { needs_vector todo.now.write ≡ false }
    ensures filled { item_of result ≡ filled_short number todo.now node (item_of bio) }
    ensures alone { IsAlone result }
{
    fill_segments(&mut bio.body.short, &todo.write);
    filled(number, todo, node, bio)
}

// A vector that was taken, with the segments of a write.
pub(crate) fn filled_vector(todo: &Todo, mut vector: VecElement) -> VecElement
    requires some { 1 ≤ todo.now.write.count }
    requires few { todo.now.write.count ≤ 2048 }
    ensures { vec_item result ≡ filled_vector todo.now (vec_item vector) }
{
    fill_segments(&mut vector.body.segments, &todo.write);
    vector
}
