//! Splitting a bio in two, as `bio_split` of Linux 6.1 does (`block/bio.c`). No call takes memory.
#![tactic(auto)]

ghost use Rattle.std.specs.Prelude.{◌≡◌, ◌+◌, ◌-◌, ◌^◌, ◌<◌, ◌≤◌};
ghost use Rattle.bio_records.specs.Items.{item_of, IsAlone};
ghost use Rattle.bio_split.specs.Split.{split_front, split_rest};

pub mod laws;

use bio_records::{Bio, BioElement, Pad, advance, front};
use stack_base::SetId;

/// Splits a bio behind its first `sectors` sectors, of which it has more, and answers their bio, in the element `into`: one of the set
/// `set`, with the node `node` and for no leg of a mirror. The bio itself keeps the sectors behind them. Both are in no list before and
/// after, and the last sector of the bio has a number below 2 ^ 64 - 1.
///
/// The segments that `into` keeps itself stay as they were: all parts of a write share the segments of its writer's bio, and none takes
/// its own (`bio_split`, with `bio_alloc_clone` and `bio_advance`, `block/bio.c`).
pub fn split(
    bio: &mut BioElement,
    sectors: u64,
    mut into: BioElement,
    set: SetId,
    node: u32,
) -> BioElement
    requires some { 0 < sectors }
    requires fewer { sectors < (item_of bio.old).bio.range.len }
    requires within { (item_of bio.old).bio.range.start + (item_of bio.old).bio.range.len ≤ 2 ^ 64 - 1 }
    requires alone { IsAlone bio.old }
    requires into_alone { IsAlone into }
    ensures front { item_of result ≡ split_front (item_of bio.old) (item_of into) sectors set node }
    ensures rest { item_of bio.new ≡ split_rest (item_of bio.old) sectors }
    ensures front_alone { IsAlone result }
    ensures rest_alone { IsAlone bio.new }
{
    into.body.pad = Pad { leg: 0 };
    into.body.bio = Bio {
        set,
        node,
        ..front(&bio.body.bio, sectors)
    };
    advance(&mut bio.body.bio, sectors);
    into
}
