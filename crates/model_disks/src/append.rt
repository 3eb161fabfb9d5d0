//! Words that come behind others.
ghost use Rattle.std.specs.Prelude.{◌≡◌, ◌+◌, ◌*◌, ◌≤◌, ◌++◌, length, vec_capacity};
ghost use Rattle.image_lanes.specs.Lanes.{counting};

use image_lanes::fill;

/// Puts the words of so many sectors, which count up from the first one, behind the others. There is room for them.
///
/// They are made a sector at a time in a place that stays in the processor's cache, so new memory is passed over once, and is not set to zeros first.
pub fn append_sectors(words: &mut Vec<u64>, sectors: usize, first: u64)
    requires { length words.old.items + 64 * sectors ≤ vec_capacity words.old }
    ensures words { words.new.items ≡ words.old.items ++ counting first (64 * sectors) }
    ensures room { vec_capacity words.old ≤ vec_capacity words.new }
{
    let mut sector = [0u64; 64];
    'appending: for place in 0..sectors {
        fill(&mut sector, first.wrapping_add(64 * place as u64));
        let Ok(()) = words.extend_from_slice(&sector) else {
            unreachable!()
        };
    }
}
