//! What holds of the definitions, as functions that do nothing.
ghost use Rattle.bio_split.specs.Split.{PartsAreTheWhole};

/// The front and the rest of a bio that is split are all of it: the sectors of the front and then those of the rest are the sectors that it
/// had, each at its sector of the device, with its data and its place in the write's segments. Each part has a sector, and both are of the
/// same write, by the same writer, and at the same device (`bio_split`, `block/bio.c`).
pub fn parts_are_the_whole()
    ensures { PartsAreTheWhole }
{}
