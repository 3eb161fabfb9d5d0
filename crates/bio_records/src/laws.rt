//! What holds of the definitions, as functions that do nothing.
ghost use Rattle.bio_records.specs.Segments.{SegmentsAreTheRun};
ghost use Rattle.bio_records.specs.Runs.{FrontAndRestAreTheRun, PlacesAreNumbers, TwoAdvancesAreOne};

/// The sectors of a write's segments, one segment after the other, are the sectors of the write, with the same data: each sector stands in
/// one segment, and in the order of the write.
pub fn segments_are_the_run()
    ensures { SegmentsAreTheRun }
{}

/// A bio that is split keeps its sectors: those of the front, and then those of the rest, are what it had, each at its sector of the device,
/// with its data and its place in the write's segments (`bio_split`, `block/bio.c`).
pub fn front_and_rest_are_the_run()
    ensures { FrontAndRestAreTheRun }
{}

/// To move a bio on twice is to move it on once, by as many sectors (`bio_advance_iter`, `include/linux/bio.h`).
pub fn two_advances_are_one()
    ensures { TwoAdvancesAreOne }
{}

/// Each number of sectors is the number of its place, at which less than a segment is behind.
pub fn places_are_numbers()
    ensures { PlacesAreNumbers }
{}
