//! What holds of the definitions, as functions that do nothing.
ghost use Rattle.bio_books.specs.Endings.{OneLegIsEnough, TheFirstFailureIsKept};

/// A master ends well exactly where one of its legs did, in whatever order they end (`raid1_end_write_request`, `drivers/md/raid1.c`).
pub fn one_leg_is_enough()
    ensures { OneLegIsEnough }
{}

/// Any other node ends as the first of its ends that failed, or well where none did (`__bio_chain_endio`, `block/bio.c`).
pub fn the_first_failure_is_kept()
    ensures { TheFirstFailureIsKept }
{}
