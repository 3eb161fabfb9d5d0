//! What holds of the definitions, as functions that do nothing.
ghost use Rattle.model_disks.specs.Moves.{BiosWriteTheirSectors};
ghost use Rattle.model_disks.specs.Runs.{WrittenRunsAreMaximal};

/// A bio that ends within the image writes its own sectors, each with its data, and no other.
pub fn bios_write_their_sectors()
    ensures { BiosWriteTheirSectors }
{}

/// The written runs of an image are its maximal runs of sectors that are not all zeros: each of them once, by rising start.
pub fn written_runs_are_maximal()
    ensures { WrittenRunsAreMaximal }
{}
