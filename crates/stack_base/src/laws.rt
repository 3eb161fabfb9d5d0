//! What holds of the definitions, as functions that do nothing.
ghost use Rattle.stack_base.specs.Cutting.{HeadsAreHeads, HeadsStay, PiecesAreCuts};
ghost use Rattle.stack_base.specs.Declaration.{DeclaredIsStack};
ghost use Rattle.stack_base.specs.Even.{EvenZonesAreStripes, StripesGoBySmallest};
ghost use Rattle.stack_base.specs.Fault.{FaultsAreDecided};
ghost use Rattle.stack_base.specs.PoolId.{NumbersAreApart};

/// A rest that is submitted again is cut where the whole run is, at each kind. So a device that takes the first piece off and hands
/// the rest back to itself cuts as one that cuts the run at once (`submit_bio_noacct` of a split bio's rest, `block/blk-core.c`).
pub fn heads_stay()
    ensures { HeadsStay }
{}

/// The head of a sector is a sector of the run, at or before it, and is its own head. So the heads of a run are the first sectors of
/// its pieces, one each.
pub fn heads_are_heads()
    ensures { HeadsAreHeads }
{}

/// At each kind that cuts, the sectors from one on up to the next end are one piece, which lies in one member without a gap, and
/// the sectors behind it are cut as a run that begins there. So a run can be cut piece by piece (`bio_split`, `block/bio.c`).
pub fn pieces_are_cuts()
    ensures { PiecesAreCuts }
{}

/// What a stripe does goes by how many members it has and by the smallest of them, so a driver needs no other sizes.
pub fn stripes_go_by_smallest()
    ensures { StripesGoBySmallest }
{}

/// Over members of one size a zoned device is a stripe: it has one zone (`create_strip_zones`, `drivers/md/raid0.c`).
pub fn even_zones_are_stripes()
    ensures { EvenZonesAreStripes }
{}

/// No two pools of a stack have the same number, and none has one above 65.
pub fn numbers_are_apart()
    ensures { NumbersAreApart }
{}

/// What a declaration is checked for, device by device, makes a stack that keeps the sizes of its devices: that no device is too large, and
/// that little can begin at one sector of it, follows from each device being a member at most once and from the sum of all disks.
pub fn declared_is_stack()
    ensures { DeclaredIsStack }
{}

/// A run touches a bad range where they share a sector, so one of no sectors touches none. A run on a disk that touches no bad range ends
/// well. Any other ends as the bad range says that decides it: of those that the run touches the one that starts first, and where more than
/// one starts there, the one that is declared first. No two decide.
pub fn faults_are_decided()
    ensures { FaultsAreDecided }
{}
