//! What holds of the order in which bios are served, and of punts.
ghost use Rattle.bio_lists.specs.Submission.{NoneIsLost};
ghost use Rattle.bio_lists.specs.Punt.{NoneIsLostByPunt, OnePuntIsEnough};

/// No bio is lost or doubled by sorting: the order has each one that waited, as often as it waited.
pub fn none_is_lost()
    ensures { NoneIsLost }
{}

/// No bio is lost or doubled by a punt: each one that waited was moved or waits on, as often as it waited.
pub fn none_is_lost_by_punt()
    ensures { NoneIsLostByPunt }
{}

/// No bio of the set waits on: a second punt moves nothing.
pub fn one_punt_is_enough()
    ensures { OnePuntIsEnough }
{}
