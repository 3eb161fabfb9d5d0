//! What holds of the definitions, as functions that do nothing.
ghost use Rattle.work_text.specs.Fit.{WorkIsFit};
ghost use Rattle.work_text.specs.Generated.{NoGeneratedTextIsRefused};
ghost use Rattle.work_text.specs.Whole.{DeclarationsRefuse, RestsDecide, RoundsAreApart};

/// A text whose declarations are refused is refused so, whether all checks are made or the loose ones.
pub fn declarations_refuse()
    ensures { DeclarationsRefuse }
{}

/// A text whose declarations are accepted is refused as the rest of it is, by the stack that they mean. Where they are read loosely, the rest is
/// refused by all checks all the same: none of its lines lacks a rescuer.
pub fn rests_decide()
    ensures { RestsDecide }
{}

/// Writes of one round to one device have no sector in common. Writes of different rounds may.
pub fn rounds_are_apart()
    ensures { RoundsAreApart }
{}

/// The writes of a text of which no line is refused have writers of numbers up to 7 and go to devices that are no members, their rounds do not
/// fall, no two of one round have a sector in common, and each reserve that a `resize` line gives is one of 1 to 1,024 elements.
pub fn work_is_fit()
    ensures { WorkIsFit }
{}

/// The text of no number is refused.
pub fn no_generated_text_is_refused()
    ensures { NoGeneratedTextIsRefused }
{}
