//! Laws of plain states.
ghost use Rattle.plain_core.specs.opening.Readable.{AcceptedTextsCanOpen};

/// The plain state of every text of which no line is refused can be opened.
pub fn accepted_texts_can_open()
    ensures { AcceptedTextsCanOpen }
{}
