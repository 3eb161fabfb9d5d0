//! What holds of lines and events, as functions that do nothing.
ghost use Rattle.trace_text.specs.Names.{AcceptedStacksAreNamed};
ghost use Rattle.trace_text.specs.Laws.{EventsAreApart, LinesAreReadBack, LinesAreText};

/// The devices of a stack that the declarations of a text mean have names, and no two have the same.
pub fn accepted_stacks_are_named()
    ensures { AcceptedStacksAreNamed }
{
    decl_text::laws::accepted_stacks_are_fit();
}

/// Two events of a stack never have one line.
pub fn events_are_apart()
    ensures { EventsAreApart }
{}

/// What is read of the line that is written of an event is that event.
pub fn lines_are_read_back()
    ensures { LinesAreReadBack }
{}

/// A line of an event has visible characters of ASCII and blanks, and so no byte that ends a line.
pub fn lines_are_text()
    ensures { LinesAreText }
{}
