//! How a call of the program ends: an exit status and a line on errors for each cause.
ghost use Rattle.std.specs.Prelude.{◌≡◌};
ghost use Rattle.outside_io.specs.Saying.{Says, Writes};
ghost use Rattle.biostack_top.specs.Ending.{exit_of, error_line, refusal_text};

use decl_text::Refusal;
use itoa::Buffer;
use outside_io::{Failed, Pen, Sink};

/// The line for words that ask for nothing that the program does.
const USAGE: &[u8] =
    b"biostack: usage: run [--seed N | --workers N] [--trace] | check | layout | gen N [--text] | replay | scrub [--seed N]\n";

/// The status that the program ends with.
#[derive(Clone, Copy, PartialEq, Eq)]
pub struct Exit(pub u8);

/// Why a call ended.
#[derive(Clone, Copy, PartialEq, Eq)]
pub enum Ending {
    /// What was asked for was written whole; of a run each write ended well, of a scrub no sector is unlike, and of a
    /// replay no line is bad.
    Done,
    /// What was asked for was written whole; some write that was run did not end well, some sector is unlike, or a line
    /// is bad.
    NotAllWell,
    /// The words ask for nothing that the program does.
    Usage,
    /// The text is refused.
    Refused(Refusal),
    /// The source failed.
    ReadFault,
    /// The sink failed.
    WriteFault,
    /// There was no memory for the words, for reading, for the text of a number, for the fragments of a layout, for the opening or for a
    /// replay; or, of a run by threads that was made then, for its trace.
    Memory,
}

impl Ending {
    /// The status of this ending.
    pub fn exit(self) -> Exit
        ensures { result.0 ≡ exit_of self }
    {
        Exit(match self {
            Ending::Done => 0,
            Ending::NotAllWell => 1,
            Ending::Usage => 2,
            Ending::Refused(_) => 3,
            Ending::ReadFault => 4,
            Ending::WriteFault => 5,
            Ending::Memory => 6,
        })
    }

    /// Writes the line of this ending to errors, in one call where they take it whole, and nothing where nothing went wrong.
    ///
    /// # Errors
    ///
    /// `Failed` only where their count of faults rose. They took a front of the line then.
    pub fn tell<E: Sink>(self, errors: &mut E) -> Result<(), Failed>
        ensures { Writes E.Sink errors.old errors.new result (error_line self) }
    {
        let mut pen = Pen::new();
        self.say(&mut pen, errors);
        pen.finish(errors)
    }

    // The line of this ending.
    fn say<E: Sink>(self, pen: &mut Pen, errors: &mut E)
        ensures { Says E.Sink errors.old pen.old errors.new pen.new (error_line self) }
    {
        match self {
            Ending::Done | Ending::NotAllWell => {}
            Ending::Usage => pen.put(errors, &[USAGE]),
            Ending::Refused(refusal) => tell_refusal(pen, errors, refusal, refusal.name()),
            Ending::ReadFault => pen.put(errors, &[b"biostack: read fault\n"]),
            Ending::WriteFault => pen.put(errors, &[b"biostack: write fault\n"]),
            Ending::Memory => pen.put(errors, &[b"biostack: want of memory\n"]),
        }
    }
}

// `biostack: line L: NUMBER NAME`
fn tell_refusal<E: Sink>(pen: &mut Pen, errors: &mut E, refusal: Refusal, name: &[u8])
    ensures { Says E.Sink errors.old pen.old errors.new pen.new (refusal_text refusal name.now) }
{
    let mut line_digits = Buffer::new();
    let line = line_digits.format(refusal.line).as_bytes();
    let mut number_digits = Buffer::new();
    let number = number_digits.format(refusal.number).as_bytes();
    pen.put(
        errors,
        &[b"biostack: line ", line, b": ", number, b" ", name, b"\n"],
    );
}
