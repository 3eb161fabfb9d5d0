//! Where the scenario of a text ends, behind which the lines of events stand.
ghost use Rattle.std.specs.Prelude.{◌^◌, ◌<◌, length};
ghost use Rattle.trace_replay.specs.Parts.{AreTextParts, IsFirstEventAt};

use crate::told::is_told;
use decl_text::Lines;

/// A scenario, and a trace behind it.
#[derive(Clone, Copy)]
pub struct CutText<'a> {
    /// The lines before the first whose first word is `event`.
    pub scenario: &'a [u8],
    /// The lines from that one on.
    pub events: &'a [u8],
    /// The number of the first of these, counted from 1 over all lines of the text.
    pub first: u64,
}

// The place of the first line whose first word is `event`, or the end of the text, and the number of the line there.
fn first_told(text: &[u8]) -> (usize, u64)
    requires { length text.now < 2 ^ 63 }
    ensures { IsFirstEventAt text.now result.0 result.1 }
{
    let mut lines = Lines::from(text, 0);
    let mut place = 0;
    let mut number = 1;
    while let Some(line) = lines.next() {
        if is_told(line) {
            return (place, number);
        }
        place = lines.place();
        number += 1;
    }
    (place, number)
}

/// Cuts a text before the first line whose first word is `event`.
pub fn cut_text(text: &[u8]) -> CutText<'_>
    requires { length text.now < 2 ^ 63 }
    ensures { AreTextParts text.now result.scenario.now result.events.now result.first }
{
    let (place, first) = first_told(text);
    let (scenario, events) = text.split_at(place);
    CutText {
        scenario,
        events,
        first,
    }
}
