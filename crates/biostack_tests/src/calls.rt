//! Calls of the program without threads, and what they answer.
ghost use Rattle.std.specs.Prelude.{◌≡◌};
ghost use Rattle.biostack_top.specs.Orders.{is_alone};

use crate::asks::Case;
use crate::texts::{MIRRORED, ONE_SECTOR, ONE_SECTOR_TRACE, ZEROS};
use biostack_top::{Ending, Exit, Order, serve_alone};
use biostack_words::{WordFault, read_words};
use outside_io::{Failed, MemSink, MemSource, Sink, Source};
use std::process::Abort;

/// More than any report or line here has.
pub const ROOM: usize = 4096;

pub const USAGE: &str =
    "biostack: usage: run [--seed N | --workers N] [--trace] | check | layout | gen N [--text] | replay | scrub [--seed N]\n";

/// Bytes of their own.
pub fn owned(rt: &(impl Abort + AllocGlobal), bytes: &[u8]) -> Vec<u8> {
    Vec::from_slice(rt.alloc(), bytes).expect(rt, "no bytes")
}

// Appends a word.
fn push(rt: &(impl Abort + AllocGlobal), words: &mut Vec<String>, word: &str) {
    let word = String::from_str(rt.alloc(), word).expect(rt, "no word");
    words.push(word).expect(rt, "no words");
}

/// The words of a command line.
pub fn words_of(rt: &(impl Abort + AllocGlobal), words: &[&str]) -> Vec<String> {
    let mut all = Vec::new(rt.alloc());
    for word in words {
        push(rt, &mut all, word);
    }
    all
}

/// What a call has done.
#[derive(Drop)]
pub struct Done {
    pub status: u8,
    pub output: MemSink,
    pub errors: MemSink,
    /// How many bytes of the text were not read, of 1,000 at most.
    pub left: Result<usize, Failed>,
}

/// A sink with room for so many bytes.
pub fn sink(rt: &(impl Abort + AllocGlobal), room: usize) -> MemSink {
    MemSink::new(rt.alloc(), room).expect(rt, "no sink")
}

// Whether an order needs no threads.
fn is_alone(order: Order) -> bool
    ensures { result ≡ is_alone order }
{
    match order {
        Order::Run { .. }
        | Order::Check
        | Order::Layout
        | Order::Gen { .. }
        | Order::Replay
        | Order::Scrub { .. } => { true }
        Order::Workers { .. } => false,
    }
}

// Tells an ending, as a call does.
fn ends<E: Sink>(ending: Ending, errors: &mut E) -> Exit {
    let _told = ending.tell(errors);
    ending.exit()
}

// Carries words out as the program does. A run by workers is none of them: what the words ask of it here is refused.
fn carry_out<S: Source, K: Sink, E: Sink>(
    rt: &impl AllocGlobal,
    words: &[String],
    source: &mut S,
    out: &mut K,
    errors: &mut E,
) -> Exit {
    match read_words(rt.alloc(), words) {
        Ok(order) => {
            if is_alone(order) {
                serve_alone(rt.alloc(), &order, source, out, errors)
            } else {
                ends(Ending::Usage, errors)
            }
        }
        Err(WordFault::Refused) => ends(Ending::Usage, errors),
        Err(WordFault::Memory) => ends(Ending::Memory, errors),
    }
}

/// Makes a call, with room for so many bytes of output.
pub fn make_call(
    rt: &(impl Abort + AllocGlobal),
    words: &[&str],
    text: &[u8],
    room: usize,
) -> Done {
    let words = words_of(rt, words);
    let mut source = MemSource::new(owned(rt, text));
    let mut output = sink(rt, room);
    let mut errors = sink(rt, ROOM);
    let exit = carry_out(rt, &words, &mut source, &mut output, &mut errors);
    let left = source.take(&mut [0; 1000]);
    Done {
        status: exit.0,
        output,
        errors,
        left,
    }
}

/// Whether bytes are these parts, one after the other.
pub fn is_made_of(bytes: &[u8], parts: &[&str]) -> bool {
    let mut left = bytes;
    for part in parts {
        match left.strip_prefix(part.as_bytes()) {
            Some(rest) => left = rest,
            None => return false,
        }
    }
    left.is_empty()
}

/// Whether a call answers this status, writes these parts and tells this line to errors.
pub fn answers(
    rt: &(impl Abort + AllocGlobal),
    words: &[&str],
    text: &[u8],
    status: u8,
    output: &[&str],
    errors: &str,
) -> bool {
    let done = make_call(rt, words, text, ROOM);
    let is_written = is_made_of(done.output.held(), output);
    let is_told = done.errors.held() == errors.as_bytes();
    done.status == status && is_written && is_told
}

/// A call, and what it answers.
pub enum Call {
    /// A text that is run to its end, the first lines of its report, and the last ones.
    Run(&'static str, &'static str, &'static str),
    /// A text whose one write fails, with what, and the last lines of its report.
    Failed(&'static str, &'static str, &'static str),
    /// A text that is run to its end, the status, and its report.
    Ended(&'static str, u8, &'static str),
    /// The words that run the smallest text with a trace.
    Traced(&'static [&'static str]),
    /// How many bytes of the mirrored text are run, the status, its report, and the line on errors.
    Cut(usize, u8, &'static str, &'static str),
    /// A text, its devices, and what its writes need.
    Check(&'static str, &'static str),
    /// A text, and where its writes go.
    Layout(&'static str, &'static str),
    /// A text that each word refuses, and the line on errors.
    Refused(&'static str, &'static str),
    /// Words that ask for nothing that the program does.
    Usage(&'static [&'static str]),
}

// Whether each word refuses a text with this line.
fn is_refused(rt: &(impl Abort + AllocGlobal), text: &str, line: &str) -> bool {
    let text = text.as_bytes();
    answers(rt, &["run"], text, 3, &[], line)
        && answers(rt, &["check"], text, 3, &[], line)
        && answers(rt, &["layout"], text, 3, &[], line)
}

impl Case for Call {
    fn holds(&self, rt: &(impl Abort + AllocGlobal)) -> bool {
        match *self {
            Call::Run(text, first, last) => {
                answers(rt, &["run"], text.as_bytes(), 0, &[first, last], "")
            }
            Call::Failed(text, status, last) => {
                let report = ["write 0 ", status, "\n", ZEROS, last];
                answers(rt, &["run"], text.as_bytes(), 1, &report, "")
            }
            Call::Ended(text, status, report) => {
                answers(rt, &["run"], text.as_bytes(), status, &[report], "")
            }
            Call::Traced(words) => {
                let text = ONE_SECTOR.as_bytes();
                answers(rt, words, text, 0, &[ONE_SECTOR_TRACE], "")
            }
            Call::Cut(count, status, report, line) => match MIRRORED.as_bytes().get(..count) {
                Some(text) => answers(rt, &["run"], text, status, &[report], line),
                None => false,
            },
            Call::Check(text, output) => {
                answers(rt, &["check"], text.as_bytes(), 0, &[output], "")
            }
            Call::Layout(text, output) => {
                answers(rt, &["layout"], text.as_bytes(), 0, &[output], "")
            }
            Call::Refused(text, line) => is_refused(rt, text, line),
            Call::Usage(words) => answers(rt, words, ONE_SECTOR.as_bytes(), 2, &[], USAGE),
        }
    }
}
