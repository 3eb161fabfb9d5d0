//! What the program is asked to do.

/// What the program is asked to do, mostly with the text that it reads.
#[derive(Clone, Copy, Debug, PartialEq, Eq)]
pub enum Order {
    /// Run its writes to their end, by the schedule of this number, and report. With a trace each event has a line.
    Run { number: u64, trace: bool },
    /// The same in so many threads, from 1 to 16.
    Workers { n: u32, trace: bool },
    /// Tell its devices, and what its writes need.
    Check,
    /// Tell where its writes go.
    Layout,
    /// Make the text of this number, and run it, or show it.
    Gen { number: u64, text: bool },
    /// Read a trace, and tell whether it is a run of its text.
    Replay,
    /// Run its writes as `Run` does, and compare the members of its mirrors.
    Scrub { number: u64 },
}
