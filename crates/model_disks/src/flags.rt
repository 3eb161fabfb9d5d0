//! Whether each sector of a disk is written, up to the last one that ever was.
ghost use Rattle.std.specs.Prelude.{◌≡◌, ◌+◌, ◌<◌, ◌≤◌, ℕ, false, true, length, vec_capacity, MatchOption};
ghost use Rattle.model_disks.specs.Kept.{grown, marked};
ghost use Rattle.model_disks.specs.Runs.{flag, EndsInWord, IsApart, IsFirst, IsNextRun};

use stack_base::Range;

/// Brings the flags up to so many sectors, for which there is room. None of those that are new is written.
pub fn grow(flags: &mut Vec<bool>, count: usize)
    requires { count ≤ vec_capacity flags.old }
    ensures flags { flags.new.items ≡ grown false count flags.old.items }
    ensures room { vec_capacity flags.old ≤ vec_capacity flags.new }
{
    if flags.len() >= count {
        return;
    }
    let Ok(()) = flags.resize(count, false) else {
        unreachable!()
    };
}

// The sectors of a range, which have flags, are written.
fn set(flags: &mut [bool], range: Range)
    requires { range.start + range.len ≤ length flags.old }
    ensures { flags.new ≡ marked range flags.old }
{
    let start = range.start as usize;
    let end = start + range.len as usize;
    flags[start..end].fill(true);
}

/// The sectors of a range, for whose flags there is room, are written. The flags grow up to their end.
pub fn note(flags: &mut Vec<bool>, range: Range)
    requires { range.start + range.len ≤ vec_capacity flags.old }
    ensures flags { flags.new.items ≡ marked range (grown false (range.start + range.len) flags.old.items) }
    ensures room { vec_capacity flags.old ≤ vec_capacity flags.new }
{
    grow(flags, range.start as usize + range.len as usize);
    set(flags, range);
}

// The first place at or behind `from` that is written, or that is not, or the number of flags where there is none.
fn first_place(flags: &[bool], from: usize, written: bool) -> usize
    requires { from ≤ length flags.now }
    ensures { IsFirst flags.now from written result }
{
    'looking: for place in from..flags.len() {
        if flags[place] == written {
            return place;
        }
    }
    flags.len()
}

// A place with no written sector between `from` and it. It passes over 64 sectors at a time, of which none is written.
fn behind_unwritten(flags: &[bool], from: usize) -> usize
    requires { from ≤ length flags.now }
    ensures behind { from ≤ result }
    ensures within { result ≤ length flags.now }
    ensures none { (x : ℕ) → from ≤ x → x < result → flag flags.now x ≡ false }
{
    let mut place = from;
    'passing: while 64 <= flags.len() - place {
        if flags[place..place + 64].contains(&true) {
            return place;
        }
        place += 64;
    }
    place
}

/// The first place at or behind `from` that is written, or the number of flags where there is none.
pub fn first_written(flags: &[bool], from: usize) -> usize
    requires { from ≤ length flags.now }
    ensures { IsFirst flags.now from true result }
{
    first_place(flags, behind_unwritten(flags, from), true)
}

/// The first run of written sectors that starts at or behind `from`, which is not inside a run.
pub fn next_run(flags: &[bool], from: u64) -> Option<Range>
    requires { IsApart flags.now from }
    ensures runs { IsNextRun flags.now from result }
    ensures place { MatchOption result (Unit {0}) (EndsInWord from (length flags.now)) }
    ensures apart { MatchOption result (Unit {0}) (λ run. IsApart flags.now (run.start + run.len)) }
{
    if from >= flags.len() as u64 {
        return None;
    }
    let start = first_written(flags, from as usize);
    if start == flags.len() {
        return None;
    }
    let end = first_place(flags, start, false);
    Some(Range {
        start: start as u64,
        len: (end - start) as u64,
    })
}
