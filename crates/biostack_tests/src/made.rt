//! Texts that are too long to be written down.
use std::alloc::AllocError;
use std::process::Abort;

/// A part of a text.
#[derive(Clone, Copy, Debug)]
pub enum Part {
    /// This text.
    Once(&'static str),
    /// This text so many times over.
    Times(u64, &'static str),
    /// So many lines of writes of task 0 to a device, one behind the other, the first of them at `from` and each of `each` sectors.
    Writes {
        dev: &'static str,
        lines: u64,
        from: u64,
        each: u64,
    },
    /// So many lines of writes of tasks 0 to 3 in turn to a device, one behind the other, of these counts in turn. The tag of each is the word
    /// of its device at which it starts.
    Turns {
        dev: &'static str,
        lines: u64,
        counts: &'static [u64],
    },
}

/// Two stripes over limited disks, and a mirror over both.
pub const STORAGE: Part = Part::Once(
    "disk d0 32768\ndisk d1 32768\ndisk d2 32768\ndisk d3 32768\n\
     limit l0 max=256 d0\nlimit l1 max=256 d1\nlimit l2 max=256 d2\nlimit l3 max=256 d3\n\
     stripe s0 chunk=128 l0 l1\nstripe s1 chunk=128 l2 l3\nmirror m s0 s1\n",
);

/// Two hundred writes to that mirror.
pub const STORAGE_WRITES: Part = Part::Turns {
    dev: "m",
    lines: 200,
    counts: &[8, 16, 32, 64, 128, 256, 24, 40, 512, 2048],
};

/// The text of these parts.
pub fn text_of(rt: &(impl Abort + AllocGlobal), parts: &[Part]) -> String {
    let mut text = String::new(rt.alloc());
    for part in parts {
        add(&mut text, *part).expect(rt, "no text");
    }
    text
}

fn add(text: &mut String, part: Part) -> Result<(), AllocError> {
    match part {
        Part::Once(once) => text.push_str(once),
        Part::Times(count, again) => {
            for _ in 0..count {
                text.push_str(again)?;
            }
            Ok(())
        }
        Part::Writes {
            dev,
            lines,
            from,
            each,
        } => add_writes(text, dev, lines, from, each),
        Part::Turns { dev, lines, counts } => add_turns(text, dev, lines, counts),
    }
}

fn add_writes(
    text: &mut String,
    dev: &str,
    lines: u64,
    from: u64,
    each: u64,
) -> Result<(), AllocError> {
    for number in 0..lines {
        let start = number.saturating_mul(each).saturating_add(from);
        writeln!(text, "write 0 {dev} {start} {each} 0")?;
    }
    Ok(())
}

fn add_turns(text: &mut String, dev: &str, lines: u64, counts: &[u64]) -> Result<(), AllocError> {
    let mut start: u64 = 0;
    for (number, count) in (0..lines).zip(counts.iter().cycle()) {
        let (task, tag) = (number % 4, start.wrapping_mul(64));
        writeln!(text, "write {task} {dev} {start} {count} {tag}")?;
        start = start.saturating_add(*count);
    }
    Ok(())
}
