//! Texts of numbers, as another program makes them.
use decl_text::{ReadFault, read_decl};
use stack_check::accept;
use std::alloc::{AllocGlobal, Global};
use std::process::Abort;
use work_text::{generate, read_work};

/// The disks of each text.
const DISKS: &str = "disk d0 32768\ndisk d1 32768\ndisk d2 32768\ndisk d3 32768\n";

/// A number; its text behind the disks, as far as the second write; its last line; its lines and its bytes.
type Row = (u64, &'static str, &'static str, usize, usize);

const ROWS: &[Row] = &[
    (
        0,
        "limit l0 max=252 d0\nlimit l1 max=39 d1\nlimit l2 max=161 d2\nlimit l3 max=211 d3\nstripe s0 chunk=224 l0 l1\nstripe s1 chunk=48 l2 l3\nmirror m s0 s1\nwrite 0 m 0 143 0\nwrite 1 m 143 15 9152\n",
        "\nwrite 1 m 64674 491 4139136\n",
        269,
        7247,
    ),
    (
        1,
        "limit l0 max=200 d0\nlimit l1 max=52 d1\nlimit l2 max=206 d2\nlimit l3 max=132 d3\nstripe s0 chunk=224 l0 l1\nstripe s1 chunk=72 l2 l3\nmirror m s0 s1\nmemory none\nwrite 0 m 0 313 0\nwrite 1 m 313 449 20032\n",
        "\nwrite 0 m 64947 228 4156608\n",
        273,
        7327,
    ),
    (
        7,
        "limit l0 max=207 d0\nlimit l1 max=35 d1\nlimit l2 max=148 d2\nlimit l3 max=169 d3\nstripe s0 chunk=232 l0 l1\nstripe s1 chunk=112 l2 l3\nmirror m s0 s1\nmemory none\nwrite 0 m 0 37 0\nwrite 1 m 37 289 2368\n",
        "\nwrite 3 m 64986 302 4159104\n",
        248,
        6667,
    ),
    (
        18446744073709551615,
        "limit l0 max=150 d0\nlimit l1 max=58 d1\nlimit l2 max=142 d2\nlimit l3 max=146 d3\nstripe s0 chunk=88 l0 l1\nstripe s1 chunk=8 l2 l3\nmirror m s0 s1\nmemory none\nwrite 0 m 0 318 0\nwrite 1 m 318 238 20352\n",
        "\nwrite 2 m 65131 33 4168384\n",
        263,
        7066,
    ),
];

// Something has to be so of the text of a number.
fn holds(rt: &impl Abort, is_so: bool, number: u64) {
    assert!(rt; is_so, "the text of {number}");
}

// The text of a number.
fn text_of(rt: &(impl Abort + AllocGlobal), number: u64) -> Vec<u8> {
    generate(rt.alloc(), number).expect(rt, "no text")
}

// How many lines a text has.
fn lines_of(text: &[u8]) -> usize {
    let mut lines: usize = 0;
    for byte in text {
        if *byte == b'\n' {
            lines = lines.saturating_add(1);
        }
    }
    lines
}

// Whether a text is that of its number, as far as the row tells.
fn is_told(text: &[u8], (_, front, last, lines, bytes): Row) -> bool {
    let has_front = match text.strip_prefix(DISKS.as_bytes()) {
        Some(rest) => rest.starts_with(front.as_bytes()),
        None => false,
    };
    has_front && text.ends_with(last.as_bytes()) && lines_of(text) == lines && text.len() == bytes
}

#[test]
fn texts_are_as_another_program_makes_them(rt: HostRuntime) {
    for row in ROWS {
        let text = text_of(&rt, row.0);
        holds(&rt, is_told(&text, *row), row.0);
    }
}

const NUMBERS: [u64; 11] = [
    0,
    1,
    2,
    3,
    4,
    5,
    6,
    7,
    4294967296,
    9223372036854775808,
    18446744073709551615,
];

fn read(alloc: Global, text: &[u8]) -> Result<(), ReadFault> {
    let decl = read_decl(alloc, text)?;
    let accepted = accept(alloc, decl)?;
    let _work = read_work(alloc, text, &accepted)?;
    Ok(())
}

#[test]
fn generated_texts_are_accepted(rt: HostRuntime) {
    for number in NUMBERS {
        let text = text_of(&rt, number);
        holds(&rt, read(rt.alloc(), &text).is_ok(), number);
    }
}
