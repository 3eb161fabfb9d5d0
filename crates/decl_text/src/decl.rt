//! The declarations of a text.
ghost use Rattle.std.specs.Prelude.{◌≡◌, ◌+◌, ◌-◌, ◌^◌, ◌<◌, ◌≤◌, true, IfErr, IfOk, length};
ghost use Rattle.decl_text.specs.declared.reason.ReadFault.TheVariants.{Memory};
ghost use Rattle.decl_text.specs.Steps.{IsReadSoFar, IsSoFar, passed, read_of};
ghost use Rattle.decl_text.specs.Read.{AreDeclarations};
ghost use Rattle.decl_text.specs.Reading.{AreOfLines, ReadsDecl};

use crate::line::{LineFault, is_blank_line};
use crate::text::Lines;
use crate::{Item, ReadFault, Reason, Refusal, Stand, TextLine};
use std::alloc::{AllocError, Global};
use std::marker::Model;

/// What a line says, and the number of the line, counted from 1.
#[derive(Drop)]
pub struct Numbered<'a> {
    pub line: u64,
    pub item: Item<'a>,
}

/// The declarations of a text as they were read, and not yet checked against each other.
#[derive(Drop)]
pub struct Decl<'a> {
    parts: DeclParts<'a>,
}

/// The parts of a [`Decl`].
#[derive(Drop)]
pub struct DeclParts<'a> {
    /// What the lines say, up to the first that is wrong by itself.
    pub items: Vec<Numbered<'a>>,
    /// Why that line is wrong, where there is one.
    pub fault: Option<Refusal>,
    /// The byte at which the reading stopped: the first one of that line or of the first write or `sync` line, or the text's length.
    pub rest: u64,
    /// One more than the number of lines before it.
    pub line: u64,
}

impl<'a> Model for Decl<'a> {
    ghost use Rattle.decl_text.specs.Read.{AreDeclarations, Read};
    ghost use Rattle.decl_text.specs.Reading.{AreOfLines};

    ghost Value = { Read };

    ghost view = { λ decl. record { items = decl.parts.items.items; fault = decl.parts.fault; rest = decl.parts.rest; line = decl.parts.line } };

    ghost invariant = { λ decl. AreDeclarations decl.parts.items.items × ∥ AreOfLines decl.parts.items.items decl.parts.fault ∥₁ };
}

impl<'a> Decl<'a> {
    /// What it holds.
    pub fn parts(self) -> DeclParts<'a>
        ensures declarations { AreDeclarations result.items.items }
        ensures lines { ∥ AreOfLines result.items.items result.fault ∥₁ }
        ensures parts { self.entry ≡ read_of result }
    {
        self.parts
    }
}

// The most bytes that a text may have.
const MOST_BYTES: usize = 4_194_304;

/// Reads the declarations of a text: its lines before the first write or `sync` line.
///
/// # Errors
///
/// Where the text has more than 4,194,304 bytes, or where there is no memory. A line that is wrong is no error here: it is kept, and
/// the lines behind it are not read.
pub fn read_decl<'a>(alloc: Global, text: &'a [u8]) -> Result<Decl<'a>, ReadFault>
    ensures { ReadsDecl text.now result }
{
    if text.len() > MOST_BYTES {
        return Err(ReadFault::Refused(Reason::TooLong.at(0)));
    }
    let mut lines = Lines::from(text, 0);
    let mut parts = DeclParts {
        items: Vec::new(alloc),
        fault: None,
        rest: 0,
        line: 1,
    };
    while parts.read_line(alloc, &mut lines)? {}
    Ok(Decl { parts })
}

impl<'a> DeclParts<'a> {
    // Reads the next line, and answers whether more declarations may follow.
    fn read_line(&mut self, alloc: Global, lines: &mut Lines<'a>) -> Result<bool, ReadFault>
        requires so_far { IsSoFar lines.old.text (read_of self.old) }
        requires place { lines.old.place ≡ self.old.rest }
        requires few { length lines.old.text ≤ 4194304 }
        ensures text { lines.new.text ≡ lines.old.text }
        ensures goes { IfOk result (λ more. IsReadSoFar more lines.old.text (read_of self.new)) }
        ensures place { IfOk result (λ more. more ≡ true → lines.new.place ≡ self.new.rest) }
        ensures on { IfOk result (λ more. more ≡ true → lines.old.place < lines.new.place) }
        ensures within { lines.new.place ≤ length lines.old.text }
        ensures refused { IfErr result (λ fault. fault ≡ Memory) }
    {
        let Some(bytes) = lines.next() else {
            return Ok(false);
        };
        if is_blank_line(bytes) {
            self.pass(None, lines.place())?;
            return Ok(true);
        }
        let line = TextLine::of(alloc, bytes)?;
        if line.begins_work() {
            return Ok(false);
        }
        match line.said(alloc, Stand::Front) {
            Ok(item) => self.pass(item, lines.place())?,
            Err(LineFault::Wrong(reason)) => {
                self.fault = Some(reason.at(self.line));
                return Ok(false);
            }
            Err(LineFault::Memory) => return Err(ReadFault::Memory),
        }
        Ok(true)
    }

    // Keeps what a line says, behind which the next one begins at this place.
    fn pass(&mut self, item: Option<Item<'a>>, place: usize) -> Result<(), AllocError>
        requires { self.old.line < 2 ^ 64 - 1 }
        ensures { IfOk result (λ _. read_of self.new ≡ passed (read_of self.old) item.entry place) }
    {
        if let Some(item) = item {
            let line = self.line;
            self.items.push(Numbered { line, item })?;
        }
        self.line += 1;
        self.rest = place as u64;
        Ok(())
    }
}
