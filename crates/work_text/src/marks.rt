//! Which sectors of a device have a write of the present round.
ghost use Rattle.std.specs.Prelude.{◌≡◌, ◌+◌, ◌/◌, ◌==◌, ◌<◌, ◌≤◌, [], IfOk, length, replicate, slice_index_or};
ghost use Rattle.std.specs.List.{list_any, range_with_len};
ghost use Rattle.stack_base.specs.Stack.{IsStack};
ghost use Rattle.work_text.specs.Marks.{AreBlankFor, AreMarks, IsMarked, IsRow, IsSetAt, mark_in};

use crate::mark_page::{PAGE, Page};
use crate::names::is_member;
use stack_base::{DevId, Stack};
use std::alloc::{AllocError, Global};
use std::marker::Model;

/// No mark, for each device of a stack.
pub(crate) fn no_marks(alloc: Global, stack: &Stack) -> Result<Vec<Marks>, AllocError>
    requires { IsStack stack.now }
    ensures { IfOk result (λ marks. AreMarks stack.now 1 [] marks.items) }
{
    let mut all = Vec::new(alloc);
    for place in 0..stack.devices.len() {
        all.push(no_mark_of(alloc, stack, DevId(place as u32))?)?;
    }
    Ok(all)
}

// No mark, at each sector of a device. A member has no sector that is written to, and no mark at all.
fn no_mark_of(alloc: Global, stack: &Stack, dev: DevId) -> Result<Marks, AllocError>
    requires stack { IsStack stack.now }
    requires known { dev.0 < length stack.now.devices.items }
    ensures { IfOk result (λ row. IsRow stack.now 1 [] dev.0 row) }
{
    let sectors = if is_member(stack, dev) {
        0
    } else {
        stack.size(dev)
    };
    Marks::none(alloc, sectors)
}

/// A mark for each sector of a device: a number for each round, and 0 where there is no mark. So a write is compared with its own sectors alone. They
/// are kept by pages, of which most stay empty where a disk is large: a page takes time only once a mark is set in it, so a large disk costs
/// what is written to it. Room for all marks is taken when the text is opened.
#[derive(Drop)]
pub(crate) struct Marks {
    count: u64,
    pages: Vec<Page>,
}

impl Model for Marks {
    ghost use Rattle.std.specs.Prelude.{List, ℕ};
    ghost use Rattle.work_text.specs.Marks.{ArePages, marks_in};

    ghost Value = { List ℕ };

    ghost view = { λ marks. marks_in marks.count marks.pages.items };

    ghost invariant = { λ marks. ArePages marks.count marks.pages.items };
}

// Empty pages for so many sectors.
fn empty_pages(alloc: Global, sectors: u64) -> Result<Vec<Page>, AllocError>
    ensures { IfOk result (λ pages. AreBlankFor sectors pages.items) }
{
    let mut pages = Vec::new(alloc);
    for _ in 0..sectors.div_ceil(PAGE) {
        pages.push(Page::empty(alloc)?)?;
    }
    Ok(pages)
}

// The mark of a sector.
fn mark_in(pages: &[Page], at: u64) -> u32
    ensures { result ≡ mark_in pages.now at }
{
    match pages.get((at / PAGE) as usize) {
        Some(page) => page.at(at % PAGE),
        None => 0,
    }
}

// Sets the mark of a sector.
fn set_in(pages: &mut Vec<Page>, at: u64, mark: u32)
    requires { at / 4096 < length pages.old.items }
    ensures long { length pages.new.items ≡ length pages.old.items }
    ensures set { IsSetAt at mark (mark_in pages.old.items) (mark_in pages.new.items) }
{
    pages[(at / PAGE) as usize].set(at % PAGE, mark);
}

impl Marks {
    /// No mark, at so many sectors.
    pub(crate) fn none(alloc: Global, sectors: u64) -> Result<Marks, AllocError>
        ensures { IfOk result (λ marks. marks ≡ replicate sectors 0) }
    {
        let pages = empty_pages(alloc, sectors)?;
        Ok(Marks {
            count: sectors,
            pages,
        })
    }

    /// Whether one of the `count` sectors from `start` on has this mark.
    pub(crate) fn any(&self, mark: u32, start: u64, count: u64) -> bool
        requires { start + count ≤ length self.now }
        ensures { result ≡ list_any (λ at. slice_index_or self.now at 0 == mark) (range_with_len start count) }
    {
        let pages = &self.pages;
        'looking: for at in start..start + count {
            if mark_in(pages, at) == mark {
                return true;
            }
        }
        false
    }

    /// Sets this mark at the `count` sectors from `start` on.
    pub(crate) fn set(&mut self, mark: u32, start: u64, count: u64)
        requires { start + count ≤ length self.old }
        ensures long { length self.new ≡ length self.old }
        ensures marked { IsMarked mark start count self.old self.new }
    {
        let pages = &mut self.pages;
        'setting: for at in start..start + count {
            set_in(pages, at, mark);
        }
    }
}
