//! A page of marks.
ghost use Rattle.std.specs.Prelude.{◌≡◌, ◌<◌, [], IfOk, slice_index_or};
ghost use Rattle.work_text.specs.Marks.{IsSetAt};

use std::alloc::{AllocError, Global};
use std::marker::Model;

/// How many sectors a page has marks for.
pub(crate) const PAGE: u64 = 4096;

/// The marks of so many sectors that follow one another, or none as long as no mark was set at one of them. Room for them is there from the start, so
/// that setting a mark takes no memory.
#[derive(Drop)]
pub(crate) struct Page {
    marks: Vec<u32>,
}

impl Model for Page {
    ghost use Rattle.std.specs.Prelude.{List, ℕ, vec_capacity, vec_len};
    ghost use Rattle.work_text.specs.Marks.{IsPage};

    ghost Value = { List ℕ };

    ghost view = { λ page. page.marks.items };

    ghost invariant = { λ page. IsPage (vec_capacity page.marks) (vec_len page.marks) };
}

impl Page {
    /// A page without marks.
    pub(crate) fn empty(alloc: Global) -> Result<Page, AllocError>
        ensures { IfOk result (λ page. page ≡ []) }
    {
        let marks = Vec::with_capacity(alloc, PAGE as usize)?;
        Ok(Page { marks })
    }

    /// The mark at this place of the page.
    pub(crate) fn at(&self, place: u64) -> u32
        ensures { result ≡ slice_index_or self.now place 0 }
    {
        self.marks.get(place as usize).copied().unwrap_or(0)
    }

    /// Sets the mark at this place of the page.
    pub(crate) fn set(&mut self, place: u64, mark: u32)
        requires { place < 4096 }
        ensures { IsSetAt place mark (λ at. slice_index_or self.old at 0) (λ at. slice_index_or self.new at 0) }
    {
        if self.marks.is_empty() {
            let Ok(()) = self.marks.resize(PAGE as usize, 0) else {
                unreachable!()
            };
        }
        self.marks[place as usize] = mark;
    }
}
