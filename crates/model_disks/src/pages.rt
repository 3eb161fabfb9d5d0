//! The words of a disk, by pages that stand in the order of their first writes.
ghost use Rattle.std.specs.Prelude.{◌≡◌, ◌+◌, ◌*◌, ◌<◌, ◌≤◌, length, vec_capacity, IfOk};
ghost use Rattle.std.specs.List.{range_with_len};
ghost use Rattle.stack_base.specs.Words.{zero_sector};
ghost use Rattle.model_disks.specs.Kept.{grown};
ghost use Rattle.model_disks.specs.Paged.{AreSwapped, put_behind, put_words};

use crate::append::append_sectors;
use bio_records::Bio;
use image_lanes::fill;
use stack_base::Range;
use std::alloc::{AllocError, Global};

// The sectors of a page, and its words.
const SECTORS: u64 = 16;

const WORDS: usize = 1024;

/// The words of a disk, by pages of 16 sectors.
///
/// A page that was never written has a slot too, behind those that have words: its words are zeros, of which those that are not written are set
/// where it is first written. Then it changes places with the page in the first slot that has no words.
///
/// The pages stand in the order of their first writes, within room that is reserved when a disk is opened: memory is not handed out as
/// zeros, and what is lent through a `&` must be set. So only pages that are written are set: a write to the end of the largest disk sets
/// 8 KiB of words, and the flags up to there (256 KiB). An opening sets the two tables, 8 bytes a page (128 KiB). All words in the order
/// of their sectors want a `&mut`: the other pages are set then, and each page is swapped into its place.
///
/// Each page has a slot, also one without words: so the tables are inverse to each other at any time, and one move (`exchange`: the pages
/// in two slots change places) serves a first write and the putting in order alike.
#[derive(Drop)]
pub struct Pages {
    // The words of the pages that were written, in the order of their first writes. There is room for those of all pages.
    words: Vec<u64>,
    // The slot of each page.
    slots: Vec<u32>,
    // The page in each slot.
    owners: Vec<u32>,
}

// A sector in which nothing was written.
fn zeros<'a>() -> &'a [u64]
    ensures { result.now ≡ zero_sector }
{
    &[0; 64]
}

// The words of two slots, of which `low` is the first, change places.
fn swap(words: &mut [u64], low: usize, high: usize)
    requires order { low < high }
    requires within { 1024 * high + 1024 ≤ length words.old }
    ensures { AreSwapped low high words.old words.new }
{
    let (front, behind) = words.split_at_mut(WORDS * high);
    let (_before, front) = front.split_at_mut(WORDS * low);
    let (one, _between) = front.split_at_mut(WORDS);
    let (other, _after) = behind.split_at_mut(WORDS);
    one.swap_with_slice(other);
}

// Words that count up from the first one, in the place of those that were there.
fn put_words(words: &mut [u64], from: usize, count: usize, first: u64)
    requires { from + count ≤ length words.old }
    ensures { words.new ≡ put_words from count first words.old }
{
    fill(&mut words[from..from + count], first);
}

// Brings the words up to so many, for which there is room, with zeros.
fn grow(words: &mut Vec<u64>, size: usize)
    requires { size ≤ vec_capacity words.old }
    ensures words { words.new.items ≡ grown 0 size words.old.items }
    ensures room { vec_capacity words.old ≤ vec_capacity words.new }
{
    if words.len() >= size {
        return;
    }
    let Ok(()) = words.resize(size, 0) else {
        unreachable!()
    };
}

// Writes so many sectors from one of a slot on, which has no words yet, but stands right behind those that have. Zeros are set only before and
// behind them.
fn put_behind(words: &mut Vec<u64>, slot: usize, start: usize, sectors: usize, first: u64)
    requires behind { length words.old.items ≤ 1024 * slot }
    requires short { start + sectors ≤ 16 }
    requires room { 1024 * (slot + 1) ≤ vec_capacity words.old }
    ensures words { words.new.items ≡ put_behind slot start sectors first words.old.items }
    ensures room { vec_capacity words.old ≤ vec_capacity words.new }
{
    grow(words, WORDS * slot + 64 * start);
    append_sectors(words, sectors, first);
    grow(words, WORDS * (slot + 1));
}

// Numbers from 0 on.
fn in_turn(alloc: Global, count: u32) -> Result<Vec<u32>, AllocError>
    ensures { IfOk result (λ numbers. numbers.items ≡ range_with_len 0 count) }
{
    let mut numbers = Vec::with_capacity(alloc, count as usize)?;
    'numbering: for number in 0..count {
        numbers.push_reserved(number);
    }
    Ok(numbers)
}

impl Pages {
    ghost use Rattle.std.specs.Prelude.{◌≡◌, ◌+◌, ◌*◌, ◌/◌, ◌%◌, ◌<◌, ◌≤◌, [], length, vec_capacity, IfOk};
    ghost use Rattle.std.specs.List.{concat};
    ghost use Rattle.stack_base.specs.Words.{zero_sector};
    ghost use Rattle.model_disks.specs.Disks.{HasSectorsFrom};
    ghost use Rattle.model_disks.specs.Paged.{AreInverse, AreInOrder, IsExchanged, IsFilled, ArePagesKept, StaysSame, in_pages, number_at, sector_in_pages};

    // The pages in two slots change places.
    fn exchange(&mut self, one: usize, other: usize)
        requires inverse { AreInverse self.old.slots.items self.old.owners.items }
        requires one { one < length self.old.slots.items }
        requires other { other < length self.old.slots.items }
        ensures inverse { AreInverse self.new.slots.items self.new.owners.items }
        ensures slots { IsExchanged one other self.old.slots.items self.new.slots.items }
        ensures words { self.new.words ≡ self.old.words }
    {
        let page = self.owners[one];
        let behind = self.owners[other];
        let low = self.slots[page as usize];
        let high = self.slots[behind as usize];
        self.slots[page as usize] = high;
        self.slots[behind as usize] = low;
        self.owners[one] = behind;
        self.owners[other] = page;
    }

    // The page comes into the slot of its own number. All slots have words, and the pages before it are settled.
    fn settle(&mut self, page: usize)
        requires paged { ArePagesKept self.old }
        requires full { length self.old.words.items ≡ 1024 * length self.old.slots.items }
        requires page { page < length self.old.slots.items }
        requires settled { AreInOrder self.old.slots.items page }
        ensures paged { ArePagesKept self.new }
        ensures full { length self.new.words.items ≡ 1024 * length self.new.slots.items }
        ensures settled { AreInOrder self.new.slots.items (page + 1) }
        ensures same { StaysSame self.old self.new }
    {
        let slot = self.slots[page] as usize;
        if slot > page {
            swap(&mut self.words, page, slot);
            self.exchange(page, slot);
        }
    }

    /// Brings the pages into their order, all of them with words.
    pub fn settle_all(&mut self)
        requires paged { ArePagesKept self.old }
        ensures paged { ArePagesKept self.new }
        ensures full { length self.new.words.items ≡ 1024 * length self.new.slots.items }
        ensures settled { AreInOrder self.new.slots.items (length self.new.slots.items) }
        ensures same { StaysSame self.old self.new }
    {
        let count = self.slots.len();
        grow(&mut self.words, WORDS * count);
        'settling: for page in 0..count {
            self.settle(page);
        }
    }

    // Writes the sectors of a range within a page that has no words yet. The page comes into the first slot without words.
    fn write_new(&mut self, range: Range, first: u64)
        requires paged { ArePagesKept self.old }
        requires page { range.start % 16 + range.len ≤ 16 }
        requires within { range.start < 16 * length self.old.slots.items }
        requires behind { length self.old.words.items ≤ 1024 * number_at self.old.slots.items (range.start / 16) }
        ensures paged { ArePagesKept self.new }
        ensures filled { IsFilled range.start range.len first self.old self.new }
    {
        let used = self.words.len() / WORDS;
        let slot = self.slots[(range.start / SECTORS) as usize] as usize;
        self.exchange(slot, used);
        let start = (range.start % SECTORS) as usize;
        put_behind(&mut self.words, used, start, range.len as usize, first);
    }

    // Writes the sectors of a range that ends within the page in which it begins.
    fn write_page(&mut self, range: Range, first: u64)
        requires paged { ArePagesKept self.old }
        requires page { range.start % 16 + range.len ≤ 16 }
        requires within { range.start < 16 * length self.old.slots.items }
        ensures paged { ArePagesKept self.new }
        ensures filled { IsFilled range.start range.len first self.old self.new }
    {
        let used = self.words.len() / WORDS;
        let slot = self.slots[(range.start / SECTORS) as usize] as usize;
        if slot >= used {
            self.write_new(range, first);
            return;
        }
        let from = WORDS * slot + 64 * (range.start % SECTORS) as usize;
        put_words(&mut self.words, from, 64 * range.len as usize, first);
    }

    /// Writes a bio's sectors, which are among those of the pages.
    pub fn write(&mut self, bio: Bio)
        requires paged { ArePagesKept self.old }
        requires within { bio.range.start + bio.range.len ≤ 16 * length self.old.slots.items }
        ensures paged { ArePagesKept self.new }
        ensures filled { IsFilled bio.range.start bio.range.len bio.word self.old self.new }
    {
        let mut done = 0;
        'writing: while done < bio.range.len {
            let start = bio.range.start + done;
            let len = (SECTORS - start % SECTORS).min(bio.range.len - done);
            self.write_page(Range { start, len }, bio.word.wrapping_add(64 * done));
            done += len;
        }
    }

    /// The words of the sectors from this one on up to the end of its page, so many sectors at most, or none where the page has no words.
    pub fn rest(&self, at: u64, most: u64) -> &[u64]
        requires paged { ArePagesKept self.now }
        requires here { at < 16 * length self.now.slots.items }
        requires some { 1 ≤ most }
        ensures sectors { HasSectorsFrom (sector_in_pages self.now) at result.now }
        ensures whole { length result.now % 64 ≡ 0 }
        ensures short { length result.now ≤ 64 * most }
        ensures zeros { length result.now ≡ 0 → sector_in_pages self.now at ≡ zero_sector }
    {
        let slot = self.slots[(at / SECTORS) as usize] as usize;
        if slot >= self.words.len() / WORDS {
            return &[];
        }
        let start = WORDS * slot + 64 * (at % SECTORS) as usize;
        let len = 64 * (SECTORS - at % SECTORS).min(most) as usize;
        &self.words[start..start + len]
    }

    /// The pages of so many sectors, all zeros. It takes the room for all of them, and touches none of it.
    ///
    /// # Errors
    ///
    /// Where there is no memory for it.
    pub fn zeros(alloc: Global, sectors: u64) -> Result<Pages, AllocError>
        ensures paged { IfOk result ArePagesKept }
        ensures all { IfOk result (λ pages. sectors ≤ 16 * length pages.slots.items) }
        ensures none { IfOk result (λ pages. pages.words.items ≡ []) }
    {
        let Ok(count) = u32::try_from(sectors.div_ceil(SECTORS)) else {
            return Err(AllocError);
        };
        Ok(Pages {
            words: Vec::with_capacity(alloc, WORDS * count as usize)?,
            slots: in_turn(alloc, count)?,
            owners: in_turn(alloc, count)?,
        })
    }

    /// The words of one sector.
    pub fn sector(&self, at: u64) -> &[u64]
        requires paged { ArePagesKept self.now }
        requires here { at < 16 * length self.now.slots.items }
        ensures { result.now ≡ sector_in_pages self.now at }
    {
        let words = self.rest(at, 1);
        if words.is_empty() {
            return zeros();
        }
        words
    }

    /// The words of the first sectors, one sector behind the other, where the pages stand in their order.
    pub fn words(&self, count: u64) -> &[u64]
        requires full { length self.now.words.items ≡ 1024 * length self.now.slots.items }
        requires settled { AreInOrder self.now.slots.items (length self.now.slots.items) }
        requires all { count ≤ 16 * length self.now.slots.items }
        ensures { result.now ≡ concat (in_pages count self.now) }
    {
        &self.words[..64 * count as usize]
    }
}
