//! Calls of one object.
ghost use Rattle.std.specs.Prelude.{◌≡◌, ◌≤◌};
ghost use Rattle.bio_records.specs.Items.{item_of};
ghost use Rattle.bio_books.specs.Views.{linked_of, IsLinkAlone};
ghost use Rattle.run_machine.specs.Objects.{OpensNode};
ghost use Rattle.task_steps.specs.Views.{opening_of, IsAskAlone};
ghost use Rattle.task_core.specs.Resizing.{HasLegs, ResizesIfHome};

use bio_books::{Book, Link};
use bio_records::BioElement;
use elem_ledger::Fresh;
use mempool_core::Pool;
use stack_base::DevId;
use task_steps::Ask;

/// The device that a bio is at.
pub fn dev_of(el: &BioElement) -> DevId
    ensures { result ≡ (item_of el.now).bio.dev }
{
    el.body.bio.dev
}

/// Opens a node in a book.
#[inline(always)] // its reply is made where it is used
pub fn link_in(book: &mut Book, ask: Ask) -> Link
    requires alone { IsAskAlone ask }
    requires legs { HasLegs (opening_of ask) }
    ensures opened { OpensNode book.old (opening_of ask) (linked_of result) book.new }
    ensures alone { IsLinkAlone result }
{
    match ask {
        Ask::Write { write, vector } => book.open_write(write, vector),
        Ask::Chain { parent } => book.chain(parent),
        Ask::Master {
            parent,
            part,
            slip,
            legs,
        } => book.master(parent, part, slip, legs),
        Ask::Leg { master } => book.leg(master),
    }
}

/// Sets the reserve of a pool, where nothing of it is out. It answers how much is.
pub fn resize_home<P: Fresh + Drop>(pool: &mut Pool<P>, min: u32) -> u64
    requires some { 1 ≤ min }
    requires within { min ≤ pool.old.most }
    ensures { ResizesIfHome pool.old min result pool.new }
{
    let out = pool.facts().out;
    if out == 0 {
        pool.resize(min);
    }
    out
}
