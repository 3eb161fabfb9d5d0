//! A book as a thing.
ghost use Rattle.std.specs.Prelude.{◌≡◌};
ghost use Rattle.task_steps.specs.declared.objects.Unmade.TheVariants as unmade;
ghost use Rattle.bio_books.specs.Views.{bio_of, drop_outcome_of, linked_of, IsAlonePart};
ghost use Rattle.task_core.specs.ObjectsOf.{IsBookOf};
ghost use Rattle.run_machine.specs.Requests.{Link as LinkOf, Drop as DropOf};
ghost use Rattle.task_steps.specs.Stage.{RequestFits, Owes};
ghost use Rattle.task_steps.specs.Views.{opening_of, unmade_part, IsAskAlone};
ghost use Rattle.object_things.specs.declared.book.BookAsk.TheVariants as ask;
ghost use Rattle.object_things.specs.Stamps.{PassByReply, stage_in};
ghost use Rattle.object_things.specs.Books.{BookReplies, BookSays, IsTicketOfDrop, IsTicketOfLink, book_replied};

use crate::stamp::{Asked, Asking, Mark, Replied, Stamp, Told};
use bio_books::{Book, Dropped, Link};
use bio_records::BioElement;
use seat_lock::Thing;
use stack_base::Status;
use std::marker::Model;
use task_core::link_in;
use task_steps::{Ask, Unmade};
use tick_clock::{Note, Pass};

/// What is asked of a book, with the number of its writer.
pub enum BookAsk {
    /// A node is opened.
    Link {
        writer: u32,
        ask: Ask,
    },
    /// The node at a place is told of an end.
    Drop {
        writer: u32,
        node: u32,
        status: Status,
        part: Option<BioElement>,
    },
}

/// What a book says.
#[derive(Drop)]
pub enum BookSaid {
    /// The place of the new node, or what was to go into it, with the reason.
    Linked(Result<Link, Unmade>),
    /// What became of the node, or what was handed over, where there was no ticket.
    Dropped(Result<Dropped, Unmade>),
}

/// What the machine sees of a book with its note. No value of it is ever made.
pub struct BookData {
    book: Book,
}

impl Model for BookData {
    ghost use Rattle.std.specs.Prelude.{false};
    ghost use Rattle.bio_books.specs.Books.{BookState};
    ghost use Rattle.object_things.specs.Stamps.{ThingState};

    ghost Value = { ThingState BookState };

    ghost view = { λ k. record { object = k.book; note = 0; spent = false } };
}

/// A book with its note.
pub struct BookThing {
    book: Book,
    stamp: Stamp,
}

// A drop by hand is proved here, once. A derived one every crate above would prove anew that drops a thing, or hands one to what may.
impl Drop for BookThing {
    fn drop(self) {
        let BookThing { book, stamp } = self;
        drop(book);
        drop(stamp);
    }
}

impl Model for BookThing {
    ghost use Rattle.object_things.specs.Stamps.{Stamped};
    ghost use Rattle.bio_books.specs.Books.{BookState};
    ghost use Rattle.task_core.specs.ObjectsOf.{IsBookOf};
    ghost use Rattle.object_things.specs.Stamps.{stage_in};

    ghost Value = { Stamped BookState };

    ghost view = { λ t. record { object = t.book; stamp = t.stamp } };

    ghost invariant = { λ t. IsBookOf (stage_in t.stamp.common) t.book.writer t.book };
}

impl BookThing {
    /// A book with this stamp.
    pub fn new(book: Book, stamp: Stamp) -> BookThing
        requires { IsBookOf (stage_in stamp.common) book.writer book }
        ensures { result ≡ record { object = book; stamp = stamp } }
    {
        BookThing { book, stamp }
    }

    /// A book and its note.
    pub fn parts(self) -> (Book, Note)
        ensures { (result.0 ≡ self.object) × (result.1 ≡ self.stamp.note) }
    {
        let BookThing { book, stamp } = self;
        (book, stamp.into_note())
    }
}

impl Thing for BookThing {
    ghost use Rattle.run_machine.specs.Laws.{OfBook};
    ghost use Rattle.object_things.specs.Stamps.{thing_state};
    ghost use Rattle.object_things.specs.Books.{BookAnswers, BookFits, BookOwes, book_asked, book_mark, book_told};

    type Request = Asking<BookAsk>;

    type Reply = Replied<BookSaid>;

    type Data = BookData;

    type Asked = Asked;

    type Told = Told;

    type Mark = Mark;

    ghost plain = { λ thing. thing_state thing.object thing.stamp };

    ghost mark = { book_mark };

    ghost asked = { λ asking. book_asked asking.ask };

    ghost told = { book_told };

    ghost fits = { BookFits };

    ghost owes = { BookOwes };

    ghost answers = { BookAnswers };

    #[inline(always)] // a request that is known where it is made then has one arm
    fn serve(&mut self, asking: Asking<BookAsk>) -> Replied<BookSaid> {
        let Asking { pass, ask } = asking;
        match ask {
            BookAsk::Link { writer, ask } => link(
                &mut self.book,
                &mut self.stamp,
                pass,
                writer,
                ask,
            ),
            BookAsk::Drop {
                writer,
                node,
                status,
                part,
            } => drop_one(
                &mut self.book,
                &mut self.stamp,
                pass,
                writer,
                node,
                status,
                part,
            ),
        }
    }
}

// Opens a node, with a ticket.
#[inline(always)] // as `serve`
fn link(book: &mut Book, stamp: &mut Stamp, pass: Pass, writer: u32, what: Ask) -> Replied<BookSaid>
    requires clock { pass.clock ≡ stamp.old.common.clock }
    requires own { writer ≡ book.old.writer }
    requires alone { IsAskAlone what }
    requires fits { RequestFits (stage_in stamp.old.common) (LinkOf writer (opening_of what)) }
    requires of { IsBookOf (stage_in stamp.old.common) book.old.writer book.old }
    ensures answers { BookReplies book.old stamp.old (LinkOf writer (opening_of what)) result book.new stamp.new }
    ensures pass { PassByReply book_replied pass result }
    ensures owed { Owes (stage_in stamp.old.common) (LinkOf writer (opening_of what)) (book_replied result.said) }
    ensures says { BookSays (ask.Link writer what) result.said }
    ensures same { (stamp.new.common ≡ stamp.old.common) × (book.new.writer ≡ book.old.writer) }
    ensures of { IsBookOf (stage_in stamp.old.common) book.old.writer book.new }
{
    let (turn, drawn) = stamp.turn(pass);
    let Some(number) = drawn else {
        return turn.reply(None, BookSaid::Linked(Err(Unmade::Ask(what))));
    };
    let linked = link_in(book, what);
    let ticket = link_ticket(&linked, number);
    turn.reply(ticket, BookSaid::Linked(Ok(linked)))
}

// The ticket that the entry of a link carries: none where the link was refused.
#[inline(always)] // as `serve`
fn link_ticket(linked: &Link, number: u64) -> Option<u64>
    ensures { IsTicketOfLink (linked_of linked.now) number result }
{
    match linked {
        Link::Made(_) => Some(number),
        Link::NoRoom(_) | Link::Stray(_) => None,
    }
}

// Tells a node of an end, with a ticket.
#[inline(always)] // as `serve`
fn drop_one(
    book: &mut Book,
    stamp: &mut Stamp,
    pass: Pass,
    writer: u32,
    node: u32,
    status: Status,
    part: Option<BioElement>,
) -> Replied<BookSaid>
    requires clock { pass.clock ≡ stamp.old.common.clock }
    requires own { writer ≡ book.old.writer }
    requires alone { IsAlonePart part }
    requires fits { RequestFits (stage_in stamp.old.common) (DropOf writer node status (bio_of part)) }
    requires of { IsBookOf (stage_in stamp.old.common) book.old.writer book.old }
    ensures answers { BookReplies book.old stamp.old (DropOf writer node status (bio_of part)) result book.new stamp.new }
    ensures pass { PassByReply book_replied pass result }
    ensures owed { Owes (stage_in stamp.old.common) (DropOf writer node status (bio_of part)) (book_replied result.said) }
    ensures says { BookSays (ask.Drop writer node status part) result.said }
    ensures same { (stamp.new.common ≡ stamp.old.common) × (book.new.writer ≡ book.old.writer) }
    ensures of { IsBookOf (stage_in stamp.old.common) book.old.writer book.new }
{
    let (turn, drawn) = stamp.turn(pass);
    let Some(number) = drawn else {
        return turn.reply(None, BookSaid::Dropped(Err(unmade_part(part))));
    };
    let dropped = book.drop_one(node, status, part);
    let ticket = drop_ticket(&dropped, number);
    turn.reply(ticket, BookSaid::Dropped(Ok(dropped)))
}

// The ticket that the entry of a drop carries: none where the drop was refused.
#[inline(always)] // as `serve`
fn drop_ticket(dropped: &Dropped, number: u64) -> Option<u64>
    ensures { IsTicketOfDrop (drop_outcome_of dropped.now) number result }
{
    match dropped {
        Dropped::Left | Dropped::Up(_) | Dropped::Top(_) => Some(number),
        Dropped::Stray(_) => None,
    }
}

// What comes back of a part.
fn unmade_part(part: Option<BioElement>) -> Unmade
    ensures { result ≡ unmade_part part }
{
    match part {
        None => Unmade::Nothing,
        Some(el) => Unmade::Bio(el),
    }
}
