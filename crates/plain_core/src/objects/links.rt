//! What events make of the books: nodes are opened, and told of ends.
//!
//! # Errors
//! Each call answers `NotEnabled` where the event tells something else or the book cannot do it. `open_chain`, `open_master` and `open_leg`
//! alone take memory, for room in the lists: they answer `Memory` where only that lacks. The objects, and the bios in a task's lists, are as
//! they were in both cases. The vector that `open_write` was handed and the part that `tell` was handed do not come back.
ghost use Rattle.std.specs.Prelude.{◌≡◌, OnOk};
ghost use Rattle.run_machine.specs.Requests.{Write, Chain, Leg};
ghost use Rattle.plain_core.specs.objects.Lists.{lists_of, ListsHaveCapacity};
ghost use Rattle.plain_core.specs.objects.Told.{Links, LinksWithRoom, JoinsMaster, IsDrop};

use crate::fault::CoreFault;
use crate::objects::book::NodeOutcome;
use crate::objects::lists::Lists;
use crate::objects::part::{PlainBioElement, Slip, Vector};
use crate::objects::{Objects, told};
use stack_base::Status;
use task_core::{How, What};

impl Objects {
    /// A write's node is opened.
    pub fn open_write(
        &mut self,
        writer: u32,
        write: u32,
        vector: Option<Vector>,
        what: &What,
    ) -> Result<u32, CoreFault>
        ensures { Links self.old writer (Write write vector) what.now result self.new }
    {
        let Some(place) = told::linked_of(what, writer, How::Write) else {
            return Err(CoreFault::NotEnabled);
        };
        let Some(book) = self.books.get_mut(writer as usize) else {
            return Err(CoreFault::NotEnabled);
        };
        if !book.open_write(write, vector, place) {
            return Err(CoreFault::NotEnabled);
        }
        Ok(place)
    }

    /// The node of the front of a bio that is split is opened (`bio_chain`, `block/bio.c`). Where it is, the lists have room for what comes of it.
    pub fn open_chain(
        &mut self,
        writer: u32,
        parent: u32,
        lists: &mut Lists,
        what: &What,
    ) -> Result<u32, CoreFault>
        ensures joins { LinksWithRoom self.old writer (Chain parent) what.now result self.new }
        ensures same { lists_of lists.new ≡ lists_of lists.old }
        ensures room { OnOk result (ListsHaveCapacity 2 lists.new) }
    {
        let Some(place) = told::linked_of(what, writer, How::Chain) else {
            return Err(CoreFault::NotEnabled);
        };
        let Some(book) = self.books.get_mut(writer as usize) else {
            return Err(CoreFault::NotEnabled);
        };
        match book.open_chain(parent, place, lists) {
            Err(fault) => Err(fault),
            Ok(()) => Ok(place),
        }
    }

    /// A mirror's master is opened for a bio (`alloc_r1bio`, `drivers/md/raid1.c`). Where it is, the lists have room for what comes of it.
    pub fn open_master(
        &mut self,
        part: &PlainBioElement,
        slip: &Slip,
        legs: u32,
        lists: &mut Lists,
        what: &What,
    ) -> Result<u32, CoreFault>
        ensures joins { JoinsMaster self.old part.now slip.now legs what.now result self.new }
        ensures same { lists_of lists.new ≡ lists_of lists.old }
        ensures room { OnOk result (ListsHaveCapacity 2 lists.new) }
    {
        let bio = part.bio();
        let Some(place) = told::linked_of(what, bio.writer, How::Master) else {
            return Err(CoreFault::NotEnabled);
        };
        let Some(book) = self.books.get_mut(bio.writer as usize) else {
            return Err(CoreFault::NotEnabled);
        };
        match book.open_master(bio.node, part, slip, legs, place, lists) {
            Err(fault) => Err(fault),
            Ok(()) => Ok(place),
        }
    }

    /// The node of a leg is opened. Where it is, the lists have room for what comes of it.
    ///
    /// # Errors
    /// `NotEnabled` where the event tells something else or the leg can't be opened, and `Memory` where only room in the lists lacks. Nothing is
    /// changed then.
    pub fn open_leg(
        &mut self,
        writer: u32,
        master: u32,
        lists: &mut Lists,
        what: &What,
    ) -> Result<u32, CoreFault>
        ensures joins { LinksWithRoom self.old writer (Leg master) what.now result self.new }
        ensures same { lists_of lists.new ≡ lists_of lists.old }
        ensures room { OnOk result (ListsHaveCapacity 2 lists.new) }
    {
        let Some(place) = told::linked_of(what, writer, How::Leg) else {
            return Err(CoreFault::NotEnabled);
        };
        let Some(book) = self.books.get_mut(writer as usize) else {
            return Err(CoreFault::NotEnabled);
        };
        match book.open_leg(master, place, lists) {
            Err(fault) => Err(fault),
            Ok(()) => Ok(place),
        }
    }

    /// The node at this place is told of an end (`bio_endio`, `block/bio.c`).
    pub fn tell(
        &mut self,
        writer: u32,
        place: u32,
        status: Status,
        part: Option<PlainBioElement>,
        what: &What,
    ) -> Result<NodeOutcome, CoreFault>
        ensures { IsDrop self.old writer place status part what.now result self.new }
    {
        let Some(end) = told::dropped_of(what, writer, place, status) else {
            return Err(CoreFault::NotEnabled);
        };
        match self.books.get_mut(writer as usize) {
            None => Err(CoreFault::NotEnabled),
            Some(book) => match book.tell(place, status, part, end) {
                None => Err(CoreFault::NotEnabled),
                Some(ended) => Ok(ended),
            },
        }
    }
}
