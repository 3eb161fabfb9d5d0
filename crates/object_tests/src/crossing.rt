//! What may go to another thread.
use crate::elements::Note;
use bio_books::Book;
use bio_records::{BioBody, BioElement, BioList, Pad, RescueList, TaskLists, Vector};
use elem_ledger::{Element, Ledger};
use mempool_core::Pool;
use model_disks::Disk;

// Nothing but that a value of this type may go to another thread.
fn crosses<X: Send>() {}

#[test]
fn objects_may_cross_threads(_rt: HostRuntime) {
    crosses::<Element<Note>>();
    crosses::<Ledger>();
    crosses::<Pool<Note>>();
    crosses::<Pool<BioBody<Pad>>>();
    crosses::<Pool<Vector>>();
    crosses::<BioElement>();
    crosses::<BioList>();
    crosses::<RescueList>();
    crosses::<TaskLists>();
    crosses::<Book>();
    crosses::<Disk>();
}
