//! The numbers that lines give to nodes. Which place of its book a new node gets is free, so the lines of a test number nodes in their own way.
use task_core::{End, Event, What};

/// The numbers that the open nodes of two writers have in the lines of a test, by their places.
#[derive(Clone, Copy)]
pub struct Nodes {
    numbers: [[Option<u32>; 16]; 2],
}

impl Nodes {
    /// No node is open.
    pub fn new() -> Nodes {
        Nodes {
            numbers: [[None; 16]; 2],
        }
    }

    // The number of the node at a place, if one is open there.
    fn number(&self, writer: u32, place: u32) -> Option<u32> {
        *self.numbers.get(writer as usize)?.get(place as usize)?
    }

    // From now on, the node at a place has this number, or none is open there.
    fn set(&mut self, writer: u32, place: u32, number: Option<u32>) {
        if let Some(book) = self.numbers.get_mut(writer as usize) {
            if let Some(slot) = book.get_mut(place as usize) {
                *slot = number;
            }
        }
    }

    // The number of a node that is opened at a place, as the wanted event has it. A place where a node is open gets no other one.
    fn opened(&mut self, writer: u32, place: u32, wanted: &Event) -> Option<u32> {
        let What::Link { node, .. } = wanted.what else {
            return None;
        };
        if self.number(writer, place).is_some() {
            return None;
        }
        self.set(writer, place, Some(node));
        Some(node)
    }

    // The number of a node that is told of an end.
    fn told(&mut self, writer: u32, place: u32, end: End) -> Option<u32> {
        let number = self.number(writer, place);
        if !matches!(end, End::Left) {
            self.set(writer, place, None);
        }
        number
    }

    /// The event with the numbers of lines, or none where it opens a node at a place that is not vacant, or tells one that is not open.
    pub fn numbered(&mut self, event: Event, wanted: &Event) -> Option<Event> {
        let what = match event.what {
            What::Link { writer, how, node } => What::Link {
                writer,
                how,
                node: self.opened(writer, node, wanted)?,
            },
            What::Drop {
                writer,
                node,
                status,
                end,
            } => What::Drop {
                writer,
                node: self.told(writer, node, end)?,
                status,
                end,
            },
            what => what,
        };
        Some(Event {
            task: event.task,
            what,
        })
    }
}
