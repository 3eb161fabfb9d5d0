//! Which place each name of a trace stands for.
ghost use Rattle.std.specs.Prelude.{◌≡◌, None, Some, OnOk};
ghost use Rattle.trace_replay.specs.Names.{names_after, event_placed, freed, linked, no_names, placed};
ghost use Rattle.trace_replay.specs.KeptNames.{names_in_entries};

use run_machine::{End, Event, What};
use std::alloc::{AllocError, Global};
use std::collections::BTreeMap;

/// The name of a node, which is one of its writer's.
#[derive(Clone, Copy, PartialEq, Eq, PartialOrd, Ord)]
pub struct Name {
    pub writer: u32,
    pub node: u32,
}

/// The nodes that a run has opened, as its trace names them.
///
/// They get places in the order of opening, neither any vacant one nor the lowest: then names are put into places without a look at the state. At
/// 2^32 nodes of one writer there is no next place, and `replay` answers that memory is wanting; no text comes there.
#[derive(Drop)]
pub struct Names {
    /// How many nodes each writer has opened.
    pub opened: BTreeMap<u32, u32>,
    /// Where the open nodes are.
    pub places: BTreeMap<Name, u32>,
}

impl Names {
    /// No node was opened.
    pub fn new(alloc: Global) -> Names
        ensures { names_in_entries result ≡ no_names }
    {
        Names {
            opened: BTreeMap::new(alloc),
            places: BTreeMap::new(alloc),
        }
    }

    // How many nodes a writer has opened.
    fn opened(&self, writer: u32) -> u32
        ensures { result ≡ (names_in_entries self.now).opened writer }
    {
        match self.opened.get(&writer) {
            Some(opened) => *opened,
            None => 0,
        }
    }

    // Where the open node of this name is.
    fn place(&self, writer: u32, node: u32) -> Option<u32>
        ensures { result ≡ (names_in_entries self.now).place writer node }
    {
        self.places.get(&Name { writer, node }).copied()
    }

    // What it is in the machine.
    fn placed(&self, what: What) -> Option<What>
        ensures { result ≡ placed (names_in_entries self.now) what }
    {
        match what {
            What::Link { writer, how, node } => {
                if self.place(writer, node).is_some() {
                    return None;
                }
                let node = self.opened(writer);
                Some(What::Link { writer, how, node })
            }
            What::Drop {
                writer,
                node,
                status,
                end,
            } => match self.place(writer, node) {
                Some(node) => Some(What::Drop {
                    writer,
                    node,
                    status,
                    end,
                }),
                None => None,
            },
            _ => Some(what),
        }
    }

    /// What an event is in the machine, if it is one: with the places of its nodes for their names.
    pub fn event_placed(&self, event: &Event) -> Option<Event>
        ensures { result ≡ event_placed (names_in_entries self.now) event.now }
    {
        match self.placed(event.what) {
            Some(what) => Some(Event {
                task: event.task,
                what,
            }),
            None => None,
        }
    }

    // A node was opened.
    fn link(&mut self, writer: u32, node: u32) -> Result<(), AllocError>
        ensures { OnOk result (names_in_entries self.new ≡ linked (names_in_entries self.old) writer node) }
    {
        let place = self.opened(writer);
        let Some(opened) = place.checked_add(1) else {
            return Err(AllocError);
        };
        self.opened.insert(writer, opened)?;
        self.places.insert(Name { writer, node }, place)?;
        Ok(())
    }

    // A node was closed.
    fn close(&mut self, writer: u32, node: u32)
        ensures { names_in_entries self.new ≡ freed (names_in_entries self.old) writer node }
    {
        self.places.remove(&Name { writer, node });
    }

    /// An event has come.
    ///
    /// # Errors
    ///
    /// Where there is no memory.
    pub fn note(&mut self, what: What) -> Result<(), AllocError>
        ensures { OnOk result (names_in_entries self.new ≡ names_after (names_in_entries self.old) what) }
    {
        match what {
            What::Link { writer, node, .. } => self.link(writer, node),
            What::Drop {
                writer,
                node,
                end,
                ..
            } => {
                match end {
                    End::Left => {}
                    End::Up | End::Top => self.close(writer, node),
                }
                Ok(())
            }
            _ => Ok(()),
        }
    }
}
