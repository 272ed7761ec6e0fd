//! The clerk: it writes down what the others tell it, with the moment.

use crate::words::REFUSED;
use pt_behaviour::Next;
use pt_node::{Body, Item, Pick};
use std::alloc::Global;

/// What the clerk was told, and when.
#[derive(Clone, Copy)]
pub struct Note {
    pub at: u64,
    pub told: Body,
}

/// The notes of the clerk, the first in front.
#[derive(Drop)]
pub struct Clerk {
    notes: Vec<Note>,
}

impl Clerk {
    pub fn new(alloc: Global) -> Clerk {
        Clerk {
            notes: Vec::new(alloc),
        }
    }

    /// What it was told, in order.
    pub fn notes(&self) -> &[Note] {
        self.notes.as_slice()
    }

    /// Writes down a message.
    pub fn attend(&mut self, now: u64, item: Option<Item>) -> Next {
        let Some(Item::User(_, told)) = item else {
            return Next::Wait(Pick::Any);
        };
        match self.notes.push(Note { at: now, told }) {
            Ok(()) => Next::Wait(Pick::Any),
            Err(_) => Next::Stop(REFUSED),
        }
    }
}
