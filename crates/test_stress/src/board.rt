//! Who was born last in each slot of each desk, for all workers to read.

use pt_node::Pid;
use std::alloc::{AllocError, Global};
use std::sync::atomic::{AtomicU32, Ordering};

/// How many desks the node has.
pub(crate) const DESKS: u8 = 8;

/// How many slots each desk has: eight processes are born at first, and four more can live beside them.
pub(crate) const SLOTS: u32 = 12;

/// The newest version of each slot, desk by desk; 0 where none was born.
#[derive(Drop)]
pub(crate) struct Board {
    newest: Vec<AtomicU32>,
}

impl Board {
    pub(crate) fn new(alloc: Global) -> Result<Board, AllocError> {
        let mut newest = Vec::new(alloc);
        for _ in 0..u32::from(DESKS) * SLOTS {
            newest.push(AtomicU32::new(0))?;
        }
        Ok(Board { newest })
    }

    /// The process was born.
    pub(crate) fn write(&self, p: Pid) {
        if let Some(version) = self.newest.get(place(p.shard, p.slot)) {
            version.store(p.version, Ordering::SeqCst);
        }
    }

    /// The process that was born last in a slot, or the first that is to be born there.
    pub(crate) fn read(&self, shard: u8, slot: u32) -> Pid {
        let version = match self.newest.get(place(shard, slot)) {
            Some(version) => version.load(Ordering::SeqCst),
            None => 0,
        };
        Pid {
            shard,
            slot,
            version: if version == 0 { 1 } else { version },
        }
    }
}

/// The place of a slot on the board.
fn place(shard: u8, slot: u32) -> usize {
    usize::from(shard)
        .saturating_mul(SLOTS as usize)
        .saturating_add(slot as usize)
}
