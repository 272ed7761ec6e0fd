//! What the workers of a run know of one another: whether it is over, and when each had nothing to do.

use crate::bells::Bells;
use std::alloc::{AllocError, Global};
use std::sync::atomic::{AtomicU64, Ordering};

/// What the worker of a desk says of its turns.
#[derive(Drop)]
struct Mark {
    /// The number of its turns in which there was something to do.
    busy: AtomicU64,
    /// The number of such turns of all workers before its last turn that had nothing to do; `u64::MAX` before the first.
    rested: AtomicU64,
}

/// What the workers of a run share, beside the lanes.
///
/// It says when they end, and changes nothing else: what a worker does in a turn is the same whatever is written here.
#[derive(Drop)]
pub(crate) struct Board {
    bells: Bells,
    marks: Vec<Mark>,
}

impl Board {
    /// The board of so many desks. Fails if there is no memory.
    pub(crate) fn new(alloc: Global, desks: u8) -> Result<Board, AllocError> {
        let mut marks = Vec::new(alloc);
        for _desk in 0..desks {
            marks.push(Mark {
                busy: AtomicU64::new(0),
                rested: AtomicU64::new(u64::MAX),
            })?;
        }
        let bells = Bells::new(alloc, desks)?;
        Ok(Board { bells, marks })
    }

    pub(crate) fn bells(&self) -> &Bells {
        &self.bells
    }

    /// The number of turns of all workers in which there was something to do.
    pub(crate) fn busy(&self) -> u64 {
        let mut count: u64 = 0;
        for mark in &self.marks {
            count = count.wrapping_add(mark.busy.load(Ordering::SeqCst));
        }
        count
    }

    /// There was something to do in a turn of that desk.
    pub(crate) fn worked(&self, desk: u8) {
        if let Some(mark) = self.marks.get(desk as usize) {
            mark.busy.fetch_add(1, Ordering::SeqCst);
        }
    }

    /// There was nothing to do in a turn of that desk, before which all workers had had so many turns with something to
    /// do. If that is so of each desk, and no such turn has ended since, the workers end.
    pub(crate) fn rested(&self, desk: u8, busy: u64) {
        if let Some(mark) = self.marks.get(desk as usize) {
            mark.rested.store(busy, Ordering::SeqCst);
        }
        if self.all_rested(busy) && self.busy() == busy {
            self.bells.stop();
        }
    }

    /// Whether each desk has had a turn with nothing to do behind so many turns with something to do.
    fn all_rested(&self, busy: u64) -> bool {
        for mark in &self.marks {
            if mark.rested.load(Ordering::SeqCst) != busy {
                return false;
            }
        }
        true
    }
}
