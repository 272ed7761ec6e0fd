//! How the outside speaks to a node that runs.

use std::sync::atomic::{AtomicU64, Ordering};

/// What the outside asks of a node that runs epoch by epoch. Any thread may call it, and so may a behaviour.
#[derive(Drop)]
pub struct Call {
    pauses: AtomicU64,
    stops: AtomicU64,
}

impl Call {
    /// Nothing is asked yet.
    pub fn new() -> Call {
        Call {
            pauses: AtomicU64::new(0),
            stops: AtomicU64::new(0),
        }
    }

    /// Asks that the epoch end, and the next begin.
    pub fn pause(&self) {
        self.pauses.store(1, Ordering::SeqCst);
    }

    /// Asks that the epoch end, and no other begin.
    pub fn stop(&self) {
        self.stops.store(1, Ordering::SeqCst);
    }

    /// Whether no other epoch is to begin.
    pub fn is_stopped(&self) -> bool {
        self.stops.load(Ordering::SeqCst) != 0
    }

    /// Whether the epoch is to end, and another to begin.
    pub fn is_paused(&self) -> bool {
        self.pauses.load(Ordering::SeqCst) != 0
    }

    /// The epoch has ended, as was asked.
    pub(crate) fn was_heard(&self) {
        self.pauses.store(0, Ordering::SeqCst);
    }
}
