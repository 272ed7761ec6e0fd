//! Workers that keep step with each other, so that their turns mix.

use crate::board::DESKS;
use pt_node::Gate;
use std::alloc::{AllocError, Global};
use std::sync::atomic::{AtomicU64, Ordering};

/// By how many turns a worker may be ahead of another one.
const AHEAD: u64 = 32;

/// How often a worker looks whether the others are near; then it goes on.
const LOOKS: u32 = 10_000;

/// How many turns each worker has begun.
#[derive(Drop)]
pub(crate) struct Pace {
    begun: Vec<AtomicU64>,
}

impl Pace {
    pub(crate) fn new(alloc: Global) -> Result<Pace, AllocError> {
        let mut begun = Vec::new(alloc);
        for _ in 0..DESKS {
            begun.push(AtomicU64::new(0))?;
        }
        Ok(Pace { begun })
    }

    /// Whether every worker has begun so many turns.
    fn have_begun(&self, turns: u64) -> bool {
        for begun in &self.begun {
            if begun.load(Ordering::SeqCst) < turns {
                return false;
            }
        }
        true
    }
}

impl Gate for Pace {
    ghost use Rattle.std.specs.Prelude.{⊤};

    ghost lets = { λ _ _ _ _. ⊤ };

    fn before(&self, desk: u8, turn: u64) -> bool {
        if let Some(begun) = self.begun.get(usize::from(desk)) {
            begun.store(turn.saturating_add(1), Ordering::SeqCst);
        }
        for _ in 0..LOOKS {
            if self.have_begun(turn.saturating_sub(AHEAD)) {
                break;
            }
        }
        true
    }

    fn after(&self, _desk: u8, _turn: u64) {}
}
