//! The processes that a script begins with, counted by their desks.

ghost use Rattle.std.specs.Prelude.{◌≡◌, ◌<◌, ◌==◌, [], ◌∷◌, ◌++◌, count_by, OnOk};
ghost use Rattle.pt_script.specs.declared.limits.TheConstants.{MAX_DESKS, MAX_SLOTS};

use crate::limits::MAX_DESKS;
use crate::values::Top;
use std::alloc::{AllocError, Global};
use std::marker::Model;

/// The processes that a script begins with. The number of those of a desk is known without looking at them all.
#[derive(Drop)]
pub(crate) struct Crowd {
    tops: Vec<Top>,
    counts: [u32; MAX_DESKS],
}

impl Model for Crowd {
    ghost use Rattle.std.specs.Prelude.{◌≡◌, ◌<◌, ◌==◌, ℕ, List, count_by, slice_index};
    ghost use Rattle.pt_script.specs.declared.values.Top.{Top};
    ghost use Rattle.pt_script.specs.declared.limits.TheConstants.{MAX_DESKS};

    ghost Value = { List Top };

    ghost view = { λ c. c.tops.items };

    ghost invariant = { λ c. (k : ℕ) → k < MAX_DESKS
        → slice_index c.counts k ≡ count_by (λ t. t.desk == k) c.tops.items };
}

impl Crowd {
    /// No process.
    pub(crate) fn new(alloc: Global) -> Crowd
        ensures { result ≡ [] }
    {
        Crowd {
            tops: Vec::new(alloc),
            counts: [0; MAX_DESKS],
        }
    }

    /// The number of processes of the desk.
    pub(crate) fn count(&self, desk: u8) -> u32
        requires { desk < MAX_DESKS }
        ensures { result ≡ count_by (λ t. t.desk == desk) self.now }
    {
        self.counts[desk as usize]
    }

    /// Adds a process.
    pub(crate) fn push(&mut self, top: Top) -> Result<(), AllocError>
        requires desk { top.desk < MAX_DESKS }
        requires room { count_by (λ t. t.desk == top.desk) self.old < MAX_SLOTS }
        ensures { OnOk result (self.new ≡ self.old ++ top ∷ []) }
    {
        self.tops.push(top)?;
        self.counts[top.desk as usize] += 1;
        Ok(())
    }

    /// The processes, in order.
    pub(crate) fn into_tops(self) -> Vec<Top>
        ensures { result.items ≡ self }
    {
        self.tops
    }
}
