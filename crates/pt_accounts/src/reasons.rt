//! Why processes ended, one reason after the other, kept as runs of equal reasons.
//!
//! The versions of a slot end one after the other. If a million of them end as `normal`, [`Reasons`] keeps one [`Run`].
//! So what it takes grows with the number of changes of reason, and not with the number of ends.
//!
//! # Cost
//! `push` takes constant time. `get` finds its run by halves.

ghost use Rattle.std.specs.Prelude.{◌≡◌, ◌+◌, ◌-◌, ◌≤◌, ◌<◌, ◌^◌, ◌++◌, ◌∷◌, [], OnOk, OnErr, None, length, slice_get};
ghost use Rattle.std.specs.Prelude.{min, replicate};
ghost use Rattle.pt_accounts.specs.Runs.{AreRuns, expanded};
ghost use Rattle.pt_accounts.specs.Runs as spec;

use pt_signal::Reason;
use std::alloc::{AllocError, Global};
use std::marker::Model;

/// A run of equal reasons.
#[derive(Clone, Copy, Debug, PartialEq, Eq)]
pub struct Run {
    /// The number of reasons up to the end of this run. Version numbers begin at 1, so this is the last version that
    /// ended so.
    pub up_to: u32,
    pub reason: Reason,
}

/// The reasons with which the versions of a slot ended, from version 1 on.
#[derive(Drop)]
pub struct Reasons {
    runs: Vec<Run>,
}

impl Model for Reasons {
    ghost use Rattle.std.specs.Prelude.{None, vec_capacity, vec_len, ◌-◌};
    ghost use Rattle.pt_accounts.specs.Runs.{AreRuns, ReasonsState, expanded};

    ghost Value = { ReasonsState };

    ghost view = { λ s. record { listed = expanded 0 s.runs.items; room = vec_capacity s.runs - vec_len s.runs } };

    ghost invariant = { λ s. AreRuns 0 None s.runs.items };
}

impl Reasons {
    /// None yet. It takes no memory.
    pub fn new(alloc: Global) -> Reasons
        ensures { result.listed ≡ [] }
    {
        Reasons {
            runs: Vec::new(alloc),
        }
    }

    /// The number of reasons.
    pub fn len(&self) -> usize
        ensures len { result ≡ length self.now.listed }
        ensures few { result < 2 ^ 32 }
    {
        match self.runs.last() {
            Some(run) => run.up_to as usize,
            None => 0,
        }
    }

    /// The reason at this place: that of version `place + 1`.
    pub fn get(&self, place: usize) -> Option<Reason>
        ensures { result ≡ slice_get self.now.listed place }
    {
        let runs = self.runs.as_slice();
        let at = runs.partition_point(|run| run.up_to as usize <= place);
        match runs.get(at) {
            Some(run) => Some(run.reason),
            None => None,
        }
    }

    /// The runs, in order.
    pub fn runs(&self) -> &[Run]
        ensures runs { AreRuns 0 None result.now }
        ensures all { expanded 0 result.now ≡ self.now.listed }
    {
        self.runs.as_slice()
    }

    /// Makes room for this many further runs, so that as many reasons can be added without memory.
    pub fn reserve(&mut self, runs: usize) -> Result<(), AllocError>
        ensures listed { self.new.listed ≡ self.old.listed }
        ensures room { OnOk result (runs ≤ self.new.room) }
        ensures refused { OnErr result (self.new ≡ self.old) }
    {
        self.runs.reserve(runs)
    }

    /// Adds a reason, for which there is room.
    pub fn push_reserved(&mut self, reason: Reason)
        requires room { 0 < self.old.room }
        requires few { length self.old.listed + 1 < 2 ^ 32 }
        ensures listed { self.new.listed ≡ self.old.listed ++ reason ∷ [] }
        ensures room { self.old.room ≤ self.new.room + 1 }
    {
        let up_to = self.len() as u32 + 1;
        if last_is(self.runs.as_slice(), reason) {
            self.runs.pop();
        }
        self.runs.push_reserved(Run { up_to, reason });
    }

    /// Puts this reason in the place of each. One run is left, and room for one more if there was any; the other memory
    /// is given back. It takes no memory.
    pub fn fill(&mut self, reason: Reason)
        ensures listed { self.new.listed ≡ replicate (length self.old.listed) reason }
        ensures room { min 1 self.old.room ≤ self.new.room }
    {
        if let Some(run) = self.runs.pop() {
            self.runs.clear();
            self.runs.push_reserved(Run {
                up_to: run.up_to,
                reason,
            });
            self.runs.shrink_to(2);
        }
    }

    /// Adds a reason.
    pub fn push(&mut self, reason: Reason) -> Result<(), AllocError>
        ensures added { OnOk result (self.new.listed ≡ self.old.listed ++ reason ∷ []) }
        ensures refused { OnErr result (self.new.listed ≡ self.old.listed) }
    {
        if self.len() == u32::MAX as usize {
            return Err(AllocError);
        }
        self.reserve(1)?;
        self.push_reserved(reason);
        Ok(())
    }
}

/// Whether the last run is of this reason.
fn last_is(runs: &[Run], reason: Reason) -> bool
    ensures { result ≡ spec.last_is reason runs.now }
{
    match runs.last() {
        Some(run) => run.reason == reason,
        None => false,
    }
}
