//! The slots in which there may be something to forget.

ghost use Rattle.std.specs.Prelude.{◌≡◌, ◌++◌, ◌∷◌, ◌<◌, ℕ, [], length, slice_index_or, false, IfNone, IfSome};
ghost use Rattle.std.specs.Prelude.{OnErr, OnOk};
ghost use Rattle.std.specs.List.{Contains};

use std::alloc::{AllocError, Global};
use std::marker::Model;

/// Slots, each of which is in the list once.
///
/// Contracts see the list.
#[derive(Drop)]
pub(crate) struct Changed {
    slots: Vec<u32>,
    /// For each slot, whether it is in the list, so that no slot is searched for.
    listed: Vec<bool>,
}

impl Model for Changed {
    ghost use Rattle.std.specs.Prelude.{List, ℕ};
    ghost use Rattle.pt_accounts.specs.Changed.{AreListed};

    ghost Value = { List ℕ };

    ghost view = { λ c. c.slots.items };

    ghost invariant = { λ c. AreListed c.listed.items c.slots.items };
}

/// Makes the list of marks long enough for the slot. The new ones are `false`.
fn lengthen(listed: &mut Vec<bool>, slot: usize) -> Result<(), AllocError>
    ensures long { OnOk result (slot < length listed.new.items) }
    ensures same { (s : ℕ) → slice_index_or listed.new.items s false ≡ slice_index_or listed.old.items s false }
{
    while listed.len() <= slot {
        listed.push(false)?;
    }
    Ok(())
}

impl Changed {
    /// No slot. It takes no memory.
    pub(crate) fn new(alloc: Global) -> Changed
        ensures { result ≡ [] }
    {
        Changed {
            slots: Vec::new(alloc),
            listed: Vec::new(alloc),
        }
    }

    /// Adds the slot, unless it is in the list. If it fails, the list is as before.
    #[inline(always)]
    pub(crate) fn note(&mut self, slot: u32) -> Result<(), AllocError>
        ensures noted { OnOk result (Contains self.new slot) }
        ensures stays { (s : ℕ) → Contains self.old s → Contains self.new s }
        ensures refused { OnErr result (self.new ≡ self.old) }
    {
        let place = slot as usize;
        if place < self.listed.len() && self.listed[place] {
            return Ok(());
        }
        self.add(slot)
    }

    /// Adds the slot. If it fails, the list is as before.
    fn add(&mut self, slot: u32) -> Result<(), AllocError>
        ensures added { OnOk result (self.new ≡ self.old ++ slot ∷ []) }
        ensures refused { OnErr result (self.new ≡ self.old) }
    {
        let place = slot as usize;
        lengthen(&mut self.listed, place)?;
        self.slots.push(slot)?;
        self.listed[place] = true;
        Ok(())
    }

    /// Takes out the slot that was added last. What it holds memory for stays.
    pub(crate) fn take(&mut self) -> Option<u32>
        ensures taken { IfSome result (λ slot. self.old ≡ self.new ++ slot ∷ []) }
        ensures none { IfNone result ((self.old ≡ []) × (self.new ≡ [])) }
    {
        let slot = self.slots.pop()?;
        let place = slot as usize;
        if place < self.listed.len() {
            self.listed[place] = false;
        }
        Some(slot)
    }
}
