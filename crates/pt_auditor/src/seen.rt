//! Which exits the desks have seen.

ghost use Rattle.std.specs.Prelude.{◌≡◌, ◌&&◌, ◌||◌, ◌∷◌, ◌++◌, ℕ, nat_le, [], true, is_none, string_bytes, OnOk};
ghost use Rattle.std.specs.List.{flat_map};
ghost use Rattle.std.specs.Map.{lookup};
ghost use Rattle.pt_signal.specs.declared.pid.Pid.{Pid};
ghost use Rattle.pt_texts.specs.Text.{record_line};
ghost use Rattle.pt_auditor.specs.Saving.{is_nil, seen_record};
ghost use Rattle.pt_auditor.specs.Seen.{is_noted, is_slot_of, shows_end};

use crate::saved::write_line;
use indexmap::IndexMap;
use pt_events::Event;
use pt_signal::Pid;
use pt_texts::Record;
use std::alloc::{AllocError, Global};
use std::marker::Model;

/// Which exits each desk has seen, as a call of its own was refused for them.
pub(crate) struct SeenExits {
    /// The highest version that was seen to have exited, by the desk that saw it, and the desk and the slot of the process.
    tops: IndexMap<(u8, u8, u32), u32>,
}

impl Model for SeenExits {
    ghost use Rattle.pt_auditor.specs.Seen.{SeenSlots};

    ghost Value = { SeenSlots };

    ghost view = { λ s. s.tops.entries };
}

// By hand, so that each drop of it is a call: a derived drop is proved field by field at each place that drops a value.
impl Drop for SeenExits {
    fn drop(self) {
        let SeenExits { tops: _ } = self;
    }
}

impl SeenExits {
    /// No desk has seen an exit.
    pub(crate) fn new(alloc: Global) -> SeenExits
        ensures { result ≡ [] }
    {
        SeenExits {
            tops: IndexMap::new(alloc),
        }
    }

    /// Whether the desk has seen that the process has exited.
    pub(crate) fn has(&self, desk: u8, pid: Pid) -> bool
        ensures { result ≡ is_noted self.now desk pid }
    {
        match self.tops.get(&(desk, pid.shard, pid.slot)) {
            Some(top) => pid.version <= *top,
            None => false,
        }
    }

    /// Whether no desk has seen an exit.
    pub(crate) fn is_empty(&self) -> bool
        ensures { result ≡ is_nil self.now }
    {
        self.tops.len() == 0
    }

    /// Whether the desk has seen no exit of the process's slot.
    pub(crate) fn lacks(&self, desk: u8, pid: Pid) -> bool
        ensures { result ≡ is_none (lookup (is_slot_of desk pid) self.now) }
    {
        self.tops.get(&(desk, pid.shard, pid.slot)).is_none()
    }

    /// The desk has seen that the process has exited, as its first exit of that slot.
    pub(crate) fn add(&mut self, desk: u8, pid: Pid) -> Result<(), AllocError>
        requires { is_none (lookup (is_slot_of desk pid) self.old) ≡ true }
        ensures { OnOk result (self.new ≡ self.old ++ ((desk, pid.shard, pid.slot), pid.version) ∷ []) }
    {
        self.tops.insert((desk, pid.shard, pid.slot), pid.version)?;
        Ok(())
    }

    /// A refused call shows its desk that the other process has exited.
    pub(crate) fn note(&mut self, event: Event) -> Result<(), AllocError>
        ensures { OnOk result ((d : ℕ) (p : Pid) → is_noted self.new d p ≡ (shows_end d p event || is_noted self.old d p)) }
    {
        match event {
            Event::Refused(from, to) => self.mark(from.shard, to),
            _ => Ok(()),
        }
    }

    /// The desk has seen that the process has exited.
    fn mark(&mut self, desk: u8, pid: Pid) -> Result<(), AllocError>
        ensures { OnOk result ((d : ℕ) (p : Pid) → is_noted self.new d p
            ≡ (is_slot_of d p (desk, pid.shard, pid.slot) && nat_le p.version pid.version || is_noted self.old d p)) }
    {
        if self.has(desk, pid) {
            return Ok(());
        }
        self.tops.insert((desk, pid.shard, pid.slot), pid.version)?;
        Ok(())
    }

    /// Writes a line for each slot of which a desk has seen an exit.
    pub(crate) fn write(&self, text: &mut String) -> Result<(), AllocError>
        ensures { OnOk result
            (string_bytes text.new ≡ string_bytes text.old ++ flat_map (λ s. record_line (seen_record s)) self.now) }
    {
        for place in 0..self.tops.len() {
            let Some((slot, version)) = self.tops.get_index(place) else {
                return Ok(());
            };
            write_line(seen_line(*slot, *version), text)?;
        }
        Ok(())
    }
}

/// The line of a slot of which a desk has seen an exit.
fn seen_line(slot: (u8, u8, u32), version: u32) -> Record
    ensures { result ≡ seen_record (slot, version) }
{
    let pid = Pid {
        shard: slot.1,
        slot: slot.2,
        version,
    };
    Record::Seen(slot.0, pid)
}
