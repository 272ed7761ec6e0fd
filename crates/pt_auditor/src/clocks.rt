//! The clocks of the desks.

ghost use Rattle.std.specs.Prelude.{◌≡◌, ◌==◌, ◌∷◌, ◌++◌, ℕ, [], true, cond, is_none, string_bytes, OnOk};
ghost use Rattle.std.specs.List.{flat_map};
ghost use Rattle.std.specs.Map.{lookup};
ghost use Rattle.pt_texts.specs.Text.{record_line};
ghost use Rattle.pt_auditor.specs.Lanes.{stamp_noted};
ghost use Rattle.pt_auditor.specs.Saving.{clock_record, is_nil};

use crate::saved::write_line;
use indexmap::IndexMap;
use pt_texts::Record;
use std::alloc::{AllocError, Global};
use std::marker::Model;

/// The stamp of each desk's newest event.
pub(crate) struct Clocks {
    stamps: IndexMap<u8, u64>,
}

impl Model for Clocks {
    ghost use Rattle.std.specs.Prelude.{ℕ, List};

    ghost Value = { List (ℕ × ℕ) };

    ghost view = { λ c. c.stamps.entries };
}

// By hand, so that each drop of it is a call: a derived drop is proved field by field at each place that drops a value.
impl Drop for Clocks {
    fn drop(self) {
        let Clocks { stamps: _ } = self;
    }
}

impl Clocks {
    pub(crate) fn new(alloc: Global) -> Clocks
        ensures { result ≡ [] }
    {
        Clocks {
            stamps: IndexMap::new(alloc),
        }
    }

    /// The stamp of the desk's newest event, or 0 where it has none.
    pub(crate) fn of(&self, desk: u8) -> u64
        ensures { result ≡ stamp_noted self.now desk }
    {
        match self.stamps.get(&desk) {
            Some(stamp) => *stamp,
            None => 0,
        }
    }

    /// Whether no desk has an event.
    pub(crate) fn is_empty(&self) -> bool
        ensures { result ≡ is_nil self.now }
    {
        self.stamps.len() == 0
    }

    /// Whether the desk has no event.
    pub(crate) fn lacks(&self, desk: u8) -> bool
        ensures { result ≡ is_none (lookup (λ d. desk == d) self.now) }
    {
        self.stamps.get(&desk).is_none()
    }

    /// The stamp of the newest event of one more desk.
    pub(crate) fn add(&mut self, desk: u8, stamp: u64) -> Result<(), AllocError>
        requires { is_none (lookup (λ d. desk == d) self.old) ≡ true }
        ensures { OnOk result (self.new ≡ self.old ++ (desk, stamp) ∷ []) }
    {
        self.stamps.insert(desk, stamp)?;
        Ok(())
    }

    /// Writes a line for each desk.
    pub(crate) fn write(&self, text: &mut String) -> Result<(), AllocError>
        ensures { OnOk result
            (string_bytes text.new ≡ string_bytes text.old ++ flat_map (λ c. record_line (clock_record c)) self.now) }
    {
        for place in 0..self.stamps.len() {
            let Some((desk, stamp)) = self.stamps.get_index(place) else {
                return Ok(());
            };
            write_line(Record::Clock(*desk, *stamp), text)?;
        }
        Ok(())
    }

    pub(crate) fn set(&mut self, desk: u8, stamp: u64) -> Result<(), AllocError>
        ensures { OnOk result ((d : ℕ) → stamp_noted self.new d ≡ cond (desk == d) stamp (stamp_noted self.old d)) }
    {
        self.stamps.insert(desk, stamp)?;
        Ok(())
    }
}
