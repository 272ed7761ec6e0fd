//! The entries of an exited process.

ghost use Rattle.std.specs.Prelude.{◌≡◌, ◌<◌, ◌≤◌, ◌^◌, length, slice_get, Some};

use crate::entries::Places;
use std::hash::Hash;
use std::marker::Model;

/// Entries without a gap between them, so that each is found by its number.
#[derive(Drop)]
pub struct Rows<K: Eq + Hash + Copy, V: Copy> {
    pub(crate) places: Places<K, V>,
}

impl<K: Eq + Hash + Copy, V: Copy> Model for Rows<K, V> {
    ghost use Rattle.std.specs.Prelude.{List};

    ghost Value = { List (K × V) };

    ghost use Rattle.pt_entries.specs.Held.{held_entries, IsClosed};

    ghost view = { λ r. held_entries r.places };

    ghost invariant = { λ r. IsClosed r.places };
}

impl<K: Eq + Hash + Copy, V: Copy> Rows<K, V> {
    /// The number of entries.
    pub fn len(&self) -> usize
        ensures len { result ≡ length self.now }
        ensures small { result ≤ 2 ^ 62 }
    {
        match &self.places {
            Places::Few(few) => few.len(),
            Places::Many(many) => many.len(),
        }
    }

    /// The entry with this number, in order of entry.
    pub fn at(&self, i: usize) -> (K, V)
        requires { i < length self.now }
        ensures { slice_get self.now i ≡ Some result }
    {
        match &self.places {
            Places::Few(few) => few[i],
            Places::Many(many) => many.at(i),
        }
    }
}
