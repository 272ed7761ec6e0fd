//! Entries by hash, in order of entry.

ghost use Rattle.std.specs.Prelude.{◌≡◌, ◌+◌, ◌<◌, ◌≤◌, ◌^◌, ◌&&◌, ◌∷◌, ◌++◌, [], drop, length, slice_get, is_some};
ghost use Rattle.std.specs.Prelude.{Some, None, IsOk, IfOk, IsSome, OnOk};
ghost use Rattle.std.specs.HashMap.{spare};
ghost use Rattle.std.specs.List.{list_any, IsDistinct};
ghost use Rattle.std.specs.Map.{lookup, remove_entry, set_value, keys_of};
ghost use Rattle.std.specs.Option.{option_to_list};
ghost use Rattle.pt_entries.specs.Gaps.{present, value_at, AreCounted};

use indexmap::IndexMap;
use std::alloc::{AllocError, Global};
use std::hash::Hash;
use std::marker::Model;

/// The most entries that are ever kept, so that a process can count all that it owes.
const MOST: usize = 1 << 62;

/// A map that keeps its entries in order of entry, found by hash.
///
/// A removal leaves a gap in place, so that no other entry moves. Gaps at the end are closed at once, and all gaps if
/// they outnumber the entries. So by the invariant n entries take at most 2n places. A walk over them costs O(n), a
/// look-up O(1), and an insertion and a removal O(1) amortised. If a key is entered again while its gap is there, it
/// costs what entered after it.
#[derive(Drop)]
pub(crate) struct Many<K: Eq + Hash + Copy, V: Copy> {
    /// The entries in order of entry; `None` is a gap.
    places: IndexMap<K, Option<V>>,
    /// The number of entries.
    count: usize,
}

impl<K: Eq + Hash + Copy, V: Copy> Model for Many<K, V> {
    ghost use Rattle.std.specs.Prelude.{◌^◌, ◌-◌, length, min};
    ghost use Rattle.std.specs.HashMap.{spare};
    ghost use Rattle.pt_entries.specs.Gaps.{Gapped, present, AreCounted};

    ghost Value = { Gapped K V };

    ghost view = { λ m. record {
      entries = present m.places.entries;
      gaps = length m.places.entries - m.count;
      room = min (spare m.places) (2 ^ 62 - m.count);
    } };

    ghost invariant = { λ m. AreCounted K.eq m.places.entries m.count };
}

impl<K: Eq + Hash + Copy, V: Copy> Many<K, V> {
    /// No entries, and room for this many.
    pub(crate) fn with_room(alloc: Global, room: usize) -> Result<Self, AllocError>
        requires { room ≤ 2 ^ 62 }
        ensures entries { IfOk result (λ m. m.entries ≡ []) }
        ensures room { IfOk result (λ m. room ≤ m.room) }
    {
        let places = IndexMap::with_capacity(alloc, room)?;
        Ok(Many { places, count: 0 })
    }

    /// The number of entries.
    pub(crate) fn len(&self) -> usize
        ensures len { result ≡ length self.now.entries }
        ensures small { result ≤ 2 ^ 62 }
    {
        self.count
    }

    /// The value at a key.
    pub(crate) fn get(&self, key: &K) -> Option<V>
        ensures { result ≡ lookup (K.eq key.now) self.now.entries }
    {
        match self.places.get(key) {
            Some(value) => *value,
            None => None,
        }
    }

    /// Makes room for one more entry.
    pub(crate) fn reserve(&mut self) -> Result<(), AllocError>
        ensures same { self.new.entries ≡ self.old.entries }
        ensures ok { OnOk result (0 < self.new.room) }
        ensures room { self.old.room ≤ self.new.room }
        ensures succeeds { 0 < self.old.room → IsOk result }
    {
        if self.count == MOST {
            return Err(AllocError);
        }
        self.places.reserve(1)
    }

    /// Sets the value of a key that is there, in its place.
    pub(crate) fn set(&mut self, key: K, value: V)
        requires { IsSome (lookup (K.eq key) self.old.entries) }
        ensures { self.new.entries ≡ set_value (K.eq key) self.old.entries value }
    {
        // The key has a place, so this needs no memory.
        let written: Result<_, _> = self.places.insert(key, Some(value));
        written.unwrap();
    }

    /// Adds an entry at the end.
    pub(crate) fn push(&mut self, key: K, value: V)
        requires absent { lookup (K.eq key) self.old.entries ≡ None }
        requires room { 0 < self.old.room }
        ensures entries { self.new.entries ≡ self.old.entries ++ (key, value) ∷ [] }
        ensures room { self.old.room ≤ self.new.room + 1 }
    {
        clear_gap(&mut self.places, &key, self.count);
        let added: Result<_, _> = self.places.insert(key, Some(value));
        added.unwrap();
        self.count += 1;
    }

    /// Removes the entry of a key. The others keep their order.
    pub(crate) fn remove(&mut self, key: &K) -> Option<V>
        ensures value { result ≡ lookup (K.eq key.now) self.old.entries }
        ensures rest { self.new.entries ≡ remove_entry (K.eq key.now) self.old.entries }
        ensures room { self.old.room ≤ self.new.room }
    {
        match take_value(&mut self.places, key) {
            Some(value) => {
                self.count -= 1;
                settle(&mut self.places, self.count);
                Some(value)
            }
            None => None,
        }
    }

    /// Closes the gaps.
    pub(crate) fn close(&mut self)
        ensures entries { self.new.entries ≡ self.old.entries }
        ensures closed { self.new.gaps ≡ 0 }
        ensures room { self.old.room ≤ self.new.room }
    {
        drop_gaps(&mut self.places);
    }

    /// The entry with this number, in order of entry. The gaps are closed first, if there are any.
    pub(crate) fn nth(&mut self, i: usize) -> (K, V)
        requires { i < length self.old.entries }
        ensures entry { slice_get self.old.entries i ≡ Some result }
        ensures same { self.new.entries ≡ self.old.entries }
        ensures room { self.old.room ≤ self.new.room }
    {
        if self.places.len() > self.count {
            self.close();
        }
        self.at(i)
    }

    /// The entry with this number, in order of entry, if there is no gap.
    pub(crate) fn at(&self, i: usize) -> (K, V)
        requires closed { self.now.gaps ≡ 0 }
        requires within { i < length self.now.entries }
        ensures { slice_get self.now.entries i ≡ Some result }
    {
        let (key, value) = self.places.get_index(i).unwrap();
        (*key, value.unwrap())
    }

    /// The entry with this number, in order of entry, if there are so many. If there are gaps, the call walks to it.
    pub(crate) fn read(&self, i: usize) -> Option<(K, V)>
        ensures { result ≡ slice_get self.now.entries i }
    {
        if i >= self.count {
            return None;
        }
        if self.places.len() == self.count {
            return Some(self.at(i));
        }
        nth_present(&self.places, i)
    }
}

impl<J: PartialEq + Eq + Hash + Copy, K: Eq + Hash + Copy, V: Copy> Many<(J, K), V> {
    /// Whether a key has this first part.
    pub(crate) fn has_first(&self, first: J) -> bool
        ensures { result ≡ list_any (λ k. J.eq first k.0) (keys_of self.now.entries) }
    {
        any_first(&self.places, first)
    }
}

fn any_first<J: PartialEq + Eq + Hash + Copy, K: Eq + Hash + Copy, V: Copy>(
    places: &IndexMap<(J, K), Option<V>>,
    first: J,
) -> bool
    ensures { result ≡ list_any (λ e. is_some e.1 && J.eq first e.0.0) places.now.entries }
{
    places
        .iter()
        .any(|(key, value)| value.is_some() && first == key.0)
}

/// The entry with this number, leaving out the gaps.
fn nth_present<K: Eq + Hash + Copy, V: Copy>(
    places: &IndexMap<K, Option<V>>,
    i: usize,
) -> Option<(K, V)>
    ensures { result ≡ slice_get (present places.now.entries) i }
{
    let mut left = i;
    for at in 0..places.len() {
        if let Some(entry) = standing_at(places, at) {
            if left == 0 {
                return Some(entry);
            }
            left -= 1;
        }
    }
    None
}

/// The entry at a place, unless a gap is there.
fn standing_at<K: Eq + Hash + Copy, V: Copy>(
    places: &IndexMap<K, Option<V>>,
    at: usize,
) -> Option<(K, V)>
    requires { at < length places.now.entries }
    ensures { present (drop at places.now.entries)
        ≡ option_to_list result ++ present (drop (at + 1) places.now.entries) }
{
    let (key, value) = places.get_index(at).unwrap();
    match value {
        Some(value) => Some((*key, *value)),
        None => None,
    }
}

/// Closes the gap that the key left, if it left one.
fn clear_gap<K: Eq + Hash + Copy, V: Copy>(
    places: &mut IndexMap<K, Option<V>>,
    key: &K,
    count: usize,
)
    requires counted { count ≡ length (present places.old.entries) }
    requires gone { value_at (K.eq key.now) places.old.entries ≡ None }
    ensures absent { lookup (K.eq key.now) places.new.entries ≡ None }
    ensures entries { present places.new.entries ≡ present places.old.entries }
    ensures length { length places.new.entries ≤ length places.old.entries }
    ensures room { spare places.old ≤ spare places.new }
{
    if places.len() > count {
        places.shift_remove(key);
    }
}

/// Takes the value at a key out of its place.
fn take_value<K: Eq + Hash + Copy, V: Copy>(
    places: &mut IndexMap<K, Option<V>>,
    key: &K,
) -> Option<V>
    ensures value { result ≡ value_at (K.eq key.now) places.old.entries }
    ensures entries { places.new.entries ≡ set_value (K.eq key.now) places.old.entries None }
    ensures room { spare places.old ≤ spare places.new }
{
    match places.get_mut(key) {
        Some(place) => place.take(),
        None => None,
    }
}

/// After a removal, closes the gaps at the end, and all gaps if they outnumber the entries. So the cost was paid by as
/// many removals.
fn settle<K: Eq + Hash + Copy, V: Copy>(places: &mut IndexMap<K, Option<V>>, count: usize)
    requires distinct { IsDistinct K.eq (keys_of places.old.entries) }
    requires counted { count ≡ length (present places.old.entries) }
    requires limited { count ≤ 2 ^ 62 }
    ensures counted { AreCounted K.eq places.new.entries count }
    ensures entries { present places.new.entries ≡ present places.old.entries }
    ensures room { spare places.old ≤ spare places.new }
{
    pop_gaps(places);
    if places.len() > 2 * count {
        drop_gaps(places);
    }
}

fn pop_gaps<K: Eq + Hash + Copy, V: Copy>(places: &mut IndexMap<K, Option<V>>)
    requires { IsDistinct K.eq (keys_of places.old.entries) }
    ensures entries { present places.new.entries ≡ present places.old.entries }
    ensures distinct { IsDistinct K.eq (keys_of places.new.entries) }
    ensures room { spare places.old ≤ spare places.new }
{
    while let Some((_, None)) = places.last() {
        places.pop();
    }
}

fn drop_gaps<K: Eq + Hash + Copy, V: Copy>(places: &mut IndexMap<K, Option<V>>)
    ensures entries { present places.new.entries ≡ present places.old.entries }
    ensures distinct { IsDistinct K.eq (keys_of places.new.entries) }
    ensures closed { length places.new.entries ≡ length (present places.new.entries) }
    ensures room { spare places.old ≤ spare places.new }
{
    places.retain(
        |_key: &K, value: &mut Option<V>| -> bool
            ensures { (result ≡ is_some value.old) × (value.new ≡ value.old) }
        { value.is_some() },
    );
}
