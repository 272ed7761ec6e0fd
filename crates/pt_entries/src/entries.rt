//! Entries in order of entry.

ghost use Rattle.std.specs.Prelude.{◌≡◌, ◌<◌, ◌≤◌, ◌^◌, ◌∷◌, ◌++◌, [], length, position, slice_get, Some, None, IsOk};
ghost use Rattle.std.specs.Prelude.{IsSome, IfOk, OnOk, OnErr};
ghost use Rattle.std.specs.List.{list_any, IsDistinct};
ghost use Rattle.std.specs.Map.{lookup, remove_entry, set_value, keys_of};
ghost use Rattle.std.specs.Vec.{vec_capacity};
ghost use Rattle.pt_entries.specs.Gaps.{put};

use crate::Rows;
use crate::many::Many;
use std::alloc::{AllocError, Global};
use std::boxed::Box;
use std::hash::Hash;
use std::marker::Model;

/// The most entries that are searched in order.
const FEW: usize = 8;

/// A map that keeps its entries in order of entry.
///
/// Up to eight entries are in a vector, which is searched in order. From the ninth on, and then for good, they are
/// found by hash. A removal keeps the order of the others: among a few it moves those after it down, and among many it
/// leaves a gap (see `Many`). A map that never had an entry takes no memory.
#[derive(Drop)]
pub struct Entries<K: Eq + Hash + Copy, V: Copy> {
    places: Places<K, V>,
}

/// The places of the entries.
#[derive(Drop)]
pub(crate) enum Places<K: Eq + Hash + Copy, V: Copy> {
    Few(Vec<(K, V)>),
    Many(Box<Many<K, V>>),
}

impl<K: Eq + Hash + Copy, V: Copy> Model for Entries<K, V> {
    ghost use Rattle.pt_entries.specs.Gaps.{Listed};

    ghost Value = { Listed K V };

    ghost use Rattle.pt_entries.specs.Held.{held_entries, held_room, IsHeld};

    ghost view = { λ e. record { entries = held_entries e.places; room = held_room e.places } };

    ghost invariant = { λ e. IsHeld K.eq e.places };
}

impl<K: Eq + Hash + Copy, V: Copy> Entries<K, V> {
    /// No entries; allocates nothing.
    pub fn new(alloc: Global) -> Self
        ensures { result.entries ≡ [] }
    {
        Entries {
            places: Places::Few(Vec::new(alloc)),
        }
    }

    /// The number of entries.
    pub fn len(&self) -> usize
        ensures len { result ≡ length self.now.entries }
        ensures small { result ≤ 2 ^ 62 }
    {
        match &self.places {
            Places::Few(few) => few.len(),
            Places::Many(many) => many.len(),
        }
    }

    /// The value at a key.
    #[inline(always)]
    pub fn get(&self, key: &K) -> Option<V>
        ensures { result ≡ lookup (K.eq key.now) self.now.entries }
    {
        match &self.places {
            Places::Few(few) => find(few, key),
            Places::Many(many) => many.get(key),
        }
    }

    /// Makes room for one more entry.
    #[inline(always)]
    pub fn reserve(&mut self) -> Result<(), AllocError>
        ensures same { self.new.entries ≡ self.old.entries }
        ensures ok { OnOk result (0 < self.new.room) }
        ensures room { self.old.room ≤ self.new.room }
        ensures succeeds { 0 < self.old.room → IsOk result }
    {
        match &mut self.places {
            Places::Few(few) if few.len() < FEW => few.reserve(1),
            Places::Few(few) => {
                let many = widen(few)?;
                self.places = Places::Many(many);
                Ok(())
            }
            Places::Many(many) => many.reserve(),
        }
    }

    /// Sets the value of a key. A key that is there keeps its place, and a new one is put last.
    pub fn insert(&mut self, key: K, value: V) -> Result<(), AllocError>
        ensures ok { OnOk result (self.new.entries ≡ put K.eq self.old.entries key value) }
        ensures err { OnErr result (self.new.entries ≡ self.old.entries) }
        ensures absent { OnErr result (lookup (K.eq key) self.old.entries ≡ None) }
        ensures succeeds { 0 < self.old.room → IsOk result }
    {
        if self.get(&key).is_some() {
            self.set(key, value);
            return Ok(());
        }
        self.push(key, value)
    }

    /// Sets the value of a key that is there, in its place.
    #[inline(always)]
    pub fn set(&mut self, key: K, value: V)
        requires { IsSome (lookup (K.eq key) self.old.entries) }
        ensures { self.new.entries ≡ set_value (K.eq key) self.old.entries value }
    {
        match &mut self.places {
            Places::Few(few) => write(few, &key, value),
            Places::Many(many) => many.set(key, value),
        }
    }

    /// Adds an entry at the end.
    #[inline(always)]
    pub fn push(&mut self, key: K, value: V) -> Result<(), AllocError>
        requires { lookup (K.eq key) self.old.entries ≡ None }
        ensures ok { OnOk result (self.new.entries ≡ self.old.entries ++ (key, value) ∷ []) }
        ensures err { OnErr result (self.new.entries ≡ self.old.entries) }
        ensures succeeds { 0 < self.old.room → IsOk result }
    {
        self.reserve()?;
        self.add(key, value);
        Ok(())
    }

    /// Removes the entry of a key. The others keep their order.
    #[inline(always)]
    pub fn remove(&mut self, key: &K) -> Option<V>
        ensures value { result ≡ lookup (K.eq key.now) self.old.entries }
        ensures rest { self.new.entries ≡ remove_entry (K.eq key.now) self.old.entries }
        ensures room { self.old.room ≤ self.new.room }
    {
        match &mut self.places {
            Places::Few(few) => take(few, key),
            Places::Many(many) => many.remove(key),
        }
    }

    /// The entry with this number, in order of entry. The call closes the gaps that it finds.
    pub fn nth(&mut self, i: usize) -> (K, V)
        requires { i < length self.old.entries }
        ensures entry { slice_get self.old.entries i ≡ Some result }
        ensures same { self.new.entries ≡ self.old.entries }
        ensures room { self.old.room ≤ self.new.room }
    {
        match &mut self.places {
            Places::Few(few) => row(few, i),
            Places::Many(many) => many.nth(i),
        }
    }

    /// The entry with this number, in order of entry, if there are so many. The call walks over the gaps that it finds.
    pub fn read(&self, i: usize) -> Option<(K, V)>
        ensures { result ≡ slice_get self.now.entries i }
    {
        match &self.places {
            Places::Few(few) => few.get(i).copied(),
            Places::Many(many) => many.read(i),
        }
    }

    /// The entries alone, in order.
    pub fn into_rows(self) -> Rows<K, V>
        ensures { result ≡ self.entries }
    {
        let Entries { mut places } = self;
        if let Places::Many(many) = &mut places {
            many.close();
        }
        Rows { places }
    }

    #[inline(always)]
    fn add(&mut self, key: K, value: V)
        requires absent { lookup (K.eq key) self.old.entries ≡ None }
        requires room { 0 < self.old.room }
        ensures { self.new.entries ≡ self.old.entries ++ (key, value) ∷ [] }
    {
        match &mut self.places {
            Places::Few(few) => few.push_reserved((key, value)),
            Places::Many(many) => many.push(key, value),
        }
    }
}

impl<J: PartialEq + Eq + Hash + Copy, K: Eq + Hash + Copy, V: Copy> Entries<(J, K), V> {
    /// Whether a key has this first part.
    pub fn has_first(&self, first: J) -> bool
        ensures { result ≡ list_any (λ k. J.eq first k.0) (keys_of self.now.entries) }
    {
        match &self.places {
            Places::Few(few) => any_first(few, first),
            Places::Many(many) => many.has_first(first),
        }
    }
}

fn place_of<K: Eq + Copy, V: Copy>(few: &[(K, V)], key: &K) -> Option<usize>
    ensures { result ≡ position (λ e. K.eq key.now e.0) few.now }
{
    few.iter().position(|(stored, _)| *key == *stored)
}

fn find<K: Eq + Copy, V: Copy>(few: &[(K, V)], key: &K) -> Option<V>
    ensures { result ≡ lookup (K.eq key.now) few.now }
{
    match place_of(few, key) {
        Some(place) => Some(few[place].1),
        None => None,
    }
}

fn any_first<J: PartialEq + Copy, K: Copy, V: Copy>(few: &[((J, K), V)], first: J) -> bool
    ensures { result ≡ list_any (λ e. J.eq first e.0.0) few.now }
{
    few.iter().any(|(key, _)| first == key.0)
}

/// Sets the value of a key that is there, in its place.
fn write<K: Eq + Copy, V: Copy>(few: &mut Vec<(K, V)>, key: &K, value: V)
    ensures entries { few.new.items ≡ set_value (K.eq key.now) few.old.items value }
    ensures capacity { vec_capacity few.new ≡ vec_capacity few.old }
{
    match place_of(few, key) {
        Some(place) => few[place].1 = value,
        None => {}
    }
}

#[inline(always)]
fn take<K: Eq + Copy, V: Copy>(few: &mut Vec<(K, V)>, key: &K) -> Option<V>
    ensures value { result ≡ lookup (K.eq key.now) few.old.items }
    ensures rest { few.new.items ≡ remove_entry (K.eq key.now) few.old.items }
    ensures capacity { vec_capacity few.new ≡ vec_capacity few.old }
{
    match place_of(few, key) {
        Some(place) => Some(few.remove(place).1),
        None => None,
    }
}

fn row<K: Copy, V: Copy>(few: &mut Vec<(K, V)>, i: usize) -> (K, V)
    requires { i < length few.old.items }
    ensures entry { slice_get few.old.items i ≡ Some result }
    ensures same { few.new ≡ few.old }
{
    few[i]
}

/// The same entries found by hash, with room for one more.
fn widen<K: Eq + Hash + Copy, V: Copy>(few: &Vec<(K, V)>) -> Result<Box<Many<K, V>>, AllocError>
    requires distinct { IsDistinct K.eq (keys_of few.now.items) }
    requires few { length few.now.items ≤ 8 }
    ensures entries { IfOk result (λ many. many.value.entries ≡ few.now.items) }
    ensures room { IfOk result (λ many. 0 < many.value.room) }
{
    let alloc = *few.allocator();
    let mut many = Many::with_room(alloc, FEW + 1)?;
    for (key, value) in few {
        many.push(*key, *value);
    }
    let Ok(many) = Box::new(alloc, many) else {
        return Err(AllocError);
    };
    Ok(many)
}
