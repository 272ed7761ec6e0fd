//! Values under keys that are never issued twice: a generational slot map.
//!
//! `Slots<T>` keeps values in numbered slots. `insert` gives a `Key`, the slot and a version, and the
//! key finds its value until the value is removed. A slot is used again with the next version, so a key
//! that was kept too long finds nothing, whatever its slot holds by then.
//!
//! ```
//! let mut sessions: Slots<String> = Slots::new(alloc, 1000, u32::MAX)?;
//! let ann = sessions.insert(format!(in alloc; "Ann")?)?;
//! assert_eq!(rt; sessions.get(ann).map(|name| name.as_str()), Some("Ann"));
//!
//! sessions.remove(ann);
//! let bob = sessions.insert(format!(in alloc; "Bob")?)?;
//! assert_eq!(rt; bob.slot, ann.slot);
//! assert_eq!(rt; sessions.contains(ann), false);
//! ```
//!
//! # Coming from the `slotmap` crate
//!
//! - **Versions do not wrap round.** A slot issues the versions 1, 2, 3 and so on up to the top version
//!   that `new` is given. When the value under the top version is removed, the slot is *retired*: it is
//!   never used again. So an old key is dead for ever, and not only for some billions of insertions.
//!   `retired` counts such slots, and `issued` tells how far a slot has come.
//! - **The number of slots is bounded.** `insert` answers `Full` where every slot is taken or retired. It
//!   then hands the value back, as it does where there is no memory; nothing has changed in either case.
//! - **Want of memory is an answer.** `insert` alone takes memory. What `remove`, `get` and the others
//!   need was made ready by it.
//! - **`next` tells the key that `insert` will give**, for a value that has to know its own key; it is
//!   what `insert_with_key` is for there. A slot that was just freed is the next one used.
//! - A `Key` is a plain pair of numbers, equal and ordered by them. It does not know its map or the type
//!   of its value, and there is no null key. There is no iterator, and there are no secondary maps.
//!
//! # Cost
//!
//! Every call takes constant time; `insert` does so on average, since the storage doubles where it has
//! to grow. Beside a value and the `slab`'s own mark, a slot costs four bytes for its version and the
//! tag of an `Option`, which marks a retired slot: with both marks a `u64` takes 24 bytes, where a plain
//! slab takes 16. The storage grows with the slots that are used, not with `capacity`.
//!
//! A look-up reads the version first, so an old key never touches the storage of the values. Beside a
//! plain slab with a vector of versions, at `u64` values, filling and old keys cost the same at 1,000
//! slots, and `get` a quarter more, which is the test of the `Option`. At 65,000 slots `get` and removals
//! with insertions cost a tenth to a quarter more, for the wider entries. The README has the figures.
//!
//! Tests: `checks/tried/test_calls/slots.rt.txt` and `crates/test_calls/src/layers/slots.rt`.
//!
//! # What is proved
//!
//! - **Keys are unique.** `insert` gives the version after the slot's latest one, so no key is issued twice.
//! - **Old keys stay dead.** A key whose value was removed finds nothing, for ever.
//! - **Retirement.** A slot whose top version was removed is never used again.
//! - **Full.** `insert` fails with `Full` exactly if each slot is taken or retired, and hands the value back.
//! - **The next key.** `next` returns the key that `insert` will give, and `None` exactly if each slot is taken or
//!   retired. A slot just freed is next.
#![tactic(auto)]

ghost use Rattle.std.specs.Prelude.{◌≡◌, ℕ, ◌<◌, ◌≤◌, ◌^◌, Some, IsSome, OnSome, IsOkAnd, OnOk, OnErr, is_some};
ghost use Rattle.std.specs.Prelude.{option_copied, count_by, slice_index_or, vec_len};
ghost use Rattle.std.specs.Option.{option_copied_mut};
ghost use Rattle.std.specs.Borrow.{Lends, sem};
ghost use Rattle.std.specs.Option.Follows.{option_follows_value};
ghost use Rattle.pt_slots.specs.State.{at, issued, live_count, retired_count, first_free, free_slot, next_key};
ghost use Rattle.pt_slots.specs.State.{with_value};
ghost use Rattle.pt_slots.specs.Taken.{taken_slots};
ghost use Rattle.pt_slots.specs.Offers.{OffersTheFree};
ghost use Rattle.pt_slots.specs.Calls.{IsEmpty, Inserts, Removes, Written};
ghost use Rattle.pt_slots.specs.Grows.{Grows};

use slab::Slab;
use std::alloc::{AllocError, Global};
use std::cmp::Ordering;
use std::marker::Model;
use std::mem;
use thiserror::Error;

/// The greatest number of slots.
pub const MAX_CAPACITY: u32 = 16_777_216;

/// There are at most 16,777,216 slots: the definitions cite this limit by its name alone.
///
/// It does nothing: the law is its contract.
pub fn limits_stand()
    ensures { MAX_CAPACITY ≡ 16777216 }
{}

/// The name of one value: a slot, and the version under which the slot was issued.
///
/// Keys are equal by their fields, and ordered by slot, then version. A key of any numbers may be asked for.
#[derive(Clone, Copy, Debug, PartialEq, Eq, Hash)]
pub struct Key {
    /// The slot, from 0 on.
    pub slot: u32,
    /// How often the slot had been issued then, from 1 on.
    pub version: u32,
}

impl Ord for Key {
    ghost use Rattle.std.proofs.Common.{rules};
    ghost use Rattle.std.specs.Cmp.Rules.{comparing};
    ghost use Rattle.pt_slots.specs.Keys.{key_order};

    ghost cmp = { key_order };

    ghost total = { Prim.search (comparing, rules) };

    ghost matches_partial_cmp = { Prim.search (comparing, rules) };

    ghost matches_eq = { Prim.search (comparing, rules) };

    fn cmp(&self, other: &Key) -> Ordering {
        let by_slot = self.slot.cmp(&other.slot);
        by_slot.then(self.version.cmp(&other.version))
    }
}

impl PartialOrd for Key {
    ghost use Rattle.std.proofs.Common.{rules};
    ghost use Rattle.std.specs.Cmp.{partial_order_from_own_ties};
    ghost use Rattle.std.specs.Cmp.Rules.{comparing};
    ghost use Rattle.std.specs.Ordering.{as_partial_cmp};
    ghost use Rattle.pt_slots.specs.Keys.{key_order};

    ghost partial_cmp = { as_partial_cmp key_order };

    ghost laws = { partial_order_from_own_ties (Prim.search (comparing, rules)) (Prim.search (comparing, rules)) };

    fn partial_cmp(&self, other: &Key) -> Option<Ordering> {
        Some(self.cmp(other))
    }
}

/// Why `insert` refused a value, which it hands back.
#[derive(Debug, PartialEq, Eq, Drop, Error)]
pub enum InsertError<T> {
    /// Every slot is taken or retired.
    #[error("every slot is taken or retired")]
    Full(T),
    /// There was no memory to store one more value.
    #[error("no memory to store one more value")]
    Memory(T),
}

/// What `grow` did: made room, or found every slot taken or retired, or found no memory.
enum Growth {
    Ready,
    Full,
    Memory,
}

/// Values of one type, each under a key that is never issued again.
///
/// See the page of this crate for an example, and for what differs from the `slotmap` crate.
#[derive(Drop)]
pub struct Slots<T> {
    /// A retired slot stays occupied, by `None`, so that the slab does not offer it again.
    entries: Slab<Option<T>>,
    /// The latest version that each slot has issued.
    versions: Vec<u32>,
    capacity: u32,
    top_version: u32,
    retired: u32,
}

impl<T> Model for Slots<T> {
    ghost use Rattle.pt_slots.specs.State.{SlotsState, state};
    ghost use Rattle.pt_slots.specs.Sound.{IsSound};

    ghost Value = { SlotsState T };

    ghost view = { λ s. state s.entries s.versions.items s.capacity s.top_version };

    ghost invariant = { λ s.
        IsSound (state s.entries s.versions.items s.capacity s.top_version) s.retired s.entries.capacity };
}

/// The value of a slot that has one.
fn value_mut<T>(entry: &mut Option<T>) -> &mut T
    requires { IsSome entry.old }
    ensures* writes_back { sem 𝓛 (option_follows_value T.row entry.entry result) }
    ensures value { entry.old ≡ Some result.now }
{
    match entry {
        Some(value) => value,
        None => unreachable!(),
    }
}

/// Gives each of so many slots a version to count up from. The slab grows by doubling, so this seldom
/// has anything to do.
fn make_room(versions: &mut Vec<u32>, slots: usize) -> Result<(), AllocError>
    ensures room { OnOk result (slots ≤ vec_len versions.new) }
    ensures never_shrinks { OnOk result (vec_len versions.old ≤ vec_len versions.new) }
    ensures no_more { OnOk result ((n : ℕ) → vec_len versions.old ≤ n → slots ≤ n → vec_len versions.new ≤ n) }
    ensures kept { (k : ℕ) → slice_index_or versions.new.items k 0 ≡ slice_index_or versions.old.items k 0 }
    ensures err { OnErr result (versions.new.items ≡ versions.old.items) }
{
    if slots <= versions.len() {
        return Ok(());
    }
    versions.resize(slots, 0)
}

impl<T> Slots<T> {
    ghost use Rattle.pt_slots.specs.Lends.{lends_get, lends_value};

    /// No values, and `capacity` slots that issue the versions 1 to `top_version` each.
    ///
    /// `capacity` is at most `MAX_CAPACITY`. No memory is taken yet, so the answer is always `Ok`.
    pub fn new(alloc: Global, capacity: u32, top_version: u32) -> Result<Self, AllocError>
        requires some_capacity { 0 < capacity }
        requires capacity { capacity ≤ MAX_CAPACITY }
        requires top_version { 0 < top_version }
        ensures { IsOkAnd result (IsEmpty capacity top_version) }
    {
        Ok(Slots {
            entries: Slab::new(alloc),
            versions: Vec::new(alloc),
            capacity,
            top_version,
            retired: 0,
        })
    }

    /// How many values are live.
    pub fn len(&self) -> u32
        ensures count { result ≡ live_count self.now }
        ensures slots { result ≡ taken_slots self.now }
    {
        self.entries.len() as u32 - self.retired
    }

    /// How many slots are retired: their value had the top version, and it was removed.
    #[tactic(auto, unfolding(crate::specs::State::retired_count))]
    pub fn retired(&self) -> u32
        ensures { result ≡ retired_count self.now }
    {
        self.retired
    }

    /// How many slots there are. No other slot has issued a version.
    pub fn capacity(&self) -> u32
        ensures capacity { result ≡ self.now.capacity }
        ensures beyond { (slot : ℕ) → self.now.capacity ≤ slot → issued self.now slot ≡ 0 }
    {
        self.capacity
    }

    /// The latest version that a slot has issued, or 0 where it has issued none. It never falls.
    #[tactic(auto, unfolding(crate::specs::State::issued))]
    #[inline]
    pub fn issued(&self, slot: u32) -> u32
        ensures { result ≡ issued self.now slot }
    {
        self.versions.get(slot as usize).copied().unwrap_or(0)
    }

    /// The key that the next `insert` gives, or `None` exactly where it would answer `Full`.
    pub fn next(&self) -> Option<Key>
        ensures key { result ≡ next_key self.now }
        ensures offers { OffersTheFree self.now }
    {
        if self.entries.len() == self.capacity as usize {
            return None;
        }
        let slot = self.free_slot();
        Some(Key {
            slot,
            version: self.issued(slot) + 1,
        })
    }

    /// The free slot that is used next.
    fn free_slot(&self) -> u32
        requires { count_by is_some self.now.slots < self.now.capacity }
        ensures { result ≡ free_slot self.now }
    {
        let vacant = self.entries.vacant_key();
        if vacant < self.capacity as usize {
            vacant as u32
        } else {
            self.first_free()
        }
    }

    /// The first free slot. A slab offers the slot that was freed last, or else the one behind those in use, but its
    /// contract leaves open which: so there is an answer of its own for a slot past the capacity.
    #[cold]
    #[inline(never)]
    fn first_free(&self) -> u32
        requires { count_by is_some self.now.slots < self.now.capacity }
        ensures { result ≡ first_free self.now.slots }
    {
        for slot in 0..self.capacity {
            if !self.entries.contains(slot as usize) {
                return slot;
            }
        }
        unreachable!()
    }

    /// Stores a value under a key that was never issued before.
    ///
    /// Where it cannot, it hands the value back and changes nothing: `Full` exactly where every slot is taken or
    /// retired, and else `Memory` where the storage cannot grow.
    #[inline]
    pub fn insert(&mut self, value: T) -> Result<Key, InsertError<T>>
        ensures cases { Inserts value self.old result self.new }
        ensures never_falls { (slot : ℕ) → issued self.old slot ≤ issued self.new slot }
    {
        match self.ready() {
            Growth::Ready => {}
            Growth::Full => return Err(InsertError::Full(value)),
            Growth::Memory => return Err(InsertError::Memory(value)),
        }
        let slot = self.entries.insert_reserved(Some(value));
        let version = self.versions[slot] + 1;
        self.versions[slot] = version;
        Ok(Key {
            slot: slot as u32,
            version,
        })
    }

    /// Sees to it that the slot that is offered can take a value. A slot that has a version also has its
    /// place in the slab, and is below the capacity.
    #[inline]
    fn ready(&mut self) -> Growth
        ensures { Grows self.old result self.new }
    {
        if self.entries.vacant_key() < self.versions.len() {
            Growth::Ready
        } else {
            self.grow()
        }
    }

    /// Makes room for the slot that is offered, which was never used. It takes no value and answers in a
    /// register, so that `insert` keeps nothing in memory.
    #[cold]
    #[inline(never)]
    fn grow(&mut self) -> Growth
        ensures { Grows self.old result self.new }
    {
        if self.next().is_none() {
            return Growth::Full;
        }
        if self.entries.reserve(1).is_err() {
            return Growth::Memory;
        }
        let slots = self.entries.capacity().min(self.capacity as usize);
        // The slab says of a key only once it is given out that there is room for it, and nowhere that it is below the
        // capacity.
        if self.entries.vacant_key() >= slots {
            return Growth::Memory;
        }
        if make_room(&mut self.versions, slots).is_err() {
            return Growth::Memory;
        }
        Growth::Ready
    }

    /// Takes out the value under `key`, or answers `None` where the key is not live.
    ///
    /// The slot is then the next one used, with its next version, or under the top version it is retired.
    #[tactic(auto, unfolding(crate::specs::State::at, crate::specs::State::issued))]
    #[inline]
    pub fn remove(&mut self, key: Key) -> Option<T>
        ensures { Removes key self.old result self.new }
    {
        let slot = key.slot as usize;
        if *self.versions.get(slot)? != key.version {
            return None;
        }
        if key.version >= self.top_version {
            return self.remove_last(key);
        }
        match self.entries.try_remove(slot)? {
            Some(value) => Some(value),
            None => unreachable!(),
        }
    }

    /// `remove` for the top version of a slot, which it retires.
    #[cold]
    #[inline(never)]
    fn remove_last(&mut self, key: Key) -> Option<T>
        requires { self.old.top_version ≤ key.version }
        ensures { Removes key self.old result self.new }
    {
        if !self.contains(key) {
            return None;
        }
        self.retired += 1;
        mem::replace(&mut self.entries[key.slot as usize], None)
    }

    /// The value under `key`, or `None` where the key is not live.
    #[tactic(auto, unfolding(crate::specs::State::at, crate::specs::State::issued))]
    #[inline]
    pub fn get(&self, key: Key) -> Option<&T>
        ensures { option_copied result ≡ at self.now key.slot key.version }
    {
        if *self.versions.get(key.slot as usize)? != key.version {
            return None;
        }
        self.entries.get(key.slot as usize)?.as_ref()
    }

    /// The value under `key` for writing, or `None` where the key is not live.
    pub fn get_mut(&mut self, key: Key) -> Option<&mut T>
        ensures* writes_back { sem 𝓛 (lends_get T.row self.entry key result) }
        ensures value { option_copied_mut result ≡ at self.old key.slot key.version }
        ensures written { OnSome result ((value : T) → Written key value self.old (with_value self.old key value)) }
    {
        if self.contains(key) {
            Some(self.value_mut(key))
        } else {
            None
        }
    }

    fn value_mut(&mut self, key: Key) -> &mut T
        requires { IsSome (at self.old key.slot key.version) }
        ensures* writes_back { sem 𝓛 (lends_value T.row self.entry key result) }
        ensures value { at self.old key.slot key.version ≡ Some result.now }
    {
        value_mut(&mut self.entries[key.slot as usize])
    }

    /// Whether `key` is live.
    pub fn contains(&self, key: Key) -> bool
        ensures { result ≡ is_some (at self.now key.slot key.version) }
    {
        self.get(key).is_some()
    }
}
