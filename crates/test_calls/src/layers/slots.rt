//! `pt_slots`: a slot that is retired, and the order of keys.

use crate::compared::{holds, same};
use pt_slots::{Key, Slots};

/// The first key of the only slot.
const FIRST: Key = Key {
    slot: 0,
    version: 1,
};

#[test]
fn a_slot_is_retired(rt: HostRuntime) {
    let mut slots: Slots<u32> = Slots::new(rt.alloc(), 1, 1).expect(&rt, "memory");
    same(&rt, slots.insert(7).ok(), Some(FIRST));
    same(&rt, slots.retired(), 0);
    same(&rt, slots.remove(FIRST), Some(7));
    same(&rt, slots.retired(), 1);
}

#[test]
fn keys_are_ordered_by_slot(rt: HostRuntime) {
    let later = Key {
        version: 9,
        ..FIRST
    };
    holds(&rt, FIRST < later);
    holds(&rt, later < Key { slot: 1, ..FIRST });
}
