//! What a seat knows. These types are read by proofs alone: no value of them but a `Shape` is made.

use std::collections::LinkedList;

/// How many desks a directory is for, and how many slots each has.
#[derive(Clone, Copy)]
pub struct Shape {
    /// How many desks.
    pub desks: u64,
    /// How many slots each of them has.
    pub slots: u64,
}

/// A look at a slot.
pub struct Read {
    /// The desk of the slot.
    pub shard: u64,
    /// The slot.
    pub slot: u64,
    /// The version that was found to have ended, 0 for none.
    pub version: u64,
    /// What the death word said, where it was read too.
    pub stamp: Option<u64>,
}

/// The death of a process.
pub struct Death {
    /// The desk of its pid.
    pub shard: u64,
    /// The slot of its pid.
    pub slot: u64,
    /// The version of its pid.
    pub version: u64,
    /// The stamp of the event by which it ended.
    pub stamp: u64,
}

/// All that a seat knows; each list has the oldest first.
pub struct View {
    /// The desks whose home it is: it alone tells of their deaths.
    pub homes: LinkedList<u64>,
    /// What it read.
    pub reads: LinkedList<Read>,
    /// The deaths that it told whole.
    pub deaths: LinkedList<Death>,
    /// The death whose stamp it has told and whose version it has not, if there is one.
    pub begun: LinkedList<Death>,
    /// The deaths that it had told when it was marked last.
    pub marked: LinkedList<Death>,
}
