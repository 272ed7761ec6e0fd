//! A group, and what its calls return.

use pt_signal::Ref;
use thiserror::Error;

/// A group of processes, by a number to which the program gives a meaning.
#[derive(Clone, Copy, Debug, PartialEq, Eq, Hash)]
pub struct Group(pub u64);

/// Why a process did not join a group. Nothing has changed then.
#[derive(Clone, Copy, Debug, PartialEq, Eq, Error)]
pub enum JoinError {
    /// The process is in the group `u64::MAX` times.
    #[error("the process cannot join the group once more")]
    Full,
    /// There was no memory for one more place.
    #[error("no memory for one more place of a group")]
    Memory,
}

/// What became of a process that left a group.
#[derive(Clone, Copy, Debug, PartialEq, Eq)]
pub enum Left {
    /// It is not in the group. Nothing has changed.
    NotThere,
    /// It is in a group still: in this one, since it joined more often than it left, or in another.
    Stays,
    /// It is in no group any more. This is its monitor, which the caller cancels.
    Last(Ref),
}
