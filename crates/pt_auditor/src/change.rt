//! The changes that an event makes.

use pt_signal::{Ids, Item, Pid, Reason, Ref, Signal};

/// What an event changed of one process.
#[derive(Clone, Copy, Debug, PartialEq, Eq)]
pub enum Change {
    /// It was born.
    Born,
    /// It exited. What it held stays known.
    End(Reason),
    /// Its `trap_exit` flag is this now.
    Trap(bool),
    /// The item came into its mailbox, behind all others.
    Queue(Item),
    /// The item at this place of its mailbox was taken, counted from 0.
    Take(usize),
    /// It is linked with the process, under these ids now.
    Link(Pid, Ids),
    /// It is linked with the process no more.
    Unlink(Pid),
    /// It monitors the process under the reference.
    Watch(Ref, Pid),
    /// It monitors the process under the reference no more.
    Unwatch(Ref, Pid),
    /// The process monitors it under the reference.
    Watched(Ref, Pid),
    /// The process monitors it under the reference no more.
    Unwatched(Ref, Pid),
    /// It sent the signal to the process: at its exit, or as an answer. What `said` sends is the event itself.
    Send(Pid, Signal),
}

/// A change, and the process that it is of.
#[derive(Clone, Copy, Debug, PartialEq, Eq)]
pub struct Did {
    pub of: Pid,
    pub change: Change,
}
