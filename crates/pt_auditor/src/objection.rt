//! Why something may not come at its place in a history.

use crate::NoNode;
use pt_events::Stamped;
use pt_judge::Cause;
use pt_signal::{Item, Pid, Reason, Signal};

/// What an event contradicts that may not come next.
#[derive(Clone, Copy, Debug, PartialEq, Eq)]
pub enum Contradiction {
    /// The oldest signal in flight from the sender to the receiver, if there is one.
    Oldest(Option<Signal>),
    /// The first waiting item that matches the pick, if there is one.
    First(Option<Item>),
    /// A process that is not alive, and why it exited. Without a reason it was never spawned.
    Dead(Pid, Option<Reason>),
    /// Nothing beside what the cause says.
    Nothing,
}

/// Why an event, or a letter left over, may not come at its place.
#[derive(Clone, Copy, Debug, PartialEq, Eq)]
pub enum Objection {
    /// An event comes after a letter left over.
    Behind,
    /// The stamp, or the desk if the stamps are the same, is not above that of the event before, which this names.
    Sinks(Stamped),
    /// The event may not come next, for the lowest cause that holds.
    MayNot(Cause, Contradiction),
    /// The desks of a letter left over are not those of its sender and its receiver.
    OtherDesks,
    /// A letter left over is not the oldest in flight between the two that no line has named. This names that one, if
    /// there is one.
    OtherLetter(Option<Signal>),
    /// A signal is in flight, from the first to the second, and no line names it.
    Untold(Pid, Pid, Signal),
    /// A hearing that went on from a rest of at least one event reads an event that no node prints, and knows no older ids
    /// and references. This says why none prints it.
    OfNoNode(NoNode),
    /// There was no memory to judge an event that may come next.
    Memory,
}
