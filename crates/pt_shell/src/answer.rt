//! The answers of calls.

use pt_accounts::Account;
use pt_desk::Turned;
use pt_events::Stamped;
use pt_gathered::LeftOver;
use pt_judge::Cause;
use pt_node::{NodeFault, Rested};
use pt_shard::{OpenError, Stop};
use pt_signal::{Ids, Item, Pid, Reason, Ref};

/// The answers of calls.
#[derive(Drop)]
pub enum Answer {
    Opened(Result<(), OpenError>),
    Made(Result<Pid, NodeFault>),
    Done(Result<(), NodeFault>),
    Named(Result<Ref, NodeFault>),
    Told(Result<bool, NodeFault>),
    Taken(Result<Option<Item>, NodeFault>),
    Turned(Result<Turned, NodeFault>),
    Rested(Rested),
    /// A number, or that the node has no such desk.
    Number(Option<u64>),
    /// True or false, or that the node has no such desk.
    Truth(Option<bool>),
    Pid(Option<Pid>),
    Ids(Option<Ids>),
    Reason(Option<Reason>),
    Event(Option<Stamped>),
    Account(Option<Account>),
    /// The items of a mailbox, or that the process is not alive.
    Items(Option<Vec<Item>>),
    Events(Vec<Stamped>),
    Letters(Vec<LeftOver>),
    Pids(Vec<Pid>),
    /// The number of letters left over.
    LeftOver(u64),
    /// The number of letters handled, or why settling stopped.
    Handled(Result<u64, Stop>),
    /// That a history is legal, or the first event that may not come next, and why.
    Judged(Result<(), (u64, Cause)>),
    Resumed,
    /// The node has no such desk.
    Unknown,
    /// There was no memory for the answer, or for the call.
    NoMemory,
}
