//! A desk without its lanes: one shard of an Erlang-style process table, with its processes, its clock and journal,
//! and the letters that wait in it.
//!
//! A process has a mailbox, links, monitors and a `trap_exit` flag, as the Erlang Reference Manual (OTP 27, chapter
//! Processes) describes them. It runs no code of its own: the owner of the shard makes its calls for it, one after the
//! other.
//!
//! ```
//! let mut shard = Shard::new(alloc, config, 0)?;
//! let watcher = shard.spawn()?;
//! let worker = shard.spawn()?;
//! if shard.knows(worker) {
//!     let watch = shard.monitor(watcher, worker)?;
//!     while let Some(letter) = shard.next_out(0) {  // what it sends to pids of its own
//!         shard.handle(letter)?;
//!     }
//! }
//! ```
//!
//! # Calls and letters
//!
//! A call writes at most one event into the journal, stamped one above the clock. What the event sends waits as
//! letters, each with the event's stamp, in the outbox. It has one queue for each receiving desk. `next_out` takes a
//! letter out; `letters_for` shows the queue as one slice, and `pass_out` removes from it. `handle` delivers one letter
//! to its receiver, and `handle_in_place` one that stays in its place. If the receipt causes signals, as the DOWNs of a
//! process that it makes exit, they wait in the outbox too. A letter that was taken from a lane and cannot be handled
//! yet is in the hold.
//!
//! # Pids
//!
//! A pid is (shard, slot, version). The slot of an exited process is used again under the next version, so an old pid
//! never reaches the process that later has its slot. If the slot's process had the top version, the slot is retired.
//! The calls with a target take a pid that the shard `knows`. That is a pid that was issued here, exited or alive, or
//! any pid in range of another desk of the node. A pid that is known stays known, and a pid that a desk issues is known
//! there at once. This takes no memory for exited processes.
//!
//! # Failures
//!
//! A call fails with a `Fault`, and the shard is then exactly as it was. If several are possible, it is the first of
//! these:
//!
//! - `Gone`: the acting process is not alive here.
//! - `Myself`: the monitor would be one of itself.
//! - `Worn`: the call has an event to write, and the clock is at 2^62.
//! - `Full`: no slot is free for a new process.
//! - `Memory`: the call has an event to write, and there is no memory for it.
//!
//! A call that has no event to write takes no memory and needs no clock. Only [`Shard::refuse`] returns `NoProc`. It
//! notes a call that the desk does not make, since it sees that the other process has exited.
//!
//! # Cost
//!
//! `send`, `trap`, `link`, `unlink`, `monitor`, `demonitor`, `ask_alive`, `spawn` and the readers except `pending` take
//! constant time, on average if a vector or a table has to grow. `receive` costs what it looks at, so the first item is
//! O(1). A `demonitor` that looks for a DOWN to flush is such a receive. `exit` costs time for the links, watchers and
//! open monitors of the process, and makes room for just what it owes, in the right queues. So does a receipt by which
//! its receiver exits. `pending` looks at each desk's queue once. Nothing grows with the journal or with the number of
//! processes.
//!
//! Tests: `checks/tried/test_calls/shard.rt.txt`, `checks/rows/messages.txt`, `checks/rows/links.txt`,
//! `checks/rows/monitors.txt` and `checks/rows/exits.txt`.
//!
//! # What is proved
//!
//! - **Calls.** Each call returns exactly what its relation says, and a failed call changes nothing. (`Calls`)
//! - **The journal.** A call's journal begins with the one before, and is a lawful journal of its desk. (`Fit`)
//! - **Processes.** Each live process is what the journal gives. `process` lends a process that is alive here, and no
//!   other.
//! - **Letters.** What an event sends waits in the outbox. `handle` and `handle_in_place` are one receipt.
//! - **Pids.** A pid once known stays known, to its desk and to the others. (`Known`)
//! - **Full.** `spawn` fails with `Full` exactly if each slot has a live process or has used its top version.
//!   (`IsNextBirth`)
//! - **Losses.** A shard that is asked to keeps what it loses until it is told: what waited in the mailbox of a process
//!   as it exited, with its reason, and each message that came to a process that was not alive. (`AreLosses`,
//!   `AddsLosses`)
//! - **Resuming.** `restart` empties the journal over the state that it leaves. Each process is what it was.
//! - **Forgetting reasons.** After `forget_reasons` each process is what it was, but the reason of each exited one is
//!   `noproc`. (`forgetful`)
#![tactic(auto)]

mod acts;
mod fault;
mod laws;
mod ledger;
mod letters;
mod loss;
mod losses;
mod origin;
mod processes;
mod shard;
mod stop;

pub use fault::Fault;
pub use laws::{known_to_others, leaves_each, losses_are_kept, what_is_lost};
pub use loss::Loss;
pub use pt_signal::{
    Config, MAX_DESKS, MAX_LANE, MAX_SLOTS, MAX_STAMP, OpenError, Setting, defaults_stand,
    limits_stand,
};
pub use shard::Shard;
pub use stop::Stop;
