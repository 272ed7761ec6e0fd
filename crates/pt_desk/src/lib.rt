//! One desk of a node: a shard of an Erlang-style process table with its ends of the lanes.
//!
//! A [`Desk`] is a `Shard` of `pt_shard` (processes, clock, journal, outbox and hold) with ends of `pt_carrier`. By
//! these it posts to each desk of the node and collects from each. The owner of the desk makes the calls of its
//! processes, one after the other, and gives the desk its turns. A desk is used by one thread at a time, through
//! `&mut`; desks of one node may be used by different threads at the same time.
//!
//! A process monitors another, and gets its `DOWN`:
//!
//! ```text
//! let watcher = desk.spawn()?;
//! let worker = desk.spawn()?;
//! let monitor = desk.monitor(watcher, worker)?;
//! let _ = desk.turn(16); // the monitor arrives at the worker
//! desk.exit(worker, Reason::Other(7))?;
//! let _ = desk.turn(16); // its DOWN arrives at the watcher
//! desk.receive(watcher, Pick::DownOf(monitor))
//! ```
//!
//! # Calls and turns
//!
//! A call writes at most one event into the desk's journal. What the event sends waits in the outbox, as letters with
//! the event's stamp. A [`turn`](Desk::turn) posts them into the lanes to their receivers' desks; the desk has a lane
//! to itself, too. A turn then handles letters: the one in the hold first, then those that the lanes show. If an
//! arrival causes signals, as the DOWNs of a process that it makes exit, they are sent as letters too.
//!
//! # A full lane, and a letter that cannot be handled
//!
//! If its lane is full, a letter stays in the outbox with those after it, and the next turn resumes with it. Letters to
//! other desks are not held up. All memory that the receipt of a letter needs is taken before anything changes. If
//! there is none, or the receipt's stamp would pass the limit of clocks, the letter stays in the hold. The turn stops
//! and says why, and the next turn begins with that letter. So between two processes letters keep their order, none is
//! lost, and none arrives twice.
//!
//! # Failures
//!
//! A call fails with a `Fault`. If several are possible, it is the first of these:
//!
//! - `Gone`: the acting process is not alive here.
//! - `Myself`: the monitor would be one of itself.
//! - `NoProc`: the desk sees that the other process has exited.
//! - `Worn`: the call has an event to write, and the clock is at 2^62.
//! - `Full`: no slot is free for a new process.
//! - `Memory`: the call has an event to write, and there is no memory for it.
//!
//! The desk is then exactly as it was, except for what a look leaves. The journal notes a call that failed with
//! `NoProc`. A call that failed with `Worn` or `Memory` after a look leaves what the look has read. A call that has no
//! event to write takes no memory and needs no clock. A target must be one that the desk `knows`: a pid that was issued
//! here, exited or alive, or any pid in range of another desk.
//!
//! # Exited processes
//!
//! The desks of a node share a directory of `pt_directory`. Each exit on a desk is reported there before the call, or
//! the turn, that caused it returns. `send`, `link` and `monitor` look there first, if they have something to send.
//! They always see an exited process of the same desk, and one that was seen before. When they see others is not
//! promised. The note of a call that failed so is stamped above the exit that was seen, so it comes after that exit in
//! the node's one history.
//!
//! # What is lost
//!
//! If `keep_losses` asked for it, a desk keeps what nobody will ever take, and `next_loss` tells each loss once, in the
//! order in which they happened: what waited in the mailbox of a process as it exited, with the reason of the exit, and
//! each message that came to a process that was not alive. What was not told takes memory.
//!
//! # A desk is used up, not dropped
//!
//! A program that drops a `Desk` does not compile. [`Desk::apart`] takes it into its parts, and a node brings their
//! ends together again. [`Desk::whole`] is the reverse.
//!
//! # Cost
//!
//! A call costs what the shard's call costs. A turn costs time for the letters that it posts and handles, with the
//! exits that they cause, and for one look at each desk's queue. A desk that is alone in its node handles its letters
//! to itself where they wait: they count as posted and as collected, and are not moved. No call takes a lock or waits for another thread. It
//! allocates only for the events and letters that it writes.
//!
//! Tests: `checks/tried/test_calls/desk.rt.txt`, `checks/tried/test_calls/called.rt.txt` and `checks/rows`.
//!
//! # What is proved
//!
//! - **Calls.** A desk's calls are those of its shard, and the ends of its lanes stay.
//! - **Refused as exited.** `send`, `link` and `monitor` fail with `NoProc` exactly if the desk's look shows an exit.
//!   The note is stamped above the exit. (`Reaches`)
//! - **A desk's own exits.** The look always shows an exited process of its own desk, and one that this desk saw
//!   before.
//! - **The directory.** It gets each exit of the journal, and no other. (`IsSeated`)
//! - **Turns.** `turn` posts what each lane takes, then handles at most `budget` letters, each as `handle` says, with
//!   exact counts. (`Turns`)
//! - **Losses.** While they are kept, those told and those kept are what the journal lost. (`AddsLosses` and `AreLosses`
//!   of `pt_shard`)
//! - **Accounts.** For each desk, the letters that the journal sends there are those posted, then those waiting. The
//!   letters collected from it are those received, then the one in the hold.
//! - **Both ends.** `meet` has two desks look at a lane from both ends, and changes nothing else.
//!
//! # For proofs above
//!
//! A contract sees a desk as the `DeskState` of `specs/DeskState`. `IsDesk` holds for every desk, and [`Desk::journal`]
//! states it. What was sent to each desk was posted there or waits. What was collected from each was received or is in
//! the hold. `GoesOn` is on every call: number, settings and node stay, the journal begins with the one before, and
//! what was read of the directory stays. `specs/Turns` says what a turn does, and `specs/Reaching` what a look does.
//! `specs/Sight` says what holds for the desk's seat: `seat_of` says that it has reported the exits of the journal, and
//! [`Desk::apart`] returns it so.
#![tactic(auto)]

mod desk;
mod turned;

pub use desk::Desk;
pub use turned::Turned;
