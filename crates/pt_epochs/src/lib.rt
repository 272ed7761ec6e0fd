//! A node that goes on by itself, beside the threads of its program: crews that run until nothing is left to do, epoch
//! behind epoch, desks that rest, and the way in for messages from threads that have no desk.
//!
//! # Until idle, and epochs
//!
//! [`run_until_idle`] runs the crews of a node until no process has anything to do and no letter is in flight, with no
//! number of turns to be guessed. [`run_epochs`] empties the journals from time to time: it gathers and settles the node,
//! hands its history to a [`Sink`], resumes it, and lets the crews begin again. A [`Drive`] says how the crews are run
//! meanwhile, as [`Rounds`] does on the calling thread; [`run_epochs_on_threads`] runs each on a thread of its own. If
//! something fails, a [`Halted`] has the node as it is then, and goes on from there.
//!
//! # Desks that rest, and the way in
//!
//! The workers of a node wake each other by [`Bells`]. A [`RestGate`] lets a worker rest if its desk has nothing to do,
//! and lets every worker continue until [`Bells::stop`]. A [`RestingWork`] is the work that reports to it. A [`Door`] takes
//! messages from a thread without a desk; a [`Porter`] sends them on, as a process of its desk.
//!
//! A [`Clocked`] work takes its steps at the time that a [`TimeSource`] says. A [`TimedGate`] rests no longer than until
//! the next time at which the desk has something to do.
//!
//! Tests: `checks/tried/test_calls/running_on.rt.txt`, `checks/tried/test_calls/resting.rt.txt`,
//! `checks/tried/test_calls/timed_rests.rt.txt` and `crates/test_stress`.
//!
//! # What is proved
//!
//! - **Until idle.** `run_until_idle` ends with `Idle` exactly if nothing is left to do, behind the first look at which it
//!   is so. What was done is runs of the crews, each followed by turns until the node is still. (`RunsUntilIdle`)
//! - **Ends of epochs.** An epoch ends as its plan says: with the first look at which nothing is left to do or a journal
//!   is too long, if nobody asks before. (`RunsToPause`)
//! - **On threads.** What the crews do is turns of each, as in a run of the node. Behind the first turn before a look, none
//!   begins on a desk whose journal is too long. (`AllWorkLet`, `lets_short`)
//! - **Each history once.** The sink takes the settled history of each epoch, once and in order. (`EndsEpoch`)
//! - **One history.** All that the sink took is one legal history, with what the node went on from before it. No letter
//!   is in flight at its end. (`PassesAsOne`)
//! - **No lost wake-up.** Crews that attend the desks of the node attend those of the node that comes back. (`attends`)
//! - **The last epoch.** A run of epochs ends behind the first that ends it, and not later. (`EndsRun`)
//! - **Halts.** If an epoch halts, what was done stays, the node comes back, and `Halted::go_on` does the rest.
//!   (`HaltsRun`, `GoesOnAs`)
//! - **The way in.** The messages that a `Porter` took out, followed by those that wait, are the messages handed in at its
//!   `Door`: in order, each once. A message that it took was sent, once and in order, or its receiver was seen to have
//!   exited or is not known. (`meet`, `Brings`)
//! - **How many.** A step sends on at most as many as asked for, and fewer only if it knows of no more or sending the
//!   next one fails. (`few`, `keeps`)
//! - **Refusals.** A message that could not be sent for want of memory or stamps stays in front.
//! - **Doors.** `Door::post` fails only if the door knows of no free place. `way_in` makes as many places as asked for,
//!   at the desk of the process that sends on.
//! - **Work left.** A crew has work exactly while a process is queued or waits to enter; a porter also while it knows
//!   of a message. (`busy`)
//! - **The work within.** A `RestingWork` does what its work does. A `Clocked` work sets its work's time to one that its
//!   source says, and does what that does then. (`says`)
//! - **Next time.** A crew that attends its desk has no process outside its queue that waits until an earlier time than
//!   the one it tells. (`next`)
#![tactic(auto)]

mod bells;
mod board;
mod call;
mod door;
mod drive;
mod ending;
mod epochs;
mod gate;
mod halted;
mod idle;
mod on_threads;
mod resting;
mod sink;
mod timed;
mod watched;
mod workers;

pub use bells::Bells;
pub use call::Call;
pub use door::{Door, Porter, Post, way_in};
pub use drive::{Drive, Rounds};
pub use ending::end_epoch;
pub use epochs::{Outcome, Pause, Plan, run_epochs};
pub use gate::{RestGate, TimedGate};
pub use halted::Halted;
pub use idle::{Ended, none_has_work, run_until_idle};
pub use on_threads::run_epochs_on_threads;
pub use pt_behaviour::Behaviour;
pub use pt_crew::Crew;
pub use pt_events::Stamped;
pub use pt_node::{Node, RunFault, Stopped};
pub use resting::{RestingWork, Rests};
pub use sink::{Refused, Sink};
pub use timed::{Clocked, TimeSource, Timed};
