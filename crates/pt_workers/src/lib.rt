//! Workers: what runs the desks of a node, in turns, on threads or in rounds on one thread.
//!
//! [`run`] gives each desk a worker on a thread of its own, and [`run_single`] does the same turns on the calling thread.
//! What a worker does is a [`Work`], and a [`Gate`] is asked before each of its turns. [`assign`] pairs desks and work
//! before a run, and [`release`] parts them afterwards. [`until_still`] turns desks until nothing waits in them.
//! `pt_node` passes all of it on.
//!
//! Tests: `checks/tried/test_calls/workers.rt.txt`, `checks/tried/test_calls/works.rt.txt`,
//! `checks/tried/test_calls/idle.rt.txt` and `crates/test_stress`.
//!
//! # What is proved
//!
//! - **Running.** `run` and `run_single` return all desks, in order. What happened is the workers' turns, each one step
//!   of the work and one turn of the desk. (`Running`)
//! - **No worker stops early.** A worker takes all its turns, or all before the first that its work or its gate did not
//!   let begin.
//! - **Until still.** `until_still` turns each desk in rounds. No letter waits anywhere afterwards if no turn was stopped.
//!   (`RunsRounds`, `AreStill`)
//! - **Wake-ups.** `next_woken` names each process that got a signal or exited, in order, once for each event.
//! - **Taking.** `take_each` takes at most so many matching items, oldest first, passes each on and returns their
//!   number.
#![tactic(auto)]

mod pairs;
mod run_fault;
mod running;
mod stillness;
mod taking;
mod waking;
mod work;

pub use pairs::{assign, release};
pub use pt_desk::{Desk, Turned};
pub use pt_events::{Event, Stamped};
pub use pt_shard::{Fault, Loss};
pub use pt_signal::{Body, Item, Pick, Pid, Reason, Ref};
pub use run_fault::RunFault;
pub use running::{FreeGate, Gate, Ran, run, run_single};
pub use stillness::{Rested, Stopped, meet_all, meet_at, until_still};
pub use taking::{Takes, take_each};
pub use waking::next_woken;
pub use work::{Standing, Task, Work};
