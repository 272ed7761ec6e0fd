//! The node: desks that are opened together, lent to threads or called one at a time, and brought together again.
//!
//! From the recipe `two_processes` of `example_uses`, which has the whole of it and others:
//!
//! ```
//! let ping = desk.spawn()?;
//! let pong = desk.spawn()?;
//! tell(desk, ping, pong, ASK, 7)?;
//! let _ = desk.turn(16);
//! let _question = desk.receive(pong, Pick::Kind(ASK))?;
//! ```
//!
//! One `use pt_node::{..}` has all that a program calls.
//!
//! # Opening
//!
//! [`open`] makes the desks of one node, in order: empty, each with its ends of the lanes. The caller may then move
//! them between threads. No call of a desk makes it one of another node.
//!
//! # Calling by pid
//!
//! [`Node`] has the desks of one opening and may be dropped. Its calls name a process by its pid alone, and are made on
//! the desk of that pid. No call has a precondition: what the node cannot do fails with a [`NodeFault`]. So a call to a
//! target that the node cannot have had fails with [`Unknown`](NodeFault::Unknown), and changes nothing.
//!
//! Letters move in turns: of one desk, of each desk ([`turn_all`](Node::turn_all)), or of all desks until no letter
//! waits ([`turn_until_still`](Node::turn_until_still)). If the node is gathered then, no letter is left over.
//!
//! # Running
//!
//! [`run`] gives each desk a worker on a thread of its own, and [`run_single`] does the same turns on the calling
//! thread. What a worker does is a [`Work`], and a [`Gate`] is called before and after each of its turns. The desks
//! come back in order, still those of one node. [`assign`] pairs the desks with their work before a run, and
//! [`release`] parts them after it.
//!
//! # Gathering
//!
//! [`gather`] takes all desks of one node, each once and in order. These then hold for any calls on the desks, by any
//! threads:
//!
//! - Each sender's messages to a mailbox are, in order and each once: those before its birth, those that arrived, those
//!   after its exit, and those left over.
//! - No item entered a mailbox after its process exited.
//! - The items taken and the items waiting are together those that arrived.
//! - A monitor had at most one `DOWN`.
//!
//! # Resuming
//!
//! A journal grows with each event. So a program that runs for long gathers and settles its node from time to time, and
//! writes out its history. [`resume`] then continues from the quiet node with empty journals, over what they left
//! behind. Exited processes stay exited, and the versions and the clocks continue. What holds for an opened node holds
//! for this one, over that start. A node may be resumed any number of times.
//!
//! A node keeps its directory of exited processes while it is gathered, settled and resumed. The directory is told only of
//! the exits that settling brought. So [`resume`] costs what happened since the last pause, and a slot that did not change
//! since then costs nothing. [`Gathered::settle_unlisted`] and [`resume_settled`] do the same without a list of all pids
//! that ever were, so the whole pause costs no more.
//!
//! If there is no memory to resume the node, it comes back as it was, without that directory. The next call then makes a
//! new one, and costs the live processes and the slots too.
//!
//! [`resume_forgetting`] also forgets why processes exited. So a program whose exit reasons never repeat keeps no more
//! of its exited processes than one whose reasons do.
//!
//! Tests: `checks/rows`, `checks/tried/test_calls/nodes.rt.txt`, `checks/tried/test_calls/opening.rt.txt`,
//! `checks/tried/test_calls/late.rt.txt` and `crates/test_calls/src/nodes.rt`.
//!
//! # What is proved
//!
//! - **Opening.** `open` returns the desks of one node, in order, or reports which setting is out of range. (`Opening`)
//! - **Gathering.** `gather` returns the node with the journals as they were, or gives all desks back as they were.
//! - **Resuming.** `resume` continues from a quiet node with empty journals, or gives it back as it was. Pids, versions
//!   and clocks continue. `resume_settled` does the same from a settled node without a list of its pids. (`AreResumed`)
//! - **Keeping.** `gather` keeps the node's directory, which has the exit of each process that had exited by then.
//!   Resuming promises the same whether it goes on in that directory or makes a new one. (`IsKeptOf`)
//! - **Forgetting reasons.** `resume_forgetting` makes the same desks, but each exited process has the reason `noproc`.
//!   The laws of a quiet node hold over them, and its history goes on. (`ResumesForgetful`)
//! - **The node's calls.** Each call of `Node` does what the call of the pid's desk does, and the other desks stay. It
//!   has no precondition. (`CallsAt`, `CallsTo`)
//! - **Until still.** `turn_until_still` terminates, and handles no more letters than the load before. (`IsWithinLoad`)
//! - **Still.** It returns that the node is still exactly if no turn was stopped. Then no letter waits anywhere.
//!   (`AreStill`)
#![tactic(auto)]

mod gathering;
mod making;
mod node;
mod node_fault;
mod node_running;
mod opening;
mod resuming;
mod seating;

pub use gathering::{DesksBack, abandon, gather};
pub use making::look;
pub use node::{Node, NodeBack};
pub use node_fault::NodeFault;
pub use opening::open;
pub use pt_carrier::Cause;
pub use pt_desk::{Desk, Turned};
pub use pt_events::{Event, Journal, Stamped};
pub use pt_gathered::{Account, Gathered, LeftOver, Quiet, Settled, Unsettled};
pub use pt_process::Process;
pub use pt_shard::{
    Config, Fault, Loss, MAX_DESKS, MAX_LANE, MAX_SLOTS, MAX_STAMP, OpenError, Setting, Stop,
};
pub use pt_signal::{Body, Ids, Item, Letter, LinkId, Pick, Pid, Reason, Ref, Signal};
pub use pt_workers::{
    FreeGate, Gate, Ran, Rested, RunFault, Standing, Stopped, Takes, Task, Work, assign,
    next_woken, release, run, run_single, take_each,
};
pub use resuming::{Resting, resume, resume_forgetting, resume_settled};
