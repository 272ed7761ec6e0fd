//! What the supervisors of schedulers uphold on their node, and over its pauses.
//!
//! A scheduler has processes whose handlers are in C, Rust or Python. [`scheduler_children_live`] speaks of its own desk,
//! [`node_children_live`] of a whole node, and [`paused_scheduler_children_live`] of a node that was gathered, settled and
//! resumed. Each is a law: its function does nothing.
//!
//! Tests: `checks/tried/test_calls/scheduler.rt.txt`.
//!
//! # What is proved
//!
//! - **Children of schedulers.** What both theorems on children need of a crew, each call of a scheduler keeps; and so does
//!   the program, if it does nothing for a supervisor. So they hold of every program with a scheduler.
//!   (`scheduler_children_live`, `SchedulerUpholds`)
//! - **Whole nodes of schedulers.** Once no scheduler of a node has anything to do, and the node was gathered and
//!   settled, each child that a supervisor wants lives, or unlinked itself; unless the supervisor still ends one that
//!   traps exits, or waits for one on another desk. (`SchedulersChildrenLive`)
//! - **Children of their own desk.** If a program asks for no child on another desk, no supervisor waits for one: each child
//!   that it wants lives, or unlinked itself, unless it still ends one that traps exits. Calls and pauses keep that.
//!   (`scheduler_children_here_live`)
//! - **Pauses.** What the supervisors of schedulers uphold, they uphold behind a pause, if each scheduler goes on with the
//!   node's history. (`SchedulerPausesHold`)
#![tactic(auto)]

mod here;
mod living;
mod pausing;
mod resting_node;

pub use here::scheduler_children_here_live;
pub use living::scheduler_children_live;
pub use pausing::paused_scheduler_children_live;
pub use resting_node::node_children_live;
