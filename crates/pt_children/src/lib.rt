//! The children of supervisors: what a supervisor knows of each, and what it makes of an exit, as plain values.
//!
//! A [`Child`] has its specification, as Erlang's: an id, when it is started again ([`Restart`]), and how it is ended
//! ([`Shutdown`]). It also has what has become of its process. Nothing here calls a desk: `pt_supervisor` does, and decides
//! by the functions here.
//!
//! Tests: `checks/tried/test_calls/children.rt.txt`, `checks/tried/test_calls/failing_starts.rt.txt`,
//! `checks/tried/test_calls/elsewhere.rt.txt` and `crates/test_calls/src/supervisors.rt`.
//!
//! # What is proved
//!
//! - **Restarts.** After an exit, which children are started again, and which others the strategy ends, is one function
//!   of what the supervisor knows. A transient child that was done is started again with the others that the strategy
//!   names. (`starts_again`, `ends_from`, `revived`)
//! - **Limits.** When a restart is still allowed is exact, by stamps or by time. (`Limit::allows`, `Limit::moment`)
//! - **Starts that fail.** What follows a failed start is one function of the child, as in OTP. (`failed_child`)
//! - **Giving up.** A supervisor that gave up says which child exited or was not started, with which reason, and how many
//!   restarts it had made in what span. (`gave_up_over`)
//! - **What is told of them.** What a supervisor tells of its children, and how many it counts, is exact. (`child_seen`,
//!   `children_counted`)
//! - **The list.** What is done next about the children, and which child a process is, is the same function of the list,
//!   though no walk through it finds that. (`ChildList`)
//! - **Other desks.** How far the start of a child on another desk has come is a part of the child. (`is_awaited`,
//!   `place_coming`, `missed_child`)
#![tactic(auto)]

mod asked;
mod child_fault;
mod child_list;
mod children;
mod gave_up;
mod home;
mod known;
mod limit;
mod restart;
mod seen;
mod spans;
mod spec;
mod trial;

pub use asked::{Asked, Stage, gone_in, stage_of, unless_by};
pub use child_fault::{ChildFault, present};
pub use child_list::ChildList;
pub use children::{Child, Shutdown, is_process, place_of, place_of_id};
pub use gave_up::GaveUp;
pub use home::{Home, place_awaited, place_unanswered, place_untold};
pub use limit::Limit;
pub use restart::{Restart, Strategy};
pub use seen::{ChildCounts, ChildSeen, ChildState, all_seen, counted};
pub use spec::{ChildSpec, SupervisorSpec};
pub use trial::Trial;
