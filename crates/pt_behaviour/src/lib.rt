//! Behaviours: what a process of a crew does with an item, and the calls that it makes.
//!
//! A program has a type with the trait [`Behaviour`]: [`handle`](Behaviour::handle) gets each item of a process, and
//! returns what the process does [`Next`]. Its calls are [`send`], [`monitor`] and their like. [`spawn_child`] spawns a
//! process with a behaviour of its own. The crate `pt_crew` runs behaviours.
//!
//! Tests: `checks/tried/test_calls/crews.rt.txt`, `checks/tried/test_calls/members.rt.txt`,
//! `crates/test_calls/src/on_a_desk.rt` and `crates/test_calls/src/upheld.rt`.
//!
//! # What is proved
//!
//! - **Calls.** Each call does what the desk's call of that name does. If the desk does not know the target, the call
//!   fails with `Unknown`, and nothing has changed. (`IfKnown`)
//! - **No item is taken.** None of the calls takes an item out of a mailbox. (`takes`)
//! - **Children.** A child that is spawned was never spawned before, and waits after those that wait to enter the crew.
//!   If the call fails, no child waits that did not wait before. (`Bore`)
#![tactic(auto)]

mod behaviour;
mod births;
mod call_fault;
mod calls;
mod upheld;

pub use behaviour::{Behaviour, Next};
pub use births::{Births, Role, spawn_child};
pub use call_fault::CallFault;
pub use calls::{demonitor, exit_signal, link, monitor, send, trap, unlink};
pub use upheld::Upheld;
