//! Recipes to copy from: programs over a node that are proved, as all else here is.
//!
//! | Module | Recipe |
//! |---|---|
//! | [`two_processes`] | a first node: two processes send each other a message, and the node is gathered |
//! | [`game`] | a loop of ticks, with the data of each process in a map by its pid |
//! | [`desks_on_threads`] | one thread for each desk, and the gathered node |
//! | [`epochs`] | a node that runs for as long as is wanted, its history written out every so many turns |
//! | [`until_quiet`] | workers that end by themselves once there is nothing to do on their desks |
//! | [`payloads`] | data that does not fit into a message, kept beside the table and named by its number |
//!
//! Processes that run code by themselves, with supervisors, calls and crashes, are those of a crew: `example_scenes`
//! has them.
//!
//! A recipe keeps a desk a desk of its node (`IsStill`), so [`gather`](pt_node::gather) takes it. The calls of the desk
//! promise all else that a recipe promises.
//!
//! Tests: `checks/tried/test_calls/recipes.rt.txt`, `crates/test_calls` and `crates/test_stress`.
//!
//! # What is proved
//!
//! - **Games.** A live monster takes at most 64 hits in a tick, oldest first, each as its number says, and exits
//!   without health. (`Game`, `budget_stands`)
//! - **Texts.** A receiver gets the text under its message's number, and `drop_lost` drops exactly the texts to
//!   processes of this desk that have exited. (`Texts`)
//! - **Epochs.** What `epochs` puts into its archive is one legal history, with no letter in flight at its end.
//!   (`PassAsOne`)
//! - **Until quiet.** A work `UntilQuiet` is done exactly after so many turns in a row that did nothing.
//!   (`ends_behind_quiet_turns`)
//! - **The first example.** `two_processes` is a question and its answer on a node of one desk, and nothing else
//!   happens.
#![tactic(auto)]

pub mod desks_on_threads;
pub mod epochs;
mod error;
pub mod game;
pub mod payloads;
pub mod steps;
pub mod two_processes;
pub mod until_quiet;

pub use error::RecipeError;
