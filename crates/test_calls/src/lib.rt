//! Proved tests. Each makes public calls that nothing else proved makes, and compares their answers. The tests of what the
//! layers do are in `checks/tried`: they are run and not proved.
//!
//! | Module | Tests of |
//! |---|---|
//! | `layers` | the layers below a node, each called by itself |
//! | `nodes` | the settings of a node |
//! | `on_a_desk` | crews, and calls that take items or change links, on a desk |
//! | `recipes` | the recipes of `example_uses` |
//! | `supervisors` | a supervisor and what it is made of, without a desk |
//! | `refusals` | the texts of the refusals that no program prints |
//! | `upheld` | a behaviour that upholds something, and the laws of its crews |
//!
//! A crate with tests is proved twice, and each proof first reads all crates below it. So these tests are in one crate.
//! No function that owns a node returns early: what is dropped at each return costs most.
//!
//! # What is proved
//!
//! - **Tests.** Each test ends and goes wrong nowhere; that it passes is seen by its run.
#![tactic(auto)]

#[cfg(test)]
mod compared;
#[cfg(test)]
mod layers;
#[cfg(test)]
mod nodes;
#[cfg(test)]
mod on_a_desk;
#[cfg(test)]
mod recipes;
#[cfg(test)]
mod refusals;
#[cfg(test)]
mod supervisors;
#[cfg(test)]
mod upheld;
