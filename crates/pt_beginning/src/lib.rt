//! What a node goes on from, as definitions that desks in threads and gathered desks both cite. There is no code here.
//!
//! Tests: none, since nothing here runs.
//!
//! # What is proved
//!
//! - **Definitions alone.** One says what a state is that a node may go on from. The other is the state before all
//!   journals. The crates above promise what they do by these words. (`IsBeginning`, `start_of`)
#![tactic(auto)]
