//! Tests that are proved: nodes under stress, which `rt try` is too slow for, and desks that rest.
//!
//! The stress is 40 nodes of 8 desks on 8 threads, each with 64 processes at first that call each other at random,
//! 200,000 calls in all, gathered while letters are on their way. What every node keeps whatever the threads do,
//! `gather` and `settle` promise. Here the judge of histories, which shares with a desk no more than the values of
//! `pt_signal`, sees that the histories of such runs are lawful, and that what it finds on its way is what is left
//! over. One more node goes on three times from what its crowd settled to: its rounds are one history.
//!
//! # What is proved
//!
//! - **Tests.** Each test ends and goes wrong nowhere; that it passes is seen by its run.
#![tactic(auto)]

#[cfg(test)]
mod board;
#[cfg(test)]
mod crowd;
#[cfg(test)]
mod dice;
#[cfg(test)]
mod node;
#[cfg(test)]
mod pace;
#[cfg(test)]
mod rests;
#[cfg(test)]
mod resumed;
#[cfg(test)]
mod stress;
