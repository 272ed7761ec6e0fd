//! The laws of histories: each is the contract of a function in [`laws`], [`links`] or [`names`] that does nothing.
//!
//! A pid is born once and ends once; between two processes nothing is lost, doubled or overtaken; a monitor has one
//! `DOWN` at most; the merge of journals whose lanes agree is legal; settling is bounded; in a quiet history links
//! stand at both ends or at neither.
//!
//! Tests: none. It has definitions and lemmas alone.
//!
//! # What is proved
//!
//! - **One life.** A pid is born once and exits once.
//! - **Each word in its own terms.** Alive, held links, kept watches and waiting items are stated by what happened since,
//!   and are equal to what the fold over the history gives.
//! - **Nothing lost.** Between two processes no signal is lost, doubled or overtaken.
//! - **One DOWN.** A monitor gives one `DOWN` at most, and none after its demonitor.
//! - **True answers.** Each answer to "is it alive" is true.
//! - **The headline.** Over journals whose lanes agree, each mailbox has a sender's messages in order, each once.
//!   (`headline_holds`)
//! - **One legal history.** The merge of such journals is legal. A refused call in it is to a process whose exit its
//!   own desk stamped lower.
//! - **Settling ends.** It takes no more receipts than the load of the history.
//! - **Quiet.** In a quiet history links are at both ends or at neither, and each open monitor is kept by its target.
//! - **Resuming.** A quiet history may be resumed any number of times.
//! - **Names.** What processes, references and links are called decides nothing. (`names_decide_nothing`)
#![tactic(auto)]

pub mod laws;
pub mod links;
pub mod names;
