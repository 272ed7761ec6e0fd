//! What happened on the desks of a node: events, journals, and what a history means.
//!
//! Each desk of a process table writes a [`Journal`]: its events, with rising stamps. The journals of all desks make
//! one history, the list by (stamp, desk). This crate has the journal, the merge of journals, and a judge that reports
//! whether processes can have a history. It also has the laws that every such history keeps.
//!
//! ```
//! let merged = merge(alloc, &[&first, &second])?;
//! let mut events = Vec::new(alloc);
//! for stamped in merged {
//!     println!(rt; "{stamped}")?;                  // 3@0 said <0.0.1> -> <1.0.1> message 1 7
//!     events.push(stamped.event)?;
//! }
//! match replay(alloc, events.as_slice()) {
//!     Ok(state) => ..                              // state.alive(pid), state.waiting(pid), state.in_flight(), ..
//!     Err((place, cause)) => ..                    // the first event that may not come there, and why
//! }
//! ```
//!
//! # Journals
//!
//! A journal is made by `Journal::new` and grows by one event at a time. [`Journal::of`] makes one from a list, and
//! returns the list if an event is another desk's or the stamps do not rise. [`merge`] takes journals of different
//! desks and returns the one list that rises by (stamp, desk) and has each journal whole.
//!
//! # The judge
//!
//! [`replay`] runs through a history from its first event. It returns the [`State`] after the last one exactly if each
//! event may follow those before it. Else it returns the place of the first that may not, with the lowest [`Cause`]
//! that holds. It is written from the definitions, and shares with a desk only the values of `pt_signal` with their
//! methods. Use it to judge what another program wrote, or in tests. In a `State` an exited process has the links,
//! watches and flag that it had at its exit. It has no open monitor and no waiting item. [`replay_from`] continues from
//! a state, so a long history is judged piece by piece.
//!
//! # Laws
//!
//! `specs/` says what a history means. `History` says what each process is after a history, what an event sends, and
//! which event may come next. `Journal` says what one desk's journal is, and how the journals of several desks make one
//! history. Each law over these words is the contract of a function that does nothing. That of the last one is
//! [`custody_holds`], and those of the others are in [`laws`] or [`links`]:
//!
//! - a pid is spawned once and exits once;
//! - between two processes nothing is lost, doubled or overtaken;
//! - a monitor has at most one `DOWN`;
//! - the merge of journals whose lanes agree is legal;
//! - settling is bounded;
//! - in a quiet history links are at both ends or at neither;
//! - the history of a node passes the audit;
//! - each message that was sent was taken, waits, was lost or is on its way.
//!
//! # Custody
//!
//! What one process sends another arrives in order (`pt_laws`), what arrived was taken or waits, and what an exit loses is
//! told (`pt_shard`). [`custody_holds`] says them as one, of each process, over all that happened on its node: where it is
//! gathered, where it is settled, and over any number of pauses.
//!
//! # Cost
//!
//! Adding an event takes constant time on average. `merge` takes two pieces of memory and for each event the logarithm
//! of the number of journals. `replay` takes constant time for an event. Besides, it looks through the letters in
//! flight at each receipt, and through the lists of the one process that the event is of.
//!
//! Tests: `checks/tried/test_calls/history.rt.txt` and `checks/tried/test_calls/custody.rt.txt`.
//!
//! # What is proved
//!
//! - **One name.** It exports events, merge and judge, and states the laws that no crate of a node needs.
//! - **Flags and links.** The flag of a process is the last one that it set. It is linked with just those to which a
//!   link was made since and not removed. (`trap_is_the_last_flag`, `peers_are_linked_since`)
//! - **Open monitors.** A monitor is open if it was made, was not cancelled, had no `DOWN`, and its process has not
//!   exited. (`monitors_are_open_since`)
//! - **Early links.** Two histories show why the law on links requires that a child is spawned before its parent links
//!   to it. (`early_link_unknown`, `early_link_abroad`)
//! - **True histories pass.** The merge of lawful journals that agree is objected to in no line. A line of it is named for
//!   one of five reasons alone, and none is if the calls of each desk do what they promise. (`journals_pass`)
//! - **Audits.** The history of a gathered node on which nobody was before passes the audit. No line is objected to, and none
//!   is named but for one of five reasons. (`node_histories_pass`)
//! - **Calls and audits.** For these five none is named, either, if each desk keeps what each of its calls keeps.
//!   (`desk_calls_pass`)
//! - **Worked histories.** Some histories are shown legal and quiet by computing them. (`worked_histories`)
//! - **Each once.** Each item that came to a process was taken, waits, or was lost, and is one of these once. Those that
//!   wait are its mailbox, in order. Those that were lost are what its losses tell, in order. (`HasEachOnce`,
//!   `CustodyHolds`)
//! - **In order.** What a process sent another is, in order, its messages among those items and then those on their way.
//!   (`HasEachOnce`)
//! - **At a node.** So it is over all that happened from the first opening on, where the desks are gathered. What is on its
//!   way is left over from desk to desk. Once the node is settled, nothing is on its way. (`GatheredKeep`, `SettledKeep`)
//! - **Over pauses.** So it is on the desks that are resumed, and they go on from what happened until then. So it holds over
//!   any number of pauses. (`PausesKeep`)
//! - **Losses that are told.** If a desk keeps its losses from the first opening on, what was lost is what it told and then
//!   what it still keeps. So it is where the node is gathered or settled, and behind any number of pauses. (`TellsAll`,
//!   `LossesAreTold`, `PausesTell`)
//! - **Counts.** The messages of a process are as many as were taken, wait, were lost, and are on their way. A history in
//!   which the lost are left out does not meet the law, nor does one in which a loss is told twice. (`EachCounts`,
//!   `TellsEachFate`)
#![tactic(auto)]

mod custody;
mod custody_examples;
pub mod laws;
pub mod links;

pub use custody::{custody_holds, custody_of};
pub use custody_examples::each_fate_is_told;
pub use pt_events::{Event, Journal, Stamped};
pub use pt_judge::{Cause, Holding, State, merge, replay, replay_from};
