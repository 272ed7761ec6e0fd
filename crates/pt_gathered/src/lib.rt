//! The desks of a node, gathered: their journals, the letters left over, the one history, and settling.
//!
//! ```
//! for left in gathered.left_over()? {
//!     println!(rt; "{left}")?;                     // left-over 0 -> 1 <0.0.1> -> <1.0.1> message 1 7 @2
//! }
//! for stamped in gathered.history()? {
//!     println!(rt; "{stamped}")?;                  // 1@0 born <0.0.1>
//! }
//! match gathered.settle() {
//!     Ok(quiet) => ..                              // quiet.history(), handled(), pids(), account(pid), settled()
//!     Err(unsettled) => ..                         // unsettled.fault, and unsettled.gathered to go on from
//! }
//! ```
//!
//! # What is left over
//!
//! A letter that was sent and did not arrive is in the hold of its receiver's desk, in the lane, or in the outbox of
//! its sender's desk. [`Gathered::left_over`] lists them by sending desk, then by receiving desk, oldest first. The
//! letters that a desk sent to another are those that arrived there, in order, followed by those left over.
//!
//! # The history
//!
//! [`Gathered::history`] is the list of all events that rises by (stamp, desk). It is legal: each event may follow
//! those before it. It has each journal whole and in its order.
//!
//! # Settling
//!
//! [`Gathered::settle`] delivers the letters left over, pass by pass, until there are none. Each journal gets receipts
//! alone, at most as many as the load of the history before. The load counts the letters left over, the links and
//! monitors among them twice, and each link, watch and monitor that a live process has.
//!
//! Then links are at both ends or at neither. Each monitor of a live process was cancelled, had its one `DOWN`, or is
//! open and kept. Each question of a live process whether another one is alive has its one answer, which is true.
//! [`Settled::laws`] says so for a settled node at any time.
//!
//! At its end settling reads each journal once. Then [`Settled`] returns, without memory, of each process why it exited,
//! how many items arrived, were taken and wait, and its links, watchers and open monitors. For an exited process these
//! are what it held at its exit.
//!
//! A [`Quiet`] node is a settled node and the list of all pids that ever were, which takes time and memory.
//! [`Gathered::settle_unlisted`] settles without the list. [`Settled::into_quiet`] makes it, [`Quiet::settled`] lends the
//! settled node, and [`Quiet::into_settled`] gives the list up.
//!
//! # Resuming
//!
//! A settled node may continue with empty journals: what its desks leave is again a state as a node begins with, at the
//! stamp [`Settled::clock`] or a later one ([`Settled::laws`]). [`Settled::into_parts`] returns the desks, each with the
//! table of what became of its processes. The next journal is read into that table.
//!
//! A gathered node keeps the directory of exited processes that its desks had, as a [`Kept`], and so does the settled
//! node. [`Settled::take_kept`] takes it out, and [`Settled::ends_since`] gives it those that exited since. Without it,
//! [`Settled::latest_ends`] gives a new directory all exited processes. [`Quiet::state`] is the start for a judge that
//! judges the next history alone.
//!
//! # Cost
//!
//! A letter that settling handles costs its receipt. If it is the only one of its pass, it also costs three simple
//! tests for each desk, 192 in a node of 64; letters of one pass share these. Desks to which nothing is left over are
//! not looked at, and each lane is looked at in full once. No list of letters is moved, and no journal and no table is
//! copied. Reading the journals takes constant time, on average, for each event. `settle` and `into_quiet` take a step
//! more for each pid that ever was, and `settle_unlisted` does not. `history` takes time by the logarithm of the number
//! of desks for each event. `latest_ends` looks at each slot that was ever used, and `ends_since` at the events since.
//!
//! Tests: `checks/rows/settling.txt`, `checks/rows/resumed.txt`, `checks/rows/going_on.txt`, `checks/rows/quiet.txt`,
//! `checks/tried/test_calls/epochs.rt.txt` and `checks/tried/test_calls/late.rt.txt`.
//!
//! # What is proved
//!
//! - **Nothing else.** A gathered node has the journals as its desks had them, and the letters left over. Its lanes
//!   agree, and the headline holds.
//! - **One legal history.** `Gathered::history` is the one merge, and it is legal. After resumptions it is legal from
//!   the first opening on.
//! - **Refusals are true.** Each process that a desk saw to have exited had exited, no later than the stamp that was
//!   seen.
//! - **Settling.** `settle` adds receipts alone, at most as many as the load, and leaves a quiet node.
//! - **Losses.** A desk that keeps its losses keeps what settling loses, too, behind those that it kept before.
//!   (`KeepsLost`)
//! - **Quiet.** Links are at both ends or at neither. Each monitor was cancelled, had its one `DOWN`, or is open and
//!   kept. (`Settled::laws`)
//! - **Answers.** Once settled, each question of a live process has its one answer, which is true.
//! - **Without a list.** `settle_unlisted` promises what `settle` does. `Settled::into_quiet` makes the quiet node of it,
//!   or gives it back as it was.
//! - **Kept.** What a settled node keeps of a directory was kept of that node when it was gathered, before it was settled.
//!   `take_kept` takes it out, and changes nothing else. (`IsKeptFor`)
//! - **Exits since.** `Settled::ends_since` returns only processes that have exited. Each process that has exited is among
//!   them, or had exited by the events before the given places. (`AreEndsSince`)
//! - **Accounts.** `Settled` and `Quiet` return for each process what the definitions give for every merge of the
//!   journals. `Quiet::pids` lists all processes.
//! - **Names.** Nodes that are the same but for names are so after events that are, and when they are settled.
//!   (`same_events_keep_alike`, `alike_settle_alike`)
//! - **Settling that fails.** It keeps all that holds for a gathered node, and its contract says where it stopped.
//!   (`SettlingStops`)
#![tactic(auto)]

pub mod alike;
mod at_rest;
mod gathered;
mod kept;
mod node_laws;
mod quiet;
mod resumed;
mod settled;
mod settling;

pub use at_rest::Lane;
pub use gathered::Gathered;
pub use kept::Kept;
pub use node_laws::laws_of;
pub use pt_accounts::{Account, DeskLives};
pub use pt_signal::LeftOver;
pub use quiet::Quiet;
pub use settled::Settled;
pub use settling::Unsettled;
