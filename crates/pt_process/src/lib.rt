//! One process: its mailbox, its links, its monitors, and the watches that others hold on it.
//!
//! A `Process` is the state that a desk keeps in a slot. It sends nothing itself: it takes signals in, and returns at
//! its exit what it owes to others. `handle` and `estate` of `pt_signal` define what a signal does to a live process,
//! and what a process owes at its exit. Here they run over the process's own lists.
//!
//! ```
//! let mut process = Process::new(alloc, me);
//! match process.accept(from, signal)? {
//!     Outcome::Queued => ..                    // an item waits: process.first(Pick::Any)
//!     Outcome::Changed | Outcome::Dropped => ..
//!     Outcome::Asked(question) => ..           // Signal::AliveSay(question, true) goes back to the sender
//!     Outcome::Ends(reason) => {
//!         let estate = process.estate(reason); // the process is spent
//!         for i in 0..estate.len() {
//!             let (to, signal) = estate.owed(i);
//!         }
//!     }
//! }
//! ```
//!
//! # The two ends of a call
//!
//! A call of the process's own (`add_link`, `cut_link`, `add_monitor`, `cut_monitor`, `set_trap`, `take`) changes its
//! half at once. The caller sends the signal to the other process. `accept` is the other half, which runs when the
//! signal arrives.
//!
//! # Want of memory
//!
//! `accept`, `add_link`, `add_monitor` and `room` may fail for want of memory, and nothing has changed then. After
//! `room` the next link needs none. No other call takes memory: an exit reads its lists in their places.
//!
//! # Cost
//!
//! Up to eight links, monitors or watches are in a vector that is searched in order. From the ninth on they are found
//! by hash. A list that never had an entry takes no memory, and up to eight entries take at most two allocations.
//!
//! Every call takes constant time, on average if a list grows, closes its gaps or is looked up by hash, with these
//! exceptions:
//!
//! - `first` and `take` cost what they look at. A take moves the items before its item or after it, whichever are
//!   fewer. A pick of the answer to the newest reference that was answered looks at nothing before that answer, and a
//!   pick of the answer to a newer one at nothing.
//! - `kept` searches the watches.
//! - `estate` and reading it cost what is owed.
//! - If more than eight are linked, a link with a peer that was unlinked before, and whose gap is still there, costs
//!   what entered after it.
//!
//! Links, monitors and watches keep the order of entry through all removals.
//!
//! Tests: `checks/tried/test_calls/process.rt.txt` and `crates/test_calls/src/layers/entries.rt`.
//!
//! # What is proved
//!
//! - **Signals.** `accept` does to a live process exactly what the table of signals says, with the verdict on exit
//!   signals.
//! - **Want of memory.** `accept` fails only if a list would have to grow, and then nothing has changed.
//! - **Selective receive.** `take` removes the first matching item, and the others keep their order.
//! - **Exits.** `estate` lists what a process owes at its exit, in order.
//! - **Lists.** `link_at`, `monitor_at` and `watcher_at` return links, open monitors and watchers in the order of their
//!   entry.
#![tactic(auto)]

mod estate;
mod mailbox;
mod outcome;
mod process;
mod verdict;

pub use estate::Estate;
pub use mailbox::Mailbox;
pub use outcome::Outcome;
pub use process::Process;
pub use verdict::{ExitSignal, Verdict};
