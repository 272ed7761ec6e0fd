//! What became of every process of a node, read from the journals of its desks.
//!
//! ```
//! let mut lives = DeskLives::new(alloc, desk);     // one for each desk
//! lives.read(&journal)?;                           // each event once; the next call resumes there
//! let node = Lives::of(desks);                     // the tables of all desks, that of desk 0 first
//! for pid in node.list(alloc)? {
//!     let account = node.account(pid);             // ended, arrived, taken, waiting
//! }
//! ```
//!
//! [`DeskLives::read`] plays each process of a desk from its birth on, by the calls of `pt_process`. What [`Lives`]
//! returns holds in every merge of the journals, since a desk's journal says of its own pids what every merge says.
//!
//! A node that is resumed writes new journals. [`DeskLives::forget`] makes what a journal said the start of the next,
//! which is then read into the same table. [`DeskLives::forget_reasons`] also forgets why processes exited, so that a
//! program whose reasons never repeat can keep as little as one whose reasons do.
//!
//! # Cost
//!
//! An event of a journal takes constant time, on average, as the desk's own call did. A take costs what it looks at. A
//! process is found by its slot and version, so nothing is searched or sorted. Each process that was spawned since the
//! table last forgot takes 48 bytes, and 8 for its exit. A live one, and one that exited with an item, link, watch or
//! monitor, also keeps its lists. Those that exited before take 12 bytes for each run of equal reasons.
//!
//! `DeskLives::forget` looks only at slots whose processes took an item or exited since the table last forgot, or got a
//! signal other than a message. To know these the table takes a byte for each slot, and 4 more for each such slot.
//! `forget_reasons` looks at every slot ever used.
//!
//! [`Reasons`] keeps why the versions of a slot ended as runs of equal reasons. So a million that end as `normal` are one
//! [`Run`], `push` takes constant time, and `get` finds its run by halves.
//!
//! Tests: `checks/tried/test_calls/called.rt.txt`, `checks/tried/test_calls/desk.rt.txt`,
//! `checks/tried/test_calls/reasons.rt.txt` and `checks/rows/quiet.txt`.
//!
//! # What is proved
//!
//! - **What is reported.** For each process ever spawned, `Lives` returns why it exited, how many items arrived, were
//!   taken and wait, and its links, watchers and open monitors. For an exited process these are the last.
//! - **In every merge.** Each of these is what the definitions give for every merge of the journals.
//! - **Order.** `Lives::list` lists the pids of all processes by desk, slot and version.
//! - **Reading on.** `DeskLives::read` reads each event once, and `forget` makes the start of the next journal.
//! - **Forgetting reasons.** After `forget_reasons` each process is there as before. An exited one stays exited, and
//!   its reason is `noproc`. (`BeginsBare`)
//! - **Each reason.** `Reasons::get` returns at each place the reason that was added there, and `None` behind the last
//!   one. (`listed`)
//! - **Runs.** `Reasons::runs` returns the runs in order. Each is of one reason at least, and no two that follow one
//!   another have the same reason. So there are as many runs as changes of reason, and one. (`AreRuns`)
//! - **Filled.** After `Reasons::fill` there are as many reasons as before, and each is the given one. (`listed`)
//! - **No room.** `Reasons::push` fails only for want of memory, or if 2^32 - 1 reasons are kept. Nothing has changed then.
#![tactic(auto)]

mod account;
mod changed;
mod desk_lives;
mod held;
mod life;
mod lives;
mod reasons;
mod slot;

pub use account::Account;
pub use desk_lives::DeskLives;
pub use lives::Lives;
pub use reasons::{Reasons, Run};
