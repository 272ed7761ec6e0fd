//! Maps whose entries stay in order of entry.
//!
//! `Entries` is a map that is read in the order in which its keys entered, through all removals. `Rows` are the entries of a map
//! that takes no more: each is found by its number. A process keeps its links, its monitors and its watchers so.
//!
//! ```
//! let mut links = Entries::new(alloc);
//! links.insert(peer, ids)?;
//! let held = links.get(&peer);         // Some(ids)
//! let rows = links.into_rows();        // rows.at(0) is (peer, ids)
//! ```
//!
//! # Want of memory
//!
//! `reserve`, `insert` and `push` may fail for want of memory, and the entries are as before then. After `reserve` the next
//! entry needs none. No other call takes memory.
//!
//! # Cost
//!
//! Up to eight entries are in a vector that is searched in order. From the ninth on, and then for good, they are found by hash.
//! Every call takes constant time, on average if a list grows, closes its gaps or is looked up by hash. A key that enters
//! again while its gap is still there costs what entered after it. `has_first` searches all entries, and `into_rows` closes
//! all gaps.
//!
//! Tests: `checks/tried/test_calls/entries.rt.txt` and `crates/test_calls/src/layers/entries.rt`, by the calls of a process.
//!
//! # What is proved
//!
//! - **Entries.** Each call does to the entries what it does to a list of pairs: a key that is there keeps its place, a new one
//!   goes last, and a removal keeps the order of the others. (`put`, `set_value`, `remove_entry`)
//! - **Want of memory.** A call fails only if the list would have to grow, and then the entries are as before.
#![tactic(auto)]

mod entries;
mod many;
mod rows;

pub use entries::Entries;
pub use rows::Rows;
