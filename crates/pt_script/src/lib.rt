//! Scripts: what the processes of a node do, as one JSON text.
//!
//! `Script::read` takes a text and returns the script that it describes, or the first fault in it with its place. A
//! script is plain data without names. Each process has a number, by the order in which the processes begin in the
//! text, and operations name processes by these numbers. [`process_names`] returns the names, for programs that show
//! them. [`laws`] says what holds for every script. The format is that of `docs/SCRIPTS.md`.
//!
//! If a text is no script, [`explain`] reads the bytes again and says in one line, without a line feed, what is at the place
//! of the fault. It names the process and the operation, the line and the column, the member that is wrong, and what is wrong
//! with it.
//!
//! ```
//! let Err(ScriptError::Refused { fault, place }) = Script::from_bytes(alloc, bytes) else { .. };
//! let line = explain(alloc, bytes, fault, place)?;
//! // process b, operation send, line 3, column 19: member to names nothing in scope
//! ```
//!
//! The line repeats only names of at most 32 letters, digits and `_` of a script, so it is one line for any script.
//!
//! Tests: `checks/tried/pt_scripts/scripts.rt.txt`, `checks/tried/pt_scripts/repeats.rt.txt`,
//! `checks/tried/pt_scripts/faults.rt.txt`, `checks/examples`, `checks/places` and `crates/test_calls/src/layers/scripts.rt`.
//!
//! # What is proved
//!
//! - **Reading.** `Script::from_bytes` succeeds exactly if the text is a script of the format; otherwise it returns the
//!   first fault and its place. (`read`)
//! - **Well formed.** An accepted script names only processes and tags of its own, and keeps the limits. (`laws`)
//! - **Repeats.** The script that is read has no repeat left: each round has operations and tags of its own. All rounds
//!   together have 65,536 steps at most, where the marks of blocks count too. Scripts of formats 1 and 2 are as they are
//!   written. (`Unrolling`, `laws`)
//! - **Reading back.** Each well-formed script is read back from what is written of it.
//! - **Names.** `process_names` returns the names of the processes of a text, by their places in it.
//! - **Own desks.** `Script::spread` returns the script with a desk for each of its processes, in their order. All else is as
//!   it was. It does so exactly if none of them is spawned, and if there are 64 at most. (`spread`)
//! - **Hurried.** `Script::hurried` returns the script in which a receive that waits for some tries takes an item or goes on at
//!   once. All else is as it was. (`hurried`)
//! - **Explanations.** The line of `explain` has the text of a place, of a member if one is wrong, and of what is wrong.
//!   The place is the one that was passed, and the names of its process and operation are theirs in the text. (`IsSaidOf`)
//! - **Lines and columns.** The line and the column of an explanation are those of the byte at which the member that it
//!   names has its value there. If it names none, or one that is missing, they are those of the process, the operation
//!   or the script. (`IsSpotOf`)
//! - **Words.** A process is written as its name, or as its number if it has none. What a `receive` takes is written with
//!   that. (`process_text`, `awaited_text`)
#![tactic(auto)]

mod called;
mod crowd;
mod draft;
mod explanation;
mod fault;
mod heads;
pub mod laws;
pub mod limits;
mod lists;
mod members;
mod names;
mod operation;
mod reading;
mod script;
mod unrolling;
mod values;
mod words;

pub use called::process_names;
pub use explanation::explain;
pub use fault::{Fault, Place, ScriptError};
pub use script::{Process, Script};
pub use values::{Operation, Pattern, Settings, Top};
pub use words::{Named, Wanted, name_at, pattern_of};
