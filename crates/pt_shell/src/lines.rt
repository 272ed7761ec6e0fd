//! Lines of the shell: their words, and the call that they ask for.
//!
//! ```
//! let words = words_of(alloc, b"send <0.0.1> b 1 10")?;
//! match command_of(&names, words.as_slice(), 20) {
//!     Ok(Command::Call(None, Call::Act(Act::Send(from, to, body)))) => ..
//!     Err(mistake) => ..                                  // mistake.column, mistake.why: "no pid"
//! }
//! ```
//!
//! A line is split into words at blanks. A word means a value by the value's printed text, or by a name that was given
//! to a pid or a reference before. [`CALLS`] has the words of each call.

mod arguments;
mod call;
mod calls;
mod command;
mod mistake;
mod names;
mod numbers;
mod settings;
mod values;
mod verb;
mod word;

pub use call::{Act, Call, Look};
pub use command::{Command, command_of};
pub use mistake::{Mistake, Why};
pub use names::{Names, Value};
pub use verb::CALLS;
pub use word::{Word, joined, words_of};
