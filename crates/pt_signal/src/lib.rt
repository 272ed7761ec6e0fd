//! The plain values that processes exchange, with their printed texts, and the settings of a node with their limits.
//!
//! All are `Copy`. [`Config`] has the settings, and [`limits_stand`] tells the limits as numbers. Beside them, in
//! `specs/`, stand the words that every layer above cites: which items a selective receive takes, what a signal does
//! to a live process, what an end owes, and what goes back from a process that is not alive.
//!
//! Tests: `checks/tried/test_calls/process.rt.txt`, `checks/tried/test_calls/settings.rt.txt` and
//! `checks/rows/messages.txt`.
//!
//! # What is proved
//!
//! - **Texts.** Each value prints exactly the bytes that its text definition gives. (`Display`)
//! - **Picks.** `Pick::fits` says whether a receive takes an item.
//! - **Link ids.** `Ids` is the set of ids that one entry of a link holds.
//! - **Replies of exited processes.** `Signal::answer_of_dead` returns what goes back if a signal comes to a process
//!   that is not alive.
//! - **Order.** `Pid::cmp` orders pids by shard, slot and version.
//! - **Settings.** `Config::out_of_range` returns the first setting out of its range, and `None` exactly if all are in
//!   theirs.
#![tactic(auto, unfolding(crate::specs::Text::pid_text, crate::specs::Text::ref_text, crate::specs::Text::link_id_text, crate::specs::Text::ids_text, crate::specs::Text::body_text, crate::specs::Text::reason_text, crate::specs::Text::yes_or_no_text, crate::specs::Text::item_text, crate::specs::Text::pick_text, crate::specs::Text::signal_text, crate::specs::Text::route_text, crate::specs::Text::letter_text, crate::specs::Text::left_over_text, crate::specs::Text::fate_text))]

mod config;
mod ids;
mod item;
mod laws;
mod letter;
mod pid;
mod reason;
mod signal;

pub use config::{Config, MAX_DESKS, MAX_LANE, MAX_SLOTS, MAX_STAMP, OpenError, Setting};
pub use ids::{Ids, LinkId, Ref};
pub use item::{Body, Item, Pick};
pub use laws::{defaults_stand, limits_stand};
pub use letter::{LeftOver, Letter, Route};
pub use pid::Pid;
pub use reason::{Fate, Reason};
pub use signal::Signal;
