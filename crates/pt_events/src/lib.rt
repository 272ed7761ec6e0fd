//! What happened on the desks of a node: events, journals, and what a history means.
//!
//! Each desk of a process table writes a [`Journal`]: its events, with rising stamps. The journals of all desks
//! make one history, the list by (stamp, desk). A journal is made by `Journal::new` and grows by one event at a
//! time, in constant time on average, or by [`Journal::of`] from a list, which it hands back where an event is
//! another desk's or the stamps do not rise.
//!
//! What a history means stands in `specs/`: `History` says what each process is after a history, what an event
//! sends, and which event may come next; `Journal` says what one desk's journal is, and how the journals of several
//! desks make one history.
//!
//! Tests: `checks/tried/test_calls/history.rt.txt` and `checks/tried/test_calls/texts.rt.txt`.
//!
//! # What is proved
//!
//! - **Journals.** A `Journal` is of one desk, and its stamps rise strictly.
//! - **Journals from lists.** `Journal::of` takes a list exactly if it is a journal, and else hands it back.
//! - **Clearing.** `Journal::clear` forgets the events and keeps their memory.
//! - **Texts.** Each event prints exactly the bytes that its text definition gives. (`Display`)
#![tactic(auto, unfolding(crate::specs::Text::parent_text, crate::specs::Text::link_text, crate::specs::Text::switch_text, crate::specs::Text::event_text, crate::specs::Text::stamped_text))]

mod event;
mod journal;
mod laws;

pub use event::{Event, Stamped};
pub use journal::Journal;
pub use laws::journals_tell_their_pids;
pub use pt_signal::MAX_STAMP;
