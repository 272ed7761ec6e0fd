//! The first fault in a text.

use crate::Objection;
use pt_events::Stamped;
use pt_texts::LeftOver;

/// The most bytes of a line, without its line feed. No event and no letter left over prints as many.
pub const MOST_LINE: usize = 1024;

/// Why a line is at fault.
#[derive(Clone, Copy, Debug, PartialEq, Eq)]
pub enum Why {
    /// It is no event and no letter left over. The number is the column, from 1 on, of the first word that does not
    /// fit.
    Unread(usize),
    /// It is an event that may not come there.
    Event(Stamped, Objection),
    /// It is a letter left over that may not come there.
    Letter(LeftOver, Objection),
    /// The text ends, and no line has named a letter in flight ([`Objection::Untold`]).
    Over(Objection),
    /// It has more than [`MOST_LINE`] bytes.
    Long,
    /// There was no memory to keep it.
    Memory,
}

/// The first line at fault.
#[derive(Clone, Copy, Debug, PartialEq, Eq)]
pub struct Fault {
    /// Its number, from 1 on; one more than there are lines for [`Why::Over`].
    pub line: u64,
    pub why: Why,
}
