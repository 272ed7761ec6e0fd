//! Why a line failed.

use crate::lines::Mistake;

/// Why a line failed. The session is then as it was.
#[derive(Clone, Copy, Debug, PartialEq, Eq)]
pub enum Complaint {
    /// The line is no call.
    Mistake(Mistake),
    /// The call at this column is for a node in another state.
    NotNow(usize, State),
    /// The next line of the last answer is not the expected one.
    Unexpected,
    /// There is no line of the last answer left to compare.
    NothingLeft,
    /// The line is a call, and lines of the last answer are left that were not compared.
    LinesLeft,
    /// There was no memory.
    Memory,
}

/// The state of a node that does not allow a call.
#[derive(Clone, Copy, Debug, PartialEq, Eq)]
pub enum State {
    Closed,
    Running,
    Gathered,
    Settled,
}
