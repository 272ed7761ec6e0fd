//! What became of one process.

use pt_signal::{Pid, Reason};

/// What became of a process, as far as the history was read.
#[derive(Clone, Copy, Debug, PartialEq, Eq)]
pub struct Standing {
    pub pid: Pid,
    /// Why it exited. It is alive if there is none.
    pub ended: Option<Reason>,
    /// The number of items that wait in its mailbox: none if it has exited.
    pub waiting: u64,
}
