//! Why a run of a node fails.

use thiserror::Error;

/// Why a run of a node fails. The node and the works are as they were.
#[derive(Clone, Copy, Debug, PartialEq, Eq, Error)]
pub enum RunFault {
    /// There are not as many works as desks.
    #[error("there are not as many works as desks")]
    Works,
    /// There was no memory for the desks with their works.
    #[error("there is no memory to run the node")]
    Memory,
}
