//! Why a recipe fails: an error of the program's own, and `?` turns the errors of a node into it.

use pt_node::{Fault, NodeBack, NodeFault, OpenError, RunFault, Stop};
use std::alloc::{AllocError, AllocFailed};
use thiserror::Error;

/// Why a recipe that opens a node returns none.
#[derive(Clone, Copy, Debug, PartialEq, Eq, Error)]
pub enum RecipeError {
    /// The node was not opened.
    #[error("the node does not open: {0}")]
    Open(#[from] OpenError),
    /// A call of a desk failed.
    #[error("a call is refused: {0}")]
    Call(#[from] Fault),
    /// A letter was not handled.
    #[error("a turn stopped: {0}")]
    Turn(#[from] Stop),
    /// A call of a node failed.
    #[error("a call is refused: {0}")]
    Node(#[from] NodeFault),
    /// The node did not run.
    #[error("the node does not run: {0}")]
    Run(#[from] RunFault),
    /// There was no memory outside of the desks.
    #[error("there was no memory")]
    Memory,
}

impl From<AllocError> for RecipeError {
    fn from(_error: AllocError) -> RecipeError {
        RecipeError::Memory
    }
}

impl<T: Drop> From<AllocFailed<T>> for RecipeError {
    fn from(_failed: AllocFailed<T>) -> RecipeError {
        RecipeError::Memory
    }
}

impl From<NodeBack> for RecipeError {
    fn from(_back: NodeBack) -> RecipeError {
        RecipeError::Memory
    }
}
