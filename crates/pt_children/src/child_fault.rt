//! Why a call about a child is refused.

ghost use Rattle.std.specs.Prelude.{◌≡◌};
ghost use Rattle.pt_children.specs.Calling.{present_fault};

use crate::seen::ChildState;
use pt_signal::Pid;
use thiserror::Error;

/// Why a call about a child is refused. The supervisor is as it was then.
#[derive(Clone, Copy, Debug, PartialEq, Eq, Error)]
pub enum ChildFault {
    /// It has no child with this id.
    #[error("there is no such child")]
    NotFound,
    /// The child is alive, by all that the supervisor has heard.
    #[error("the child is running")]
    Running,
    /// The child is not alive, and the supervisor is to start it.
    #[error("the child is restarting")]
    Restarting,
    /// There is a child with this id, which is not alive.
    #[error("the child is present already")]
    AlreadyPresent,
    /// There is a child with this id, and this is its process.
    #[error("the child has been started already: {0}")]
    AlreadyStarted(Pid),
    /// The supervisor does not wait until the program has started the child on another desk.
    #[error("the child is not awaited")]
    NotAwaited,
    /// There is no memory for one more child.
    #[error("no memory")]
    Memory,
}

/// Why a child is not taken in if there is one with its id, of whose process this is so.
pub fn present(state: ChildState) -> ChildFault
    ensures { result ≡ present_fault state }
{
    match state {
        ChildState::Running(pid) => ChildFault::AlreadyStarted(pid),
        ChildState::Restarting => ChildFault::AlreadyPresent,
        ChildState::Undefined => ChildFault::AlreadyPresent,
    }
}
