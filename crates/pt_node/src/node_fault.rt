//! Why a call of a node fails.

use pt_shard::Fault;
use std::alloc::{AllocError, AllocFailed};
use thiserror::Error;

/// Why a call of a node fails.
///
/// After each of them the node is as it was, except that the journal of the desk notes `Refused(Fault::NoProc)`.
/// `NoDesk` comes first, then `Unknown`.
#[derive(Clone, Copy, Debug, PartialEq, Eq, Error)]
pub enum NodeFault {
    /// The node has no desk of that number, given by itself or as the desk of the acting process.
    #[error("the node has no such desk")]
    NoDesk,
    /// The target is no process that the node can have had. Either a number of its pid is out of the node's ranges, or
    /// it is of the acting process's desk, and that desk has not issued its version.
    #[error("the target is not known")]
    Unknown,
    /// The call of the desk failed. If a growth of the program's own finds no memory, `?` also makes this of it:
    /// `Refused(Fault::Memory)`.
    #[error("{0}")]
    Refused(Fault),
}

impl From<Fault> for NodeFault {
    ghost use Rattle.std.specs.Prelude.{◌≡◌};
    ghost use Rattle.pt_node.specs.declared.node_fault.NodeFault.TheVariants.{Refused};

    ghost from_gives = { λ fault f. f ≡ Refused fault };

    fn from(fault: Fault) -> NodeFault {
        NodeFault::Refused(fault)
    }
}

impl From<AllocError> for NodeFault {
    ghost use Rattle.std.specs.Prelude.{◌≡◌};
    ghost use Rattle.pt_shard.specs.declared.fault.Fault.TheVariants.{Memory};
    ghost use Rattle.pt_node.specs.declared.node_fault.NodeFault.TheVariants.{Refused};

    ghost from_gives = { λ _ f. f ≡ Refused Memory };

    fn from(_error: AllocError) -> NodeFault {
        NodeFault::Refused(Fault::Memory)
    }
}

impl<T: Drop> From<AllocFailed<T>> for NodeFault {
    ghost use Rattle.std.specs.Prelude.{◌≡◌};
    ghost use Rattle.pt_shard.specs.declared.fault.Fault.TheVariants.{Memory};
    ghost use Rattle.pt_node.specs.declared.node_fault.NodeFault.TheVariants.{Refused};

    ghost from_gives = { λ _ f. f ≡ Refused Memory };

    fn from(_failed: AllocFailed<T>) -> NodeFault {
        NodeFault::Refused(Fault::Memory)
    }
}
