//! Why a call of a behaviour fails.

use pt_workers::Fault;
use thiserror::Error;

/// Why a call of a behaviour fails.
///
/// After each of them the desk is as it was, but for `Refused(Fault::NoProc)`, which its journal notes. `Unknown` comes
/// first.
#[derive(Clone, Copy, Debug, PartialEq, Eq, Error)]
pub enum CallFault {
    /// The desk does not know the target: a number of its pid is out of the node's ranges, or it is of this desk, which
    /// has not issued its version.
    #[error("the target is not known")]
    Unknown,
    /// The call of the desk fails, for this reason.
    #[error("{0}")]
    Refused(Fault),
}

impl From<Fault> for CallFault {
    ghost use Rattle.std.specs.Prelude.{◌≡◌};
    ghost use Rattle.pt_behaviour.specs.declared.call_fault.CallFault.TheVariants.{Refused};

    ghost from_gives = { λ fault f. f ≡ Refused fault };

    fn from(fault: Fault) -> CallFault {
        CallFault::Refused(fault)
    }
}
