//! Why a request was not sent.

use pt_behaviour::CallFault;
use pt_workers::Ref;
use thiserror::Error;

/// Why a request was not sent.
#[derive(Clone, Copy, Debug, PartialEq, Eq, Error)]
pub enum AskFault {
    /// It could not be made or sent, for this reason, and no monitor is left of it.
    #[error("{0}")]
    Unasked(CallFault),
    /// It could not be sent, for this reason, and cancelling its monitor failed too. The monitor is still open:
    /// [`demonitor`](pt_behaviour::demonitor) cancels it. If it is left, its `DOWN` may arrive, and belongs to no call.
    #[error("{0}, and its monitor is still open")]
    LeftOpen(CallFault, Ref),
}

impl From<CallFault> for AskFault {
    ghost use Rattle.std.specs.Prelude.{◌≡◌};
    ghost use Rattle.pt_names.specs.declared.ask_fault.AskFault.TheVariants.{Unasked};

    ghost from_gives = { λ fault f. f ≡ Unasked fault };

    fn from(fault: CallFault) -> AskFault {
        AskFault::Unasked(fault)
    }
}
