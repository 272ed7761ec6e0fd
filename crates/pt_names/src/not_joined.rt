//! What a caller learns of a process that did not join a group.

ghost use Rattle.std.specs.Prelude.{◌≡◌};
ghost use Rattle.pt_names.specs.GroupRegistering.{not_joined_as};

use crate::group::JoinError;
use crate::group_registry::GroupError;
use pt_workers::{Fault, Ref};

/// Why a process did not join, once the monitor that was made of it was to be cancelled.
pub(crate) fn not_joined(
    error: JoinError,
    reference: Ref,
    cancelled: Result<bool, Fault>,
) -> GroupError
    ensures { result ≡ not_joined_as error reference cancelled }
{
    match cancelled {
        Ok(_) => GroupError::Refused(error),
        Err(_) => GroupError::LeftOpen(error, reference),
    }
}
