//! What a caller learns of a process that was not registered.

ghost use Rattle.std.specs.Prelude.{◌≡◌};
ghost use Rattle.pt_names.specs.Registering.{unkept_as};

use crate::names::RegisterError;
use crate::registry::RegistryError;
use pt_workers::{Fault, Ref};

/// Why a process was not registered for which there was no name, once its monitor was to be cancelled.
pub(crate) fn unkept(
    error: RegisterError,
    reference: Ref,
    cancelled: Result<bool, Fault>,
) -> RegistryError
    ensures { result ≡ unkept_as error reference cancelled }
{
    match cancelled {
        Ok(_) => RegistryError::Refused(error),
        Err(_) => RegistryError::LeftOpen(error, reference),
    }
}
