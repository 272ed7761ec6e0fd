//! Why a script was not run, or its report not printed.

ghost use Rattle.std.specs.Prelude.{◌≡◌};
ghost use Rattle.pt_report.specs.Status.{fault_number, status_of};

use pt_node::{Fault, RunFault, Stop};
use pt_script::ScriptError;
use std::alloc::AllocError;
use thiserror::Error;

/// Why a script was not run, or its report not printed. Its text is one line, without a line feed.
#[derive(Clone, Copy, Debug, PartialEq, Eq, Error)]
pub enum ReportFault {
    /// The bytes are no script, or there was no memory to read them.
    #[error(transparent)]
    Script(ScriptError),
    /// There was no memory.
    #[error("memory refused")]
    Memory,
    /// A desk failed to spawn a process that the script begins with, or the node failed to settle.
    #[error("desk refused: {}", number_of(.0))]
    Desk(Fault),
    /// The writer failed to write or to flush. Some of the text may have been written.
    #[error("file refused")]
    File,
}

impl ReportFault {
    /// The exit status of the program: 1 if the bytes are no script, else 3.
    pub fn status(&self) -> u8
        ensures { result ≡ status_of self.now }
    {
        match self {
            ReportFault::Script(ScriptError::Refused { fault: _, place: _ }) => 1,
            ReportFault::Script(ScriptError::Memory)
            | ReportFault::Memory
            | ReportFault::Desk(_)
            | ReportFault::File => 3,
        }
    }
}

/// The number by which a fault of a desk is printed.
fn number_of(fault: &Fault) -> u8
    ensures { result ≡ fault_number fault.now }
{
    match fault {
        Fault::Full => 1,
        Fault::Memory => 2,
        Fault::Worn => 3,
        Fault::Gone => 4,
        Fault::Myself => 5,
        Fault::NoProc => 6,
    }
}

impl From<ScriptError> for ReportFault {
    ghost use Rattle.std.specs.Prelude.{◌≡◌};
    ghost use Rattle.pt_report.specs.declared.fault.ReportFault.TheVariants.{Script};

    ghost from_gives = { λ e f. f ≡ Script e };

    fn from(error: ScriptError) -> ReportFault {
        ReportFault::Script(error)
    }
}

impl From<AllocError> for ReportFault {
    ghost use Rattle.std.specs.Prelude.{◌≡◌};
    ghost use Rattle.pt_report.specs.declared.fault.ReportFault.TheVariants.{Memory};

    ghost from_gives = { λ _ f. f ≡ Memory };

    fn from(_error: AllocError) -> ReportFault {
        ReportFault::Memory
    }
}

impl From<Fault> for ReportFault {
    ghost use Rattle.std.specs.Prelude.{◌≡◌};
    ghost use Rattle.pt_report.specs.Status.{told_fault};

    ghost from_gives = { λ fault f. f ≡ told_fault fault };

    fn from(fault: Fault) -> ReportFault {
        match fault {
            Fault::Memory => ReportFault::Memory,
            _ => ReportFault::Desk(fault),
        }
    }
}

impl From<Stop> for ReportFault {
    ghost use Rattle.std.specs.Prelude.{◌≡◌};
    ghost use Rattle.pt_report.specs.Status.{stopped_fault};

    ghost from_gives = { λ stop f. f ≡ stopped_fault stop };

    fn from(stop: Stop) -> ReportFault {
        match stop {
            Stop::Memory => ReportFault::Memory,
            Stop::Worn => ReportFault::Desk(Fault::Worn),
        }
    }
}

impl From<RunFault> for ReportFault {
    ghost use Rattle.std.specs.Prelude.{◌≡◌};
    ghost use Rattle.pt_report.specs.declared.fault.ReportFault.TheVariants.{Memory};

    ghost from_gives = { λ _ f. f ≡ Memory };

    // a script has as many runners as desks, so memory is all that can be wanting
    fn from(_fault: RunFault) -> ReportFault {
        ReportFault::Memory
    }
}
