//! The structs and the codes of names.

ghost use Rattle.std.specs.Prelude.{◌≡◌};
ghost use Rattle.pt_c_tools.specs.Naming.{holder_out, name_out, register_code};

use pt_c_values::codes::{DONE, MEMORY};
use pt_c_values::crossing::{pid_out, ref_out};
use pt_c_values::types::{PtPid, PtRef};
use pt_names::{Holder, Name, RegisterError};

/// The bytes are no name.
pub const BAD_NAME: u32 = 19;

/// A process has the name.
pub const TAKEN: u32 = 20;

/// The process has a name.
pub const HAS_NAME: u32 = 21;

/// The name of a process: its letters, and zeros after them.
#[repr(C)]
#[derive(Clone, Copy)]
pub struct PtName {
    pub letters: [u8; 32],
}

/// The process that has a name, and the monitor that it was registered with.
#[repr(C)]
#[derive(Clone, Copy)]
pub struct PtHolder {
    pub pid: PtPid,
    pub monitor: PtRef,
}

pub(crate) fn register_code(answer: Result<(), RegisterError>) -> u32
    ensures { result ≡ register_code answer }
{
    match answer {
        Ok(()) => DONE,
        Err(RegisterError::Memory) => MEMORY,
        Err(RegisterError::Taken(_)) => TAKEN,
        Err(RegisterError::HasName(_)) => HAS_NAME,
    }
}

pub(crate) fn name_out(name: Name) -> PtName
    ensures { result ≡ name_out name }
{
    PtName {
        letters: name.letters(),
    }
}

pub(crate) fn holder_out(holder: Holder) -> PtHolder
    ensures { result ≡ holder_out holder }
{
    PtHolder {
        pid: pid_out(holder.pid),
        monitor: ref_out(holder.monitor),
    }
}
