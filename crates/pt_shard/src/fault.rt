//! Why a call fails.

use crate::stop::Stop;
use std::alloc::{AllocError, AllocFailed};
use thiserror::Error;

/// Why a call of a desk fails. After each of them the desk is as it was, except for what a look in the directory of
/// exited processes leaves. The journal notes `NoProc`, and before `Worn` and `Memory` the desk may have looked.
///
/// If several are possible, it is the first of: `Gone`, `Myself`, `NoProc`, `Worn`, `Full`, `Memory`.
#[derive(Clone, Copy, Debug, PartialEq, Eq, Error)]
pub enum Fault {
    /// No slot is free for a new process.
    #[error("no slot is free")]
    Full,
    /// There was no memory.
    #[error("there was no memory")]
    Memory,
    /// The clock is at its limit, and the call has an event to write.
    #[error("the clock is at its limit")]
    Worn,
    /// The acting process is not alive on this desk.
    #[error("the process is not alive here")]
    Gone,
    /// A process cannot monitor itself.
    #[error("a process cannot monitor itself")]
    Myself,
    /// The desk sees that the other process has exited.
    #[error("the other process has ended")]
    NoProc,
}

impl From<AllocError> for Fault {
    ghost use Rattle.std.specs.Prelude.{◌≡◌};
    ghost use Rattle.pt_shard.specs.declared.fault.Fault.TheVariants.{Memory};

    ghost from_gives = { λ _ f. f ≡ Memory };

    fn from(_error: AllocError) -> Fault {
        Fault::Memory
    }
}

impl<T: Drop> From<AllocFailed<T>> for Fault {
    ghost use Rattle.std.specs.Prelude.{◌≡◌};
    ghost use Rattle.pt_shard.specs.declared.fault.Fault.TheVariants.{Memory};

    ghost from_gives = { λ _ f. f ≡ Memory };

    fn from(_failed: AllocFailed<T>) -> Fault {
        Fault::Memory
    }
}

impl From<Stop> for Fault {
    ghost use Rattle.std.specs.Prelude.{◌≡◌};
    ghost use Rattle.pt_shard.specs.Faults.{fault_of};

    ghost from_gives = { λ s f. f ≡ fault_of s };

    fn from(stop: Stop) -> Fault {
        match stop {
            Stop::Memory => Fault::Memory,
            Stop::Worn => Fault::Worn,
        }
    }
}
