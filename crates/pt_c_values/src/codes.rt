//! The codes that calls return.

ghost use Rattle.std.specs.Prelude.{◌≡◌};
ghost use Rattle.pt_c_values.specs.Codes.{code_of, code_at, stop_code, open_code};

use pt_shard::{Fault, Stop};
use pt_signal::{OpenError, Setting};

/// The call succeeded.
pub const DONE: u32 = 0;

/// There was no memory.
pub const MEMORY: u32 = 2;

/// The desk cannot have had the target.
pub const UNKNOWN: u32 = 7;

/// What was asked for is not there.
pub const NOTHING: u32 = 8;

/// A handle is empty.
pub const EMPTY: u32 = 9;

/// A handle that must be empty is not.
pub const FILLED: u32 = 10;

/// A code in a struct that was passed in is none of its enumeration.
pub const BAD_CODE: u32 = 16;

/// An answer is for a process that is not running.
pub const NOT_RUNNING: u32 = 17;

/// A crew is used with a desk that is not its own.
pub const WRONG_DESK: u32 = 18;

/// The child is running.
pub const CHILD_RUNNING: u32 = 23;

/// The child is not running, and its supervisor is to start it.
pub const CHILD_RESTARTING: u32 = 24;

/// The supervisor has a child with this tag, which is not running.
pub const CHILD_PRESENT: u32 = 25;

/// The settled node has no list of its pids.
pub const UNLISTED: u32 = 26;

pub fn code_of(fault: Fault) -> u32
    ensures { result ≡ code_of fault }
{
    match fault {
        Fault::Full => 1,
        Fault::Memory => MEMORY,
        Fault::Worn => 3,
        Fault::Gone => 4,
        Fault::Myself => 5,
        Fault::NoProc => 6,
    }
}

pub fn code_at(answer: Result<(), Fault>) -> u32
    ensures { result ≡ code_at answer }
{
    match answer {
        Ok(()) => DONE,
        Err(fault) => code_of(fault),
    }
}

pub fn stop_code(stop: Option<Stop>) -> u32
    ensures { result ≡ stop_code stop }
{
    match stop {
        None => DONE,
        Some(Stop::Memory) => MEMORY,
        Some(Stop::Worn) => 3,
    }
}

pub fn open_code(error: OpenError) -> u32
    ensures { result ≡ open_code error }
{
    match error {
        OpenError::Memory => MEMORY,
        OpenError::Bounds(Setting::Desks) => 11,
        OpenError::Bounds(Setting::Slots) => 12,
        OpenError::Bounds(Setting::TopVersion) => 13,
        OpenError::Bounds(Setting::Lane) => 14,
        OpenError::Bounds(Setting::Start) => 15,
    }
}
