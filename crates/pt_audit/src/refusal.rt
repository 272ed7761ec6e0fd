//! Why there is no verdict, or not all of the output was printed.

use pt_auditor::{Damage, Fault, Flaw, Foreign, Objection, Unfit, Verdict, Why};
use pt_signal::Pid;
use std::alloc::AllocError;
use std::io;

#[derive(Clone, Copy)]
pub enum Refusal {
    /// The first line at fault.
    History(Fault),
    /// The first line at fault among several files: the place of its file, and its number there.
    InFile(usize, Fault),
    /// The history is legal, and no node prints this line.
    NoNode(Foreign),
    /// The same among several files.
    NoNodeInFile(usize, Foreign),
    /// The history is legal, and it has no event, or a letter is in flight.
    Incomplete(Verdict),
    /// The last line of the file at the place has no line feed. The number is that of the line.
    Torn(usize, u64),
    /// The state that the history goes on from is damaged.
    Damaged(Damage),
    /// The state has the process twice.
    Twice(Pid),
    /// The state was not read.
    UnreadState(io::Error),
    /// The state was not written.
    Unsaved(io::Error),
    Memory,
    /// The file at the place was not read.
    Unread(usize, io::Error),
    /// The output was not written.
    Unwritten(io::Error),
}

/// The refusal if the file at the place was not read.
pub fn unread(place: usize, error: io::Error) -> Refusal {
    if error.kind() == io::ErrorKind::OutOfMemory {
        Refusal::Memory
    } else {
        Refusal::Unread(place, error)
    }
}

/// Whether the fault is that there was no memory.
pub fn wants_memory(fault: Fault) -> bool {
    match fault.why {
        Why::Memory => true,
        Why::Event(_, objection) => objection == Objection::Memory,
        Why::Letter(_, objection) => objection == Objection::Memory,
        _ => false,
    }
}

/// The refusal of a history for this fault. The number of its line is that in the history that is read, behind so many
/// events.
pub fn faulty(fault: Fault, before: u64) -> Refusal {
    if wants_memory(fault) {
        return Refusal::Memory;
    }
    let why = fault.why;
    let line = fault.line.saturating_sub(before);
    Refusal::History(Fault { line, why })
}

impl From<AllocError> for Refusal {
    fn from(_: AllocError) -> Refusal {
        Refusal::Memory
    }
}

impl From<io::Error> for Refusal {
    fn from(error: io::Error) -> Refusal {
        if error.kind() == io::ErrorKind::OutOfMemory {
            Refusal::Memory
        } else {
            Refusal::Unwritten(error)
        }
    }
}

impl From<Damage> for Refusal {
    fn from(damage: Damage) -> Refusal {
        if damage.flaw == Flaw::Memory {
            Refusal::Memory
        } else {
            Refusal::Damaged(damage)
        }
    }
}

impl From<Unfit> for Refusal {
    fn from(unfit: Unfit) -> Refusal {
        match unfit {
            Unfit::Twice(pid) => Refusal::Twice(pid),
            Unfit::Memory => Refusal::Memory,
        }
    }
}
