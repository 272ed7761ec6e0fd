//! The laws of the lines of a history, and of what its events change.

ghost use Rattle.pt_auditor.specs.Changes.{KeepsState, StepsTellAll, StepsTellState};
ghost use Rattle.pt_auditor.specs.Laws.{LinesAreShort};

/// [`MOST_LINE`](crate::MOST_LINE) is 1024, and each event and each letter left over prints fewer bytes.
pub fn lines_are_short()
    ensures { LinesAreShort }
{}

/// The changes of an event, applied to the judge's state before it, give the state after it: each process, and the
/// signals on their way. So a reader who applies the changes of all events up to a place, from nothing, has the state
/// there.
pub fn changes_tell_state()
    ensures one { KeepsState }
    ensures goes_on { StepsTellState }
    ensures all { StepsTellAll }
{}
