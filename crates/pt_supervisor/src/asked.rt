//! What a supervisor that ends a child does next.

ghost use Rattle.std.specs.Prelude.{◌≡◌};
ghost use Rattle.pt_supervisor.specs.Changed.{due_at};
ghost use Rattle.pt_supervisor.specs.Ending.{is_noproc, next_at_stage};

use pt_behaviour::{CallFault, Next};
use pt_children::{Shutdown, Stage};
use pt_workers::{Fault, Pick};

/// What a supervisor does next that has come to this stage: it waits for the `DOWN`, until a time if there is one. It
/// proceeds if it has not told the child yet.
pub(crate) fn waits(stage: Stage) -> Next
    ensures { result ≡ next_at_stage stage }
{
    match stage {
        Stage::Gone => Next::Proceed,
        Stage::Watched(_) => Next::Proceed,
        Stage::Waiting(monitor) => Next::Wait(Pick::DownOf(monitor)),
        Stage::Until(monitor, at) => Next::WaitUntil(Pick::DownOf(monitor), at),
        Stage::Killed(monitor) => Next::Wait(Pick::DownOf(monitor)),
    }
}

/// Whether a call was refused since the process that it was to reach has exited.
pub(crate) fn is_noproc(fault: CallFault) -> bool
    ensures { result ≡ is_noproc fault }
{
    match fault {
        CallFault::Refused(Fault::NoProc) => true,
        _ => false,
    }
}

/// What a supervisor does next that ends a child so, and has come to this stage: it waits for the `DOWN`, until a time if
/// there is one. It proceeds if it has not told the child yet.
pub(crate) fn due_at(stage: Option<Stage>, shutdown: Shutdown) -> Next
    ensures { result ≡ due_at stage shutdown }
{
    match (stage, shutdown) {
        (Some(Stage::Waiting(monitor)), Shutdown::Infinity) => Next::Wait(Pick::DownOf(monitor)),
        (Some(Stage::Until(monitor, at)), _) => Next::WaitUntil(Pick::DownOf(monitor), at),
        (Some(Stage::Killed(monitor)), _) => Next::Wait(Pick::DownOf(monitor)),
        (_, _) => Next::Proceed,
    }
}
