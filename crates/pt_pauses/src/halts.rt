//! Supervisors where a run of epochs halts, and where it goes on, as the contract of a function that does nothing.

ghost use Rattle.pt_epochs.specs.Driving.{lets_short};
ghost use Rattle.pt_epochs.specs.Idle.{InTurns};
ghost use Rattle.pt_pauses.specs.Halts.{GatheringHolds, GoingOnHolds, HaltedEpochHolds, HaltedRunHolds, HaltingAgainHolds};
ghost use Rattle.pt_pauses.specs.Halts.{HeldChildrenEnded, HeldChildrenLive, ResumingHolds, RunUntilIdleHolds};
ghost use Rattle.pt_pauses.specs.Halts.{SettlingHolds};

use crate::supervised::still_node_laws;
use pt_epochs::{Drive, Sink};
use pt_laws::{laws, links};
use pt_supervisor::Supervised;

/// What supervisors uphold on the desks of a node, they uphold where a run of epochs halts, and where it goes on from
/// there. The function does nothing: its contract is the promise.
///
/// A halt keeps it: of the end of an epoch (`halts`), and of a run of epochs by this drive (`run`) or on threads
/// (`threads`). So does [`Halted::go_on`](pt_epochs::Halted::go_on), whether the node comes back (`goes_on`) or the epoch
/// halts again (`again`). So it holds over any number of epochs, halts and calls of `go_on`, one after the other.
///
/// A node that is halted may be gathered. What is upheld on a gathered node comes of the desks that are gathered
/// (`gathers`). It stays so as the node is settled, as far as that comes (`settles`), and is upheld behind a resumption
/// (`resumes`). On such a node both theorems hold. If no letter is left over and no process has anything to do, each
/// child that a supervisor wants alive is alive, or unlinked itself, unless the supervisor is ending one that traps exits
/// and lives on (`live`). If a supervisor stopped by itself, no child that it ever started is alive, unless that child
/// sent it an exit signal (`ended`).
///
/// A run until nothing is left to do keeps it too, by this drive, however it ends (`until_idle`).
pub fn halted_children_live<B: Supervised + Drop, D: Drive<B>, S: Sink>(drive: &D)
    ensures gathers { GatheringHolds B.supervisor }
    ensures settles { SettlingHolds B.supervisor }
    ensures resumes { ResumingHolds B.supervisor }
    ensures live { HeldChildrenLive B.supervisor }
    ensures ended { HeldChildrenEnded B.supervisor }
    ensures halts { HaltedEpochHolds B.supervisor S.takes S.refuses }
    ensures goes_on { GoingOnHolds B.supervisor S.takes S.refuses }
    ensures again { HaltingAgainHolds B.supervisor S.takes S.refuses }
    ensures run { HaltedRunHolds B.supervisor S.takes S.refuses
        (λ plan. InTurns B.answers (D.lets drive.now) plan.budget) }
    ensures threads { HaltedRunHolds B.supervisor S.takes S.refuses
        (λ plan. InTurns B.answers (lets_short plan.events) plan.budget) }
    ensures until_idle { RunUntilIdleHolds B.supervisor (InTurns B.answers (D.lets drive.now)) }
{
    still_node_laws();
    laws::receipts_lower_the_load();
    laws::quiet_monitors();
    links::resumed_links();
}
