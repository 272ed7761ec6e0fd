//! Supervisors over a run of epochs, as the contract of a function that does nothing.

ghost use Rattle.pt_epochs.specs.Driving.{lets_short};
ghost use Rattle.pt_epochs.specs.Idle.{InTurns};
ghost use Rattle.pt_pauses.specs.Pauses.{EpochsHold, IdleEpochsLive, RunsHold};

use crate::supervised::still_node_laws;
use pt_epochs::{Drive, Sink};
use pt_laws::{laws, links};
use pt_supervisor::Supervised;

/// What supervisors uphold on the desks of a node, they uphold over a run of epochs. The function does nothing: its
/// contract is the promise.
///
/// The end of an epoch keeps it (`ends`), and so does a run of epochs by this drive (`run`) and one on threads
/// (`threads`). If one of these epochs ends since nothing is left to do, each child that its supervisor wants alive is
/// alive at its end, or unlinked itself, unless the supervisor is ending one that traps exits and lives on (`idle`, and
/// `idle_threads` on threads).
pub fn epochs_children_live<B: Supervised + Drop, D: Drive<B>, S: Sink>(drive: &D)
    ensures ends { EpochsHold B.supervisor S.takes S.refuses }
    ensures run { RunsHold B.supervisor S.takes S.refuses (λ plan. InTurns B.answers (D.lets drive.now) plan.budget) }
    ensures threads { RunsHold B.supervisor S.takes S.refuses
        (λ plan. InTurns B.answers (lets_short plan.events) plan.budget) }
    ensures idle { IdleEpochsLive B.supervisor S.takes S.refuses
        (λ plan. InTurns B.answers (D.lets drive.now) plan.budget) }
    ensures idle_threads { IdleEpochsLive B.supervisor S.takes S.refuses
        (λ plan. InTurns B.answers (lets_short plan.events) plan.budget) }
{
    still_node_laws();
    laws::receipts_lower_the_load();
    laws::quiet_monitors();
    links::resumed_links();
}
