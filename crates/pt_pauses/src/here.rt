//! Supervisors that spawn all their children, as the contracts of functions that do nothing.

ghost use Rattle.pt_workers.specs.Running.{begins_by};
ghost use Rattle.pt_workers.specs.declared.work.Standing.TheVariants.{Going};
ghost use Rattle.pt_epochs.specs.Driving.{lets_short};
ghost use Rattle.pt_epochs.specs.Idle.{InTurns};
ghost use Rattle.pt_pauses.specs.Here.{AnswersHere, CrewsStayHere, EpochsStayHere, GatheredHereLive, HeldHereLive, IdleHereLive};
ghost use Rattle.pt_pauses.specs.Here.{QuietHereLive, RunUntilIdleStaysHere, RunsStayHere, CrewStaysHere};

use crate::supervised::still_node_laws;
use pt_epochs::{Drive, Sink};
use pt_laws::{laws, links};
use pt_node::Gate;
use pt_supervisor::Supervised;

/// In a node that is still, each child that its supervisor wants alive is alive, or unlinked itself from the supervisor;
/// unless the supervisor is ending a child that traps exits and lives on. So it is of supervisors that spawn all their
/// children, at any time: they wait for no child on another desk. The function does nothing: its contract is the promise.
///
/// It holds of one crew (`quiet`), and of all crews of a gathered node (`gathered`). It needs what
/// [`quiet_children_live`](crate::quiet_children_live) and [`gathered_children_live`](crate::gathered_children_live) need,
/// and that each supervisor spawns all its children (`CrewHere`).
///
/// A crew of nobody is so, and a process that is so may enter it. A step keeps it, a step with a turn, and beginning again
/// behind a pause (`stays`). So does a run of all crews at this gate, on threads or in rounds (`runs`). The program shows that
/// its behaviours keep it (`AnswersHere`): for its supervisors by
/// [`children_stay_here`](pt_supervisor::children_stay_here).
pub fn children_here_live<B: Supervised + Drop, G: Gate>(gate: &G)
    ensures stays { AnswersHere B.answers B.supervisor → CrewStaysHere B.answers B.supervisor }
    ensures runs { AnswersHere B.answers B.supervisor
        → CrewsStayHere B.answers B.supervisor (begins_by (λ _. Going) (G.lets gate.now)) }
    ensures quiet { QuietHereLive B.supervisor }
    ensures gathered { GatheredHereLive B.supervisor }
{
    still_node_laws();
}

/// Over a run of epochs, supervisors that spawn all their children go on to do so, and each child that they want alive is
/// alive where all is still. The function does nothing: its contract is the promise.
///
/// The end of an epoch keeps it, a halt, and [`Halted::go_on`](pt_epochs::Halted::go_on) (`epochs`). So does a run of epochs
/// by this drive, to its end or to a halt (`run`), and one on threads (`threads`), and a run until nothing is left to do
/// (`until_idle`). If an epoch ends since nothing is left to do, each child that its supervisor wants alive is alive at its
/// end, or unlinked itself, unless the supervisor is ending one that traps exits and lives on (`idle`, and `idle_threads` on
/// threads). So it is on a node that halted, once no letter is left over and no process has anything to do (`held`).
pub fn epochs_children_here_live<B: Supervised + Drop, D: Drive<B>, S: Sink>(drive: &D)
    ensures epochs { EpochsStayHere B.supervisor S.takes S.refuses }
    ensures run { AnswersHere B.answers B.supervisor → RunsStayHere B.supervisor S.takes S.refuses
        (λ plan. InTurns B.answers (D.lets drive.now) plan.budget) }
    ensures threads { AnswersHere B.answers B.supervisor → RunsStayHere B.supervisor S.takes S.refuses
        (λ plan. InTurns B.answers (lets_short plan.events) plan.budget) }
    ensures until_idle { AnswersHere B.answers B.supervisor
        → RunUntilIdleStaysHere B.supervisor (InTurns B.answers (D.lets drive.now)) }
    ensures idle { AnswersHere B.answers B.supervisor → IdleHereLive B.supervisor S.takes S.refuses
        (λ plan. InTurns B.answers (D.lets drive.now) plan.budget) }
    ensures idle_threads { AnswersHere B.answers B.supervisor → IdleHereLive B.supervisor S.takes S.refuses
        (λ plan. InTurns B.answers (lets_short plan.events) plan.budget) }
    ensures held { HeldHereLive B.supervisor }
{
    still_node_laws();
    laws::receipts_lower_the_load();
    laws::quiet_monitors();
    links::resumed_links();
}
