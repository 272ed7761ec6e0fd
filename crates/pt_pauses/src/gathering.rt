//! Supervisors in a node that runs, gets still and is gathered, as the contract of a function that does nothing.

ghost use Rattle.pt_events.specs.History.{Past};
ghost use Rattle.pt_workers.specs.Running.{begins_by};
ghost use Rattle.pt_workers.specs.declared.work.Standing.TheVariants.{Going};
ghost use Rattle.pt_crew.specs.Running.{RestUpholds, RoundsUphold, RunUpholds};
ghost use Rattle.pt_supervisor.specs.Keeping.{Keeps};
ghost use Rattle.pt_pauses.specs.Gathering.{GatheredChildrenLive};

use crate::supervised::still_node_laws;
use pt_node::Gate;
use pt_supervisor::Supervised;

/// On each desk of a gathered node, each child that its supervisor wants alive is alive, or unlinked itself from the
/// supervisor; unless the supervisor is ending a child that traps exits and lives on. The function does nothing: its
/// contract is the promise.
///
/// It needs something of the crews, each over the desk at its place, after what happened on their node before (`past`):
/// [] if nothing is known of it. A run of them at this gate keeps it, on threads
/// (`run`) or in rounds (`rounds`), and so does turning the node until it is still (`rests`). The promise then needs
/// that no crew has anything to do ([`pt_crew::are_idle`]), and that the node is gathered and settled (`live`).
pub fn gathered_children_live<B: Supervised + Drop, G: Gate>(gate: &G)
    ensures run { (past : Past)
        → RunUpholds B.answers (Keeps past B.supervisor) (begins_by (λ _. Going) (G.lets gate.now)) }
    ensures rounds { (past : Past)
        → RoundsUphold B.answers (Keeps past B.supervisor) (begins_by (λ _. Going) (G.lets gate.now)) }
    ensures rests { (past : Past) → RestUpholds (Keeps past B.supervisor) }
    ensures live { GatheredChildrenLive B.supervisor }
{
    still_node_laws();
}
