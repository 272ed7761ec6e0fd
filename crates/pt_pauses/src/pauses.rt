//! Supervisors over a pause of their node, as the contract of a function that does nothing.

ghost use Rattle.pt_workers.specs.Running.{begins_by};
ghost use Rattle.pt_workers.specs.declared.work.Standing.TheVariants.{Going};
ghost use Rattle.pt_pauses.specs.Pauses.{PausesHold, PausesKeepLeft, RestHolds, RoundsHold, RunHolds, StaysFrom};

use pt_node::Gate;
use pt_supervisor::Supervised;

/// What supervisors uphold on the desks of a node, they uphold behind a pause. The function does nothing: its contract
/// is the promise.
///
/// It needs that the node was gathered, settled and resumed, and that each crew began again (`hold`). What happened
/// until then counts as what was before, from the first opening of the node on: an unlink of a child, or what of its
/// exit. So by [`gathered_children_live`](crate::gathered_children_live) each child that a supervisor wants
/// alive is alive once the node is still again, or unlinked itself, unless the supervisor is ending one that traps exits
/// and lives on.
///
/// A run of the crews at this gate keeps it, on threads (`run`) or in rounds (`rounds`), and so does turning the node
/// until it is still (`rests`). What the desks go on from stays through every other call of them, too (`from`).
///
/// A supervisor that left its crew before the pause forgets no child either (`left`). So
/// [`stopped_children_ended`](crate::stopped_children_ended) holds of it behind the pause.
pub fn paused_children_live<B: Supervised + Drop, G: Gate>(gate: &G)
    ensures run { RunHolds B.answers B.supervisor (begins_by (λ _. Going) (G.lets gate.now)) }
    ensures rounds { RoundsHold B.answers B.supervisor (begins_by (λ _. Going) (G.lets gate.now)) }
    ensures rests { RestHolds B.supervisor }
    ensures from { StaysFrom }
    ensures hold { PausesHold B.supervisor }
    ensures left { PausesKeepLeft B.supervisor }
{}
