//! Schedulers over a pause of their node, as the contract of a function that does nothing.

ghost use Rattle.pt_scheduler_laws.specs.Schedulers.{SchedulerPausesHold};

/// What the supervisors of schedulers uphold on the desks of a node, they uphold behind a pause. The function does nothing:
/// its contract is the promise.
///
/// It needs that the node was gathered, settled and resumed, and that each scheduler went on with the node's history
/// ([`Scheduler::go_on`](pt_scheduler::Scheduler::go_on)). What happened until then counts as what was before. So by
/// [`node_children_live`](crate::node_children_live) each child that a supervisor wants alive is alive once the node is
/// still again, or unlinked itself, unless the supervisor is ending one that traps exits and lives on. This holds over any
/// number of pauses, one after the other.
pub fn paused_scheduler_children_live()
    ensures { SchedulerPausesHold }
{}
