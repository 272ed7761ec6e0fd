//! What holds of the schedulers of all desks of a node that is still, as the contract of a function that does nothing.

ghost use Rattle.pt_scheduler_laws.specs.Quieting.{SchedulersChildrenLive};

use pt_pauses::still_node_laws;

/// Once no scheduler of a node has anything to do, and the node is gathered and settled, each child that a live supervisor
/// wants alive is alive, on each desk, or unlinked itself; unless the supervisor is ending a child that traps exits and
/// lives on. The function does nothing: its contract is the promise.
///
/// It needs what each call of a scheduler keeps (`SchedulerAttends`, `SchedulerUpholds`), and that
/// [`Scheduler::is_idle`](pt_scheduler::Scheduler::is_idle) is true of each over its desk.
pub fn node_children_live()
    ensures { SchedulersChildrenLive }
{
    still_node_laws();
}
