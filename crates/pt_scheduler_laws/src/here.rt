//! What holds of schedulers whose supervisors spawn all their children, as the contract of a function that does nothing.

ghost use Rattle.pt_pauses.specs.Here.{QuietHereLive};
ghost use Rattle.pt_scheduler.specs.Members.{boss_part};
ghost use Rattle.pt_scheduler_laws.specs.Here.{ChildrenStayHere, EntryStaysHere, SchedulersHereLive, SchedulersStayHere};
ghost use Rattle.pt_scheduler_laws.specs.Here.{StepStaysHere};

use pt_pauses::still_node_laws;

/// In a node that is still, each child that a supervisor of a scheduler wants alive is alive, or unlinked itself from the
/// supervisor, unless that is ending a child that traps exits and lives on. So it is of a program that asks for no child on
/// another desk, at any time: its supervisors wait for none. The function does nothing: its contract is the promise.
///
/// It holds of one scheduler (`quiet`), and of all schedulers of a node (`node`). It needs what
/// [`scheduler_children_live`](crate::scheduler_children_live) and [`node_children_live`](crate::node_children_live) need, and
/// that each supervisor spawns all its children (`SchedulerHere`).
///
/// A new scheduler is so. Each call keeps it, by what its contract says it does: the calls of a step, answers, losses and
/// going on (`steps`); processes and supervisors that come in, if none of the children that are passed is to be on another
/// desk (`entries`); and what a program asks about children, if it adds none that is (`asks`). A pause keeps it, too
/// (`pauses`).
pub fn scheduler_children_here_live()
    ensures steps { StepStaysHere }
    ensures entries { EntryStaysHere }
    ensures asks { ChildrenStayHere }
    ensures pauses { SchedulersStayHere }
    ensures quiet { QuietHereLive boss_part }
    ensures node { SchedulersHereLive }
{
    still_node_laws();
}
