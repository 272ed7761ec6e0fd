//! What holds of the supervisors of a scheduler, as the contract of a function that does nothing.

ghost use Rattle.std.specs.Prelude.{ℕ};
ghost use Rattle.pt_events.specs.History.{Past};
ghost use Rattle.pt_shard.specs.ShardState.{ShardState};
ghost use Rattle.pt_desk.specs.DeskState.{DeskState};
ghost use Rattle.pt_desk.specs.Turns.{Turns};
ghost use Rattle.pt_desk.specs.declared.turned.Turned.{Turned};
ghost use Rattle.pt_behaviour.specs.Upholding.{IsLater};
ghost use Rattle.pt_pauses.specs.Still.{QuietChildrenLive};
ghost use Rattle.pt_pauses.specs.Stopping.{StoppedChildrenEnded};
ghost use Rattle.pt_scheduler.specs.declared.scheduler.Scheduler.{Scheduler};
ghost use Rattle.pt_scheduler.specs.Members.{boss_part};
ghost use Rattle.pt_scheduler.specs.Scheduling.{AreLeftAlone, SchedulerUpholds};

use pt_pauses::{quiet_children_live, stopped_children_ended};
use pt_scheduler::Member;

/// In a node that is still, each child that a supervisor of a scheduler wants alive is alive, or unlinked itself from the
/// supervisor, unless that is ending a child that traps exits and lives on (`live`). If a supervisor stopped by itself, no
/// child that it ever started is alive, unless that child sent it an exit signal (`ended`). The function does nothing: its
/// contract is the promise.
///
/// Both need what the supervisors of the scheduler uphold. Each call of the scheduler keeps it. So does a turn of the desk
/// (`turn`), and whatever the program does on the desk, if it does nothing for a supervisor (`outside`).
pub fn scheduler_children_live()
    ensures turn { (past : Past) (t : Scheduler) (budget : ℕ) (d e : DeskState) (turned : Turned) → Turns budget d turned e
        → SchedulerUpholds past t d.shard → SchedulerUpholds past t e.shard }
    ensures outside { (past : Past) (t : Scheduler) (d e : ShardState) → IsLater d e → AreLeftAlone t d e
        → SchedulerUpholds past t d → SchedulerUpholds past t e }
    ensures live { QuietChildrenLive boss_part }
    ensures ended { StoppedChildrenEnded boss_part }
{
    quiet_children_live::<Member>();
    stopped_children_ended::<Member>();
}
