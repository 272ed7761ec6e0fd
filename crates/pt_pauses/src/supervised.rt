//! Supervisors in a node that is still, and supervisors that stopped, as the contracts of functions that do nothing.

ghost use Rattle.std.specs.Prelude.{◌≡◌, ℕ, List, [], Result};
ghost use Rattle.pt_signal.specs.declared.pid.Pid.{Pid};
ghost use Rattle.pt_signal.specs.declared.letter.Letter.{Letter};
ghost use Rattle.pt_events.specs.History.{Past};
ghost use Rattle.pt_shard.specs.declared.fault.Fault.{Fault};
ghost use Rattle.pt_shard.specs.ShardState.{ShardState, handled};
ghost use Rattle.pt_desk.specs.DeskState.{DeskState};
ghost use Rattle.pt_desk.specs.declared.turned.Turned.{Turned};
ghost use Rattle.pt_behaviour.specs.declared.behaviour.Next.{Next};
ghost use Rattle.pt_crew.specs.declared.crew.Crew.{Crew};
ghost use Rattle.pt_crew.specs.Visiting.{Roles};
ghost use Rattle.pt_crew.specs.Waking.{IsAwake};
ghost use Rattle.pt_crew.specs.Crews.{CrewDoes, Enters, CrewWorks, left, members, queue, roles, waiting, IsIdle};
ghost use Rattle.pt_behaviour.specs.declared.births.Role.{Role};
ghost use Rattle.pt_crew.specs.Upholding.{AllStand, AllStill, Upholds};
ghost use Rattle.pt_supervisor.specs.Keeping.{SupervisorBegins, Keeps};
ghost use Rattle.pt_pauses.specs.Still.{QuietChildrenLive, StillLaws};
ghost use Rattle.pt_pauses.specs.Stopping.{StoppedChildrenEnded};

use pt_laws::{laws, links};
use pt_supervisor::Supervised;

/// The laws of histories on which the promises on still nodes rest. The function does nothing: its contract is these
/// laws.
///
/// A journal tells its own pids (`say`). Journals whose lanes agree have a merge (`there`), it is legal (`legal`), and
/// who is linked in it is known (`known`). A reference is made once (`once`), and stamps make new ids (`stamps`).
pub fn still_node_laws()
    ensures { StillLaws }
{
    laws::journals_tell_their_pids();
    laws::journals_have_one_merge();
    laws::merge_is_legal();
    links::merge_known();
    laws::one_down();
    laws::stamps_make_new_ids();
}

/// In a node that is still, each child that its supervisor wants alive is alive, or unlinked itself from the
/// supervisor; unless the supervisor is ending a child that traps exits and lives on. Such a child has no time to be
/// killed by, or its time has not come. The function does nothing: its contract is the promise.
///
/// What it needs of the crew holds for an empty crew (`nobody`). A step, a step with a turn, and a receipt keep it. So
/// does spawning a process that begins as it should. A crew is idle if its queue is empty, and each process that has
/// something to do is in the queue. All of it is said after what happened on the node before (`past`): [] if nothing is
/// known of it.
pub fn quiet_children_live<B: Supervised + Drop>()
    ensures nobody { (past : Past) (c : Crew B) (d : ShardState) → ((p : Pid) → roles c p ≡ None)
        → waiting c ≡ [] → Upholds (Keeps past B.supervisor) c d }
    ensures step { (past : Past) (old new : Crew B) (d e : ShardState) → CrewDoes B.answers old d new e
        → Upholds (Keeps past B.supervisor) old d → Upholds (Keeps past B.supervisor) new e }
    ensures work { (past : Past) (old new : Crew B) (budget : ℕ) (d e : DeskState) (turned : Turned)
        → CrewWorks B.answers budget old d turned new e → Upholds (Keeps past B.supervisor) old d.shard
        → Upholds (Keeps past B.supervisor) new e.shard }
    ensures receipt { (past : Past) (roles : Roles B) (d : ShardState) (l : Letter)
        → AllStand (Keeps past B.supervisor) roles d → AllStand (Keeps past B.supervisor) roles (handled l d) }
    ensures enter { (past : Past) (b : B) (first : Next) (old new : Crew B) (d e : ShardState)
        (result : Result Pid Fault) → Enters b first old d result new e → SupervisorBegins (B.supervisor b) first
        → Upholds (Keeps past B.supervisor) old d → Upholds (Keeps past B.supervisor) new e }
    ensures idle { (c : Crew B) (d : ShardState) → IsAwake (members c) (queue c) d → queue c ≡ [] → IsIdle c d }
    ensures live { QuietChildrenLive B.supervisor }
{
    still_node_laws();
}

/// If a supervisor stopped by itself, no child that it ever started is alive, unless that child sent it an exit signal.
/// The function does nothing: its contract is the promise.
///
/// What it needs still holds for a supervisor that left in a step (`left`, and after a turn `left_work`), and receipts
/// keep that (`receipt`). So the promise holds in each gathered node (`ended`): of a supervisor that was not there as
/// the journal of its desk began; or of any, after all that happened on the node before.
pub fn stopped_children_ended<B: Supervised + Drop>()
    ensures left { (past : Past) (old new : Crew B) (d e : ShardState) → CrewDoes B.answers old d new e
        → Upholds (Keeps past B.supervisor) old d → AllStill (Keeps past B.supervisor) (left new) e }
    ensures left_work { (past : Past) (old new : Crew B) (budget : ℕ) (d e : DeskState) (turned : Turned)
        → CrewWorks B.answers budget old d turned new e → Upholds (Keeps past B.supervisor) old d.shard
        → AllStill (Keeps past B.supervisor) (left new) e.shard }
    ensures receipt { (past : Past) (roles : List (Role B)) (d : ShardState) (l : Letter)
        → AllStill (Keeps past B.supervisor) roles d → AllStill (Keeps past B.supervisor) roles (handled l d) }
    ensures ended { StoppedChildrenEnded B.supervisor }
{
    laws::merge_is_legal();
    links::merge_known();
}
