//! What behaviours uphold on their desk, for anything that their crew does.

ghost use Rattle.std.specs.Prelude.{ℕ, List, Result};
ghost use Rattle.pt_signal.specs.declared.pid.Pid.{Pid};
ghost use Rattle.pt_signal.specs.declared.letter.Letter.{Letter};
ghost use Rattle.pt_shard.specs.declared.fault.Fault.{Fault};
ghost use Rattle.pt_shard.specs.ShardState.{ShardState, handled};
ghost use Rattle.pt_desk.specs.DeskState.{DeskState};
ghost use Rattle.pt_desk.specs.declared.turned.Turned.{Turned};
ghost use Rattle.pt_behaviour.specs.declared.behaviour.Next.{Next};
ghost use Rattle.pt_crew.specs.declared.crew.Crew.{Crew};
ghost use Rattle.pt_crew.specs.Visiting.{Roles};
ghost use Rattle.pt_crew.specs.Crews.{CrewDoes, Enters, CrewWorks, left};
ghost use Rattle.pt_behaviour.specs.declared.births.Role.{Role};
ghost use Rattle.pt_behaviour.specs.Upholding.{StandsFirst};
ghost use Rattle.pt_crew.specs.Upholding.{AllStand, AllStill, Upholds};

use pt_behaviour::Upheld;

/// A step, a step with a turn, and a receipt keep what the behaviours of a crew uphold. So does spawning a process that
/// has the relation from its start. A process that left in a step still has it, as what it was when it left, and
/// receipts keep that too. The function does nothing: its contract is the promise.
pub fn crew_upholds<B: Upheld + Drop>()
    ensures step { (old new : Crew B) (d e : ShardState) → CrewDoes B.answers old d new e → Upholds B.stands old d
        → Upholds B.stands new e }
    ensures work { (old new : Crew B) (budget : ℕ) (d e : DeskState) (turned : Turned)
        → CrewWorks B.answers budget old d turned new e → Upholds B.stands old d.shard → Upholds B.stands new e.shard }
    ensures receipt { (roles : Roles B) (d : ShardState) (l : Letter) → AllStand B.stands roles d
        → AllStand B.stands roles (handled l d) }
    ensures enter { (b : B) (first : Next) (old new : Crew B) (d e : ShardState) (result : Result Pid Fault)
        → Enters b first old d result new e → ((p : Pid) → StandsFirst B.stands b first p)
        → Upholds B.stands old d → Upholds B.stands new e }
    ensures left { (old new : Crew B) (d e : ShardState) → CrewDoes B.answers old d new e → Upholds B.stands old d
        → AllStill B.stands (left new) e }
    ensures left_work { (old new : Crew B) (budget : ℕ) (d e : DeskState) (turned : Turned)
        → CrewWorks B.answers budget old d turned new e → Upholds B.stands old d.shard
        → AllStill B.stands (left new) e.shard }
    ensures left_receipt { (roles : List (Role B)) (d : ShardState) (l : Letter) → AllStill B.stands roles d
        → AllStill B.stands roles (handled l d) }
{}
