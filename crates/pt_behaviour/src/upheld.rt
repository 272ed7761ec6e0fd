//! Behaviours with a relation to their desk that they uphold.

ghost use Rattle.pt_signal.specs.declared.pid.Pid.{Pid};
ghost use Rattle.pt_shard.specs.ShardState.{ShardState};
ghost use Rattle.pt_behaviour.specs.declared.behaviour.Next.{Next};
ghost use Rattle.pt_behaviour.specs.Upholding.{IsUpheld};

use crate::behaviour::Behaviour;

/// A behaviour with a relation to its desk that it upholds.
///
/// `stands` relates the behaviour, what it does next, its pid and its desk. `upheld` proves these of what the behaviour
/// may answer:
///
/// - an item that it gets keeps the relation;
/// - the children that it spawns begin with the relation;
/// - it acts for itself alone;
/// - what others do, what it receives, and its own exit keep the relation.
///
/// Then a crew of it keeps the relation for all its members, and for those that left: see `crew_upholds` of `pt_crew`.
pub trait Upheld: Behaviour {
    ghost stands: { Self → Next → Pid → ShardState → Type 0 };

    ghost upheld: { IsUpheld Self.answers stands };
}
