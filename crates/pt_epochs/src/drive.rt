//! How the crews of a node are run for some turns.

ghost use Rattle.std.specs.Prelude.{ℕ, Bool};
ghost use Rattle.pt_desk.specs.DeskState.{DeskState};
ghost use Rattle.pt_workers.specs.NodeRunning.{RunsNode};
ghost use Rattle.pt_crew.specs.declared.crew.Crew.{Crew};
ghost use Rattle.pt_crew.specs.Running.{CrewsDo};
ghost use Rattle.pt_epochs.specs.Driving.{AllWorkLet};

use pt_behaviour::Behaviour;
use pt_crew::Crew;
use pt_node::{FreeGate, Node, RunFault};

/// How the crews of a node are run for some turns: by [`Rounds`] on the calling thread.
///
/// The ghost member `lets` says which turns may begin: of the desk with its crew as they are before the turn, the number
/// of the turn, and the answer.
pub trait Drive<B: Behaviour + Drop> {
    ghost lets: { Self → DeskState × Crew B → ℕ → Bool → Type 0 };

    /// Runs each crew for up to so many turns, each over the desk at its place.
    ///
    /// Fails with `Works` exactly if there are not as many crews as desks, else with `Memory` if there is none.
    fn drive(
        &self,
        node: &mut Node,
        crews: &mut Vec<Crew<B>>,
        turns: u64,
        budget: u32,
    ) -> Result<(), RunFault>
        ensures { RunsNode (AllWorkLet (lets self.now) (CrewsDo B.answers) turns budget)
            node.old crews.old.items result node.new crews.new.items };

    /// The most turns that it is worth while to take before it is looked whether the crews are idle.
    fn longest(&self) -> u64;
}

/// Runs the crews on the calling thread, in rounds, as [`Node::run_single`] does. Each takes all its turns.
#[derive(Clone, Copy, Debug)]
pub struct Rounds;

impl<B: Behaviour + Drop> Drive<B> for Rounds {
    ghost use Rattle.pt_epochs.specs.Driving.{lets_each};

    ghost lets = { λ _ x turn begins. lets_each x turn begins };

    fn drive(
        &self,
        node: &mut Node,
        crews: &mut Vec<Crew<B>>,
        turns: u64,
        budget: u32,
    ) -> Result<(), RunFault> {
        node.run_single(crews, turns, budget, &FreeGate)
    }

    fn longest(&self) -> u64 {
        64
    }
}
