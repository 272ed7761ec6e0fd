//! What a behaviour upholds, its crew keeps: the processes of this crew never ask to stop.

ghost use Rattle.pt_workers.specs.Running.{begins_by};
ghost use Rattle.pt_workers.specs.declared.work.Standing.TheVariants.{Going};
ghost use Rattle.pt_crew.specs.Running.{RestUpholds, RunUpholds};
ghost use Rattle.test_calls.specs.Patient.{Listens, NeverStops};

use pt_behaviour::{Behaviour, Births, Next, Upheld};
use pt_crew::{crew_upholds, runs_uphold};
use pt_node::{Desk, FreeGate, Gate, Item, Pick, Pid};

/// Counts the items that it receives.
#[derive(Drop)]
pub(crate) struct Listener {
    pub(crate) heard: u32,
}

impl Behaviour for Listener {
    ghost answers = { Listens };

    #[tactic(auto, using(pt_workers::proofs::GoingOn::stays))]
    fn handle(
        &mut self,
        _desk: &mut Desk,
        _births: &mut Births<Listener>,
        _me: Pid,
        _item: Option<Item>,
    ) -> Next {
        self.heard = self.heard.saturating_add(1);
        Next::Wait(Pick::Any)
    }
}

impl Upheld for Listener {
    ghost use Rattle.test_calls.specs.Patient.{listeners_never_stop};

    ghost stands = { NeverStops };

    ghost upheld = { listeners_never_stop };
}

/// The laws of crews, at this behaviour: a run of such crews keeps that none of their processes asks to stop, and so
/// does turning their node until it is still.
pub(crate) fn never_stops(gate: &FreeGate)
    ensures run { RunUpholds ⟦<Listener as Behaviour>⟧.answers ⟦<Listener as Upheld>⟧.stands
        (begins_by (λ _. Going) (⟦<FreeGate as Gate>⟧.lets gate.now)) }
    ensures rests { RestUpholds ⟦<Listener as Upheld>⟧.stands }
{
    crew_upholds::<Listener>();
    runs_uphold::<Listener, FreeGate>(gate);
}
