//! The crews of a node, each over the desk at its place.

ghost use Rattle.std.specs.Prelude.{MatchBool};
ghost use Rattle.pt_workers.specs.Running.{begins_by};
ghost use Rattle.pt_workers.specs.declared.work.Standing.TheVariants.{Going};
ghost use Rattle.pt_crew.specs.Running.{AreIdle, RestUpholds, RoundsUphold, RunUpholds};

use crate::crew::Crew;
use pt_behaviour::{Behaviour, Upheld};
use pt_workers::{Desk, Gate};

/// Whether there are as many crews as desks, and each is idle over the desk at its place: see [`Crew::is_idle`].
pub fn are_idle<B: Behaviour + Drop>(crews: &[Crew<B>], desks: &[Desk]) -> bool
    ensures { MatchBool result (AreIdle crews.now desks.now) (¬ AreIdle crews.now desks.now) }
{
    if crews.len() != desks.len() {
        return false;
    }
    for place in 0..crews.len() {
        if !crews[place].is_idle(&desks[place]) {
            return false;
        }
    }
    true
}

/// What the behaviours of crews uphold is kept by a run of the crews at this gate, on threads or in rounds. It is also
/// kept by turning their node until it is still. The function does nothing: its contract is the promise.
pub fn runs_uphold<B: Upheld + Drop, G: Gate>(gate: &G)
    ensures run { RunUpholds B.answers B.stands (begins_by (λ _. Going) (G.lets gate.now)) }
    ensures rounds { RoundsUphold B.answers B.stands (begins_by (λ _. Going) (G.lets gate.now)) }
    ensures rests { RestUpholds B.stands }
{}
