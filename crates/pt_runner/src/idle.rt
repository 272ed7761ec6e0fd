//! Runners of a node that have nothing to do.

ghost use Rattle.std.specs.Prelude.{MatchBool};
ghost use Rattle.pt_runner.specs.Waiting.{RunnersIdle};

use crate::runner::Runner;
use pt_workers::Desk;

/// Whether there are as many runners as desks, and each is idle over the desk at its place: see [`Runner::is_idle`].
pub fn are_idle(runners: &[Runner<'_>], desks: &[Desk]) -> bool
    ensures { MatchBool result (RunnersIdle runners.now desks.now) (¬ RunnersIdle runners.now desks.now) }
{
    if runners.len() != desks.len() {
        return false;
    }
    for place in 0..runners.len() {
        if !runners[place].is_idle(&desks[place]) {
            return false;
        }
    }
    true
}
