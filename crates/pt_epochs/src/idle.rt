//! Crews that run until nothing is left to do.

ghost use Rattle.std.specs.Prelude.{◌≡◌, ◌<◌, length, max, MatchBool};
ghost use Rattle.pt_epochs.specs.Idle.{AllEntered, InTurns, NoneHasWork, RunsLeg, RunsUntilIdle};

use crate::drive::Drive;
use pt_behaviour::Behaviour;
use pt_crew::{Crew, are_idle};
use pt_desk::Desk;
use pt_node::{Node, Rested, RunFault, Stopped};

/// Why a run of crews ended.
#[derive(Clone, Copy, Debug, PartialEq, Eq)]
pub enum Ended {
    /// Nobody has anything to do, nobody waits to enter a crew, and no letter is in flight.
    Idle,
    /// A turn was stopped, for want of memory or stamps. Its letter stays in the hold of its desk.
    Stopped(Stopped),
    /// All turns were taken, and the crews are not idle.
    Spent,
}

/// Whether there are as many crews as desks, each is idle over the desk at its place, and nobody waits to enter.
///
/// If the node is still too, nothing is left to do: see [`run_until_idle`].
pub fn none_has_work<B: Behaviour + Drop>(crews: &[Crew<B>], desks: &[Desk]) -> bool
    ensures { MatchBool result (NoneHasWork crews.now desks.now) (¬ NoneHasWork crews.now desks.now) }
{
    are_idle(crews, desks) && all_entered(crews)
}

/// Whether nobody waits to enter a crew.
fn all_entered<B: Behaviour + Drop>(crews: &[Crew<B>]) -> bool
    ensures { MatchBool result (AllEntered crews.now) (¬ AllEntered crews.now) }
{
    for place in 0..crews.len() {
        if crews[place].waiting() != 0 {
            return false;
        }
    }
    true
}

/// Runs each crew for so many turns, and then turns the node until it is still, or a turn was stopped.
pub(crate) fn one_leg<D: Drive<B>, B: Behaviour + Drop>(
    drive: &D,
    node: &mut Node,
    crews: &mut Vec<Crew<B>>,
    turns: u64,
    budget: u32,
) -> Result<Rested, RunFault>
    requires { length crews.old.items ≡ length node.old }
    ensures { RunsLeg (InTurns B.answers (D.lets drive.now) budget) budget turns
        (record { desks = node.old; works = crews.old.items }) result
        (record { desks = node.new; works = crews.new.items }) }
{
    drive.drive(node, crews, turns, budget)?;
    Ok(node.turn_until_still(budget))
}

/// The number of turns of the leg behind one of so many, of which no more than `longest` are worth while.
pub(crate) fn longer(leg: u64, longest: u64) -> u64
    ensures { 0 < result }
{
    leg.saturating_mul(2).min(longest).max(1)
}

/// Runs the crews of a node until nothing is left to do: nobody has anything to do, nobody waits to enter a crew, and no
/// letter is in flight.
///
/// A desk takes at most so many turns of its crew (0 counts as 1), so that crews that never rest end with `Spent`. Behind
/// one turn, and then behind ever more, the node is turned until it is still, and it is looked whether all crews are
/// idle. What the crews do in their turns is what [`Node::run`] does. Nobody says what time it is meanwhile: a process
/// that waits until a later time has nothing to do.
///
/// Fails with `Works` exactly if there are not as many crews as desks, and then nothing has changed. Fails with `Memory`
/// if there is none for a run; what was done before stays.
pub fn run_until_idle<D: Drive<B>, B: Behaviour + Drop>(
    drive: &D,
    node: &mut Node,
    crews: &mut Vec<Crew<B>>,
    turns: u64,
    budget: u32,
) -> Result<Ended, RunFault>
    ensures { RunsUntilIdle (InTurns B.answers (D.lets drive.now) budget) budget (max turns 1)
        (record { desks = node.old; works = crews.old.items }) result
        (record { desks = node.new; works = crews.new.items }) }
{
    if crews.len() != node.count() {
        return Err(RunFault::Works);
    }
    let longest = drive.longest();
    let mut left = turns.max(1);
    let mut leg = 1;
    while left > 0 {
        let count = left.min(leg);
        let rested = one_leg(drive, node, crews, count, budget)?;
        if let Some(stopped) = rested.stopped {
            return Ok(Ended::Stopped(stopped));
        }
        if none_has_work(crews.as_slice(), node.desks()) {
            return Ok(Ended::Idle);
        }
        left -= count;
        leg = longer(leg, longest);
    }
    Ok(Ended::Spent)
}
