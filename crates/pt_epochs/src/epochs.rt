//! A node that goes on epoch behind epoch.

ghost use Rattle.std.specs.Prelude.{◌≡◌, List, MatchBool, IfErr, IfOk};
ghost use Rattle.pt_events.specs.declared.event.Stamped.{Stamped};
ghost use Rattle.pt_workers.specs.Desks.{all_shards};
ghost use Rattle.pt_epochs.specs.Epochs.{AllAttend};
ghost use Rattle.pt_epochs.specs.Idle.{InTurns};
ghost use Rattle.pt_epochs.specs.Running.{HaltsOne, HaltsRun, IsTooLong, PassesAsOne, PassesOne, PausesAs, RunsToPause};
ghost use Rattle.pt_epochs.specs.Running.{outcome_of};

use crate::call::Call;
use crate::drive::Drive;
use crate::ending::end_epoch;
use crate::halted::Halted;
use crate::idle::{longer, none_has_work, one_leg};
use crate::sink::Sink;
use pt_behaviour::Behaviour;
use pt_crew::Crew;
use pt_desk::Desk;
use pt_node::{Node, RunFault, Stopped};
use std::alloc::Global;

/// How many epochs there are to be, and when one ends.
#[derive(Clone, Copy, Debug, PartialEq, Eq)]
pub struct Plan {
    /// The number of epochs, if nothing ends the run before.
    pub epochs: u64,
    /// An epoch ends once the journal of a desk has more events than this.
    pub events: usize,
    /// An epoch ends after so many turns of each desk (0 counts as 1).
    pub turns: u64,
    /// The most letters that a turn handles.
    pub budget: u32,
}

/// Why the crews of a node pause, so that its epoch can end.
#[derive(Clone, Copy, Debug, PartialEq, Eq)]
pub enum Pause {
    /// Nothing is left to do.
    Idle,
    /// A turn was stopped, for want of memory or stamps. Its letter stays in the hold of its desk.
    Stopped(Stopped),
    /// The journal of a desk has more events than the plan says.
    Full,
    /// [`Call::stop`] was called.
    Told,
    /// [`Call::pause`] was called.
    Asked,
    /// All turns of the epoch were taken.
    Spent,
}

/// Why a run of epochs ended.
#[derive(Clone, Copy, Debug, PartialEq, Eq)]
pub enum Outcome {
    /// There were as many epochs as the plan says.
    Counted,
    /// Nothing was left to do as the last epoch ended.
    Idle,
    /// [`Call::stop`] was called.
    Told,
}

/// Whether the journal of a desk has more than so many events.
fn is_too_long(desks: &[Desk], events: usize) -> bool
    ensures { MatchBool result (IsTooLong events desks.now) (¬ IsTooLong events desks.now) }
{
    for place in 0..desks.len() {
        if desks[place].journal().events().len() > events {
            return true;
        }
    }
    false
}

/// Whether the crews are to pause behind a leg, and why.
pub(crate) fn pause_of<B: Behaviour + Drop>(
    stopped: Option<Stopped>,
    crews: &[Crew<B>],
    desks: &[Desk],
    events: usize,
    call: &Call,
) -> Option<Pause>
    ensures { PausesAs events crews.now desks.now stopped result }
{
    if let Some(stopped) = stopped {
        return Some(Pause::Stopped(stopped));
    }
    if none_has_work(crews, desks) {
        return Some(Pause::Idle);
    }
    if is_too_long(desks, events) {
        return Some(Pause::Full);
    }
    if call.is_stopped() {
        return Some(Pause::Told);
    }
    if call.is_paused() {
        return Some(Pause::Asked);
    }
    None
}

/// Runs the crews until they are to pause.
fn run_to_pause<D: Drive<B>, B: Behaviour + Drop>(
    drive: &D,
    node: &mut Node,
    crews: &mut Vec<Crew<B>>,
    plan: Plan,
    call: &Call,
) -> Result<Pause, RunFault>
    ensures { RunsToPause (InTurns B.answers (D.lets drive.now) plan.budget) plan
        (record { desks = node.old; works = crews.old.items }) result
        (record { desks = node.new; works = crews.new.items }) }
{
    if crews.len() != node.count() {
        return Err(RunFault::Works);
    }
    let longest = drive.longest();
    let mut left = plan.turns.max(1);
    let mut leg = 1;
    while left > 0 {
        let count = left.min(leg);
        let rested = one_leg(drive, node, crews, count, plan.budget)?;
        if let Some(pause) = pause_of(
            rested.stopped,
            crews.as_slice(),
            node.desks(),
            plan.events,
            call,
        ) {
            return Ok(pause);
        }
        left -= count;
        leg = longer(leg, longest);
    }
    Ok(Pause::Spent)
}

/// Runs the crews until they are to pause, and ends the epoch.
fn one_epoch<D: Drive<B>, B: Behaviour + Drop, S: Sink>(
    drive: &D,
    alloc: Global,
    node: Node,
    crews: &mut Vec<Crew<B>>,
    plan: Plan,
    call: &Call,
    sink: &mut S,
) -> Result<(Node, Pause), Halted>
    ensures passes { IfOk result (λ r. (history : List Stamped)
        × PassesOne (InTurns B.answers (D.lets drive.now) plan.budget) plan S.takes S.refuses r.1 history
        (record { desks = node; crews = crews.old.items; sink = sink.old })
        (record { desks = r.0; crews = crews.new.items; sink = sink.new })) }
    ensures halts { IfErr result (λ h. HaltsOne (InTurns B.answers (D.lets drive.now) plan.budget) plan S.takes S.refuses
        (record { desks = node; crews = crews.old.items; sink = sink.old }) h crews.new.items sink.new) }
{
    let mut node = node;
    match run_to_pause(drive, &mut node, crews, plan, call) {
        Ok(Pause::Stopped(stopped)) => Err(Halted::Turning(node, stopped)),
        Ok(pause) => match end_epoch(alloc, node, crews, sink) {
            Ok(next) => Ok((next, pause)),
            Err(halted) => Err(halted),
        },
        Err(fault) => Err(Halted::Running(node, fault)),
    }
}

/// Why the run ends behind an epoch that ended so, if it does.
pub(crate) fn outcome_of(pause: Pause) -> Option<Outcome>
    ensures { result ≡ outcome_of pause }
{
    match pause {
        Pause::Idle => Some(Outcome::Idle),
        Pause::Told => Some(Outcome::Told),
        Pause::Stopped(_) | Pause::Full | Pause::Asked | Pause::Spent => None,
    }
}

/// Runs the crews of a node epoch behind epoch, each until they pause, and hands the history of each to the sink.
///
/// An epoch ends as [`Plan`] says, if nothing is left to do, or if the outside asks through [`Call`]. Then the node is
/// gathered and settled, the sink gets its history, and the node goes on with empty journals and the same processes. The
/// run ends after so many epochs; or behind the first epoch that ended since nothing was left to do, or since
/// [`Call::stop`] was called.
///
/// All that the sink takes, one history behind the other, follows what the node went on from (nothing, if it was just
/// opened). Together it is one legal history from the very beginning on, and no letter is in flight at its end. Nobody's
/// wake-up is lost: if the crews attend the desks of the node, they attend those of the node that comes back.
///
/// Fails as [`Halted`] says, with the node as it is then; [`Halted::go_on`] does the rest of that epoch's end.
pub fn run_epochs<D: Drive<B>, B: Behaviour + Drop, S: Sink>(
    drive: &D,
    alloc: Global,
    node: Node,
    crews: &mut Vec<Crew<B>>,
    plan: Plan,
    call: &Call,
    sink: &mut S,
) -> Result<(Node, Outcome), Halted>
    ensures passes { IfOk result (λ r. PassesAsOne (InTurns B.answers (D.lets drive.now) plan.budget) plan S.takes
        S.refuses plan.epochs r.1 (record { desks = node; crews = crews.old.items; sink = sink.old })
        (record { desks = r.0; crews = crews.new.items; sink = sink.new })) }
    ensures attends { IfOk result (λ r. AllAttend crews.old.items (all_shards node)
        → AllAttend crews.new.items (all_shards r.0)) }
    ensures halts { IfErr result (λ h. HaltsRun (InTurns B.answers (D.lets drive.now) plan.budget) plan S.takes S.refuses
        plan.epochs (record { desks = node; crews = crews.old.items; sink = sink.old }) h crews.new.items sink.new) }
{
    let mut node = node;
    for _epoch in 0..plan.epochs {
        let (next, pause) = one_epoch(drive, alloc, node, crews, plan, call, sink)?;
        node = next;
        call.was_heard();
        if let Some(outcome) = outcome_of(pause) {
            return Ok((node, outcome));
        }
    }
    Ok((node, Outcome::Counted))
}
