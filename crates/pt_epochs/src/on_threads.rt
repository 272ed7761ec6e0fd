//! A node that goes on epoch behind epoch, with a thread for each desk.

ghost use Rattle.std.specs.Prelude.{◌≡◌, List, length, IfErr, IfOk};
ghost use Rattle.pt_events.specs.declared.event.Stamped.{Stamped};
ghost use Rattle.pt_workers.specs.Desks.{all_shards};
ghost use Rattle.pt_epochs.specs.Driving.{lets_short};
ghost use Rattle.pt_epochs.specs.Epochs.{AllAttend};
ghost use Rattle.pt_epochs.specs.Idle.{InTurns, RunsLeg};
ghost use Rattle.pt_epochs.specs.Running.{HaltsOne, HaltsRun, PassesAsOne, PassesOne, RunsToPause};

use crate::call::Call;
use crate::ending::end_epoch;
use crate::epochs::{Outcome, Pause, Plan, outcome_of, pause_of};
use crate::halted::Halted;
use crate::idle::longer;
use crate::sink::Sink;
use crate::workers::run_crews;
use pt_behaviour::Behaviour;
use pt_crew::Crew;
use pt_node::{Node, Rested, RunFault};
use std::alloc::Global;
use std::sync::Wait;
use std::thread::Threads;

/// Runs each crew on a thread for so many turns at most, and then turns the node until it is still, or a turn was stopped.
fn one_leg_on_threads<R: Threads + Wait + Sync, B: Behaviour + Drop + Send>(
    rt: &R,
    alloc: Global,
    node: &mut Node,
    crews: &mut Vec<Crew<B>>,
    turns: u64,
    plan: Plan,
    call: &Call,
) -> Result<Rested, RunFault>
    requires { length crews.old.items ≡ length node.old }
    ensures { RunsLeg (InTurns B.answers (lets_short plan.events) plan.budget) plan.budget turns
        (record { desks = node.old; works = crews.old.items }) result
        (record { desks = node.new; works = crews.new.items }) }
{
    run_crews(rt, alloc, node, crews, turns, plan, call)?;
    Ok(node.turn_until_still(plan.budget))
}

/// Runs the crews on threads until they are to pause.
fn run_to_pause_on_threads<R: Threads + Wait + Sync, B: Behaviour + Drop + Send>(
    rt: &R,
    alloc: Global,
    node: &mut Node,
    crews: &mut Vec<Crew<B>>,
    plan: Plan,
    call: &Call,
) -> Result<Pause, RunFault>
    ensures { RunsToPause (InTurns B.answers (lets_short plan.events) plan.budget) plan
        (record { desks = node.old; works = crews.old.items }) result
        (record { desks = node.new; works = crews.new.items }) }
{
    if crews.len() != node.count() {
        return Err(RunFault::Works);
    }
    let mut left = plan.turns.max(1);
    let mut leg = 1;
    while left > 0 {
        let count = left.min(leg);
        let rested = one_leg_on_threads(rt, alloc, node, crews, count, plan, call)?;
        if let Some(pause) = pause_of(
            rested.stopped,
            crews.as_slice(),
            node.desks(),
            plan.events,
            call,
        ) {
            return Ok(pause);
        }
        left -= count;
        leg = longer(leg, u64::MAX);
    }
    Ok(Pause::Spent)
}

/// Runs the crews on threads until they are to pause, and ends the epoch.
fn one_epoch_on_threads<R: Threads + Wait + Sync, B: Behaviour + Drop + Send, S: Sink>(
    rt: &R,
    alloc: Global,
    node: Node,
    crews: &mut Vec<Crew<B>>,
    plan: Plan,
    call: &Call,
    sink: &mut S,
) -> Result<(Node, Pause), Halted>
    ensures passes { IfOk result (λ r. (history : List Stamped)
        × PassesOne (InTurns B.answers (lets_short plan.events) plan.budget) plan S.takes S.refuses r.1 history
        (record { desks = node; crews = crews.old.items; sink = sink.old })
        (record { desks = r.0; crews = crews.new.items; sink = sink.new })) }
    ensures halts { IfErr result (λ h. HaltsOne (InTurns B.answers (lets_short plan.events) plan.budget) plan S.takes
        S.refuses (record { desks = node; crews = crews.old.items; sink = sink.old }) h crews.new.items sink.new) }
{
    let mut node = node;
    match run_to_pause_on_threads(rt, alloc, &mut node, crews, plan, call) {
        Ok(Pause::Stopped(stopped)) => Err(Halted::Turning(node, stopped)),
        Ok(pause) => match end_epoch(alloc, node, crews, sink) {
            Ok(next) => Ok((next, pause)),
            Err(halted) => Err(halted),
        },
        Err(fault) => Err(Halted::Running(node, fault)),
    }
}

/// Runs the crews of a node epoch behind epoch, as [`run_epochs`](crate::run_epochs) does, but each on a thread of its own.
///
/// What ends an epoch, what the sink takes and what is promised of all of it is as there. Meanwhile the workers run, until
/// one of them finds a cause to look at the node:
///
/// - the journal of its desk has more events than the plan says;
/// - [`Call::pause`] or [`Call::stop`] was called;
/// - a turn was stopped;
/// - no desk had anything to do in its last turn.
///
/// Then each of them ends before its next turn, the node is turned on the calling thread until it is still, and it is
/// looked whether the epoch is over. If not, they run again. A worker whose desk has nothing to do rests meanwhile, and
/// wakes as something comes, or after a millisecond.
///
/// Behind its first turn after a look, no worker takes a turn of a desk whose journal has more events than the plan says.
/// So a journal grows beyond the plan by what one turn adds, and by what comes as the node is turned until it is still.
/// Nothing is promised of when the other causes are found, nor of how the desks share the processors.
///
/// Fails as [`Halted`] says, with the node as it is then; [`Halted::go_on`] does the rest of that epoch's end.
pub fn run_epochs_on_threads<R: Threads + Wait + Sync, B: Behaviour + Drop + Send, S: Sink>(
    rt: &R,
    alloc: Global,
    node: Node,
    crews: &mut Vec<Crew<B>>,
    plan: Plan,
    call: &Call,
    sink: &mut S,
) -> Result<(Node, Outcome), Halted>
    ensures passes { IfOk result (λ r. PassesAsOne (InTurns B.answers (lets_short plan.events) plan.budget) plan S.takes
        S.refuses plan.epochs r.1 (record { desks = node; crews = crews.old.items; sink = sink.old })
        (record { desks = r.0; crews = crews.new.items; sink = sink.new })) }
    ensures attends { IfOk result (λ r. AllAttend crews.old.items (all_shards node)
        → AllAttend crews.new.items (all_shards r.0)) }
    ensures halts { IfErr result (λ h. HaltsRun (InTurns B.answers (lets_short plan.events) plan.budget) plan S.takes
        S.refuses plan.epochs (record { desks = node; crews = crews.old.items; sink = sink.old }) h crews.new.items
        sink.new) }
{
    let mut node = node;
    for _epoch in 0..plan.epochs {
        let (next, pause) = one_epoch_on_threads(rt, alloc, node, crews, plan, call, sink)?;
        node = next;
        call.was_heard();
        if let Some(outcome) = outcome_of(pause) {
            return Ok((node, outcome));
        }
    }
    Ok((node, Outcome::Counted))
}
