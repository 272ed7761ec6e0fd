//! The calls of a desk for a behaviour: they have no precondition, and each returns an answer.
//!
//! If the desk does not know a target, the call fails with `Unknown`, as that of a node does. None of them takes an
//! item out of a mailbox. So a behaviour that makes no other calls meets what [`Behaviour`](crate::Behaviour) requires.
#![tactic(auto, using(crate::proofs::Takes::calling))]

ghost use Rattle.std.specs.Prelude.{◌≡◌, Some, false, is_some};
ghost use Rattle.pt_signal.specs.declared.signal.Signal.{Signal};
ghost use Rattle.pt_events.specs.declared.event.Event.{Event};
ghost use Rattle.pt_shard.specs.Known.{knows};
ghost use Rattle.pt_shard.specs.ShardState.{lives, state_in};
ghost use Rattle.pt_shard.specs.Calls.{Calls, Monitors, demonitor_event, link_event, unlink_event};
ghost use Rattle.pt_desk.specs.DeskState.{GoesOn};
ghost use Rattle.pt_desk.specs.Reaching.{Reaches, has_link_to_make, has_monitor_to_make};
ghost use Rattle.pt_behaviour.specs.Telling.{IfKnown, call_answered};
ghost use Rattle.pt_behaviour.specs.Behaving.{takes};

use crate::call_fault::CallFault;
use pt_workers::{Body, Desk, Fault, Pid, Reason, Ref};

/// Sends a message (`!`).
///
/// Fails with `Unknown` if the desk does not know the target, and nothing has changed then. Else it fails as
/// [`Desk::send`] does.
#[inline(always)]
pub fn send(desk: &mut Desk, me: Pid, to: Pid, body: Body) -> Result<(), CallFault>
    ensures does { IfKnown (knows desk.old.shard to)
        (λ r. Reaches (lives desk.old.shard me) me to
        (Calls me (Some (Event.Said me to (Signal.Message body))) tt desk.old.shard r desk.new.shard) desk.old r
        desk.new) desk.old result desk.new }
    ensures takes { takes desk.new.shard.journal ≡ takes desk.old.shard.journal }
    ensures goes_on { GoesOn desk.old desk.new }
{
    if !desk.knows(to) {
        return Err(CallFault::Unknown);
    }
    answered(desk.send(me, to, body))
}

/// Monitors a process (`monitor`).
///
/// Fails with `Unknown` if the desk does not know the target, and nothing has changed then. Else it fails as
/// [`Desk::monitor`] does.
pub fn monitor(desk: &mut Desk, me: Pid, to: Pid) -> Result<Ref, CallFault>
    ensures does { IfKnown (knows desk.old.shard to)
        (λ r. Reaches (has_monitor_to_make desk.old.shard me to) me to
        (Monitors me to desk.old.shard r desk.new.shard) desk.old r desk.new) desk.old result desk.new }
    ensures takes { takes desk.new.shard.journal ≡ takes desk.old.shard.journal }
    ensures goes_on { GoesOn desk.old desk.new }
{
    if !desk.knows(to) {
        return Err(CallFault::Unknown);
    }
    answered(desk.monitor(me, to))
}

/// Links itself with a process (`link`).
///
/// Fails with `Unknown` if the desk does not know the target, and nothing has changed then. Else it fails as
/// [`Desk::link`] does.
pub fn link(desk: &mut Desk, me: Pid, to: Pid) -> Result<(), CallFault>
    ensures does { IfKnown (knows desk.old.shard to)
        (λ r. Reaches (has_link_to_make desk.old.shard me to) me to
        (Calls me (link_event desk.old.shard me to) tt desk.old.shard r desk.new.shard) desk.old r desk.new) desk.old
        result desk.new }
    ensures takes { takes desk.new.shard.journal ≡ takes desk.old.shard.journal }
    ensures goes_on { GoesOn desk.old desk.new }
{
    if !desk.knows(to) {
        return Err(CallFault::Unknown);
    }
    answered(desk.link(me, to))
}

/// Sends an exit signal (`exit/2`).
///
/// Fails with `Unknown` if the desk does not know the target, and nothing has changed then. Else it fails as
/// [`Desk::exit_signal`] does.
pub fn exit_signal(desk: &mut Desk, me: Pid, to: Pid, reason: Reason) -> Result<(), CallFault>
    ensures does { IfKnown (knows desk.old.shard to)
        (λ r. Calls me (Some (Event.Said me to (Signal.Exit reason))) tt desk.old.shard r desk.new.shard) desk.old
        result desk.new }
    ensures takes { takes desk.new.shard.journal ≡ takes desk.old.shard.journal }
    ensures goes_on { GoesOn desk.old desk.new }
{
    if !desk.knows(to) {
        return Err(CallFault::Unknown);
    }
    answered(desk.exit_signal(me, to, reason))
}

/// Removes its link with a process (`unlink`).
///
/// Fails with `Unknown` if the desk does not know the target, and nothing has changed then. Else it fails as
/// [`Desk::unlink`] does.
pub fn unlink(desk: &mut Desk, me: Pid, to: Pid) -> Result<(), CallFault>
    ensures does { IfKnown (knows desk.old.shard to)
        (λ r. Calls me (unlink_event desk.old.shard me to) tt desk.old.shard r desk.new.shard) desk.old result
        desk.new }
    ensures takes { takes desk.new.shard.journal ≡ takes desk.old.shard.journal }
    ensures goes_on { GoesOn desk.old desk.new }
{
    if !desk.knows(to) {
        return Err(CallFault::Unknown);
    }
    answered(desk.unlink(me, to))
}

/// Cancels a monitor, and leaves a `DOWN` that has arrived in the mailbox (`demonitor`).
///
/// It returns whether the monitor was open. It fails as [`Desk::demonitor`] does.
pub fn demonitor(desk: &mut Desk, me: Pid, monitor: Ref) -> Result<bool, Fault>
    ensures does { Calls me (demonitor_event desk.old.shard me monitor false)
        (is_some (demonitor_event desk.old.shard me monitor false)) desk.old.shard result desk.new.shard }
    ensures takes { takes desk.new.shard.journal ≡ takes desk.old.shard.journal }
    ensures goes_on { GoesOn desk.old desk.new }
{
    desk.demonitor(me, monitor, false)
}

/// Sets whether it traps exits, and returns whether it did before (`process_flag(trap_exit, _)`).
///
/// It fails as [`Desk::trap`] does.
pub fn trap(desk: &mut Desk, me: Pid, on: bool) -> Result<bool, Fault>
    ensures does { Calls me (Some (Event.Flag me on)) (state_in desk.old.shard me).traps desk.old.shard result
        desk.new.shard }
    ensures takes { takes desk.new.shard.journal ≡ takes desk.old.shard.journal }
    ensures goes_on { GoesOn desk.old desk.new }
{
    desk.trap(me, on)
}

/// The answer of the desk to a call whose target it knows.
fn answered<A>(answer: Result<A, Fault>) -> Result<A, CallFault>
    ensures { result ≡ call_answered answer }
{
    match answer {
        Ok(value) => Ok(value),
        Err(fault) => Err(CallFault::Refused(fault)),
    }
}
