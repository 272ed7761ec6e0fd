//! Messages that a process sends later.

ghost use Rattle.std.specs.Prelude.{◌≡◌, ◌+◌, IfOk, MatchOption, cond, length};
ghost use Rattle.pt_timers.specs.Calls.{Cancels, IsFirstDue, IsNext, IsNone, NoneDue, Starts};
ghost use Rattle.pt_desk.specs.DeskState.{GoesOn};
ghost use Rattle.pt_names.specs.Alarming.{Rings, RingsFirst, TellsAlarm};
ghost use Rattle.pt_behaviour.specs.Behaving.{takes};

use pt_behaviour::{CallFault, send};
use pt_timers::{StartError, Timer, Timers};
use pt_workers::{Body, Desk, Fault, Pid};
use std::alloc::Global;

/// A message that is to be sent later, and its receiver.
#[derive(Clone, Copy, Debug, PartialEq, Eq)]
pub struct Alarm {
    pub to: Pid,
    pub body: Body,
}

/// The messages that a process sends later: `erlang:send_after` and `erlang:cancel_timer`.
///
/// A behaviour keeps them in its state, so those of a process that has exited are gone with it. It calls
/// [`Alarms::ring`] as it is handed an item, with the time of the program's own clock.
#[derive(Drop)]
pub struct Alarms {
    timers: Timers<Alarm>,
}

impl Alarms {
    /// None yet. It takes no memory.
    pub fn new(alloc: Global) -> Alarms
        ensures { IsNone result.timers }
    {
        Alarms {
            timers: Timers::new(alloc),
        }
    }

    /// Sends a message later: once [`Alarms::ring`] gets a time that is not below `at`, which may have passed already.
    ///
    /// It returns the timer by which the message can be cancelled. Fails with `Worn` if 2^64 - 1 were started before,
    /// and otherwise with `Memory` if there is no memory for one more. Then nothing has changed.
    pub fn send_after(&mut self, at: u64, to: Pid, body: Body) -> Result<Timer, StartError<Alarm>>
        ensures { Starts at (record { to = to; body = body }) self.old.timers result self.new.timers }
    {
        self.timers.start(at, Alarm { to, body })
    }

    /// Cancels a message, and returns whether it was still to be sent. It is never sent then.
    ///
    /// If it was sent or dropped, was cancelled before or there never was such a timer, the answer is `false` and nothing
    /// changes.
    pub fn cancel_timer(&mut self, timer: Timer) -> bool
        ensures { Cancels timer self.old.timers result self.new.timers }
    {
        self.timers.cancel(timer)
    }

    /// The earliest time of a message that is still to be sent, or `None` if there is none: when the process has to call
    /// [`Alarms::ring`] next.
    pub fn next(&self) -> Option<u64>
        ensures { IsNext self.now.timers result }
    {
        self.timers.next()
    }

    /// Sends each message that is due, as `me`, in the order of their times, and of their starting among those of one
    /// time. A message is dropped if its receiver is not known, or is seen to have exited, as Erlang drops it.
    ///
    /// Fails as [`send`] does for the next message: with `Gone`, `Worn` or `Memory`. That message and those after it stay
    /// to be sent. The messages before it were sent, and are not sent again.
    pub fn ring(&mut self, desk: &mut Desk, me: Pid, now: u64) -> Result<(), Fault>
        ensures does { Rings me now self.old.timers desk.old result self.new.timers desk.new }
        ensures takes { takes desk.new.shard.journal ≡ takes desk.old.shard.journal }
        ensures goes_on { GoesOn desk.old desk.new }
    {
        while self.ring_first(desk, me, now)? {}
        Ok(())
    }

    /// Sends the first message that is due, and returns whether there was one. If the call fails, it is still to be sent.
    fn ring_first(&mut self, desk: &mut Desk, me: Pid, now: u64) -> Result<bool, Fault>
        ensures does { RingsFirst me now self.old.timers desk.old result self.new.timers desk.new }
        ensures fewer { IfOk result
            (λ rang. length self.new.timers.pending + cond rang 1 0 ≡ length self.old.timers.pending) }
        ensures takes { takes desk.new.shard.journal ≡ takes desk.old.shard.journal }
        ensures goes_on { GoesOn desk.old desk.new }
    {
        let Some((timer, alarm)) = self.first_due(now) else {
            return Ok(false);
        };
        tell(desk, me, alarm)?;
        let _ = self.timers.cancel(timer);
        Ok(true)
    }

    /// The first message that is due, or `None` if none is.
    fn first_due(&self, now: u64) -> Option<(Timer, Alarm)>
        ensures { MatchOption result (NoneDue now self.now.timers)
            (λ due. IsFirstDue now due.0 due.1 self.now.timers) }
    {
        let (timer, alarm) = self.timers.peek_due(now)?;
        Some((timer, *alarm))
    }
}

/// Sends the message of an alarm. It is done with if its receiver is not known or is seen to have exited.
fn tell(desk: &mut Desk, me: Pid, alarm: Alarm) -> Result<(), Fault>
    ensures does { TellsAlarm me alarm desk.old result desk.new }
    ensures takes { takes desk.new.shard.journal ≡ takes desk.old.shard.journal }
    ensures goes_on { GoesOn desk.old desk.new }
{
    match send(desk, me, alarm.to, alarm.body) {
        Ok(()) => Ok(()),
        Err(CallFault::Unknown) => Ok(()),
        Err(CallFault::Refused(Fault::NoProc)) => Ok(()),
        Err(CallFault::Refused(fault)) => Err(fault),
    }
}
