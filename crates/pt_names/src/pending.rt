//! The side that asks.

ghost use Rattle.std.specs.Prelude.{◌≡◌, ◌<◌, ◌^◌, None, Some, false, pos};
ghost use Rattle.pt_desk.specs.DeskState.{GoesOn};
ghost use Rattle.pt_behaviour.specs.Behaving.{takes};
ghost use Rattle.pt_names.specs.Asking.{Asks, refusal, unsent_fault};
ghost use Rattle.pt_names.specs.Ending.{Closes, EndsFirst, EndsOnce, Expires, IsGivenUp, after_item, after_moment};
ghost use Rattle.pt_names.specs.Ending.{heard_by_call, is_answer_to_call, is_due, is_expired, is_pending, monitor_left};
ghost use Rattle.pt_names.specs.Ending.{noting, says_to_call, waits_until};

use crate::ask_fault::AskFault;
use crate::request::speaks_of;
use pt_behaviour::{CallFault, demonitor, monitor, send};
use pt_workers::{Body, Desk, Fault, Item, Pid, Reason, Ref};

/// What an item means to a call.
#[derive(Clone, Copy, Debug, PartialEq, Eq)]
pub enum Heard {
    /// Its answer. The call has ended.
    Answer(u32),
    /// Its server has exited with this reason, and there is no answer. The call has ended.
    Down(Reason),
    /// Its answer or its `DOWN`, after the call had ended. The item needs no handling, as one that `demonitor` with
    /// `flush` takes.
    Late,
    /// Nothing of this call.
    NotMine,
}

/// A call that was made: the server that it waits for, until when, and whether it still does.
///
/// It ends once: by its answer or by the `DOWN` of its server, which [`Pending::hear`] reports, or by its deadline, which
/// [`Pending::expire`] reports.
#[derive(Debug, Drop, PartialEq, Eq)]
pub struct Pending {
    client: Pid,
    server: Pid,
    monitor: Ref,
    /// The number that the answer carries.
    number: i64,
    /// The moment at which it ends, if it is open then.
    deadline: Option<u64>,
    waits: bool,
    /// Whether it has ended and cancelling its monitor failed.
    left_open: bool,
}

impl Pending {
    /// Asks a server: makes a monitor, and sends the request under its number (`gen_server:call` up to its `receive`).
    ///
    /// Fails as [`monitor`] does, and nothing is asked then: with `Unknown`, `Gone`, `Myself`, `NoProc`, `Worn` or
    /// `Memory`. Fails with `Worn` or `Memory` too if the request could not be sent. The monitor is cancelled then. If
    /// that fails as well, the failure is [`AskFault::LeftOpen`], which has the monitor. If the server is seen to have
    /// exited only as the request is sent, the call is made, and ends by the `DOWN`.
    pub fn ask(desk: &mut Desk, me: Pid, server: Pid, asks: u32) -> Result<Pending, AskFault>
        ensures does { Asks me server asks None desk.old result desk.new }
        ensures takes { takes desk.new.shard.journal ≡ takes desk.old.shard.journal }
        ensures goes_on { GoesOn desk.old desk.new }
    {
        Pending::begin(desk, me, server, asks, None)
    }

    /// Asks a server, as [`Pending::ask`] does, by a call that ends at a moment if it is open then (the `Timeout` of
    /// `gen_server:call`).
    ///
    /// The moment is a time of the program's own clock. It may have passed already: the call is made, and the first
    /// [`Pending::expire`] ends it. It fails as [`Pending::ask`] does.
    pub fn ask_until(
        desk: &mut Desk,
        me: Pid,
        server: Pid,
        asks: u32,
        deadline: u64,
    ) -> Result<Pending, AskFault>
        ensures does { Asks me server asks (Some deadline) desk.old result desk.new }
        ensures takes { takes desk.new.shard.journal ≡ takes desk.old.shard.journal }
        ensures goes_on { GoesOn desk.old desk.new }
    {
        Pending::begin(desk, me, server, asks, Some(deadline))
    }

    /// Makes the monitor, and sends the request under its number.
    fn begin(
        desk: &mut Desk,
        me: Pid,
        server: Pid,
        asks: u32,
        deadline: Option<u64>,
    ) -> Result<Pending, AskFault>
        ensures does { Asks me server asks deadline desk.old result desk.new }
        ensures takes { takes desk.new.shard.journal ≡ takes desk.old.shard.journal }
        ensures goes_on { GoesOn desk.old desk.new }
    {
        let reference = monitor(desk, me, server)?;
        let number = number_of(reference);
        let body = Body {
            kind: asks,
            num: number,
            who: Some(me),
        };
        if let Some(fault) = refusal(send(desk, me, server, body)) {
            return Err(unsent(fault, reference, demonitor(desk, me, reference)));
        }
        Ok(Pending {
            client: me,
            server,
            monitor: reference,
            number,
            deadline,
            waits: true,
            left_open: false,
        })
    }

    /// Whether it still waits for its answer, or for the exit of its server.
    pub fn is_open(&self) -> bool
        ensures { result ≡ is_pending self.now }
    {
        self.waits
    }

    /// The moment at which its client has to call [`Pending::expire`]: the deadline, if it has one and is open.
    pub fn deadline(&self) -> Option<u64>
        ensures { result ≡ waits_until self.now }
    {
        if self.waits { self.deadline } else { None }
    }

    /// Reports the time, and returns whether the call ends by its deadline now: it is open, and the deadline is not
    /// above `now`.
    ///
    /// If it returns `false`, nothing has changed. As the call ends, its monitor is cancelled, as in [`Pending::hear`],
    /// and an answer that arrives later is `Late`. An answer that has arrived is lost to a call that has expired. So
    /// show the call what waits in the mailbox first, as Erlang's `receive .. after` does.
    pub fn expire(&mut self, desk: &mut Desk, now: u64) -> bool
        ensures expired { result ≡ is_expired self.old now }
        ensures after { self.new ≡ noting self.new.left_open (after_moment self.old now) }
        ensures closes { Expires self.old now desk.old self.new.left_open desk.new }
        ensures takes { takes desk.new.shard.journal ≡ takes desk.old.shard.journal }
        ensures goes_on { GoesOn desk.old desk.new }
    {
        if !self.waits || !self.is_due(now) {
            return false;
        }
        self.close(desk);
        true
    }

    /// Reads an item that the client got, and returns whether it is the answer of this call, or its `DOWN`, or neither.
    ///
    /// Once it has ended it never ends again: what else arrives for it is `Late`. As it ends, its monitor is cancelled.
    /// If that fails for want of memory or stamps, [`Pending::left_open`] returns the monitor. A `DOWN` that arrives then
    /// is `Late`.
    pub fn hear(&mut self, desk: &mut Desk, item: Item) -> Heard
        ensures heard { result ≡ heard_by_call self.old item }
        ensures after { self.new ≡ noting self.new.left_open (after_item self.old item) }
        ensures closes { Closes self.old item desk.old self.new.left_open desk.new }
        ensures takes { takes desk.new.shard.journal ≡ takes desk.old.shard.journal }
        ensures goes_on { GoesOn desk.old desk.new }
    {
        let Some(said) = self.says(item) else {
            return Heard::NotMine;
        };
        if !self.waits {
            return Heard::Late;
        }
        self.close(desk);
        said
    }

    /// The monitor that is still open, if cancelling it failed as the call ended: [`demonitor`] cancels it. If it is
    /// left, its `DOWN` may arrive, which is `Late`.
    pub fn left_open(&self) -> Option<Ref>
        ensures { result ≡ monitor_left self.now }
    {
        self.left_open.then_some(self.monitor)
    }

    /// Ends the call, and cancels its monitor, or notes that this failed.
    fn close(&mut self, desk: &mut Desk)
        ensures after { self.new ≡ noting self.new.left_open (record self.old { waits = false }) }
        ensures closes { IsGivenUp self.old desk.old self.new.left_open desk.new }
        ensures takes { takes desk.new.shard.journal ≡ takes desk.old.shard.journal }
        ensures goes_on { GoesOn desk.old desk.new }
    {
        self.waits = false;
        self.left_open = demonitor(desk, self.client, self.monitor).is_err();
    }

    /// Whether the deadline has come, if there is one.
    fn is_due(&self, now: u64) -> bool
        ensures { result ≡ is_due self.now now }
    {
        match self.deadline {
            Some(deadline) => deadline <= now,
            None => false,
        }
    }

    /// What the item means to this call, while it is open.
    fn says(&self, item: Item) -> Option<Heard>
        ensures { result ≡ says_to_call self.now item }
    {
        match item {
            Item::User(from, body) => self
                .is_answer(from, body)
                .then_some(Heard::Answer(body.kind)),
            Item::Down(monitor, _, reason) => {
                (monitor == self.monitor).then_some(Heard::Down(reason))
            }
            _ => None,
        }
    }

    /// Whether the message is an answer of its server, under its number.
    fn is_answer(&self, from: Pid, body: Body) -> bool
        ensures { result ≡ is_answer_to_call self.now from body }
    {
        from == self.server && speaks_of(body, self.client) && body.num == self.number
    }
}

/// The number of a reference, as a message carries it.
fn number_of(monitor: Ref) -> i64
    requires { monitor.number < 2 ^ 63 }
    ensures { result ≡ pos monitor.number }
{
    monitor.number as i64
}

/// What the client learns of a request that was not sent for this fault, once its monitor was to be cancelled.
fn unsent(fault: CallFault, reference: Ref, cancelled: Result<bool, Fault>) -> AskFault
    ensures { result ≡ unsent_fault fault reference cancelled }
{
    match cancelled {
        Ok(_) => AskFault::Unasked(fault),
        Err(_) => AskFault::LeftOpen(fault, reference),
    }
}

/// The fault for which a request was not sent. That the server is seen to have exited is none: its `DOWN` arrives.
fn refusal(told: Result<(), CallFault>) -> Option<CallFault>
    ensures { result ≡ refusal told }
{
    match told {
        Ok(()) => None,
        Err(CallFault::Refused(Fault::NoProc)) => None,
        Err(fault) => Some(fault),
    }
}

/// Each call ends once: by its answer, by the exit of its server or by its deadline, and never by two of them. A call
/// to which none of them comes stays open. Of items and moments in any order, the first that ends it counts.
pub fn calls_end_once()
    ensures items { EndsOnce }
    ensures events { EndsFirst }
{}
