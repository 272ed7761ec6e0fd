//! A line of the exchange: a telephone, and maybe somebody who picks up.

ghost use Rattle.std.specs.Prelude.{◌≡◌};
ghost use Rattle.pt_desk.specs.DeskState.{GoesOn};
ghost use Rattle.pt_behaviour.specs.Behaving.{takes};

use crate::facts;
use crate::words::{
    BUSY, CRASH, HANG_UP, NAMED, NO_ANSWER, NOISE, Office, PICK_UP, PICKED_UP, REFUSED, RING,
    message, tell,
};
use pt_behaviour::{Next, demonitor, monitor};
use pt_names::{Alarms, Heard, Pending, Request, reply, request_of};
use pt_node::{Body, Desk, Item, Pick, Pid, Ref};
use pt_timers::Timer;
use std::alloc::Global;

/// How long a line rings before it gives up.
const RINGS_FOR: u64 = 30;

/// A call that a line has not answered yet.
#[derive(Clone, Copy)]
struct Ringing {
    request: Request,
    /// When it gives up.
    until: u64,
    /// The alarm at which somebody picks up, if anybody is at home.
    hand: Option<Timer>,
}

/// What a line does.
#[derive(Clone, Copy)]
enum State {
    /// It was started.
    New,
    /// It has asked for its name.
    Joining,
    Idle,
    Ringing(Ringing),
    /// It is in a call with this process, which it monitors.
    Talking(Pid, Ref),
}

/// A line, which has its name by its place.
#[derive(Drop)]
pub struct Line {
    office: Office,
    place: u32,
    /// After how long somebody picks up, if anybody is at home.
    home: Option<u64>,
    state: State,
    /// The call by which it asks for its name.
    call: Option<Pending>,
    alarms: Alarms,
}

impl Line {
    pub fn new(alloc: Global, office: Office, place: u32, home: Option<u64>) -> Line {
        Line {
            office,
            place,
            home,
            state: State::New,
            call: None,
            alarms: Alarms::new(alloc),
        }
    }

    /// The time of its next alarm, if it has one.
    pub fn next_alarm(&self) -> Option<u64> {
        self.alarms.next()
    }

    /// Handles an item, or what is to be done now.
    #[tactic(auto, using(pt_workers::proofs::GoingOn::stays))]
    pub fn attend(&mut self, desk: &mut Desk, now: u64, me: Pid, item: Option<Item>) -> Next
        ensures takes { takes desk.new.shard.journal ≡ takes desk.old.shard.journal }
        ensures goes_on { GoesOn desk.old desk.new }
    {
        match item {
            Some(item) => self.take(desk, now, me, item),
            None => self.proceed(desk, now, me),
        }
    }

    /// Does what is to be done now: it begins, or a moment has come for which it has waited.
    #[tactic(auto, using(pt_workers::proofs::GoingOn::stays))]
    fn proceed(&mut self, desk: &mut Desk, now: u64, me: Pid) -> Next
        ensures takes { takes desk.new.shard.journal ≡ takes desk.old.shard.journal }
        ensures goes_on { GoesOn desk.old desk.new }
    {
        match self.state {
            State::New => self.begin(desk, me),
            State::Ringing(ringing) if ringing.until <= now => self.give_up(desk, me, ringing),
            _ => self.ring_alarms(desk, now, me),
        }
    }

    /// Handles an item: before it has its name, the answer of the registry alone.
    #[tactic(auto, using(pt_workers::proofs::GoingOn::stays))]
    fn take(&mut self, desk: &mut Desk, now: u64, me: Pid, item: Item) -> Next
        ensures takes { takes desk.new.shard.journal ≡ takes desk.old.shard.journal }
        ensures goes_on { GoesOn desk.old desk.new }
    {
        match self.state {
            State::New | State::Joining => self.join(desk, me, item),
            _ => self.hear(desk, now, me, item),
        }
    }

    /// What it waits for: for a caller, or for the moment at which it has something to do while it rings.
    fn waits(&self) -> Next {
        match self.state {
            State::Ringing(ringing) => Next::WaitUntil(Pick::Any, self.earliest(ringing.until)),
            _ => Next::Wait(Pick::Any),
        }
    }

    /// This time, or that of the next alarm if it is earlier.
    fn earliest(&self, until: u64) -> u64 {
        match self.alarms.next() {
            Some(at) if at < until => at,
            _ => until,
        }
    }

    /// Tells the clerk something about itself.
    #[tactic(auto, using(pt_workers::proofs::GoingOn::stays))]
    fn report(&self, desk: &mut Desk, me: Pid, fact: u32)
        ensures takes { takes desk.new.shard.journal ≡ takes desk.old.shard.journal }
        ensures goes_on { GoesOn desk.old desk.new }
    {
        let told = Body {
            who: Some(me),
            ..message(fact, i64::from(self.place))
        };
        tell(desk, me, self.office.clerk, told);
    }

    /// Begins: it tells the clerk, and asks for its name.
    #[tactic(auto, using(pt_desk::proofs::Turning::goes_on_then))]
    fn begin(&mut self, desk: &mut Desk, me: Pid) -> Next
        ensures takes { takes desk.new.shard.journal ≡ takes desk.old.shard.journal }
        ensures goes_on { GoesOn desk.old desk.new }
    {
        self.report(desk, me, facts::STARTS);
        self.ask_for_name(desk, me)
    }

    /// Asks for its name.
    #[tactic(auto, using(pt_workers::proofs::GoingOn::stays))]
    fn ask_for_name(&mut self, desk: &mut Desk, me: Pid) -> Next
        ensures takes { takes desk.new.shard.journal ≡ takes desk.old.shard.journal }
        ensures goes_on { GoesOn desk.old desk.new }
    {
        match Pending::ask(desk, me, self.office.registry, self.place) {
            Ok(call) => {
                self.call = Some(call);
                self.state = State::Joining;
                Next::Wait(Pick::Any)
            }
            Err(_) => Next::Stop(REFUSED),
        }
    }

    /// Hears whether it has its name. Without its name it exits, and its supervisor starts another.
    #[tactic(auto, using(pt_workers::proofs::GoingOn::stays, pt_desk::proofs::Turning::goes_on_then))]
    fn join(&mut self, desk: &mut Desk, me: Pid, item: Item) -> Next
        ensures takes { takes desk.new.shard.journal ≡ takes desk.old.shard.journal }
        ensures goes_on { GoesOn desk.old desk.new }
    {
        match self.hear_call(desk, item) {
            Heard::Answer(NAMED) => {
                self.state = State::Idle;
                self.report(desk, me, facts::HAS_NAME);
                Next::Wait(Pick::Any)
            }
            Heard::Answer(_) | Heard::Down(_) => Next::Stop(REFUSED),
            Heard::Late | Heard::NotMine => Next::Wait(Pick::Any),
        }
    }

    #[tactic(auto, using(pt_workers::proofs::GoingOn::stays))]
    fn hear_call(&mut self, desk: &mut Desk, item: Item) -> Heard
        ensures takes { takes desk.new.shard.journal ≡ takes desk.old.shard.journal }
        ensures goes_on { GoesOn desk.old desk.new }
    {
        match &mut self.call {
            Some(call) => call.hear(desk, item),
            None => Heard::NotMine,
        }
    }

    /// Handles an item once it has its name.
    #[tactic(auto, using(pt_workers::proofs::GoingOn::stays))]
    fn hear(&mut self, desk: &mut Desk, now: u64, me: Pid, item: Item) -> Next
        ensures takes { takes desk.new.shard.journal ≡ takes desk.old.shard.journal }
        ensures goes_on { GoesOn desk.old desk.new }
    {
        match (self.state, item, request_of(item)) {
            (State::Idle, _, Some(request)) if request.asks == RING => {
                self.ring(desk, now, me, request)
            }
            (_, _, Some(request)) if request.asks == RING => self.turn_away(desk, me, request),
            (_, Item::User(from, body), _) => self.listen(desk, me, from, body.kind),
            (State::Talking(_, caller), Item::Down(gone, _, _), _) if caller == gone => {
                self.be_free(desk, me)
            }
            _ => self.waits(),
        }
    }

    /// Handles a message: somebody picks up here, the caller hangs up, or there is a noise.
    #[tactic(auto, using(pt_workers::proofs::GoingOn::stays))]
    fn listen(&mut self, desk: &mut Desk, me: Pid, from: Pid, kind: u32) -> Next
        ensures takes { takes desk.new.shard.journal ≡ takes desk.old.shard.journal }
        ensures goes_on { GoesOn desk.old desk.new }
    {
        match (self.state, kind) {
            (State::Ringing(ringing), PICK_UP) if from == me => self.pick_up(desk, me, ringing),
            (State::Ringing(ringing), HANG_UP) if from == ringing.request.from => {
                self.stop_ringing(desk, me, ringing)
            }
            (State::Talking(caller, monitor), HANG_UP) if from == caller => {
                self.end_call(desk, me, monitor)
            }
            (State::Talking(caller, _), NOISE) if from == caller => Next::Stop(CRASH),
            _ => self.waits(),
        }
    }

    /// Begins to ring.
    #[tactic(auto, using(pt_workers::proofs::GoingOn::stays))]
    fn ring(&mut self, desk: &mut Desk, now: u64, me: Pid, request: Request) -> Next
        ensures takes { takes desk.new.shard.journal ≡ takes desk.old.shard.journal }
        ensures goes_on { GoesOn desk.old desk.new }
    {
        let hand = self.somebody_comes(now, me);
        self.state = State::Ringing(Ringing {
            request,
            until: now.saturating_add(RINGS_FOR),
            hand,
        });
        self.report(desk, me, facts::RINGS);
        self.waits()
    }

    /// Sets the alarm at which somebody picks up. Without memory for it, nobody does.
    fn somebody_comes(&mut self, now: u64, me: Pid) -> Option<Timer> {
        let at = now.saturating_add(self.home?);
        match self.alarms.send_after(at, me, message(PICK_UP, 0)) {
            Ok(timer) => Some(timer),
            Err(_) => None,
        }
    }

    /// Sends what is due: the message to itself that somebody picks up. What is refused is tried again.
    #[tactic(auto, using(pt_workers::proofs::GoingOn::stays))]
    fn ring_alarms(&mut self, desk: &mut Desk, now: u64, me: Pid) -> Next
        ensures takes { takes desk.new.shard.journal ≡ takes desk.old.shard.journal }
        ensures goes_on { GoesOn desk.old desk.new }
    {
        let _ = self.alarms.ring(desk, me, now);
        self.waits()
    }

    /// Tells a caller that it is busy.
    #[tactic(auto, using(pt_desk::proofs::Turning::goes_on_then))]
    fn turn_away(&mut self, desk: &mut Desk, me: Pid, request: Request) -> Next
        ensures takes { takes desk.new.shard.journal ≡ takes desk.old.shard.journal }
        ensures goes_on { GoesOn desk.old desk.new }
    {
        self.report(desk, me, facts::IS_BUSY);
        let _ = reply(desk, me, request, BUSY);
        self.waits()
    }

    /// Stops ringing, since nobody has picked up, and tells the caller.
    #[tactic(auto, using(pt_desk::proofs::Turning::goes_on_then))]
    fn give_up(&mut self, desk: &mut Desk, me: Pid, ringing: Ringing) -> Next
        ensures takes { takes desk.new.shard.journal ≡ takes desk.old.shard.journal }
        ensures goes_on { GoesOn desk.old desk.new }
    {
        self.report(desk, me, facts::GIVES_UP);
        let _ = reply(desk, me, ringing.request, NO_ANSWER);
        let _ = self.cancel(ringing.hand);
        self.state = State::Idle;
        self.waits()
    }

    /// Stops ringing, since the caller has hung up in time.
    #[tactic(auto, using(pt_workers::proofs::GoingOn::stays))]
    fn stop_ringing(&mut self, desk: &mut Desk, me: Pid, ringing: Ringing) -> Next
        ensures takes { takes desk.new.shard.journal ≡ takes desk.old.shard.journal }
        ensures goes_on { GoesOn desk.old desk.new }
    {
        let is_cancelled = self.cancel(ringing.hand);
        let fact = if is_cancelled {
            facts::STOPS
        } else {
            facts::IS_FREE
        };
        self.state = State::Idle;
        self.report(desk, me, fact);
        self.waits()
    }

    /// Cancels the alarm at which somebody picks up, and returns whether it was still to ring.
    fn cancel(&mut self, hand: Option<Timer>) -> bool {
        match hand {
            Some(hand) => self.alarms.cancel_timer(hand),
            None => false,
        }
    }

    /// Somebody picks up: the caller is told, and is monitored while the call lasts. If it has exited, there is no call.
    #[tactic(auto, using(pt_desk::proofs::Turning::goes_on_then))]
    fn pick_up(&mut self, desk: &mut Desk, me: Pid, ringing: Ringing) -> Next
        ensures takes { takes desk.new.shard.journal ≡ takes desk.old.shard.journal }
        ensures goes_on { GoesOn desk.old desk.new }
    {
        self.report(desk, me, facts::PICKS_UP);
        let state = connect(desk, me, ringing.request);
        self.state = state;
        self.waits()
    }

    /// The caller has hung up.
    #[tactic(auto, using(pt_desk::proofs::Turning::goes_on_then))]
    fn end_call(&mut self, desk: &mut Desk, me: Pid, reference: Ref) -> Next
        ensures takes { takes desk.new.shard.journal ≡ takes desk.old.shard.journal }
        ensures goes_on { GoesOn desk.old desk.new }
    {
        let _ = demonitor(desk, me, reference);
        self.be_free(desk, me)
    }

    /// A call has ended.
    #[tactic(auto, using(pt_workers::proofs::GoingOn::stays))]
    fn be_free(&mut self, desk: &mut Desk, me: Pid) -> Next
        ensures takes { takes desk.new.shard.journal ≡ takes desk.old.shard.journal }
        ensures goes_on { GoesOn desk.old desk.new }
    {
        self.state = State::Idle;
        self.report(desk, me, facts::IS_FREE);
        self.waits()
    }
}

/// Monitors a caller, and tells it that somebody has picked up.
#[tactic(auto, using(pt_desk::proofs::Turning::goes_on_then))]
fn connect(desk: &mut Desk, me: Pid, request: Request) -> State
    ensures takes { takes desk.new.shard.journal ≡ takes desk.old.shard.journal }
    ensures goes_on { GoesOn desk.old desk.new }
{
    let reference = monitor(desk, me, request.from).ok();
    let _ = reply(desk, me, request, PICKED_UP);
    talking(request.from, reference)
}

/// In a call with a caller that is monitored.
fn talking(caller: Pid, reference: Option<Ref>) -> State {
    match reference {
        Some(reference) => State::Talking(caller, reference),
        None => State::Idle,
    }
}
