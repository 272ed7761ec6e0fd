//! A caller: it looks a line up by its name, asks it to ring, and waits for as long as it is patient.

ghost use Rattle.std.specs.Prelude.{◌≡◌};
ghost use Rattle.pt_desk.specs.DeskState.{GoesOn};
ghost use Rattle.pt_behaviour.specs.Behaving.{takes};

use crate::facts;
use crate::words::{
    BUSY, HANG_UP, NO_ANSWER, NOISE, Office, PICKED_UP, RING, WHEREIS, message, tell,
};
use pt_behaviour::{Next, monitor};
use pt_names::{Heard, Pending};
use pt_node::{Body, Desk, Item, Pick, Pid, Reason, Ref};

/// How long a caller waits for the registry, and for an answer that comes late.
const WAITS_FOR: u64 = 60;

/// How a caller ends its call.
#[derive(Clone, Copy, PartialEq, Eq)]
pub enum Manner {
    /// It hangs up.
    Polite,
    /// If it has lost patience it does not hang up, and hears what comes late.
    Forgetful,
    /// It makes a noise that no line survives.
    Loud,
}

/// What a caller is going to do.
#[derive(Clone, Copy)]
pub struct Plan {
    /// When it calls.
    pub at: u64,
    /// The place of the line that it calls.
    pub line: u32,
    /// How long it lets the line ring.
    pub patience: u64,
    /// How long it talks.
    pub talks: u64,
    pub manner: Manner,
}

/// What a caller does.
#[derive(Clone, Copy)]
enum State {
    /// It has entered.
    New,
    /// It has asked the registry for its line.
    Looking,
    /// It has asked its line to ring.
    Calling,
    /// It talks until this time, and monitors its line.
    Talking(Ref, u64),
}

/// A caller, with its number.
#[derive(Drop)]
pub struct Caller {
    office: Office,
    number: i64,
    plan: Plan,
    state: State,
    /// The line that it has found.
    line: Option<Pid>,
    call: Option<Pending>,
}

impl Caller {
    pub fn new(office: Office, number: i64, plan: Plan) -> Caller {
        Caller {
            office,
            number,
            plan,
            state: State::New,
            line: None,
            call: None,
        }
    }

    /// Handles an item, or what is to be done now.
    #[tactic(auto, using(pt_workers::proofs::GoingOn::stays))]
    pub fn attend(&mut self, desk: &mut Desk, now: u64, me: Pid, item: Option<Item>) -> Next
        ensures takes { takes desk.new.shard.journal ≡ takes desk.old.shard.journal }
        ensures goes_on { GoesOn desk.old desk.new }
    {
        match (self.state, item) {
            (State::New, _) => self.look_up(desk, now, me),
            (State::Looking, Some(Item::User(_, told))) => self.find(desk, now, me, told.who),
            (State::Looking, _) => self.end(desk, me, facts::FAILS),
            (State::Calling, Some(item)) => self.hear(desk, now, me, item),
            (State::Calling, None) => self.lose_patience(desk, now, me),
            (State::Talking(_, _), None) => self.stop_talking(desk, me),
            (State::Talking(line, until), Some(item)) => self.listen(desk, me, item, line, until),
        }
    }

    /// Tells the clerk something about itself.
    #[tactic(auto, using(pt_workers::proofs::GoingOn::stays))]
    fn report(&self, desk: &mut Desk, me: Pid, fact: u32)
        ensures takes { takes desk.new.shard.journal ≡ takes desk.old.shard.journal }
        ensures goes_on { GoesOn desk.old desk.new }
    {
        let told = Body {
            who: self.line,
            ..message(fact, self.number)
        };
        tell(desk, me, self.office.clerk, told);
    }

    /// Tells the clerk how its call ended, and exits.
    #[tactic(auto, using(pt_workers::proofs::GoingOn::stays))]
    fn end(&self, desk: &mut Desk, me: Pid, fact: u32) -> Next
        ensures takes { takes desk.new.shard.journal ≡ takes desk.old.shard.journal }
        ensures goes_on { GoesOn desk.old desk.new }
    {
        self.report(desk, me, fact);
        Next::Stop(Reason::Normal)
    }

    /// Asks the registry for its line.
    #[tactic(auto, using(pt_workers::proofs::GoingOn::stays))]
    fn look_up(&mut self, desk: &mut Desk, now: u64, me: Pid) -> Next
        ensures takes { takes desk.new.shard.journal ≡ takes desk.old.shard.journal }
        ensures goes_on { GoesOn desk.old desk.new }
    {
        self.state = State::Looking;
        let registry = self.office.registry;
        tell(
            desk,
            me,
            registry,
            message(WHEREIS, i64::from(self.plan.line)),
        );
        Next::WaitUntil(Pick::From(registry), now.saturating_add(WAITS_FOR))
    }

    /// The registry says which process has the name, or that none has it.
    #[tactic(auto, using(pt_desk::proofs::Turning::goes_on_then))]
    fn find(&mut self, desk: &mut Desk, now: u64, me: Pid, line: Option<Pid>) -> Next
        ensures takes { takes desk.new.shard.journal ≡ takes desk.old.shard.journal }
        ensures goes_on { GoesOn desk.old desk.new }
    {
        self.line = line;
        self.report(desk, me, facts::FINDS);
        self.ask_found(desk, now, me)
    }

    /// Asks its line to ring, if it has found one.
    #[tactic(auto, using(pt_workers::proofs::GoingOn::stays))]
    fn ask_found(&mut self, desk: &mut Desk, now: u64, me: Pid) -> Next
        ensures takes { takes desk.new.shard.journal ≡ takes desk.old.shard.journal }
        ensures goes_on { GoesOn desk.old desk.new }
    {
        match self.line {
            Some(line) => self.ask(desk, now, me, line),
            None => Next::Stop(Reason::Normal),
        }
    }

    /// Asks a line to ring, for as long as it is patient.
    #[tactic(auto, using(pt_workers::proofs::GoingOn::stays, pt_desk::proofs::Turning::goes_on_then))]
    fn ask(&mut self, desk: &mut Desk, now: u64, me: Pid, line: Pid) -> Next
        ensures takes { takes desk.new.shard.journal ≡ takes desk.old.shard.journal }
        ensures goes_on { GoesOn desk.old desk.new }
    {
        let until = now.saturating_add(self.plan.patience);
        match asked(desk, me, line, until) {
            Some(call) => {
                self.state = State::Calling;
                self.call = Some(call);
                Next::WaitUntil(Pick::Any, until)
            }
            None => self.end(desk, me, facts::FAILS),
        }
    }

    /// Handles an item while it waits for the answer of its line.
    #[tactic(auto, using(pt_workers::proofs::GoingOn::stays, pt_desk::proofs::Turning::goes_on_then))]
    fn hear(&mut self, desk: &mut Desk, now: u64, me: Pid, item: Item) -> Next
        ensures takes { takes desk.new.shard.journal ≡ takes desk.old.shard.journal }
        ensures goes_on { GoesOn desk.old desk.new }
    {
        match self.hear_call(desk, item) {
            Heard::Answer(PICKED_UP) => self.talk(desk, now, me),
            Heard::Answer(BUSY) => self.end(desk, me, facts::HEARS_BUSY),
            Heard::Answer(NO_ANSWER) => self.end(desk, me, facts::HEARS_NOBODY),
            Heard::Answer(_) => self.end(desk, me, facts::FAILS),
            Heard::Down(_) => self.end(desk, me, facts::IS_CUT_OFF),
            Heard::Late => self.end(desk, me, facts::IS_TOO_LATE),
            Heard::NotMine => self.waits(),
        }
    }

    #[tactic(auto, using(pt_workers::proofs::GoingOn::stays))]
    fn hear_call(&mut self, desk: &mut Desk, item: Item) -> Heard
        ensures takes { takes desk.new.shard.journal ≡ takes desk.old.shard.journal }
        ensures goes_on { GoesOn desk.old desk.new }
    {
        match &mut self.call {
            Some(call) => call.hear(desk, item),
            None => Heard::NotMine,
        }
    }

    /// Waits for its answer until its call ends.
    fn waits(&self) -> Next {
        let deadline = match &self.call {
            Some(call) => call.deadline(),
            None => None,
        };
        match deadline {
            Some(at) => Next::WaitUntil(Pick::Any, at),
            None => Next::Wait(Pick::Any),
        }
    }

    /// Ends its call without an answer, at its deadline.
    #[tactic(auto, using(pt_workers::proofs::GoingOn::stays, pt_desk::proofs::Turning::goes_on_then))]
    fn lose_patience(&mut self, desk: &mut Desk, now: u64, me: Pid) -> Next
        ensures takes { takes desk.new.shard.journal ≡ takes desk.old.shard.journal }
        ensures goes_on { GoesOn desk.old desk.new }
    {
        if !self.expire(desk, now) {
            return Next::Stop(Reason::Normal);
        }
        match self.plan.manner {
            Manner::Forgetful => self.forget(desk, now, me),
            Manner::Polite | Manner::Loud => self.hang_up(desk, me, HANG_UP, facts::IS_TIRED),
        }
    }

    /// Whether its call ends by its deadline now.
    #[tactic(auto, using(pt_workers::proofs::GoingOn::stays))]
    fn expire(&mut self, desk: &mut Desk, now: u64) -> bool
        ensures takes { takes desk.new.shard.journal ≡ takes desk.old.shard.journal }
        ensures goes_on { GoesOn desk.old desk.new }
    {
        match &mut self.call {
            Some(call) => call.expire(desk, now),
            None => false,
        }
    }

    /// Does not hang up, and waits for what comes late.
    #[tactic(auto, using(pt_workers::proofs::GoingOn::stays))]
    fn forget(&self, desk: &mut Desk, now: u64, me: Pid) -> Next
        ensures takes { takes desk.new.shard.journal ≡ takes desk.old.shard.journal }
        ensures goes_on { GoesOn desk.old desk.new }
    {
        self.report(desk, me, facts::FORGETS);
        Next::WaitUntil(Pick::Any, now.saturating_add(WAITS_FOR))
    }

    /// Tells its line something, and exits.
    #[tactic(auto, using(pt_desk::proofs::Turning::goes_on_then))]
    fn hang_up(&self, desk: &mut Desk, me: Pid, word: u32, fact: u32) -> Next
        ensures takes { takes desk.new.shard.journal ≡ takes desk.old.shard.journal }
        ensures goes_on { GoesOn desk.old desk.new }
    {
        self.say(desk, me, word);
        self.end(desk, me, fact)
    }

    /// Tells its line something.
    #[tactic(auto, using(pt_workers::proofs::GoingOn::stays))]
    fn say(&self, desk: &mut Desk, me: Pid, word: u32)
        ensures takes { takes desk.new.shard.journal ≡ takes desk.old.shard.journal }
        ensures goes_on { GoesOn desk.old desk.new }
    {
        if let Some(line) = self.line {
            tell(desk, me, line, message(word, 0));
        }
    }

    /// Somebody has picked up: it talks, and monitors its line as long as it does.
    #[tactic(auto, using(pt_desk::proofs::Turning::goes_on_then))]
    fn talk(&mut self, desk: &mut Desk, now: u64, me: Pid) -> Next
        ensures takes { takes desk.new.shard.journal ≡ takes desk.old.shard.journal }
        ensures goes_on { GoesOn desk.old desk.new }
    {
        self.report(desk, me, facts::TALKS);
        self.watch(desk, now, me)
    }

    #[tactic(auto, using(pt_workers::proofs::GoingOn::stays))]
    fn watch(&mut self, desk: &mut Desk, now: u64, me: Pid) -> Next
        ensures takes { takes desk.new.shard.journal ≡ takes desk.old.shard.journal }
        ensures goes_on { GoesOn desk.old desk.new }
    {
        let Some(line) = self.line else {
            return Next::Stop(Reason::Normal);
        };
        match monitor(desk, me, line) {
            Ok(reference) => {
                let until = now.saturating_add(self.plan.talks);
                self.state = State::Talking(reference, until);
                Next::WaitUntil(Pick::Any, until)
            }
            Err(_) => Next::Stop(Reason::Normal),
        }
    }

    /// Ends the call in its manner. One that is loud waits for what follows.
    #[tactic(auto, using(pt_workers::proofs::GoingOn::stays))]
    fn stop_talking(&mut self, desk: &mut Desk, me: Pid) -> Next
        ensures takes { takes desk.new.shard.journal ≡ takes desk.old.shard.journal }
        ensures goes_on { GoesOn desk.old desk.new }
    {
        match self.plan.manner {
            Manner::Loud => self.shout(desk, me),
            Manner::Polite | Manner::Forgetful => {
                self.hang_up(desk, me, HANG_UP, facts::HANGS_UP)
            }
        }
    }

    /// Makes a noise.
    #[tactic(auto, using(pt_desk::proofs::Turning::goes_on_then))]
    fn shout(&self, desk: &mut Desk, me: Pid) -> Next
        ensures takes { takes desk.new.shard.journal ≡ takes desk.old.shard.journal }
        ensures goes_on { GoesOn desk.old desk.new }
    {
        self.report(desk, me, facts::IS_LOUD);
        self.say(desk, me, NOISE);
        Next::Wait(Pick::Any)
    }

    /// Handles an item while it talks: maybe the `DOWN` of its line.
    #[tactic(auto, using(pt_workers::proofs::GoingOn::stays))]
    fn listen(&self, desk: &mut Desk, me: Pid, item: Item, line: Ref, until: u64) -> Next
        ensures takes { takes desk.new.shard.journal ≡ takes desk.old.shard.journal }
        ensures goes_on { GoesOn desk.old desk.new }
    {
        match item {
            Item::Down(gone, _, _) if gone == line => self.end(desk, me, facts::IS_CUT_OFF),
            _ => Next::WaitUntil(Pick::Any, until),
        }
    }
}

/// The call by which a line is asked to ring until a time, if it could be made.
#[tactic(auto, using(pt_workers::proofs::GoingOn::stays))]
fn asked(desk: &mut Desk, me: Pid, line: Pid, until: u64) -> Option<Pending>
    ensures takes { takes desk.new.shard.journal ≡ takes desk.old.shard.journal }
    ensures goes_on { GoesOn desk.old desk.new }
{
    Pending::ask_until(desk, me, line, RING, until).ok()
}
