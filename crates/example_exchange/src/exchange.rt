//! The exchange as the work of a desk: its crew, the callers that enter it, and the moments.
//!
//! No clock is read. Once nothing is left to do at a moment, the next one is that at which a process has waited long
//! enough, or at which a caller calls.

ghost use Rattle.pt_desk.specs.DeskState.{GoesOn};

use crate::actor::{Actor, supervisor};
use crate::caller::{Caller, Plan};
use crate::clerk::{Clerk, Note};
use crate::enquiries::Enquiries;
use crate::words::Office;
use pt_behaviour::Next;
use pt_crew::Crew;
use pt_names::Name;
use pt_node::{Desk, Fault, Pid, Standing, Task, Turned, Work};
use std::alloc::Global;

/// The exchange on its desk.
#[derive(Drop)]
pub struct Exchange {
    alloc: Global,
    crew: Crew<Actor>,
    names: [Name; 4],
    /// It is there once the exchange has opened.
    office: Option<Office>,
    supervisor: Option<Pid>,
    plans: Vec<Plan>,
    /// The number of callers that have entered.
    entered: usize,
    now: u64,
    /// Whether the last turn of the desk did nothing.
    still: bool,
    standing: Standing,
}

impl Exchange {
    /// An exchange that opens in its first step, with these callers, the first in front.
    pub fn new(alloc: Global, names: [Name; 4], plans: Vec<Plan>) -> Exchange {
        Exchange {
            alloc,
            crew: Crew::new(alloc, 1),
            names,
            office: None,
            supervisor: None,
            plans,
            entered: 0,
            now: 0,
            still: false,
            standing: Standing::Going,
        }
    }

    /// The crew, to be read.
    pub fn crew(&self) -> &Crew<Actor> {
        &self.crew
    }

    /// What the clerk has written down.
    pub fn notes(&self) -> &[Note] {
        let Some(office) = self.office else {
            return &[];
        };
        match self.crew.behaviour(office.clerk) {
            Some(Actor::Clerk(clerk)) => clerk.notes(),
            _ => &[],
        }
    }

    /// The place of the line that a caller calls, by the number of the caller.
    pub fn called_by(&self, number: i64) -> Option<u32> {
        let place = usize::try_from(number.checked_sub(1)?).ok()?;
        match self.plans.get(place) {
            Some(plan) => Some(plan.line),
            None => None,
        }
    }

    /// The supervisor of the lines.
    pub fn supervisor(&self) -> Option<Pid> {
        self.supervisor
    }

    /// Opens: the clerk enters, then the registry and the supervisor of the lines.
    #[tactic(auto, using(pt_workers::proofs::GoingOn::stays, pt_desk::proofs::Turning::goes_on_then))]
    fn open(&mut self, desk: &mut Desk) -> Result<(), Fault>
        ensures { GoesOn desk.old desk.new }
    {
        let office = self.staff(desk)?;
        let lines = supervisor(self.alloc, office)?;
        let supervisor = self.enter(desk, Actor::Supervisor(lines))?;
        self.office = Some(office);
        self.supervisor = Some(supervisor);
        Ok(())
    }

    /// Lets the clerk and the registry enter.
    #[tactic(auto, using(pt_workers::proofs::GoingOn::stays, pt_desk::proofs::Turning::goes_on_then))]
    fn staff(&mut self, desk: &mut Desk) -> Result<Office, Fault>
        ensures { GoesOn desk.old desk.new }
    {
        let clerk = self.enter(desk, Actor::Clerk(Clerk::new(self.alloc)))?;
        let enquiries = Enquiries::new(self.alloc, clerk, self.names);
        let registry = self.enter(desk, Actor::Enquiries(enquiries))?;
        Ok(Office { registry, clerk })
    }

    /// Lets a process enter, which proceeds first.
    #[tactic(auto, using(pt_workers::proofs::GoingOn::stays))]
    fn enter(&mut self, desk: &mut Desk, actor: Actor) -> Result<Pid, Fault>
        ensures { GoesOn desk.old desk.new }
    {
        self.crew.enter(desk, actor, Next::Proceed)
    }

    /// Goes on to the next moment, if nothing is left to do at this one. If there is no next one, it is done.
    fn pass_time(&mut self, desk: &Desk) {
        if !self.still || !self.crew.is_idle(desk) {
            return;
        }
        match self.next_moment() {
            Some(at) if at > self.now => {
                self.now = at;
                self.crew.set_time(at);
            }
            Some(_) => {}
            None => self.standing = Standing::Done,
        }
    }

    /// The earliest moment at which a process has waited long enough, or a caller calls.
    fn next_moment(&self) -> Option<u64> {
        let call = match self.plans.get(self.entered) {
            Some(plan) => Some(plan.at),
            None => None,
        };
        match (self.crew.next_time(), call) {
            (Some(at), Some(call)) if at < call => Some(at),
            (at, None) => at,
            (_, call) => call,
        }
    }

    /// Lets the next caller enter, if its moment has come.
    #[tactic(auto, using(pt_workers::proofs::GoingOn::stays))]
    fn let_in(&mut self, desk: &mut Desk, office: Office)
        ensures { GoesOn desk.old desk.new }
    {
        let Some(caller) = self.next_caller(office) else {
            return;
        };
        match self.enter(desk, Actor::Caller(caller)) {
            Ok(_) => self.entered = self.entered.saturating_add(1),
            Err(_) => self.standing = Standing::Failed,
        }
    }

    /// The next caller, if its moment has come.
    fn next_caller(&self, office: Office) -> Option<Caller> {
        let plan = *self.plans.get(self.entered)?;
        if plan.at > self.now {
            return None;
        }
        let before = i64::try_from(self.entered).ok()?;
        Some(Caller::new(office, before.saturating_add(1), plan))
    }
}

impl Task for Exchange {
    ghost use Rattle.std.specs.Prelude.{⊤};

    ghost does = { λ _ _ _ _. ⊤ };

    ghost hears = { λ _ _ _ _. ⊤ };

    ghost standing = { λ e. e.standing };

    #[tactic(auto, using(pt_workers::proofs::GoingOn::stays, pt_desk::proofs::Turning::goes_on_then))]
    fn step(&mut self, desk: &mut Desk) {
        let Some(office) = self.office else {
            if self.open(desk).is_err() {
                self.standing = Standing::Failed;
            }
            return;
        };
        self.pass_time(desk);
        self.let_in(desk, office);
        Work::step(&mut self.crew, desk);
    }

    fn turned(&mut self, _desk: &Desk, turned: Turned) {
        self.still = turned.posted == 0 && turned.handled == 0;
    }

    fn standing(&self) -> Standing {
        self.standing
    }
}
