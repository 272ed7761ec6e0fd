//! The processes of the exchange.

use crate::caller::Caller;
use crate::clerk::Clerk;
use crate::enquiries::Enquiries;
use crate::line::Line;
use crate::words::Office;
use pt_behaviour::{Behaviour, Births, Next};
use pt_node::{Desk, Fault, Item, Pid};
use pt_supervisor::{Child, Limit, Restart, Start, Strategy, Supervisor};
use std::alloc::{AllocError, Global};

/// After how long somebody picks up at each line, if anybody is at home.
const HOMES: [Option<u64>; 3] = [Some(5), Some(10), None];

/// The processes of the exchange.
#[derive(Drop)]
pub enum Actor {
    Clerk(Clerk),
    Enquiries(Enquiries),
    Supervisor(Supervisor<Lines>),
    Line(Line),
    Caller(Caller),
}

impl Behaviour for Actor {
    ghost use Rattle.std.specs.Prelude.{⊤};

    ghost answers = { λ _ _ _ _ _ _ _ _ _. ⊤ };

    #[tactic(auto, using(pt_workers::proofs::GoingOn::stays))]
    fn handle(
        &mut self,
        desk: &mut Desk,
        births: &mut Births<Actor>,
        me: Pid,
        item: Option<Item>,
    ) -> Next {
        let now = births.now();
        match self {
            Actor::Clerk(clerk) => clerk.attend(now, item),
            Actor::Enquiries(enquiries) => enquiries.attend(desk, me, item),
            Actor::Supervisor(supervisor) => supervisor.handle(desk, births, me, item),
            Actor::Line(line) => line.attend(desk, now, me, item),
            Actor::Caller(caller) => caller.attend(desk, now, me, item),
        }
    }
}

/// What the children of the supervisor are: lines, each by its place.
#[derive(Clone, Copy, Drop)]
pub struct Lines {
    alloc: Global,
    office: Office,
}

impl Start<Actor> for Lines {
    fn start(&mut self, _supervisor: Pid, place: usize) -> Result<(Actor, Next), Fault> {
        let home = match HOMES.get(place) {
            Some(home) => *home,
            None => None,
        };
        let Ok(place) = u32::try_from(place) else {
            return Err(Fault::Memory);
        };
        let line = Line::new(self.alloc, self.office, place, home);
        Ok((Actor::Line(line), Next::Proceed))
    }
}

/// The supervisor of the lines, which starts each again by itself, at most ten times.
pub fn supervisor(alloc: Global, office: Office) -> Result<Supervisor<Lines>, AllocError> {
    let child = Child::new(Restart::Permanent);
    let children = vec![in alloc; child, child, child]?;
    let limit = Limit::new(alloc, 10, u64::MAX)?;
    let lines = Lines { alloc, office };
    Ok(Supervisor::new(lines, Strategy::OneForOne, children, limit))
}
