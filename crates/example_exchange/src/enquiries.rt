//! The process that keeps the names of the lines.

ghost use Rattle.std.specs.Prelude.{◌≡◌};
ghost use Rattle.pt_desk.specs.DeskState.{GoesOn};
ghost use Rattle.pt_behaviour.specs.Behaving.{takes};

use crate::facts;
use crate::words::{LINES, NAMED, NOT_NAMED, WHEREIS, message, tell};
use pt_behaviour::Next;
use pt_names::{Name, Registry, Request, reply, request_of};
use pt_node::{Body, Desk, Item, Pick, Pid};
use std::alloc::Global;

/// The names of the lines, in the order of their places.
pub fn names() -> Option<[Name; 4]> {
    Some([
        Name::new(LINES[0])?,
        Name::new(LINES[1])?,
        Name::new(LINES[2])?,
        Name::new(LINES[3])?,
    ])
}

/// The registry of the lines. A line asks for its name by a call, and a caller asks who has a name by a message.
#[derive(Drop)]
pub struct Enquiries {
    alloc: Global,
    clerk: Pid,
    names: [Name; 4],
    /// It is there from the process's first run on, since it has to know the process.
    registry: Option<Registry>,
}

impl Enquiries {
    pub fn new(alloc: Global, clerk: Pid, names: [Name; 4]) -> Enquiries {
        Enquiries {
            alloc,
            clerk,
            names,
            registry: None,
        }
    }

    /// Handles an item: a line asks for its name, a caller asks who has a name, or a process with a name has exited.
    #[tactic(auto, using(pt_workers::proofs::GoingOn::stays))]
    pub fn attend(&mut self, desk: &mut Desk, me: Pid, item: Option<Item>) -> Next
        ensures takes { takes desk.new.shard.journal ≡ takes desk.old.shard.journal }
        ensures goes_on { GoesOn desk.old desk.new }
    {
        match item {
            Some(item) => self.serve(desk, me, item),
            None => self.registry = Some(Registry::new(self.alloc, me)),
        }
        Next::Wait(Pick::Any)
    }

    #[tactic(auto, using(pt_workers::proofs::GoingOn::stays))]
    fn serve(&mut self, desk: &mut Desk, me: Pid, item: Item)
        ensures takes { takes desk.new.shard.journal ≡ takes desk.old.shard.journal }
        ensures goes_on { GoesOn desk.old desk.new }
    {
        match (item, request_of(item)) {
            (_, Some(request)) => self.name_line(desk, me, request),
            (Item::User(from, body), None) if body.kind == WHEREIS => {
                self.say_who(desk, me, from, body)
            }
            _ => self.lose(desk, me, item),
        }
    }

    /// Gives a line its name, if it can have it, and answers whether it has.
    #[tactic(auto, using(pt_desk::proofs::Turning::goes_on_then))]
    fn name_line(&mut self, desk: &mut Desk, me: Pid, request: Request)
        ensures takes { takes desk.new.shard.journal ≡ takes desk.old.shard.journal }
        ensures goes_on { GoesOn desk.old desk.new }
    {
        let answer = self.register(desk, request);
        let _ = reply(desk, me, request, answer);
    }

    #[tactic(auto, using(pt_workers::proofs::GoingOn::stays))]
    fn register(&mut self, desk: &mut Desk, request: Request) -> u32
        ensures takes { takes desk.new.shard.journal ≡ takes desk.old.shard.journal }
        ensures goes_on { GoesOn desk.old desk.new }
    {
        let Some(registry) = &mut self.registry else {
            return NOT_NAMED;
        };
        match registry.register_sender(desk, &self.names, request) {
            Ok(()) => NAMED,
            Err(_) => NOT_NAMED,
        }
    }

    /// Says which process has a name, in a message like the question.
    #[tactic(auto, using(pt_workers::proofs::GoingOn::stays))]
    fn say_who(&self, desk: &mut Desk, me: Pid, from: Pid, question: Body)
        ensures takes { takes desk.new.shard.journal ≡ takes desk.old.shard.journal }
        ensures goes_on { GoesOn desk.old desk.new }
    {
        let who = self.whereis(question.num);
        tell(desk, me, from, Body { who, ..question });
    }

    fn whereis(&self, place: i64) -> Option<Pid> {
        let name = self.names.get(usize::try_from(place).ok()?)?;
        match &self.registry {
            Some(registry) => registry.whereis(*name),
            None => None,
        }
    }

    /// Forgets the name of a process that has exited.
    #[tactic(auto, using(pt_workers::proofs::GoingOn::stays))]
    fn lose(&mut self, desk: &mut Desk, me: Pid, item: Item)
        ensures takes { takes desk.new.shard.journal ≡ takes desk.old.shard.journal }
        ensures goes_on { GoesOn desk.old desk.new }
    {
        if let Some(place) = self.freed(item) {
            tell(desk, me, self.clerk, message(facts::HAS_NO_NAME, place));
        }
    }

    /// The place of the name that nobody has any more.
    fn freed(&mut self, item: Item) -> Option<i64> {
        let name = match &mut self.registry {
            Some(registry) => registry.hear(item)?,
            None => return None,
        };
        let place = self.names.iter().position(|known| *known == name)?;
        i64::try_from(place).ok()
    }
}
