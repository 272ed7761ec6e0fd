//! Processes whose handlers are outside of their crew.

ghost use Rattle.std.specs.Prelude.{Option};
ghost use Rattle.pt_signal.specs.declared.pid.Pid.{Pid};
ghost use Rattle.pt_signal.specs.declared.item.Item.{Item};
ghost use Rattle.pt_behaviour.specs.declared.behaviour.Next.{Next};

use pt_behaviour::{Behaviour, Next};
use pt_workers::{Item, Pid};

/// A behaviour, some of whose processes have their handlers outside: [`Crew::serve_first`](crate::Crew::serve_first) tells
/// what these get.
///
/// The ghost member `tells` says what is told. It relates the process, what it was to do, the item that it gets or none,
/// the behaviour before, what is told, and the behaviour afterwards.
pub trait Outside: Behaviour {
    /// What the outside is told of a process.
    type Told;

    ghost tells: { Pid → Next → Option Item → Self → Option Self.Told → Self → Type 0 };

    /// What the outside is told of `me`, which gets an item, or `None` if it proceeds or waited until a time that has come.
    /// It is `None` if the handler is not outside: then [`Behaviour::handle`] gets the item.
    fn tell(&mut self, me: Pid, before: Next, item: Option<Item>) -> Option<Self::Told>
        ensures tells { tells me before item self.old result self.new };
}
