//! What a process does with the items of its mailbox.

ghost use Rattle.std.specs.Prelude.{◌≡◌, ℕ, List, Option};
ghost use Rattle.pt_desk.specs.DeskState.{GoesOn};
ghost use Rattle.pt_signal.specs.declared.pid.Pid.{Pid};
ghost use Rattle.pt_signal.specs.declared.item.Item.{Item};
ghost use Rattle.pt_shard.specs.ShardState.{ShardState};
ghost use Rattle.pt_behaviour.specs.declared.behaviour.Next.{Next};
ghost use Rattle.pt_behaviour.specs.declared.births.Role.{Role};
ghost use Rattle.pt_behaviour.specs.Births.{bore, born, kept_roles, time_told};
ghost use Rattle.pt_behaviour.specs.Behaving.{takes};

use crate::births::Births;
use pt_workers::{Desk, Item, Pick, Pid, Reason};

/// What a process does next.
#[derive(Clone, Copy, Debug, PartialEq, Eq)]
pub enum Next {
    /// It waits for an item that matches this pick. The others stay in its mailbox, in order. Each item matches
    /// `Pick::Any`.
    Wait(Pick),
    /// It waits for an item that matches this pick, but no longer than until this time: Erlang's `receive .. after`. It
    /// gets `None` at the first step whose time is not below this one, unless an item that matches is there.
    WaitUntil(Pick, u64),
    /// It gets `None` when it runs next: Erlang's `{continue, ..}`.
    Proceed,
    /// It was handed something, and the outside has not said yet what it does next: Erlang's `running`. It gets nothing
    /// until `Crew::answer` of `pt_crew` is called.
    Running,
    /// It exits with this reason when it runs next.
    Stop(Reason),
}

/// What a process does with the items of its mailbox: `handle_info` of Erlang's `gen_server`. Each answer has a pick,
/// as `receive` has its patterns.
///
/// Its state is a value of the program's own, one for each process. The ghost member `answers` says what it may answer,
/// and a step of a crew says by it what it did. It relates the time of the step, the behaviour and its desk before, the
/// process, the item, what it does next, the behaviour and its desk afterwards, and the children that it spawned.
pub trait Behaviour {
    ghost answers: { ℕ → Self → ShardState → Pid → Option Item → Next → Self → ShardState → List (Role Self) → Type 0 };

    /// Handles one item, which was taken out of the mailbox of `me`, or gets `None` if `me` was to proceed, or waited
    /// until a time that has come. It must take no other item out of a mailbox. [`Births::now`] is the time of the step.
    ///
    /// The calls of a desk in the form of [`send`](crate::send), [`monitor`](crate::monitor) and their like keep what is
    /// required here. The children that it spawns ([`spawn_child`](crate::spawn_child)) enter the crew as the step ends.
    fn handle(
        &mut self,
        desk: &mut Desk,
        births: &mut Births<Self>,
        me: Pid,
        item: Option<Item>,
    ) -> Next
        ensures answers { answers (time_told births.old) self.old desk.old.shard me item result self.new desk.new.shard
            (bore (born births.old) (born births.new)) }
        ensures takes { takes desk.new.shard.journal ≡ takes desk.old.shard.journal }
        ensures kept { kept_roles births.new ≡ kept_roles births.old }
        ensures goes_on { GoesOn desk.old desk.new };
}
