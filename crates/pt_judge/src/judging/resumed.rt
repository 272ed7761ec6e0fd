//! The state that a history goes on from.

ghost use Rattle.std.specs.Prelude.{◌≡◌, ◌∷◌, ◌++◌, [], true, IfOk};
ghost use Rattle.pt_signal.specs.Process.{fresh};
ghost use Rattle.pt_events.specs.History.{living, ended, is_unborn};
ghost use Rattle.pt_judge.specs.Judging.{now_is};

use crate::judging::holdings::Holdings;
use crate::judging::lives::Life;
use crate::judging::state::State;
use pt_signal::{Ids, Item, Pid, Reason, Ref};
use std::alloc::{AllocError, Global};

/// What a process holds that lives when a history begins, each list in the order of entry.
#[derive(Drop)]
pub struct Holding {
    /// The items that wait in its mailbox.
    pub waiting: Vec<Item>,
    /// The processes that it is linked with, and under which ids.
    pub links: Vec<(Pid, Ids)>,
    /// Its open monitors, and whom each watches.
    pub watching: Vec<(Ref, Pid)>,
    /// The monitors that others have of it, and whose each is.
    pub kept: Vec<(Ref, Pid)>,
    /// Whether it traps exits.
    pub traps: bool,
}

impl State {
    /// The state with one process more, which was not born in it, and lives. So the state is made that a history begins
    /// with which goes on from another one: [`State::new`], and then each process.
    pub fn with_living(self, pid: Pid, holding: Holding) -> Result<State, AllocError>
        requires { is_unborn (now_is self pid) ≡ true }
        ensures { IfOk result (λ state. state ≡ record self {
          lives = self.lives ++ (
            pid,
            living (record {
              waiting = holding.waiting.items;
              links = holding.links.items;
              watching = holding.watching.items;
              kept = holding.kept.items;
              traps = holding.traps;
            }),
          ) ∷ [];
        }) }
    {
        let Holding {
            waiting,
            links,
            watching,
            kept,
            traps,
        } = holding;
        self.with(Life::of(
            pid,
            None,
            Holdings::of(waiting, links, watching, kept, traps),
        ))
    }

    /// The state with one process more, which was not born in it, and has ended; of what it held nothing is left.
    pub fn with_ended(self, alloc: Global, pid: Pid, reason: Reason) -> Result<State, AllocError>
        requires { is_unborn (now_is self pid) ≡ true }
        ensures { IfOk result
            (λ state. state ≡ record self { lives = self.lives ++ (pid, ended reason fresh) ∷ [] }) }
    {
        self.with(Life::of(pid, Some(reason), Holdings::new(alloc)))
    }
}
