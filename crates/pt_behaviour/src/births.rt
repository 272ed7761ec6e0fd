//! The children that behaviours spawn.

ghost use Rattle.std.specs.Prelude.{◌≡◌, [], ◌∷◌, length, MatchOption};
ghost use Rattle.pt_desk.specs.DeskState.{GoesOn};
ghost use Rattle.pt_behaviour.specs.Births.{Bore, born, kept_roles, time_told};
ghost use Rattle.pt_behaviour.specs.Behaving.{takes};

use crate::behaviour::Next;
use pt_workers::{Desk, Fault, Pid};
use std::alloc::Global;
use std::collections::VecDeque;

/// A process with its behaviour, and what it does next.
#[derive(Drop)]
pub struct Role<B> {
    pub pid: Pid,
    pub behaviour: B,
    pub next: Next,
}

/// Children that were spawned with a behaviour, and wait to enter their crew, the first in front.
#[derive(Drop)]
pub struct Births<B> {
    list: VecDeque<Role<B>>,
    /// How many of them, the last ones, were spawned since a behaviour got its item.
    fresh: usize,
    /// The time of the step in which the behaviour got its item.
    time: u64,
}

impl<B: Drop> Births<B> {
    /// None yet.
    pub fn new(alloc: Global) -> Births<B>
        ensures born { born result ≡ [] }
        ensures time { time_told result ≡ 0 }
    {
        Births {
            list: VecDeque::new(alloc),
            fresh: 0,
            time: 0,
        }
    }

    /// The time of the step in which the behaviour got its item: see `Crew::set_time` of `pt_crew`.
    pub fn now(&self) -> u64
        ensures { result ≡ time_told self.now }
    {
        self.time
    }

    /// The number of those that wait.
    pub fn len(&self) -> usize
        ensures { result ≡ length (born self.now) }
    {
        self.list.len()
    }

    /// Marks that those who wait now are no children of the behaviour that gets an item next, and what time it is then.
    /// A crew calls it before it calls the behaviour.
    pub fn begin(&mut self, time: u64)
        ensures same { born self.new ≡ born self.old }
        ensures all { kept_roles self.new ≡ born self.old }
        ensures told { time_told self.new ≡ time }
    {
        self.fresh = 0;
        self.time = time;
    }

    /// Takes the first of those that wait. A crew calls it as a step ends.
    pub fn take_first(&mut self) -> Option<Role<B>>
        ensures { MatchOption result ((born self.old ≡ []) × (born self.new ≡ []))
            (λ r. born self.old ≡ r ∷ born self.new) }
    {
        self.list.pop_front()
    }
}

/// Spawns a process on its own desk, linked with it if `linked` is true, which has this behaviour and does this first
/// (`spawn`, `spawn_link`).
///
/// The child enters the crew as the step ends. It fails as [`Desk::spawn_child`] does, and if there is no memory here;
/// nothing has changed then.
#[tactic(auto, using(crate::proofs::Bearing::bearing))]
pub fn spawn_child<B: Drop>(
    desk: &mut Desk,
    births: &mut Births<B>,
    me: Pid,
    linked: bool,
    behaviour: B,
    first: Next,
) -> Result<Pid, Fault>
    ensures does { Bore me linked behaviour first desk.old.shard (born births.old) result desk.new.shard
        (born births.new) }
    ensures takes { takes desk.new.shard.journal ≡ takes desk.old.shard.journal }
    ensures kept { kept_roles births.new ≡ kept_roles births.old }
    ensures time { time_told births.new ≡ time_told births.old }
    ensures goes_on { GoesOn desk.old desk.new }
{
    let Some(fresh) = births.fresh.checked_add(1) else {
        return Err(Fault::Memory);
    };
    births.list.reserve(1)?;
    let pid = desk.spawn_child(me, linked)?;
    // read for the proof alone: by a lawful journal whoever is born was not before
    let _lawful = desk.journal();
    births.list.push_back_reserved(Role {
        pid,
        behaviour,
        next: first,
    });
    births.fresh = fresh;
    Ok(pid)
}
