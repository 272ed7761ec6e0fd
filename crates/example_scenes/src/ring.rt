//! A thousand processes in a ring over four desks pass a number on, one less each time.

ghost use Rattle.std.specs.Prelude.{◌≡◌};
ghost use Rattle.pt_desk.specs.DeskState.{GoesOn};
ghost use Rattle.pt_behaviour.specs.Births.{kept_roles};
ghost use Rattle.pt_behaviour.specs.Behaving.{takes};

use crate::stage;
use crate::stage::{Curtain, DESKS, Stage, first_of};
use anyhow::Result;
use pt_behaviour::{Behaviour, Births, Next, send, spawn_child};
use pt_node::{Body, Desk, Item, Pick, Pid};
use std::alloc::Global;
use std::fmt;
use std::fmt::{Display, Formatter, Write};
use std::sync::Wait;
use std::thread::Threads;

/// The kind of the number that is passed on.
const NUMBER: u32 = 1;

/// The kind of the message by which a desk says that its processes are there.
const READY: u32 = 2;

/// The number of processes of each desk.
const EACH: u32 = 250;

/// How often the number is passed on.
const HOPS: i64 = 1_000;

/// A process of the ring.
#[derive(Drop)]
struct Runner<'a> {
    /// The number of processes that it still has to spawn.
    to_bear: u32,
    /// The number of desks that it waits for, if it begins.
    waits_for: u8,
    /// How often it got the number.
    heard: u64,
    curtain: &'a Curtain,
}

/// The process after this one: on the next desk, in the same slot, and after the last desk in the next slot of the
/// first.
fn behind(me: Pid) -> Pid {
    let next = me.shard.saturating_add(1);
    if next < DESKS {
        return Pid { shard: next, ..me };
    }
    Pid {
        shard: 0,
        slot: me.slot.saturating_add(1) % EACH,
        version: 1,
    }
}

/// A message of the ring.
fn message(kind: u32, num: i64) -> Body {
    Body {
        kind,
        num,
        who: None,
    }
}

impl<'a> Runner<'a> {
    /// A process that has nothing to spawn and does not begin.
    fn new(curtain: &'a Curtain) -> Runner<'a> {
        Runner {
            to_bear: 0,
            waits_for: 0,
            heard: 0,
            curtain,
        }
    }

    /// The first process of a desk spawns the next one. After the last it says that its desk is ready.
    #[tactic(auto, using(pt_workers::proofs::GoingOn::stays))]
    fn proceed(&mut self, desk: &mut Desk, births: &mut Births<Runner<'a>>, me: Pid) -> Next
        ensures takes { takes desk.new.shard.journal ≡ takes desk.old.shard.journal }
        ensures kept { kept_roles births.new ≡ kept_roles births.old }
        ensures goes_on { GoesOn desk.old desk.new }
    {
        if self.to_bear == 0 {
            let _ = send(desk, me, first_of(0), message(READY, 0));
            return Next::Wait(Pick::Any);
        }
        self.to_bear -= 1;
        let child = Runner::new(self.curtain);
        let _ = spawn_child(desk, births, me, false, child, Next::Wait(Pick::Any));
        Next::Proceed
    }

    /// Passes the number on. If it is at its end, the scene is over.
    #[tactic(auto, using(pt_workers::proofs::GoingOn::stays))]
    fn hand_on(&self, desk: &mut Desk, me: Pid, num: i64)
        ensures takes { takes desk.new.shard.journal ≡ takes desk.old.shard.journal }
        ensures goes_on { GoesOn desk.old desk.new }
    {
        if num <= 0 {
            self.curtain.part_is_played();
            return;
        }
        let _ = send(desk, me, behind(me), message(NUMBER, num - 1));
    }

    /// Takes the number and passes it on, or hears that a desk is ready. Once all are, it begins.
    #[tactic(auto, using(pt_workers::proofs::GoingOn::stays))]
    fn hear(&mut self, desk: &mut Desk, me: Pid, body: Body)
        ensures takes { takes desk.new.shard.journal ≡ takes desk.old.shard.journal }
        ensures goes_on { GoesOn desk.old desk.new }
    {
        if body.kind == NUMBER {
            self.heard = self.heard.saturating_add(1);
            self.hand_on(desk, me, body.num);
            return;
        }
        self.waits_for = self.waits_for.saturating_sub(1);
        if self.waits_for == 0 {
            self.hand_on(desk, me, HOPS);
        }
    }
}

impl<'a> Behaviour for Runner<'a> {
    ghost use Rattle.std.specs.Prelude.{⊤};

    ghost answers = { λ _ _ _ _ _ _ _ _ _. ⊤ };

    #[tactic(auto, using(pt_workers::proofs::GoingOn::stays))]
    fn handle(
        &mut self,
        desk: &mut Desk,
        births: &mut Births<Runner<'a>>,
        me: Pid,
        item: Option<Item>,
    ) -> Next {
        match item {
            None => self.proceed(desk, births, me),
            Some(Item::User(_, body)) => {
                self.hear(desk, me, body);
                Next::Wait(Pick::Any)
            }
            Some(_) => Next::Wait(Pick::Any),
        }
    }
}

/// A desk whose first process spawns the others, and begins once so many desks are ready.
fn desk_of<'a>(alloc: Global, waits_for: u8, curtain: &'a Curtain) -> Stage<Runner<'a>> {
    let first = Runner {
        to_bear: EACH - 1,
        waits_for,
        ..Runner::new(curtain)
    };
    Stage::new(alloc, 256, first)
}

/// The result of the scene.
#[derive(Clone, Copy, Debug)]
pub struct Ring {
    processes: u32,
    least: u64,
    most: u64,
}

impl Display for Ring {
    fn fmt<W: Write>(&self, f: &mut Formatter<W>) -> fmt::Result {
        write!(
            f,
            "ring: {} processes, each was handed the number {} to {} times",
            self.processes, self.least, self.most
        )
    }
}

impl Ring {
    /// The result of the scene that these desks played.
    fn of(works: &[Stage<Runner<'_>>]) -> Ring {
        let mut ring = Ring {
            processes: 0,
            least: u64::MAX,
            most: 0,
        };
        for desk in 0..DESKS {
            if let Some(stage) = works.get(desk as usize) {
                ring.add_desk(desk, stage);
            }
        }
        ring
    }

    /// Adds a process, which got the number so often.
    fn add(&mut self, heard: u64) {
        self.processes = self.processes.saturating_add(1);
        self.least = self.least.min(heard);
        self.most = self.most.max(heard);
    }

    /// Adds the processes of one desk.
    fn add_desk(&mut self, desk: u8, stage: &Stage<Runner<'_>>) {
        for slot in 0..EACH {
            let p = Pid {
                shard: desk,
                slot,
                version: 1,
            };
            if let Some(runner) = stage.crew().behaviour(p) {
                self.add(runner.heard);
            }
        }
    }
}

/// Plays the scene. It ends with the last number.
pub fn play<R: Threads + Wait + Sync>(rt: &R, alloc: Global) -> Result<Ring> {
    let curtain = Curtain::new(alloc, 1)?;
    let stages = [
        desk_of(alloc, DESKS, &curtain),
        desk_of(alloc, 0, &curtain),
        desk_of(alloc, 0, &curtain),
        desk_of(alloc, 0, &curtain),
    ];
    let works = stage::play(rt, alloc, EACH, stages, &curtain)?;
    Ok(Ring::of(works.as_slice()))
}
