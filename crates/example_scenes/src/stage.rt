//! The stage of a scene: four desks that rest while there is nothing to do, each with a crew on a thread of its own,
//! and the curtain at which all of them end.

ghost use Rattle.std.specs.Prelude.{◌≡◌, IfOk};

use anyhow::{Result, bail};
use pt_behaviour::{Behaviour, Next};
use pt_crew::Crew;
use pt_epochs::{Bells, RestGate, RestingWork, Rests};
use pt_node::{Config, Desk, FreeGate, Node, Pid, Turned, Work};
use std::alloc::{AllocError, Global};
use std::sync::Wait;
use std::sync::atomic::{AtomicU64, Ordering};
use std::thread::Threads;
use std::time::Duration;

/// The number of desks of a scene.
pub const DESKS: u8 = 4;

/// The number of letters that a turn handles at most.
pub const BUDGET: u32 = 256;

/// The first process of a desk, which others name by its place.
pub fn first_of(desk: u8) -> Pid {
    Pid {
        shard: desk,
        slot: 0,
        version: 1,
    }
}

/// The curtain of a scene. It falls once all parts have been played, and then the workers of all desks end.
///
/// All processes of the scene share it. Each says once that its part is played.
#[derive(Drop)]
pub struct Curtain {
    bells: Bells,
    /// The number of parts that have not been played yet.
    parts: AtomicU64,
}

impl Curtain {
    /// A curtain that falls after so many parts.
    pub fn new(alloc: Global, parts: u64) -> Result<Curtain, AllocError> {
        Ok(Curtain {
            bells: Bells::new(alloc, DESKS)?,
            parts: AtomicU64::new(parts),
        })
    }

    /// A part has been played. If it was the last, the curtain falls.
    pub fn part_is_played(&self) {
        if self.parts.fetch_sub(1, Ordering::SeqCst) == 1 {
            self.bells.stop();
        }
    }

    /// The bells by which the desks wake each other.
    pub fn bells(&self) -> &Bells {
        &self.bells
    }

    /// The gate at which workers rest, and at which they end once the curtain has fallen.
    pub fn gate<'a, R: Wait>(&'a self, rt: &'a R) -> RestGate<'a, R> {
        RestGate::new(rt, &self.bells, Duration::from_millis(100))
    }
}

/// The crew of a desk, and the process that enters it first.
#[derive(Drop)]
pub struct Stage<B> {
    crew: Crew<B>,
    first: Option<B>,
}

impl<B: Behaviour + Drop> Stage<B> {
    /// A desk on which this process enters first, and does something at its start.
    pub fn new(alloc: Global, rounds: u32, first: B) -> Stage<B> {
        Stage {
            crew: Crew::new(alloc, rounds),
            first: Some(first),
        }
    }

    /// The crew, to be read.
    pub fn crew(&self) -> &Crew<B> {
        &self.crew
    }
}

impl<B: Behaviour + Drop> Work for Stage<B> {
    ghost use Rattle.std.specs.Prelude.{⊤};

    ghost does = { λ _ _ _ _. ⊤ };

    /// Lets the first process enter, and does nothing else in that step. If the desk cannot spawn it, none enters.
    #[tactic(auto, using(pt_workers::proofs::GoingOn::stays))]
    fn step(&mut self, desk: &mut Desk) {
        let Some(first) = self.first.take() else {
            self.crew.step(desk);
            return;
        };
        let _ = self.crew.enter(desk, first, Next::Proceed);
    }

    fn turned(&mut self, _desk: &Desk, _turned: Turned) {}
}

impl<B: Behaviour + Drop> Rests for Stage<B> {
    fn has_work(&self) -> bool {
        self.crew.has_work()
    }

    fn next_time(&self) -> Option<u64> {
        self.crew.next_time()
    }
}

/// The works of desks that rest at this curtain, in order.
fn resting<'a, W: Rests + Drop>(
    alloc: Global,
    works: Vec<W>,
    curtain: &'a Curtain,
) -> Result<Vec<RestingWork<'a, W>>, AllocError> {
    let mut around = Vec::with_capacity(alloc, works.len())?;
    let mut left = works;
    left.reverse();
    while let Some(work) = left.pop() {
        around.push_reserved(RestingWork::new(work, curtain.bells()));
    }
    Ok(around)
}

/// The works of desks that do not rest any more, in order.
pub fn rested<'a, W: Rests + Drop>(
    alloc: Global,
    works: Vec<RestingWork<'a, W>>,
) -> Result<Vec<W>, AllocError>
    ensures { IfOk result (λ r. r.items ≡ works.entry.items) }
{
    let mut within = Vec::with_capacity(alloc, works.len())?;
    let mut left = works;
    left.reverse();
    while let Some(work) = left.pop() {
        within.push_reserved(work.into_work());
    }
    Ok(within)
}

/// Plays a scene over four desks until the curtain falls. It returns what their crews are then.
///
/// The first process of each desk enters in a round on the calling thread. So each of them is there before any other
/// sends to it. All that follows happens on the threads of the desks.
pub fn play<R: Threads + Wait + Sync, B: Behaviour + Drop + Send>(
    rt: &R,
    alloc: Global,
    slots: u32,
    stages: [Stage<B>; 4],
    curtain: &Curtain,
) -> Result<Vec<Stage<B>>> {
    let Ok(stages) = Vec::from_array(alloc, stages) else {
        bail!("no memory for the stages");
    };
    let mut works = resting(alloc, stages, curtain)?;
    act(rt, alloc, slots, &mut works, curtain)?;
    Ok(rested(alloc, works)?)
}

/// Opens the node of a scene, and runs it.
fn act<R: Threads + Wait + Sync, B: Behaviour + Drop + Send>(
    rt: &R,
    alloc: Global,
    slots: u32,
    works: &mut Vec<RestingWork<'_, Stage<B>>>,
    curtain: &Curtain,
) -> Result<()> {
    let config = Config::DEFAULT.with_desks(DESKS).with_slots(slots);
    let mut node = Node::open(alloc, config)?;
    run(rt, &mut node, works, curtain)
}

/// Runs the node of a scene until the curtain falls.
fn run<R: Threads + Wait + Sync, B: Behaviour + Drop + Send>(
    rt: &R,
    node: &mut Node,
    works: &mut Vec<RestingWork<'_, Stage<B>>>,
    curtain: &Curtain,
) -> Result<()> {
    if node.run_single(works, 1, BUDGET, &FreeGate).is_err() {
        bail!("the first processes do not enter");
    }
    let gate = curtain.gate(rt);
    if node.run(rt, works, u64::MAX, BUDGET, &gate).is_err() {
        bail!("the scene does not run");
    }
    Ok(())
}
