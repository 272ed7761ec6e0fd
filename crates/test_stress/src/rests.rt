//! Desks that rest: a thread without a desk wakes the first of eight, each wakes the next, and all end as they are told.

ghost use Rattle.pt_desk.specs.DeskState.{GoesOn};

use crate::board::DESKS;
use pt_behaviour::send;
use pt_epochs::{Bells, Door, Porter, Post, RestGate, RestingWork, Rests, way_in};
use pt_node::{Body, Config, Desk, Item, Node, Pick, Pid, Turned, Work};
use std::alloc::Global;
use std::process::Abort;
use std::sync::Wait;
use std::sync::atomic::{AtomicU64, Ordering};
use std::thread::{Threads, join_mut};
use std::time::Duration;

/// So many turns are far more than desks take that rest, and far fewer than desks that do not take in a second.
const MOST_TURNS: u64 = 10_000;

/// For how many seconds a message is waited for at most.
const PATIENCE: u32 = 30;

/// What the workers have done.
#[derive(Drop)]
struct Notes {
    /// How many messages have come through all desks, each behind the one that was handed in before it.
    arrived: AtomicU64,
    /// How many came twice, or before their turn.
    strays: AtomicU64,
    turns: AtomicU64,
    /// Is never written.
    never: AtomicU64,
}

/// The lower half of a count, which a sleeper can compare.
fn low(count: u64) -> u32 {
    (count & 0xffff_ffff) as u32
}

impl Notes {
    fn new() -> Notes {
        Notes {
            arrived: AtomicU64::new(0),
            strays: AtomicU64::new(0),
            turns: AtomicU64::new(0),
            never: AtomicU64::new(0),
        }
    }

    fn arrived(&self) -> u64 {
        self.arrived.load(Ordering::SeqCst)
    }

    /// The message of this number has come through all desks.
    fn note(&self, number: u64) {
        if self.arrived().checked_add(1) != Some(number) {
            self.strays.fetch_add(1, Ordering::SeqCst);
            return;
        }
        self.arrived.store(number, Ordering::SeqCst);
        self.arrived.wake_all();
    }

    /// Waits until so many messages have come, and whether they have.
    fn wait_for<R: Wait>(&self, rt: &R, count: u64) -> bool {
        for _ in 0..PATIENCE {
            let seen = self.arrived();
            if seen >= count {
                return true;
            }
            self.arrived
                .park_timeout(rt, low(seen), Duration::from_secs(1));
        }
        self.arrived() >= count
    }

    /// Waits so long, for nothing.
    fn pause<R: Wait>(&self, rt: &R, time: Duration) {
        self.never.park_timeout(rt, 0, time);
    }
}

/// The process of a desk, which hands each message on to that of the next desk; behind the last it has come.
#[derive(Drop)]
struct Relay<'a> {
    me: Pid,
    notes: &'a Notes,
}

/// The process of a desk.
fn first_of(desk: u8) -> Pid {
    Pid {
        shard: desk,
        slot: 0,
        version: 1,
    }
}

impl<'a> Relay<'a> {
    #[tactic(auto, using(pt_workers::proofs::GoingOn::stays))]
    fn hand_on(&self, desk: &mut Desk, body: Body)
        ensures { GoesOn desk.old desk.new }
    {
        let next = self.me.shard.saturating_add(1);
        if next < DESKS {
            let _ = send(desk, self.me, first_of(next), body);
            return;
        }
        self.notes.note(u64::try_from(body.num).unwrap_or(0));
    }
}

impl<'a> Work for Relay<'a> {
    ghost use Rattle.std.specs.Prelude.{⊤};

    ghost does = { λ _ _ _ _. ⊤ };

    #[tactic(auto, using(pt_workers::proofs::GoingOn::stays, pt_desk::proofs::Turning::goes_on_then))]
    fn step(&mut self, desk: &mut Desk) {
        self.notes.turns.fetch_add(1, Ordering::SeqCst);
        if let Ok(Some(Item::User(_, body))) = desk.receive(self.me, Pick::Any) {
            self.hand_on(desk, body);
        }
    }

    fn turned(&mut self, _desk: &Desk, _turned: Turned) {}
}

impl<'a> Rests for Relay<'a> {
    fn has_work(&self) -> bool {
        false
    }

    fn next_time(&self) -> Option<u64> {
        None
    }
}

type Relaying<'a> = RestingWork<'a, Porter<Relay<'a>>>;

/// What is to be seen: so many messages, one behind the other, and then nothing for so long.
#[derive(Clone, Copy)]
struct Plan {
    messages: u64,
    idle: Duration,
    longest: Duration,
}

/// Hands the messages in, each once the one before has come; then it pauses, and has the workers stop.
fn hand_in<R: Wait>(rt: &R, plan: Plan, door: &mut Door<'_>, bells: &Bells, notes: &Notes) {
    for count in 0..plan.messages {
        let body = Body {
            kind: 1,
            num: i64::try_from(count + 1).unwrap_or(0),
            who: None,
        };
        let post = Post {
            to: first_of(0),
            body,
        };
        if door.post(post).is_err() || !notes.wait_for(rt, count + 1) {
            break;
        }
    }
    notes.pause(rt, plan.idle);
    bells.stop();
}

/// The work of a desk, and the door to it; who posts there rings these bells.
fn relaying<'a>(
    rt: &impl Abort,
    alloc: Global,
    desk: u8,
    rung: &'a Bells,
    bells: &'a Bells,
    notes: &'a Notes,
) -> (Door<'a>, Relaying<'a>) {
    let me = first_of(desk);
    let (door, porter) = way_in(alloc, rung, 4, me, 4, Relay { me, notes }).expect(rt, "memory");
    (door, RestingWork::new(porter, bells))
}

/// A process on each desk.
fn settle_in(rt: &impl Abort, node: &mut Node) {
    for desk in 0..DESKS {
        assert!(rt; node.spawn(desk).is_ok());
    }
}

/// A node of eight desks.
fn opened(rt: &impl Abort, alloc: Global) -> Node {
    let config = Config::DEFAULT.with_desks(DESKS).with_slots(4);
    Node::open(alloc, config).ok().expect(rt, "a node")
}

/// The works of the other desks, behind that of the first; nobody uses their doors.
fn push_others<'a>(
    rt: &impl Abort,
    alloc: Global,
    bells: &'a Bells,
    notes: &'a Notes,
    works: &mut Vec<Relaying<'a>>,
) {
    for desk in 1..DESKS {
        let (_door, work) = relaying(rt, alloc, desk, bells, bells, notes);
        works.push(work).expect(rt, "memory");
    }
}

/// Runs the node, while the messages are handed in, and says whether it ran.
fn run_all<R: Threads + Wait + Sync + Abort>(
    rt: &R,
    plan: Plan,
    node: &mut Node,
    works: &mut Vec<Relaying<'_>>,
    door: &mut Door<'_>,
    bells: &Bells,
    notes: &Notes,
) -> bool {
    let gate = RestGate::new(rt, bells, plan.longest);
    let (ran, ()) = join_mut(
        rt,
        &mut || node.run(rt, works, u64::MAX, 16, &gate).is_ok(),
        &mut || hand_in(rt, plan, door, bells, notes),
    );
    ran
}

/// The last work comes back from the run, with the work within.
fn comes_back(rt: &impl Abort, works: &mut Vec<Relaying<'_>>) {
    let last = works.pop().expect(rt, "a work");
    assert_eq!(rt; last.work().work().me, first_of(DESKS - 1));
    assert_eq!(rt; last.into_work().into_work().me, first_of(DESKS - 1));
}

/// Runs a node whose desks rest, while the messages are handed in; whoever hands one in rings the bells `rung`.
fn play<'a, R: Threads + Wait + Sync + Abort>(
    rt: &R,
    alloc: Global,
    plan: Plan,
    rung: &'a Bells,
    bells: &'a Bells,
    notes: &'a Notes,
) {
    let mut node = opened(rt, alloc);
    settle_in(rt, &mut node);
    let (mut door, first) = relaying(rt, alloc, 0, rung, bells, notes);
    let mut works = vec![in alloc; first].expect(rt, "memory");
    push_others(rt, alloc, bells, notes, &mut works);
    assert!(rt; run_all(rt, plan, &mut node, &mut works, &mut door, bells, notes));
    comes_back(rt, &mut works);
}

/// Each message wakes eight desks, one by the other; they rest in between, and for the second afterwards, in which
/// desks that do not rest would take more turns than they may.
#[test]
fn desks_rest_until_they_are_woken(rt: HostRuntime) {
    let bells = Bells::new(rt.alloc(), DESKS).expect(&rt, "memory");
    let notes = Notes::new();
    let plan = Plan {
        messages: 50,
        idle: Duration::from_secs(1),
        longest: Duration::from_secs(3_600),
    };
    play(&rt, rt.alloc(), plan, &bells, &bells, &notes);
    assert_eq!(rt; notes.arrived(), 50);
    assert_eq!(rt; notes.strays.load(Ordering::SeqCst), 0);
    let turns = notes.turns.load(Ordering::SeqCst);
    assert!(rt; turns < MOST_TURNS, "{turns} turns");
}

/// Who hands a message in rings at other bells, so nobody is woken by it: it comes once the first desk has rested for as
/// long as it may.
#[test]
fn a_wake_up_that_is_missed_costs_the_longest_rest(rt: HostRuntime) {
    let others = Bells::new(rt.alloc(), DESKS).expect(&rt, "memory");
    let bells = Bells::new(rt.alloc(), DESKS).expect(&rt, "memory");
    let notes = Notes::new();
    let plan = Plan {
        messages: 5,
        idle: Duration::from_millis(1),
        longest: Duration::from_millis(100),
    };
    play(&rt, rt.alloc(), plan, &others, &bells, &notes);
    assert_eq!(rt; notes.arrived(), 5);
    assert_eq!(rt; notes.strays.load(Ordering::SeqCst), 0);
}
