//! Crowds that run on threads, and what their histories are.

ghost use Rattle.pt_workers.specs.Desks.{AreDesks};

use crate::board::{Board, DESKS};
use crate::crowd::Crowd;
use crate::node::{gathered, opened, staffed};
use crate::pace::Pace;
use pt_history::replay;
use pt_node::{Desk, Event, FreeGate, Gathered, Quiet, Signal, Stamped, run, run_single};
use std::alloc::{AllocError, Global};
use std::process::Abort;
use std::thread::Threads;

/// How many calls each worker makes.
pub(crate) const CALLS: u64 = 625;

/// How many letters a turn handles.
pub(crate) const BUDGET: u32 = 1;

/// What the workers of a node did together.
#[derive(Clone, Copy, Debug, PartialEq, Eq)]
pub(crate) struct Done {
    pub(crate) made: u64,
    sent: u64,
    born: u64,
}

/// A worker for each desk.
pub(crate) fn works<'a>(
    alloc: Global,
    board: &'a Board,
    seed: u64,
) -> Result<Vec<Crowd<'a>>, AllocError> {
    let mut works = Vec::new(alloc);
    for desk in 0..DESKS {
        let own = seed.wrapping_mul(64).wrapping_add(u64::from(desk));
        works.push(Crowd::new(board, own, CALLS))?;
    }
    Ok(works)
}

/// What the workers did.
pub(crate) fn done_by(works: &[Crowd]) -> Done {
    let mut done = Done {
        made: 0,
        sent: 0,
        born: 0,
    };
    for work in works {
        done.made = done.made.saturating_add(work.made);
        done.sent = done.sent.saturating_add(work.sent);
        done.born = done.born.saturating_add(work.born);
    }
    done
}

/// What a history tells of what the workers did; their calls are more than it tells.
pub(crate) fn told(history: &[Stamped], made: u64) -> Done {
    let mut told = Done {
        made,
        sent: 0,
        born: 0,
    };
    for stamped in history {
        match stamped.event {
            Event::Said(_, _, Signal::Message(_)) => told.sent = told.sent.saturating_add(1),
            Event::Born(_, _, _) => told.born = told.born.saturating_add(1),
            _ => {}
        }
    }
    told
}

/// The events of a history, without their stamps.
fn events_of(rt: &impl Abort, alloc: Global, history: &[Stamped]) -> Vec<Event> {
    let mut events: Vec<Event> = Vec::with_capacity(alloc, history.len()).expect(rt, "memory");
    for stamped in history {
        events.push(stamped.event).expect(rt, "memory");
    }
    events
}

/// How many signals are on their way at the end of a history, which the judge has to let pass.
pub(crate) fn judged(rt: &impl Abort, alloc: Global, history: &[Stamped]) -> u64 {
    let events = events_of(rt, alloc, history);
    match replay(alloc, events.as_slice()) {
        Ok(state) => state.in_flight(),
        Err((place, cause)) => panic!(rt; "event {place} is unlawful: {cause}"),
    }
}

/// The history of a node whose crowd has run, which the judge lets pass: how many events it has, and how many letters
/// are left over.
fn ended(rt: &impl Abort, alloc: Global, node: &Gathered, done: Done) -> (u64, u64) {
    let history = node.history().expect(rt, "memory");
    assert_eq!(rt; told(history.as_slice(), done.made), done);
    let left = node.left_over().expect(rt, "memory").len() as u64;
    assert!(rt; left > 0);
    assert_eq!(rt; judged(rt, alloc, history.as_slice()), left);
    (history.len() as u64, left)
}

/// Its history when it has settled, which the judge lets pass too.
fn settled(rt: &impl Abort, alloc: Global, quiet: &Quiet, events: u64, left: u64) {
    assert!(rt; quiet.handled() >= left);
    let history = quiet.history().expect(rt, "memory");
    assert_eq!(rt;
        history.len() as u64,
        events.saturating_add(quiet.handled())
    );
    assert_eq!(rt; judged(rt, alloc, history.as_slice()), 0);
}

/// The node is judged, and judged again when it has settled.
fn settles(rt: &impl Abort, alloc: Global, node: Gathered, done: Done) {
    let (events, left) = ended(rt, alloc, &node, done);
    let quiet = node.settle().ok().expect(rt, "it does not settle");
    settled(rt, alloc, &quiet, events, left);
}

/// The crowd runs on 8 threads, and its node is gathered.
pub(crate) fn gathered_crowd<R: Threads + Sync + Abort>(
    rt: &R,
    alloc: Global,
    desks: Vec<Desk>,
    works: Vec<Crowd<'_>>,
) -> (Gathered, Done)
    requires { AreDesks desks.items }
{
    let pace = Pace::new(alloc).expect(rt, "memory");
    let pairs = staffed(rt, alloc, desks, works);
    let ran = run(rt, pairs, CALLS, BUDGET, &pace);
    let (node, works) = gathered(rt, alloc, ran);
    let done = done_by(works.as_slice());
    assert_eq!(rt; done.made, u64::from(DESKS) * CALLS);
    (node, done)
}

/// A node runs on 8 threads, is gathered and settles.
fn stress<R: Threads + Sync + Abort>(rt: &R, alloc: Global, seed: u64) {
    let board = Board::new(alloc).expect(rt, "memory");
    let works = works(alloc, &board, seed).expect(rt, "memory");
    let (node, done) = gathered_crowd(rt, alloc, opened(rt, alloc), works);
    settles(rt, alloc, node, done);
}

/// Five nodes of 5,000 calls each.
fn stress_five<R: Threads + Sync + Abort>(rt: &R, alloc: Global, five: u64) {
    for node in 0..5 {
        stress(rt, alloc, five.wrapping_mul(5).wrapping_add(node));
    }
}

/// The same crowd on one thread, in rounds.
#[test]
fn one_thread_makes_all_calls(rt: HostRuntime) {
    let board = Board::new(rt.alloc()).expect(&rt, "memory");
    let works = works(rt.alloc(), &board, 0).expect(&rt, "memory");
    let pairs = staffed(&rt, rt.alloc(), opened(&rt, rt.alloc()), works);
    let ran = run_single(pairs, CALLS, BUDGET, &FreeGate);
    let (_node, works) = gathered(&rt, rt.alloc(), ran);
    assert_eq!(rt; done_by(works.as_slice()).made, u64::from(DESKS) * CALLS);
}

#[test]
fn the_first_five_are_lawful(rt: HostRuntime) {
    stress_five(&rt, rt.alloc(), 0);
}

#[test]
fn the_second_five_are_lawful(rt: HostRuntime) {
    stress_five(&rt, rt.alloc(), 1);
}

#[test]
fn the_third_five_are_lawful(rt: HostRuntime) {
    stress_five(&rt, rt.alloc(), 2);
}

#[test]
fn the_fourth_five_are_lawful(rt: HostRuntime) {
    stress_five(&rt, rt.alloc(), 3);
}

#[test]
fn the_fifth_five_are_lawful(rt: HostRuntime) {
    stress_five(&rt, rt.alloc(), 4);
}

#[test]
fn the_sixth_five_are_lawful(rt: HostRuntime) {
    stress_five(&rt, rt.alloc(), 5);
}

#[test]
fn the_seventh_five_are_lawful(rt: HostRuntime) {
    stress_five(&rt, rt.alloc(), 6);
}

#[test]
fn the_eighth_five_are_lawful(rt: HostRuntime) {
    stress_five(&rt, rt.alloc(), 7);
}
