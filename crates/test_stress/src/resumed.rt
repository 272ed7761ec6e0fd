//! A crowd on threads whose node goes on from round to round: all rounds, one after the other, are one history.

ghost use Rattle.pt_workers.specs.Desks.{AreDesks};

use crate::board::Board;
use crate::crowd::Crowd;
use crate::node::opened;
use crate::stress::{Done, gathered_crowd, judged, told, works};
use pt_node::{Desk, Gathered, Quiet, Stamped, resume};
use std::alloc::Global;
use std::process::Abort;
use std::thread::Threads;

/// How many rounds a node runs.
const ROUNDS: u64 = 4;

/// Letters are on their way in the node of a crowd, and its history tells what the crowd did.
fn look_at(rt: &impl Abort, node: &Gathered, done: Done) {
    let history = node.history().expect(rt, "memory");
    assert_eq!(rt; told(history.as_slice(), done.made), done);
    assert!(rt; node.left_over().expect(rt, "memory").len() > 0);
}

/// The crowd runs on its threads, is gathered while letters are on their way, and settles.
fn run_round<R: Threads + Sync + Abort>(
    rt: &R,
    alloc: Global,
    desks: Vec<Desk>,
    works: Vec<Crowd<'_>>,
) -> Quiet
    requires { AreDesks desks.items }
{
    let (node, done) = gathered_crowd(rt, alloc, desks, works);
    look_at(rt, &node, done);
    node.settle().ok().expect(rt, "it does not settle")
}

/// The desks of the next round.
fn resumed(rt: &impl Abort, alloc: Global, quiet: Quiet) -> Vec<Desk>
    ensures { AreDesks result.items }
{
    let Ok(desks) = resume(alloc, quiet) else {
        panic!(rt; "the node does not go on");
    };
    desks
}

/// A round, on the node that goes on from the one before, or on a new one.
fn next_round<R: Threads + Sync + Abort>(
    rt: &R,
    alloc: Global,
    board: &Board,
    seed: u64,
    before: Option<Quiet>,
) -> Quiet {
    let works = works(alloc, board, seed).expect(rt, "memory");
    let desks = match before {
        Some(quiet) => resumed(rt, alloc, quiet),
        None => opened(rt, alloc),
    };
    run_round(rt, alloc, desks, works)
}

/// Whether each event stands above the one before, by stamp and then by desk.
fn rises(history: &[Stamped]) -> bool {
    let mut last = (0, 0);
    for event in history {
        if (event.stamp, event.desk) <= last && last != (0, 0) {
            return false;
        }
        last = (event.stamp, event.desk);
    }
    true
}

/// The history of a round comes after those before it.
fn append(rt: &impl Abort, history: &mut Vec<Stamped>, quiet: &Quiet) {
    for event in quiet.history().expect(rt, "memory") {
        history.push(event).expect(rt, "memory");
    }
}

/// A node runs its rounds on 8 threads and goes on between them. All that happened is one legal history from the very
/// beginning, in which nothing is on its way.
#[test]
fn a_crowd_that_goes_on_is_lawful(rt: HostRuntime) {
    let board = Board::new(rt.alloc()).expect(&rt, "memory");
    let mut history = Vec::new(rt.alloc());
    let mut before = None;
    for round in 0..ROUNDS {
        let quiet = next_round(&rt, rt.alloc(), &board, 100 * ROUNDS + round, before);
        append(&rt, &mut history, &quiet);
        before = Some(quiet);
    }
    assert!(rt; rises(history.as_slice()));
    assert_eq!(rt; judged(&rt, rt.alloc(), history.as_slice()), 0);
}
