//! The recipes of `example_uses` that open a node themselves, or receive one.

ghost use Rattle.example_uses.specs.Quiet.{EndsQuietly};

use crate::compared::{holds, same};
use example_uses::desks_on_threads::{Sender, ring};
use example_uses::epochs::{Lines, Plan, epochs};
use example_uses::two_processes::two_processes;
use example_uses::until_quiet::{UntilQuiet, ends_behind_quiet_turns};
use pt_node::{Config, FreeGate, Gathered, Node, Pid, Standing, Task, Work};
use std::alloc::Global;
use std::process::Abort;
use std::thread::Threads;

const ONE_DESK: Config = Config {
    desks: 1,
    slots: 8,
    top_version: u32::MAX,
    lane: 8,
    ..Config::DEFAULT
};

/// The first process.
const A: Pid = Pid {
    shard: 0,
    slot: 0,
    version: 1,
};

/// A worker whose process sends to itself.
const SENDER: Sender = Sender {
    me: A,
    to: A,
    sent: 0,
};

/// The node's history has so many events.
fn happened(rt: &impl Abort, node: &Gathered, events: usize) {
    let history = node.history().expect(rt, "memory");
    same(rt, history.len(), events);
}

#[test]
fn two_processes_exchange_a_message_each(rt: HostRuntime) {
    let node = two_processes(rt.alloc()).ok().expect(&rt, "memory");
    happened(&rt, &node, 8);
}

#[test]
fn desks_send_round(rt: HostRuntime) {
    let config = ONE_DESK.with_desks(3);
    let node = ring(&rt, rt.alloc(), config, 0).ok().expect(&rt, "memory");
    happened(&rt, &node, 3);
}

/// A node with one process.
fn of_one(rt: &impl Abort, alloc: Global) -> Node {
    let mut node = Node::open(alloc, ONE_DESK).ok().expect(rt, "a node");
    same(rt, node.spawn(0), Ok(A));
    node
}

/// What happens in two epochs of one turn each.
const TWO_EPOCHS: &[u8] = b"1@0 born <0.0.1>
2@0 said <0.0.1> -> <0.0.1> message 1 0
3@0 came <0.0.1> -> <0.0.1> message 1 0
4@0 said <0.0.1> -> <0.0.1> message 1 1
5@0 came <0.0.1> -> <0.0.1> message 1 1
";

/// The node resumes once, and the archive has both epochs.
fn goes_on<R: Abort + Threads + Sync>(
    rt: &R,
    alloc: Global,
    node: Node,
    works: &mut Vec<Sender>,
    archive: &mut Lines<Vec<u8>>,
) {
    let plan = Plan {
        epochs: 2,
        turns: 1,
        budget: 16,
    };
    let node = epochs(rt, alloc, node, works, plan, archive)
        .ok()
        .expect(rt, "memory");
    holds(rt, node.alive(A));
    assert_eq!(rt; archive.out.as_slice(), TWO_EPOCHS);
}

#[test]
fn a_node_goes_on_epoch_after_epoch(rt: HostRuntime) {
    let node = of_one(&rt, rt.alloc());
    let mut works = vec![in rt.alloc(); SENDER].expect(&rt, "memory");
    let mut archive = Lines {
        out: Vec::new(rt.alloc()),
    };
    goes_on(&rt, rt.alloc(), node, &mut works, &mut archive);
}

/// A sender sends in each of four turns, so none of them is quiet. At an open gate it would end only after three turns
/// in a row that did nothing, or after its last.
fn ends(rt: &impl Abort, node: &mut Node, works: &mut Vec<UntilQuiet<Sender>>)
    ensures { EndsQuietly (⟦<Sender as Work>⟧.does, ⟦<Sender as Work>⟧.hears) }
{
    ends_behind_quiet_turns(&SENDER);
    holds(rt, node.run_single(works, 4, 16, &FreeGate).is_ok());
    for work in works.as_slice() {
        holds(rt, work.standing() == Standing::Going && work.quiet() == 0);
        same(rt, work.work().sent, 4);
    }
}

#[test]
fn a_worker_says_how_many_turns_were_quiet(rt: HostRuntime) {
    let mut node = of_one(&rt, rt.alloc());
    let mut works = vec![in rt.alloc(); UntilQuiet::new(SENDER, 3)].expect(&rt, "memory");
    ends(&rt, &mut node, &mut works);
}
