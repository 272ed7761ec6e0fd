//! Crews, and calls that take items or change links, on the desk of a node of its own.

ghost use Rattle.std.specs.Prelude.{◌≡◌};
ghost use Rattle.pt_workers.specs.Desks.{AreDesks, IsStill};

use crate::compared::same;
use crate::upheld::{Listener, never_stops};
use pt_behaviour::{Next, link, send, unlink};
use pt_crew::Crew;
use pt_names::{Group, GroupRegistry, Sent};
use pt_node::{Body, Config, Desk, FreeGate, Item, Node, Pick, Takes, Work, open, take_each};
use std::alloc::Global;
use std::process::Abort;

const ONE_DESK: Config = Config {
    desks: 1,
    slots: 8,
    top_version: u32::MAX,
    lane: 8,
    ..Config::DEFAULT
};

/// What runs on the desk of a node.
#[derive(Drop)]
enum Play {
    Links,
    Items,
    Listener,
    Groups,
}

/// Runs on a new node, and gathers it.
fn played(rt: &impl Abort, alloc: Global, play: Play) {
    let mut desks = open(alloc, ONE_DESK).ok().expect(rt, "a node");
    on_first(rt, alloc, &mut desks, play);
    let _gathered = Node::of_desks(alloc, desks)
        .gather()
        .ok()
        .expect(rt, "memory");
}

#[tactic(auto, using(pt_workers::proofs::StillDesks::still_desks))]
fn on_first(rt: &impl Abort, alloc: Global, desks: &mut Vec<Desk>, play: Play)
    requires { AreDesks desks.old.items }
    ensures { AreDesks desks.new.items }
{
    on_desk(rt, alloc, &mut desks[0], play)
}

fn on_desk(rt: &impl Abort, alloc: Global, desk: &mut Desk, play: Play)
    ensures { IsStill desk.old desk.new }
{
    match play {
        Play::Links => link_to_itself(rt, desk),
        Play::Items => take(rt, desk),
        Play::Listener => listen(rt, alloc, desk),
        Play::Groups => join_and_leave(rt, alloc, desk),
    }
}

/// A process that links itself with itself does nothing by that.
fn link_to_itself(rt: &impl Abort, desk: &mut Desk)
    ensures { IsStill desk.old desk.new }
{
    let p = desk.spawn().expect(rt, "memory");
    same(rt, link(desk, p, p), Ok(()));
    same(rt, unlink(desk, p, p), Ok(()));
}

const HELLO: Body = Body {
    kind: 1,
    num: 7,
    who: None,
};

/// Adds up the numbers of the messages that are taken.
#[derive(Drop)]
struct Sum {
    numbers: i64,
}

impl Takes for Sum {
    ghost use Rattle.std.specs.Prelude.{◌≡◌};

    ghost takes = { λ _ d _ _ e. e ≡ d };

    #[tactic(auto, using(pt_workers::proofs::GoingOn::stays))]
    fn take(&mut self, _desk: &mut Desk, item: Item) {
        if let Item::User(_, body) = item {
            self.numbers = self.numbers.saturating_add(body.num);
        }
    }
}

/// Of three items two are taken, and then the last one.
fn take(rt: &impl Abort, desk: &mut Desk)
    ensures { IsStill desk.old desk.new }
{
    let p = desk.spawn().expect(rt, "memory");
    same(rt, send(desk, p, p, HELLO), Ok(()));
    same(rt, send(desk, p, p, HELLO), Ok(()));
    same(rt, send(desk, p, p, HELLO), Ok(()));
    let _ = desk.turn(16);
    let mut sum = Sum { numbers: 0 };
    same(rt, take_each(desk, p, Pick::Any, 2, &mut sum), Ok(2));
    same(rt, sum.numbers, 14);
    same(rt, take_each(desk, p, Pick::Any, 2, &mut sum), Ok(1));
    same(rt, sum.numbers, 21);
}

fn listen(rt: &impl Abort, alloc: Global, desk: &mut Desk)
    ensures { IsStill desk.old desk.new }
{
    never_stops(&FreeGate);
    let mut crew = Crew::new(alloc, 1);
    hears(rt, &mut crew, desk);
}

/// A process that only listens waits for the next item after its step.
fn hears(rt: &impl Abort, crew: &mut Crew<Listener>, desk: &mut Desk)
    ensures { IsStill desk.old desk.new }
{
    let listener = Listener { heard: 0 };
    let p = crew
        .enter(desk, listener, Next::Proceed)
        .expect(rt, "memory");
    crew.step(desk);
    same(rt, crew.next(p), Some(Next::Wait(Pick::Any)));
    let heard = crew.behaviour(p).map(|listener| listener.heard);
    same(rt, heard, Some(1));
}

/// A process joins a group, gets what is sent to its members, and leaves.
fn join_and_leave(rt: &impl Abort, alloc: Global, desk: &mut Desk)
    ensures { IsStill desk.old desk.new }
{
    let keeper = desk.spawn().expect(rt, "memory");
    let member = desk.spawn().expect(rt, "memory");
    let mut registry = GroupRegistry::new(alloc, keeper);
    let lines = Group(1);
    same(rt, registry.join(desk, lines, member), Ok(()));
    same(rt, registry.groups().len(lines), 1);
    let sent = Sent {
        sent: 1,
        exited: 0,
        stopped: None,
    };
    same(rt, registry.send_all(desk, keeper, lines, HELLO), sent);
    same(rt, registry.hear(Item::User(keeper, HELLO)), None);
    same(rt, registry.leave(desk, lines, member), Ok(true));
}

#[test]
fn items_are_taken_one_after_the_other(rt: HostRuntime) {
    played(&rt, rt.alloc(), Play::Items);
}

#[test]
fn a_listener_never_asks_to_stop(rt: HostRuntime) {
    played(&rt, rt.alloc(), Play::Listener);
}

#[test]
fn a_process_is_linked_with_itself(rt: HostRuntime) {
    played(&rt, rt.alloc(), Play::Links);
}

#[test]
fn a_process_joins_a_group_and_leaves(rt: HostRuntime) {
    played(&rt, rt.alloc(), Play::Groups);
}
