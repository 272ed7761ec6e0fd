//! A supervisor, its children and its limits, without a desk.

use crate::compared::{holds, same};
use pt_node::{Pid, Reason};
use pt_supervisor::{
    Child, ChildCounts, ChildFault, ChildSeen, ChildState, Home, Limit, Restart, Shutdown,
    Strategy, Supervisor, Trial,
};
use std::alloc::Global;
use std::process::Abort;

/// Starts no child.
#[derive(Drop)]
struct Nobody;

const PARENT: Pid = Pid {
    shard: 0,
    slot: 0,
    version: 1,
};

/// A live child that is stopped by `kill`.
const KILLED: Child = Child {
    pid: Some(PARENT),
    restart: Restart::Transient,
    shutdown: Shutdown::BrutalKill,
    wanted: true,
    id: 0,
    trial: Trial::First,
    home: Home::Here,
};

#[test]
fn a_child_says_how_it_ends(rt: HostRuntime) {
    let child = Child::new(Restart::Transient).ended_by(Shutdown::BrutalKill);
    same(&rt, child.with_id(7).id, 7);
    same(
        &rt,
        Child {
            pid: Some(PARENT),
            ..child
        },
        KILLED,
    );
}

#[test]
fn restarts_are_limited_by_time(rt: HostRuntime) {
    let mut limit = Limit::by_time(rt.alloc(), 1, 10).expect(&rt, "memory");
    same(&rt, limit.moment(7, 3), 3);
    holds(&rt, limit.allows(3));
    holds(&rt, !limit.allows(13));
    holds(&rt, limit.allows(14));
    holds(&rt, !limit.allows(5));
}

/// It has started no child, and has not given up.
fn look(rt: &impl Abort, supervisor: &Supervisor<Nobody>) {
    same(rt, supervisor.started(), 0);
    holds(rt, supervisor.gave_up().is_none());
    holds(
        rt,
        supervisor.asked().is_none() && supervisor.hears(None).is_none(),
    );
    same(rt, supervisor.children().len(), 1);
}

#[test]
fn a_supervisor_is_stopped(rt: HostRuntime) {
    let children = vec![in rt.alloc(); KILLED].expect(&rt, "memory");
    let limit = Limit::new(rt.alloc(), 1, 1000).expect(&rt, "memory");
    let mut supervisor = Supervisor::new(Nobody, Strategy::OneForOne, children, limit);
    supervisor.stop(Reason::Shutdown);
    look(&rt, &supervisor);
}

/// Counts of two children, of which one is alive.
const ONE_OF_TWO: ChildCounts = ChildCounts {
    specs: 2,
    active: 1,
    restarting: 1,
};

#[test]
fn a_supervisor_tells_of_its_children(rt: HostRuntime) {
    let supervisor = of_two(&rt, rt.alloc());
    same(&rt, supervisor.count_children(), ONE_OF_TWO);
    let seen = supervisor.which_children(rt.alloc()).expect(&rt, "memory");
    let missing = ChildSeen {
        id: 7,
        state: ChildState::Restarting,
    };
    holds(&rt, seen.last() == Some(&missing));
    same(&rt, KILLED.state(), ChildState::Running(PARENT));
}

/// A supervisor of one living child, whose id is 0, and of one that is to be started, whose id is 7.
fn of_two(rt: &impl Abort, alloc: Global) -> Supervisor<Nobody> {
    let second = Child::new(Restart::Permanent).with_id(7);
    let children = vec![in alloc; KILLED, second].expect(rt, "memory");
    let limit = Limit::new(alloc, 1, 1000).expect(rt, "memory");
    Supervisor::new(Nobody, Strategy::OneForOne, children, limit)
}

#[test]
fn a_child_is_ended_and_started_by_calls(rt: HostRuntime) {
    let mut supervisor = of_two(&rt, rt.alloc());
    same(&rt, supervisor.restart_child(0), Err(ChildFault::Running));
    same(
        &rt,
        supervisor.restart_child(7),
        Err(ChildFault::Restarting),
    );
    same(&rt, supervisor.restart_child(8), Err(ChildFault::NotFound));
    same(&rt, supervisor.terminate_child(7), Ok(()));
    same(&rt, supervisor.restart_child(7), Ok(()));
    same(&rt, supervisor.count_children(), ONE_OF_TWO);
}

#[test]
fn a_child_is_taken_in_and_forgotten_by_calls(rt: HostRuntime) {
    let mut supervisor = of_two(&rt, rt.alloc());
    let third = Child::new(Restart::Transient).with_id(9);
    same(&rt, supervisor.start_child(third), Ok(2));
    same(
        &rt,
        supervisor.start_child(third),
        Err(ChildFault::AlreadyPresent),
    );
    same(
        &rt,
        supervisor.start_child(KILLED),
        Err(ChildFault::AlreadyStarted(PARENT)),
    );
    same(&rt, supervisor.delete_child(9), Err(ChildFault::Restarting));
    same(&rt, supervisor.terminate_child(9), Ok(()));
    same(&rt, supervisor.delete_child(9), Ok(2));
    same(&rt, supervisor.count_children(), ONE_OF_TWO);
}
