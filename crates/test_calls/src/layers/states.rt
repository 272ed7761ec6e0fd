//! `pt_history`: what the judge's state reports about processes, and a history that is judged over a state.

use crate::compared::{holds, same};
use pt_history::{Event, State, replay, replay_from};
use pt_signal::{Ids, LinkId, Pid, Reason, Ref, Signal};
use std::process::Abort;

/// The first processes of desk 0.
const A: Pid = Pid {
    shard: 0,
    slot: 0,
    version: 1,
};

const B: Pid = Pid { slot: 1, ..A };

const LINK: LinkId = LinkId { desk: 0, number: 4 };

const MONITOR: Ref = Ref { desk: 0, number: 5 };

/// The first links itself with the second and watches it, and the second traps exits.
const FIRST: &[Event] = &[
    Event::Born(A, None, None),
    Event::Born(B, None, None),
    Event::Flag(B, true),
    Event::Said(A, B, Signal::Link(LINK)),
    Event::Said(A, B, Signal::Monitor(MONITOR)),
    Event::Came(A, B, Signal::Link(LINK)),
    Event::Came(A, B, Signal::Monitor(MONITOR)),
];

/// The second ends.
const LATER: &[Event] = &[Event::Left(B, Reason::Shutdown)];

/// Both live, and each has what it holds.
fn look_first(rt: &impl Abort, state: &State) {
    holds(rt, state.alive(A) && state.traps(B));
    same(rt, state.linked(B, A), Some(Ids::of(LINK)));
    holds(rt, state.watching(A, MONITOR) && state.kept(B, MONITOR));
    same(rt, state.in_flight(), 0);
}

/// The second has ended, and its link and the `DOWN` are on their way.
fn look_later(rt: &impl Abort, state: &State) {
    holds(rt, !state.alive(B));
    same(rt, state.ended(B), Some(Reason::Shutdown));
    same(rt, state.waiting(A).expect(rt, "alive").len(), 0);
    same(rt, state.in_flight(), 2);
}

#[test]
fn a_history_goes_on_over_a_state(rt: HostRuntime) {
    let state = replay(rt.alloc(), FIRST).ok().expect(&rt, "legal");
    look_first(&rt, &state);
    let state = replay_from(rt.alloc(), state, LATER)
        .ok()
        .expect(&rt, "legal");
    look_later(&rt, &state);
}
