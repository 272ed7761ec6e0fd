//! `pt_timers`: a timer that fires and one that is cancelled.

use crate::compared::{holds, same};
use pt_timers::{Fired, Timers};

#[test]
fn a_timer_fires_and_another_is_cancelled(rt: HostRuntime) {
    let mut timers: Timers<u32> = Timers::new(rt.alloc());
    let first = timers.start(10, 7).ok().expect(&rt, "memory");
    let second = timers.start(10, 8).ok().expect(&rt, "memory");
    same(&rt, timers.next(), Some(10));
    same(&rt, timers.get(second).copied(), Some(8));
    same(&rt, timers.pop_due(9), None);
    same(
        &rt,
        timers.pop_due(10),
        Some(Fired {
            timer: first,
            body: 7,
        }),
    );
    holds(&rt, timers.cancel(second));
    same(&rt, (timers.len(), timers.started()), (0, 2));
    holds(&rt, first < second);
}
