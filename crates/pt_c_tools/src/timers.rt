//! Timers: numbers of the program's own, each due at a time.
//!
//! Each makes the call of `Timers` that has its name on the timers of the handle, and returns its code. It returns 9 if
//! the handle has none, and nothing has changed then. No call reads a clock: the program passes the time.

ghost use Rattle.std.specs.Prelude.{◌≡◌, length};
ghost use Rattle.pt_timers.specs.State.{body_of};
ghost use Rattle.pt_c_values.specs.Places.{CallsThrough, ReadsThrough, ShowsCode};
ghost use Rattle.pt_c_tools.specs.Timing.{CancelsTimer, FiresTimer, IsDue, ShowsDue, ShowsNextTimer, StartsTimer};
ghost use Rattle.pt_c_tools.specs.Timing.{fired_out, timer_in, timer_out};
ghost use Rattle.pt_c_values.specs.Filling.{GivesUp};
ghost use Rattle.pt_c_tools.specs.Opening.{OpensTimers};

use crate::timers_handle::{TimersHandle, claim, filled, hold, is_full, spare};
use crate::types::{PtFired, PtTimer};
use pt_c_values::codes::{DONE, EMPTY, FILLED, MEMORY, NOTHING};
use pt_c_values::ending::end_code;
use pt_timers::{Fired, StartError, Timer, Timers};
use std::alloc::Global;

/// 2^64 - 1 timers were started.
const WORN: u32 = 3;

fn timer_in(timer: PtTimer) -> Timer
    ensures { result ≡ timer_in timer }
{
    Timer {
        at: timer.at,
        number: timer.number,
    }
}

fn timer_out(timer: Timer) -> PtTimer
    ensures { result ≡ timer_out timer }
{
    PtTimer {
        at: timer.at,
        number: timer.number,
    }
}

fn fired_out(fired: Fired<u64>) -> PtFired
    ensures { result ≡ fired_out fired }
{
    PtFired {
        timer: timer_out(fired.timer),
        body: fired.body,
    }
}

/// Begins timers, of which none is pending. The handle must be empty: it returns 10 if it is not.
pub fn open(alloc: Global, t: &mut TimersHandle) -> u32
    ensures { OpensTimers result t.old.state t.new.state }
{
    if is_full(alloc, t) {
        return FILLED;
    }
    let Ok(place) = spare(alloc) else {
        return MEMORY;
    };
    *t = filled(place, Timers::new(alloc));
    DONE
}

/// Gives up timers: none of them fires.
pub fn give_up(alloc: Global, t: &mut TimersHandle) -> u32
    ensures { GivesUp result t.old.state t.new.state }
{
    match claim(alloc, t) {
        Some(place) => end_code(place.timers.is_some()),
        None => EMPTY,
    }
}

/// Starts a timer that is due at this time, with this number, as `Timers::start` does. It writes the timer to `out` if it
/// returns 0.
pub fn start(alloc: Global, t: &mut TimersHandle, at: u64, body: u64, out: &mut PtTimer) -> u32
    ensures { CallsThrough t.old.state t.new.state result (out.new ≡ out.old)
        (λ old new. StartsTimer at body result out.old out.new old new) }
{
    let Some(mut held) = claim(alloc, t) else {
        return EMPTY;
    };
    let code = match &mut held.timers {
        Some(timers) => match timers.start(at, body) {
            Ok(timer) => {
                *out = timer_out(timer);
                DONE
            }
            Err(StartError::Worn(_)) => WORN,
            Err(StartError::Memory(_)) => MEMORY,
        },
        None => EMPTY,
    };
    *t = hold(held);
    code
}

/// Cancels a timer, which never fires then. It returns 8 if the timer is not pending.
pub fn cancel(alloc: Global, t: &mut TimersHandle, timer: PtTimer) -> u32
    ensures { CallsThrough t.old.state t.new.state result (Unit {0})
        (λ old new. CancelsTimer (timer_in timer) result old new) }
{
    let Some(mut held) = claim(alloc, t) else {
        return EMPTY;
    };
    let code = match &mut held.timers {
        Some(timers) => {
            if timers.cancel(timer_in(timer)) {
                DONE
            } else {
                NOTHING
            }
        }
        None => EMPTY,
    };
    *t = hold(held);
    code
}

/// Fires one timer that is due by `now`: the one with the earliest time, and the one started first among those. It writes
/// it to `out` if it returns 0, and returns 8 if none is due.
pub fn pop_due(alloc: Global, t: &mut TimersHandle, now: u64, out: &mut PtFired) -> u32
    ensures { CallsThrough t.old.state t.new.state result (out.new ≡ out.old)
        (λ old new. FiresTimer now result out.old out.new old new) }
{
    let Some(mut held) = claim(alloc, t) else {
        return EMPTY;
    };
    let code = match &mut held.timers {
        Some(timers) => match timers.pop_due(now) {
            Some(fired) => {
                *out = fired_out(fired);
                DONE
            }
            None => NOTHING,
        },
        None => EMPTY,
    };
    *t = hold(held);
    code
}

/// The timer that `pop_due` would fire, which stays pending; 8 if none is due.
pub fn peek_due(alloc: Global, t: &mut TimersHandle, now: u64, out: &mut PtFired) -> u32
    ensures { ReadsThrough t.old.state t.new.state result (out.new ≡ out.old)
        (λ timers. ShowsDue now result out.old out.new timers) }
{
    let Some(held) = claim(alloc, t) else {
        return EMPTY;
    };
    let code = match &held.timers {
        Some(timers) => match first_due(timers, now) {
            Some(fired) => {
                *out = fired_out(fired);
                DONE
            }
            None => NOTHING,
        },
        None => EMPTY,
    };
    *t = hold(held);
    code
}

/// The first timer that is due, with its number.
fn first_due(timers: &Timers<u64>, now: u64) -> Option<Fired<u64>>
    ensures { IsDue now result timers.now }
{
    match timers.peek_due(now) {
        Some((timer, body)) => Some(Fired { timer, body: *body }),
        None => None,
    }
}

/// The earliest time of a pending timer; 8 if none is pending.
pub fn next(alloc: Global, t: &mut TimersHandle, out: &mut u64) -> u32
    ensures { ReadsThrough t.old.state t.new.state result (out.new ≡ out.old)
        (λ timers. ShowsNextTimer result out.old out.new timers) }
{
    let Some(held) = claim(alloc, t) else {
        return EMPTY;
    };
    let code = match &held.timers {
        Some(timers) => match timers.next() {
            Some(at) => {
                *out = at;
                DONE
            }
            None => NOTHING,
        },
        None => EMPTY,
    };
    *t = hold(held);
    code
}

/// The number with which a pending timer was started; 8 if the timer is not pending.
pub fn get(alloc: Global, t: &mut TimersHandle, timer: PtTimer, out: &mut u64) -> u32
    ensures { ReadsThrough t.old.state t.new.state result (out.new ≡ out.old)
        (λ timers. ShowsCode result out.old out.new (λ body. body) (body_of timers (timer_in timer))) }
{
    let Some(held) = claim(alloc, t) else {
        return EMPTY;
    };
    let code = match &held.timers {
        Some(timers) => match timers.get(timer_in(timer)) {
            Some(body) => {
                *out = *body;
                DONE
            }
            None => NOTHING,
        },
        None => EMPTY,
    };
    *t = hold(held);
    code
}

/// The number of pending timers.
pub fn len(alloc: Global, t: &mut TimersHandle, out: &mut usize) -> u32
    ensures { ReadsThrough t.old.state t.new.state result (out.new ≡ out.old)
        (λ timers. (result ≡ 0) × (out.new ≡ length timers.pending)) }
{
    let Some(held) = claim(alloc, t) else {
        return EMPTY;
    };
    let code = match &held.timers {
        Some(timers) => {
            *out = timers.len();
            DONE
        }
        None => EMPTY,
    };
    *t = hold(held);
    code
}
