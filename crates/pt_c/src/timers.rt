//! Timers: numbers of the program's own, each due at a time.
//!
//! Each makes the call of `Timers` that has its name on the timers of the handle, and returns its code. It returns 9 if
//! the handle has none, and nothing has changed then. No call reads a clock: the program passes the time.

ghost use Rattle.std.specs.Prelude.{◌≡◌, length};
ghost use Rattle.pt_timers.specs.State.{body_of};
ghost use Rattle.pt_c_values.specs.Places.{CallsThrough, ReadsThrough, ShowsCode};
ghost use Rattle.pt_c_tools.specs.Timing.{CancelsTimer, FiresTimer, ShowsDue, ShowsNextTimer, StartsTimer, timer_in};
ghost use Rattle.pt_c_values.specs.Filling.{GivesUp};
ghost use Rattle.pt_c_tools.specs.Opening.{OpensTimers};

use pt_c_tools::timers;
use pt_c_tools::timers_handle::TimersHandle;
use pt_c_tools::types::{PtFired, PtTimer};
use std::alloc::Global;

/// Begins timers, of which none is pending. The handle must be empty: it returns 10 if it is not.
#[unsafe(no_mangle)]
pub extern "C" fn pt_timers_open(alloc: Global, t: &mut TimersHandle) -> u32
    ensures { OpensTimers result t.old.state t.new.state }
{
    timers::open(alloc, t)
}

/// Gives up timers: none of them fires.
#[unsafe(no_mangle)]
pub extern "C" fn pt_timers_give_up(alloc: Global, t: &mut TimersHandle) -> u32
    ensures { GivesUp result t.old.state t.new.state }
{
    timers::give_up(alloc, t)
}

/// Starts a timer that is due at this time, with this number, as `Timers::start` does. It writes the timer to `out` if it
/// returns 0.
#[unsafe(no_mangle)]
pub extern "C" fn pt_timers_start(
    alloc: Global,
    t: &mut TimersHandle,
    at: u64,
    body: u64,
    out: &mut PtTimer,
) -> u32
    ensures { CallsThrough t.old.state t.new.state result (out.new ≡ out.old)
        (λ old new. StartsTimer at body result out.old out.new old new) }
{
    timers::start(alloc, t, at, body, out)
}

/// Cancels a timer, which never fires then. It returns 8 if the timer is not pending.
#[unsafe(no_mangle)]
pub extern "C" fn pt_timers_cancel(alloc: Global, t: &mut TimersHandle, timer: PtTimer) -> u32
    ensures { CallsThrough t.old.state t.new.state result (Unit {0})
        (λ old new. CancelsTimer (timer_in timer) result old new) }
{
    timers::cancel(alloc, t, timer)
}

/// Fires one timer that is due by `now`: the one with the earliest time, and the one started first among those. It writes
/// it to `out` if it returns 0, and returns 8 if none is due.
#[unsafe(no_mangle)]
pub extern "C" fn pt_timers_pop_due(
    alloc: Global,
    t: &mut TimersHandle,
    now: u64,
    out: &mut PtFired,
) -> u32
    ensures { CallsThrough t.old.state t.new.state result (out.new ≡ out.old)
        (λ old new. FiresTimer now result out.old out.new old new) }
{
    timers::pop_due(alloc, t, now, out)
}

/// The timer that `pt_timers_pop_due` would fire, which stays pending; 8 if none is due.
#[unsafe(no_mangle)]
pub extern "C" fn pt_timers_peek_due(
    alloc: Global,
    t: &mut TimersHandle,
    now: u64,
    out: &mut PtFired,
) -> u32
    ensures { ReadsThrough t.old.state t.new.state result (out.new ≡ out.old)
        (λ timers. ShowsDue now result out.old out.new timers) }
{
    timers::peek_due(alloc, t, now, out)
}

/// The earliest time of a pending timer; 8 if none is pending.
#[unsafe(no_mangle)]
pub extern "C" fn pt_timers_next(alloc: Global, t: &mut TimersHandle, out: &mut u64) -> u32
    ensures { ReadsThrough t.old.state t.new.state result (out.new ≡ out.old)
        (λ timers. ShowsNextTimer result out.old out.new timers) }
{
    timers::next(alloc, t, out)
}

/// The number with which a pending timer was started; 8 if the timer is not pending.
#[unsafe(no_mangle)]
pub extern "C" fn pt_timers_get(
    alloc: Global,
    t: &mut TimersHandle,
    timer: PtTimer,
    out: &mut u64,
) -> u32
    ensures { ReadsThrough t.old.state t.new.state result (out.new ≡ out.old)
        (λ timers. ShowsCode result out.old out.new (λ body. body) (body_of timers (timer_in timer))) }
{
    timers::get(alloc, t, timer, out)
}

/// The number of pending timers.
#[unsafe(no_mangle)]
pub extern "C" fn pt_timers_len(alloc: Global, t: &mut TimersHandle, out: &mut usize) -> u32
    ensures { ReadsThrough t.old.state t.new.state result (out.new ≡ out.old)
        (λ timers. (result ≡ 0) × (out.new ≡ length timers.pending)) }
{
    timers::len(alloc, t, out)
}
