//! Timers: values that are due each at its own time, as Erlang's `send_after` and `cancel_timer` keep them.
//!
//! `Timers<T>` reads no clock. Each call that needs the time takes it as a number, in the program's own unit.
//!
//! ```
//! let mut timers: Timers<&str> = Timers::new(alloc);
//! let ring = timers.start(30, "stop ringing")?;
//! let poll = timers.start(10, "poll")?;
//!
//! assert_eq!(rt; timers.next(), Some(10));
//! assert_eq!(rt; timers.cancel(ring), true);
//! assert_eq!(rt; timers.pop_due(9), None);
//! assert_eq!(rt; timers.pop_due(12), Some(Fired { timer: poll, body: "poll" }));
//! ```
//!
//! # Cost
//! `start`, `cancel`, `pop_due` and `get` take time that grows with the logarithm of the number of pending timers. A
//! timer that fired or was cancelled takes no memory.
//!
//! Tests: `checks/tried/test_calls/timers.rt.txt` and `crates/test_calls/src/layers/timers.rt`.
//!
//! # What is proved
//!
//! - **One fate.** Each timer that was started is pending, has fired or was cancelled. The last two are for ever.
//!   (`timers_are_lawful`)
//! - **Never early.** `pop_due` fires a timer only if its time is not above `now`, with the body it was started with,
//!   and returns `None` only if none is due.
//! - **In order.** The earliest pending timer fires first. Timers of one time fire in the order in which they were
//!   started.
//! - **Cancelled for good.** `cancel` returns `true` exactly if the timer was pending, and it never fires then.
//! - **Any clock.** Each promise holds for any times that the calls are given, so a clock that goes backwards fires
//!   nothing twice.
//! - **Names are unique.** `start` returns a name that no timer had before, and one timer more is pending; or it fails and
//!   changes nothing. (`Starts`)
#![tactic(auto)]

ghost use Rattle.std.specs.Prelude.{◌≡◌, ◌+◌, cond, length, MatchOption};
ghost use Rattle.std.specs.Option.{option_copied};
ghost use Rattle.pt_timers.specs.State.{body_of};
ghost use Rattle.pt_timers.specs.Calls.{Cancels, Fires, IsFirstDue, IsNext, IsNone, NoneDue, Starts};
ghost use Rattle.pt_timers.specs.Laws.{IsLawful};

use std::alloc::Global;
use std::cmp::Ordering;
use std::collections::BTreeMap;
use std::marker::Model;
use thiserror::Error;

/// The name of one timer: its time, and its place among all timers started.
///
/// No other timer of its `Timers` ever has this name. Timers are ordered by time, and timers of one time in the order
/// in which they were started. Any pair of numbers may be passed as a name.
#[derive(Clone, Copy, Debug, PartialEq, Eq, Hash)]
pub struct Timer {
    /// When it is due.
    pub at: u64,
    /// The number of timers started before it.
    pub number: u64,
}

impl Ord for Timer {
    ghost use Rattle.std.proofs.Common.{rules};
    ghost use Rattle.std.specs.Cmp.Rules.{comparing};
    ghost use Rattle.pt_timers.specs.Order.{timer_order};

    ghost cmp = { timer_order };

    ghost total = { Prim.search (comparing, rules) };

    ghost matches_partial_cmp = { Prim.search (comparing, rules) };

    ghost matches_eq = { Prim.search (comparing, rules) };

    fn cmp(&self, other: &Timer) -> Ordering {
        let by_time = self.at.cmp(&other.at);
        by_time.then(self.number.cmp(&other.number))
    }
}

impl PartialOrd for Timer {
    ghost use Rattle.std.proofs.Common.{rules};
    ghost use Rattle.std.specs.Cmp.{partial_order_from_own_ties};
    ghost use Rattle.std.specs.Cmp.Rules.{comparing};
    ghost use Rattle.std.specs.Ordering.{as_partial_cmp};
    ghost use Rattle.pt_timers.specs.Order.{timer_order};

    ghost partial_cmp = { as_partial_cmp timer_order };

    ghost laws = { partial_order_from_own_ties (Prim.search (comparing, rules)) (Prim.search (comparing, rules)) };

    fn partial_cmp(&self, other: &Timer) -> Option<Ordering> {
        Some(self.cmp(other))
    }
}

/// Why `start` failed. It returns the body, and nothing has changed.
#[derive(Debug, PartialEq, Eq, Drop, Error)]
pub enum StartError<T> {
    /// 2^64 - 1 timers were started: there is no new name.
    #[error("every number of a timer was given out")]
    Worn(T),
    /// There was no memory for one more timer.
    #[error("no memory for one more timer")]
    Memory(T),
}

/// A timer that fired, and what it was started with.
#[derive(Clone, Copy, Debug, PartialEq, Eq, Drop)]
pub struct Fired<T> {
    pub timer: Timer,
    pub body: T,
}

/// The timers that are pending, each with its body.
///
/// A timer that was started is pending until it fires or is cancelled, once and for ever.
#[derive(Drop)]
pub struct Timers<T> {
    pending: BTreeMap<Timer, T>,
    started: u64,
}

impl<T> Model for Timers<T> {
    ghost use Rattle.pt_timers.specs.State.{TimersState, state, IsSound};

    ghost Value = { TimersState T };

    ghost view = { λ t. state t.started t.pending };

    ghost invariant = { λ t. IsSound (state t.started t.pending) };
}

impl<T: Drop> Timers<T> {
    /// No timers. It takes no memory.
    pub fn new(alloc: Global) -> Timers<T>
        ensures { IsNone result }
    {
        Timers {
            pending: BTreeMap::new(alloc),
            started: 0,
        }
    }

    /// Starts a timer that is due at a time, which may have passed already. One timer more is pending then.
    ///
    /// Fails with `Worn` if 2^64 - 1 timers were started before, and otherwise with `Memory` if there is no memory for
    /// one more. Then nothing has changed.
    pub fn start(&mut self, at: u64, body: T) -> Result<Timer, StartError<T>>
        ensures { Starts at body self.old result self.new }
    {
        if self.started == u64::MAX {
            return Err(StartError::Worn(body));
        }
        let timer = Timer {
            at,
            number: self.started,
        };
        match self.pending.insert(timer, body) {
            Ok(_) => {
                self.started += 1;
                Ok(timer)
            }
            Err(failed) => Err(StartError::Memory(failed.value.1)),
        }
    }

    /// Cancels a timer, and returns whether it was pending. It never fires then.
    ///
    /// If it has fired, was cancelled before or was never started, the answer is `false` and nothing changes.
    pub fn cancel(&mut self, timer: Timer) -> bool
        ensures cancels { Cancels timer self.old result self.new }
        ensures fewer { length self.new.pending + cond result 1 0 ≡ length self.old.pending }
    {
        self.pending.remove(&timer).is_some()
    }

    /// Fires one timer that is due by `now`: the one with the earliest time, and the one started first among those.
    /// Returns `None` if no pending timer is due.
    ///
    /// `while let Some(fired) = timers.pop_due(now)` fires all that are due, in order.
    pub fn pop_due(&mut self, now: u64) -> Option<Fired<T>>
        ensures { Fires now self.old result self.new }
    {
        if self.next()? > now {
            return None;
        }
        let (timer, body) = self.pending.pop_first()?;
        Some(Fired { timer, body })
    }

    /// The timer that `pop_due` would fire, with its body. It stays pending.
    ///
    /// Call `cancel` once its work is done, so nothing is lost if the work fails.
    pub fn peek_due(&self, now: u64) -> Option<(Timer, &T)>
        ensures { MatchOption result (NoneDue now self.now) (λ p. IsFirstDue now p.0 p.1.now self.now) }
    {
        let (timer, body) = self.pending.first_key_value()?;
        if timer.at > now {
            return None;
        }
        Some((*timer, body))
    }

    /// The earliest time of a pending timer, or `None` if none is pending.
    pub fn next(&self) -> Option<u64>
        ensures { IsNext self.now result }
    {
        let (timer, _) = self.pending.first_key_value()?;
        Some(timer.at)
    }

    /// The body of a pending timer, or `None` if the timer is not pending.
    pub fn get(&self, timer: Timer) -> Option<&T>
        ensures { option_copied result ≡ body_of self.now timer }
    {
        self.pending.get(&timer)
    }

    /// The number of pending timers.
    pub fn len(&self) -> usize
        ensures { result ≡ length self.now.pending }
    {
        self.pending.len()
    }

    /// The number of timers ever started, which is the number of the next one.
    pub fn started(&self) -> u64
        ensures { result ≡ self.now.started }
    {
        self.started
    }
}

/// What holds for timers through any sequence of calls, with any times. The function does nothing: the laws are its
/// contract.
pub fn timers_are_lawful<T>()
    ensures { IsLawful T }
{}
