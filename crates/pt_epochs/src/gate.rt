//! The gate of workers that rest.

use crate::bells::Bells;
use crate::timed::TimeSource;
use pt_workers::Gate;
use std::sync::Wait;
use std::time::Duration;

/// A gate at which a worker rests if its desk has nothing to do, until its bell rings. Each worker ends at it once the
/// bells say stop.
///
/// It knows of a desk only what its work reports to the bells, so the works of the run must be
/// [`RestingWork`](crate::RestingWork). With `u64::MAX` turns a run continues until [`Bells::stop`].
#[derive(Drop)]
pub struct RestGate<'a, R> {
    rt: &'a R,
    bells: &'a Bells,
    longest: Duration,
}

impl<'a, R: Wait> RestGate<'a, R> {
    /// The gate with these bells. No rest is longer than `longest`: a missed wake-up costs this time and nothing else.
    pub fn new(rt: &'a R, bells: &'a Bells, longest: Duration) -> RestGate<'a, R> {
        RestGate { rt, bells, longest }
    }
}

impl<'a, R: Wait> Gate for RestGate<'a, R> {
    ghost use Rattle.std.specs.Prelude.{⊤};

    ghost lets = { λ _ _ _ _. ⊤ };

    fn before(&self, desk: u8, _turn: u64) -> bool {
        self.bells.rest(self.rt, desk, self.longest);
        !self.bells.is_stopped()
    }

    fn after(&self, desk: u8, _turn: u64) {
        self.bells.ring_posted(desk);
    }
}

/// A [`RestGate`] that knows the time: no rest is longer than until the next time at which the desk has something to do.
///
/// The works of the run must be [`RestingWork`](crate::RestingWork) over works of the same time source, as over a
/// [`Clocked`](crate::Clocked) crew.
#[derive(Drop)]
pub struct TimedGate<'a, R, C> {
    gate: RestGate<'a, R>,
    source: &'a C,
}

impl<'a, R: Wait, C: TimeSource> TimedGate<'a, R, C> {
    /// The gate with these bells. No rest is longer than `longest` either: a missed wake-up costs this time.
    pub fn new(
        rt: &'a R,
        bells: &'a Bells,
        longest: Duration,
        source: &'a C,
    ) -> TimedGate<'a, R, C> {
        TimedGate {
            gate: RestGate::new(rt, bells, longest),
            source,
        }
    }

    /// For how long that desk may rest.
    fn longest(&self, desk: u8) -> Duration {
        match self.gate.bells.next_time(desk) {
            u64::MAX => self.gate.longest,
            at => self.source.until(at).min(self.gate.longest),
        }
    }
}

impl<'a, R: Wait, C: TimeSource> Gate for TimedGate<'a, R, C> {
    ghost use Rattle.std.specs.Prelude.{⊤};

    ghost lets = { λ _ _ _ _. ⊤ };

    fn before(&self, desk: u8, _turn: u64) -> bool {
        let bells = self.gate.bells;
        bells.rest(self.gate.rt, desk, self.longest(desk));
        !bells.is_stopped()
    }

    fn after(&self, desk: u8, turn: u64) {
        self.gate.after(desk, turn);
    }
}
