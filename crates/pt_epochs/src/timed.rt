//! Works whose steps take place at a time.

ghost use Rattle.std.specs.Prelude.{◌≡◌, ⊤, ℕ};
ghost use Rattle.pt_epochs.specs.Timing.{SetsTime};

use crate::resting::Rests;
use pt_behaviour::Behaviour;
use pt_crew::Crew;
use pt_workers::{Desk, Turned, Work};
use std::marker::Model;
use std::time::Duration;

/// What says the time, in the program's own unit: Erlang's `erlang:monotonic_time/1`.
///
/// The ghost member `says` relates the source and a time that it may say. A source that reads a clock promises nothing
/// there.
pub trait TimeSource {
    ghost says: { Self → ℕ → Type 0 } = { λ _ _. ⊤ };

    /// What time it is.
    fn now(&self) -> u64
        ensures { says self.now result };

    /// How long it is until that time. It is zero if the time has come.
    fn until(&self, at: u64) -> Duration;
}

/// A work whose steps take place at a time, as those of a crew.
///
/// The ghost member `sets` relates the work before, the time, and the work afterwards.
pub trait Timed: Rests {
    ghost sets: { Self → ℕ → Self → Type 0 } = { λ _ _ _. ⊤ };

    /// Says what time it is in the steps that follow.
    fn set_time(&mut self, now: u64)
        ensures { sets self.old now self.new };
}

impl<B: Behaviour + Drop> Timed for Crew<B> {
    ghost sets = { λ c now d. SetsTime c now d };

    fn set_time(&mut self, now: u64) {
        Crew::set_time(self, now);
    }
}

/// A work whose steps take place at the time that a source says.
///
/// It sets the work's time and does the work's step, and nothing else.
#[derive(Drop)]
pub struct Clocked<'a, W, C> {
    work: W,
    source: &'a C,
}

/// Clauses see the work, and the source that says its time.
impl<'a, W, C> Model for Clocked<'a, W, C> {
    ghost Value = { W × C };

    ghost view = { λ t. (t.work, t.source.now) };
}

impl<'a, W, C> Clocked<'a, W, C> {
    /// The work, at the time of this source.
    pub fn new(work: W, source: &'a C) -> Clocked<'a, W, C>
        ensures { result ≡ (work, source.now) }
    {
        Clocked { work, source }
    }

    /// The work, to be read.
    pub fn work(&self) -> &W
        ensures { result.now ≡ self.now.0 }
    {
        &self.work
    }

    /// The work, as it is now.
    pub fn into_work(self) -> W
        ensures { result ≡ self.entry.0 }
    {
        let Clocked { work, .. } = self;
        work
    }
}

impl<'a, W: Timed, C: TimeSource> Work for Clocked<'a, W, C> {
    ghost does = { λ old d new e. (now : ℕ) × (mid : W) × C.says old.1 now × W.Timed.sets old.0 now mid
        × W.Work.does mid d new.0 e × (new.1 ≡ old.1) };

    ghost hears = { λ old d turned new. W.Work.hears old.0 d turned new.0 × (new.1 ≡ old.1) };

    fn step(&mut self, desk: &mut Desk) {
        let now = self.source.now();
        self.work.set_time(now);
        self.work.step(desk);
    }

    fn turned(&mut self, desk: &Desk, turned: Turned) {
        self.work.turned(desk, turned);
    }
}

impl<'a, W: Timed, C: TimeSource> Rests for Clocked<'a, W, C> {
    ghost busy = { λ w answer. W.Rests.busy w.0 answer };

    ghost next = { λ w answer. W.Rests.next w.0 answer };

    fn has_work(&self) -> bool {
        self.work.has_work()
    }

    fn next_time(&self) -> Option<u64> {
        self.work.next_time()
    }
}
