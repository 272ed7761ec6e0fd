//! What a person who waits is told: in each second from the first on, how much was done, and how long the rest takes.

ghost use Rattle.std.specs.Prelude.{◌≡◌, is_some};
ghost use Rattle.pt_render.specs.Progress as spec;

use std::rt::Runtime;
use std::sync::atomic::{AtomicU64, Ordering};
use std::time::Instant;

/// How much of its work a program did, and when that was told last. Several threads may count.
#[derive(Drop)]
pub struct Progress {
    /// When the program began, if a person looks on.
    begun: Option<Instant>,
    /// After how many milliseconds the work began.
    from: AtomicU64,
    /// The second of the work in which it was told last.
    told: AtomicU64,
    done: AtomicU64,
    /// How much there is, or 0 if that is not known.
    total: AtomicU64,
}

impl Progress {
    /// The program begins now, and so does its work. If nobody looks on, or the clock cannot be read, nothing is told.
    pub fn new<R: Runtime>(rt: &R, is_watched: bool) -> Progress {
        let begun = if is_watched {
            Instant::now(rt).ok()
        } else {
            None
        };
        Progress {
            begun,
            from: AtomicU64::new(0),
            told: AtomicU64::new(0),
            done: AtomicU64::new(0),
            total: AtomicU64::new(0),
        }
    }

    /// Whether a person looks on, and the clock can be read.
    pub fn is_watched(&self) -> bool
        ensures { result ≡ is_some self.now.begun }
    {
        self.begun.is_some()
    }

    /// The work begins now, and counts from the first one on. There are so many, or 0 if that is not known.
    pub fn begin<R: Runtime>(&self, rt: &R, total: u64) {
        let Some(now) = self.milliseconds(rt) else {
            return;
        };
        self.from.store(now, Ordering::SeqCst);
        self.told.store(0, Ordering::SeqCst);
        self.done.store(0, Ordering::SeqCst);
        self.total.store(total, Ordering::SeqCst);
    }

    /// Counts so many more. In each second of the work, from the first on, it returns once how far it is.
    pub fn count<R: Runtime>(&self, rt: &R, more: u64) -> Option<Part> {
        let now = self.milliseconds(rt)?;
        let done = self
            .done
            .fetch_add(more, Ordering::SeqCst)
            .saturating_add(more);
        let seconds = now.saturating_sub(self.from.load(Ordering::SeqCst)) / 1_000;
        let is_due = seconds > self.told.load(Ordering::SeqCst)
            && self.told.swap(seconds, Ordering::SeqCst) < seconds;
        if !is_due {
            return None;
        }
        let total = self.total.load(Ordering::SeqCst);
        Some(Part {
            done,
            total,
            seconds,
        })
    }

    /// How many milliseconds have passed since the program began, if a person looks on.
    fn milliseconds<R: Runtime>(&self, rt: &R) -> Option<u64> {
        let passed = self.begun?.elapsed(rt).ok()?;
        let seconds = passed.as_secs().saturating_mul(1_000);
        Some(seconds.saturating_add(u64::from(passed.subsec_millis())))
    }
}

/// How much of the work was done after so many seconds.
#[derive(Clone, Copy, Debug, PartialEq, Eq)]
pub struct Part {
    pub done: u64,
    /// How much there is, or 0 if that is not known.
    pub total: u64,
    pub seconds: u64,
}

/// The part that was done, and about how many seconds the rest takes.
#[derive(Clone, Copy, Debug, PartialEq, Eq)]
pub struct Estimate {
    pub percent: u128,
    pub seconds: u128,
}

impl Part {
    /// The estimate, or `None` if it is not known how much there is, nothing was done yet, or more was done than that.
    pub fn estimate(self) -> Option<Estimate>
        ensures { result ≡ spec.estimate self }
    {
        let Part {
            done,
            total,
            seconds,
        } = self;
        if done == 0 || total < done {
            return None;
        }
        Some(Estimate {
            percent: u128::from(done) * 100 / u128::from(total),
            seconds: u128::from(seconds) * u128::from(total - done) / u128::from(done),
        })
    }
}
