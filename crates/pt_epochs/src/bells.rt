//! The bells by which the workers of a node wake one another.

use std::alloc::{AllocError, Global};
use std::sync::Wait;
use std::sync::atomic::{AtomicU64, Ordering};
use std::time::Duration;

/// The bell of one desk.
#[derive(Drop)]
struct Bell {
    /// How often it was rung. Only the lower half is looked at.
    rings: AtomicU64,
    /// How often it had been rung before the turn that began last, and before the one before that.
    heard: AtomicU64,
    heard_before: AtomicU64,
    /// Whether the worker found nothing to do in its last step.
    idle: AtomicU64,
    /// Whether the worker rests, or is about to.
    rests: AtomicU64,
    /// The desks to which its next turn may post, a bit for each.
    posts: AtomicU64,
    /// The time at which it has something to do though it is not rung, or `u64::MAX` if there is none.
    next: AtomicU64,
}

/// The bells of a node, one for each desk, and whether its workers are to stop.
///
/// All workers of the node, and threads beside them, share one value of it. Ringing wakes workers and does nothing
/// else: a node does the same whether a bell was rung or not.
#[derive(Drop)]
pub struct Bells {
    bells: Vec<Bell>,
    stopped: AtomicU64,
}

/// The lower half of a count, which a sleeper can compare.
fn low(count: u64) -> u32 {
    (count & 0xffff_ffff) as u32
}

impl Bells {
    /// The bells of so many desks, none of them rung. Fails if there is no memory.
    pub fn new(alloc: Global, desks: u8) -> Result<Bells, AllocError> {
        let mut bells = Vec::new(alloc);
        for _desk in 0..desks {
            bells.push(Bell {
                rings: AtomicU64::new(0),
                heard: AtomicU64::new(0),
                heard_before: AtomicU64::new(0),
                idle: AtomicU64::new(0),
                rests: AtomicU64::new(0),
                posts: AtomicU64::new(0),
                next: AtomicU64::new(u64::MAX),
            })?;
        }
        Ok(Bells {
            bells,
            stopped: AtomicU64::new(0),
        })
    }

    /// Rings at that desk, so that its worker stops resting, or does not begin to. Does nothing if there is no such
    /// desk.
    pub fn ring(&self, desk: u8) {
        let Some(bell) = self.bells.get(desk as usize) else {
            return;
        };
        bell.rings.fetch_add(1, Ordering::SeqCst);
        if bell.rests.load(Ordering::SeqCst) != 0 {
            bell.rings.wake_all();
        }
    }

    /// Rings at all desks.
    pub fn ring_all(&self) {
        for desk in 0..64 {
            self.ring(desk);
        }
    }

    /// Makes all workers whose gate has these bells end before their next turn. A worker may call it, and so may any
    /// other thread.
    pub fn stop(&self) {
        self.stopped.store(1, Ordering::SeqCst);
        self.ring_all();
    }

    /// Whether the workers are to end.
    pub fn is_stopped(&self) -> bool {
        self.stopped.load(Ordering::SeqCst) != 0
    }

    /// Notes what a step of that desk left: whether there is nothing to do, the desks to which the next turn may post,
    /// and the time at which there is something to do.
    pub(crate) fn tell(&self, desk: u8, idle: bool, posts: u64, next: Option<u64>) {
        let Some(bell) = self.bells.get(desk as usize) else {
            return;
        };
        bell.idle.store(if idle { 1 } else { 0 }, Ordering::SeqCst);
        bell.posts.store(posts, Ordering::SeqCst);
        bell.next.store(next.unwrap_or(u64::MAX), Ordering::SeqCst);
    }

    /// The time at which that desk has something to do though it is not rung, or `u64::MAX` if there is none.
    pub(crate) fn next_time(&self, desk: u8) -> u64 {
        match self.bells.get(desk as usize) {
            Some(bell) => bell.next.load(Ordering::SeqCst),
            None => u64::MAX,
        }
    }

    /// Rings at each desk to which the turn that was just done may have posted.
    pub(crate) fn ring_posted(&self, desk: u8) {
        let Some(bell) = self.bells.get(desk as usize) else {
            return;
        };
        let posts = bell.posts.load(Ordering::SeqCst);
        for other in 0..64 {
            if other != desk && (posts >> other) & 1 == 1 {
                self.ring(other);
            }
        }
    }

    /// Rests if that desk has nothing to do and was not rung since before its last turn but one, for no longer than
    /// `longest`. Then it notes how often the desk was rung.
    ///
    /// The last step found that there is nothing to do, so it has seen the turn before it. A worker that posted since
    /// then rings after its post. So what has arrived and was not seen has rung, or will ring.
    pub(crate) fn rest<R: Wait>(&self, rt: &R, desk: u8, longest: Duration) {
        let Some(bell) = self.bells.get(desk as usize) else {
            return;
        };
        if bell.idle.load(Ordering::SeqCst) != 0 && !self.is_stopped() {
            bell.rests.store(1, Ordering::SeqCst);
            let seen = low(bell.heard_before.load(Ordering::SeqCst));
            bell.rings.park_timeout(rt, seen, longest);
            bell.rests.store(0, Ordering::SeqCst);
        }
        let heard = bell.heard.load(Ordering::SeqCst);
        bell.heard_before.store(heard, Ordering::SeqCst);
        let rings = bell.rings.load(Ordering::SeqCst);
        bell.heard.store(rings, Ordering::SeqCst);
    }
}
