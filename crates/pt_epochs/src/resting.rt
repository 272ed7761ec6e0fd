//! A work that reports to its bells when there is nothing to do.

ghost use Rattle.std.specs.Prelude.{◌≡◌, ◌==◌, ◌||◌, ⊤, ℕ, Bool, Option, length, not};
ghost use Rattle.pt_shard.specs.ShardState.{ShardState};
ghost use Rattle.pt_crew.specs.Crews.{Attends, IsNextTime, queue, waiting};

use crate::bells::Bells;
use pt_behaviour::Behaviour;
use pt_crew::Crew;
use pt_workers::{Desk, Event, Stamped, Turned, Work};
use std::marker::Model;

/// A work that knows whether it has something to do by itself, though nothing arrives at its desk.
///
/// The ghost members `busy` and `next` say when it does: each relates the work and the answer. A work that says nothing
/// there promises nothing of its answer.
pub trait Rests: Work {
    ghost busy: { Self → Bool → Type 0 } = { λ _ _. ⊤ };

    ghost next: { Self → Option ℕ → Type 0 } = { λ _ _. ⊤ };

    /// Whether its next step has something to do, as far as it knows.
    fn has_work(&self) -> bool
        ensures { busy self.now result };

    /// The earliest time at which it has something to do though nothing arrives, or `None` if there is no such time.
    fn next_time(&self) -> Option<u64>
        ensures { next self.now result };
}

/// A crew has something to do while a process is in its queue, or waits to enter.
impl<B: Behaviour + Drop> Rests for Crew<B> {
    ghost busy = { λ c answer. answer ≡ (not (length (queue c) == 0) || not (length (waiting c) == 0)) };

    ghost next = { λ c answer. (d : ShardState) → Attends c d → IsNextTime c answer };

    fn has_work(&self) -> bool {
        self.queued() != 0 || self.waiting() != 0
    }

    fn next_time(&self) -> Option<u64> {
        Crew::next_time(self)
    }
}

/// A work whose desk rests while there is nothing to do on it. It rests if its last turn handled nothing, its step
/// wrote no event, no letter waits in outbox or hold, and the work has nothing to do by itself.
///
/// It does what the work does, and nothing else to the desk.
#[derive(Drop)]
pub struct RestingWork<'a, W> {
    work: W,
    bells: &'a Bells,
    /// The desk's clock as the last step ended; none before the first.
    clock: Option<u64>,
    /// The desks for which letters may wait in the outbox.
    posts: u64,
}

/// Clauses see the work alone: what it reports to the bells wakes workers, and changes nothing.
impl<'a, W> Model for RestingWork<'a, W> {
    ghost Value = { W };

    ghost view = { λ r. r.work };
}

impl<'a, W: Rests> RestingWork<'a, W> {
    /// The work of a desk of the node whose bells these are.
    pub fn new(work: W, bells: &'a Bells) -> RestingWork<'a, W>
        ensures { result ≡ work }
    {
        RestingWork {
            work,
            bells,
            clock: None,
            posts: 0,
        }
    }

    /// The work, to be read.
    pub fn work(&self) -> &W
        ensures { result.now ≡ self.now }
    {
        &self.work
    }

    /// The work, as it is now.
    pub fn into_work(self) -> W
        ensures { result ≡ self.entry }
    {
        let RestingWork { work, .. } = self;
        work
    }
}

/// The bit of a desk.
fn bit(desk: u8) -> u64 {
    if desk < 64 { 1 << desk } else { 0 }
}

/// The desks to which an event may send letters. An exit may send some to any.
fn targets(desk: &Desk, event: &Event) -> u64 {
    match event {
        Event::Said(_, to, _) => bit(to.shard),
        Event::Came(from, to, _) => {
            if desk.alive_here(*to) {
                bit(from.shard)
            } else {
                u64::MAX
            }
        }
        Event::Left(_, _) => u64::MAX,
        _ => 0,
    }
}

/// The desks to which these events may send letters.
fn targets_of(desk: &Desk, events: &[Stamped]) -> u64 {
    let mut posts = 0;
    for stamped in events {
        posts |= targets(desk, &stamped.event);
    }
    posts
}

impl<'a, W: Rests> Work for RestingWork<'a, W> {
    ghost does = { λ old d new e. W.Work.does old d new e };

    ghost hears = { λ old d turned new. W.Work.hears old d turned new };

    fn step(&mut self, desk: &mut Desk) {
        let before = desk.clock();
        let quiet = self.clock == Some(before) && desk.pending() == 0;
        let posted = if desk.pending() == 0 { 0 } else { self.posts };
        let since = self.clock.unwrap_or(0);
        self.work.step(desk);
        let clock = desk.clock();
        self.posts = posted | targets_of(desk, desk.journal().since(since));
        let idle = quiet && clock == before && desk.pending() == 0 && !self.work.has_work();
        let next = self.work.next_time();
        self.bells.tell(desk.number(), idle, self.posts, next);
        self.clock = Some(clock);
    }

    fn turned(&mut self, desk: &Desk, turned: Turned) {
        self.work.turned(desk, turned);
    }
}
