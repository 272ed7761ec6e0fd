//! How many restarts a supervisor makes.

ghost use Rattle.std.specs.Prelude.{◌≤◌, vec_capacity};

use crate::gave_up::GaveUp;
use pt_signal::Reason;
use std::alloc::{AllocError, Global};

/// At most so many restarts within a span, of stamps or of time.
///
/// A desk's clock counts stamps: each event on the desk has the next stamp, or a later one. The time is that of the
/// crew's steps (`Births::now` of `pt_behaviour`), in the unit of the program.
#[derive(Drop)]
pub struct Limit {
    /// The moments of the last restarts, the newest at the end.
    times: Vec<u64>,
    most: usize,
    span: u64,
    /// Whether its moments are times of steps, and not stamps.
    timed: bool,
    ghost room: { most ≤ vec_capacity times },
}

impl Limit {
    ghost use Rattle.std.specs.Prelude.{◌≡◌, IfOk, false, true};
    ghost use Rattle.pt_children.specs.Limits.{Allows, gave_up_over, is_none, moment};

    /// At most `most` restarts within `span` stamps. Fails if there is no memory for their times.
    pub fn new(alloc: Global, most: usize, span: u64) -> Result<Limit, AllocError>
        ensures { IfOk result (λ l. is_none most span false l) }
    {
        let times = Vec::with_capacity(alloc, most)?;
        Ok(Limit {
            times,
            most,
            span,
            timed: false,
        })
    }

    /// At most `most` restarts within a `span` of time. Fails if there is no memory for their times.
    pub fn by_time(alloc: Global, most: usize, span: u64) -> Result<Limit, AllocError>
        ensures { IfOk result (λ l. is_none most span true l) }
    {
        let times = Vec::with_capacity(alloc, most)?;
        Ok(Limit {
            times,
            most,
            span,
            timed: true,
        })
    }

    /// The moment that the limit counts by: the time if it is a limit by time, else the stamp.
    pub fn moment(&self, stamp: u64, time: u64) -> u64
        ensures { result ≡ moment self.now.timed stamp time }
    {
        if self.timed { time } else { stamp }
    }

    /// Whether one more restart is allowed at this moment; if so, it is counted.
    ///
    /// A restart counts as long as it is not older than the span, as Erlang's does: one that is just so old still counts.
    /// A restart of a later moment counts as one of now, if the clock went backwards.
    pub fn allows(&mut self, now: u64) -> bool
        ensures { Allows now self.old result self.new }
    {
        let span = self.span;
        self.times.retain(|time| now.saturating_sub(*time) <= span);
        if self.times.len() >= self.most {
            return false;
        }
        self.times.push_reserved(now);
        true
    }

    /// Why a supervisor gives up that may make no further restart, since the child with this id exited in this place.
    pub fn over(&self, id: u64, place: usize, reason: Reason) -> GaveUp
        ensures { result ≡ gave_up_over id place reason self.now.times.items self.now.span self.now.timed }
    {
        GaveUp {
            id,
            place,
            reason,
            restarts: self.times.len(),
            span: self.span,
            timed: self.timed,
        }
    }
}
