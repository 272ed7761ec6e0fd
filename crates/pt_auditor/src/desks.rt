//! What the desks of a node have at a point of a history.

ghost use Rattle.std.specs.Prelude.{◌≡◌, ◌++◌, ℕ, [], false, drop, map, slice_get, IfOk, OnOk};
ghost use Rattle.pt_events.specs.Journal.{letter};
ghost use Rattle.pt_judge.specs.Judging.{judge_sends, lived};
ghost use Rattle.pt_auditor.specs.Lanes.{IsLaid, lane, letters_laid, stamp_noted};
ghost use Rattle.pt_auditor.specs.Foreigners.{may_begin, IsCarried, IsMovedOn};
ghost use Rattle.pt_auditor.specs.Seen.{is_noted};

use crate::clocks::Clocks;
use crate::lanes::Lanes;
use crate::seen::SeenExits;
use pt_events::{Event, Stamped};
use pt_judge::{Flights, State};
use pt_signal::{Letter, Pid};
use std::alloc::{AllocError, Global};

/// What the desks of the node that prints a history have at a point of it: the letters between them, their clocks, and the
/// exits that they have seen.
pub(crate) struct Desks {
    lanes: Lanes,
    clocks: Clocks,
    seen: SeenExits,
    /// The desks of the letter left over that was read last. They are 0 and 0 before the first.
    left: (u8, u8),
    /// The stamp of the newest event, or 0.
    newest: u64,
    /// Whether all clocks may have stood just below that stamp before its first event.
    begun: bool,
}

// By hand, so that each drop of it is a call: a derived drop is proved field by field at each place that drops a value.
impl Drop for Desks {
    fn drop(self) {
        let Desks {
            lanes: _,
            clocks: _,
            seen: _,
            left: _,
            newest: _,
            begun: _,
        } = self;
    }
}

impl Desks {
    /// Nothing happened.
    pub(crate) fn new(alloc: Global) -> Desks
        ensures { result ≡ record { lanes = []; clocks = []; seen = []; left = (0, 0); newest = 0; begun = false } }
    {
        Desks {
            lanes: Lanes::new(alloc),
            clocks: Clocks::new(alloc),
            seen: SeenExits::new(alloc),
            left: (0, 0),
            newest: 0,
            begun: false,
        }
    }

    /// Nothing is on its way, the clocks are these, and these exits were seen; the newest stamp, and whether all clocks may
    /// have stood just below it.
    pub(crate) fn over(
        alloc: Global,
        clocks: Clocks,
        seen: SeenExits,
        newest: u64,
        begun: bool,
    ) -> Desks
        ensures { result
            ≡ record { lanes = []; clocks = clocks; seen = seen; left = (0, 0); newest = newest; begun = begun } }
    {
        Desks {
            lanes: Lanes::new(alloc),
            clocks,
            seen,
            left: (0, 0),
            newest,
            begun,
        }
    }

    /// The clocks, which exits were seen, and whether all clocks may have stood just below the newest stamp.
    pub(crate) fn at_rest(self) -> (Clocks, SeenExits, bool)
        ensures { result ≡ (self.clocks, self.seen, self.begun) }
    {
        let Desks {
            lanes: _,
            clocks,
            seen,
            left: _,
            newest: _,
            begun,
        } = self;
        (clocks, seen, begun)
    }

    /// Whether a call of the desk was refused that went to the process, or to a later one of its slot.
    pub(crate) fn has_seen(&self, desk: u8, pid: Pid) -> bool
        ensures { result ≡ is_noted self.now.seen desk pid }
    {
        self.seen.has(desk, pid)
    }

    /// The oldest letter from the desk of the one process to that of the other.
    pub(crate) fn first(&self, from: Pid, to: Pid) -> Option<Letter>
        ensures { result ≡ slice_get (letters_laid self.now.lanes from.shard to.shard) 0 }
    {
        self.lanes.first(from.shard, to.shard)
    }

    /// The stamp of the desk's newest event, or 0.
    pub(crate) fn clock(&self, desk: u8) -> u64
        ensures { result ≡ stamp_noted self.now.clocks desk }
    {
        self.clocks.of(desk)
    }

    /// The desks of the letter left over that was read last, or 0 and 0.
    pub(crate) fn left(&self) -> (u8, u8)
        ensures { result ≡ self.now.left }
    {
        self.left
    }

    /// Whether all clocks may stand just below the stamp: no clock is above it, and the node was opened or resumed there
    /// if nothing was on its way.
    pub(crate) fn may_begin(&self, state: &State, stamp: u64) -> bool
        ensures { result ≡ may_begin self.now state.now stamp }
    {
        if stamp == self.newest {
            return self.begun;
        }
        state.in_flight() == 0
            && (self.newest == 0 || (self.newest < stamp && stamp - self.newest == 1))
    }

    /// The oldest letter from the desk of the one process to that of the other is on its way no more: it is left over.
    pub(crate) fn drop_first(&mut self, from: Pid, to: Pid)
        ensures lanes { IsLaid from.shard to.shard (drop 1 (letters_laid self.old.lanes from.shard to.shard)) self.old.lanes self.new.lanes }
        ensures kept { self.new ≡ record self.old { lanes = self.new.lanes; left = (from.shard, to.shard) } }
    {
        self.lanes.pop(from.shard, to.shard);
        self.left = (from.shard, to.shard);
    }

    /// After an event, where the state is that after it, its process lived before it or did not, and all clocks may have
    /// stood just below its stamp or not.
    pub(crate) fn after(
        self,
        alloc: Global,
        state: &State,
        lived: bool,
        begun: bool,
        stamped: Stamped,
    ) -> Result<Desks, AllocError>
        ensures { IfOk result (λ new. IsMovedOn state.now lived begun stamped self new) }
    {
        let Desks {
            mut lanes,
            mut clocks,
            mut seen,
            left,
            newest: _,
            begun: _,
        } = self;
        carry(alloc, &mut lanes, state, lived, stamped)?;
        clocks.set(stamped.desk, stamped.stamp)?;
        seen.note(stamped.event)?;
        Ok(Desks {
            lanes,
            clocks,
            seen,
            left,
            newest: stamped.stamp,
            begun,
        })
    }
}

/// Whether the receiver of what came, or who leaves, lives.
pub(crate) fn lived(state: &State, event: Event) -> bool
    ensures { result ≡ lived state.now.lives event }
{
    match event {
        Event::Came(_, to, _) => state.alive(to),
        Event::Left(pid, _) => state.alive(pid),
        _ => false,
    }
}

/// What came is on its way no more, and what the event sends is.
fn carry(
    alloc: Global,
    lanes: &mut Lanes,
    state: &State,
    lived: bool,
    stamped: Stamped,
) -> Result<(), AllocError>
    ensures { OnOk result (IsCarried stamped.stamp stamped.event (judge_sends state.now.lives lived stamped.event) lanes.old lanes.new) }
{
    let Stamped { stamp, event, .. } = stamped;
    match event {
        Event::Said(from, to, signal) => lanes.push(Letter {
            from,
            to,
            signal,
            stamp,
        }),
        Event::Came(from, to, _) => {
            lanes.pop(from.shard, to.shard);
            post(lanes, stamp, state.sent(alloc, lived, event)?)
        }
        Event::Left(_, _) => post(lanes, stamp, state.sent(alloc, lived, event)?),
        _ => Ok(()),
    }
}

/// These signals go, in order, with this stamp.
fn post(lanes: &mut Lanes, stamp: u64, sent: Flights) -> Result<(), AllocError>
    ensures { OnOk result ((d e : ℕ) → letters_laid lanes.new d e ≡ letters_laid lanes.old d e ++ lane d e (map (letter stamp) sent)) }
{
    let mut sent = sent;
    while let Some((from, to, signal)) = sent.front() {
        lanes.push(Letter {
            from,
            to,
            signal,
            stamp,
        })?;
        sent = sent.without_oldest(from, to);
    }
    Ok(())
}
