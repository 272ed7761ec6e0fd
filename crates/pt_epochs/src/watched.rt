//! The work of a worker that knows when its run is over.

ghost use Rattle.std.specs.Prelude.{◌≡◌, ◌<◌, ◌≤◌, MatchBool, length};
ghost use Rattle.pt_epochs.specs.Watching.{WatchedDoes, WatchedHears, watch, watched_standing};

use crate::board::Board;
use crate::resting::{RestingWork, Rests};
use pt_desk::Desk;
use pt_node::{Standing, Task, Turned};
use std::marker::Model;

/// A work that is done once the journal of its desk has more than so many events. It does what the work within does.
#[derive(Drop)]
pub(crate) struct Watched<'a, W> {
    work: RestingWork<'a, W>,
    board: &'a Board,
    events: usize,
    /// Whether the journal had more events behind the last turn.
    long: bool,
    /// What the board said before the last step.
    busy: u64,
    /// The desk's clock before the last step.
    clock: u64,
}

/// Clauses see the work within, and when it is done: what it tells the board ends workers, and changes nothing.
impl<'a, W> Model for Watched<'a, W> {
    ghost use Rattle.pt_epochs.specs.Watching.{Watching};

    ghost Value = { Watching W };

    ghost view = { λ w. record { inner = w.work; events = w.events; long = w.long } };
}

impl<'a, W: Rests> Watched<'a, W> {
    /// The work of a worker with this board, until the journal has more than so many events.
    pub(crate) fn new(work: W, board: &'a Board, events: usize) -> Watched<'a, W>
        ensures { result ≡ watch events work }
    {
        Watched {
            work: RestingWork::new(work, board.bells()),
            board,
            events,
            long: false,
            busy: 0,
            clock: 0,
        }
    }

    /// The work within, as it is now.
    pub(crate) fn into_inner(self) -> W
        ensures { result ≡ self.entry.inner }
    {
        let Watched { work, .. } = self;
        work.into_work()
    }

    /// Tells the board what came of a step and a turn, which may end all workers.
    fn tell(&self, desk: &Desk, turned: Turned) {
        if self.long || turned.stopped.is_some() {
            self.board.bells().stop();
        } else if turned.handled == 0
            && desk.clock() == self.clock
            && desk.pending() == 0
            && !self.work.work().has_work()
        {
            self.board.rested(desk.number(), self.busy);
        } else {
            self.board.worked(desk.number());
        }
    }
}

/// Whether the journal of a desk has more than so many events.
pub(crate) fn is_longer(desk: &Desk, events: usize) -> bool
    ensures { MatchBool result (events < length desk.now.shard.journal) (length desk.now.shard.journal ≤ events) }
{
    desk.journal().events().len() > events
}

impl<'a, W: Rests> Task for Watched<'a, W> {
    ghost does = { WatchedDoes W.Work.does };

    ghost hears = { WatchedHears W.Work.hears };

    ghost standing = { watched_standing };

    fn step(&mut self, desk: &mut Desk) {
        self.busy = self.board.busy();
        self.clock = desk.clock();
        self.work.step(desk);
    }

    fn turned(&mut self, desk: &Desk, turned: Turned) {
        self.work.turned(desk, turned);
        self.long = is_longer(desk, self.events);
        self.tell(desk, turned);
    }

    fn standing(&self) -> Standing {
        if self.long {
            Standing::Done
        } else {
            Standing::Going
        }
    }
}
