//! What was before a journal, for clauses alone to read.
//!
//! A journal is read over a *start*: what each process was before its first event. A desk that is resumed after its
//! journal was taken writes into an empty one, over the start that the old journal left. An [`Origin`] says which start
//! that is. It takes no memory, since the desk's slots have what the processes hold.

ghost use Rattle.std.specs.Prelude.{◌≡◌, []};
ghost use Rattle.std.specs.Borrow.{ftrue};
ghost use Rattle.pt_events.specs.History.{Start};
ghost use Rattle.pt_events.specs.Journal.{events};
ghost use Rattle.pt_events.specs.Leaving.{start_after};
ghost use Rattle.pt_events.specs.Forgetting.{without_reasons};

use pt_events::Journal;
use std::marker::Model;

/// What each process was before the first event of a journal.
///
/// It has no bytes and owns nothing; a clause reads the start as `start`.
#[derive(Drop)]
pub struct Origin {
    pub ghost start: { Start },
}

impl Model for Origin {
    ghost also_owns = { λ _. ftrue };
}

// It owns nothing, so it may go to any thread, and any thread may share it.
unsafe impl Send for Origin {}

unsafe impl Sync for Origin {}

impl Origin {
    /// The origin before which nothing was.
    pub fn new() -> Origin
        ensures { result.start ≡ [] }
    {
        Origin {}
    }

    /// What the journal leaves: each process spawned before it or in it, as it is after the last event. Of an exited
    /// process it has the reason, and nothing that it held.
    pub fn left_behind(&self, journal: &Journal) -> Origin
        ensures { result.start ≡ start_after self.now.start (events journal.now.past) }
    {
        // the clause alone reads it
        let _ = journal;
        Origin {}
    }

    /// The same start, but that no reason is known of the processes that had exited.
    pub fn without_reasons(&self) -> Origin
        ensures { result.start ≡ without_reasons self.now.start }
    {
        Origin {}
    }
}
