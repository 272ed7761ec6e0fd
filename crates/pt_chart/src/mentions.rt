//! The events that name each process, and its places in a list of processes. So a process is followed through its own
//! events alone, and its column is found at once.

ghost use Rattle.std.specs.Prelude.{◌<◌, length, slice_index_or, ◌≡◌, ◌++◌, ◌∷◌, [], cond, IfOk, OnOk};
ghost use Rattle.std.specs.List.{list_any};
ghost use Rattle.pt_signal.specs.Values.{same_pid};
ghost use Rattle.pt_chart.specs.Chart.{named_columns};
ghost use Rattle.pt_chart.specs.Mentioning.{AreMentions, ArePlaces, is_mentioned, listed};
ghost use Rattle.pt_chart.specs.Receiving.{RowIsQueued, IsQueuedBy, rows_queued};

use indexmap::IndexMap;
use pt_events::{Event, Stamped};
use pt_signal::Pid;
use std::alloc::{AllocError, Global};
use std::marker::Model;

/// Places in a list, in order.
#[derive(Drop)]
struct Places {
    numbers: Vec<usize>,
}

impl Model for Places {
    ghost use Rattle.std.specs.Prelude.{ℕ, List};

    ghost Value = { List ℕ };

    ghost view = { λ p. p.numbers.items };
}

impl Places {
    fn of(alloc: Global, at: usize) -> Result<Places, AllocError>
        ensures { IfOk result (λ places. places ≡ at ∷ []) }
    {
        let mut numbers = Vec::new(alloc);
        numbers.push(at)?;
        Ok(Places { numbers })
    }

    fn push(&mut self, at: usize) -> Result<(), AllocError>
        ensures { OnOk result (self.new ≡ self.old ++ at ∷ []) }
    {
        self.numbers.push(at)?;
        Ok(())
    }

    fn as_slice(&self) -> &[usize]
        ensures { result.now ≡ self.now }
    {
        self.numbers.as_slice()
    }
}

/// The places of a list that name each process: events of a history, or processes.
#[derive(Drop)]
pub(crate) struct Mentions {
    alloc: Global,
    places: IndexMap<Pid, Places>,
}

impl Model for Mentions {
    ghost use Rattle.pt_chart.specs.Receiving.{QueuedRows};

    ghost Value = { QueuedRows };

    ghost view = { λ m. m.places.entries };
}

impl Mentions {
    fn new(alloc: Global) -> Mentions
        ensures { result ≡ [] }
    {
        Mentions {
            alloc,
            places: IndexMap::new(alloc),
        }
    }

    /// The places that name a process, in order.
    pub(crate) fn of(&self, pid: Pid) -> &[usize]
        ensures { result.now ≡ rows_queued self.now pid }
    {
        match self.places.get(&pid) {
            Some(places) => places.as_slice(),
            None => &[],
        }
    }

    /// Notes an event for each process that it names.
    fn note(&mut self, at: usize, event: Event) -> Result<(), AllocError>
        ensures { OnOk result (IsQueuedBy (λ q. cond (is_mentioned q event) (at ∷ []) []) self.old self.new) }
    {
        match named_by(event) {
            (Some(first), second) => self.note_both(first, second, at),
            (None, pid) => self.note_one(pid, at),
        }
    }

    /// Notes an event for two processes, once if they are the same.
    fn note_both(&mut self, first: Pid, second: Pid, at: usize) -> Result<(), AllocError>
        ensures { OnOk result (IsQueuedBy
            (λ q. cond (list_any (same_pid q) (first ∷ second ∷ [])) (at ∷ []) []) self.old self.new) }
    {
        self.note_one(first, at)?;
        if first == second {
            return Ok(());
        }
        self.note_one(second, at)
    }

    fn note_one(&mut self, pid: Pid, at: usize) -> Result<(), AllocError>
        ensures { OnOk result
            (IsQueuedBy (λ q. cond (list_any (same_pid q) (pid ∷ [])) (at ∷ []) []) self.old self.new) }
    {
        self.push(pid, at)
    }

    /// Puts a place after those of the process.
    fn push(&mut self, pid: Pid, at: usize) -> Result<(), AllocError>
        ensures { OnOk result (RowIsQueued pid (rows_queued self.old pid ++ at ∷ []) self.old self.new) }
    {
        match self.places.get_mut(&pid) {
            Some(places) => places.push(at),
            None => self.open(pid, at),
        }
    }

    /// Adds a process with one place.
    fn open(&mut self, pid: Pid, at: usize) -> Result<(), AllocError>
        ensures { OnOk result (RowIsQueued pid (at ∷ []) self.old self.new) }
    {
        let places = Places::of(self.alloc, at)?;
        self.places.insert(pid, places)?;
        Ok(())
    }
}

/// The events that name each process.
pub(crate) fn mentions_of(alloc: Global, events: &[Stamped]) -> Result<Mentions, AllocError>
    ensures { IfOk result (λ m. AreMentions events.now m) }
{
    let mut mentions = Mentions::new(alloc);
    for at in 0..events.len() {
        mentions.note(at, events[at].event)?;
    }
    Ok(mentions)
}

/// The places of each process in a list of processes.
pub(crate) fn places_of(alloc: Global, pids: &[Pid]) -> Result<Mentions, AllocError>
    ensures { IfOk result (λ m. ArePlaces pids.now m) }
{
    let mut places = Mentions::new(alloc);
    for at in 0..pids.len() {
        places.push(pids[at], at)?;
    }
    Ok(places)
}

/// The processes that an event names: its one process, or the first of two and the second.
pub(crate) fn named_by(event: Event) -> (Option<Pid>, Pid)
    ensures { listed result.0 result.1 ≡ named_columns event }
{
    match event {
        Event::Born(pid, parent, _) => (parent, pid),
        Event::Said(from, to, _) | Event::Came(from, to, _) => (Some(from), to),
        Event::Took(pid, _, _)
        | Event::Flag(pid, _)
        | Event::Left(pid, _)
        | Event::Refused(pid, _) => (None, pid),
    }
}

/// The event at a place of the history.
pub(crate) fn event_at(events: &[Stamped], at: usize) -> Event
    requires { at < length events.now }
    ensures { (other : Stamped) → result ≡ (slice_index_or events.now at other).event }
{
    events[at].event
}
