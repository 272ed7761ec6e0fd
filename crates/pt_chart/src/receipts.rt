//! The events by which the letters of a process arrived.

ghost use Rattle.std.specs.Prelude.{◌≡◌, ◌++◌, ◌∷◌, [], cond, drop, slice_get, IfOk, OnOk};
ghost use Rattle.pt_chart.specs.Chart.{is_receipt};
ghost use Rattle.pt_chart.specs.Mentioning.{mentions};
ghost use Rattle.pt_chart.specs.Receiving.{Awaits, RowIsQueued, IsQueuedBy, rows_queued};

use crate::mentions::event_at;
use indexmap::IndexMap;
use pt_events::{Event, Stamped};
use pt_signal::Pid;
use std::alloc::{AllocError, Global};
use std::collections::VecDeque;
use std::marker::Model;

/// Events by which letters arrived, by their places in the history, the next one first.
#[derive(Drop)]
struct Queue {
    places: VecDeque<usize>,
}

impl Model for Queue {
    ghost use Rattle.std.specs.Prelude.{ℕ, List};

    ghost Value = { List ℕ };

    ghost view = { λ q. q.places.items };
}

impl Queue {
    fn of(alloc: Global, at: usize) -> Result<Queue, AllocError>
        ensures { IfOk result (λ queue. queue ≡ at ∷ []) }
    {
        let mut places = VecDeque::new(alloc);
        places.push_back(at)?;
        Ok(Queue { places })
    }

    fn push(&mut self, at: usize) -> Result<(), AllocError>
        ensures { OnOk result (self.new ≡ self.old ++ at ∷ []) }
    {
        self.places.push_back(at)?;
        Ok(())
    }

    fn pop(&mut self) -> Option<usize>
        ensures first { result ≡ slice_get self.old 0 }
        ensures rest { self.new ≡ drop 1 self.old }
    {
        let first = self.places.get(0).copied();
        let _ = self.places.pop_front();
        first
    }
}

/// The events by which the letters of one process arrived, by receiver. A letter costs the same for any number of them.
#[derive(Drop)]
pub(crate) struct Receipts {
    alloc: Global,
    queues: IndexMap<Pid, Queue>,
}

impl Model for Receipts {
    ghost use Rattle.pt_chart.specs.Receiving.{QueuedRows};

    ghost Value = { QueuedRows };

    ghost view = { λ r. r.queues.entries };
}

impl Receipts {
    fn new(alloc: Global) -> Receipts
        ensures { result ≡ [] }
    {
        Receipts {
            alloc,
            queues: IndexMap::new(alloc),
        }
    }

    /// Takes out the event by which the next letter arrived at a receiver.
    pub(crate) fn pop(&mut self, to: Pid) -> Option<usize>
        ensures first { result ≡ slice_get (rows_queued self.old to) 0 }
        ensures rest { RowIsQueued to (drop 1 (rows_queued self.old to)) self.old self.new }
    {
        match self.queues.get_mut(&to) {
            Some(queue) => queue.pop(),
            None => None,
        }
    }

    /// Puts the event after those of the receiver.
    fn push(&mut self, to: Pid, at: usize) -> Result<(), AllocError>
        ensures { OnOk result (RowIsQueued to (rows_queued self.old to ++ at ∷ []) self.old self.new) }
    {
        match self.queues.get_mut(&to) {
            Some(queue) => queue.push(at),
            None => self.open(to, at),
        }
    }

    /// Adds a queue of one event.
    fn open(&mut self, to: Pid, at: usize) -> Result<(), AllocError>
        ensures { OnOk result (RowIsQueued to (at ∷ []) self.old self.new) }
    {
        let queue = Queue::of(self.alloc, at)?;
        self.queues.insert(to, queue)?;
        Ok(())
    }

    /// Puts the event after those of the receiver, if it is the receipt of a letter of this sender.
    fn note(&mut self, from: Pid, at: usize, event: Event) -> Result<(), AllocError>
        ensures { OnOk result (IsQueuedBy (λ q. cond (is_receipt from q event) (at ∷ []) []) self.old self.new) }
    {
        match event {
            Event::Came(sender, receiver, _) if from == sender => self.push(receiver, at),
            _ => Ok(()),
        }
    }
}

/// The events by which the letters of a process arrived, by receiver.
pub(crate) fn receipts_of(
    alloc: Global,
    events: &[Stamped],
    own: &[usize],
    from: Pid,
) -> Result<Receipts, AllocError>
    requires own { own.now ≡ mentions from events.now }
    ensures { IfOk result (λ r. Awaits events.now from [] r) }
{
    let mut receipts = Receipts::new(alloc);
    for k in 0..own.len() {
        let at = own[k];
        receipts.note(from, at, event_at(events, at))?;
    }
    Ok(receipts)
}
