//! The events of one desk.

ghost use Rattle.std.specs.Prelude.{◌≡◌, ◌+◌, ◌<◌, [], ◌∷◌, length, reverse, OnOk, IfOk, IfErr, OnErr};
ghost use Rattle.std.specs.Bool.{MatchBool};
ghost use Rattle.pt_events.specs.JournalState.{IsNewer, IsInOrder, is_next};
ghost use Rattle.pt_events.specs.Since.{newer_than};

use crate::Stamped;
use std::alloc::{AllocError, Global};
use std::marker::Model;

/// The stamped events of one desk, with strictly rising stamps.
///
/// Contracts see them newest first, and beside them how many more are sure to find room.
#[derive(Drop)]
pub struct Journal {
    desk: u8,
    events: Vec<Stamped>,
}

impl Model for Journal {
    ghost use Rattle.std.specs.Prelude.{◌-◌, reverse, vec_len, vec_capacity};
    ghost use Rattle.pt_events.specs.JournalState.{JournalState, IsInOrder};

    ghost Value = { JournalState };

    ghost view = { λ j. record {
      desk = j.desk;
      past = reverse j.events.items;
      room = vec_capacity j.events - vec_len j.events;
    } };

    ghost invariant = { λ j. IsInOrder j.desk (reverse j.events.items) };
}

impl Journal {
    /// The journal of a desk on which nothing has happened.
    pub fn new(alloc: Global, desk: u8) -> Journal
        ensures desk { result.desk ≡ desk }
        ensures past { result.past ≡ [] }
    {
        Journal {
            desk,
            events: Vec::new(alloc),
        }
    }

    /// The journal of these events, oldest first. Hands them back exactly where one is another desk's, or their
    /// stamps do not strictly rise.
    pub fn of(desk: u8, events: Vec<Stamped>) -> Result<Journal, Vec<Stamped>>
        ensures journal { IfOk result (λ journal. (journal.desk ≡ desk) × (journal.past ≡ reverse events.items)) }
        ensures order { OnOk result (IsInOrder desk (reverse events.items)) }
        ensures back { IfErr result (λ back. back ≡ events) }
        ensures disorder { OnErr result (¬ IsInOrder desk (reverse events.items)) }
    {
        if is_in_order(desk, events.as_slice()) {
            Ok(Journal { desk, events })
        } else {
            Err(events)
        }
    }

    /// The number of the desk.
    pub fn desk(&self) -> u8
        ensures { result ≡ self.now.desk }
    {
        self.desk
    }

    /// The events, oldest first.
    pub fn events(&self) -> &[Stamped]
        ensures events { result.now ≡ reverse self.now.past }
        ensures order { IsInOrder self.now.desk self.now.past }
    {
        self.events.as_slice()
    }

    /// The events stamped above this stamp, oldest first: what happened since then. It is found by halves, so a program
    /// that looks again from the newest stamp that it saw pays for the new events alone.
    pub fn since(&self, stamp: u64) -> &[Stamped]
        ensures { result.now ≡ newer_than stamp (reverse self.now.past) }
    {
        let events = self.events.as_slice();
        let seen = events.partition_point(|event| event.stamp <= stamp);
        &events[seen..]
    }

    /// Makes room for one more event, so that the next `push_reserved` cannot fail. After a refusal the journal
    /// is as before.
    pub fn reserve(&mut self) -> Result<(), AllocError>
        ensures desk { self.new.desk ≡ self.old.desk }
        ensures past { self.new.past ≡ self.old.past }
        ensures room { OnOk result (0 < self.new.room) }
    {
        self.events.reserve(1)
    }

    /// Adds the newest event, for which there is room.
    pub fn push_reserved(&mut self, event: Stamped)
        requires room { 0 < self.old.room }
        requires here { event.desk ≡ self.old.desk }
        requires newer { IsNewer event self.old.past }
        ensures desk { self.new.desk ≡ self.old.desk }
        ensures past { self.new.past ≡ event ∷ self.old.past }
    {
        self.events.push_reserved(event);
    }

    /// Forgets all events, and keeps their memory as room for as many.
    pub fn clear(&mut self)
        ensures desk { self.new.desk ≡ self.old.desk }
        ensures past { self.new.past ≡ [] }
        ensures room { self.new.room ≡ self.old.room + length self.old.past }
    {
        self.events.clear();
    }
}

/// Whether the events, oldest first, are the desk's and their stamps strictly rise.
fn is_in_order(desk: u8, events: &[Stamped]) -> bool
    ensures { MatchBool result (IsInOrder desk (reverse events.now)) (¬ IsInOrder desk (reverse events.now)) }
{
    let mut newest = None;
    for event in events {
        if !is_next(desk, newest, event) {
            return false;
        }
        newest = Some(event.stamp);
    }
    true
}

/// Whether the event is the desk's and stamped above the newest one.
fn is_next(desk: u8, newest: Option<u64>, event: &Stamped) -> bool
    ensures { result ≡ is_next desk newest event.now }
{
    let rises = match newest {
        Some(stamp) => stamp < event.stamp,
        None => true,
    };
    rises && event.desk == desk
}
