//! The signals on their way.

ghost use Rattle.std.specs.Prelude.{◌≡◌, ◌++◌, ◌∷◌, [], map, length, slice_get, IfOk};
ghost use Rattle.std.specs.List.{find};
ghost use Rattle.std.specs.Option.{option_map};
ghost use Rattle.pt_signal.specs.declared.signal.Signal.TheVariants.{LinkExit, Down, Demonitor};
ghost use Rattle.pt_signal.specs.Values.{without_first};
ghost use Rattle.pt_signal.specs.Process.{sent, estate, bounce};
ghost use Rattle.pt_events.specs.History.{is_between, landed};
ghost use Rattle.pt_judge.specs.Judging.{answered, owed, judge_sends};

use crate::judging::holdings::Holdings;
use crate::judging::lives::{Lives, holdings, reason};
use crate::judging::queues::Queues;
use pt_events::Event;
use pt_signal::{Ids, Pid, Reason, Ref, Signal};
use std::alloc::{AllocError, Global};
use std::collections::BTreeMap;
use std::marker::Model;

/// One signal on its way.
#[derive(Drop)]
struct Flight {
    from: Pid,
    to: Pid,
    signal: Signal,
}

impl Model for Flight {
    ghost use Rattle.pt_signal.specs.Process.{Sent, sent};

    ghost Value = { Sent };

    ghost view = { λ f. sent f.from f.to f.signal };
}

impl Flight {
    fn signal(&self) -> Signal
        ensures { result ≡ self.now.signal }
    {
        self.signal
    }

    fn parts(&self) -> (Pid, Pid, Signal)
        ensures { sent result.0 result.1 result.2 ≡ self.now }
    {
        (self.from, self.to, self.signal)
    }
}

/// Signals on their way, in the order in which they were sent.
///
/// Each has a number, above those of all that were sent before it. They stand by number, and the numbers of each two
/// processes in a queue of their own, so that the oldest of two is found without a look at any other.
#[derive(Drop)]
pub struct Flights {
    letters: BTreeMap<u64, Flight>,
    queues: Queues,
    /// The number of the next letter.
    next: u64,
}

impl Model for Flights {
    ghost use Rattle.std.specs.Prelude.{List};
    ghost use Rattle.std.specs.Map.{values_of};
    ghost use Rattle.pt_signal.specs.Process.{Sent};
    ghost use Rattle.pt_judge.specs.Filing.{AreFiled};

    ghost Value = { List Sent };

    ghost view = { λ f. values_of f.letters.entries };

    ghost invariant = { λ f. AreFiled f.letters.entries f.queues f.next };
}

impl Flights {
    /// Nothing is on its way.
    pub(crate) fn new(alloc: Global) -> Flights
        ensures { result ≡ [] }
    {
        Flights {
            letters: BTreeMap::new(alloc),
            queues: Queues::new(alloc),
            next: 0,
        }
    }

    /// How many there are.
    pub(crate) fn len(&self) -> u64
        ensures { result ≡ length self.now }
    {
        self.letters.len() as u64
    }

    /// The oldest signal on its way from the one to the other.
    pub(crate) fn oldest(&self, from: Pid, to: Pid) -> Option<Signal>
        ensures { result ≡ option_map (λ flight. flight.signal) (find (is_between from to) self.now) }
    {
        match self.queues.first(from, to) {
            Some(number) => match self.letters.get(&number) {
                Some(flight) => Some(flight.signal()),
                None => None,
            },
            None => None,
        }
    }

    /// The sender, the receiver and the signal of what has been on its way for longest.
    pub fn front(&self) -> Option<(Pid, Pid, Signal)>
        ensures { option_map (λ flight. sent flight.0 flight.1 flight.2) result ≡ slice_get self.now 0 }
    {
        match self.letters.first_key_value() {
            Some((_, flight)) => Some(flight.parts()),
            None => None,
        }
    }

    /// The oldest signal from the one to the other is on its way no more.
    pub fn without_oldest(self, from: Pid, to: Pid) -> Flights
        ensures { result ≡ without_first (is_between from to) self }
    {
        let Flights {
            mut letters,
            mut queues,
            next,
        } = self;
        if let Some(number) = queues.first(from, to) {
            let _ = letters.remove(&number);
            queues.pop(from, to);
        }
        Flights {
            letters,
            queues,
            next,
        }
    }

    /// What came is on its way no more.
    pub(crate) fn landed(self, event: Event) -> Flights
        ensures { result ≡ landed event self }
    {
        match event {
            Event::Came(from, to, _) => self.without_oldest(from, to),
            _ => self,
        }
    }

    /// One signal more is on its way. After 2 ^ 64 - 1 of them memory is wanting.
    fn with(self, from: Pid, to: Pid, signal: Signal) -> Result<Flights, AllocError>
        ensures { IfOk result (λ flights. flights ≡ self ++ sent from to signal ∷ []) }
    {
        let Flights {
            mut letters,
            mut queues,
            next,
        } = self;
        if next >= u64::MAX {
            return Err(AllocError);
        }
        letters.insert(next, Flight { from, to, signal })?;
        queues.push(from, to, next)?;
        Ok(Flights {
            letters,
            queues,
            next: next + 1,
        })
    }

    fn with_exits(
        self,
        me: Pid,
        links: &[(Pid, Ids)],
        reason: Reason,
    ) -> Result<Flights, AllocError>
        ensures { IfOk result (λ flights. flights ≡ self ++ map (λ e. sent me e.0 (LinkExit e.1 reason)) links.now) }
    {
        let mut flights = self;
        for place in 0..links.len() {
            let (peer, ids) = links[place];
            flights = flights.with(me, peer, Signal::LinkExit(ids, reason))?;
        }
        Ok(flights)
    }

    fn with_downs(self, me: Pid, kept: &[(Ref, Pid)], reason: Reason) -> Result<Flights, AllocError>
        ensures { IfOk result (λ flights. flights ≡ self ++ map (λ k. sent me k.1 (Down k.0 reason)) kept.now) }
    {
        let mut flights = self;
        for place in 0..kept.len() {
            let (monitor, watcher) = kept[place];
            flights = flights.with(me, watcher, Signal::Down(monitor, reason))?;
        }
        Ok(flights)
    }

    fn with_demonitors(self, me: Pid, watching: &[(Ref, Pid)]) -> Result<Flights, AllocError>
        ensures { IfOk result (λ flights. flights ≡ self ++ map (λ m. sent me m.1 (Demonitor m.0)) watching.now) }
    {
        let mut flights = self;
        for place in 0..watching.len() {
            let (monitor, target) = watching[place];
            flights = flights.with(me, target, Signal::Demonitor(monitor))?;
        }
        Ok(flights)
    }

    /// Sends what a process owes at its end.
    fn with_estate(self, me: Pid, held: &Holdings, reason: Reason) -> Result<Flights, AllocError>
        ensures { IfOk result (λ flights. flights ≡ self ++ estate me held.now reason) }
    {
        let flights = self.with_exits(me, held.links(), reason)?;
        let flights = flights.with_downs(me, held.kept(), reason)?;
        Ok(flights.with_demonitors(me, held.watching())?)
    }

    /// Sends what the process owes, if it has ended.
    fn with_end(self, lives: &Lives, pid: Pid) -> Result<Flights, AllocError>
        ensures { IfOk result (λ flights. flights ≡ self ++ owed lives.now pid) }
    {
        match (reason(lives, pid), holdings(lives, pid)) {
            (Some(reason), Some(held)) => self.with_estate(pid, held, reason),
            _ => Ok(self),
        }
    }

    /// Sends what goes back from a process that is not alive.
    fn with_return(self, me: Pid, from: Pid, signal: Signal) -> Result<Flights, AllocError>
        ensures { IfOk result (λ flights. flights ≡ self ++ bounce me from signal) }
    {
        match signal.answer_of_dead() {
            Some(answer) => self.with(me, from, answer),
            None => Ok(self),
        }
    }

    /// Sends what a live process answers.
    fn with_answer(self, me: Pid, from: Pid, signal: Signal) -> Result<Flights, AllocError>
        ensures { IfOk result (λ flights. flights ≡ self ++ answered me from signal) }
    {
        match signal {
            Signal::AliveAsk(question) => self.with(me, from, Signal::AliveSay(question, true)),
            _ => Ok(self),
        }
    }

    /// Sends what a receipt calls for, of a process that lived before it, where the lives are those after it.
    fn with_receipt(
        self,
        lives: &Lives,
        me: Pid,
        from: Pid,
        signal: Signal,
    ) -> Result<Flights, AllocError>
        ensures { IfOk result (λ flights. flights ≡ self ++ (answered me from signal ++ owed lives.now me)) }
    {
        let flights = self.with_answer(me, from, signal)?;
        Ok(flights.with_end(lives, me)?)
    }

    /// Sends what the event sends, where the lives are those after it, and its process lived before it or did not.
    pub(crate) fn dispatched(
        self,
        lives: &Lives,
        lived: bool,
        event: Event,
    ) -> Result<Flights, AllocError>
        ensures { IfOk result (λ flights. flights ≡ self ++ judge_sends lives.now lived event) }
    {
        match event {
            Event::Said(from, to, signal) => self.with(from, to, signal),
            Event::Came(from, to, signal) if !lived => self.with_return(to, from, signal),
            Event::Came(from, to, signal) => self.with_receipt(lives, to, from, signal),
            Event::Left(pid, _) if lived => self.with_end(lives, pid),
            _ => Ok(self),
        }
    }
}
