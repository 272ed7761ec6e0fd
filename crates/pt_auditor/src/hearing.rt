//! A history read event by event.

ghost use Rattle.std.specs.Prelude.{◌≡◌, ◌+◌, ◌-◌, ◌^◌, [], None, IfOk, min, max, slice_get};
ghost use Rattle.std.specs.Map.{keys_of};
ghost use Rattle.std.specs.Option.{option_map};
ghost use Rattle.pt_judge.specs.Judging.{cause, known_state, now_is};
ghost use Rattle.pt_auditor.specs.Hearings.{Heard, IsHeard, Hears, TellsLetter, EndsHearing, IsSunk, IsWithout, Objects, follows};
ghost use Rattle.pt_auditor.specs.Hearings.{IsAfterEvent, strange};
ghost use Rattle.pt_auditor.specs.Foreigners.{first_foreign, no_node, no_left, IsOrigin};
ghost use Rattle.pt_auditor.specs.Standings.{StandingIsTrue, standing_of, waiting_of};

use crate::against::contradiction;
use crate::desks::{Desks, lived};
use crate::foreign::{no_left, no_node};
use crate::{Foreign, NoNode, Objection, Standing};
use pt_events::{Event, Stamped};
use pt_judge::State;
use pt_signal::{Letter, Pid};
use pt_texts::LeftOver;
use std::alloc::{AllocError, Global};

/// A history as far as it was read: its events, and then the letters left over.
///
/// Contracts speak by `Heard` of all that was read, which no hearing keeps. So a caller names what it has passed to a
/// hearing, and each call says what was read after it.
pub struct Hearing {
    pub(crate) state: State,
    /// The event read last.
    pub(crate) last: Option<Stamped>,
    pub(crate) events: u64,
    /// One more than the greatest desk of an event.
    pub(crate) desks: u16,
    pub(crate) letters: u64,
    /// What the desks of a node have, as long as a node prints the lines.
    pub(crate) node: Desks,
    /// The first line that no node prints.
    pub(crate) foreign: Option<Foreign>,
    /// The last event of the rest from which the hearing went on, if it did.
    pub(crate) since: Option<Stamped>,
}

// By hand, so that each drop of it is a call: a derived drop is proved field by field at each place that drops a value.
impl Drop for Hearing {
    fn drop(self) {
        let Hearing {
            state,
            last: _,
            events: _,
            desks: _,
            letters: _,
            node: _,
            foreign: _,
            since: _,
        } = self;
        let_go(state);
    }
}

/// Drops the state. What its drop does is so proved once, and not at each place that drops a state.
pub(crate) fn let_go(_state: State) {}

/// The verdict on a legal history. Counts stop at the greatest number of 64 bits.
#[derive(Clone, Copy, Debug, PartialEq, Eq)]
pub struct Verdict {
    pub events: u64,
    /// One more than the greatest number of a desk that has an event.
    pub desks: u16,
    /// The number of letters in flight at the end.
    pub letters: u64,
    /// The first line that no node prints, if there is one.
    pub foreign: Option<Foreign>,
}

/// One more, or the greatest number.
fn one_more(count: u64) -> u64
    ensures { result ≡ min (count + 1) (2 ^ 64 - 1) }
{
    count.saturating_add(1)
}

/// The least number of desks, beside those.
fn desks_with(desks: u16, desk: u8) -> u16
    ensures { result ≡ max desks (desk + 1) }
{
    let desk = desk as u16;
    if desk < desks { desks } else { desk + 1 }
}

/// Whether the second comes after the first by its stamp and its desk.
fn follows(last: Stamped, stamped: Stamped) -> bool
    ensures { result ≡ follows last stamped }
{
    last.stamp < stamped.stamp || (last.stamp == stamped.stamp && last.desk < stamped.desk)
}

/// The event read last, if the next does not follow it.
fn sunk(last: Option<Stamped>, stamped: Stamped) -> Option<Stamped>
    ensures { IsSunk last stamped result }
{
    match last {
        Some(last) => {
            if follows(last, stamped) {
                None
            } else {
                Some(last)
            }
        }
        None => None,
    }
}

/// Why the event may not come next, if it may not.
fn objection(hearing: &Hearing, stamped: Stamped) -> Option<Objection>
    ensures objects { (heard : Heard) → IsHeard heard hearing.now → Objects heard stamped result }
    ensures free { result ≡ None → cause (known_state hearing.now.state) stamped.event ≡ None }
    ensures own { result ≡ None → strange hearing.now stamped ≡ None }
{
    if hearing.letters > 0 {
        return Some(Objection::Behind);
    }
    if let Some(last) = sunk(hearing.last, stamped) {
        return Some(Objection::Sinks(last));
    }
    match hearing.state.cause(stamped.event) {
        Some(cause) => {
            let against = contradiction(&hearing.state, stamped.event, cause);
            Some(Objection::MayNot(cause, against))
        }
        None => match strange(hearing, stamped) {
            Some(why) => Some(Objection::OfNoNode(why)),
            None => None,
        },
    }
}

/// Why no node prints the event, if the hearing went on from a rest.
fn strange(hearing: &Hearing, stamped: Stamped) -> Option<NoNode>
    ensures { result ≡ strange hearing.now stamped }
{
    match hearing.since {
        Some(_) => no_node(&hearing.node, &hearing.state, stamped),
        None => None,
    }
}

/// The first line that no node prints, if this event is read next.
fn foreign_with(hearing: &Hearing, stamped: Stamped) -> Option<Foreign>
    ensures { result ≡ first_foreign hearing.now.foreign (no_node hearing.now.node hearing.now.state stamped)
        (min (hearing.now.events + 1) (2 ^ 64 - 1)) }
{
    let why = no_node(&hearing.node, &hearing.state, stamped);
    first_foreign(hearing.foreign, why, one_more(hearing.events))
}

/// The first line that no node prints, if this letter left over is read next.
fn foreign_left(hearing: &Hearing, left: LeftOver) -> Option<Foreign>
    ensures { result ≡ first_foreign hearing.now.foreign (no_left hearing.now.node left)
        (min (min (hearing.now.events + hearing.now.letters) (2 ^ 64 - 1) + 1) (2 ^ 64 - 1)) }
{
    let lines = hearing.events.saturating_add(hearing.letters);
    first_foreign(
        hearing.foreign,
        no_left(&hearing.node, left),
        one_more(lines),
    )
}

/// The first line that no node prints, if the next one has this number and maybe a reason.
fn first_foreign(before: Option<Foreign>, why: Option<NoNode>, line: u64) -> Option<Foreign>
    ensures { result ≡ first_foreign before why line }
{
    match (before, why) {
        (Some(foreign), _) => Some(foreign),
        (None, Some(why)) => Some(Foreign { line, why }),
        (None, None) => None,
    }
}

/// The state, and what the desks of a node have, after an event that may come. If no node prints it, the desks stay as
/// they are, as nothing reads them after it.
fn move_on(
    alloc: Global,
    state: State,
    node: Desks,
    stamped: Stamped,
    is_of_node: bool,
) -> Result<(State, Desks), AllocError>
    requires { cause (known_state state) stamped.event ≡ None }
    ensures { IfOk result (λ new. IsAfterEvent is_of_node stamped state node new.0 new.1) }
{
    let lived = lived(&state, stamped.event);
    let begun = node.may_begin(&state, stamped.stamp);
    let state = state.after(alloc, stamped.event)?;
    if !is_of_node {
        return Ok((state, node));
    }
    match node.after(alloc, &state, lived, begun, stamped) {
        Ok(node) => Ok((state, node)),
        Err(error) => {
            let_go(state);
            Err(error)
        }
    }
}

impl Hearing {
    /// A hearing that has read nothing.
    pub fn new(alloc: Global) -> Hearing
        ensures { IsHeard (record { events = []; left = []; since = None }) result }
    {
        Hearing {
            state: State::new(alloc),
            last: None,
            events: 0,
            desks: 0,
            letters: 0,
            node: Desks::new(alloc),
            foreign: None,
            since: None,
        }
    }

    /// What the judge knows after the events that were read, without the letters that were.
    pub fn state(&self) -> &State
        ensures { result.now ≡ self.now.state }
    {
        &self.state
    }

    /// The state, and what the desks of a node have.
    pub(crate) fn into_parts(self) -> (State, Desks)
        ensures { result ≡ (self.state, self.node) }
    {
        let Hearing {
            state,
            last: _,
            events: _,
            desks: _,
            letters: _,
            node,
            foreign: _,
            since: _,
        } = self;
        (state, node)
    }

    /// Reads the next event. Fails with the first of these that holds:
    ///
    /// - [`Objection::Behind`]: a letter left over was read before.
    /// - [`Objection::Sinks`]: it does not follow the event before by stamp and desk.
    /// - [`Objection::MayNot`]: it may not come next.
    /// - [`Objection::OfNoNode`]: the hearing went on from a rest of at least one event, and no node prints this one.
    /// - [`Objection::Memory`]: there is no memory.
    ///
    /// If it fails, the hearing is dropped.
    pub fn hear(self, alloc: Global, stamped: Stamped) -> Result<Hearing, Objection>
        ensures { (heard : Heard) → IsHeard heard self → Hears heard stamped result }
    {
        if let Some(objection) = objection(&self, stamped) {
            return Err(objection);
        }
        let foreign = foreign_with(&self, stamped);
        let Hearing {
            state,
            last: _,
            events,
            desks,
            letters: _,
            node,
            foreign: _,
            since,
        } = self;
        match move_on(alloc, state, node, stamped, foreign.is_none()) {
            Ok((state, node)) => Ok(Hearing {
                state,
                last: Some(stamped),
                events: one_more(events),
                desks: desks_with(desks, stamped.desk),
                letters: 0,
                node,
                foreign,
                since,
            }),
            Err(_) => Err(Objection::Memory),
        }
    }

    /// Reads the next letter left over. Fails with [`Objection::OtherDesks`] if its desks are not those of its sender
    /// and its receiver. Fails with [`Objection::OtherLetter`] if it is not the oldest letter in flight between the two
    /// that was not read before.
    pub fn tell(self, left: LeftOver) -> Result<Hearing, Objection>
        ensures { (heard : Heard) → IsHeard heard self → TellsLetter heard left result }
    {
        let Letter {
            from,
            to,
            signal,
            ..
        } = left.letter;
        if left.from_desk != from.shard || left.to_desk != to.shard {
            return Err(Objection::OtherDesks);
        }
        match self.state.cause(Event::Came(from, to, signal)) {
            Some(_) => Err(Objection::OtherLetter(self.state.oldest(from, to))),
            None => Ok(self.without(left)),
        }
    }

    /// Removes a letter left over, the oldest in flight between its two processes.
    fn without(self, left: LeftOver) -> Hearing
        ensures { IsWithout left self result }
    {
        let foreign = foreign_left(&self, left);
        let Letter { from, to, .. } = left.letter;
        let Hearing {
            state,
            last,
            events,
            desks,
            letters,
            mut node,
            foreign: _,
            since,
        } = self;
        node.drop_first(from, to);
        Hearing {
            state: state.without_oldest(from, to),
            last,
            events,
            desks,
            letters: one_more(letters),
            node,
            foreign,
            since,
        }
    }

    /// What became of the process that was spawned as the one with this number, counted from 0, by the events read.
    pub fn standing(&self, number: usize) -> Option<Standing>
        ensures born { option_map (λ s. s.pid) result ≡ slice_get (keys_of self.now.state.lives) number }
        ensures told { (heard : Heard) → IsHeard heard self.now → StandingIsTrue heard result }
    {
        match self.state.born(number) {
            Some(pid) => Some(self.standing_of(pid)),
            None => None,
        }
    }

    fn standing_of(&self, pid: Pid) -> Standing
        ensures { result ≡ standing_of pid (now_is self.now.state pid) }
    {
        Standing {
            pid,
            ended: self.state.ended(pid),
            waiting: self.waiting(pid),
        }
    }

    fn waiting(&self, pid: Pid) -> u64
        ensures { result ≡ waiting_of (now_is self.now.state pid) }
    {
        match self.state.waiting(pid) {
            Some(items) => items.len() as u64,
            None => 0,
        }
    }

    /// The first line that no node prints, if one was read.
    pub fn foreign(&self) -> Option<Foreign>
        ensures { (heard : Heard) → IsHeard heard self.now → IsOrigin heard.events heard.left result }
    {
        self.foreign
    }

    /// Returns the verdict. Fails with [`Objection::Untold`] if a letter is in flight that was not read, and names the
    /// oldest.
    pub fn end(&self) -> Result<Verdict, Objection>
        ensures { (heard : Heard) → IsHeard heard self.now → EndsHearing heard result }
    {
        match self.state.front() {
            Some((from, to, signal)) => Err(Objection::Untold(from, to, signal)),
            None => Ok(Verdict {
                events: self.events,
                desks: self.desks,
                letters: self.letters,
                foreign: self.foreign,
            }),
        }
    }
}
