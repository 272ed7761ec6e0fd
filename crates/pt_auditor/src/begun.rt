//! What an event changes: told from the state before it, and the signals from the state after it.

ghost use Rattle.std.specs.Prelude.{◌≡◌, ◌++◌, IfOk, OnOk, map, option_to_list, position};
ghost use Rattle.pt_signal.specs.Values.{fits};
ghost use Rattle.pt_signal.specs.Process.{verdict, Sent};
ghost use Rattle.pt_events.specs.History.{state_of};
ghost use Rattle.pt_judge.specs.Judging.{JudgeState, now_is, IsStep};
ghost use Rattle.pt_auditor.specs.Changes.{ids_entered, cut_changes, obeyed, say_changes, receipt_changes, both, dids};
ghost use Rattle.pt_auditor.specs.Changes.{birth_changes, take_changes, held_changes, event_changes, did_send, IsToldBefore};

use crate::change::{Change, Did};
use crate::desks::lived;
use pt_events::Event;
use pt_judge::{Flights, State};
use pt_signal::{Ids, Item, LinkId, Pick, Pid, Reason, Signal};
use std::alloc::{AllocError, Global};

/// An event whose changes are told from the state before it, all but the signals that it sends.
#[derive(Drop)]
pub struct Begun {
    event: Event,
    /// Whether the receiver of what comes, or the process that exits, was alive.
    lived: bool,
    then: Vec<Did>,
}

/// At most two changes of a process, in order.
#[derive(Clone, Copy)]
struct Both(Option<Change>, Option<Change>);

/// The ids of a link, after one more entered.
fn ids_with(held: Option<Ids>, id: LinkId) -> Ids
    ensures { result ≡ ids_entered held id }
{
    match held {
        Some(ids) => ids.and(id),
        None => Ids::of(id),
    }
}

/// What it changes that the named ids leave.
fn cut(held: Option<Ids>, peer: Pid, named: Ids) -> Option<Change>
    ensures { option_to_list result ≡ cut_changes held peer named }
{
    match held {
        Some(ids) => match ids.without(named) {
            Some(left) => Some(Change::Link(peer, left)),
            None => Some(Change::Unlink(peer)),
        },
        None => None,
    }
}

/// What sending the signal changes of the sender.
fn said(state: &State, from: Pid, to: Pid, signal: Signal) -> Option<Change>
    ensures { option_to_list result ≡ say_changes (state_of (now_is state.now from)) to signal }
{
    match signal {
        Signal::Link(id) => Some(Change::Link(to, ids_with(state.linked(from, to), id))),
        Signal::Unlink(ids) => cut(state.linked(from, to), to, ids),
        Signal::Monitor(monitor) => Some(Change::Watch(monitor, to)),
        Signal::Demonitor(monitor) => Some(Change::Unwatch(monitor, to)),
        _ => None,
    }
}

/// What an exit signal changes that is not dropped for its ids: by a link or not, of a process that traps exits or does
/// not, from itself or from another one.
fn exit(by_link: bool, traps: bool, own: bool, from: Pid, reason: Reason) -> Option<Change>
    ensures { option_to_list result ≡ obeyed (verdict by_link traps own from reason) }
{
    match (by_link, traps, reason) {
        (false, _, Reason::Kill) => Some(Change::End(Reason::Killed)),
        (_, true, _) => Some(Change::Queue(Item::Exit(from, reason))),
        (_, false, Reason::Normal) if !own => None,
        _ => Some(Change::End(reason)),
    }
}

/// What the exit signal of a link changes.
fn link_exit(state: &State, me: Pid, from: Pid, ids: Ids, reason: Reason) -> Both
    ensures { both result.0 result.1 ≡ receipt_changes me (now_is state.now me) from (Signal.LinkExit ids reason) }
{
    match state.linked(me, from) {
        Some(held) if held.shares(ids) => Both(
            Some(Change::Unlink(from)),
            exit(true, state.traps(me), from == me, from, reason),
        ),
        _ => Both(None, None),
    }
}

/// What a signal changes that comes to a live process.
fn got(state: &State, me: Pid, from: Pid, signal: Signal) -> Both
    ensures { both result.0 result.1 ≡ receipt_changes me (now_is state.now me) from signal }
{
    match signal {
        Signal::Message(body) => one(Change::Queue(Item::User(from, body))),
        Signal::Link(id) => one(Change::Link(from, ids_with(state.linked(me, from), id))),
        Signal::Unlink(ids) => Both(cut(state.linked(me, from), from, ids), None),
        Signal::Exit(reason) => Both(exit(false, state.traps(me), from == me, from, reason), None),
        Signal::LinkExit(ids, reason) => link_exit(state, me, from, ids, reason),
        Signal::Monitor(monitor) => one(Change::Watched(monitor, from)),
        Signal::Demonitor(monitor) if state.kept(me, monitor) => {
            one(Change::Unwatched(monitor, from))
        }
        Signal::Down(monitor, reason) if state.watching(me, monitor) => Both(
            Some(Change::Unwatch(monitor, from)),
            Some(Change::Queue(Item::Down(monitor, from, reason))),
        ),
        Signal::AliveSay(question, alive) => one(Change::Queue(Item::Alive(question, from, alive))),
        _ => Both(None, None),
    }
}

/// One change alone.
fn one(change: Change) -> Both
    ensures { result ≡ (Some change, None) }
{
    Both(Some(change), None)
}

/// Adds a change of the process, if there is one.
fn add(list: &mut Vec<Did>, of: Pid, change: Option<Change>) -> Result<(), AllocError>
    ensures { OnOk result (list.new.items ≡ list.old.items ++ dids of (option_to_list change)) }
{
    if let Some(change) = change {
        list.push(Did { of, change })?;
    }
    Ok(())
}

/// Adds the changes of the process.
fn add_both(list: &mut Vec<Did>, of: Pid, changes: Both) -> Result<(), AllocError>
    ensures { OnOk result (list.new.items ≡ list.old.items ++ dids of (both changes.0 changes.1)) }
{
    add(list, of, changes.0)?;
    add(list, of, changes.1)
}

/// Adds what a birth changes.
fn add_birth(
    list: &mut Vec<Did>,
    state: &State,
    pid: Pid,
    parent: Option<Pid>,
    link: Option<LinkId>,
) -> Result<(), AllocError>
    ensures { OnOk result (list.new.items ≡ list.old.items ++ birth_changes (now_is state.now) pid parent link) }
{
    add(list, pid, Some(Change::Born))?;
    if let (Some(parent), Some(id)) = (parent, link) {
        add(list, pid, Some(Change::Link(parent, Ids::of(id))))?;
        let ids = ids_with(state.linked(parent, pid), id);
        add(list, parent, Some(Change::Link(pid, ids)))?;
    }
    Ok(())
}

/// The place of the first item that the pick fits.
fn place_of(items: &[Item], pick: Pick) -> Option<usize>
    ensures { result ≡ position (fits pick) items.now }
{
    items.iter().position(|item| pick.fits(item))
}

/// What a receive changes.
fn taken(state: &State, pid: Pid, pick: Pick) -> Option<Change>
    ensures { option_to_list result ≡ take_changes (now_is state.now pid) pick }
{
    match state.waiting(pid) {
        Some(items) => match place_of(items, pick) {
            Some(place) => Some(Change::Take(place)),
            None => None,
        },
        None => None,
    }
}

/// What the event changes of what processes hold, where the state is that before it.
fn changed(alloc: Global, state: &State, event: Event) -> Result<Vec<Did>, AllocError>
    ensures { IfOk result (λ list. list.items ≡ held_changes (now_is state.now) event) }
{
    let mut list = Vec::new(alloc);
    match event {
        Event::Born(pid, parent, link) => add_birth(&mut list, state, pid, parent, link)?,
        Event::Said(from, to, signal) if state.alive(from) => {
            add(&mut list, from, said(state, from, to, signal))?
        }
        Event::Came(from, to, signal) if state.alive(to) => {
            add_both(&mut list, to, got(state, to, from, signal))?
        }
        Event::Took(pid, pick, _) => add(&mut list, pid, taken(state, pid, pick))?,
        Event::Flag(pid, on) => add(&mut list, pid, Some(Change::Trap(on)))?,
        Event::Left(pid, reason) => add(&mut list, pid, Some(Change::End(reason)))?,
        _ => {}
    }
    Ok(list)
}

/// Adds the signals that were sent.
fn add_sends(list: &mut Vec<Did>, sent: Flights) -> Result<(), AllocError>
    ensures { OnOk result (list.new.items ≡ list.old.items ++ map did_send sent) }
{
    let mut sent = sent;
    while let Some((from, to, signal)) = sent.front() {
        list.push(Did {
            of: from,
            change: Change::Send(to, signal),
        })?;
        sent = sent.without_oldest(from, to);
    }
    Ok(())
}

impl Begun {
    /// The event, whose changes are told from the state before it.
    pub fn new(alloc: Global, before: &State, event: Event) -> Result<Begun, AllocError>
        ensures { IfOk result (λ begun. IsToldBefore before.now event begun) }
    {
        Ok(Begun {
            event,
            lived: lived(before, event),
            then: changed(alloc, before, event)?,
        })
    }

    /// All that the event changed, in order, where the state is that after it.
    pub fn changes(self, alloc: Global, after: &State) -> Result<Vec<Did>, AllocError>
        ensures { IfOk result (λ list. (before : JudgeState) (event : Event) → IsToldBefore before event self
            → IsStep before event after.now → list.items ≡ event_changes (now_is before) event) }
    {
        let Begun { event, lived, then } = self;
        let mut list = then;
        match event {
            Event::Came(_, _, _) => add_sends(&mut list, after.sent(alloc, lived, event)?)?,
            Event::Left(_, _) => add_sends(&mut list, after.sent(alloc, lived, event)?)?,
            _ => {}
        }
        Ok(list)
    }
}
