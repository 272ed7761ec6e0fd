//! The layout of a chart: its columns, its rows and the arrows between them, as numbers. Events are named by their
//! places in the history, from 0.

ghost use Rattle.std.specs.Prelude.{All, map, ◌≡◌, ◌<◌, ◌++◌, [], IfOk, OnOk, length, position};
ghost use Rattle.std.specs.List.{filter};
ghost use Rattle.pt_events.specs.History.{is_birth, unborn};
ghost use Rattle.pt_chart.specs.Chart.{IsLayout, IsColumn, IsLegalHistory, ShowsHistory, MonitorsAnew, arrows};
ghost use Rattle.pt_chart.specs.Chart.{end_of, everyone, past_of, column_place, sent_of};
ghost use Rattle.pt_chart.specs.Desks.{AreInDesks, add_named, named, on_desk};
ghost use Rattle.pt_chart.specs.Following.{followed, noted};
ghost use Rattle.pt_chart.specs.Mentioning.{AreMentions, mentions};

use crate::follower::Follower;
use crate::mentions::{Mentions, event_at, mentions_of, named_by};
use crate::pids::Pids;
use crate::receipts::receipts_of;
use crate::standing::rows_of;
use indexmap::IndexSet;
use pt_events::{Event, Stamped};
use pt_signal::{Pid, Reason, Signal};
use std::alloc::{AllocError, Global};

/// A letter that a process sends.
#[derive(Clone, Copy, Debug, PartialEq, Eq)]
pub struct Sending {
    /// The event by which it is sent.
    pub event: usize,
    pub to: Pid,
    pub signal: Signal,
}

/// An arrow from a column.
#[derive(Clone, Copy, Debug, PartialEq, Eq)]
pub struct Arrow {
    /// The column of the receiver.
    pub to: usize,
    pub signal: Signal,
    /// The event by which the letter is sent.
    pub sent: usize,
    /// The event by which it arrived, if it did.
    pub came: Option<usize>,
}

/// A process of the history.
#[derive(Drop)]
pub struct Column {
    pub pid: Pid,
    /// The event of its birth, if there is one.
    pub born: Option<usize>,
    /// The event by which it exits, if it does, and the reason.
    pub ended: Option<(usize, Reason)>,
    /// The arrows from it, in order of sending.
    pub arrows: Vec<Arrow>,
}

/// The columns and rows of a chart.
#[derive(Drop)]
pub struct Layout {
    pub columns: Vec<Column>,
    /// The row of each event.
    pub rows: Vec<usize>,
}

/// Lays a history out.
///
/// Each process that is named is a column, by desk and then in order of first appearance. An arrow goes from the event
/// by which a letter is sent to the event by which it arrived. For two processes, the nth letter that one sends the
/// other is the nth that arrives. The rows follow the order of the history. The births in front of every other event
/// share the first row. A receipt that is the very next event after its sending shares the row of that, and each other
/// event has a row of its own.
///
/// In a legal history, as that of a gathered node, this holds for every exit, every arrow and every row. In any other
/// history it holds for the exits and arrows of each process that opens no monitor under a reference that it has open.
pub fn lay_out(alloc: Global, events: &[Stamped]) -> Result<Layout, AllocError>
    ensures layout { IfOk result (λ l. IsLayout events.now l) }
    ensures legal { IsLegalHistory events.now → IfOk result (λ l. ShowsHistory events.now l) }
{
    let columns = columns_of(alloc, events)?;
    let rows = rows_of(alloc, events, columns.as_slice())?;
    Ok(Layout { columns, rows })
}

/// The columns of a history.
fn columns_of(alloc: Global, events: &[Stamped]) -> Result<Vec<Column>, AllocError>
    ensures pids { IfOk result (λ v. map (λ c. c.pid) v.items ≡ everyone events.now) }
    ensures columns { IfOk result (λ v. All (λ c. IsColumn events.now c) v.items) }
{
    let mentions = mentions_of(alloc, events)?;
    columns_by(alloc, events, &mentions)
}

/// The columns of a history, if these are the events that name each process.
fn columns_by(
    alloc: Global,
    events: &[Stamped],
    mentions: &Mentions,
) -> Result<Vec<Column>, AllocError>
    requires { AreMentions events.now mentions.now }
    ensures pids { IfOk result (λ v. map (λ c. c.pid) v.items ≡ everyone events.now) }
    ensures columns { IfOk result (λ v. All (λ c. IsColumn events.now c) v.items) }
{
    let pids = Pids::of(alloc, pids_of(alloc, events)?)?;
    columns_with(alloc, events, mentions, &pids)
}

/// The columns of these processes, if these are the events that name each.
fn columns_with(
    alloc: Global,
    events: &[Stamped],
    mentions: &Mentions,
    pids: &Pids,
) -> Result<Vec<Column>, AllocError>
    requires mentions { AreMentions events.now mentions.now }
    ensures pids { IfOk result (λ v. map (λ c. c.pid) v.items ≡ pids.now) }
    ensures columns { pids.now ≡ everyone events.now → IfOk result (λ v. All (λ c. IsColumn events.now c) v.items) }
{
    let list = pids.as_slice();
    let mut columns = Vec::with_capacity(alloc, list.len())?;
    for place in 0..list.len() {
        let pid = list[place];
        let column = column_of(alloc, events, mentions.of(pid), pids, pid)?;
        columns.push_reserved(column);
    }
    Ok(columns)
}

/// The processes that the history names, by desk and then in order of first appearance.
fn pids_of(alloc: Global, events: &[Stamped]) -> Result<Vec<Pid>, AllocError>
    ensures { IfOk result (λ v. v.items ≡ everyone events.now) }
{
    let named = named_in(alloc, events)?;
    in_desks(alloc, named.as_slice())
}

/// The processes that the history names, in order of first appearance.
fn named_in(alloc: Global, events: &[Stamped]) -> Result<IndexSet<Pid>, AllocError>
    ensures { IfOk result (λ set. set.keys ≡ named events.now) }
{
    let mut set = IndexSet::new(alloc);
    for at in 0..events.len() {
        enter(&mut set, events[at].event)?;
    }
    Ok(set)
}

/// Adds the processes that an event names to the others.
fn enter(set: &mut IndexSet<Pid>, event: Event) -> Result<(), AllocError>
    ensures { OnOk result (set.new.keys ≡ add_named set.old.keys event) }
{
    let (first, last) = named_by(event);
    if let Some(first) = first {
        set.insert(first)?;
    }
    set.insert(last)?;
    Ok(())
}

/// These processes by desk. Those of one desk stay in their order.
fn in_desks(alloc: Global, named: &[Pid]) -> Result<Vec<Pid>, AllocError>
    ensures { IfOk result (λ v. AreInDesks named.now v.items) }
{
    let mut pids = Vec::with_capacity(alloc, named.len())?;
    for desk in 0..desks_of(named) {
        add_desk(desk, named, &mut pids)?;
    }
    Ok(pids)
}

/// A number above that of each of their desks.
fn desks_of(named: &[Pid]) -> usize
    ensures { All (λ p. p.shard < result) named.now }
{
    let mut desks = 0;
    for pid in named {
        desks = (usize::from(pid.shard) + 1).max(desks);
    }
    desks
}

/// Adds those of a desk.
fn add_desk(desk: usize, named: &[Pid], pids: &mut Vec<Pid>) -> Result<(), AllocError>
    ensures { OnOk result (pids.new.items ≡ pids.old.items ++ filter (on_desk desk) named.now) }
{
    for pid in named {
        if usize::from(pid.shard) == desk {
            pids.push(*pid)?;
        }
    }
    Ok(())
}

/// The column of one process, as it is followed through its own events.
fn column_of(
    alloc: Global,
    events: &[Stamped],
    own: &[usize],
    pids: &Pids,
    pid: Pid,
) -> Result<Column, AllocError>
    requires own { own.now ≡ mentions pid events.now }
    ensures pid { IfOk result (λ c. c.pid ≡ pid) }
    ensures column { pids.now ≡ everyone events.now → IfOk result (λ c. IsColumn events.now c) }
{
    let mut sent = Vec::new(alloc);
    let ended = follow(alloc, events, own, pid, &mut sent)?;
    let arrows = arrows_of(alloc, events, own, pids, pid, sent.as_slice())?;
    let born = birth_of(events, own, pid);
    Ok(Column {
        pid,
        born,
        ended,
        arrows,
    })
}

/// Adds what a process sends in the history, and returns its exit, if it has one. An event that does not name it changes
/// nothing of it.
fn follow(
    alloc: Global,
    events: &[Stamped],
    own: &[usize],
    pid: Pid,
    sent: &mut Vec<Sending>,
) -> Result<Option<(usize, Reason)>, AllocError>
    requires own { own.now ≡ mentions pid events.now }
    ensures sent { MonitorsAnew (past_of events.now) pid
        → OnOk result (sent.new.items ≡ sent.old.items ++ sent_of (past_of events.now) pid) }
    ensures ending { MonitorsAnew (past_of events.now) pid
        → IfOk result (λ ended. ended ≡ end_of (past_of events.now) pid) }
{
    let mut follower = Follower::new(pid);
    follow_on(alloc, events, own, pid, &mut follower, sent)
}

/// The same, with a follower that has seen no event yet.
fn follow_on(
    alloc: Global,
    events: &[Stamped],
    own: &[usize],
    pid: Pid,
    follower: &mut Follower,
    sent: &mut Vec<Sending>,
) -> Result<Option<(usize, Reason)>, AllocError>
    requires own { own.now ≡ mentions pid events.now }
    requires unborn { follower.old ≡ followed pid unborn }
    ensures sent { MonitorsAnew (past_of events.now) pid
        → OnOk result (sent.new.items ≡ sent.old.items ++ sent_of (past_of events.now) pid) }
    ensures ending { MonitorsAnew (past_of events.now) pid
        → IfOk result (λ ended. ended ≡ end_of (past_of events.now) pid) }
{
    let mut ended = None;
    for k in 0..own.len() {
        let at = own[k];
        let reason = follower.see(alloc, at, event_at(events, at), sent)?;
        ended = noted(at, reason, ended);
    }
    Ok(ended)
}

fn birth_of(events: &[Stamped], own: &[usize], pid: Pid) -> Option<usize>
    requires own { own.now ≡ mentions pid events.now }
    ensures { result ≡ position (λ s. is_birth pid s.event) events.now }
{
    for k in 0..own.len() {
        let at = own[k];
        if is_birth(pid, event_at(events, at)) {
            return Some(at);
        }
    }
    None
}

/// The exit so far, if it does not exit by this event.
fn noted(
    event: usize,
    reason: Option<Reason>,
    before: Option<(usize, Reason)>,
) -> Option<(usize, Reason)>
    ensures { result ≡ noted event reason before }
{
    match reason {
        Some(reason) => Some((event, reason)),
        None => before,
    }
}

fn is_birth(pid: Pid, event: Event) -> bool
    ensures { result ≡ is_birth pid event }
{
    match event {
        Event::Born(born, _, _) => pid == born,
        _ => false,
    }
}

/// The arrows of the letters that a process sent.
fn arrows_of(
    alloc: Global,
    events: &[Stamped],
    own: &[usize],
    pids: &Pids,
    from: Pid,
    sent: &[Sending],
) -> Result<Vec<Arrow>, AllocError>
    requires own { own.now ≡ mentions from events.now }
    ensures { IfOk result (λ v. v.items ≡ arrows events.now pids.now from [] sent.now) }
{
    let mut arrows = Vec::with_capacity(alloc, sent.len())?;
    let mut receipts = receipts_of(alloc, events, own, from)?;
    for k in 0..sent.len() {
        let came = receipts.pop(sent[k].to);
        arrows.push_reserved(arrow_of(pids, sent[k], came));
    }
    Ok(arrows)
}

/// The arrow of a letter that arrived by this event, if it did.
fn arrow_of(pids: &Pids, sending: Sending, came: Option<usize>) -> Arrow
    ensures { result
        ≡ record { to = column_place pids.now sending.to; signal = sending.signal; sent = sending.event; came = came } }
{
    Arrow {
        to: place(pids, sending.to),
        signal: sending.signal,
        sent: sending.event,
        came,
    }
}

/// The column of a process; after all columns if it has none.
fn place(pids: &Pids, pid: Pid) -> usize
    ensures { result ≡ column_place pids.now pid }
{
    pids.first(pid).unwrap_or(pids.as_slice().len())
}
