//! Why no node prints an event, or a letter left over, that a history may have.

ghost use Rattle.std.specs.Prelude.{◌≡◌, ◌+◌, ◌==◌};
ghost use Rattle.pt_auditor.specs.Foreigners.{is_node_desk, is_node_stamp, is_node_slot, is_home, is_new_at};
ghost use Rattle.pt_auditor.specs.Foreigners.{is_next_version, is_in_turn, is_known, no_node, was_born, no_name, no_place};
ghost use Rattle.pt_auditor.specs.Foreigners.{is_between_them, is_in_order, is_above_both, is_in_time, has_its_stamp, no_left};
ghost use Rattle.pt_auditor.specs.Foreigners.{is_node_version, reaches, goes_to_no_ended, goes_to_none_seen, is_in_turn_of};

use crate::desks::Desks;
use pt_events::{Event, MAX_STAMP, Stamped};
use pt_judge::State;
use pt_signal::{Letter, MAX_SLOTS, Pid, Signal};
use pt_texts::LeftOver;

/// Why no node prints an event that may come next, or a letter left over. A node's desks write only the events of their
/// own processes, with ids and references that are their desk and their stamp. Letters from one desk to another come in
/// order. A desk sends no message, link or monitor to a process of which it has seen that it has exited: to one of its own,
/// or after a refused call to it.
#[derive(Clone, Copy, Debug, PartialEq, Eq)]
pub enum NoNode {
    /// The desk of the event, or of a receiver, is above 63.
    Desk,
    /// The stamp is 0, or above [`MAX_STAMP`].
    Stamp,
    /// The slot of the new process, or of a receiver, is above 65,535.
    Slot,
    /// The version of a receiver is 0.
    NoVersion,
    /// The process of the event, or its parent, is of another desk than the event.
    OtherDesk,
    /// The new id of a link, or the new reference, is not the desk and the stamp of the event.
    OtherId,
    /// The version of the slot before the new one has not exited, or the new one is 0.
    Version,
    /// The receiver is of the sender's desk, and was never spawned.
    Unborn,
    /// The receiver of the message, link or monitor is of the sender's desk, and has exited.
    Ended,
    /// A call of the desk was refused that went to the receiver of the message, link or monitor, or to a later process of
    /// its slot.
    Seen,
    /// The letter is not the oldest in flight from its sender's desk to its receiver's.
    Overtakes,
    /// The event has another stamp than its desk gives next, or the letter left over has another one than its sending.
    OtherStamp,
    /// The desks of the letter left over come before those of the letter before it.
    OtherTurn,
}

/// The first line that no node prints.
#[derive(Clone, Copy, Debug, PartialEq, Eq)]
pub struct Foreign {
    /// Its number among all lines that were read, from 1 on.
    pub line: u64,
    pub why: NoNode,
}

/// Whether the desk, and that of the receiver of a signal, are among the 64 that a node may have.
fn is_node_desk(stamped: Stamped) -> bool
    ensures { result ≡ is_node_desk stamped }
{
    stamped.desk < 64
        && match stamped.event {
            Event::Said(_, to, _) => to.shard < 64,
            _ => true,
        }
}

fn is_node_stamp(stamp: u64) -> bool
    ensures { result ≡ is_node_stamp stamp }
{
    0 < stamp && stamp <= MAX_STAMP
}

/// Whether the slot of the new process, or of the receiver, is among those that a node may have.
fn is_node_slot(event: Event) -> bool
    ensures { result ≡ is_node_slot event }
{
    match event {
        Event::Born(pid, _, _) => pid.slot < MAX_SLOTS,
        Event::Said(_, to, _) => to.slot < MAX_SLOTS,
        _ => true,
    }
}

/// Whether the receiver has a version.
fn is_node_version(event: Event) -> bool
    ensures { result ≡ is_node_version event }
{
    match event {
        Event::Said(_, to, _) => to.version > 0,
        _ => true,
    }
}

/// Whether the process of the event, and its parent, are of the desk.
fn is_home(desk: u8, event: Event) -> bool
    ensures { result ≡ is_home desk event }
{
    match event {
        Event::Born(pid, None, _) => pid.shard == desk,
        Event::Born(pid, Some(parent), _) => pid.shard == desk && parent.shard == desk,
        Event::Said(from, _, _) => from.shard == desk,
        Event::Came(_, to, _) => to.shard == desk,
        Event::Took(pid, _, _) => pid.shard == desk,
        Event::Flag(pid, _) => pid.shard == desk,
        Event::Left(pid, _) => pid.shard == desk,
        Event::Refused(from, _) => from.shard == desk,
    }
}

/// Whether the id, or the reference, that the event makes is the desk and the stamp.
fn is_new_at(desk: u8, stamp: u64, event: Event) -> bool
    ensures { result ≡ is_new_at desk stamp event }
{
    match event {
        Event::Born(_, _, Some(link)) => link.desk == desk && link.number == stamp,
        Event::Said(_, _, Signal::Link(link)) => link.desk == desk && link.number == stamp,
        Event::Said(_, _, Signal::Monitor(made)) => made.desk == desk && made.number == stamp,
        Event::Said(_, _, Signal::AliveAsk(made)) => made.desk == desk && made.number == stamp,
        _ => true,
    }
}

/// Whether the pid is the first of its slot, or the one before it in the slot has exited.
fn is_next_version(state: &State, pid: Pid) -> bool
    ensures { result ≡ is_next_version state.now pid }
{
    if pid.version < 2 {
        return pid.version == 1;
    }
    let before = Pid {
        shard: pid.shard,
        slot: pid.slot,
        version: pid.version - 1,
    };
    state.ended(before).is_some()
}

fn was_born(state: &State, pid: Pid) -> bool
    ensures { result ≡ was_born state.now pid }
{
    state.alive(pid) || state.ended(pid).is_some()
}

/// Whether a signal to a process of the desk is sent after its birth.
fn is_known(state: &State, desk: u8, event: Event) -> bool
    ensures { result ≡ is_known state.now desk event }
{
    match event {
        Event::Said(_, to, _) => to.shard != desk || was_born(state, to),
        _ => true,
    }
}

fn is_in_turn(state: &State, event: Event) -> bool
    ensures { result ≡ is_in_turn state.now event }
{
    match event {
        Event::Born(pid, _, _) => is_next_version(state, pid),
        _ => true,
    }
}

/// Whether it is the signal of a call that is refused if its desk sees that the receiver has exited.
fn reaches(signal: Signal) -> bool
    ensures { result ≡ reaches signal }
{
    match signal {
        Signal::Message(_) => true,
        Signal::Link(_) => true,
        Signal::Monitor(_) => true,
        _ => false,
    }
}

/// Whether no such call goes to a process of the desk that has exited.
fn goes_to_no_ended(state: &State, desk: u8, event: Event) -> bool
    ensures { result ≡ goes_to_no_ended state.now desk event }
{
    match event {
        Event::Said(_, to, signal) => {
            !(reaches(signal) && to.shard == desk && state.ended(to).is_some())
        }
        _ => true,
    }
}

/// Whether no such call goes to a process of which the desk has seen that it has exited.
fn goes_to_none_seen(desks: &Desks, desk: u8, event: Event) -> bool
    ensures { result ≡ goes_to_none_seen desks.now.seen desk event }
{
    match event {
        Event::Said(_, to, signal) => !(reaches(signal) && desks.has_seen(desk, to)),
        _ => true,
    }
}

/// Whether the letter is from the one to the other.
fn is_between_them(from: Pid, to: Pid, letter: Option<Letter>) -> bool
    ensures { result ≡ is_between_them from to letter }
{
    match letter {
        Some(letter) => from == letter.from && to == letter.to,
        None => false,
    }
}

/// Whether what came is the oldest letter from the one desk to the other.
fn is_in_order(desks: &Desks, event: Event) -> bool
    ensures { result ≡ is_in_order desks.now event }
{
    match event {
        Event::Came(from, to, _) => is_between_them(from, to, desks.first(from, to)),
        _ => true,
    }
}

/// Whether the stamp of a receipt is next to the greater one of the clock and the letter's stamp.
fn is_above_both(clock: u64, stamp: u64, letter: Option<Letter>) -> bool
    ensures { result ≡ is_above_both clock stamp letter }
{
    match letter {
        Some(letter) => is_next(clock.max(letter.stamp), stamp),
        None => true,
    }
}

/// Whether the one stamp is next to the other.
fn is_next(stamp: u64, next: u64) -> bool
    ensures { result ≡ (next == stamp + 1) }
{
    stamp < next && next - stamp == 1
}

/// Whether the event has a stamp that its desk can give.
fn is_in_time(desks: &Desks, state: &State, stamped: Stamped) -> bool
    ensures { result ≡ is_in_time desks.now state.now stamped.desk stamped.stamp stamped.event }
{
    let Stamped { stamp, desk, event } = stamped;
    match event {
        Event::Came(from, to, _) => {
            is_above_both(desks.clock(desk), stamp, desks.first(from, to))
        }
        Event::Refused(_, _) => true,
        _ => is_next(desks.clock(desk), stamp) || desks.may_begin(state, stamp),
    }
}

/// Why no node prints the event anywhere, if none does: the first reason that holds.
fn no_name(stamped: Stamped) -> Option<NoNode>
    ensures { result ≡ no_name stamped }
{
    let Stamped { stamp, desk, event } = stamped;
    if !is_node_desk(stamped) {
        return Some(NoNode::Desk);
    }
    if !is_node_stamp(stamp) {
        return Some(NoNode::Stamp);
    }
    if !is_node_slot(event) {
        return Some(NoNode::Slot);
    }
    if !is_node_version(event) {
        return Some(NoNode::NoVersion);
    }
    if !is_home(desk, event) {
        return Some(NoNode::OtherDesk);
    }
    if !is_new_at(desk, stamp, event) {
        return Some(NoNode::OtherId);
    }
    None
}

/// Why no node prints the event next, if none does: the first reason of those about the events before it.
fn no_place(desks: &Desks, state: &State, stamped: Stamped) -> Option<NoNode>
    ensures { result ≡ no_place desks.now state.now stamped }
{
    let Stamped { desk, event, .. } = stamped;
    if !is_in_turn(state, event) {
        return Some(NoNode::Version);
    }
    if !is_known(state, desk, event) {
        return Some(NoNode::Unborn);
    }
    if !goes_to_no_ended(state, desk, event) {
        return Some(NoNode::Ended);
    }
    if !goes_to_none_seen(desks, desk, event) {
        return Some(NoNode::Seen);
    }
    if !is_in_order(desks, event) {
        return Some(NoNode::Overtakes);
    }
    if !is_in_time(desks, state, stamped) {
        return Some(NoNode::OtherStamp);
    }
    None
}

/// Why no node prints the event next, if none does: the first reason that holds.
pub(crate) fn no_node(desks: &Desks, state: &State, stamped: Stamped) -> Option<NoNode>
    ensures { result ≡ no_node desks.now state.now stamped }
{
    match no_name(stamped) {
        Some(why) => Some(why),
        None => no_place(desks, state, stamped),
    }
}

/// Whether the stamp is the letter's.
fn has_its_stamp(stamp: u64, letter: Option<Letter>) -> bool
    ensures { result ≡ has_its_stamp stamp letter }
{
    match letter {
        Some(letter) => stamp == letter.stamp,
        None => true,
    }
}

/// Whether the desks of the letter are not below those of the letter before it.
fn is_in_turn_of(before: (u8, u8), left: LeftOver) -> bool
    ensures { result ≡ is_in_turn_of before left }
{
    let Letter { from, to, .. } = left.letter;
    before.0 < from.shard || (before.0 == from.shard && before.1 <= to.shard)
}

/// Why no node prints the letter left over next, if none does: the first reason that holds.
pub(crate) fn no_left(desks: &Desks, left: LeftOver) -> Option<NoNode>
    ensures { result ≡ no_left desks.now left }
{
    let letter = left.letter;
    let first = desks.first(letter.from, letter.to);
    if !is_between_them(letter.from, letter.to, first) {
        return Some(NoNode::Overtakes);
    }
    if !has_its_stamp(letter.stamp, first) {
        return Some(NoNode::OtherStamp);
    }
    if !is_in_turn_of(desks.left(), left) {
        return Some(NoNode::OtherTurn);
    }
    None
}
