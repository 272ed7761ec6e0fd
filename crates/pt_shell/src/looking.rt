//! Looks at a running node.

ghost use Rattle.std.specs.Prelude.{◌≡◌, ◌-◌, ◌^◌, ◌≤◌, min, length, reverse, Some, None, false};
ghost use Rattle.std.specs.Option.{option_copied};
ghost use Rattle.pt_shard.specs.Known.{knows};
ghost use Rattle.pt_shard.specs.Outbox.{count_pending};
ghost use Rattle.pt_node.specs.Node.{ReadsAt};
ghost use Rattle.pt_workers.specs.Stillness.{count_events};
ghost use Rattle.pt_shell.specs.declared.answer.Answer.TheVariants as answer;
ghost use Rattle.pt_shell.specs.Looking as spec;

use crate::answer::Answer;
use crate::lines::Look;
use pt_events::Stamped;
use pt_node::Node;
use pt_signal::{Item, Pid, Ref};
use std::alloc::Global;

/// Reads a running node, or returns `None` if only a node in another state can be read so.
pub(crate) fn look_at_node(alloc: Global, node: &Node, look: Look) -> Option<Answer>
    ensures { spec.LooksAtNode look node.now result }
{
    match look {
        Look::Clock(desk) => Some(Answer::Number(clock(node, desk))),
        Look::Pending(desk) => Some(Answer::Number(pending(node, desk))),
        Look::Journal(desk) => Some(journal(alloc, node, desk)),
        Look::Event(desk, stamp) => Some(event(node, desk, stamp)),
        Look::Events => Some(Answer::Number(Some(count_events(node)))),
        Look::Vacant(desk) => Some(vacant(node, desk)),
        Look::Alive(pid) => Some(Answer::Truth(Some(node.alive(pid)))),
        Look::Knows(desk, pid) => Some(Answer::Truth(knows(node, desk, pid))),
        Look::Waiting(pid) => Some(items(alloc, node.waiting(pid))),
        Look::Linked(pid, peer) => Some(Answer::Ids(node.linked(pid, peer))),
        Look::Watching(pid, monitor) => Some(Answer::Truth(Some(watching(node, pid, monitor)))),
        Look::Kept(pid, monitor) => Some(Answer::Truth(Some(kept(node, pid, monitor)))),
        _ => None,
    }
}

fn clock(node: &Node, desk: u8) -> Option<u64>
    ensures { ReadsAt desk (λ x. Some x.shard.clock) None node.now result }
{
    Some(node.desk(desk)?.clock())
}

fn vacant(node: &Node, desk: u8) -> Answer
    ensures { ReadsAt desk (λ x. Some (answer.Pid x.shard.vacant)) (Some answer.Unknown) node.now (Some result) }
{
    match node.desk(desk) {
        Some(desk) => Answer::Pid(desk.vacant()),
        None => Answer::Unknown,
    }
}

fn pending(node: &Node, desk: u8) -> Option<u64>
    ensures { ReadsAt desk (λ x. Some (min (count_pending x.shard) (2 ^ 64 - 1))) None node.now result }
{
    Some(node.desk(desk)?.pending())
}

fn knows(node: &Node, desk: u8, pid: Pid) -> Option<bool>
    ensures { ReadsAt desk (λ x. Some (knows x.shard pid)) None node.now result }
{
    Some(node.desk(desk)?.knows(pid))
}

fn watching(node: &Node, pid: Pid, monitor: Ref) -> bool
    ensures { ReadsAt pid.shard (λ x. spec.is_watching (spec.process_on_desk pid x) monitor) (spec.is_watching None monitor)
        node.now result }
{
    match node.process(pid) {
        Some(process) => process.watching(monitor),
        None => false,
    }
}

fn kept(node: &Node, pid: Pid, monitor: Ref) -> bool
    ensures { ReadsAt pid.shard (λ x. spec.is_kept (spec.process_on_desk pid x) monitor) (spec.is_kept None monitor)
        node.now result }
{
    match node.process(pid) {
        Some(process) => process.kept(monitor),
        None => false,
    }
}

fn journal(alloc: Global, node: &Node, desk: u8) -> Answer
    ensures { spec.IfEvents (Some result)
        (λ events. ReadsAt desk (λ x. Some (reverse x.shard.journal)) None node.now (Some events))
        (length node.now ≤ desk) }
{
    let d = usize::from(desk);
    let desks = node.desks();
    if d >= desks.len() {
        return Answer::Unknown;
    }
    match desks[d].journal().events().to_vec(alloc) {
        Ok(events) => Answer::Events(events),
        Err(_) => Answer::NoMemory,
    }
}

fn event(node: &Node, desk: u8, stamp: u64) -> Answer
    ensures { ReadsAt desk (λ x. Some (answer.Event (spec.event_in (reverse x.shard.journal) desk stamp)))
        (Some answer.Unknown) node.now (Some result) }
{
    match node.desk(desk) {
        Some(it) => Answer::Event(find_event(it.journal().events(), desk, stamp)),
        None => Answer::Unknown,
    }
}

/// The event of a desk that has the stamp.
pub(crate) fn find_event(events: &[Stamped], desk: u8, stamp: u64) -> Option<Stamped>
    ensures { result ≡ spec.event_in events.now desk stamp }
{
    for place in 0..events.len() {
        if events[place].desk == desk && events[place].stamp == stamp {
            return Some(events[place]);
        }
    }
    None
}

/// The number of events of all desks' journals, staying at `u64::MAX` once it is reached.
fn count_events(node: &Node) -> u64
    ensures { result ≡ min (count_events node.now) (2 ^ 64 - 1) }
{
    let mut count: u64 = 0;
    let desks = node.desks();
    for place in 0..desks.len() {
        count = count.saturating_add(desks[place].journal().events().len() as u64);
    }
    count
}

/// The items that wait in a mailbox, as an answer.
pub(crate) fn items(alloc: Global, waiting: Option<&[Item]>) -> Answer
    ensures { spec.IfItems (Some result) (λ items. items ≡ option_copied waiting.entry) }
{
    match waiting {
        Some(items) => match items.to_vec(alloc) {
            Ok(items) => Answer::Items(Some(items)),
            Err(_) => Answer::NoMemory,
        },
        None => Answer::Items(None),
    }
}
