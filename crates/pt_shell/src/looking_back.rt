//! Looks at a node that was gathered, or settled.

ghost use Rattle.std.specs.Prelude.{◌≡◌, IfOk, Some};
ghost use Rattle.pt_accounts.specs.LivesState.{ended_with};
ghost use Rattle.pt_shell.specs.Looking.{IfItems};
ghost use Rattle.pt_shell.specs.LookingBack as spec;
ghost use Rattle.pt_shell.specs.Stepping.{without_stamps};

use crate::answer::Answer;
use crate::lines::Look;
use crate::looking::{find_event, items};
use pt_accounts::Account;
use pt_events::{Event, Stamped};
use pt_gathered::{Gathered, Quiet};
use pt_judge::{replay, replay_from};
use pt_signal::{Pid, Reason};
use std::alloc::{AllocError, Global};

/// Reads a gathered node, or returns `None` if only a node in another state can be read so.
pub(crate) fn look_at_gathered(
    alloc: Global,
    gathered: &Gathered,
    earlier: &[Event],
    look: Look,
) -> Option<Answer>
    ensures { spec.LooksAtGathered look gathered.now earlier.now result }
{
    match look {
        Look::LeftOver => Some(match gathered.left_over() {
            Ok(letters) => Answer::Letters(letters),
            Err(_) => Answer::NoMemory,
        }),
        Look::History => Some(gathered_history(alloc, gathered, earlier, look)),
        Look::Event(desk, _) => {
            if desk < gathered.desks() {
                Some(gathered_history(alloc, gathered, earlier, look))
            } else {
                Some(Answer::Unknown)
            }
        }
        Look::Events => Some(gathered_history(alloc, gathered, earlier, look)),
        Look::Judge => Some(gathered_history(alloc, gathered, earlier, look)),
        _ => None,
    }
}

fn gathered_history(alloc: Global, gathered: &Gathered, earlier: &[Event], look: Look) -> Answer
    ensures { spec.TellsHistory gathered.now look earlier.now result }
{
    match gathered.history() {
        Ok(history) => look_at_history(alloc, history, earlier, look),
        Err(_) => Answer::NoMemory,
    }
}

/// Reads a settled node, or returns `None` if only a node in another state can be read so.
pub(crate) fn look_at_quiet(
    alloc: Global,
    quiet: &Quiet,
    earlier: &[Event],
    look: Look,
) -> Option<Answer>
    ensures { spec.LooksAtQuiet look quiet.now earlier.now result }
{
    match look {
        Look::History => Some(quiet_history(alloc, quiet, earlier, look)),
        Look::Event(desk, _) => {
            if desk < quiet.settled().desks() {
                Some(quiet_history(alloc, quiet, earlier, look))
            } else {
                Some(Answer::Unknown)
            }
        }
        Look::Events => Some(quiet_history(alloc, quiet, earlier, look)),
        Look::Judge => Some(quiet_history(alloc, quiet, earlier, look)),
        Look::Pids => Some(match quiet.pids().to_vec(alloc) {
            Ok(pids) => Answer::Pids(pids),
            Err(_) => Answer::NoMemory,
        }),
        Look::Account(pid) => Some(Answer::Account(quiet.account(pid))),
        Look::Ended(pid) => Some(Answer::Reason(ended_of(quiet.account(pid)))),
        Look::Alive(pid) => Some(Answer::Truth(Some(is_alive(quiet.account(pid))))),
        Look::Waiting(pid) => Some(waiting(alloc, quiet, pid)),
        Look::Linked(pid, peer) => Some(Answer::Ids(quiet.linked(pid, peer))),
        Look::Watching(pid, monitor) => Some(Answer::Truth(Some(quiet.watching(pid, monitor)))),
        Look::Kept(pid, monitor) => Some(Answer::Truth(Some(quiet.kept(pid, monitor)))),
        _ => None,
    }
}

fn quiet_history(alloc: Global, quiet: &Quiet, earlier: &[Event], look: Look) -> Answer
    ensures { spec.TellsHistory quiet.now.gathered look earlier.now result }
{
    match quiet.history() {
        Ok(history) => look_at_history(alloc, history, earlier, look),
        Err(_) => Answer::NoMemory,
    }
}

fn ended_of(account: Option<Account>) -> Option<Reason>
    ensures { result ≡ ended_with account }
{
    match account {
        Some(account) => account.ended,
        None => None,
    }
}

fn is_alive(account: Option<Account>) -> bool
    ensures { result ≡ spec.is_alive account }
{
    match account {
        Some(account) => account.ended.is_none(),
        None => false,
    }
}

/// The items that wait in a mailbox, by the state that the history leads to.
fn waiting(alloc: Global, quiet: &Quiet, pid: Pid) -> Answer
    ensures { IfItems (Some result) (λ items. Unit {0}) }
{
    match quiet.state() {
        Ok(state) => items(alloc, state.waiting(pid)),
        Err(_) => Answer::NoMemory,
    }
}

/// Reads a history.
fn look_at_history(alloc: Global, history: Vec<Stamped>, earlier: &[Event], look: Look) -> Answer
    ensures { spec.OfHistory look history.items earlier.now result }
{
    match look {
        Look::Event(desk, stamp) => { Answer::Event(find_event(history.as_slice(), desk, stamp)) }
        Look::Events => Answer::Number(Some(history.len() as u64)),
        Look::Judge => judge(alloc, earlier, history.as_slice()),
        _ => Answer::Events(history),
    }
}

/// What the judge of histories says of a history, over the events of all epochs before.
fn judge(alloc: Global, earlier: &[Event], history: &[Stamped]) -> Answer
    ensures { spec.IsJudged earlier.now history.now result }
{
    let Ok(events) = events_of(alloc, history) else {
        return Answer::NoMemory;
    };
    let Ok(state) = replay(alloc, earlier) else {
        return Answer::NoMemory;
    };
    match replay_from(alloc, state, events.as_slice()) {
        Ok(_) => Answer::Judged(Ok(())),
        Err(fault) => Answer::Judged(Err(fault)),
    }
}

/// The events, without their stamps and desks.
pub(crate) fn events_of(alloc: Global, history: &[Stamped]) -> Result<Vec<Event>, AllocError>
    ensures { IfOk result (λ events. events.items ≡ without_stamps history.now) }
{
    let mut events = Vec::new(alloc);
    for place in 0..history.len() {
        events.push(history[place].event)?;
    }
    Ok(events)
}
