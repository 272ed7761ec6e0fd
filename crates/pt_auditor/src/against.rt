//! What an event contradicts.

ghost use Rattle.std.specs.Prelude.{◌≡◌};
ghost use Rattle.pt_judge.specs.Judging.{known_state};
ghost use Rattle.pt_auditor.specs.Objecting.{actor_of_event, contradiction, dead};

use crate::Contradiction;
use pt_events::Event;
use pt_judge::{Cause, State};
use pt_signal::Pid;

/// The process that must be alive for the event, if there is one.
fn author(event: Event) -> Option<Pid>
    ensures { result ≡ actor_of_event event }
{
    match event {
        Event::Born(_, parent, _) => parent,
        Event::Said(from, _, _) => Some(from),
        Event::Came(_, _, _) => None,
        Event::Took(owner, _, _) => Some(owner),
        Event::Flag(owner, _) => Some(owner),
        Event::Left(owner, _) => Some(owner),
        Event::Refused(from, _) => Some(from),
    }
}

fn dead(state: &State, pid: Option<Pid>) -> Contradiction
    ensures { result ≡ dead (known_state state.now) pid }
{
    match pid {
        Some(pid) => Contradiction::Dead(pid, state.ended(pid)),
        None => Contradiction::Nothing,
    }
}

/// What the event contradicts, if it may not come next for that cause.
pub(crate) fn contradiction(state: &State, event: Event, cause: Cause) -> Contradiction
    ensures { result ≡ contradiction (known_state state.now) event cause }
{
    match (cause, event) {
        (Cause::NotFront, Event::Came(from, to, _)) => {
            Contradiction::Oldest(state.oldest(from, to))
        }
        (Cause::NotFirstMatch, Event::Took(pid, pick, _)) => {
            Contradiction::First(state.fitting(pid, pick))
        }
        (Cause::NotAlive, _) => dead(state, author(event)),
        _ => Contradiction::Nothing,
    }
}
