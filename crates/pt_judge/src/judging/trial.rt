//! The judge.

ghost use Rattle.std.specs.Prelude.{[]};
ghost use Rattle.pt_events.specs.History.{Start, Past, IsLegal};
ghost use Rattle.pt_judge.specs.Judge.{IsAfter, Judges, Replays, ReplaysAfter};

use crate::Cause;
use crate::judging::state::State;
use pt_events::Event;
use std::alloc::Global;

/// The state after the event, or the lowest cause for which it may not come.
fn judge(alloc: Global, state: State, event: Event) -> Result<State, Cause>
    ensures { (start : Start) (past : Past) → IsAfter start past state → Judges start past event result }
{
    if let Some(cause) = state.cause(event) {
        return Err(cause);
    }
    match state.after(alloc, event) {
        Ok(state) => Ok(state),
        Err(_) => Err(Cause::Memory),
    }
}

/// Judges the events that come next after those that led to the state, oldest first: gives what they lead to where
/// every one may come after those before it, and else the place of the first that may not, counted from the first of
/// these events, with the lowest cause that fits. So a long history is judged piece by piece: the first from
/// [`State::new`], each further one from the state that the pieces before it led to.
///
/// Where memory is wanting for an event that may come, its place is given with `Cause::Memory`. The state goes with
/// any refusal.
pub fn replay_from(alloc: Global, state: State, events: &[Event]) -> Result<State, (u64, Cause)>
    ensures { (start : Start) (past : Past) → IsAfter start past state → IsLegal start past →
        ReplaysAfter start past events.now result }
{
    let mut state = state;
    for place in 0..events.len() {
        match judge(alloc, state, events[place]) {
            Ok(next) => state = next,
            Err(cause) => return Err((place as u64, cause)),
        }
    }
    Ok(state)
}

/// Judges a history, oldest event first: gives what it leads to where every event may come after those before it,
/// and else the place of the first that may not, with the lowest cause that fits. Where memory is wanting for an
/// event that may come, its place is given with `Cause::Memory`.
///
/// The history begins with no process. What the judge does is written from the definitions, and shares with a desk
/// what `pt_signal` has for its values alone: the tests for equal pids, references and ids, the methods of `Ids`,
/// `Pick::fits`, and `Signal::answer_of_dead`.
pub fn replay(alloc: Global, events: &[Event]) -> Result<State, (u64, Cause)>
    ensures { Replays [] events.now result }
{
    replay_from(alloc, State::new(alloc), events)
}
