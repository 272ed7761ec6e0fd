//! The events of a history, each with what it changed.

ghost use Rattle.std.specs.Prelude.{◌≡◌, ◌∷◌, ◌++◌, [], Err, None, IfErr, IfOk, OnOk, map};
ghost use Rattle.pt_events.specs.History.{Past, life};
ghost use Rattle.pt_judge.specs.Judge.{IsAfter, Judges};
ghost use Rattle.pt_judge.specs.Judging.{cause, known_state, now_is};
ghost use Rattle.pt_auditor.specs.Changes.{event_changes};
ghost use Rattle.pt_render.specs.Pages.{IsStepAdded, StepsFail, step_told, steps_after};

use pt_auditor::{Begun, Did};
use pt_chart::{Unwatched, Watch, Work};
use pt_events::Stamped;
use pt_judge::{Cause, State};
use std::alloc::{AllocError, Global};

/// An event of a history, and what it changed.
#[derive(Drop)]
pub struct Step {
    pub stamped: Stamped,
    /// What [`Begun`] returned for the event.
    pub then: Vec<Did>,
}

/// The events of a history, oldest first, each with what it changed. The history begins with no process.
///
/// Fails with the lowest cause that fits if an event may not come after those before it: no node has such a history.
/// Fails with [`Cause::Memory`] if there is no memory.
pub fn steps_of(alloc: Global, events: &[Stamped]) -> Result<Vec<Step>, Cause>
    ensures told { IfOk result (λ list. map step_told list.items ≡ steps_after [] events.now) }
    ensures fails { IfErr result (StepsFail [] events.now) }
{
    steps_watched(alloc, events, &Unwatched)
}

/// The same. Meanwhile the watch hears of each event.
pub fn steps_watched<P: Watch>(
    alloc: Global,
    events: &[Stamped],
    watch: &P,
) -> Result<Vec<Step>, Cause>
    ensures told { IfOk result (λ list. map step_told list.items ≡ steps_after [] events.now) }
    ensures fails { IfErr result (StepsFail [] events.now) }
{
    watch.begin(Work::Judge, Some(events.len() as u64));
    let mut state = State::new(alloc);
    let mut list = Vec::new(alloc);
    let mut rest = events;
    while let Some((first, more)) = rest.split_first() {
        match take_step(alloc, state, *first, &mut list) {
            Ok(next) => state = next,
            Err(cause) => return Err(cause),
        }
        rest = more;
        watch.count();
    }
    Ok(list)
}

/// The state after an event that is judged first. What it changed is added to the list.
#[tactic(auto, using(pt_judge::proofs::Trial::judged_some, pt_judge::proofs::Trial::judged_none))]
fn take_step(
    alloc: Global,
    state: State,
    stamped: Stamped,
    list: &mut Vec<Step>,
) -> Result<State, Cause>
    ensures adds { (past : Past) → IsAfter [] past state
        → IfOk result (λ next. IsStepAdded past stamped list.old.items list.new.items next) }
    ensures fails { (past : Past) → IsAfter [] past state
        → IfErr result (λ cause. Judges [] past stamped.event (Err cause)) }
{
    if let Some(cause) = state.cause(stamped.event) {
        return Err(cause);
    }
    match add(alloc, state, stamped, list) {
        Ok(next) => Ok(next),
        Err(_) => Err(Cause::Memory),
    }
}

/// Adds an event that may come, with what it changes, and returns the state after it.
fn add(
    alloc: Global,
    state: State,
    stamped: Stamped,
    list: &mut Vec<Step>,
) -> Result<State, AllocError>
    requires { cause (known_state state) stamped.event ≡ None }
    ensures told { OnOk result (map step_told list.new.items
        ≡ map step_told list.old.items ++ (stamped, event_changes (now_is state) stamped.event) ∷ []) }
    ensures goes_on { (past : Past) → IsAfter [] past state
        → IfOk result (λ next. IsAfter [] (stamped.event ∷ past) next) }
{
    let begun = Begun::new(alloc, &state, stamped.event)?;
    let next = state.after(alloc, stamped.event)?;
    let then = begun.changes(alloc, &next)?;
    list.push(Step { stamped, then })?;
    Ok(next)
}
