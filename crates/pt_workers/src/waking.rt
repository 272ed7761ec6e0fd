//! The processes that have something new, read from the events of a journal.

ghost use Rattle.std.specs.Prelude.{◌≡◌, MatchOption};
ghost use Rattle.pt_workers.specs.Waking as spec;

use pt_events::{Event, Stamped};
use pt_signal::Pid;

/// The next process that got a signal, or exited, in the events from the place `at` on.
///
/// It returns them in order, once for each such event. `at` is then the place after that event, or after the last event
/// if there is none. So a caller that keeps the place gets only what is new, in time that grows with that. No other
/// process got an item or exited by these events.
pub fn next_woken(events: &[Stamped], at: &mut usize) -> Option<Pid>
    ensures { MatchOption result (spec.NoneIsWoken events.now at.old at.new)
        (λ p. spec.IsNextWoken events.now at.old at.new p) }
{
    let mut place = *at;
    while place < events.len() {
        if let Some(pid) = woken_by(events[place].event) {
            *at = place + 1;
            return Some(pid);
        }
        place += 1;
    }
    *at = place;
    None
}

/// The process that got a signal by the event, or exited by it.
fn woken_by(event: Event) -> Option<Pid>
    ensures { result ≡ spec.woken_by event }
{
    match event {
        Event::Came(_, to, _) => Some(to),
        Event::Left(pid, _) => Some(pid),
        _ => None,
    }
}
