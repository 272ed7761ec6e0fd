//! The events and processes that are printed.

ghost use Rattle.std.specs.Prelude.{◌≡◌};
ghost use Rattle.pt_auditor.specs.Selecting.{concerns, is_asked, is_asked_event, selects};

use pt_events::{Event, Stamped};
use pt_signal::Pid;

/// What is asked for of a history. It narrows what is printed, and never what is judged.
#[derive(Clone, Copy, Debug, PartialEq, Eq)]
pub struct Selection {
    /// One process alone, or all.
    pub pid: Option<Pid>,
    /// The least stamp of an event.
    pub from: u64,
    /// The greatest stamp of an event.
    pub to: u64,
}

/// Whether the event is of the process, or of another one together with it: its parent, its child, a sender to it, or a
/// receiver from it.
fn concerns(pid: Pid, event: Event) -> bool
    ensures { result ≡ concerns pid event }
{
    match event {
        Event::Born(child, parent, _) => pid == child || Some(pid) == parent,
        Event::Said(from, to, _) => pid == from || pid == to,
        Event::Came(from, to, _) => pid == from || pid == to,
        Event::Took(owner, _, _) => pid == owner,
        Event::Flag(owner, _) => pid == owner,
        Event::Left(owner, _) => pid == owner,
        Event::Refused(from, to) => pid == from || pid == to,
    }
}

impl Selection {
    /// Whether the process is asked for.
    pub fn has_process(&self, pid: Pid) -> bool
        ensures { result ≡ is_asked self.now.pid pid }
    {
        match self.pid {
            Some(asked) => asked == pid,
            None => true,
        }
    }

    /// Whether the event is asked for: its stamp is in the range, and it concerns the process, if one is asked for.
    pub fn has_event(&self, stamped: Stamped) -> bool
        ensures { result ≡ selects self.now stamped }
    {
        self.from <= stamped.stamp && stamped.stamp <= self.to && self.has_party(stamped.event)
    }

    fn has_party(&self, event: Event) -> bool
        ensures { result ≡ is_asked_event self.now.pid event }
    {
        match self.pid {
            Some(asked) => concerns(asked, event),
            None => true,
        }
    }
}
