//! What an exit signal does to a process.

ghost use Rattle.std.specs.Prelude.{◌≡◌};
ghost use Rattle.pt_signal.specs.Process.{verdict};
ghost use Rattle.pt_process.specs.Outcome.{ruled};

use pt_signal::{Item, Pid, Reason};

/// The verdict on an exit signal.
#[derive(Clone, Copy, Debug)]
pub enum Verdict {
    /// It is dropped.
    Drops,
    /// It is trapped, as an item.
    Queues(Item),
    /// The process exits.
    Ends(Reason),
}

/// How an exit signal arrives.
#[derive(Clone, Copy, Debug)]
pub struct ExitSignal {
    pub from: Pid,
    pub reason: Reason,
    /// Whether a link sent it.
    pub by_link: bool,
}

impl ExitSignal {
    /// The verdict on it, by whether the receiver traps exits and whether it sent it itself: Erlang Reference
    /// Manual, chapter Processes, section Receiving Exit Signals.
    pub fn verdict(self, traps: bool, own: bool) -> Verdict
        ensures { ruled result ≡ verdict self.by_link traps own self.from self.reason }
    {
        match self.reason {
            Reason::Kill if !self.by_link => Verdict::Ends(Reason::Killed),
            _ if traps => Verdict::Queues(Item::Exit(self.from, self.reason)),
            Reason::Normal if !own => Verdict::Drops,
            _ => Verdict::Ends(self.reason),
        }
    }
}
