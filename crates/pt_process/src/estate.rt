//! What an exited process owes.

ghost use Rattle.std.specs.Prelude.{◌≡◌, ◌<◌, length, slice_get, Some};
ghost use Rattle.pt_signal.specs.Process.{sent};

use crate::Mailbox;
use pt_entries::Rows;
use pt_signal::{Ids, Pid, Reason, Ref, Signal};
use std::marker::Model;

/// What a process leaves at its exit: the signals that it owes, and the items that waited in its mailbox.
///
/// It owes an exit signal to each linked process, then a DOWN to each watcher, then a demonitor for each of its own
/// monitors, each kind in order of entry.
#[derive(Drop)]
pub struct Estate {
    pub(crate) me: Pid,
    pub(crate) reason: Reason,
    pub(crate) links: Rows<Pid, Ids>,
    pub(crate) kept: Rows<(Ref, Pid), ()>,
    pub(crate) watching: Rows<Ref, Pid>,
    pub(crate) waiting: Mailbox,
}

impl Model for Estate {
    ghost use Rattle.std.specs.Prelude.{[], false};
    ghost use Rattle.std.specs.Map.{keys_of};
    ghost use Rattle.pt_signal.specs.Process.{estate};
    ghost use Rattle.pt_process.specs.ProcessView.{Owing};

    ghost Value = { Owing };

    ghost view = { λ e. record {
      from = e.me;
      owed = estate e.me
          (record { waiting = []; links = e.links; watching = e.watching; kept = keys_of e.kept; traps = false })
          e.reason;
      waiting = e.waiting;
    } };
}

impl Estate {
    /// The number of signals that are owed.
    pub fn len(&self) -> usize
        ensures { result ≡ length self.now.owed }
    {
        self.links.len() + self.kept.len() + self.watching.len()
    }

    /// The receiver of the signal with this number, and the signal.
    pub fn owed(&self, i: usize) -> (Pid, Signal)
        requires { i < length self.now.owed }
        ensures { slice_get self.now.owed i ≡ Some (sent self.now.from result.0 result.1) }
    {
        let links = self.links.len();
        if i < links {
            let (peer, ids) = self.links.at(i);
            return (peer, Signal::LinkExit(ids, self.reason));
        }
        let kept = self.kept.len();
        if i - links < kept {
            let ((monitor, watcher), _) = self.kept.at(i - links);
            return (watcher, Signal::Down(monitor, self.reason));
        }
        let (monitor, watched) = self.watching.at(i - links - kept);
        (watched, Signal::Demonitor(monitor))
    }

    /// The items that waited in the mailbox.
    pub fn into_mailbox(self) -> Mailbox
        ensures { result ≡ self.waiting }
    {
        self.waiting
    }
}
