//! A node in which no letter is left over.

ghost use Rattle.std.specs.Prelude.{◌≡◌, [], ◌++◌, reverse, is_some, IfOk, IfSome};
ghost use Rattle.std.specs.Map.{lookup};
ghost use Rattle.std.specs.List.{list_any};
ghost use Rattle.pt_signal.specs.Values.{same_ref};
ghost use Rattle.pt_signal.specs.Process.{held};
ghost use Rattle.pt_events.specs.History.{IsLegal, Past, life, state, open_monitors};
ghost use Rattle.pt_events.specs.Journal.{IsMerge, events};
ghost use Rattle.pt_laws.specs.Laws.{LegalWithLeftOver};
ghost use Rattle.pt_laws.specs.Load.{IsQuiet};
ghost use Rattle.pt_accounts.specs.LivesState.{AreAllPids, InEveryMerge, account_in};
ghost use Rattle.pt_gathered.specs.Gathered.{begins, journals, over};
ghost use Rattle.pt_gathered.specs.Keeping.{IsKeptFor};
ghost use Rattle.pt_gathered.specs.Pasts.{GoesOnFrom};

use crate::kept::Kept;
use crate::settled::Settled;
use pt_accounts::Account;
use pt_events::Stamped;
use pt_signal::{Ids, Pid, Ref};
use std::alloc::AllocError;
use std::marker::Model;

/// A node in which no letter is left over, what became of its processes, and the list of their pids.
///
/// It is a [`Settled`] node and the list. [`settled`](Quiet::settled) lends the settled node, which has the laws, the
/// settings and the other calls. What the quiet node returns of a process holds in every merge of the journals. Only
/// `history` and `state` take memory.
#[derive(Drop)]
pub struct Quiet {
    settled: Settled,
    pids: Vec<Pid>,
}

impl Model for Quiet {
    ghost use Rattle.pt_accounts.specs.LivesState.{AreAllPids, InEveryMerge};
    ghost use Rattle.pt_gathered.specs.Gathered.{begins, journals};
    ghost use Rattle.pt_gathered.specs.Quiet.{QuietState};

    ghost Value = { QuietState };

    ghost view = { λ q. q.settled };

    ghost invariant = { λ q. InEveryMerge (journals q.settled.gathered)
        (λ past. AreAllPids (begins q.settled.gathered) past q.pids.items) };
}

impl Quiet {
    pub(crate) fn of(settled: Settled, pids: Vec<Pid>) -> Quiet
        requires { InEveryMerge (journals settled.gathered)
            (λ past. AreAllPids (begins settled.gathered) past pids.items) }
        ensures { result ≡ settled }
    {
        Quiet { settled, pids }
    }

    /// The settled node, to be read.
    pub fn settled(&self) -> &Settled
        ensures { result.now ≡ self.now }
    {
        &self.settled
    }

    /// The settled node, without the list of its processes. It takes no memory.
    pub fn into_settled(self) -> Settled
        ensures { result ≡ self }
    {
        self.settled
    }

    /// Takes out what was kept of the node's directory, as [`Settled::take_kept`] does.
    pub fn take_kept(&mut self) -> Option<Kept>
        ensures same { self.new ≡ self.old }
        ensures kept { IfSome result (λ k. IsKeptFor self.old.gathered k) }
    {
        self.settled.take_kept()
    }

    /// The number of letters handled, staying at `u64::MAX` once it is reached.
    pub fn handled(&self) -> u64
        ensures { result ≡ self.now.handled }
    {
        self.settled.handled()
    }

    /// The events of all desks in the order of stamp, then desk: a legal history with no letter in flight. Put after
    /// what the node continues from, it is such a history from the very beginning on. Fails only if there is no memory.
    pub fn history(&self) -> Result<Vec<Stamped>, AllocError>
        ensures merge { IfOk result (λ h. IsMerge (journals self.now.gathered) (reverse h.items)) }
        ensures legal { IfOk result
            (λ h. LegalWithLeftOver (begins self.now.gathered) (reverse h.items) (over self.now.gathered)) }
        ensures quiet { IfOk result (λ h. IsQuiet (begins self.now.gathered) (events (reverse h.items))) }
        ensures whole { IfOk result (λ h. (past : Past) → GoesOnFrom past self.now.gathered
            → IsLegal [] (events (reverse h.items) ++ past) × IsQuiet [] (events (reverse h.items) ++ past)) }
    {
        self.settled.history()
    }

    /// The pids of all processes ever spawned, each once, by shard, slot and version.
    pub fn pids(&self) -> &[Pid]
        ensures { InEveryMerge (journals self.now.gathered)
            (λ past. AreAllPids (begins self.now.gathered) past result.now) }
    {
        self.pids.as_slice()
    }

    /// Why the process exited, if it has, and how many items arrived in its mailbox, were taken, and wait or were left
    /// at its exit. `None` exactly if it was never spawned. In a node that was resumed the counts begin with what
    /// waited then. They are 0 for a process that had exited before.
    pub fn account(&self, pid: Pid) -> Option<Account>
        ensures { InEveryMerge (journals self.now.gathered)
            (λ past. result ≡ account_in (begins self.now.gathered) past pid) }
    {
        self.settled.account(pid)
    }

    /// The ids under which a process is linked with another one, or was just after its own exit. None if it had exited
    /// before the node was resumed.
    pub fn linked(&self, pid: Pid, peer: Pid) -> Option<Ids>
        ensures { InEveryMerge (journals self.now.gathered)
            (λ past. result ≡ held (state (begins self.now.gathered) past pid).links peer) }
    {
        self.settled.linked(pid, peer)
    }

    /// Whether a process is watched under this reference: Erlang's `monitored_by` of `process_info`, of one monitor. For
    /// an exited process, whether it was at its exit. False if it had exited before the node was resumed.
    pub fn kept(&self, target: Pid, monitor: Ref) -> bool
        ensures { InEveryMerge (journals self.now.gathered)
            (λ past.
            result ≡ list_any (λ k. same_ref monitor k.0) (state (begins self.now.gathered) past target).kept) }
    {
        self.settled.kept(target, monitor)
    }

    /// Whether a process's monitor of this reference is open: Erlang's `monitors` of `process_info`, of one monitor. False
    /// once the process has exited.
    pub fn watching(&self, watcher: Pid, monitor: Ref) -> bool
        ensures { InEveryMerge (journals self.now.gathered)
            (λ past.
            result
            ≡ is_some (lookup (same_ref monitor) (open_monitors (life (begins self.now.gathered) past watcher)))) }
    {
        self.settled.watching(watcher, monitor)
    }
}
