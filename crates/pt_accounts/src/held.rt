//! What a process holds.

ghost use Rattle.std.specs.Prelude.{◌≡◌, length, is_some};
ghost use Rattle.std.specs.Map.{lookup};
ghost use Rattle.std.specs.List.{list_any};
ghost use Rattle.pt_signal.specs.Values.{same_ref};
ghost use Rattle.pt_signal.specs.Process.{held};
ghost use Rattle.pt_accounts.specs.Holding.{pid_held, state_held};

use pt_process::Process;
use pt_signal::{Ids, Pid, Ref};
use std::boxed::Box;

/// What a process holds, or held just after its exit.
#[derive(Drop)]
pub(crate) enum Held {
    Process(Box<Process>),
    /// No item, link, watch or monitor.
    Nothing { pid: Pid, traps: bool },
}

impl Held {
    pub(crate) fn pid(&self) -> Pid
        ensures { result ≡ pid_held self.now }
    {
        match self {
            Held::Process(process) => process.me(),
            Held::Nothing { pid, .. } => *pid,
        }
    }

    /// The number of items that wait.
    pub(crate) fn waiting(&self) -> usize
        ensures { result ≡ length (state_held self.now).waiting }
    {
        match self {
            Held::Process(process) => process.waiting().len(),
            Held::Nothing { .. } => 0,
        }
    }

    /// The ids under which it is linked with this process.
    pub(crate) fn linked(&self, peer: Pid) -> Option<Ids>
        ensures { result ≡ held (state_held self.now).links peer }
    {
        match self {
            Held::Process(process) => process.linked(peer),
            Held::Nothing { .. } => None,
        }
    }

    /// Whether a watch of this reference is kept here.
    pub(crate) fn kept(&self, monitor: Ref) -> bool
        ensures { result ≡ list_any (λ k. same_ref monitor k.0) (state_held self.now).kept }
    {
        match self {
            Held::Process(process) => process.kept(monitor),
            Held::Nothing { .. } => false,
        }
    }

    /// Whether a monitor of this reference is open here.
    pub(crate) fn watching(&self, monitor: Ref) -> bool
        ensures { result ≡ is_some (lookup (same_ref monitor) (state_held self.now).watching) }
    {
        match self {
            Held::Process(process) => process.watching(monitor),
            Held::Nothing { .. } => false,
        }
    }

    /// Gives up the lists if they are empty, as those of an exited process mostly are.
    pub(crate) fn shrink(&mut self)
        ensures pid { pid_held self.new ≡ pid_held self.old }
        ensures state { state_held self.new ≡ state_held self.old }
    {
        if let Held::Process(process) = self {
            if process.owed_len() == 0 && process.waiting().is_empty() {
                let pid = process.me();
                let traps = process.traps();
                *self = Held::Nothing { pid, traps };
            }
        }
    }
}
