//! Which start of a child is the next one, and what follows if it fails.

ghost use Rattle.std.specs.Prelude.{◌≡◌, ◌≤◌, Some, length};
ghost use Rattle.pt_children.specs.Children.{is_by_call, is_missing};
ghost use Rattle.pt_children.specs.Spans.{NoneBetween};
ghost use Rattle.pt_children.specs.Trying.{earlier, failed_at, failed_child, failed_trial, first_failed, goes_past, is_accident};
ghost use Rattle.pt_children.specs.Trying.{has_failed, has_failed_first, is_startable, joined_child, started_child};
ghost use Rattle.pt_children.specs.Trying.{tried_at, unstarted_child};

use crate::children::Child;
use crate::restart::Strategy;
use pt_shard::Fault;
use pt_signal::Pid;

/// Which start of a child is the next one. It says what follows if that fails.
#[derive(Clone, Copy, Debug, PartialEq, Eq)]
pub enum Trial {
    /// The first one, as its supervisor begins. If it fails, the supervisor gives up.
    First,
    /// One that a call asked for. If it fails, the child is not wanted any more.
    Asked,
    /// One after the child has exited. If it fails, it is tried again, and that counts as a restart.
    Again,
    /// The last one failed when the desk's clock was so far. It is to be tried again.
    Failed(u64),
    /// The first one failed.
    Over,
}

impl Trial {
    /// The desk's clock as the last start failed, if it is to be tried again.
    pub fn failed_at(&self) -> Option<u64>
        ensures { result ≡ failed_at self.now }
    {
        match *self {
            Trial::Failed(at) => Some(at),
            _ => None,
        }
    }

    /// Whether a call asked for the next start.
    fn is_by_call(&self) -> bool
        ensures { result ≡ is_by_call self.now }
    {
        match *self {
            Trial::Asked => true,
            _ => false,
        }
    }

    /// Whether the first start failed.
    pub(crate) fn has_failed_first(&self) -> bool
        ensures { result ≡ has_failed_first self.now }
    {
        match *self {
            Trial::Over => true,
            _ => false,
        }
    }

    /// Whether a start failed: it is tried again in its turn, or its supervisor gives up.
    fn has_failed(&self) -> bool
        ensures { result ≡ has_failed self.now }
    {
        self.failed_at().is_some() || self.has_failed_first()
    }

    /// What is to come once a start has failed.
    fn failed(self, clock: u64) -> Trial
        ensures { result ≡ failed_trial clock self }
    {
        match self {
            Trial::First => Trial::Over,
            Trial::Again => Trial::Failed(clock),
            Trial::Asked => Trial::Asked,
            Trial::Failed(at) => Trial::Failed(at),
            Trial::Over => Trial::Over,
        }
    }
}

impl Child {
    /// Whether it is to be started now: it is missing, and no start of it has failed.
    pub fn is_startable(&self) -> bool
        ensures { result ≡ is_startable self.now }
    {
        self.is_missing() && !self.trial.has_failed()
    }

    /// The desk's clock as its start failed, if it is to be tried again.
    pub fn tried_at(&self) -> Option<u64>
        ensures { result ≡ tried_at self.now }
    {
        if self.is_missing() {
            self.trial.failed_at()
        } else {
            None
        }
    }

    /// The same child, which was started as this process.
    pub fn started(self, pid: Pid) -> Child
        ensures { result ≡ started_child pid self }
    {
        Child {
            pid: Some(pid),
            trial: Trial::Again,
            ..self
        }
    }

    /// The same child, with which its supervisor is linked, and which was started on another desk as this process.
    pub fn joined(self, pid: Pid) -> Child
        ensures { result ≡ joined_child pid self }
    {
        self.started(pid).elsewhere()
    }

    /// The same child, whose start has failed. If a call asked for that, it is not wanted any more.
    fn failed(self, clock: u64) -> Child
        ensures { result ≡ failed_child clock self }
    {
        Child {
            wanted: self.wanted && !self.trial.is_by_call(),
            trial: self.trial.failed(clock),
            ..self
        }
    }

    /// The same child, which was not started for this reason. An accident changes nothing.
    pub fn unstarted(self, clock: u64, fault: Fault) -> Child
        ensures { result ≡ unstarted_child clock fault self }
    {
        if is_accident(fault) {
            self
        } else {
            self.failed(clock)
        }
    }

    /// Whether its supervisor starts those behind it: it is not missing, or they need not wait until it is started.
    pub fn goes_past(&self, strategy: Strategy) -> bool
        ensures { result ≡ goes_past strategy (Some self.now) }
    {
        !self.is_missing() || self.trial.failed_at().is_some() && strategy == Strategy::OneForOne
    }
}

/// Whether a start fails by accident: there was no memory, or no stamp. Then nobody has failed, and it is tried again.
pub(crate) fn is_accident(fault: Fault) -> bool
    ensures { result ≡ is_accident fault }
{
    match fault {
        Fault::Memory => true,
        Fault::Worn => true,
        _ => false,
    }
}

/// Of two children whose starts failed that which failed first, and when.
fn earlier(before: Option<(usize, u64)>, place: usize, at: Option<u64>) -> Option<(usize, u64)>
    ensures { result ≡ earlier before place at }
{
    match (before, at) {
        (_, None) => before,
        (Some((_, first)), Some(at)) if first <= at => before,
        (_, Some(at)) => Some((place, at)),
    }
}

/// The place of the child that is to be tried again first: that whose start failed first. Each that is to be started is
/// from the place `from` on, and before `end`.
pub(crate) fn first_failed(children: &[Child], from: usize, end: usize) -> Option<(usize, u64)>
    requires ordered { from ≤ end }
    requires within { end ≤ length children.now }
    requires before { NoneBetween is_missing 0 from children.now }
    requires behind { NoneBetween is_missing end (length children.now) children.now }
    ensures { result ≡ first_failed children.now (length children.now) }
{
    let mut first = None;
    for place in from..end {
        first = earlier(first, place, children[place].tried_at());
    }
    first
}
