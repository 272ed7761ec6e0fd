//! How far a supervisor has come in ending a child.

ghost use Rattle.std.specs.Prelude.{◌≡◌};
ghost use Rattle.pt_children.specs.Ending.{gone_in, is_ref, monitor_of, stage_of, unless_by};

use pt_signal::{Pid, Ref};

/// What a supervisor has done to end a child.
#[derive(Clone, Copy, Debug, PartialEq, Eq)]
pub enum Stage {
    /// It found that the child had exited before.
    Gone,
    /// It monitors the child, and has not told it to exit yet.
    Watched(Ref),
    /// It told the child to exit, and no time ends the wait.
    Waiting(Ref),
    /// It told the child to exit, and kills it at this time if it has not exited before.
    Until(Ref, u64),
    /// It killed the child.
    Killed(Ref),
}

impl Stage {
    /// The monitor of the child, if it has one.
    pub fn monitor(&self) -> Option<Ref>
        ensures { result ≡ monitor_of self.now }
    {
        match *self {
            Stage::Gone => None,
            Stage::Watched(monitor) => Some(monitor),
            Stage::Waiting(monitor) => Some(monitor),
            Stage::Until(monitor, _) => Some(monitor),
            Stage::Killed(monitor) => Some(monitor),
        }
    }
}

/// The child that a supervisor ends, and what it has done to end it.
#[derive(Clone, Copy, Debug, PartialEq, Eq)]
pub struct Asked {
    pub pid: Pid,
    pub stage: Stage,
}

impl Asked {
    /// Whether the child is monitored by this monitor.
    fn is_by(&self, monitor: Ref) -> bool
        ensures { result ≡ is_ref (monitor_of self.now.stage) monitor }
    {
        match self.stage.monitor() {
            Some(own) => own == monitor,
            None => false,
        }
    }
}

/// What was done to end this child, if it is the one that is ended.
pub fn stage_of(asked: Option<Asked>, pid: Pid) -> Option<Stage>
    ensures { result ≡ stage_of asked pid }
{
    match asked {
        Some(asked) if asked.pid == pid => Some(asked.stage),
        _ => None,
    }
}

/// The child that is ended, unless it is monitored by this monitor.
pub fn unless_by(asked: Option<Asked>, monitor: Ref) -> Option<Asked>
    ensures { result ≡ unless_by monitor asked }
{
    match asked {
        Some(asked) if asked.is_by(monitor) => None,
        _ => asked,
    }
}

/// The child that was found to have exited, if the one that is ended was.
pub fn gone_in(asked: Option<Asked>) -> Option<Pid>
    ensures { result ≡ gone_in asked }
{
    match asked {
        Some(
            Asked {
                pid,
                stage: Stage::Gone,
            },
        ) => Some(pid),
        _ => None,
    }
}
