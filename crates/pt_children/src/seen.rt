//! What a supervisor tells of its children.

ghost use Rattle.std.specs.Prelude.{◌≡◌, IfOk, is_some, map};
ghost use Rattle.std.specs.List.{count_by};
ghost use Rattle.pt_children.specs.Children.{is_missing};
ghost use Rattle.pt_children.specs.Seen.{child_seen, child_state, children_counted, has_process};

use crate::children::Child;
use pt_signal::Pid;
use std::alloc::{AllocError, Global};

/// What has become of a child's process, by all that its supervisor has heard.
#[derive(Clone, Copy, Debug, PartialEq, Eq)]
pub enum ChildState {
    /// It is alive. Erlang's `which_children` has the pid then.
    Running(Pid),
    /// Its supervisor is to start it: its time has not come, or a start failed, or the program is starting it on another
    /// desk. Erlang's `restarting`.
    Restarting,
    /// It is not alive, and is not to be started: Erlang's `undefined`.
    Undefined,
}

/// A child, as its supervisor tells of it.
#[derive(Clone, Copy, Debug, PartialEq, Eq)]
pub struct ChildSeen {
    pub id: u64,
    pub state: ChildState,
}

/// How many children a supervisor has.
#[derive(Clone, Copy, Debug, PartialEq, Eq)]
pub struct ChildCounts {
    /// All, alive or not.
    pub specs: usize,
    /// Those that are alive, by all that the supervisor has heard.
    pub active: usize,
    /// Those that it is to start.
    pub restarting: usize,
}

impl Child {
    /// What has become of its process.
    pub fn state(&self) -> ChildState
        ensures { result ≡ child_state self.now }
    {
        match (self.pid, self.wanted || self.home.is_abroad()) {
            (Some(pid), _) => ChildState::Running(pid),
            (None, true) => ChildState::Restarting,
            (None, false) => ChildState::Undefined,
        }
    }

    /// Its id, and what has become of its process.
    fn seen(&self) -> ChildSeen
        ensures { result ≡ child_seen self.now }
    {
        ChildSeen {
            id: self.id,
            state: self.state(),
        }
    }
}

/// These children in order, as their supervisor tells of them.
pub fn all_seen(alloc: Global, children: &[Child]) -> Result<Vec<ChildSeen>, AllocError>
    ensures { IfOk result (λ v. v.items ≡ map child_seen children.now) }
{
    children.iter().map(|child| child.seen()).collect(alloc)
}

/// How many of these are alive.
fn count_active(children: &[Child]) -> usize
    ensures { result ≡ count_by has_process children.now }
{
    children.iter().filter(|child| child.pid.is_some()).count()
}

/// How many of these are to be started.
fn count_missing(children: &[Child]) -> usize
    ensures { result ≡ count_by is_missing children.now }
{
    children.iter().filter(|child| child.is_missing()).count()
}

/// How many these are.
pub fn counted(children: &[Child]) -> ChildCounts
    ensures { result ≡ children_counted children.now }
{
    ChildCounts {
        specs: children.len(),
        active: count_active(children),
        restarting: count_missing(children),
    }
}
