//! What a supervisor is made of, as plain data.

ghost use Rattle.std.specs.Prelude.{◌≡◌};
ghost use Rattle.pt_children.specs.Specifying.{child_as};

use crate::children::{Child, Shutdown};
use crate::restart::{Restart, Strategy};
use pt_signal::Pid;

/// What a supervisor knows of a child: the tag that it is started with, whether it is started again, and how it is ended.
#[derive(Clone, Copy, Debug, PartialEq, Eq)]
pub struct ChildSpec {
    pub tag: u64,
    pub restart: Restart,
    pub shutdown: Shutdown,
    /// Whether the program starts it, on another desk (`Scheduler::child_to_start` of `pt_scheduler`).
    pub elsewhere: bool,
}

/// A supervisor without its children.
#[derive(Clone, Copy, Debug, PartialEq, Eq)]
pub struct SupervisorSpec {
    pub strategy: Strategy,
    /// The number of restarts that it makes within the span.
    pub most: usize,
    pub span: u64,
    /// Whether the span is one of time, and not of stamps of the desk.
    pub timed: bool,
    /// The process with which it exits.
    pub parent: Option<Pid>,
}

impl ChildSpec {
    /// A child that has not been started. Its id is the tag.
    pub fn child(&self) -> Child
        ensures { result ≡ child_as self.now }
    {
        let child = Child::new(self.restart)
            .ended_by(self.shutdown)
            .with_id(self.tag);
        if self.elsewhere {
            child.elsewhere()
        } else {
            child
        }
    }
}
