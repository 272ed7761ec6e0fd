//! The children of a supervisor.

ghost use Rattle.std.specs.Prelude.{◌≡◌, ◌<◌, IfSome, None, Some, true, position, length};
ghost use Rattle.pt_children.specs.Children.{is_missing, leaving, revived_child};
ghost use Rattle.pt_children.specs.Hearing.{wanted_again};
ghost use Rattle.pt_signal.specs.Values.{is_pid};
ghost use Rattle.pt_children.specs.Calling.{place_of_id};
ghost use Rattle.pt_children.specs.Ending.{bids, stage_told};
ghost use Rattle.pt_children.specs.declared.home.Home.TheVariants.{Here};
ghost use Rattle.pt_children.specs.declared.trial.Trial.{Trial};

use crate::asked::Stage;
use crate::home::Home;
use crate::restart::Restart;
use crate::trial::Trial;
use pt_signal::{Pid, Reason, Ref};

/// How a supervisor ends a child: `shutdown` of a child's specification.
#[derive(Clone, Copy, Debug, PartialEq, Eq)]
pub enum Shutdown {
    /// By an exit signal `shutdown`. The supervisor waits for the exit however long that takes, as with Erlang's
    /// `infinity`. A child that traps exits gets the signal as an item, and exits by itself.
    Infinity,
    /// By an exit signal `shutdown`, and if the child has not exited after this time, by an exit signal `kill`: the
    /// timeout of Erlang's child specifications. The time is that of the crew's steps
    /// (`Births::now` of `pt_behaviour`).
    After(u64),
    /// By an exit signal `kill`, which cannot be trapped: `brutal_kill`.
    BrutalKill,
}

impl Shutdown {
    /// The reason of the first exit signal.
    pub fn bids(&self) -> Reason
        ensures { result ≡ bids self.now }
    {
        match *self {
            Shutdown::Infinity => Reason::Shutdown,
            Shutdown::After(_) => Reason::Shutdown,
            Shutdown::BrutalKill => Reason::Kill,
        }
    }

    /// How far a supervisor has come with a child that it monitors and tells so now to exit. A time to be killed at is
    /// at most `u64::MAX`.
    pub fn told(&self, monitor: Ref, now: u64) -> Stage
        ensures { result ≡ stage_told self.now monitor now }
    {
        match *self {
            Shutdown::Infinity => Stage::Waiting(monitor),
            Shutdown::After(time) => Stage::Until(monitor, now.saturating_add(time)),
            Shutdown::BrutalKill => Stage::Killed(monitor),
        }
    }
}

/// A child of a supervisor, in its place.
#[derive(Clone, Copy, Debug, PartialEq, Eq)]
pub struct Child {
    /// Its pid, until the supervisor gets its exit.
    pub pid: Option<Pid>,
    pub restart: Restart,
    pub shutdown: Shutdown,
    /// Whether the supervisor wants it alive.
    pub wanted: bool,
    /// What the program calls it.
    pub id: u64,
    /// Which start is the next one, and what follows if that fails.
    pub trial: Trial,
    /// On which desk it is started.
    pub home: Home,
}

impl Child {
    /// A child that is to be started on its supervisor's desk, and is ended by an exit signal `shutdown`. Its id is 0.
    pub fn new(restart: Restart) -> Child
        ensures { result ≡ record {
          pid = None;
          restart = restart;
          shutdown = Shutdown.Infinity;
          wanted = true;
          id = 0;
          trial = Trial.First;
          home = Here;
        } }
    {
        Child {
            pid: None,
            restart,
            shutdown: Shutdown::Infinity,
            wanted: true,
            id: 0,
            trial: Trial::First,
            home: Home::Here,
        }
    }

    /// The same child with this id.
    pub fn with_id(self, id: u64) -> Child
        ensures { result ≡ record self { id = id } }
    {
        Child { id, ..self }
    }

    /// The same child, to be ended in this way.
    pub fn ended_by(self, shutdown: Shutdown) -> Child
        ensures { result ≡ record self { shutdown = shutdown } }
    {
        Child { shutdown, ..self }
    }

    /// Whether it is to be started.
    pub fn is_missing(&self) -> bool
        ensures { result ≡ is_missing self.now }
    {
        self.wanted && self.pid.is_none()
    }

    /// Whether it is this process.
    pub fn is_of(&self, pid: Pid) -> bool
        ensures { result ≡ is_pid self.now.pid pid }
    {
        is_process(self.pid, pid)
    }

    /// The same child, which is to live again unless it is temporary. A start of it that failed is not waited for.
    pub(crate) fn revived(self) -> Child
        ensures { result ≡ revived_child self }
    {
        Child {
            wanted: self.wanted || self.restart != Restart::Temporary,
            trial: Trial::Again,
            ..self
        }
    }

    /// Whether it is to live again after it exited with this reason, ended by its supervisor (`bidden`) or by itself.
    pub fn lives_again(&self, bidden: bool, reason: Reason) -> bool
        ensures { result ≡ wanted_again bidden reason self.now }
    {
        if !self.wanted {
            return false;
        }
        if bidden {
            self.restart != Restart::Temporary
        } else {
            self.restart.starts_again(reason)
        }
    }

    /// Its pid, if it has one, and how it is ended.
    pub fn leaving(&self) -> Option<(Pid, Shutdown)>
        ensures { result ≡ leaving self.now }
    {
        match self.pid {
            Some(pid) => Some((pid, self.shutdown)),
            None => None,
        }
    }
}

/// Whether there is a process, and it is this one.
pub fn is_process(known: Option<Pid>, pid: Pid) -> bool
    ensures { result ≡ is_pid known pid }
{
    match known {
        Some(own) => own == pid,
        None => false,
    }
}

/// The place of a child by its pid.
pub fn place_of(children: &[Child], pid: Pid) -> Option<usize>
    ensures place { result ≡ position (λ c. is_pid c.pid pid) children.now }
    ensures within { IfSome result (λ i. i < length children.now) }
{
    children.iter().position(|child| child.is_of(pid))
}

/// The place of the first child with this id.
pub fn place_of_id(children: &[Child], id: u64) -> Option<usize>
    ensures place { result ≡ place_of_id id children.now }
    ensures within { IfSome result (λ i. i < length children.now) }
{
    children.iter().position(|child| child.id == id)
}
