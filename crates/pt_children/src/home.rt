//! The desk on which a child is started.

ghost use Rattle.std.specs.Prelude.{◌≡◌, ◌<◌, IfSome, ◌&&◌, ◌==◌, length, position};
ghost use Rattle.pt_children.specs.declared.home.Home.TheVariants.{Elsewhere};
ghost use Rattle.pt_children.specs.Homes.{arrived_child, asked_child, is_abroad, is_awaited, is_coming, is_here};
ghost use Rattle.pt_children.specs.Homes.{is_unanswered, is_untold, is_untold_child, place_awaited};
ghost use Rattle.pt_children.specs.Homes.{place_unanswered, place_untold, told_child, unmet_child};
ghost use Rattle.pt_children.specs.Trying.{missed_child, refused_child};

use crate::children::Child;
use crate::trial::is_accident;
use pt_shard::Fault;
use pt_signal::Pid;

/// On which desk a child is started, and how far that has come if the program starts it on another.
#[derive(Clone, Copy, Debug, PartialEq, Eq)]
pub enum Home {
    /// On the desk of its supervisor, which spawns it.
    Here,
    /// On another desk, where the program starts it once its supervisor asks for that.
    Elsewhere,
    /// On another desk. Its supervisor waits until the program has started it, and the program was not asked yet.
    Awaited,
    /// On another desk. The program was asked to start it, and its supervisor waits for the answer.
    Told,
    /// On another desk, where the program has started this process. Its supervisor links with it next.
    Arrived(Pid),
    /// On another desk, where the program has not started it for this reason. Its supervisor notes that next.
    Missed(Fault),
}

impl Home {
    /// Whether its supervisor spawns it.
    pub fn is_here(&self) -> bool
        ensures { result ≡ is_here self.now }
    {
        match *self {
            Home::Here => true,
            _ => false,
        }
    }

    /// Whether its supervisor waits for the program's answer, and the program was not asked yet.
    fn is_untold(&self) -> bool
        ensures { result ≡ is_untold self.now }
    {
        match *self {
            Home::Awaited => true,
            _ => false,
        }
    }

    /// Whether its supervisor waits for the program's answer.
    fn is_unanswered(&self) -> bool
        ensures { result ≡ is_unanswered self.now }
    {
        match *self {
            Home::Awaited | Home::Told => true,
            _ => false,
        }
    }

    /// Whether its supervisor waits for the program's answer, or has not made of it yet what it says.
    pub fn is_abroad(&self) -> bool
        ensures { result ≡ is_abroad self.now }
    {
        match *self {
            Home::Here | Home::Elsewhere => false,
            _ => true,
        }
    }
}

impl Child {
    /// The same child, to be started on another desk by the program. Its supervisor asks for that as its turn comes
    /// ([`Child::is_awaited`]), and waits until `Supervisor::child_started` of `pt_supervisor` or
    /// `Supervisor::child_not_started` answers.
    pub fn elsewhere(self) -> Child
        ensures { result ≡ record self { home = Elsewhere } }
    {
        Child {
            home: Home::Elsewhere,
            ..self
        }
    }

    /// Whether it has no process, and is being started on another desk.
    pub fn is_coming(&self) -> bool
        ensures { result ≡ is_coming self.now }
    {
        self.pid.is_none() && self.home.is_abroad()
    }

    /// Whether the program is to start it on another desk, and was not asked yet.
    fn is_untold(&self) -> bool
        ensures { result ≡ is_untold_child self.now }
    {
        self.pid.is_none() && self.home.is_untold()
    }

    /// Whether the program is to start it on another desk, and then to say so. Its supervisor neither starts another child
    /// nor exits before the answer.
    pub fn is_awaited(&self) -> bool
        ensures { result ≡ is_awaited self.now }
    {
        self.pid.is_none() && self.home.is_unanswered()
    }

    /// The same child, which its supervisor has the program start.
    pub fn asked_for(self) -> Child
        ensures { result ≡ asked_child self }
    {
        Child {
            home: Home::Awaited,
            ..self
        }
    }

    /// The same child, which the program was asked to start.
    pub fn told(self) -> Child
        ensures { result ≡ told_child self }
    {
        Child {
            home: Home::Told,
            ..self
        }
    }

    /// The same child, which the program says it has not started for this reason.
    pub fn unmet(self, fault: Fault) -> Child
        ensures { result ≡ unmet_child fault self }
    {
        Child {
            home: Home::Missed(fault),
            ..self
        }
    }

    /// The same child, which the program has started as this process.
    pub fn arrived(self, pid: Pid) -> Child
        ensures { result ≡ arrived_child pid self }
    {
        Child {
            home: Home::Arrived(pid),
            ..self
        }
    }

    /// The same child, which the program has not started for this reason.
    pub fn refused(self, clock: u64, fault: Fault) -> Child
        ensures { result ≡ refused_child clock fault self }
    {
        self.elsewhere().unstarted(clock, fault)
    }

    /// The same child, with whose process its supervisor was not linked for this reason. After an accident it tries that
    /// again.
    pub fn missed(self, clock: u64, fault: Fault) -> Child
        ensures { result ≡ missed_child clock fault self }
    {
        if is_accident(fault) {
            self
        } else {
            self.refused(clock, fault)
        }
    }
}

/// The place of the first child that the program is to start on another desk, and was not asked to start yet.
pub fn place_untold(children: &[Child]) -> Option<usize>
    ensures place { result ≡ place_untold children.now }
    ensures within { IfSome result (λ i. i < length children.now) }
{
    children.iter().position(|child| child.is_untold())
}

/// The place of the first child of which the program is to say whether it was started.
pub fn place_unanswered(children: &[Child]) -> Option<usize>
    ensures place { result ≡ place_unanswered children.now }
    ensures within { IfSome result (λ i. i < length children.now) }
{
    children.iter().position(|child| child.is_awaited())
}

/// The place of the first child with this id of which the program is to say whether it was started.
pub fn place_awaited(children: &[Child], id: u64) -> Option<usize>
    ensures place { result ≡ place_awaited id children.now }
    ensures within { IfSome result (λ i. i < length children.now) }
{
    children
        .iter()
        .position(|child| child.is_awaited() && child.id == id)
}
