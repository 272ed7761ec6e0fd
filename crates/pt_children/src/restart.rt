//! Which children are started again, and which others with them.

ghost use Rattle.std.specs.Prelude.{◌≡◌};
ghost use Rattle.pt_children.specs.Restarts.{ends_from, starts_again};

use pt_signal::Reason;

/// Whether a child is started again when it has exited.
#[derive(Clone, Copy, Debug, PartialEq, Eq)]
pub enum Restart {
    /// Always.
    Permanent,
    /// Unless it exited with `normal` or `shutdown`.
    Transient,
    /// Never.
    Temporary,
}

impl Restart {
    /// Whether a child that exited by itself with this reason is started again.
    pub fn starts_again(&self, reason: Reason) -> bool
        ensures { result ≡ starts_again self.now reason }
    {
        match (*self, reason) {
            (Restart::Permanent, _) => true,
            (Restart::Temporary, _) => false,
            (Restart::Transient, Reason::Normal) => false,
            (Restart::Transient, Reason::Shutdown) => false,
            (Restart::Transient, _) => true,
        }
    }
}

/// Which others a supervisor ends and starts again if a child has exited that is to be started again.
#[derive(Clone, Copy, Debug, PartialEq, Eq)]
pub enum Strategy {
    /// No other.
    OneForOne,
    /// All others.
    OneForAll,
    /// Those that were listed after it.
    RestForOne,
}

impl Strategy {
    /// The place from which on children are ended if the child at `place` has exited; `count` if none is.
    pub fn ends_from(&self, place: usize, count: usize) -> usize
        ensures { result ≡ ends_from self.now place count }
    {
        match *self {
            Strategy::OneForOne => count,
            Strategy::OneForAll => 0,
            Strategy::RestForOne => place,
        }
    }
}
