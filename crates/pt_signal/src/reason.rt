//! Why processes end.

use std::fmt;

/// An exit reason.
#[derive(Clone, Copy, Debug, PartialEq, Eq)]
pub enum Reason {
    /// The process had done its work.
    Normal,
    /// What an untrappable exit signal carries.
    Kill,
    /// How a process ends that was sent `Kill`.
    Killed,
    /// There is no such process.
    Noproc,
    /// The process was told to stop.
    Shutdown,
    /// Any other, by a number of the caller's own.
    Other(u32),
}

impl fmt::Display for Reason {
    ghost use Rattle.std.specs.Prelude.{Some};
    ghost use Rattle.pt_signal.specs.Text.{reason_text};

    ghost output = { λ r. Some (reason_text r) };

    fn fmt<W: fmt::Write>(&self, f: &mut fmt::Formatter<W>) -> fmt::Result {
        match self {
            Reason::Normal => f.write_str("normal"),
            Reason::Kill => f.write_str("kill"),
            Reason::Killed => f.write_str("killed"),
            Reason::Noproc => f.write_str("noproc"),
            Reason::Shutdown => f.write_str("shutdown"),
            Reason::Other(number) => write!(f, "other:{number}"),
        }
    }
}

/// What became of a process, as it is printed: `alive`, or `ended` and the reason of its exit.
#[derive(Clone, Copy, Debug)]
pub struct Fate(pub Option<Reason>);

impl fmt::Display for Fate {
    ghost use Rattle.std.specs.Prelude.{Some};
    ghost use Rattle.pt_signal.specs.Text.{fate_text};

    ghost output = { λ f. Some (fate_text f.0) };

    fn fmt<W: fmt::Write>(&self, f: &mut fmt::Formatter<W>) -> fmt::Result {
        match self.0 {
            Some(reason) => write!(f, "ended {reason}"),
            None => f.write_str("alive"),
        }
    }
}
