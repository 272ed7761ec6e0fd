//! The lines of a summary.

use pt_gathered::Account;
use pt_signal::{Fate, Pid};
use std::fmt;

/// What became of a process.
#[derive(Clone, Copy)]
pub(crate) struct ProcessLine {
    pub(crate) pid: Pid,
    pub(crate) account: Account,
}

/// The last line of a summary.
#[derive(Clone, Copy)]
pub(crate) struct Totals {
    /// The number of events of the gathered journals.
    pub(crate) events: u64,
    /// The number of letters left over.
    pub(crate) left_over: u64,
    /// The number of letters that settling delivered.
    pub(crate) settled: u64,
}

impl fmt::Display for ProcessLine {
    ghost use Rattle.std.specs.Prelude.{Some};
    ghost use Rattle.pt_report.specs.Lines.{account_text};

    ghost output = { λ l. Some (account_text l.pid l.account) };

    fn fmt<W: fmt::Write>(&self, f: &mut fmt::Formatter<W>) -> fmt::Result {
        let ProcessLine { pid, account } = *self;
        let Account {
            ended,
            arrived,
            taken,
            waiting,
        } = account;
        let fate = Fate(ended);
        write!(
            f,
            "{pid} {fate} arrived {arrived} taken {taken} waiting {waiting}"
        )
    }
}

impl fmt::Display for Totals {
    ghost use Rattle.std.specs.Prelude.{Some};
    ghost use Rattle.pt_report.specs.Lines.{totals_text};

    ghost output = { λ t. Some (totals_text t) };

    fn fmt<W: fmt::Write>(&self, f: &mut fmt::Formatter<W>) -> fmt::Result {
        let Totals {
            events,
            left_over,
            settled,
        } = *self;
        write!(f, "events {events} left-over {left_over} settled {settled}")
    }
}
