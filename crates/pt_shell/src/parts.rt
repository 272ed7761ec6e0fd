//! Parts of the texts of answers.

#![tactic(auto, unfolding(crate::specs::Text::turns_text, crate::specs::Text::then_text, crate::specs::Text::count_text, crate::specs::Text::stopped_text, crate::specs::Text::counts_text, crate::specs::Text::cause_line))]

ghost use Rattle.std.specs.Prelude.{◌≡◌};
ghost use Rattle.pt_shell.specs.Text.{stop_word};

use pt_judge::Cause;
use pt_node::Stopped;
use pt_shard::Stop;
use std::fmt;

pub(crate) fn word_of_stop(stop: Stop) -> &'static str
    ensures { result.now ≡ stop_word stop }
{
    match stop {
        Stop::Memory => "memory",
        Stop::Worn => "worn",
    }
}

/// The numbers of letters that turns posted and handled.
#[derive(Clone, Copy)]
pub(crate) struct Turns {
    pub(crate) posted: u64,
    pub(crate) handled: u64,
}

impl fmt::Display for Turns {
    ghost use Rattle.std.specs.Prelude.{Some};
    ghost use Rattle.pt_shell.specs.Text.{turns_text};

    ghost output = { λ t. Some (turns_text t.posted t.handled) };

    fn fmt<W: fmt::Write>(&self, f: &mut fmt::Formatter<W>) -> fmt::Result {
        let Turns { posted, handled } = *self;
        write!(f, "posted {posted} handled {handled}")
    }
}

/// Why a turn stopped.
#[derive(Clone, Copy)]
pub(crate) struct Then(pub(crate) Stop);

impl fmt::Display for Then {
    ghost use Rattle.std.specs.Prelude.{Some};
    ghost use Rattle.pt_shell.specs.Text.{then_text};

    ghost output = { λ t. Some (then_text t.0) };

    fn fmt<W: fmt::Write>(&self, f: &mut fmt::Formatter<W>) -> fmt::Result {
        let stop = word_of_stop(self.0);
        write!(f, ", then {stop}")
    }
}

/// The number of letters handled.
#[derive(Clone, Copy)]
pub(crate) struct Count(pub(crate) u64);

impl fmt::Display for Count {
    ghost use Rattle.std.specs.Prelude.{Some};
    ghost use Rattle.pt_shell.specs.Text.{count_text};

    ghost output = { λ c. Some (count_text c.0) };

    fn fmt<W: fmt::Write>(&self, f: &mut fmt::Formatter<W>) -> fmt::Result {
        let handled = self.0;
        write!(f, "handled {handled}")
    }
}

/// The desk whose turn stopped, and why.
#[derive(Clone, Copy)]
pub(crate) struct ThenAt(pub(crate) Stopped);

impl fmt::Display for ThenAt {
    ghost use Rattle.std.specs.Prelude.{Some};
    ghost use Rattle.pt_shell.specs.Text.{stopped_text};

    ghost output = { λ t. Some (stopped_text t.0) };

    fn fmt<W: fmt::Write>(&self, f: &mut fmt::Formatter<W>) -> fmt::Result {
        let desk = self.0.desk;
        let cause = word_of_stop(self.0.cause);
        write!(f, ", then desk {desk} {cause}")
    }
}

/// The numbers of items that arrived in a mailbox, were taken, and wait.
#[derive(Clone, Copy)]
pub(crate) struct Counts {
    pub(crate) arrived: u64,
    pub(crate) taken: u64,
    pub(crate) waiting: u64,
}

impl fmt::Display for Counts {
    ghost use Rattle.std.specs.Prelude.{Some};
    ghost use Rattle.pt_shell.specs.Text.{counts_text};

    ghost output = { λ c. Some (counts_text c.arrived c.taken c.waiting) };

    fn fmt<W: fmt::Write>(&self, f: &mut fmt::Formatter<W>) -> fmt::Result {
        let Counts {
            arrived,
            taken,
            waiting,
        } = *self;
        write!(f, " arrived {arrived} taken {taken} waiting {waiting}")
    }
}

/// The event that may not come next, and why.
#[derive(Clone, Copy)]
pub(crate) struct Contradiction {
    pub(crate) place: u64,
    pub(crate) cause: Cause,
}

impl fmt::Display for Contradiction {
    ghost use Rattle.std.specs.Prelude.{Some};
    ghost use Rattle.pt_shell.specs.Text.{cause_line};

    ghost output = { λ c. Some (cause_line c.place c.cause) };

    fn fmt<W: fmt::Write>(&self, f: &mut fmt::Formatter<W>) -> fmt::Result {
        let Contradiction { place, cause } = *self;
        write!(f, "event {place}: {cause}")
    }
}
