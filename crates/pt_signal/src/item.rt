//! The items of a mailbox, and which of them a receive takes.

ghost use Rattle.std.specs.Prelude.{◌≡◌};
ghost use Rattle.pt_signal.specs.Values.{fits};

use crate::{Pid, Reason, Ref};
use std::fmt;

/// What a message holds.
#[derive(Clone, Copy, Debug, PartialEq, Eq)]
pub struct Body {
    pub kind: u32,
    pub num: i64,
    /// A process that the message speaks of.
    pub who: Option<Pid>,
}

/// An item of a mailbox.
#[derive(Clone, Copy, Debug, PartialEq, Eq)]
pub enum Item {
    /// A message, with its sender.
    User(Pid, Body),
    /// A trapped exit signal: Erlang's `{'EXIT', Pid, Reason}`.
    Exit(Pid, Reason),
    /// The one answer to a monitor: Erlang's `{'DOWN', Ref, process, Pid, Reason}`.
    Down(Ref, Pid, Reason),
    /// The answer to the question whether a process is alive.
    Alive(Ref, Pid, bool),
}

/// Which items a selective receive takes.
#[derive(Clone, Copy, Debug, PartialEq, Eq)]
pub enum Pick {
    /// Every item.
    Any,
    /// Messages of this kind.
    Kind(u32),
    /// Messages from this process.
    From(Pid),
    /// Trapped exit signals of this process.
    ExitOf(Pid),
    /// The DOWN of this monitor.
    DownOf(Ref),
    /// The answer to this question whether a process is alive.
    AliveOf(Ref),
}

impl Pick {
    /// Whether a receive with this pick takes the item.
    pub fn fits(&self, item: &Item) -> bool
        ensures { result ≡ fits self.now item.now }
    {
        match (*self, *item) {
            (Pick::Any, _) => true,
            (Pick::Kind(kind), Item::User(_, body)) => body.kind == kind,
            (Pick::From(pid), Item::User(from, _)) => pid == from,
            (Pick::ExitOf(pid), Item::Exit(from, _)) => pid == from,
            (Pick::DownOf(monitor), Item::Down(answered, _, _)) => monitor == answered,
            (Pick::AliveOf(question), Item::Alive(answered, _, _)) => question == answered,
            _ => false,
        }
    }
}

/// Whether a process is alive, as it is printed.
#[derive(Clone, Copy)]
pub(crate) struct YesOrNo(pub(crate) bool);

impl fmt::Display for YesOrNo {
    ghost use Rattle.std.specs.Prelude.{Some};
    ghost use Rattle.pt_signal.specs.Text.{yes_or_no_text};

    ghost output = { λ x. Some (yes_or_no_text x.0) };

    fn fmt<W: fmt::Write>(&self, f: &mut fmt::Formatter<W>) -> fmt::Result {
        f.write_str(if self.0 { "yes" } else { "no" })
    }
}

impl fmt::Display for Body {
    ghost use Rattle.std.specs.Prelude.{Some};
    ghost use Rattle.pt_signal.specs.Text.{body_text};

    ghost output = { λ b. Some (body_text b) };

    fn fmt<W: fmt::Write>(&self, f: &mut fmt::Formatter<W>) -> fmt::Result {
        let Body { kind, num, who } = *self;
        match who {
            Some(pid) => write!(f, "{kind} {num} who {pid}"),
            None => write!(f, "{kind} {num}"),
        }
    }
}

impl fmt::Display for Item {
    ghost use Rattle.std.specs.Prelude.{Some};
    ghost use Rattle.pt_signal.specs.Text.{item_text};

    ghost output = { λ i. Some (item_text i) };

    fn fmt<W: fmt::Write>(&self, f: &mut fmt::Formatter<W>) -> fmt::Result {
        match self {
            Item::User(from, body) => write!(f, "user {from} {body}"),
            Item::Exit(from, reason) => write!(f, "exit {from} {reason}"),
            Item::Down(monitor, from, reason) => write!(f, "down {monitor} {from} {reason}"),
            Item::Alive(question, pid, alive) => {
                let answer = YesOrNo(*alive);
                write!(f, "alive {question} {pid} {answer}")
            }
        }
    }
}

impl fmt::Display for Pick {
    ghost use Rattle.std.specs.Prelude.{Some};
    ghost use Rattle.pt_signal.specs.Text.{pick_text};

    ghost output = { λ k. Some (pick_text k) };

    fn fmt<W: fmt::Write>(&self, f: &mut fmt::Formatter<W>) -> fmt::Result {
        match self {
            Pick::Any => f.write_str("any"),
            Pick::Kind(kind) => write!(f, "kind {kind}"),
            Pick::From(pid) => write!(f, "from {pid}"),
            Pick::ExitOf(pid) => write!(f, "exit-of {pid}"),
            Pick::DownOf(monitor) => write!(f, "down-of {monitor}"),
            Pick::AliveOf(question) => write!(f, "alive-of {question}"),
        }
    }
}
