//! What one process sends another.

ghost use Rattle.std.specs.Prelude.{◌≡◌};
ghost use Rattle.std.specs.Option.{option_map};
ghost use Rattle.pt_signal.specs.Process.{answer_of_dead};

use crate::item::YesOrNo;
use crate::{Body, Ids, LinkId, Reason, Ref};
use std::fmt;

/// A signal, as the chapter Processes of the Erlang Reference Manual has them.
#[derive(Clone, Copy, Debug, PartialEq, Eq)]
pub enum Signal {
    /// A message.
    Message(Body),
    /// The sender links itself to the receiver under this id.
    Link(LinkId),
    /// The sender takes these ids of the link away.
    Unlink(Ids),
    /// An exit signal that no link sends: Erlang's `exit/2`.
    Exit(Reason),
    /// The sender, linked under these ids, has ended.
    LinkExit(Ids, Reason),
    /// The sender watches the receiver.
    Monitor(Ref),
    /// The sender watches it no more.
    Demonitor(Ref),
    /// The sender, watched under this reference, has ended.
    Down(Ref, Reason),
    /// The sender asks whether the receiver is alive.
    AliveAsk(Ref),
    /// The sender answers whether it is alive.
    AliveSay(Ref, bool),
}

impl Signal {
    /// What goes back where this signal comes to a process that is not alive: a link is answered by an exit
    /// signal with `noproc`, a monitor by its DOWN, the question whether it is alive by no, and all else vanishes.
    pub fn answer_of_dead(self) -> Option<Signal>
        ensures { result ≡ answer_of_dead self }
    {
        match self {
            Signal::Link(id) => Some(Signal::LinkExit(Ids::of(id), Reason::Noproc)),
            Signal::Monitor(monitor) => Some(Signal::Down(monitor, Reason::Noproc)),
            Signal::AliveAsk(question) => Some(Signal::AliveSay(question, false)),
            _ => None,
        }
    }
}

impl fmt::Display for Signal {
    ghost use Rattle.std.specs.Prelude.{Some};
    ghost use Rattle.pt_signal.specs.Text.{signal_text};

    ghost output = { λ x. Some (signal_text x) };

    fn fmt<W: fmt::Write>(&self, f: &mut fmt::Formatter<W>) -> fmt::Result {
        match self {
            Signal::Message(body) => write!(f, "message {body}"),
            Signal::Link(id) => write!(f, "link {id}"),
            Signal::Unlink(ids) => write!(f, "unlink {ids}"),
            Signal::Exit(reason) => write!(f, "exit {reason}"),
            Signal::LinkExit(ids, reason) => write!(f, "link-exit {ids} {reason}"),
            Signal::Monitor(monitor) => write!(f, "monitor {monitor}"),
            Signal::Demonitor(monitor) => write!(f, "demonitor {monitor}"),
            Signal::Down(monitor, reason) => write!(f, "down {monitor} {reason}"),
            Signal::AliveAsk(question) => write!(f, "alive-ask {question}"),
            Signal::AliveSay(question, alive) => {
                let answer = YesOrNo(*alive);
                write!(f, "alive-say {question} {answer}")
            }
        }
    }
}
