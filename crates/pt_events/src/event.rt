//! What happens to processes.

use pt_signal::{Item, LinkId, Pick, Pid, Reason, Route, Signal};
use std::fmt;

/// One thing that happened to a process.
#[derive(Clone, Copy, Debug, PartialEq, Eq)]
pub enum Event {
    /// A process began; its parent, if one process made it, and the id of the link with the parent, if they
    /// were linked at once.
    Born(Pid, Option<Pid>, Option<LinkId>),
    /// The first process sent the second a signal.
    Said(Pid, Pid, Signal),
    /// A signal of the first process came to the second.
    Came(Pid, Pid, Signal),
    /// The process took an item out of its mailbox.
    Took(Pid, Pick, Item),
    /// The process set its `trap_exit` flag.
    Flag(Pid, bool),
    /// The process ended by its own exit.
    Left(Pid, Reason),
    /// A call of the first process was refused, since the second had ended.
    Refused(Pid, Pid),
}

/// An event with its stamp and its desk.
#[derive(Clone, Copy, Debug, PartialEq, Eq)]
pub struct Stamped {
    /// The desk's clock at the event; all events of a node are ordered by stamp, then desk.
    pub stamp: u64,
    pub desk: u8,
    pub event: Event,
}

#[derive(Clone, Copy)]
struct Parent(Option<Pid>);

#[derive(Clone, Copy)]
struct BirthLink(Option<LinkId>);

#[derive(Clone, Copy)]
struct Switch(bool);

impl fmt::Display for Parent {
    ghost use Rattle.std.specs.Prelude.{Some};
    ghost use Rattle.pt_events.specs.Text.{parent_text};

    ghost output = { λ p. Some (parent_text p.0) };

    fn fmt<W: fmt::Write>(&self, f: &mut fmt::Formatter<W>) -> fmt::Result {
        match self.0 {
            Some(parent) => write!(f, " by {parent}"),
            None => Ok(()),
        }
    }
}

impl fmt::Display for BirthLink {
    ghost use Rattle.std.specs.Prelude.{Some};
    ghost use Rattle.pt_events.specs.Text.{link_text};

    ghost output = { λ l. Some (link_text l.0) };

    fn fmt<W: fmt::Write>(&self, f: &mut fmt::Formatter<W>) -> fmt::Result {
        match self.0 {
            Some(link) => write!(f, " link {link}"),
            None => Ok(()),
        }
    }
}

impl fmt::Display for Switch {
    ghost use Rattle.std.specs.Prelude.{Some};
    ghost use Rattle.pt_events.specs.Text.{switch_text};

    ghost output = { λ s. Some (switch_text s.0) };

    fn fmt<W: fmt::Write>(&self, f: &mut fmt::Formatter<W>) -> fmt::Result {
        if self.0 {
            f.write_str("on")
        } else {
            f.write_str("off")
        }
    }
}

impl fmt::Display for Event {
    ghost use Rattle.std.specs.Prelude.{Some};
    ghost use Rattle.pt_events.specs.Text.{event_text};

    ghost output = { λ e. Some (event_text e) };

    fn fmt<W: fmt::Write>(&self, f: &mut fmt::Formatter<W>) -> fmt::Result {
        match *self {
            Event::Born(pid, parent, link) => {
                let parent = Parent(parent);
                let link = BirthLink(link);
                write!(f, "born {pid}{parent}{link}")
            }
            Event::Said(from, to, signal) => {
                let route = Route { from, to };
                write!(f, "said {route} {signal}")
            }
            Event::Came(from, to, signal) => {
                let route = Route { from, to };
                write!(f, "came {route} {signal}")
            }
            Event::Took(pid, pick, item) => write!(f, "took {pid} {pick} = {item}"),
            Event::Flag(pid, on) => {
                let switch = Switch(on);
                write!(f, "flag {pid} {switch}")
            }
            Event::Left(pid, reason) => write!(f, "left {pid} {reason}"),
            Event::Refused(from, to) => {
                let route = Route { from, to };
                write!(f, "refused {route}")
            }
        }
    }
}

impl fmt::Display for Stamped {
    ghost use Rattle.std.specs.Prelude.{Some};
    ghost use Rattle.pt_events.specs.Text.{stamped_text};

    ghost output = { λ s. Some (stamped_text s) };

    fn fmt<W: fmt::Write>(&self, f: &mut fmt::Formatter<W>) -> fmt::Result {
        let Stamped { stamp, desk, event } = *self;
        write!(f, "{stamp}@{desk} {event}")
    }
}
