//! A history as a sequence diagram of Mermaid.

use crate::labels::{ItemLabel, PickLabel, PidLabel, Place, SignalLabel};
use pt_events::{Event, Stamped};
use pt_signal::{Item, Letter, LinkId, Pick, Pid};
use std::fmt;

/// The first line of a diagram. The lines of the events come after it, and then those of the letters left over.
pub const MERMAID_HEAD: &str = "sequenceDiagram";

/// The lines of an event in a diagram, without the last line feed: `    Note over p0_1_1: 4@0 left other:7`.
///
/// A birth names the column of its process, so it has two lines. A sending is a dotted arrow from its process, and a
/// receipt a full one to it. A call that failed since the other process had exited is a dotted line to a cross. Any
/// other event is a note in the column of its process.
#[derive(Clone, Copy, Debug, PartialEq, Eq)]
pub struct MermaidEvent(pub Stamped);

/// The line of a letter that was sent and did not arrive, without a line feed: a full line to a cross.
#[derive(Clone, Copy, Debug, PartialEq, Eq)]
pub struct MermaidLeftOver(pub Letter);

/// How a birth is shown: as a note, or as an arrow from the process that spawned it.
#[derive(Clone, Copy)]
struct Bearing {
    pid: Pid,
    parent: Option<Pid>,
}

#[derive(Clone, Copy)]
struct BirthLink(Option<LinkId>);

/// What a process took out of its mailbox.
#[derive(Clone, Copy)]
struct Taking {
    pick: Pick,
    item: Item,
}

#[derive(Clone, Copy)]
struct Switch(bool);

/// The part of a line before the time of its event.
#[derive(Clone, Copy)]
struct Scene(Event);

/// The part of a line after the time of its event.
#[derive(Clone, Copy)]
struct Deed(Event);

impl fmt::Display for Bearing {
    ghost use Rattle.std.specs.Prelude.{Some};
    ghost use Rattle.pt_render.specs.Mermaid.{bearing_text};

    ghost output = { λ x. Some (bearing_text x.pid x.parent) };

    fn fmt<W: fmt::Write>(&self, f: &mut fmt::Formatter<W>) -> fmt::Result {
        let Bearing { pid, parent } = *self;
        let place = Place(pid);
        match parent {
            Some(parent) => {
                let parent = Place(parent);
                write!(f, "{parent}->>{place}")
            }
            None => write!(f, "Note over {place}"),
        }
    }
}

impl fmt::Display for BirthLink {
    ghost use Rattle.std.specs.Prelude.{Some};
    ghost use Rattle.pt_render.specs.Mermaid.{birth_link_label};

    ghost output = { λ x. Some (birth_link_label x.0) };

    fn fmt<W: fmt::Write>(&self, f: &mut fmt::Formatter<W>) -> fmt::Result {
        match self.0 {
            Some(id) => write!(f, " link {id}"),
            None => Ok(()),
        }
    }
}

impl fmt::Display for Taking {
    ghost use Rattle.std.specs.Prelude.{Some};
    ghost use Rattle.pt_render.specs.Mermaid.{taking_label};

    ghost output = { λ x. Some (taking_label x.pick x.item) };

    fn fmt<W: fmt::Write>(&self, f: &mut fmt::Formatter<W>) -> fmt::Result {
        let Taking { pick, item } = *self;
        let pick = PickLabel(pick);
        let item = ItemLabel(item);
        write!(f, "{pick} = {item}")
    }
}

impl fmt::Display for Switch {
    ghost use Rattle.std.specs.Prelude.{Some};
    ghost use Rattle.pt_render.specs.Mermaid.{switch_label};

    ghost output = { λ x. Some (switch_label x.0) };

    fn fmt<W: fmt::Write>(&self, f: &mut fmt::Formatter<W>) -> fmt::Result {
        f.write_str(if self.0 { "on" } else { "off" })
    }
}

impl fmt::Display for Scene {
    ghost use Rattle.std.specs.Prelude.{Some};
    ghost use Rattle.pt_render.specs.Mermaid.{scene_text};

    ghost output = { λ x. Some (scene_text x.0) };

    fn fmt<W: fmt::Write>(&self, f: &mut fmt::Formatter<W>) -> fmt::Result {
        match self.0 {
            Event::Born(pid, parent, _) => {
                let place = Place(pid);
                let label = PidLabel(pid);
                let bearing = Bearing { pid, parent };
                write!(f, "    participant {place} as {label}\n    {bearing}")
            }
            Event::Said(from, to, _) => {
                let from = Place(from);
                let to = Place(to);
                write!(f, "    {from}--){to}")
            }
            Event::Came(from, to, _) => {
                let from = Place(from);
                let to = Place(to);
                write!(f, "    {from}-){to}")
            }
            Event::Took(pid, _, _) | Event::Flag(pid, _) | Event::Left(pid, _) => {
                let place = Place(pid);
                write!(f, "    Note over {place}")
            }
            Event::Refused(from, to) => {
                let from = Place(from);
                let to = Place(to);
                write!(f, "    {from}--x{to}")
            }
        }
    }
}

impl fmt::Display for Deed {
    ghost use Rattle.std.specs.Prelude.{Some};
    ghost use Rattle.pt_render.specs.Mermaid.{deed_text};

    ghost output = { λ x. Some (deed_text x.0) };

    fn fmt<W: fmt::Write>(&self, f: &mut fmt::Formatter<W>) -> fmt::Result {
        match self.0 {
            Event::Born(_, _, link) => {
                let link = BirthLink(link);
                write!(f, "born{link}")
            }
            Event::Said(_, _, signal) | Event::Came(_, _, signal) => {
                let signal = SignalLabel(signal);
                write!(f, "{signal}")
            }
            Event::Took(_, pick, item) => {
                let taking = Taking { pick, item };
                write!(f, "took {taking}")
            }
            Event::Flag(_, on) => {
                let switch = Switch(on);
                write!(f, "flag {switch}")
            }
            Event::Left(_, reason) => write!(f, "left {reason}"),
            Event::Refused(_, _) => f.write_str("refused"),
        }
    }
}

impl fmt::Display for MermaidEvent {
    ghost use Rattle.std.specs.Prelude.{Some};
    ghost use Rattle.pt_render.specs.Mermaid.{mermaid_text};

    ghost output = { λ x. Some (mermaid_text x.0) };

    fn fmt<W: fmt::Write>(&self, f: &mut fmt::Formatter<W>) -> fmt::Result {
        let Stamped { stamp, desk, event } = self.0;
        let scene = Scene(event);
        let deed = Deed(event);
        write!(f, "{scene}: {stamp}@{desk} {deed}")
    }
}

impl fmt::Display for MermaidLeftOver {
    ghost use Rattle.std.specs.Prelude.{Some};
    ghost use Rattle.pt_render.specs.Mermaid.{mermaid_left_over_text};

    ghost output = { λ x. Some (mermaid_left_over_text x.0) };

    fn fmt<W: fmt::Write>(&self, f: &mut fmt::Formatter<W>) -> fmt::Result {
        let Letter {
            from,
            to,
            signal,
            stamp,
        } = self.0;
        let from = Place(from);
        let to = Place(to);
        let signal = SignalLabel(signal);
        write!(f, "    {from}-x{to}: left-over {signal} @{stamp}")
    }
}
