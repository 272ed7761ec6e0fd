//! Signals on their way.

use crate::{Pid, Signal};
use std::fmt;

/// A signal on its way from one process to another.
#[derive(Clone, Copy, Debug, PartialEq, Eq)]
pub struct Letter {
    pub from: Pid,
    pub to: Pid,
    pub signal: Signal,
    /// The stamp of the event that sent it.
    pub stamp: u64,
}

/// From whom to whom a signal goes, as it is printed.
#[derive(Clone, Copy, Debug)]
pub struct Route {
    pub from: Pid,
    pub to: Pid,
}

impl fmt::Display for Letter {
    ghost use Rattle.std.specs.Prelude.{Some};
    ghost use Rattle.pt_signal.specs.Text.{letter_text};

    ghost output = { λ l. Some (letter_text l) };

    fn fmt<W: fmt::Write>(&self, f: &mut fmt::Formatter<W>) -> fmt::Result {
        let Letter {
            from,
            to,
            signal,
            stamp,
        } = *self;
        let route = Route { from, to };
        write!(f, "{route} {signal} @{stamp}")
    }
}

impl fmt::Display for Route {
    ghost use Rattle.std.specs.Prelude.{Some};
    ghost use Rattle.pt_signal.specs.Text.{route_text};

    ghost output = { λ r. Some (route_text r.from r.to) };

    fn fmt<W: fmt::Write>(&self, f: &mut fmt::Formatter<W>) -> fmt::Result {
        let Route { from, to } = *self;
        write!(f, "{from} -> {to}")
    }
}

/// A letter that was sent and did not arrive at its receiver before the desks were gathered.
#[derive(Clone, Copy, Debug, PartialEq, Eq)]
pub struct LeftOver {
    /// The desk of its sender.
    pub from_desk: u8,
    /// The desk of its receiver.
    pub to_desk: u8,
    /// The letter.
    pub letter: Letter,
}

impl fmt::Display for LeftOver {
    ghost use Rattle.std.specs.Prelude.{Some};
    ghost use Rattle.pt_signal.specs.Text.{left_over_text};

    ghost output = { λ l. Some (left_over_text l) };

    fn fmt<W: fmt::Write>(&self, f: &mut fmt::Formatter<W>) -> fmt::Result {
        let LeftOver {
            from_desk,
            to_desk,
            letter,
        } = *self;
        write!(f, "left-over {from_desk} -> {to_desk} {letter}")
    }
}
