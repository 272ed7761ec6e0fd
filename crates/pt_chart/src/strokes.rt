//! The drawing of a signal.

ghost use Rattle.std.specs.Prelude.{◌≡◌};
ghost use Rattle.pt_chart.specs.Text.{is_owed, stroke_of};

use pt_signal::Signal;
use std::fmt;

/// The strokes that distinguish the letters of a chart.
#[derive(Clone, Copy)]
pub(crate) enum Stroke {
    Message,
    Exit,
    Link,
    Monitor,
    Question,
}

impl Stroke {
    /// The stroke of a signal's letter.
    pub(crate) fn of(signal: &Signal) -> Stroke
        ensures { result ≡ stroke_of signal.now }
    {
        match signal {
            Signal::Message(_) => Stroke::Message,
            Signal::Link(_) | Signal::Unlink(_) => Stroke::Link,
            Signal::Exit(_) | Signal::LinkExit(_, _) => Stroke::Exit,
            Signal::Monitor(_) | Signal::Demonitor(_) | Signal::Down(_, _) => Stroke::Monitor,
            Signal::AliveAsk(_) | Signal::AliveSay(_, _) => Stroke::Question,
        }
    }
}

/// Whether a process owes the signal at its exit, or answers with it. Several such letters may be sent in one row.
pub(crate) fn is_owed(signal: &Signal) -> bool
    ensures { result ≡ is_owed signal.now }
{
    match signal {
        Signal::LinkExit(_, _)
        | Signal::Demonitor(_)
        | Signal::Down(_, _)
        | Signal::AliveSay(_, _) => true,
        Signal::Message(_)
        | Signal::Link(_)
        | Signal::Unlink(_)
        | Signal::Exit(_)
        | Signal::Monitor(_)
        | Signal::AliveAsk(_) => false,
    }
}

/// The name of its class in the drawing.
impl fmt::Display for Stroke {
    ghost use Rattle.std.specs.Prelude.{Some};
    ghost use Rattle.pt_chart.specs.Text.{stroke_text};

    ghost output = { λ s. Some (stroke_text s) };

    fn fmt<W: fmt::Write>(&self, f: &mut fmt::Formatter<W>) -> fmt::Result {
        f.write_str(match self {
            Stroke::Message => "m",
            Stroke::Exit => "x",
            Stroke::Link => "l",
            Stroke::Monitor => "o",
            Stroke::Question => "q",
        })
    }
}
