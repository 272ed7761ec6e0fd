//! Why a supervisor gave up.

#![tactic(auto, unfolding(crate::specs::Text::gave_up_text, crate::specs::Text::restarts_text, crate::specs::Text::unit_text))]

use pt_signal::Reason;
use std::fmt;

/// Why a supervisor gave up: a child was to be started again, and its limit allowed no further restart; or the first start
/// of a child failed. Erlang reports the one as `reached_max_restart_intensity`, the other as `failed_to_start_child`.
#[derive(Clone, Copy, Debug, PartialEq, Eq)]
pub struct GaveUp {
    /// The id of that child.
    pub id: u64,
    /// The place of that child.
    pub place: usize,
    /// The reason with which it exited. It is `noproc` if a start of it failed, or it was found to have exited.
    pub reason: Reason,
    /// How many restarts the supervisor had made within the span.
    pub restarts: usize,
    /// The span of the limit.
    pub span: u64,
    /// Whether the span is one of time, and not of stamps.
    pub timed: bool,
}

/// What a span is of: time, or stamps.
#[derive(Clone, Copy)]
struct Unit(bool);

impl fmt::Display for Unit {
    ghost use Rattle.std.specs.Prelude.{Some};
    ghost use Rattle.pt_children.specs.Text.{unit_text};

    ghost output = { λ u. Some (unit_text u.0) };

    fn fmt<W: fmt::Write>(&self, f: &mut fmt::Formatter<W>) -> fmt::Result {
        f.write_str(if self.0 { "of time" } else { "stamps" })
    }
}

/// How many restarts there were, and within what span.
#[derive(Clone, Copy)]
struct Restarts {
    count: usize,
    span: u64,
    timed: bool,
}

impl fmt::Display for Restarts {
    ghost use Rattle.std.specs.Prelude.{Some};
    ghost use Rattle.pt_children.specs.Text.{restarts_text};

    ghost output = { λ r. Some (restarts_text r.count r.span r.timed) };

    fn fmt<W: fmt::Write>(&self, f: &mut fmt::Formatter<W>) -> fmt::Result {
        let Restarts { count, span, timed } = *self;
        let unit = Unit(timed);
        write!(f, "{count} restarts within {span} {unit}")
    }
}

impl fmt::Display for GaveUp {
    ghost use Rattle.std.specs.Prelude.{Some};
    ghost use Rattle.pt_children.specs.Text.{gave_up_text};

    ghost output = { λ g. Some (gave_up_text g) };

    fn fmt<W: fmt::Write>(&self, f: &mut fmt::Formatter<W>) -> fmt::Result {
        let (id, place, reason) = (self.id, self.place, self.reason);
        let restarts = Restarts {
            count: self.restarts,
            span: self.span,
            timed: self.timed,
        };
        write!(
            f,
            "child {id} in place {place} exited with {reason} after {restarts}"
        )
    }
}
