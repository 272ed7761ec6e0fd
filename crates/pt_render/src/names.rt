//! The names of processes, as JSON.

use pt_chart::Called;
use std::fmt;

/// The names of processes, as one JSON object: `{"<0.0.1>":"ping","<0.1.1>":"pong"}`. They have no character that JSON
/// would escape.
#[derive(Clone, Copy)]
pub(crate) struct JsonNames<'a>(pub(crate) &'a [Called<'a>]);

/// The name of a process.
#[derive(Clone, Copy)]
struct NameMember<'a>(Called<'a>);

/// Names, with a comma before each.
#[derive(Clone, Copy)]
struct MoreNames<'a>(&'a [Called<'a>]);

impl fmt::Display for NameMember<'_> {
    ghost use Rattle.std.specs.Prelude.{Some};
    ghost use Rattle.pt_chart.specs.Drawing.{called_given};
    ghost use Rattle.pt_render.specs.Pages.{name_member};

    ghost output = { λ x. Some (name_member (called_given x.0)) };

    fn fmt<W: fmt::Write>(&self, f: &mut fmt::Formatter<W>) -> fmt::Result {
        let Called { pid, name } = self.0;
        write!(f, "\"{pid}\":\"{name}\"")
    }
}

impl fmt::Display for MoreNames<'_> {
    ghost use Rattle.std.specs.Prelude.{Some, map};
    ghost use Rattle.pt_chart.specs.Drawing.{called_given};
    ghost use Rattle.pt_render.specs.Pages.{more_names};

    ghost output = { λ x. Some (more_names (map called_given x.0.now)) };

    fn fmt<W: fmt::Write>(&self, f: &mut fmt::Formatter<W>) -> fmt::Result {
        for called in self.0 {
            write!(f, ",{}", NameMember(*called))?;
        }
        Ok(())
    }
}

impl fmt::Display for JsonNames<'_> {
    ghost use Rattle.std.specs.Prelude.{Some, map};
    ghost use Rattle.pt_chart.specs.Drawing.{called_given};
    ghost use Rattle.pt_render.specs.Pages.{names_json};

    ghost output = { λ x. Some (names_json (map called_given x.0.now)) };

    fn fmt<W: fmt::Write>(&self, f: &mut fmt::Formatter<W>) -> fmt::Result {
        match self.0 {
            [first, rest @ ..] => {
                let first = NameMember(*first);
                let rest = MoreNames(rest);
                write!(f, "{{{first}{rest}}}")
            }
            [] => f.write_str("{}"),
        }
    }
}
