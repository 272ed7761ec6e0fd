//! Points of the page, as SVG has them.

use std::fmt;

/// A point of the page, in pixels, as a path names it.
#[derive(Clone, Copy)]
pub(crate) struct Point {
    pub x: u64,
    pub y: u64,
}

/// The place of a shape or a text.
#[derive(Clone, Copy)]
pub(crate) struct At(pub Point);

impl fmt::Display for Point {
    ghost use Rattle.std.specs.Prelude.{Some};
    ghost use Rattle.pt_chart.specs.Points.{point_text};

    ghost output = { λ p. Some (point_text p) };

    fn fmt<W: fmt::Write>(&self, f: &mut fmt::Formatter<W>) -> fmt::Result {
        let Point { x, y } = *self;
        write!(f, "{x} {y}")
    }
}

impl fmt::Display for At {
    ghost use Rattle.std.specs.Prelude.{Some};
    ghost use Rattle.pt_chart.specs.Points.{at_text};

    ghost output = { λ a. Some (at_text a.0) };

    fn fmt<W: fmt::Write>(&self, f: &mut fmt::Formatter<W>) -> fmt::Result {
        let Point { x, y } = self.0;
        write!(f, "x=\"{x}\" y=\"{y}\"")
    }
}
