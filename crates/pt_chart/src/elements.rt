//! The SVG elements of a chart.

ghost use Rattle.std.specs.Prelude.{◌≡◌, ◌++◌, OnOk, string_bytes};
ghost use Rattle.pt_chart.specs.Text.{alive_text, arrow_begin_text, before_text, curve_text, cut_name_text, desk_text};
ghost use Rattle.pt_chart.specs.Text.{label_text, last_stamp_text, level_text, name_text, plain_text, row_text, shape_text};
ghost use Rattle.pt_chart.specs.Text.{size_text, straight_text, stripe_text};

use crate::point::{At, Point};
use crate::strokes::Stroke;
use std::alloc::AllocError;

/// The beginning of the drawing: its size, and its title for screen readers.
pub(crate) fn write_size(
    width: u64,
    height: u64,
    events: usize,
    columns: usize,
    text: &mut String,
) -> Result<(), AllocError>
    ensures { OnOk result (string_bytes text.new ≡ string_bytes text.old ++ size_text width height events columns) }
{
    write!(
        text,
        "<svg xmlns=\"http://www.w3.org/2000/svg\" width=\"{width}\" height=\"{height}\" \
         viewBox=\"-6 0 {width} {height}\" role=\"img\" aria-labelledby=\"title desc\">\n\
         <title id=\"title\">A history: events {events}, processes {columns}</title>\n"
    )
}

/// The beginning of a row, with the stamp of its first event, up to its title.
pub(crate) fn write_row(y: u64, stamp: &str, text: &mut String) -> Result<(), AllocError>
    ensures { OnOk result (string_bytes text.new ≡ string_bytes text.old ++ row_text y stamp.now) }
{
    write!(text, "<text y=\"{y}\">{stamp}<title>")
}

/// The end of a row that has several events, with the stamp of the last one.
pub(crate) fn write_last_stamp(stamp: &str, text: &mut String) -> Result<(), AllocError>
    ensures { OnOk result (string_bytes text.new ≡ string_bytes text.old ++ last_stamp_text stamp.now) }
{
    write!(
        text,
        "</title><tspan x=\"0\" dy=\"12\">-{stamp}</tspan></text>\n"
    )
}

/// The ground of a desk behind a column.
pub(crate) fn write_stripe(
    parity: u8,
    x: u64,
    height: u64,
    text: &mut String,
) -> Result<(), AllocError>
    ensures { OnOk result (string_bytes text.new ≡ string_bytes text.old ++ stripe_text parity x height) }
{
    write!(
        text,
        "<rect class=\"band{parity}\" x=\"{x}\" y=\"76\" width=\"180\" height=\"{height}\"/>\n"
    )
}

/// The name of a desk.
pub(crate) fn write_desk(x: u64, desk: u8, text: &mut String) -> Result<(), AllocError>
    ensures { OnOk result (string_bytes text.new ≡ string_bytes text.old ++ desk_text x desk) }
{
    write!(
        text,
        "<text class=\"desk\" x=\"{x}\" y=\"92\">desk {desk}</text>\n"
    )
}

/// The line of a column, from head to foot.
pub(crate) fn write_before(x: u64, end: u64, text: &mut String) -> Result<(), AllocError>
    ensures { OnOk result (string_bytes text.new ≡ string_bytes text.old ++ before_text x end) }
{
    write!(text, "<path class=\"before\" d=\"M{x} 132V{end}\"/>\n")
}

/// A name or a pid.
pub(crate) fn write_name(at: Point, name: &str, text: &mut String) -> Result<(), AllocError>
    ensures { OnOk result (string_bytes text.new ≡ string_bytes text.old ++ name_text at name.now) }
{
    let at = At(at);
    write!(text, "<text class=\"n\" {at}>{name}</text>\n")
}

/// A name that is cut. A browser shows the whole one under the pointer.
pub(crate) fn write_cut_name(
    at: Point,
    whole: &str,
    name: &str,
    text: &mut String,
) -> Result<(), AllocError>
    ensures { OnOk result (string_bytes text.new ≡ string_bytes text.old ++ cut_name_text at whole.now name.now) }
{
    let at = At(at);
    write!(
        text,
        "<text class=\"n\" {at}><title>{whole}</title>{name}</text>\n"
    )
}

pub(crate) fn write_alive(from: Point, to: u64, text: &mut String) -> Result<(), AllocError>
    ensures { OnOk result (string_bytes text.new ≡ string_bytes text.old ++ alive_text from to) }
{
    write!(text, "<path class=\"life\" d=\"M{from}V{to}\"/>\n")
}

/// The beginning of an arrow. The style has its head.
pub(crate) fn write_arrow_begin(
    stroke: Stroke,
    flight: &str,
    from: Point,
    text: &mut String,
) -> Result<(), AllocError>
    ensures { OnOk result
        (string_bytes text.new ≡ string_bytes text.old ++ arrow_begin_text stroke flight.now from) }
{
    write!(text, "<path class=\"{stroke}{flight}\" d=\"M{from}")
}

/// The rest of an arrow to another column.
pub(crate) fn write_straight(to: Point, text: &mut String) -> Result<(), AllocError>
    ensures { OnOk result (string_bytes text.new ≡ string_bytes text.old ++ straight_text to) }
{
    write!(text, "L{to}\"/>\n")
}

/// The rest of an arrow to its own column.
pub(crate) fn write_curve(
    bent: (Point, Point),
    to: Point,
    text: &mut String,
) -> Result<(), AllocError>
    ensures { OnOk result (string_bytes text.new ≡ string_bytes text.old ++ curve_text bent to) }
{
    let (leaving, coming) = bent;
    write!(text, "C{leaving} {coming} {to}\"/>\n")
}

pub(crate) fn write_level(
    class: &str,
    from: Point,
    to: u64,
    text: &mut String,
) -> Result<(), AllocError>
    ensures { OnOk result (string_bytes text.new ≡ string_bytes text.old ++ level_text class.now from to) }
{
    write!(text, "<path class=\"{class}\" d=\"M{from}H{to}\"/>\n")
}

/// A shape that the style has.
pub(crate) fn write_shape(name: &str, at: Point, text: &mut String) -> Result<(), AllocError>
    ensures { OnOk result (string_bytes text.new ≡ string_bytes text.old ++ shape_text name.now at) }
{
    let at = At(at);
    write!(text, "<use href=\"#{name}\" {at}/>\n")
}

/// A text in the colour of a stroke.
pub(crate) fn write_label(
    stroke: Stroke,
    side: &str,
    at: Point,
    said: &str,
    text: &mut String,
) -> Result<(), AllocError>
    ensures { OnOk result (string_bytes text.new ≡ string_bytes text.old ++ label_text stroke side.now at said.now) }
{
    let at = At(at);
    write!(text, "<text class=\"{stroke}{side}\" {at}>{said}</text>\n")
}

/// A text in the colour of the page's own texts.
pub(crate) fn write_plain(at: Point, said: &str, text: &mut String) -> Result<(), AllocError>
    ensures { OnOk result (string_bytes text.new ≡ string_bytes text.old ++ plain_text at said.now) }
{
    let at = At(at);
    write!(text, "<text class=\"k\" {at}>{said}</text>\n")
}
