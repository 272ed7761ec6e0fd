//! The text of the drawing, as SVG.

ghost use Rattle.std.specs.Prelude.{◌≡◌, ◌<◌, ◌-◌, ◌&&◌, ◌==◌, [], ◌++◌, IfOk, IfSome, OnOk, length, map, nat_lt, not};
ghost use Rattle.std.specs.Prelude.{slice_index_or, string_bytes, take};
ghost use Rattle.std.specs.List.{flat_map};
ghost use Rattle.pt_events.specs.Text.{stamped_text};
ghost use Rattle.pt_signal.specs.Text.{pid_text};
ghost use Rattle.pt_chart.specs.Points.{bend, sag, spot};
ghost use Rattle.pt_chart.specs.Text.{arrow_text, bearing_class, bearing_label, bearing_place, beside, birth_text, born_text};
ghost use Rattle.pt_chart.specs.Text.{closing_text, distance, end_place, end_text, escape, escape_one, far_room, first_head_text, first_height};
ghost use Rattle.pt_chart.specs.Text.{called_text, flight_text, from_tip, ground_text, head_above_text, head_again_text, head_place, is_at_tip, is_level, label_room};
ghost use Rattle.pt_chart.specs.Text.{letter_label_text, drawn_letter_text, life_text, line_text, mark_place, mark_text};
ghost use Rattle.pt_chart.specs.Text.{name_text, named_head_text, opening_text, page_head, part_text, refusal_text};
ghost use Rattle.pt_chart.specs.Text.{said_bearing_text, said_end_text, said_refusal_text, saying_text, sent_place, cut_text};
ghost use Rattle.pt_chart.specs.Text.{side_text, stamp_text, tip, tip_place, trap_shape, trap_text, trapping_text, way_text};

use crate::elements::{
    write_alive, write_arrow_begin, write_before, write_curve, write_cut_name, write_desk,
    write_label, write_last_stamp, write_level, write_name, write_plain, write_row, write_shape,
    write_size, write_straight, write_stripe,
};
use crate::layout::Arrow;
use crate::page::{Page, above, x, y};
use crate::part::{Letter, Mark, Part};
use crate::point::Point;
use crate::strokes::{Stroke, is_owed};
use crate::style::STYLE;
use crate::watching::Watch;
use pt_events::Stamped;
use pt_signal::{Pid, Reason};
use std::alloc::{AllocError, Global};
use std::fmt::Display;

/// The beginning of the drawing: the size of the page, and the style of its parts.
pub(crate) fn write_head(page: &Page, text: &mut String) -> Result<(), AllocError>
    ensures { OnOk result (string_bytes text.new ≡ string_bytes text.old ++ page_head page.now) }
{
    write_size(page.width(), page.height(), page.events, page.columns, text)?;
    text.push_str(STYLE)
}

/// Writes the parts, one after the other. The processes of the columns have these names.
pub(crate) fn write_parts<P: Watch>(
    alloc: Global,
    page: &Page,
    names: &[&str],
    parts: &[Part],
    watch: &P,
    text: &mut String,
) -> Result<(), AllocError>
    ensures { OnOk result (string_bytes text.new
        ≡ string_bytes text.old ++ flat_map (part_text page.now (map (λ n. n.now) names.now)) parts.now) }
{
    for part in parts {
        write_part(alloc, page, names, *part, text)?;
        watch.count();
    }
    Ok(())
}

fn write_part(
    alloc: Global,
    page: &Page,
    names: &[&str],
    part: Part,
    text: &mut String,
) -> Result<(), AllocError>
    ensures { OnOk result
        (string_bytes text.new ≡ string_bytes text.old ++ part_text page.now (map (λ n. n.now) names.now) part) }
{
    match part {
        Part::Ground { column, desk } => write_ground(page, column, desk, text),
        Part::Desk { column, desk } => write_desk(above(x(column), 82), desk, text),
        Part::Column { column } => write_before(x(column), page.end(), text),
        Part::Life {
            column,
            born,
            ended,
        } => write_life(page, column, born, ended, text),
        Part::Saying(letter) => write_saying(alloc, letter, text),
        Part::Flight(letter) => write_letter(letter, text),
        Part::Mark { row, mark } => write_mark(alloc, row, mark, text),
        Part::End {
            row,
            column,
            reason,
        } => write_end(alloc, row, column, reason, text),
        Part::Name { row, column, pid } => {
            let name = name_at(names, column);
            write_head_above(alloc, row, column, name, pid, text)
        }
        Part::Line {
            row,
            event,
            first,
            last,
        } => write_line(alloc, row, event, first, last, text),
    }
}

/// The line of an event in the title of its row, of which it may be the first and the last.
fn write_line(
    alloc: Global,
    row: usize,
    event: Stamped,
    first: bool,
    last: bool,
    text: &mut String,
) -> Result<(), AllocError>
    ensures { OnOk result (string_bytes text.new ≡ string_bytes text.old ++ line_text row event first last) }
{
    let stamp = stamp_of(alloc, event)?;
    write_stamped(alloc, row, event, stamp.as_str(), first, last, text)
}

/// The stamp of an event, with its desk.
fn stamp_of(alloc: Global, event: Stamped) -> Result<String, AllocError>
    ensures { IfOk result (λ t. string_bytes t ≡ stamp_text event) }
{
    let stamp = event.stamp;
    let desk = event.desk;
    format!(in alloc; "{stamp}@{desk}")
}

/// The line of an event with this stamp.
fn write_stamped(
    alloc: Global,
    row: usize,
    event: Stamped,
    stamp: &str,
    first: bool,
    last: bool,
    text: &mut String,
) -> Result<(), AllocError>
    ensures { stamp.now ≡ stamp_text event
        → OnOk result (string_bytes text.new ≡ string_bytes text.old ++ line_text row event first last) }
{
    write_opening(row, stamp, first, last, text)?;
    write_said(alloc, event, text)?;
    write_closing(stamp, first, last, text)
}

/// The mark of an event, in its row.
fn write_mark(alloc: Global, row: usize, mark: Mark, text: &mut String) -> Result<(), AllocError>
    ensures { OnOk result (string_bytes text.new ≡ string_bytes text.old ++ mark_text row mark) }
{
    match mark {
        Mark::Bearing {
            parent,
            child,
            by,
            linked,
        } => write_bearing(alloc, row, parent, child, by, linked, text),
        Mark::Birth { column } => write_shape("birth", spot(column, row), text),
        Mark::Taking { column } => write_shape("t", spot(column, row), text),
        Mark::Trapping { column, on } => write_trapping(row, column, on, text),
        Mark::Refusal { column, to } => write_refusal(alloc, row, column, to, text),
    }
}

/// The beginning of a row, whose title has the lines of its events. Before each further line it is a line feed.
fn write_opening(
    row: usize,
    stamp: &str,
    first: bool,
    last: bool,
    text: &mut String,
) -> Result<(), AllocError>
    ensures { OnOk result (string_bytes text.new ≡ string_bytes text.old ++ opening_text row stamp.now first last) }
{
    if first {
        write_row(first_height(row, last), stamp, text)
    } else {
        text.push_str("\n")
    }
}

/// The height of the stamp of a row's first event. If it is the only one, it is in the middle.
fn first_height(row: usize, last: bool) -> u64
    ensures { result ≡ first_height row last }
{
    if last {
        y(row).saturating_add(4)
    } else {
        above(y(row), 2)
    }
}

/// The line of an event.
fn write_said(alloc: Global, event: Stamped, text: &mut String) -> Result<(), AllocError>
    ensures { OnOk result (string_bytes text.new ≡ string_bytes text.old ++ escape (stamped_text event)) }
{
    let said = said_of(alloc, event)?;
    text.push_str(said.as_str())
}

/// The end of a row, after its last line, with the stamp of its last event if this is not its first one too.
fn write_closing(stamp: &str, first: bool, last: bool, text: &mut String) -> Result<(), AllocError>
    ensures { OnOk result (string_bytes text.new ≡ string_bytes text.old ++ closing_text stamp.now first last) }
{
    match (first, last) {
        (true, true) => text.push_str("</title></text>\n"),
        (false, true) => write_last_stamp(stamp, text),
        (_, false) => Ok(()),
    }
}

/// The name of the process of a column; empty if it has none.
fn name_at<'a>(names: &[&'a str], column: usize) -> &'a str
    ensures { result.now ≡ slice_index_or (map (λ n. n.now) names.now) column [] }
{
    match names.get(column) {
        Some(name) => *name,
        None => "",
    }
}

/// The head of a column above a row.
fn write_head_above(
    alloc: Global,
    row: usize,
    column: usize,
    name: &str,
    pid: Pid,
    text: &mut String,
) -> Result<(), AllocError>
    ensures { OnOk result
        (string_bytes text.new ≡ string_bytes text.old ++ head_above_text row column name.now (pid_text pid)) }
{
    let pid = format!(in alloc; "{pid}")?;
    if row == 0 {
        write_first_head(alloc, column, name, pid.as_str(), text)
    } else {
        write_head_again(alloc, row, column, name, pid.as_str(), text)
    }
}

/// The head of a column above the first row: the name of the process, if it has one, and its pid.
fn write_first_head(
    alloc: Global,
    column: usize,
    name: &str,
    pid: &str,
    text: &mut String,
) -> Result<(), AllocError>
    ensures { OnOk result
        (string_bytes text.new ≡ string_bytes text.old ++ first_head_text column name.now pid.now) }
{
    if name.is_empty() {
        write_whole_name(alloc, head_place(column, 126), pid, text)
    } else {
        write_named_head(alloc, column, name, pid, text)
    }
}

fn write_named_head(
    alloc: Global,
    column: usize,
    name: &str,
    pid: &str,
    text: &mut String,
) -> Result<(), AllocError>
    ensures { OnOk result
        (string_bytes text.new ≡ string_bytes text.old ++ named_head_text column name.now pid.now) }
{
    write_called(alloc, head_place(column, 112), name, text)?;
    write_whole_name(alloc, head_place(column, 126), pid, text)
}

/// The middle of a column at a height.
fn head_place(column: usize, y: u64) -> Point
    ensures { result ≡ head_place column y }
{
    Point { x: x(column), y }
}

/// The head of a column again, above a later row: the name of the process, or its pid if it has none.
fn write_head_again(
    alloc: Global,
    row: usize,
    column: usize,
    name: &str,
    pid: &str,
    text: &mut String,
) -> Result<(), AllocError>
    ensures { OnOk result
        (string_bytes text.new ≡ string_bytes text.old ++ head_again_text row column name.now pid.now) }
{
    let at = head_place(column, above(y(row), 30));
    if name.is_empty() {
        write_called(alloc, at, pid, text)
    } else {
        write_called(alloc, at, name, text)
    }
}

/// A name at its place. A long one is cut.
fn write_called(alloc: Global, at: Point, name: &str, text: &mut String) -> Result<(), AllocError>
    ensures { OnOk result (string_bytes text.new ≡ string_bytes text.old ++ called_text at name.now) }
{
    if name.len() <= 26 {
        return write_whole_name(alloc, at, name, text);
    }
    let whole = escaped(alloc, name.as_bytes())?;
    let said = cut(alloc, name, 26)?;
    write_cut_name(at, whole.as_str(), said.as_str(), text)
}

/// A name or a pid at its place, as it is.
fn write_whole_name(
    alloc: Global,
    at: Point,
    name: &str,
    text: &mut String,
) -> Result<(), AllocError>
    ensures { OnOk result (string_bytes text.new ≡ string_bytes text.old ++ name_text at (escape name.now)) }
{
    let said = escaped(alloc, name.as_bytes())?;
    write_name(at, said.as_str(), text)
}

/// The ground of a column, darker behind every other desk.
fn write_ground(page: &Page, column: usize, desk: u8, text: &mut String) -> Result<(), AllocError>
    ensures { OnOk result (string_bytes text.new ≡ string_bytes text.old ++ ground_text page.now column desk) }
{
    write_stripe(desk % 2, above(x(column), 90), above(page.end(), 76), text)
}

fn write_life(
    page: &Page,
    column: usize,
    born: usize,
    ended: Option<usize>,
    text: &mut String,
) -> Result<(), AllocError>
    ensures { OnOk result (string_bytes text.new ≡ string_bytes text.old ++ life_text page.now column born ended) }
{
    write_alive(spot(column, born), page.row_or_end(ended), text)
}

/// An arrow to the receipt of a letter, or one with an open head if it is in flight.
fn write_letter(letter: Letter, text: &mut String) -> Result<(), AllocError>
    ensures { OnOk result (string_bytes text.new ≡ string_bytes text.old ++ drawn_letter_text letter) }
{
    let stroke = Stroke::of(&letter.arrow.signal);
    let from = spot(letter.column, letter.arrow.sent);
    write_arrow(
        stroke,
        flight_of(letter.arrow.came),
        from,
        tip(letter),
        text,
    )
}

/// The class of a letter that did not arrive.
fn flight_of(came: Option<usize>) -> &'static str
    ensures { result.now ≡ flight_text came }
{
    match came {
        Some(_) => "",
        None => " f",
    }
}

/// The point at which the arrow of a letter ends.
fn tip(letter: Letter) -> Point
    ensures { result ≡ tip letter }
{
    spot(letter.arrow.to, letter.tip)
}

fn write_arrow(
    stroke: Stroke,
    flight: &str,
    from: Point,
    to: Point,
    text: &mut String,
) -> Result<(), AllocError>
    ensures { OnOk result (string_bytes text.new ≡ string_bytes text.old ++ arrow_text stroke flight.now from to) }
{
    write_arrow_begin(stroke, flight, from, text)?;
    write_way(from, to, text)
}

/// The way of an arrow: straight to another column, or around to its own.
fn write_way(from: Point, to: Point, text: &mut String) -> Result<(), AllocError>
    ensures { OnOk result (string_bytes text.new ≡ string_bytes text.old ++ way_text from to) }
{
    if from.x == to.x {
        write_curve(bend(from, to), to, text)
    } else {
        write_straight(to, text)
    }
}

/// The points by which an arrow goes around, to the right, back to its own column.
fn bend(from: Point, to: Point) -> (Point, Point)
    ensures { result ≡ bend from to }
{
    let x = from.x.saturating_add(44);
    let sag = sag(from, to);
    let leaving = Point {
        x,
        y: above(from.y, sag),
    };
    let coming = Point {
        x,
        y: to.y.saturating_add(sag),
    };
    (leaving, coming)
}

/// The distance by which an arrow to its own row goes up and down on its way around.
fn sag(from: Point, to: Point) -> u64
    ensures { result ≡ sag from to }
{
    if from.y == to.y { 16 } else { 0 }
}

/// The label of a letter, cut to its room.
fn write_saying(alloc: Global, letter: Letter, text: &mut String) -> Result<(), AllocError>
    ensures { OnOk result (string_bytes text.new ≡ string_bytes text.old ++ saying_text letter) }
{
    let signal = letter.arrow.signal;
    let plain = format!(in alloc; "{signal}")?;
    let said = cut(alloc, plain.as_str(), label_room(letter))?;
    write_letter_label(letter, said.as_str(), text)
}

/// The number of characters that the label of a letter has room for.
fn label_room(letter: Letter) -> usize
    ensures { result ≡ label_room letter }
{
    if letter.column == letter.arrow.to {
        24
    } else {
        far_room(letter, distance(letter.column, letter.arrow.to))
    }
}

/// The room of the label of a letter that goes so many columns far.
fn far_room(letter: Letter, far: usize) -> usize
    ensures { result ≡ far_room letter far }
{
    let columns = far.saturating_mul(30);
    if is_level(letter.arrow) {
        columns.saturating_sub(6)
    } else if is_at_tip(letter) && letter.ends {
        columns.saturating_add(4)
    } else {
        columns.saturating_add(12)
    }
}

/// The distance of two columns.
fn distance(a: usize, b: usize) -> usize
    ensures { result ≡ distance a b }
{
    if a < b { b - a } else { a - b }
}

/// A label at the tip of an arrow, or at its sender.
fn write_letter_label(letter: Letter, said: &str, text: &mut String) -> Result<(), AllocError>
    ensures { OnOk result (string_bytes text.new ≡ string_bytes text.old ++ letter_label_text letter said.now) }
{
    let stroke = Stroke::of(&letter.arrow.signal);
    if is_at_tip(letter) {
        let side = side_of(letter.column < letter.arrow.to);
        write_label(stroke, side, tip_place(letter), said, text)
    } else {
        let side = side_of(letter.arrow.to < letter.column);
        write_label(stroke, side, sent_place(letter), said, text)
    }
}

/// The class of a label that is left of its place.
fn side_of(left: bool) -> &'static str
    ensures { result.now ≡ side_text left }
{
    if left { " e" } else { "" }
}

/// Whether the label of a letter is at its tip, and not at its sender, where others may begin.
fn is_at_tip(letter: Letter) -> bool
    ensures { result ≡ is_at_tip letter }
{
    is_owed(&letter.arrow.signal) && !is_level(letter.arrow)
}

/// Whether a letter arrives in the row in which it was sent.
fn is_level(arrow: Arrow) -> bool
    ensures { result ≡ is_level arrow }
{
    match arrow.came {
        Some(came) => came == arrow.sent,
        None => false,
    }
}

/// The place of a label at the tip: below the arrow, and clear of the reason of a process that the letter ends.
fn tip_place(letter: Letter) -> Point
    ensures { result ≡ tip_place letter }
{
    let by = if letter.ends { 58 } else { 8 };
    Point {
        x: beside(x(letter.arrow.to), letter.column < letter.arrow.to, by),
        y: y(letter.tip).saturating_add(13),
    }
}

/// The place of a label at the sender: above the arrow, or behind one that goes around within its row.
fn sent_place(letter: Letter) -> Point
    ensures { result ≡ sent_place letter }
{
    if is_level(letter.arrow) && letter.column == letter.arrow.to {
        Point {
            x: x(letter.column).saturating_add(38),
            y: y(letter.arrow.sent).saturating_add(4),
        }
    } else {
        Point {
            x: beside(x(letter.column), letter.arrow.to < letter.column, 12),
            y: above(y(letter.arrow.sent), 4),
        }
    }
}

/// A place that is so far left of another one, or right of it.
fn beside(x: u64, left: bool, by: u64) -> u64
    ensures { result ≡ beside x left by }
{
    if left {
        above(x, by)
    } else {
        x.saturating_add(by)
    }
}

/// The point at which a column and a row meet.
fn spot(column: usize, row: usize) -> Point
    ensures { result ≡ spot column row }
{
    Point {
        x: x(column),
        y: y(row),
    }
}

fn write_bearing(
    alloc: Global,
    row: usize,
    parent: usize,
    child: usize,
    by: Pid,
    linked: bool,
    text: &mut String,
) -> Result<(), AllocError>
    ensures { OnOk result
        (string_bytes text.new ≡ string_bytes text.old ++ born_text row parent child by linked) }
{
    let plain = bearing_label(alloc, by, linked)?;
    let said = cut(alloc, plain.as_str(), 28)?;
    write_said_bearing(row, parent, child, linked, said.as_str(), text)
}

/// The parent of a process, and whether they are linked.
fn bearing_label(alloc: Global, by: Pid, linked: bool) -> Result<String, AllocError>
    ensures { IfOk result (λ t. string_bytes t ≡ bearing_label by linked) }
{
    if linked {
        format!(in alloc; "by {by}, linked")
    } else {
        format!(in alloc; "by {by}")
    }
}

fn bearing_class(linked: bool) -> &'static str
    ensures { result.now ≡ bearing_class linked }
{
    if linked { "linked" } else { "before" }
}

fn write_said_bearing(
    row: usize,
    parent: usize,
    child: usize,
    linked: bool,
    said: &str,
    text: &mut String,
) -> Result<(), AllocError>
    ensures { OnOk result
        (string_bytes text.new ≡ string_bytes text.old ++ said_bearing_text row parent child linked said.now) }
{
    write_level(bearing_class(linked), spot(parent, row), x(child), text)?;
    write_label(Stroke::Link, " c", bearing_place(row, child), said, text)
}

/// The middle of the label of a birth, above its box.
fn bearing_place(row: usize, child: usize) -> Point
    ensures { result ≡ bearing_place row child }
{
    Point {
        x: x(child),
        y: above(y(row), 8),
    }
}

/// The place right of the mark of an event that has its row alone.
fn mark_place(row: usize, column: usize) -> Point
    ensures { result ≡ mark_place row column }
{
    Point {
        x: x(column).saturating_add(10),
        y: y(row).saturating_add(4),
    }
}

fn write_trapping(row: usize, column: usize, on: bool, text: &mut String) -> Result<(), AllocError>
    ensures { OnOk result (string_bytes text.new ≡ string_bytes text.old ++ trapping_text row column on) }
{
    write_shape(trap_shape(on), spot(column, row), text)?;
    write_plain(mark_place(row, column), trap_said(on), text)
}

fn trap_shape(on: bool) -> &'static str
    ensures { result.now ≡ trap_shape on }
{
    if on { "traps" } else { "free" }
}

fn trap_said(on: bool) -> &'static str
    ensures { result.now ≡ trap_text on }
{
    if on { "traps exits" } else { "traps no more" }
}

fn write_refusal(
    alloc: Global,
    row: usize,
    column: usize,
    to: Pid,
    text: &mut String,
) -> Result<(), AllocError>
    ensures { OnOk result (string_bytes text.new ≡ string_bytes text.old ++ refusal_text row column to) }
{
    let plain = format!(in alloc; "refused {to}")?;
    let said = escaped(alloc, plain.as_str().as_bytes())?;
    write_said_refusal(row, column, said.as_str(), text)
}

fn write_said_refusal(
    row: usize,
    column: usize,
    said: &str,
    text: &mut String,
) -> Result<(), AllocError>
    ensures { OnOk result (string_bytes text.new ≡ string_bytes text.old ++ said_refusal_text row column said.now) }
{
    write_shape("refused", spot(column, row), text)?;
    write_label(Stroke::Exit, "", mark_place(row, column), said, text)
}

fn write_end(
    alloc: Global,
    row: usize,
    column: usize,
    reason: Reason,
    text: &mut String,
) -> Result<(), AllocError>
    ensures { OnOk result (string_bytes text.new ≡ string_bytes text.old ++ end_text row column reason) }
{
    let said = said_of(alloc, reason)?;
    write_said_end(row, column, said.as_str(), text)
}

fn write_said_end(
    row: usize,
    column: usize,
    said: &str,
    text: &mut String,
) -> Result<(), AllocError>
    ensures { OnOk result (string_bytes text.new ≡ string_bytes text.old ++ said_end_text row column said.now) }
{
    write_shape("end", spot(column, row), text)?;
    write_label(Stroke::Exit, " c", end_place(row, column), said, text)
}

/// The middle of a reason, below its cross.
fn end_place(row: usize, column: usize) -> Point
    ensures { result ≡ end_place row column }
{
    Point {
        x: x(column),
        y: y(row).saturating_add(15),
    }
}

/// What a value prints, with XML's own characters escaped.
fn said_of<T: Display + Copy>(alloc: Global, value: T) -> Result<String, AllocError>
    ensures { IfSome (T.output value) (λ said. IfOk result (λ t. string_bytes t ≡ escape said)) }
{
    let plain = format!(in alloc; "{value}")?;
    escaped(alloc, plain.as_str().as_bytes())
}

/// The text in so much room: of a longer one its beginning, and two points.
fn cut(alloc: Global, plain: &str, room: usize) -> Result<String, AllocError>
    ensures { IfOk result (λ t. string_bytes t ≡ cut_text room plain.now) }
{
    let bytes = plain.as_bytes();
    if bytes.len() <= room {
        return escaped(alloc, bytes);
    }
    let mut text = escaped(alloc, &bytes[..room.saturating_sub(2)])?;
    text.push_str("..")?;
    Ok(text)
}

/// The text with XML's own characters escaped. A character that is not ASCII, which no text of a history has, becomes a
/// question mark.
fn escaped(alloc: Global, bytes: &[u8]) -> Result<String, AllocError>
    ensures { IfOk result (λ t. string_bytes t ≡ escape bytes.now) }
{
    let mut text = String::new(alloc);
    for byte in bytes {
        push_escaped(&mut text, *byte)?;
    }
    Ok(text)
}

fn push_escaped(text: &mut String, byte: u8) -> Result<(), AllocError>
    ensures { OnOk result (string_bytes text.new ≡ string_bytes text.old ++ escape_one byte) }
{
    match byte {
        b'&' => text.push_str("&amp;"),
        b'<' => text.push_str("&lt;"),
        128.. => text.push_str("?"),
        _ => text.push(char::from(byte)),
    }
}
