//! Drawing the chart, from its background to its foreground.

ghost use Rattle.std.specs.Prelude.{◌≡◌, ◌+◌, ◌==◌, ◌/◌, ◌<◌, [], ◌∷◌, ◌++◌, All, IfOk, IfSome, OnOk, length, map, not, position, slice_index};
ghost use Rattle.std.specs.Prelude.{List, Option, string_bytes, cond, is_some, slice_get, slice_index_or};
ghost use Rattle.std.specs.List.{flat_map};
ghost use Rattle.std.specs.List.Sorted.{IsNonDecreasing};
ghost use Rattle.std.specs.Option.{option_map};
ghost use Rattle.pt_chart.specs.declared.part.Part.TheVariants.{Desk, Flight, Ground, Mark as MarkPart, Name, Saying};
ghost use Rattle.pt_events.specs.declared.event.Stamped.{Stamped};
ghost use Rattle.pt_chart.specs.Chart.{named_columns};
ghost use Rattle.pt_chart.specs.Mentioning.{AreNamed, places_of};
ghost use Rattle.pt_chart.specs.Drawing.{IsChart, all_letters, bears, begins_row, block, column, drawing_text, drawn, drawn_in};
ghost use Rattle.pt_chart.specs.Drawing.{end, ends_column, ends_row, in_flight, is_at_end, column_letter, letter_beside, letters};
ghost use Rattle.pt_chart.specs.Drawing.{letters_of, name_in, names_due, page_with, tipped, refused_beside, tip_row};
ghost use Rattle.pt_chart.specs.Drawing.{event_bearing, event_mark, called_given, ground, line_parts, widest_beside};
ghost use Rattle.pt_chart.specs.Drawing.{mark, name, column_names, each_numbered, page_of, place_in, widest_refusal};
ghost use Rattle.pt_chart.specs.Rows.{count_of, in_rows, is_at_row};
ghost use Rattle.pt_events.specs.Counting.{capped};

use crate::called::{Called, names_of};
use crate::layout::{Arrow, Column, Layout, lay_out};
use crate::mentions::named_by;
use crate::page::{BLOCK, Page};
use crate::part::{Letter, Mark, Part};
use crate::pids::Pids;
use crate::text::{write_head, write_parts};
use crate::watching::{Unwatched, Watch, Work};
use indexmap::IndexSet;
use pt_events::{Event, Stamped};
use pt_signal::{Pid, Reason};
use std::alloc::{AllocError, Global};

/// Draws the history as a message sequence chart, by its layout ([`lay_out`]).
///
/// The text has these, each once and in this order, and the later ones are in front:
///
/// - the ground of each process;
/// - each event's line in the title of its row, with the row's stamps;
/// - the life of each process;
/// - the stroke of each birth from the parent;
/// - each event's mark;
/// - each exit;
/// - the label of each letter;
/// - the arrow of each letter. One in flight ends in a row of its own, below all others.
///
/// The pids of the processes are above the first row. After each 40 rows it repeats the pids that an event in the next
/// 40 rows names. Above a pid is the first name that is given for it, with XML's own characters escaped. A row has the
/// stamp and the desk of its first event, and of its last one.
pub fn chart(alloc: Global, events: &[Stamped], called: &[Called<'_>]) -> Result<String, AllocError>
    ensures { IfOk result (λ text. IsChart events.now (map called_given called.now) (string_bytes text)) }
{
    chart_watched(alloc, events, called, &Unwatched)
}

/// The same. Meanwhile the watch hears of each part that is drawn.
pub fn chart_watched<P: Watch>(
    alloc: Global,
    events: &[Stamped],
    called: &[Called<'_>],
    watch: &P,
) -> Result<String, AllocError>
    ensures { IfOk result (λ text. IsChart events.now (map called_given called.now) (string_bytes text)) }
{
    let layout = lay_out(alloc, events)?;
    drawing_of(alloc, events, called, &layout, watch)
}

/// The drawing of a layout of the history.
fn drawing_of<P: Watch>(
    alloc: Global,
    events: &[Stamped],
    called: &[Called<'_>],
    layout: &Layout,
    watch: &P,
) -> Result<String, AllocError>
    requires { length layout.now.rows.items ≡ length events.now }
    ensures { IfOk result (λ text. string_bytes text ≡ drawing_text (page_of events.now layout.now)
        (column_names (map called_given called.now) layout.now.columns.items) (drawn events.now layout.now)) }
{
    let letters = letters_of(alloc, layout)?;
    let page = page_with(alloc, events, layout, letters.as_slice())?;
    let names = names_of(alloc, called, layout.columns.as_slice())?;
    drawing_with(
        alloc,
        events,
        &page,
        names.as_slice(),
        layout,
        letters.as_slice(),
        watch,
    )
}

/// The drawing of a layout and its letters on this page, if the processes of its columns have these names.
fn drawing_with<P: Watch>(
    alloc: Global,
    events: &[Stamped],
    page: &Page,
    names: &[&str],
    layout: &Layout,
    letters: &[Letter],
    watch: &P,
) -> Result<String, AllocError>
    requires { length layout.now.rows.items ≡ length events.now }
    ensures { IfOk result (λ text. string_bytes text ≡ drawing_text page.now (map (λ n. n.now) names.now)
        (drawn_in layout.now.rows.items events.now layout.now.columns.items letters.now)) }
{
    let parts = parts_of(alloc, events, layout, letters)?;
    text_of(alloc, page, names, parts.as_slice(), watch)
}

/// The text of a drawing.
fn text_of<P: Watch>(
    alloc: Global,
    page: &Page,
    names: &[&str],
    parts: &[Part],
    watch: &P,
) -> Result<String, AllocError>
    ensures { IfOk result (λ text. string_bytes text
        ≡ drawing_text page.now (map (λ n. n.now) names.now) parts.now) }
{
    let mut text = String::new(alloc);
    match write_drawing(alloc, page, names, parts, watch, &mut text) {
        Ok(()) => Ok(text),
        Err(error) => Err(error),
    }
}

/// Writes the whole text of a drawing.
fn write_drawing<P: Watch>(
    alloc: Global,
    page: &Page,
    names: &[&str],
    parts: &[Part],
    watch: &P,
    text: &mut String,
) -> Result<(), AllocError>
    ensures { OnOk result (string_bytes text.new
        ≡ string_bytes text.old ++ drawing_text page.now (map (λ n. n.now) names.now) parts.now) }
{
    watch.begin(Work::Draw, Some(parts.len() as u64));
    write_head(page, text)?;
    write_parts(alloc, page, names, parts, watch, text)?;
    text.push_str("</svg>\n")
}

/// The page that has room for a layout of the history and its letters.
fn page_with(
    alloc: Global,
    events: &[Stamped],
    layout: &Layout,
    letters: &[Letter],
) -> Result<Page, AllocError>
    ensures { IfOk result (λ page. page ≡ page_with events.now layout.now letters.now) }
{
    let refused = widest_refusal(alloc, events)?;
    Ok(Page {
        beside: widest_label(alloc, refused, letters)?,
        columns: layout.columns.len(),
        events: events.len(),
        rows: count_of(layout.rows.as_slice()).saturating_add(in_flight(letters)),
    })
}

/// The number of rows.
fn count_of(rows: &[usize]) -> usize
    ensures { result ≡ count_of rows.now }
{
    let mut count = 0;
    for row in rows {
        count = row.saturating_add(1).max(count);
    }
    count
}

/// The room that the labels of failed calls take behind their columns, at least a margin of twelve.
fn widest_refusal(alloc: Global, events: &[Stamped]) -> Result<usize, AllocError>
    ensures { IfOk result (λ n. n ≡ widest_refusal 12 events.now) }
{
    let mut widest = 12;
    for stamped in events {
        widest = refused_beside(alloc, stamped.event)?.max(widest);
    }
    Ok(widest)
}

/// The room that an event's label takes behind its column.
fn refused_beside(alloc: Global, event: Event) -> Result<usize, AllocError>
    ensures { IfOk result (λ n. n ≡ refused_beside event) }
{
    match event {
        Event::Refused(_, to) => {
            let said = format!(in alloc; "refused {to}")?;
            Ok(said.len().saturating_mul(7).saturating_sub(76))
        }
        _ => Ok(0),
    }
}

/// This room, or that of a letter's label if it takes more.
fn widest_label(alloc: Global, room: usize, letters: &[Letter]) -> Result<usize, AllocError>
    ensures { IfOk result (λ n. n ≡ widest_beside room letters.now) }
{
    let mut widest = room;
    for letter in letters {
        widest = letter_beside(alloc, *letter)?.max(widest);
    }
    Ok(widest)
}

/// The room that the label of a letter takes behind its column: that of one from a process to itself is right of it.
fn letter_beside(alloc: Global, letter: Letter) -> Result<usize, AllocError>
    ensures { IfOk result (λ n. n ≡ letter_beside letter) }
{
    if letter.column != letter.arrow.to {
        return Ok(0);
    }
    let signal = letter.arrow.signal;
    let said = format!(in alloc; "{signal}")?;
    Ok(said.len().min(24).saturating_mul(7).saturating_sub(48))
}

/// The letters of a layout, column by column, each with the row in which its arrow ends.
fn letters_of(alloc: Global, layout: &Layout) -> Result<Vec<Letter>, AllocError>
    ensures { IfOk result (λ v. v.items ≡ all_letters layout.now) }
{
    let rows = layout.rows.as_slice();
    let sent = letters_sent(alloc, rows, layout.columns.as_slice())?;
    placed(alloc, count_of(rows), sent.as_slice())
}

/// The letters, column by column. None has a row for its tip yet.
fn letters_sent(
    alloc: Global,
    rows: &[usize],
    columns: &[Column],
) -> Result<Vec<Letter>, AllocError>
    ensures { IfOk result (λ v. v.items ≡ each_numbered (letters rows.now columns.now) columns.now) }
{
    let mut letters = Vec::new(alloc);
    for place in 0..columns.len() {
        list_letters_from(rows, columns, place, &columns[place], &mut letters)?;
    }
    Ok(letters)
}

fn list_letters_from(
    rows: &[usize],
    columns: &[Column],
    place: usize,
    shown: &Column,
    listed: &mut Vec<Letter>,
) -> Result<(), AllocError>
    ensures { OnOk result (listed.new.items ≡ listed.old.items ++ letters rows.now columns.now place shown.now) }
{
    for arrow in &shown.arrows {
        listed.push(letter_of(rows, columns, place, *arrow))?;
    }
    Ok(())
}

/// The letter of an arrow from this column.
fn letter_of(rows: &[usize], columns: &[Column], column: usize, arrow: Arrow) -> Letter
    ensures { result ≡ column_letter rows.now columns.now column arrow }
{
    Letter {
        column,
        arrow: in_rows(rows, arrow),
        ends: ends_column(columns, arrow),
        tip: 0,
    }
}

/// Whether the receipt of a letter ends the receiver.
fn ends_column(columns: &[Column], arrow: Arrow) -> bool
    ensures { result ≡ ends_column (slice_get columns.now arrow.to) arrow.came }
{
    match columns.get(arrow.to) {
        Some(receiver) => is_at_end(receiver.ended, arrow.came),
        None => false,
    }
}

fn is_at_end(ended: Option<(usize, Reason)>, came: Option<usize>) -> bool
    ensures { result ≡ is_at_end ended came }
{
    match ended {
        Some((end, _)) => is_at(end, came),
        None => false,
    }
}

/// Whether a letter arrives by this event.
fn is_at(event: usize, came: Option<usize>) -> bool
    ensures { result ≡ is_at_row event came }
{
    match came {
        Some(came) => came == event,
        None => false,
    }
}

/// The letters with the rows in which their arrows end, if there are so many rows.
fn placed(alloc: Global, rows: usize, letters: &[Letter]) -> Result<Vec<Letter>, AllocError>
    ensures { IfOk result (λ v. v.items ≡ each_numbered (tipped rows letters.now) letters.now) }
{
    let mut placed = Vec::new(alloc);
    let mut flights = 0;
    for at in 0..letters.len() {
        placed.push(with_tip(letters[at], rows, flights))?;
        flights = and_flight(flights, letters[at]);
    }
    Ok(placed)
}

/// The letter with the row in which its arrow ends: that of its receipt, or the next one below all rows and these flights.
fn with_tip(letter: Letter, rows: usize, flights: usize) -> Letter
    ensures { result ≡ record letter { tip = tip_row rows flights letter.arrow.came } }
{
    let tip = match letter.arrow.came {
        Some(row) => row,
        None => rows.saturating_add(flights),
    };
    Letter { tip, ..letter }
}

/// So many letters in flight, and this one if it is.
fn and_flight(flights: usize, letter: Letter) -> usize
    ensures { result ≡ cond (is_some letter.arrow.came) flights (capped (flights + 1)) }
{
    if letter.arrow.came.is_some() {
        flights
    } else {
        flights.saturating_add(1)
    }
}

/// The number of letters in flight.
fn in_flight(letters: &[Letter]) -> usize
    ensures { result ≡ in_flight letters.now }
{
    let mut flights = 0;
    for letter in letters {
        flights = and_flight(flights, *letter);
    }
    flights
}

/// The parts of the chart.
fn parts_of(
    alloc: Global,
    events: &[Stamped],
    layout: &Layout,
    letters: &[Letter],
) -> Result<Vec<Part>, AllocError>
    requires { length layout.now.rows.items ≡ length events.now }
    ensures { IfOk result (λ parts. parts.items
        ≡ drawn_in layout.now.rows.items events.now layout.now.columns.items letters.now) }
{
    let pids = pids_of(alloc, layout.columns.as_slice())?;
    let mut parts = Vec::new(alloc);
    match list_parts(alloc, events, layout, &pids, letters, &mut parts) {
        Ok(()) => Ok(parts),
        Err(error) => Err(error),
    }
}

/// The processes of the columns.
fn pids_of(alloc: Global, columns: &[Column]) -> Result<Pids, AllocError>
    ensures { IfOk result (λ pids. pids ≡ map (λ c. c.pid) columns.now) }
{
    let mut pids = Vec::with_capacity(alloc, columns.len())?;
    for column in columns {
        pids.push(column.pid)?;
    }
    Pids::of(alloc, pids)
}

/// Lists the parts of the chart, where none is listed yet, if these are the processes of its columns.
fn list_parts(
    alloc: Global,
    events: &[Stamped],
    layout: &Layout,
    pids: &Pids,
    letters: &[Letter],
    parts: &mut Vec<Part>,
) -> Result<(), AllocError>
    requires rows { length layout.now.rows.items ≡ length events.now }
    requires pids { pids.now ≡ map (λ c. c.pid) layout.now.columns.items }
    requires empty { parts.old.items ≡ [] }
    ensures { OnOk result
        (parts.new.items ≡ drawn_in layout.now.rows.items events.now layout.now.columns.items letters.now) }
{
    let columns = layout.columns.as_slice();
    let rows = layout.rows.as_slice();
    list_grounds(alloc, columns, parts)?;
    list_lines(alloc, rows, events, columns, pids, parts)?;
    list_columns(rows, columns, parts)?;
    list_bearings(rows, events, columns, pids, parts)?;
    list_marks(rows, events, columns, pids, parts)?;
    list_ends(rows, columns, parts)?;
    list_sayings(letters, parts)?;
    list_flights(letters, parts)
}

/// The row of an event.
fn row_of(rows: &[usize], event: usize) -> usize
    ensures { result ≡ slice_index rows.now event }
{
    match rows.get(event) {
        Some(row) => *row,
        None => 0,
    }
}

/// The arrow from row to row, if it goes from event to event.
fn in_rows(rows: &[usize], arrow: Arrow) -> Arrow
    ensures { result ≡ in_rows rows.now arrow }
{
    Arrow {
        to: arrow.to,
        signal: arrow.signal,
        sent: row_of(rows, arrow.sent),
        came: row_if(rows, arrow.came),
    }
}

fn row_if(rows: &[usize], event: Option<usize>) -> Option<usize>
    ensures { result ≡ option_map (slice_index rows.now) event }
{
    match event {
        Some(event) => Some(row_of(rows, event)),
        None => None,
    }
}

/// The ground of each process.
fn list_grounds(alloc: Global, columns: &[Column], parts: &mut Vec<Part>) -> Result<(), AllocError>
    ensures { OnOk result (parts.new.items ≡ parts.old.items ++ each_numbered (ground columns.now) columns.now) }
{
    let mut desks = IndexSet::new(alloc);
    for place in 0..columns.len() {
        let desk = columns[place].pid.shard;
        let first = desks.insert(desk)?;
        list_ground(place, desk, first, parts)?;
    }
    Ok(())
}

/// The ground of a process, and the name of its desk if this is the desk's first column.
fn list_ground(
    column: usize,
    desk: u8,
    first: bool,
    parts: &mut Vec<Part>,
) -> Result<(), AllocError>
    ensures { OnOk result (parts.new.items ≡ parts.old.items ++ Ground column desk ∷ cond first (Desk column desk ∷ []) []) }
{
    parts.push(Part::Ground { column, desk })?;
    if first {
        parts.push(Part::Desk { column, desk })?;
    }
    Ok(())
}

/// The line and the life of each process.
fn list_columns(rows: &[usize], columns: &[Column], parts: &mut Vec<Part>) -> Result<(), AllocError>
    ensures { OnOk result (parts.new.items ≡ parts.old.items ++ each_numbered (column rows.now) columns.now) }
{
    for place in 0..columns.len() {
        list_column(rows, place, &columns[place], parts)?;
    }
    Ok(())
}

fn list_column(
    rows: &[usize],
    place: usize,
    shown: &Column,
    parts: &mut Vec<Part>,
) -> Result<(), AllocError>
    ensures { OnOk result (parts.new.items ≡ parts.old.items ++ column rows.now place shown.now) }
{
    parts.push(Part::Column { column: place })?;
    if let Some(born) = shown.born {
        parts.push(Part::Life {
            column: place,
            born: row_of(rows, born),
            ended: row_of_end(rows, shown.ended),
        })?;
    }
    Ok(())
}

fn row_of_end(rows: &[usize], ended: Option<(usize, Reason)>) -> Option<usize>
    ensures { result ≡ option_map (λ e. slice_index rows.now e.0) ended }
{
    match ended {
        Some((event, _)) => Some(row_of(rows, event)),
        None => None,
    }
}

/// The label of each letter.
fn list_sayings(letters: &[Letter], parts: &mut Vec<Part>) -> Result<(), AllocError>
    ensures { OnOk result (parts.new.items ≡ parts.old.items ++ map Saying letters.now) }
{
    for letter in letters {
        parts.push(Part::Saying(*letter))?;
    }
    Ok(())
}

/// The arrow of each letter.
fn list_flights(letters: &[Letter], parts: &mut Vec<Part>) -> Result<(), AllocError>
    ensures { OnOk result (parts.new.items ≡ parts.old.items ++ map Flight letters.now) }
{
    for letter in letters {
        parts.push(Part::Flight(*letter))?;
    }
    Ok(())
}

/// The stroke to each process from its parent.
fn list_bearings(
    rows: &[usize],
    events: &[Stamped],
    columns: &[Column],
    pids: &Pids,
    parts: &mut Vec<Part>,
) -> Result<(), AllocError>
    requires { pids.now ≡ map (λ c. c.pid) columns.now }
    ensures { OnOk result (parts.new.items ≡ parts.old.items ++ each_numbered (bears rows.now columns.now) events.now) }
{
    for at in 0..events.len() {
        list_bearing(row_of(rows, at), events[at].event, columns, pids, parts)?;
    }
    Ok(())
}

fn list_bearing(
    row: usize,
    event: Event,
    columns: &[Column],
    pids: &Pids,
    parts: &mut Vec<Part>,
) -> Result<(), AllocError>
    requires { pids.now ≡ map (λ c. c.pid) columns.now }
    ensures { OnOk result (parts.new.items ≡ parts.old.items ++ event_bearing columns.now row event) }
{
    let Event::Born(pid, Some(by), link) = event else {
        return Ok(());
    };
    let mark = Mark::Bearing {
        parent: column_of(columns, pids, by),
        child: column_of(columns, pids, pid),
        by,
        linked: link.is_some(),
    };
    put(row, mark, parts)
}

/// The mark of each event.
fn list_marks(
    rows: &[usize],
    events: &[Stamped],
    columns: &[Column],
    pids: &Pids,
    parts: &mut Vec<Part>,
) -> Result<(), AllocError>
    requires { pids.now ≡ map (λ c. c.pid) columns.now }
    ensures { OnOk result (parts.new.items ≡ parts.old.items ++ each_numbered (mark rows.now columns.now) events.now) }
{
    for at in 0..events.len() {
        list_mark(row_of(rows, at), events[at].event, columns, pids, parts)?;
    }
    Ok(())
}

fn list_mark(
    row: usize,
    event: Event,
    columns: &[Column],
    pids: &Pids,
    parts: &mut Vec<Part>,
) -> Result<(), AllocError>
    requires { pids.now ≡ map (λ c. c.pid) columns.now }
    ensures { OnOk result (parts.new.items ≡ parts.old.items ++ event_mark columns.now row event) }
{
    match event {
        Event::Born(pid, _, _) => {
            let column = column_of(columns, pids, pid);
            put(row, Mark::Birth { column }, parts)
        }
        Event::Took(pid, _, _) => {
            let column = column_of(columns, pids, pid);
            put(row, Mark::Taking { column }, parts)
        }
        Event::Flag(pid, on) => {
            let column = column_of(columns, pids, pid);
            put(row, Mark::Trapping { column, on }, parts)
        }
        Event::Refused(from, to) => {
            let column = column_of(columns, pids, from);
            put(row, Mark::Refusal { column, to }, parts)
        }
        Event::Said(_, _, _) | Event::Came(_, _, _) | Event::Left(_, _) => Ok(()),
    }
}

fn put(row: usize, mark: Mark, parts: &mut Vec<Part>) -> Result<(), AllocError>
    ensures { OnOk result (parts.new.items ≡ parts.old.items ++ MarkPart row mark ∷ []) }
{
    parts.push(Part::Mark { row, mark })?;
    Ok(())
}

/// The column of a process; after all columns if it has none.
fn column_of(columns: &[Column], pids: &Pids, pid: Pid) -> usize
    requires { pids.now ≡ map (λ c. c.pid) columns.now }
    ensures { result ≡ place_in columns.now pid }
{
    pids.first(pid).unwrap_or(columns.len())
}

/// A cross at the exit of each process.
fn list_ends(rows: &[usize], columns: &[Column], parts: &mut Vec<Part>) -> Result<(), AllocError>
    ensures { OnOk result (parts.new.items ≡ parts.old.items ++ each_numbered (end rows.now) columns.now) }
{
    for place in 0..columns.len() {
        list_end(rows, place, &columns[place], parts)?;
    }
    Ok(())
}

fn list_end(
    rows: &[usize],
    place: usize,
    shown: &Column,
    parts: &mut Vec<Part>,
) -> Result<(), AllocError>
    ensures { OnOk result (parts.new.items ≡ parts.old.items ++ end rows.now place shown.now) }
{
    if let Some((event, reason)) = shown.ended {
        parts.push(Part::End {
            row: row_of(rows, event),
            column: place,
            reason,
        })?;
    }
    Ok(())
}

/// The line of each event.
fn list_lines(
    alloc: Global,
    rows: &[usize],
    events: &[Stamped],
    columns: &[Column],
    pids: &Pids,
    parts: &mut Vec<Part>,
) -> Result<(), AllocError>
    requires rows { length rows.now ≡ length events.now }
    requires pids { pids.now ≡ map (λ c. c.pid) columns.now }
    ensures { OnOk result
        (parts.new.items ≡ parts.old.items ++ each_numbered (line_parts rows.now events.now columns.now) events.now) }
{
    for at in 0..events.len() {
        list_line(alloc, rows, events, at, columns, pids, parts)?;
    }
    Ok(())
}

/// The line of an event. Before the first one of a row, the names of the processes if they are due.
fn list_line(
    alloc: Global,
    rows: &[usize],
    events: &[Stamped],
    at: usize,
    columns: &[Column],
    pids: &Pids,
    parts: &mut Vec<Part>,
) -> Result<(), AllocError>
    requires rows { length rows.now ≡ length events.now }
    requires within { at < length rows.now }
    requires pids { pids.now ≡ map (λ c. c.pid) columns.now }
    ensures { (event : Stamped) → OnOk result
        (parts.new.items
        ≡ parts.old.items ++ line_parts rows.now events.now columns.now at (slice_index_or events.now at event)) }
{
    let first = begins_row(rows, at);
    if first {
        list_names(alloc, rows, events, at, columns, pids, parts)?;
    }
    parts.push(Part::Line {
        row: rows[at],
        event: events[at],
        first,
        last: ends_row(rows, at),
    })?;
    Ok(())
}

/// Whether the event is in another row than the one before it, or is the first.
fn begins_row(rows: &[usize], at: usize) -> bool
    ensures { result ≡ begins_row rows.now at }
{
    at == 0 || row_of(rows, at) != row_of(rows, at - 1)
}

/// Whether the event is in another row than the next one, or is the last.
fn ends_row(rows: &[usize], at: usize) -> bool
    requires { at < length rows.now }
    ensures { result ≡ ends_row rows.now at }
{
    rows.len() == at + 1 || rows[at] != rows[at + 1]
}

/// The names of the processes above the row of an event, if they are due. All are above the first row, and after each
/// 40 rows again those that an event in the next 40 names.
fn list_names(
    alloc: Global,
    rows: &[usize],
    events: &[Stamped],
    at: usize,
    columns: &[Column],
    pids: &Pids,
    parts: &mut Vec<Part>,
) -> Result<(), AllocError>
    requires rows { length rows.now ≡ length events.now }
    requires within { at < length rows.now }
    requires pids { pids.now ≡ map (λ c. c.pid) columns.now }
    ensures { OnOk result
        (parts.new.items ≡ parts.old.items ++ names_due rows.now events.now columns.now at) }
{
    let row = rows[at];
    if row % BLOCK != 0 {
        return Ok(());
    }
    if row == 0 {
        return list_all_names(row, columns, parts);
    }
    list_names_in(alloc, block_of(rows, events, at), row, columns, pids, parts)
}

/// The event and those after it in the same 40 rows.
fn block_of<'a>(rows: &[usize], events: &'a [Stamped], at: usize) -> &'a [Stamped]
    requires rows { length rows.now ≡ length events.now }
    requires within { at < length rows.now }
    ensures { result.now ≡ block rows.now events.now at }
{
    let later = &events[at..];
    match first_behind(&rows[at..], rows[at] / BLOCK) {
        Some(count) => &later[..count],
        None => later,
    }
}

/// The place of the first row that is not of the block with this number.
fn first_behind(rows: &[usize], number: usize) -> Option<usize>
    ensures place { result ≡ position (λ row. not (row / 40 == number)) rows.now }
    ensures within { IfSome result (λ place. place < length rows.now) }
{
    rows.iter().position(|row| *row / BLOCK != number)
}

/// The names of the processes that an event of the block names.
fn list_names_in(
    alloc: Global,
    block: &[Stamped],
    row: usize,
    columns: &[Column],
    pids: &Pids,
    parts: &mut Vec<Part>,
) -> Result<(), AllocError>
    requires { pids.now ≡ map (λ c. c.pid) columns.now }
    ensures { OnOk result (parts.new.items ≡ parts.old.items ++ each_numbered (name_in block.now row) columns.now) }
{
    let named = columns_named(alloc, block, pids)?;
    list_names_of(named.as_slice(), row, columns, parts)
}

/// The columns of the processes that an event of the block names, in order. A column may be there more than once.
fn columns_named(alloc: Global, block: &[Stamped], pids: &Pids) -> Result<Vec<usize>, AllocError>
    ensures named { IfOk result (λ v. AreNamed block.now pids.now v.items) }
    ensures sorted { IfOk result (λ v. IsNonDecreasing v.items) }
{
    let mut named = columns_in(alloc, block, pids)?;
    named.sort_unstable();
    Ok(named)
}

/// The columns of the processes that an event of the block names.
fn columns_in(alloc: Global, block: &[Stamped], pids: &Pids) -> Result<Vec<usize>, AllocError>
    ensures { IfOk result (λ v. AreNamed block.now pids.now v.items) }
{
    let mut named = Vec::new(alloc);
    for at in 0..block.len() {
        add_columns(block[at].event, pids, &mut named)?;
    }
    Ok(named)
}

/// Adds the columns of the processes that an event names.
fn add_columns(event: Event, pids: &Pids, named: &mut Vec<usize>) -> Result<(), AllocError>
    ensures { OnOk result (named.new.items ≡ named.old.items ++ flat_map (λ p. places_of p pids.now) (named_columns event)) }
{
    let (first, last) = named_by(event);
    if let Some(first) = first {
        named.extend_from_slice(pids.all(first))?;
    }
    named.extend_from_slice(pids.all(last))
}

/// The names of these columns, each once, if they are in order.
fn list_names_of(
    named: &[usize],
    row: usize,
    columns: &[Column],
    parts: &mut Vec<Part>,
) -> Result<(), AllocError>
    requires within { All (λ k. k < length columns.now) named.now }
    requires sorted { IsNonDecreasing named.now }
    ensures { (block : List Stamped) → AreNamed block (map (λ c. c.pid) columns.now) named.now
        → OnOk result (parts.new.items ≡ parts.old.items ++ each_numbered (name_in block row) columns.now) }
{
    let mut behind = 0;
    for at in 0..named.len() {
        let column = named[at];
        if behind <= column {
            parts.push(Part::Name {
                row,
                column,
                pid: columns[column].pid,
            })?;
            behind = column + 1;
        }
    }
    Ok(())
}

fn list_all_names(row: usize, columns: &[Column], parts: &mut Vec<Part>) -> Result<(), AllocError>
    ensures { OnOk result (parts.new.items ≡ parts.old.items ++ each_numbered (name row) columns.now) }
{
    for place in 0..columns.len() {
        parts.push(Part::Name {
            row,
            column: place,
            pid: columns[place].pid,
        })?;
    }
    Ok(())
}
