//! The rows of the events.

ghost use Rattle.std.specs.Prelude.{◌≡◌, ◌<◌, ◌≤◌, ◌+◌, ◌^◌, ◌==◌, ◌&&◌, true, false, not, position, length};
ghost use Rattle.std.specs.Prelude.{ℕ, slice_index_or, IfOk};
ghost use Rattle.std.specs.List.{list_any};
ghost use Rattle.pt_chart.specs.Rows.{AreRows, births_in_front, comes_next, follows_sending, is_came, receives};
ghost use Rattle.pt_events.specs.History.{is_born};
ghost use Rattle.pt_chart.specs.Standing.{AreNumbered, Notes};

use crate::layout::{Arrow, Column};
use pt_events::{Event, Stamped};
use std::alloc::{AllocError, Global};

/// The row of each event, if the arrows are those of these columns.
pub(crate) fn rows_of(
    alloc: Global,
    events: &[Stamped],
    columns: &[Column],
) -> Result<Vec<usize>, AllocError>
    ensures { IfOk result (λ rows. AreRows events.now (follows_sending events.now columns.now) rows.items) }
{
    let follows = noted(alloc, events, columns)?;
    numbered(alloc, births_in_front(events), follows.as_slice())
}

/// Which events are receipts of letters that the very events before them sent, where these are no receipts.
fn noted(alloc: Global, events: &[Stamped], columns: &[Column]) -> Result<Vec<bool>, AllocError>
    ensures each { IfOk result (λ v. length v.items ≡ length events.now) }
    ensures noted { IfOk result (λ v. (i : ℕ) → i < length events.now
        → slice_index_or v.items i false ≡ follows_sending events.now columns.now i) }
{
    let mut follows = vec![in alloc; false; events.len()]?;
    note_receipts(events, columns, &mut follows);
    Ok(follows)
}

/// The number of births in front of every other event.
fn births_in_front(events: &[Stamped]) -> usize
    ensures { result ≡ births_in_front events.now }
{
    first_but_births(events).unwrap_or(events.len())
}

fn first_but_births(events: &[Stamped]) -> Option<usize>
    ensures { result ≡ position (λ s. not (is_born s.event)) events.now }
{
    events.iter().position(|stamped| !is_born(stamped.event))
}

fn is_born(event: Event) -> bool
    ensures { result ≡ is_born event }
{
    matches!(event, Event::Born(_, _, _))
}

/// Notes which events are receipts of letters that the very events before them sent, where these are no receipts.
fn note_receipts(events: &[Stamped], columns: &[Column], follows: &mut [bool])
    ensures { Notes (follows_sending events.now columns.now) follows.old follows.new }
{
    for column in columns {
        note_receipts_from(events, column, follows);
    }
}

fn note_receipts_from(events: &[Stamped], column: &Column, follows: &mut [bool])
    ensures { Notes (λ event. list_any (comes_next events.now event) column.now.arrows.items) follows.old follows.new }
{
    for arrow in &column.arrows {
        note_receipt(events, *arrow, follows);
    }
}

/// Notes the receipt of a letter, if the very event before it sent it and is no receipt itself.
fn note_receipt(events: &[Stamped], arrow: Arrow, follows: &mut [bool])
    ensures { Notes (λ event. comes_next events.now event arrow) follows.old follows.new }
{
    let Some(came) = arrow.came else {
        return;
    };
    if shares_row(events, arrow.sent, came) && came < follows.len() {
        follows[came] = true;
    }
}

/// Whether a receipt is beside its sending: that is the very event before it, and no receipt itself.
fn shares_row(events: &[Stamped], sent: usize, came: usize) -> bool
    ensures { result ≡ ((sent + 1 == came) && not (receives events.now sent)) }
{
    is_next(sent, came) && !receives(events, sent)
}

/// Whether the event at a place is a receipt.
fn receives(events: &[Stamped], at: usize) -> bool
    ensures { result ≡ receives events.now at }
{
    match events.get(at) {
        Some(stamped) => is_came(stamped.event),
        None => false,
    }
}

fn is_came(event: Event) -> bool
    ensures { result ≡ is_came event }
{
    matches!(event, Event::Came(_, _, _))
}

/// Whether this is the very next event after that.
fn is_next(event: usize, next: usize) -> bool
    ensures { result ≡ (event + 1 == next) }
{
    event < next && next - event == 1
}

/// The rows, if so many births are in front, and these events follow their sendings.
fn numbered(alloc: Global, births: usize, follows: &[bool]) -> Result<Vec<usize>, AllocError>
    ensures { IfOk result (λ rows. AreNumbered births follows.now rows.items) }
{
    let mut rows = Vec::new(alloc);
    let mut row = 0;
    for at in 0..follows.len() {
        row = row_behind(row, at, births, follows[at]);
        rows.push(row)?;
    }
    Ok(rows)
}

/// The row of an event, if the one before it is in this row.
fn row_behind(row: usize, at: usize, births: usize, follows: bool) -> usize
    requires { row + 1 < 2 ^ 64 }
    ensures first { at ≡ 0 → result ≡ row }
    ensures front { at < births → result ≡ row }
    ensures shared { follows ≡ true → result ≡ row }
    ensures most { result ≤ row + 1 }
    ensures own { 0 < at → births ≤ at → follows ≡ false → result ≡ row + 1 }
{
    if at == 0 || at < births || follows {
        row
    } else {
        row + 1
    }
}
