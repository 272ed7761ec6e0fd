//! The line and the column at which a script is wrong.
//!
//! The text is walked once for each object and list around the fault, which is in at most nine processes. So the time is
//! linear in the text.

ghost use Rattle.std.specs.Prelude.{◌≡◌, ◌≤◌, ℕ, List, map, length, IfOk};
ghost use Rattle.serde_json.specs.Data.{Data};
ghost use Rattle.serde_json.specs.View.{view};
ghost use Rattle.pt_script.specs.Explaining.{LeadsTo};
ghost use Rattle.pt_script.specs.Spots as spec;

use crate::Place;
use crate::explanation::finding::{Reached, search, search_by};
use crate::explanation::scope::list_at;
use crate::explanation::walking::{behind_next, inside, item_in, unblanked, value_in};
use crate::explanation::why::Spot;
use crate::limits::MAX_NESTING;
use serde_json::Value;
use std::alloc::{AllocError, Global};

/// An element of a list, with the text from it on, and how many more processes come before the one that is sought in it.
#[derive(Clone, Copy)]
pub(crate) struct Element<'a> {
    pub(crate) value: &'a Value,
    pub(crate) text: &'a [u8],
    pub(crate) left: u32,
}

/// Looks for a process in an element of the top list, or in an operation.
fn reached_in<'a>(is_top: bool, value: &'a Value, levels: u32, left: u32) -> Reached<'a>
    ensures { LeadsTo (spec.inside_element is_top levels (view value.now)) left result }
{
    if is_top {
        search(value, levels, left)
    } else {
        search_by(value, levels, left)
    }
}

/// The element in which the process with this number begins, of a list whose text begins behind its bracket.
fn element_with<'a>(
    is_top: bool,
    list: &'a [Value],
    text: &'a [u8],
    levels: u32,
    number: u32,
) -> Option<Element<'a>>
    ensures { (inside : Data → List ℕ → ℕ → List ℕ)
        → spec.among_elements (spec.inside_element is_top levels) inside (map view list.now) text.now number
        ≡ spec.text_from inside result }
{
    let mut rest = text;
    let mut left = number;
    for value in list {
        match reached_in(is_top, value, levels, left) {
            Reached::At(_) => {
                return Some(Element {
                    value,
                    text: unblanked(rest),
                    left,
                });
            }
            Reached::Before(more) => left = more,
        }
        rest = behind_next(rest);
    }
    None
}

/// The text from the process with this number on, among those that begin in a process.
#[cycle(within)]
fn text_within<'a>(
    alloc: Global,
    value: &'a Value,
    text: &'a [u8],
    levels: u32,
    number: u32,
) -> Result<&'a [u8], AllocError>
    ensures { IfOk result (λ t. t.now ≡ spec.text_within levels (view value.now) text.now number) }
{
    if number == 0 || levels == 0 {
        return Ok(text);
    }
    let operations = inside(value_in(alloc, text, "ops")?);
    let list = list_at(value, "ops");
    match element_with(false, list, operations, levels - 1, number - 1) {
        Some(spawn) => text_within(alloc, spawn.value, spawn.text, levels - 1, spawn.left),
        None => Ok(&[]),
    }
}

/// The text from the process with this number on.
fn process_text<'a>(
    alloc: Global,
    script: &'a Value,
    text: &'a [u8],
    number: u32,
) -> Result<&'a [u8], AllocError>
    ensures { IfOk result (λ t. t.now ≡ spec.process_place (view script.now) text.now number) }
{
    let processes = inside(value_in(alloc, text, "processes")?);
    let list = list_at(script, "processes");
    match element_with(true, list, processes, MAX_NESTING, number) {
        Some(top) => text_within(alloc, top.value, top.text, MAX_NESTING, top.left),
        None => Ok(&[]),
    }
}

/// The text from the script, the process or the operation on that a place names.
fn place_in_text<'a>(
    alloc: Global,
    script: &'a Value,
    text: &'a [u8],
    place: Place,
) -> Result<&'a [u8], AllocError>
    ensures { IfOk result (λ t. t.now ≡ spec.place_in_text (view script.now) text.now place.process place.op) }
{
    match (place.process, place.op) {
        (None, _) => Ok(text),
        (Some(number), None) => process_text(alloc, script, text, number),
        (Some(number), Some(index)) => {
            let process = process_text(alloc, script, text, number)?;
            Ok(item_in(value_in(alloc, process, "ops")?, index as usize))
        }
    }
}

/// The text from the value of a member on, which may be one of a pick; from the whole on if there is none.
fn member_in_text<'a>(
    alloc: Global,
    text: &'a [u8],
    member: Option<&str>,
) -> Result<&'a [u8], AllocError>
    ensures { IfOk result (λ t. t.now ≡ spec.member_in_text member.entry text.now) }
{
    let Some(member) = member else {
        return Ok(text);
    };
    match member.strip_prefix("pick.") {
        Some(inner) => value_in(alloc, value_in(alloc, text, "pick")?, inner),
        None => value_in(alloc, text, member),
    }
}

/// The line and the column of the byte before which there are so many.
pub(crate) fn spot_at(bytes: &[u8], count: usize) -> Spot
    requires { count ≤ length bytes.now }
    ensures { result ≡ spec.spot_at bytes.now count }
{
    let mut line = 1;
    let mut column = 1;
    for byte in &bytes[..count] {
        if *byte == b'\n' {
            line += 1;
            column = 1;
        } else {
            column += 1;
        }
    }
    Spot { line, column }
}

/// The line and the column of a member of what a place names.
pub(crate) fn spot_of(
    alloc: Global,
    bytes: &[u8],
    script: &Value,
    place: Place,
    member: Option<&str>,
) -> Result<Spot, AllocError>
    ensures { IfOk result (λ s. s ≡ spec.spot_of bytes.now (view script.now) place member.entry) }
{
    let at = place_in_text(alloc, script, unblanked(bytes), place)?;
    let told = member_in_text(alloc, at, member)?;
    Ok(spot_at(bytes, bytes.len().saturating_sub(told.len())))
}
