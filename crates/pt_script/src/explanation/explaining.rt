//! Why a text is no script, by the place of its fault.

ghost use Rattle.std.specs.Prelude.{◌≡◌, ℕ, codes, IfOk, string_bytes, slice_index_or};
ghost use Rattle.serde_json.specs.Data.{null};
ghost use Rattle.serde_json.specs.View.{view};
ghost use Rattle.pt_script.specs.Explaining.{IsAtPlace, IsLabelOf, IsOfOperation, IsOfProcess, IsSaidOf, list_in};
ghost use Rattle.pt_script.specs.WhyTexts.{why_text};
ghost use Rattle.pt_script.specs.Spots.{IsSpotOf};
ghost use Rattle.pt_script.specs.declared.explanation.why.Spot.{Spot};
ghost use Rattle.pt_script.specs.declared.explanation.why.Why.{Why};

use crate::explanation::blocks::of_block;
use crate::explanation::finding::{Found, process_at};
use crate::explanation::looking::{Flaw, flaw_in};
use crate::explanation::scope::{Scope, is_own_name, is_spawn, list_at, text_at, word_at};
use crate::explanation::spot::{spot_at, spot_of};
use crate::explanation::tables::{PROCESS, SCRIPT, format_of, members_of};
use crate::explanation::why::{Label, Limit, Scene, Spot, Told, Why, Wrong};
use crate::limits::{MAX_BYTES, MAX_DEPTH, MAX_PROCESSES};
use crate::{Fault, Place};
use serde_json::{Error, Value};
use std::alloc::{AllocError, Global};
use std::str::from_utf8;

/// Explains in one line, without a line feed, why bytes are no script. It takes the bytes and the fault that reading
/// them returned.
///
/// The line has the line and the column of what it says is wrong: of the value of the member, or of the whole if a member
/// is missing or none is named. The fault should be the one that `pt_script` returns for these bytes. For another fault
/// the line says what is found at its place, or that nothing is. The bytes are read again, which takes memory. Fails with
/// `AllocError` if there is none.
pub fn explain(
    alloc: Global,
    bytes: &[u8],
    fault: Fault,
    place: Place,
) -> Result<String, AllocError>
    ensures text { IfOk result (λ s. (w : Why) × (spot : Spot) × (string_bytes s ≡ why_text w spot)
        × IsSaidOf bytes.now place w.scene × IsSpotOf bytes.now place w.member spot) }
{
    if MAX_BYTES < bytes.len() {
        let why = in_script(None, (None, Wrong::Over(Limit::Bytes)));
        let spot = spot_at(bytes, MAX_BYTES);
        return text_of(alloc, Told { why, spot });
    }
    match Value::from_slice(alloc, bytes) {
        Ok(value) => {
            let why = why_of(&value, fault, place);
            let spot = spot_of(alloc, bytes, &value, place, why.member)?;
            text_of(alloc, Told { why, spot })
        }
        Err(error) => {
            if error.is_memory() {
                Err(AllocError)
            } else {
                text_of(alloc, no_value(bytes, &error))
            }
        }
    }
}

fn text_of(alloc: Global, told: Told<'_>) -> Result<String, AllocError>
    ensures { IfOk result (λ s. string_bytes s ≡ why_text told.entry.why told.entry.spot) }
{
    format!(in alloc; "{told}")
}

/// Why bytes are no JSON, and the place of the error.
fn no_value(bytes: &[u8], error: &Error) -> Told<'static>
    ensures { result.why.scene ≡ Scene.Script }
{
    let wrong = if from_utf8(bytes).is_err() {
        Wrong::NoUtf8
    } else if error.is_eof() {
        Wrong::EndsEarly
    } else {
        Wrong::NoJson
    };
    Told {
        why: in_script(None, (None, wrong)),
        spot: Spot {
            line: error.line(),
            column: error.column(),
        },
    }
}

/// Why a value is no script.
fn why_of(value: &Value, fault: Fault, place: Place) -> Why<'_>
    ensures { IsAtPlace (view value.now) place result.scene }
{
    let scope = Scope::of(value);
    let Some(number) = place.process else {
        let flaw = flaw_in(fault, value, SCRIPT.as_slice(), &scope);
        return in_script(Some(value), flaw_or(flaw, Wrong::Refused));
    };
    match (process_at(scope.tops, number), place.op) {
        (Some(found), None) => in_process(fault, found, number, &scope),
        (Some(found), Some(index)) => in_operation(fault, found, number, index as usize, &scope),
        (None, None) => in_nothing(Scene::Process(Label::Index(number as usize))),
        (None, Some(index)) => in_nothing(Scene::Operation {
            process: Label::Index(number as usize),
            operation: Label::Index(index as usize),
        }),
    }
}

/// The explanation if nothing is found.
fn in_nothing(scene: Scene<'static>) -> Why<'static>
    ensures { result.scene ≡ scene.entry }
{
    Why {
        scene,
        member: None,
        word: None,
        wrong: Wrong::Refused,
    }
}

/// The flaw that was found, or what is wrong with the whole.
fn flaw_or(flaw: Option<Flaw<'_>>, wrong: Wrong) -> Flaw<'_> {
    match flaw {
        Some(flaw) => flaw,
        None => (None, wrong),
    }
}

/// What is wrong with a script, without its processes, with or without its value.
fn in_script<'a>(value: Option<&'a Value>, flaw: Flaw<'a>) -> Why<'a>
    ensures { result.scene ≡ Scene.Script }
{
    let (member, wrong) = flaw;
    Why {
        scene: Scene::Script,
        member,
        word: word_of(value, member, wrong),
        wrong,
    }
}

/// The word that a member is, if it has the form of a name. If a member is unknown, its name is the wrong word.
fn word_of<'a>(value: Option<&'a Value>, member: Option<&str>, wrong: Wrong) -> Option<&'a str> {
    match wrong {
        Wrong::Unknown => None,
        _ => word_at(value?, member?),
    }
}

/// The name of a process, or its number if it has no name.
fn label_of(value: &Value, number: u32) -> Label<'_>
    ensures { IsLabelOf (codes "name") (view value.now) number result }
{
    match text_at(value, "name") {
        Some(name) if is_own_name(name) => Label::Name(name),
        _ => Label::Index(number as usize),
    }
}

/// What is wrong with a process, without its operations.
fn in_process<'a>(fault: Fault, found: Found<'a>, number: u32, scope: &Scope<'_>) -> Why<'a>
    ensures { IsOfProcess (view found.entry.value.now) number result.scene }
{
    let (member, wrong) = if is_bounds(fault) && MAX_PROCESSES <= number as usize {
        (None, Wrong::Over(Limit::Processes))
    } else {
        flaw_or(
            flaw_in(fault, found.value, PROCESS.as_slice(), scope),
            over(fault, Wrong::Over(Limit::Slots)),
        )
    };
    Why {
        scene: Scene::Process(label_of(found.value, number)),
        member,
        word: word_of(Some(found.value), member, wrong),
        wrong,
    }
}

fn is_bounds(fault: Fault) -> bool {
    match fault {
        Fault::Bounds => true,
        _ => false,
    }
}

/// What is wrong if no member is: for a fault of bounds, that there is too much of something.
fn over(fault: Fault, wrong: Wrong) -> Wrong {
    if is_bounds(fault) {
        wrong
    } else {
        Wrong::Refused
    }
}

/// What is wrong with an operation of a process.
fn in_operation<'a>(
    fault: Fault,
    found: Found<'a>,
    number: u32,
    index: usize,
    scope: &Scope<'_>,
) -> Why<'a>
    ensures { IsOfOperation (view found.entry.value.now) number
        (slice_index_or (list_in (codes "ops") (view found.entry.value.now)) index null) index result.scene }
{
    let process = label_of(found.value, number);
    let list = list_at(found.value, "ops");
    let (operation, (member, wrong)) = match list.get(index) {
        Some(value) => (
            label_of_operation(value, index, scope.format),
            flaw_of_operation(fault, value, &scope.behind(found.depth, &list[..index])),
        ),
        None => (Label::Index(index), (None, Wrong::Refused)),
    };
    Why {
        scene: Scene::Operation { process, operation },
        member,
        word: word_of(list.get(index), member, wrong),
        wrong,
    }
}

/// Which operation it is, or its index if it is none.
fn label_of_operation(value: &Value, index: usize, format: u64) -> Label<'_>
    ensures { IsLabelOf (codes "op") (view value.now) index result }
{
    match text_at(value, "op") {
        Some(name) if members_of(name, format).is_some() => Label::Name(name),
        _ => Label::Index(index),
    }
}

/// What is wrong with an operation.
fn flaw_of_operation<'a>(fault: Fault, value: &'a Value, scope: &Scope<'_>) -> Flaw<'a> {
    if is_bounds(fault) && is_spawn(value) {
        return (None, of_spawn(scope));
    }
    let flaw = match text_at(value, "op") {
        Some(name) => flaw_of_named(fault, name, value, scope),
        None => flaw_of_unnamed(fault, value),
    };
    match fault {
        Fault::Field => flaw_or(flaw, of_block(value, scope.before)),
        _ => flaw_or(flaw, over(fault, of_operations(scope.format))),
    }
}

/// What there is too much of if a spawn is at fault.
fn of_spawn(scope: &Scope<'_>) -> Wrong {
    if MAX_DEPTH <= scope.depth {
        Wrong::Over(Limit::Depth)
    } else {
        of_operations(scope.format)
    }
}

/// That there are too many operations. From format 3 on they count in each round of a repeat.
fn of_operations(format: u64) -> Wrong {
    Wrong::Over(if 3 <= format {
        Limit::Rounds
    } else {
        Limit::Operations
    })
}

/// What is wrong with a value that has the name of an operation.
fn flaw_of_named<'a>(
    fault: Fault,
    name: &str,
    value: &'a Value,
    scope: &Scope<'_>,
) -> Option<Flaw<'a>> {
    match members_of(name, scope.format) {
        Some(names) => flaw_in(fault, value, names, scope),
        None if is_bounds(fault) => None,
        None => Some((Some("op"), of_name(name))),
    }
}

/// What is wrong with the name of an operation that the script's format does not have.
fn of_name(name: &str) -> Wrong {
    match format_of(name) {
        Some(format) => Wrong::Later(format),
        None => Wrong::NoOperation,
    }
}

/// What is wrong with a value that has no name of an operation, or a wrong one.
fn flaw_of_unnamed(fault: Fault, value: &Value) -> Option<Flaw<'static>> {
    match value.get("op") {
        _ if is_bounds(fault) => None,
        _ if !value.is_object() => Some((None, Wrong::NoObject)),
        Some(_) => Some((Some("op"), Wrong::NoText)),
        None => Some((Some("op"), Wrong::Missing)),
    }
}
