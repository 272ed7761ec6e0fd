//! Finding the member that is at fault.
//!
//! The reader stops at the first fault of a script, so all that it reads before is right. So the member that is wrong
//! is the first one, in the reader's order, that can have a fault of this kind. No other kind has to be looked for.

use crate::Fault;
use crate::explanation::scope::{Scope, is_name, is_own_name, text_at};
use crate::explanation::tables::{Kind, kind_of, kind_of_pick, may_miss};
use crate::explanation::why::{Limit, Wrong};
use crate::limits::MAX_FORMAT;
use serde_json::Value;

/// A member that is wrong, and what is wrong with it. Without a name, it says what is wrong with the whole value.
pub(crate) type Flaw<'a> = (Option<&'a str>, Wrong);

/// The first flaw of this kind in an object that must have these members and no others.
pub(crate) fn flaw_in<'a>(
    fault: Fault,
    value: &'a Value,
    names: &'static [&'static str],
    scope: &Scope<'_>,
) -> Option<Flaw<'a>> {
    let unknown = match fault {
        Fault::Field => unknown_in(value, names),
        _ => None,
    };
    match unknown {
        Some(flaw) => Some(flaw),
        None => known_in(fault, value, names, scope),
    }
}

/// The flaw if the value is no object, or has a member that is none of these.
fn unknown_in<'a>(value: &'a Value, names: &[&str]) -> Option<Flaw<'a>> {
    let Some(members) = value.as_object() else {
        return Some((None, Wrong::NoObject));
    };
    for name in members.keys() {
        if !is_among(names, name.as_str()) {
            return Some(unknown(value, names, name.as_str()));
        }
    }
    None
}

/// The flaw of an unknown member. Its name is given only if it has the form of one, since it may be any text.
fn unknown<'a>(value: &Value, names: &[&str], name: &'a str) -> Flaw<'a> {
    if name == "after" && is_among(names, "pick") && is_receive(value) {
        (Some(name), Wrong::Later(3))
    } else if is_name(name) {
        (Some(name), Wrong::Unknown)
    } else {
        (None, Wrong::HasUnknown)
    }
}

fn is_receive(value: &Value) -> bool {
    match text_at(value, "op") {
        Some(operation) => operation == "receive",
        None => false,
    }
}

fn is_among(names: &[&str], text: &str) -> bool {
    names.iter().any(|name| *name == text)
}

/// The first flaw of these members.
fn known_in(
    fault: Fault,
    value: &Value,
    names: &'static [&'static str],
    scope: &Scope<'_>,
) -> Option<Flaw<'static>> {
    let ends_monitor = is_among(names, "flush");
    for name in names {
        let flaw = match value.get(*name) {
            Some(held) => flaw_of(fault, *name, ends_monitor, held, scope),
            None => flaw_without(fault, *name),
        };
        if flaw.is_some() {
            return flaw;
        }
    }
    None
}

/// The flaw of a member that is missing.
fn flaw_without(fault: Fault, name: &'static str) -> Option<Flaw<'static>> {
    match fault {
        Fault::Field if !may_miss(name) => Some((Some(name), Wrong::Missing)),
        _ => None,
    }
}

/// The flaw of a member that is there.
fn flaw_of(
    fault: Fault,
    name: &'static str,
    ends_monitor: bool,
    held: &Value,
    scope: &Scope<'_>,
) -> Option<Flaw<'static>> {
    match kind_of(name, ends_monitor, scope.last_desk) {
        Kind::Pick => flaw_of_pick(fault, held, scope),
        kind => flaw_with(name, wrong_with(fault, kind, held, scope)),
    }
}

fn flaw_with(name: &'static str, wrong: Option<Wrong>) -> Option<Flaw<'static>> {
    match wrong {
        Some(wrong) => Some((Some(name), wrong)),
        None => None,
    }
}

/// The flaw of a pick: of its one member, or of the whole if it has another form.
fn flaw_of_pick(fault: Fault, pick: &Value, scope: &Scope<'_>) -> Option<Flaw<'static>> {
    match picked_by(pick, scope.format) {
        Some((name, kind, held)) => flaw_with(name, wrong_with(fault, kind, held, scope)),
        None if picked_by(pick, MAX_FORMAT).is_some() => Some((Some("pick"), Wrong::Later(2))),
        None => Some((Some("pick"), Wrong::NoPick)),
    }
}

/// The one member of a pick: its full name, what it must hold, and what it holds.
fn picked_by(pick: &Value, format: u64) -> Option<(&'static str, Kind, &Value)> {
    let members = pick.as_object()?;
    if members.len() != 1 {
        return None;
    }
    let (name, held) = members.iter().next()?;
    let (name, kind) = kind_of_pick(name.as_str(), format)?;
    Some((name, kind, held))
}

/// What is wrong with the value of a member.
fn wrong_with(fault: Fault, kind: Kind, held: &Value, scope: &Scope<'_>) -> Option<Wrong> {
    match fault {
        Fault::Field => wrong_type(kind, held),
        Fault::Bounds => wrong_range(kind, held),
        Fault::Name => wrong_name(kind, held, scope),
        Fault::Syntax => None,
    }
}

/// What is wrong with its type, or with its form if it makes a name. A reason is the last member of its operation, so the
/// flaw is its own if no member before has it.
fn wrong_type(kind: Kind, held: &Value) -> Option<Wrong> {
    match kind {
        Kind::Whole { least: _, most: _ } | Kind::Signed => {
            unless(held.is_u64() || held.is_i64(), Wrong::NoWhole)
        }
        Kind::Flag => unless(held.is_boolean(), Wrong::NoFlag),
        Kind::List => unless(held.is_array(), Wrong::NoList),
        Kind::Text | Kind::Process | Kind::Tag => unless(held.is_string(), Wrong::NoText),
        Kind::New => wrong_form(held),
        Kind::Reason => Some(Wrong::NoReason),
        Kind::Pick => Some(Wrong::NoPick),
    }
}

fn unless(fine: bool, wrong: Wrong) -> Option<Wrong> {
    if fine { None } else { Some(wrong) }
}

/// What is wrong with the form of a new name or tag. A tag can be `self`, but that is no fault of this kind.
fn wrong_form(held: &Value) -> Option<Wrong> {
    match held.as_str() {
        Some(text) => unless(is_own_name(text), Wrong::NoName),
        None => Some(Wrong::NoText),
    }
}

/// What is wrong with its range.
fn wrong_range(kind: Kind, held: &Value) -> Option<Wrong> {
    match kind {
        Kind::Whole { least, most } => match held.as_u64() {
            Some(number) => unless(
                least <= number && number <= most,
                Wrong::OutOfRange { least, most },
            ),
            None => Some(Wrong::OutOfRange { least, most }),
        },
        Kind::Signed => unless(held.is_i64(), Wrong::Over(Limit::Signed)),
        Kind::Reason => unless(has_low_number(held), Wrong::Over(Limit::Reasons)),
        _ => None,
    }
}

/// Whether the number of a reason has 32 bits, if it has one.
fn has_low_number(reason: &Value) -> bool {
    match reason.as_str().and_then(|text| text.strip_prefix("other:")) {
        Some(digits) => digits.parse::<u32>().is_ok(),
        None => true,
    }
}

/// What is wrong with a name or a tag in its scope.
fn wrong_name(kind: Kind, held: &Value, scope: &Scope<'_>) -> Option<Wrong> {
    match kind {
        Kind::Process => match held.as_str() {
            Some(name) => unless(scope.has_process(name), Wrong::OutOfScope),
            None => Some(Wrong::NoText),
        },
        Kind::New => Some(Wrong::Taken),
        Kind::Tag => Some(Wrong::OutOfScope),
        _ => None,
    }
}
