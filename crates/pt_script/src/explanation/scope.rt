//! The scope around the place of a fault.

ghost use Rattle.std.specs.Prelude.{◌≡◌, codes, map, option_map};
ghost use Rattle.serde_json.specs.View.{view};
ghost use Rattle.pt_script.specs.Members.{list};
ghost use Rattle.pt_script.specs.Operations as operations;
ghost use Rattle.pt_script.specs.Scripts.{loose};
ghost use Rattle.pt_script.specs.Explaining.{list_in, text_in};

use serde_json::Value;

/// The scope around an operation, or around the head of a process.
#[derive(Clone, Copy)]
pub(crate) struct Scope<'a> {
    /// The script's format.
    pub(crate) format: u64,
    /// The number of its last desk.
    pub(crate) last_desk: u64,
    /// The processes that it begins with.
    pub(crate) tops: &'a [Value],
    /// The number of spawns around the operations of the process.
    pub(crate) depth: u32,
    /// The operations of the process before the one in question.
    pub(crate) before: &'a [Value],
}

impl<'a> Scope<'a> {
    /// The scope around the processes that a script begins with.
    pub(crate) fn of(script: &'a Value) -> Scope<'a>
        ensures { map view result.tops.now ≡ list_in (codes "processes") (view script.now) }
    {
        Scope {
            format: whole_at(script, "format"),
            last_desk: whole_at(script, "desks").saturating_sub(1),
            tops: list_at(script, "processes"),
            depth: 0,
            before: &[],
        }
    }

    /// The same after these operations of a process, with so many spawns around them.
    pub(crate) fn behind(&self, depth: u32, before: &'a [Value]) -> Scope<'a> {
        Scope {
            depth,
            before,
            ..*self
        }
    }

    /// Whether a text is the name of a process here.
    pub(crate) fn has_process(&self, name: &str) -> bool {
        match name {
            "self" => true,
            "parent" => 0 < self.depth,
            _ => is_spawned(self.before, name) || is_top(self.tops, name),
        }
    }
}

/// The text that a member is.
pub(crate) fn text_at<'a>(value: &'a Value, member: &str) -> Option<&'a str>
    ensures { option_map (λ t. t.now) result ≡ text_in member.now (view value.now) }
{
    value.get(member).and_then(Value::as_str)
}

/// The word that a member is, if it has the form of a name. For a pick it is the name of its only member.
pub(crate) fn word_at<'a>(value: &'a Value, member: &str) -> Option<&'a str> {
    let text = match member {
        "pick" => only_member(value.get(member)?),
        "pick.from" => text_at(value.get("pick")?, "from"),
        "pick.exit" => text_at(value.get("pick")?, "exit"),
        "pick.down" => text_at(value.get("pick")?, "down"),
        "pick.alive" => text_at(value.get("pick")?, "alive"),
        _ => text_at(value, member),
    };
    match text {
        Some(word) if is_name(word) => Some(word),
        _ => None,
    }
}

/// The name of the only member of an object.
fn only_member(value: &Value) -> Option<&str> {
    let mut names = value.as_object()?.keys();
    match (names.next(), names.next()) {
        (Some(name), None) => Some(name.as_str()),
        _ => None,
    }
}

/// The whole number that a member is, and 0 if it is none.
fn whole_at(value: &Value, member: &str) -> u64 {
    value.get(member).and_then(Value::as_u64).unwrap_or(0)
}

/// The list that a member is, and an empty one if it is none.
pub(crate) fn list_at<'a>(value: &'a Value, member: &str) -> &'a [Value]
    ensures { map view result.now ≡ list_in member.now (view value.now) }
{
    match value.get(member) {
        Some(held) => items_of(held),
        None => &[],
    }
}

fn items_of(value: &Value) -> &[Value]
    ensures { map view result.now ≡ loose (list (view value.now)) }
{
    match value.as_array() {
        Some(items) => items.as_slice(),
        None => &[],
    }
}

/// Whether it is a spawn, with any other members.
pub(crate) fn is_spawn(value: &Value) -> bool
    ensures { result ≡ operations.is_spawn (view value.now) }
{
    match text_at(value, "op") {
        Some(operation) => operation == "spawn",
        None => false,
    }
}

/// Whether it has this name.
fn has_name(value: &Value, name: &str) -> bool {
    match text_at(value, "name") {
        Some(own) => own == name,
        None => false,
    }
}

fn is_spawned(operations: &[Value], name: &str) -> bool {
    operations.iter().any(|operation| is_spawn(operation) && has_name(operation, name))
}

fn is_top(tops: &[Value], name: &str) -> bool {
    tops.iter().any(|top| has_name(top, name))
}

/// Whether a text has the form of a name: 1 to 32 ASCII letters, digits and `_`, beginning with a letter.
pub(crate) fn is_name(text: &str) -> bool {
    match text.as_bytes() {
        [first, ..] => first.is_ascii_alphabetic() && text.len() <= 32 && are_of_words(text),
        [] => false,
    }
}

fn are_of_words(text: &str) -> bool {
    text.as_bytes()
        .iter()
        .all(|byte| byte.is_ascii_alphanumeric() || *byte == b'_')
}

/// Whether a process may have this text as its name.
pub(crate) fn is_own_name(text: &str) -> bool {
    is_name(text) && text != "self" && text != "parent"
}
