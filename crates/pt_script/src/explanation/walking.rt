//! Walks along the text of a script, to the byte at which a value begins.
//!
//! The text is known to be JSON. So a walk needs to know only strings, brackets, commas and colons. A place in the text is
//! the slice from there on.

ghost use Rattle.std.specs.Prelude.{◌≡◌, ◌<◌, ◌≤◌, ◌-◌, ◌^◌, ◌&&◌, drop, length, IfOk, if◌then◌else◌};
ghost use Rattle.pt_script.specs.declared.explanation.walking.Stand.TheVariants.{Plain};
ghost use Rattle.serde_json.specs.Find.{as_str};
ghost use Rattle.serde_json.specs.View.{view};
ghost use Rattle.pt_script.specs.Walks as spec;

use serde_json::Value;
use std::alloc::{AllocError, Global};

/// How far a walk has come: in how many brackets it is, and whether it is in a string, or in one behind a backslash.
#[derive(Clone, Copy)]
pub(crate) enum Stand {
    Plain(usize),
    Quoted(usize),
    Escaped(usize),
}

impl Stand {
    /// One byte further.
    #[tactic(auto, unfolding(crate::specs::Walks::stand_after))]
    fn after(self, byte: u8) -> Stand
        requires { spec.brackets_of self < 2 ^ 63 }
        ensures { result ≡ spec.stand_after self byte }
    {
        match self {
            Stand::Plain(brackets) => after_plain(brackets, byte),
            Stand::Quoted(brackets) if byte == b'"' => Stand::Plain(brackets),
            Stand::Quoted(brackets) if byte == b'\\' => Stand::Escaped(brackets),
            Stand::Quoted(brackets) => Stand::Quoted(brackets),
            Stand::Escaped(brackets) => Stand::Quoted(brackets),
        }
    }

    /// Whether it is in no string and no brackets.
    fn is_bare(self) -> bool
        ensures { result ≡ spec.is_bare self }
    {
        match self {
            Stand::Plain(brackets) => brackets == 0,
            Stand::Quoted(_) | Stand::Escaped(_) => false,
        }
    }

    /// Whether this byte ends a name, or an item that another one follows.
    fn is_between(self, byte: u8) -> bool
        ensures { result ≡ spec.is_bare self && spec.is_separator byte }
    {
        self.is_bare() && (byte == b',' || byte == b':')
    }

    /// Whether this byte ends the whole.
    fn is_end(self, byte: u8) -> bool
        ensures { result ≡ spec.is_bare self && spec.is_closing byte }
    {
        self.is_bare() && (byte == b']' || byte == b'}')
    }
}

fn after_plain(brackets: usize, byte: u8) -> Stand
    requires { brackets < 2 ^ 63 }
    ensures { result ≡ spec.stand_after (Plain brackets) byte }
{
    match byte {
        b'"' => Stand::Quoted(brackets),
        b'[' | b'{' => Stand::Plain(brackets + 1),
        b']' | b'}' => Stand::Plain(brackets.saturating_sub(1)),
        _ => Stand::Plain(brackets),
    }
}

fn is_blank(byte: u8) -> bool
    ensures { result ≡ spec.is_white byte }
{
    byte == b' ' || byte == b'\t' || byte == b'\n' || byte == b'\r'
}

/// The text from its first byte on that is no white space.
pub(crate) fn unblanked(text: &[u8]) -> &[u8]
    ensures { result.now ≡ spec.unblanked text.now }
{
    for (index, byte) in text.iter().enumerate() {
        if !is_blank(*byte) {
            return &text[index..];
        }
    }
    &[]
}

/// The text behind a bracket that opens it.
pub(crate) fn inside(text: &[u8]) -> &[u8]
    ensures { result.now ≡ drop 1 text.now }
{
    if text.is_empty() { text } else { &text[1..] }
}

/// The text behind the next comma or colon of this object or list; an empty one if its end comes first.
pub(crate) fn behind_next(text: &[u8]) -> &[u8]
    ensures value { result.now ≡ spec.behind_next (Plain 0) text.now }
    ensures shorter { length result.now ≤ length text.now - 1 }
{
    let mut stand = Stand::Plain(0);
    for (index, byte) in text.iter().enumerate() {
        if stand.is_between(*byte) {
            return &text[index + 1..];
        }
        if stand.is_end(*byte) {
            return &[];
        }
        stand = stand.after(*byte);
    }
    &[]
}

/// The text from an item of a list on.
#[tactic(auto, using(crate::proofs::WalkFacts::item_passed))]
pub(crate) fn item_in(text: &[u8], index: usize) -> &[u8]
    ensures { result.now ≡ spec.item_place index text.now }
{
    let mut rest = inside(text);
    for _ in 0..index {
        rest = behind_next(rest);
    }
    unblanked(rest)
}

/// Whether it is a text with these letters.
fn is_text(value: &Value, name: &str) -> bool
    ensures { result ≡ spec.is_text name.now (as_str (view value.now)) }
{
    match value.as_str() {
        Some(text) => text == name,
        None => false,
    }
}

/// Whether bytes are a string with these letters, each by itself or escaped.
fn spells(alloc: Global, text: &[u8], name: &str) -> Result<bool, AllocError>
    ensures { IfOk result (λ b. b ≡ spec.spells name.now text.now) }
{
    match Value::from_slice(alloc, text) {
        Ok(value) => Ok(is_text(&value, name)),
        Err(error) => {
            if error.is_memory() {
                Err(AllocError)
            } else {
                Ok(false)
            }
        }
    }
}

/// The text from this value on if the text before it is its name, and otherwise from what was found before.
fn named_or<'a>(
    alloc: Global,
    name: &str,
    member: &[u8],
    value: &'a [u8],
    found: &'a [u8],
) -> Result<&'a [u8], AllocError>
    requires { length value.now < length member.now }
    ensures { IfOk result (λ t. t.now
        ≡ (if spec.spells name.now (spec.text_before member.now value.now) then spec.unblanked value.now else found.now)) }
{
    let before = &member[..member.len() - value.len() - 1];
    if spells(alloc, before, name)? {
        Ok(unblanked(value))
    } else {
        Ok(found)
    }
}

/// The text from the value of a member on, of the last one of this name; if there is none, from the object on.
#[tactic(auto, using(crate::proofs::WalkFacts::member_passed, crate::proofs::WalkFacts::no_members))]
pub(crate) fn value_in<'a>(
    alloc: Global,
    text: &'a [u8],
    name: &str,
) -> Result<&'a [u8], AllocError>
    ensures { IfOk result (λ t. t.now ≡ spec.member_place name.now text.now) }
{
    let mut found = text;
    let mut rest = inside(text);
    for _ in 0..text.len() {
        if rest.is_empty() {
            return Ok(found);
        }
        let value = behind_next(rest);
        found = named_or(alloc, name, rest, value, found)?;
        rest = behind_next(value);
    }
    Ok(found)
}
