//! Names of processes and tags of monitors, and what each means.

ghost use Rattle.std.specs.Prelude.{◌≡◌, None, Some, OnOk, ◌<◌, length};
ghost use Rattle.std.specs.Str.{bytes_eq};
ghost use Rattle.std.specs.List.{list_all};
ghost use Rattle.std.specs.Map.{update};
ghost use Rattle.pt_script.specs.Scopes as spec;

use crate::limits::MAX_NAME;
use std::alloc::{AllocError, Global};
use std::collections::HashMap;

/// What each name in a scope means.
#[derive(Drop)]
pub(crate) struct Names<'a> {
    numbers: HashMap<&'a str, u32>,
}

impl<'a> Names<'a> {
    /// No names.
    pub(crate) fn new(alloc: Global) -> Names<'a>
        ensures { spec.naming result ≡ λ _. None }
    {
        Names {
            numbers: HashMap::new(alloc),
        }
    }

    /// The number that the name means.
    pub(crate) fn find(&self, name: &str) -> Option<u32>
        ensures { result ≡ spec.naming self.now name.now }
    {
        self.numbers.get(name).copied()
    }

    /// Gives the name this number from now on.
    pub(crate) fn add(&mut self, name: &'a str, number: u32) -> Result<(), AllocError>
        ensures { OnOk result
            (spec.naming self.new ≡ λ q. update bytes_eq (spec.naming self.old) name.now (Some number) q) }
    {
        self.numbers.insert(name, number)?;
        Ok(())
    }
}

/// Whether the text has the form of a name: 1 to 32 ASCII letters, digits and `_`, beginning with a letter.
pub(crate) fn is_name(text: &str) -> bool
    ensures { result ≡ spec.is_script_name text.now }
{
    let bytes = text.as_bytes();
    if 0 < bytes.len() && bytes.len() <= MAX_NAME {
        begins_well(bytes)
    } else {
        false
    }
}

#[tactic(auto, unfolding(crate::specs::Scopes::begins_well))]
/// Whether the first byte is a letter, and all are letters, digits or `_`.
fn begins_well(bytes: &[u8]) -> bool
    requires { 0 < length bytes.now }
    ensures { result ≡ spec.begins_well bytes.now }
{
    is_letter(bytes[0]) && are_name_bytes(bytes)
}

fn are_name_bytes(bytes: &[u8]) -> bool
    ensures { result ≡ list_all spec.is_name_byte bytes.now }
{
    bytes.iter().all(|b| is_name_byte(*b))
}

#[tactic(auto, unfolding(crate::specs::Scopes::is_script_letter))]
fn is_letter(byte: u8) -> bool
    ensures { result ≡ spec.is_script_letter byte }
{
    (b'A' <= byte && byte <= b'Z') || (b'a' <= byte && byte <= b'z')
}

#[tactic(auto, unfolding(crate::specs::Scopes::is_script_digit))]
pub(crate) fn is_digit(byte: u8) -> bool
    ensures { result ≡ spec.is_script_digit byte }
{
    b'0' <= byte && byte <= b'9'
}

#[tactic(auto, unfolding(crate::specs::Scopes::is_name_byte))]
fn is_name_byte(byte: u8) -> bool
    ensures { result ≡ spec.is_name_byte byte }
{
    is_letter(byte) || is_digit(byte) || byte == b'_'
}

/// Whether a process may have this text as its name.
pub(crate) fn is_own_name(text: &str) -> bool
    ensures { result ≡ spec.is_own_name text.now }
{
    is_name(text) && text != "self" && text != "parent"
}
