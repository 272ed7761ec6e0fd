//! Names for pids and references.

ghost use Rattle.std.specs.Prelude.{◌≡◌, ◌∷◌, ◌++◌, [], OnOk, OnErr, None, map};
ghost use Rattle.std.specs.List.{list_all};
ghost use Rattle.pt_shell.specs.Names as spec;

use pt_signal::{Pid, Ref};
use std::alloc::{AllocError, Global};
use std::marker::Model;

/// The most bytes of a name.
pub const MOST_NAME: usize = 32;

/// What a name can mean.
#[derive(Clone, Copy)]
pub enum Value {
    Pid(Pid),
    Ref(Ref),
}

#[derive(Drop)]
struct Binding {
    name: Vec<u8>,
    value: Value,
}

/// The names that were given, each with the value to which it was given last.
///
/// Contracts see them in the order in which they were given, each with its value.
#[derive(Drop)]
pub struct Names {
    alloc: Global,
    bindings: Vec<Binding>,
}

impl Model for Names {
    ghost use Rattle.std.specs.Prelude.{map};
    ghost use Rattle.pt_shell.specs.Names.{Named};

    ghost Value = { Named };

    ghost view = { λ n. map (λ b. (b.name.items, b.value)) n.bindings.items };
}

impl Names {
    /// No names.
    pub fn new(alloc: Global) -> Names
        ensures { result ≡ [] }
    {
        Names {
            alloc,
            bindings: Vec::new(alloc),
        }
    }

    /// Gives a name to a value. Fails only if there is no memory.
    pub fn give(&mut self, name: &[u8], value: Value) -> Result<(), AllocError>
        ensures given { OnOk result (self.new ≡ self.old ++ (name.now, value) ∷ []) }
        ensures kept { OnErr result (self.new ≡ self.old) }
    {
        let name = name.to_vec(self.alloc)?;
        self.bindings.push(Binding { name, value })?;
        Ok(())
    }

    /// The value of the name.
    pub fn value(&self, name: &[u8]) -> Option<Value>
        ensures { result ≡ spec.value_of self.now name.now }
    {
        value_in(self.bindings.as_slice(), name)
    }
}

/// The value of the name: the last of its bindings counts.
fn value_in(bindings: &[Binding], name: &[u8]) -> Option<Value>
    ensures { result ≡ spec.value_after None (map (λ b. (b.name.items, b.value)) bindings.now) name.now }
{
    let mut found = None;
    for place in 0..bindings.len() {
        if bindings[place].name.as_slice() == name {
            found = Some(bindings[place].value);
        }
    }
    found
}

fn is_letter(byte: u8) -> bool
    ensures { result ≡ spec.is_letter byte }
{
    (b'a' <= byte && byte <= b'z') || (b'A' <= byte && byte <= b'Z')
}

fn is_of_name(byte: u8) -> bool
    ensures { result ≡ spec.is_of_name byte }
{
    is_letter(byte) || (b'0' <= byte && byte <= b'9') || byte == b'_'
}

fn begins_with_letter(word: &[u8]) -> bool
    ensures { result ≡ spec.begins_with_letter word.now }
{
    match word {
        [first, ..] => is_letter(*first),
        [] => false,
    }
}

/// Whether the word has the form of a name: 1 to 32 letters, digits and `_`, the first of them a letter.
pub(crate) fn is_name(word: &[u8]) -> bool
    ensures { result ≡ spec.is_name word.now }
{
    word.len() <= MOST_NAME && begins_with_letter(word) && are_of_name(word)
}

fn are_of_name(word: &[u8]) -> bool
    ensures { result ≡ list_all spec.is_of_name word.now }
{
    for place in 0..word.len() {
        if !is_of_name(word[place]) {
            return false;
        }
    }
    true
}
