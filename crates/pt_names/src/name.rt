//! The name of a process.

ghost use Rattle.std.specs.Prelude.{◌≡◌, ◌<◌, ◌≤◌, length, if◌then◌else◌, Some, None, true};
ghost use Rattle.std.specs.List.{list_all};
ghost use Rattle.pt_names.specs.Letters.{TellsTextsApart, has_first_letter, is_first_letter, is_name_digit};
ghost use Rattle.pt_names.specs.Letters.{is_name_letter, is_name_text, padded};

use std::fmt;

/// The most letters of a name.
pub const MAX_LETTERS: usize = 32;

/// The name of a process: 1 to 32 ASCII letters, digits and `_`, beginning with a letter, as names in scripts are.
///
/// It is a plain value: two names are equal exactly if their texts are.
#[derive(Clone, Copy, Debug, PartialEq, Eq, Hash)]
pub struct Name {
    /// Its letters, and zeros after them.
    letters: [u8; 32],
}

impl Name {
    /// The name with this text, or `None` if the text has not the form of a name.
    pub fn new(text: &str) -> Option<Name>
        ensures { result ≡ (if is_name_text text.now then Some (record { letters = padded text.now }) else None) }
    {
        Name::from_bytes(text.as_bytes())
    }

    /// The name with these bytes as its text, or `None` if they have not the form of a name.
    pub fn from_bytes(bytes: &[u8]) -> Option<Name>
        ensures { result ≡ (if is_name_text bytes.now then Some (record { letters = padded bytes.now }) else None) }
    {
        if is_name(bytes) {
            Some(Name {
                letters: padded(bytes),
            })
        } else {
            None
        }
    }

    /// Its letters, and zeros after them.
    pub fn letters(&self) -> [u8; MAX_LETTERS]
        ensures { result ≡ self.now.letters }
    {
        self.letters
    }
}

/// The bytes, and zeros after them.
fn padded(bytes: &[u8]) -> [u8; MAX_LETTERS]
    requires { length bytes.now ≤ 32 }
    ensures { result ≡ padded bytes.now }
{
    let mut letters = [0; MAX_LETTERS];
    letters[..bytes.len()].copy_from_slice(bytes);
    letters
}

impl fmt::Display for Name {
    fn fmt<W: fmt::Write>(&self, f: &mut fmt::Formatter<W>) -> fmt::Result {
        for letter in self.letters {
            if letter != 0 {
                let letter = char::from(letter);
                write!(f, "{letter}")?;
            }
        }
        Ok(())
    }
}

fn is_name(bytes: &[u8]) -> bool
    ensures form { result ≡ is_name_text bytes.now }
    ensures short { result ≡ true → length bytes.now ≤ 32 }
{
    if 0 < bytes.len() && bytes.len() <= MAX_LETTERS {
        begins_well(bytes)
    } else {
        false
    }
}

fn begins_well(bytes: &[u8]) -> bool
    requires { 0 < length bytes.now }
    ensures { result ≡ has_first_letter bytes.now }
{
    is_letter(bytes[0]) && are_name_letters(bytes)
}

fn are_name_letters(bytes: &[u8]) -> bool
    ensures { result ≡ list_all is_name_letter bytes.now }
{
    bytes.iter().all(|b| is_name_letter(*b))
}

fn is_letter(byte: u8) -> bool
    ensures { result ≡ is_first_letter byte }
{
    (b'A' <= byte && byte <= b'Z') || (b'a' <= byte && byte <= b'z')
}

fn is_digit(byte: u8) -> bool
    ensures { result ≡ is_name_digit byte }
{
    b'0' <= byte && byte <= b'9'
}

fn is_name_letter(byte: u8) -> bool
    ensures { result ≡ is_name_letter byte }
{
    is_letter(byte) || is_digit(byte) || byte == b'_'
}

/// Two different texts never give the same name. The function does nothing: the law is its contract.
pub fn names_tell_texts_apart()
    ensures { TellsTextsApart }
{}
