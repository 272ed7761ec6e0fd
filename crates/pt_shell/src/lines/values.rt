//! The value of a word.

ghost use Rattle.std.specs.Prelude.{◌≡◌};
ghost use Rattle.pt_shell.specs.Values as spec;
ghost use Rattle.pt_shell.specs.Words.{told_word};

use crate::lines::mistake::{Mistake, Why};
use crate::lines::names::{Names, Value};
use crate::lines::numbers::{i64_in, u8_in, u32_in, u64_in};
use crate::lines::word::Word;
use pt_signal::{Pid, Reason, Ref};
use pt_texts::{parse_pid, parse_reason, parse_ref};

/// A pid, by its text or by a name.
pub(crate) fn pid_of(names: &Names, word: Word<'_>) -> Result<Pid, Mistake>
    ensures { result ≡ spec.pid_read names.now (told_word word.entry) }
{
    match parse_pid(word.text) {
        Ok(pid) => Ok(pid),
        Err(_) => match names.value(word.text) {
            Some(Value::Pid(pid)) => Ok(pid),
            _ => Err(Mistake::at(word.column, Why::NoPid)),
        },
    }
}

/// A reference, by its text or by a name.
pub(crate) fn ref_of(names: &Names, word: Word<'_>) -> Result<Ref, Mistake>
    ensures { result ≡ spec.ref_of names.now (told_word word.entry) }
{
    match parse_ref(word.text) {
        Ok(made) => Ok(made),
        Err(_) => match names.value(word.text) {
            Some(Value::Ref(made)) => Ok(made),
            _ => Err(Mistake::at(word.column, Why::NoRef)),
        },
    }
}

pub(crate) fn reason_of(word: Word<'_>) -> Result<Reason, Mistake>
    ensures { result ≡ spec.reason_read (told_word word.entry) }
{
    match parse_reason(word.text) {
        Ok(reason) => Ok(reason),
        Err(_) => Err(Mistake::at(word.column, Why::NoReason)),
    }
}

pub(crate) fn truth_of(word: Word<'_>) -> Result<bool, Mistake>
    ensures { result ≡ spec.truth_of (told_word word.entry) }
{
    if word.text == b"true".as_slice() {
        return Ok(true);
    }
    if word.text == b"false".as_slice() {
        return Ok(false);
    }
    Err(Mistake::at(word.column, Why::NoTruth))
}

pub(crate) fn u8_of(word: Word<'_>) -> Result<u8, Mistake>
    ensures { result ≡ spec.u8_of (told_word word.entry) }
{
    match u8_in(word.text) {
        Some(number) => Ok(number),
        None => Err(Mistake::at(word.column, Why::NoNumber)),
    }
}

pub(crate) fn u32_of(word: Word<'_>) -> Result<u32, Mistake>
    ensures { result ≡ spec.u32_of (told_word word.entry) }
{
    match u32_in(word.text) {
        Some(number) => Ok(number),
        None => Err(Mistake::at(word.column, Why::NoNumber)),
    }
}

pub(crate) fn u64_of(word: Word<'_>) -> Result<u64, Mistake>
    ensures { result ≡ spec.u64_of (told_word word.entry) }
{
    match u64_in(word.text) {
        Some(number) => Ok(number),
        None => Err(Mistake::at(word.column, Why::NoNumber)),
    }
}

pub(crate) fn i64_of(word: Word<'_>) -> Result<i64, Mistake>
    ensures { result ≡ spec.i64_of (told_word word.entry) }
{
    match i64_in(word.text) {
        Some(number) => Ok(number),
        None => Err(Mistake::at(word.column, Why::NoNumber)),
    }
}
