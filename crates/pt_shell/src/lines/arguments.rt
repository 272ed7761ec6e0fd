//! The words after the name of a call, as values. A function takes them, and the column after the line.

ghost use Rattle.std.specs.Prelude.{◌≡◌, map, None, Ok};
ghost use Rattle.pt_shell.specs.Arguments as spec;
ghost use Rattle.pt_shell.specs.Values.{pid_read, ref_of, reason_read, truth_of, u8_of, u32_of, u64_of};
ghost use Rattle.pt_shell.specs.Words.{told_word};

use crate::lines::mistake::{Mistake, Why};
use crate::lines::names::Names;
use crate::lines::values::{i64_of, pid_of, reason_of, ref_of, truth_of, u8_of, u32_of, u64_of};
use crate::lines::word::Word;
use pt_signal::{Body, Pick, Pid, Reason, Ref};

/// The mistake that there are too many words, or too few: so many are wanted.
fn miscount<T>(wanted: usize, words: &[Word<'_>], end: usize) -> Result<T, Mistake>
    ensures { result ≡ spec.miscount wanted (map told_word words.now) end }
{
    match words.get(wanted) {
        Some(word) => Err(Mistake::at(word.column, Why::TooMany)),
        None => Err(Mistake::at(end, Why::Missing)),
    }
}

/// Checks that there is no word.
pub(crate) fn nothing(words: &[Word<'_>], end: usize) -> Result<(), Mistake>
    ensures { result ≡ spec.of_none (map told_word words.now) end (Ok tt) }
{
    match words {
        [] => Ok(()),
        _ => miscount(0, words, end),
    }
}

pub(crate) fn desk(words: &[Word<'_>], end: usize) -> Result<u8, Mistake>
    ensures { result ≡ spec.of_one (map told_word words.now) end u8_of }
{
    match words {
        [one] => u8_of(*one),
        _ => miscount(1, words, end),
    }
}

pub(crate) fn number(words: &[Word<'_>], end: usize) -> Result<u32, Mistake>
    ensures { result ≡ spec.of_one (map told_word words.now) end u32_of }
{
    match words {
        [one] => u32_of(*one),
        _ => miscount(1, words, end),
    }
}

pub(crate) fn desk_and_number(words: &[Word<'_>], end: usize) -> Result<(u8, u32), Mistake>
    ensures { result ≡ spec.of_two (map told_word words.now) end u8_of u32_of }
{
    match words {
        [one, two] => Ok((u8_of(*one)?, u32_of(*two)?)),
        _ => miscount(2, words, end),
    }
}

pub(crate) fn desk_and_stamp(words: &[Word<'_>], end: usize) -> Result<(u8, u64), Mistake>
    ensures { result ≡ spec.of_two (map told_word words.now) end u8_of u64_of }
{
    match words {
        [one, two] => Ok((u8_of(*one)?, u64_of(*two)?)),
        _ => miscount(2, words, end),
    }
}

pub(crate) fn desk_and_pid(
    names: &Names,
    words: &[Word<'_>],
    end: usize,
) -> Result<(u8, Pid), Mistake>
    ensures { result ≡ spec.of_two (map told_word words.now) end u8_of (pid_read names.now) }
{
    match words {
        [one, two] => Ok((u8_of(*one)?, pid_of(names, *two)?)),
        _ => miscount(2, words, end),
    }
}

pub(crate) fn one_pid(names: &Names, words: &[Word<'_>], end: usize) -> Result<Pid, Mistake>
    ensures { result ≡ spec.of_one (map told_word words.now) end (pid_read names.now) }
{
    match words {
        [one] => pid_of(names, *one),
        _ => miscount(1, words, end),
    }
}

pub(crate) fn two_pids(names: &Names, words: &[Word<'_>], end: usize) -> Result<(Pid, Pid), Mistake>
    ensures { result ≡ spec.of_two (map told_word words.now) end (pid_read names.now) (pid_read names.now) }
{
    match words {
        [one, two] => Ok((pid_of(names, *one)?, pid_of(names, *two)?)),
        _ => miscount(2, words, end),
    }
}

pub(crate) fn pid_and_ref(
    names: &Names,
    words: &[Word<'_>],
    end: usize,
) -> Result<(Pid, Ref), Mistake>
    ensures { result ≡ spec.of_two (map told_word words.now) end (pid_read names.now) (ref_of names.now) }
{
    match words {
        [one, two] => Ok((pid_of(names, *one)?, ref_of(names, *two)?)),
        _ => miscount(2, words, end),
    }
}

pub(crate) fn pid_and_truth(
    names: &Names,
    words: &[Word<'_>],
    end: usize,
) -> Result<(Pid, bool), Mistake>
    ensures { result ≡ spec.of_two (map told_word words.now) end (pid_read names.now) truth_of }
{
    match words {
        [one, two] => Ok((pid_of(names, *one)?, truth_of(*two)?)),
        _ => miscount(2, words, end),
    }
}

pub(crate) fn pid_and_reason(
    names: &Names,
    words: &[Word<'_>],
    end: usize,
) -> Result<(Pid, Reason), Mistake>
    ensures { result ≡ spec.of_two (map told_word words.now) end (pid_read names.now) reason_read }
{
    match words {
        [one, two] => Ok((pid_of(names, *one)?, reason_of(*two)?)),
        _ => miscount(2, words, end),
    }
}

pub(crate) fn pids_and_reason(
    names: &Names,
    words: &[Word<'_>],
    end: usize,
) -> Result<(Pid, Pid, Reason), Mistake>
    ensures { result ≡ spec.of_three (map told_word words.now) end (pid_read names.now) (pid_read names.now) reason_read }
{
    match words {
        [one, two, three] => Ok((
            pid_of(names, *one)?,
            pid_of(names, *two)?,
            reason_of(*three)?,
        )),
        _ => miscount(3, words, end),
    }
}

pub(crate) fn watch(
    names: &Names,
    words: &[Word<'_>],
    end: usize,
) -> Result<(Pid, Ref, bool), Mistake>
    ensures { result ≡ spec.of_three (map told_word words.now) end (pid_read names.now) (ref_of names.now) truth_of }
{
    match words {
        [one, two, three] => Ok((
            pid_of(names, *one)?,
            ref_of(names, *two)?,
            truth_of(*three)?,
        )),
        _ => miscount(3, words, end),
    }
}

fn body_of(kind: Word<'_>, num: Word<'_>, who: Option<Pid>) -> Result<Body, Mistake>
    ensures { result ≡ spec.body_read (told_word kind.entry) (told_word num.entry) who }
{
    let kind = u32_of(kind)?;
    let num = i64_of(num)?;
    Ok(Body { kind, num, who })
}

/// The sender, the receiver and the message.
pub(crate) fn message(
    names: &Names,
    words: &[Word<'_>],
    end: usize,
) -> Result<(Pid, Pid, Body), Mistake>
    ensures { result ≡ spec.message_read names.now (map told_word words.now) end }
{
    match words {
        [from, to, kind, num] => {
            let from = pid_of(names, *from)?;
            let to = pid_of(names, *to)?;
            Ok((from, to, body_of(*kind, *num, None)?))
        }
        [from, to, kind, num, who, pid] => {
            let from = pid_of(names, *from)?;
            let to = pid_of(names, *to)?;
            if who.text != b"who".as_slice() {
                return Err(Mistake::at(who.column, Why::TooMany));
            }
            let who = pid_of(names, *pid)?;
            Ok((from, to, body_of(*kind, *num, Some(who))?))
        }
        _ => miscount(6, words, end),
    }
}

/// A pick, by its first word and the one after it.
fn pick_of(names: &Names, word: Word<'_>, what: Word<'_>) -> Result<Pick, Mistake>
    ensures { result ≡ spec.pick_read names.now (told_word word.entry) (told_word what.entry) }
{
    if word.text == b"kind".as_slice() {
        Ok(Pick::Kind(u32_of(what)?))
    } else if word.text == b"from".as_slice() {
        Ok(Pick::From(pid_of(names, what)?))
    } else if word.text == b"exit-of".as_slice() {
        Ok(Pick::ExitOf(pid_of(names, what)?))
    } else if word.text == b"down-of".as_slice() {
        Ok(Pick::DownOf(ref_of(names, what)?))
    } else if word.text == b"alive-of".as_slice() {
        Ok(Pick::AliveOf(ref_of(names, what)?))
    } else {
        Err(Mistake::at(word.column, Why::NoPick))
    }
}

/// A process and what it is to take.
pub(crate) fn pid_and_pick(
    names: &Names,
    words: &[Word<'_>],
    end: usize,
) -> Result<(Pid, Pick), Mistake>
    ensures { result ≡ spec.pid_and_pick names.now (map told_word words.now) end }
{
    match words {
        [pid] => Ok((pid_of(names, *pid)?, Pick::Any)),
        [pid, word] => {
            let pid = pid_of(names, *pid)?;
            if word.text == b"any".as_slice() {
                Ok((pid, Pick::Any))
            } else {
                Err(Mistake::at(end, Why::Missing))
            }
        }
        [pid, word, what] => Ok((pid_of(names, *pid)?, pick_of(names, *word, *what)?)),
        _ => miscount(3, words, end),
    }
}
