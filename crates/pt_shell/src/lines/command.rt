//! What a line asks for.

ghost use Rattle.std.specs.Prelude.{◌≡◌, map};
ghost use Rattle.pt_shell.specs.Calls.{verb_of};
ghost use Rattle.pt_shell.specs.Commands as spec;
ghost use Rattle.pt_shell.specs.Words.{told_word};

use crate::lines::arguments::nothing;
use crate::lines::call::Call;
use crate::lines::calls::call_of;
use crate::lines::mistake::{Mistake, Why};
use crate::lines::names::{Names, is_name};
use crate::lines::verb::verb_of;
use crate::lines::word::Word;
use pt_signal::Config;

/// What a line asks for.
#[derive(Clone, Copy)]
pub enum Command<'a> {
    /// The line is empty or a comment.
    Nothing,
    Help,
    /// The next line of the last answer must be these words, with one space between each two.
    Expect(&'a [Word<'a>]),
    /// A call, with the name that its answer will have, if one is given, and the column of its own name.
    Call(Option<&'a [u8]>, usize, Call),
}

/// What the words of a line ask for, by these names. A missing word is at the column after the line.
pub fn command_of<'a>(
    names: &Names,
    words: &'a [Word<'a>],
    end: usize,
) -> Result<Command<'a>, Mistake>
    ensures { spec.LineAsks result (spec.asked Config.DEFAULT names.now (map told_word words.now) end) }
{
    let [first, rest @ ..] = words else {
        return Ok(Command::Nothing);
    };
    if is_comment(first.text) {
        return Ok(Command::Nothing);
    }
    if first.text == b"expect".as_slice() {
        return expectation(rest, end);
    }
    if first.text == b"help".as_slice() {
        nothing(rest, end)?;
        return Ok(Command::Help);
    }
    call_asked(names, *first, rest, end)
}

fn is_comment(word: &[u8]) -> bool
    ensures { result ≡ spec.is_comment word.now }
{
    match word {
        [first, ..] => *first == b'#',
        [] => false,
    }
}

fn expectation<'a>(words: &'a [Word<'a>], end: usize) -> Result<Command<'a>, Mistake>
    ensures { spec.LineAsks result (spec.expectation (map told_word words.now) end) }
{
    match words {
        [] => Err(Mistake::at(end, Why::Missing)),
        _ => Ok(Command::Expect(words)),
    }
}

/// A call, by the word after the first.
fn call_asked<'a>(
    names: &Names,
    word: Word<'a>,
    words: &'a [Word<'a>],
    end: usize,
) -> Result<Command<'a>, Mistake>
    ensures { spec.LineAsks result (spec.call_asked Config.DEFAULT names.now (told_word word.entry) (map told_word words.now) end) }
{
    match words {
        [sign, rest @ ..] if sign.text == b"=".as_slice() => named(names, word, rest, end),
        _ => bare(names, word, words, end),
    }
}

/// A call whose answer has no name.
fn bare<'a>(
    names: &Names,
    word: Word<'a>,
    words: &'a [Word<'a>],
    end: usize,
) -> Result<Command<'a>, Mistake>
    ensures { spec.LineAsks result (spec.unnamed_call Config.DEFAULT names.now (told_word word.entry) (map told_word words.now) end) }
{
    let call = call_in(names, word, words, end)?;
    Ok(Command::Call(None, word.column, call))
}

/// A call whose answer has a name.
fn named<'a>(
    names: &Names,
    name: Word<'a>,
    words: &'a [Word<'a>],
    end: usize,
) -> Result<Command<'a>, Mistake>
    ensures { spec.LineAsks result (spec.named_row Config.DEFAULT names.now (told_word name.entry) (map told_word words.now) end) }
{
    if !is_name(name.text) || is_taken(name.text) {
        return Err(Mistake::at(name.column, Why::NoName));
    }
    called(names, name.text, words, end)
}

/// A call whose answer has this name.
fn called<'a>(
    names: &Names,
    name: &'a [u8],
    words: &'a [Word<'a>],
    end: usize,
) -> Result<Command<'a>, Mistake>
    ensures { spec.LineAsks result (spec.called Config.DEFAULT names.now name.now (map told_word words.now) end) }
{
    match words {
        [] => Err(Mistake::at(end, Why::Missing)),
        [word, rest @ ..] => {
            let call = call_in(names, *word, rest, end)?;
            Ok(Command::Call(Some(name), word.column, call))
        }
    }
}

/// Whether a word is the name of a call, or has another meaning at the beginning of a line.
fn is_taken(word: &[u8]) -> bool
    ensures { result ≡ spec.is_taken word.now }
{
    word == b"expect".as_slice() || word == b"help".as_slice() || verb_of(word).is_some()
}

/// The call of this name with the words after it.
fn call_in(names: &Names, word: Word<'_>, words: &[Word<'_>], end: usize) -> Result<Call, Mistake>
    ensures { result ≡ spec.call_in Config.DEFAULT names.now (told_word word.entry) (map told_word words.now) end }
{
    match verb_of(word.text) {
        Some(verb) => call_of(names, verb, words, end),
        None => Err(Mistake::at(word.column, Why::NoCall)),
    }
}
