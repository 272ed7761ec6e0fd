//! Why a script is refused, and the word that it means, where it has one that does not exist.

use pt_script::{Fault, Place, Script, ScriptError, explain};
use std::alloc::{AllocError, Global};
use std::str::from_utf8;
use strsim::osa_distance;

/// The most words of a list that are compared.
const MOST_WORDS: usize = 64;

/// The most words of a script that are put in the place of one.
const MOST_NEAR: usize = 16;

/// A word with its distance from the one at fault.
type Near<'a> = (usize, &'a str);

/// Explains in one line why bytes are no script, as [`explain`] does. If a word at fault is near to one that would do there,
/// the line ends with that one: `; did you mean send?`
///
/// For an operation, a reason or a pick that is the nearest word of those that there are. For a name or a tag that names
/// nothing it is the nearest word of the script with which it names something.
pub fn explained(
    alloc: Global,
    script: &[u8],
    fault: Fault,
    place: Place,
) -> Result<String, AllocError> {
    let explanation = explain(alloc, script, fault, place)?;
    if let Some(word) = listed_word(alloc, explanation.as_str()) {
        return format!(in alloc; "{explanation}; did you mean {word}?");
    }
    match word_in_scope(alloc, script, explanation.as_str())? {
        Some(word) => format!(in alloc; "{explanation}; did you mean {word}?"),
        None => Ok(explanation),
    }
}

/// The nearest word of an explanation's list. One with a list is like `.. op (sned) is no operation: there are send, receive
/// and exit`.
fn listed_word(alloc: Global, explanation: &str) -> Option<&str> {
    let (subject, listed) = explanation.split_once(": there are ")?;
    let (_, after) = subject.split_once(" (")?;
    let (word, _) = after.split_once(") is no ")?;
    let (_, meant) = nearest(alloc, word, listed)?;
    Some(meant)
}

/// The nearest word of a list, with its distance.
fn nearest<'a>(alloc: Global, word: &str, listed: &'a str) -> Option<Near<'a>> {
    let mut best = None;
    let mut rest = listed;
    for _ in 0..MOST_WORDS {
        let Some((head, tail)) = rest.split_once(' ') else {
            break;
        };
        best = nearer(alloc, word, head.trim_end_matches(','), best);
        rest = tail;
    }
    nearer(alloc, word, rest, best)
}

/// The nearer one of a candidate and the best before it.
fn nearer<'a>(
    alloc: Global,
    word: &str,
    candidate: &'a str,
    best: Option<Near<'a>>,
) -> Option<Near<'a>> {
    if matches!(candidate, "and" | "in" | "format") {
        return best;
    }
    match (best, near(alloc, word, candidate)) {
        (Some(before), Some(next)) if before.0 <= next.0 => Some(before),
        (before, None) => before,
        (_, next) => next,
    }
}

/// A candidate with its distance, if it is near: two words that share little are not meant for each other.
fn near<'a>(alloc: Global, word: &str, candidate: &'a str) -> Option<Near<'a>> {
    if candidate.len().abs_diff(word.len()) > 2 {
        return None;
    }
    let distance = osa_distance(alloc, word, candidate).ok()?;
    if distance < 3 && distance <= word.len() / 3 {
        Some((distance, candidate))
    } else {
        None
    }
}

/// A word of a script that names nothing there.
#[derive(Clone, Copy)]
struct Unknown<'a> {
    word: &'a str,
    /// The script before the word with its quote, and the script behind the word.
    before: &'a [u8],
    after: &'a str,
    /// What an explanation of this member of the script begins with.
    told: &'a str,
}

/// The word that names nothing, if an explanation says so: `.., line 3, column 19: member to (pogn) names nothing in scope`.
fn unknown_in<'a>(script: &'a [u8], explanation: &'a str) -> Option<Unknown<'a>> {
    let (told, behind) = explanation.split_once(" (")?;
    let (word, _) = behind.split_once(") names nothing in scope")?;
    let (_, spot) = told.split_once(", line ")?;
    let (line, spot) = spot.split_once(", column ")?;
    let (column, _) = spot.split_once(": ")?;
    let rest = from_spot(script, line.parse().ok()?, column.parse().ok()?)?;
    let before = script.get(..script.len().checked_sub(rest.len())?)?;
    let after = from_utf8(rest).ok()?.strip_prefix('"')?.strip_prefix(word)?;
    Some(Unknown {
        word,
        before,
        after,
        told,
    })
}

/// The text from a line and a column on.
fn from_spot(script: &[u8], line: usize, column: usize) -> Option<&[u8]> {
    let mut rest = script;
    for _ in 1..line {
        let end = rest.iter().position(|byte| *byte == b'\n')?;
        rest = rest.get(end..)?.get(1..)?;
    }
    rest.get(column.checked_sub(1)?..)
}

/// The nearest word with which a name or a tag that names nothing would name something.
fn word_in_scope<'a>(
    alloc: Global,
    script: &'a [u8],
    explanation: &str,
) -> Result<Option<&'a str>, AllocError> {
    let Some(unknown) = unknown_in(script, explanation) else {
        return Ok(None);
    };
    let Ok(text) = from_utf8(script) else {
        return Ok(None);
    };
    let near = near_words(alloc, unknown.word, text)?;
    match first_known(alloc, unknown, near.as_slice(), 1)? {
        Some(word) => Ok(Some(word)),
        None => first_known(alloc, unknown, near.as_slice(), 2),
    }
}

/// The different words between the quotes of a text that are near to a word.
fn near_words<'a>(alloc: Global, word: &str, text: &'a str) -> Result<Vec<Near<'a>>, AllocError> {
    let mut list = Vec::new(alloc);
    add_near(alloc, word, "self", &mut list)?;
    add_near(alloc, word, "parent", &mut list)?;
    let mut rest = text;
    for _ in 0..text.len() {
        let Some((head, tail)) = rest.split_once('"') else {
            break;
        };
        add_near(alloc, word, head, &mut list)?;
        rest = tail;
    }
    Ok(list)
}

/// Adds a candidate to the list, if it is near and is not in it.
fn add_near<'a>(
    alloc: Global,
    word: &str,
    candidate: &'a str,
    list: &mut Vec<Near<'a>>,
) -> Result<(), AllocError> {
    if list.len() < MOST_NEAR && candidate != word {
        if let Some(next) = near(alloc, word, candidate) {
            if !list.iter().any(|before| before.1 == candidate) {
                list.push(next)?;
            }
        }
    }
    Ok(())
}

/// The first word at this distance that names something in the place of the unknown one.
fn first_known<'a>(
    alloc: Global,
    unknown: Unknown<'_>,
    near: &[Near<'a>],
    distance: usize,
) -> Result<Option<&'a str>, AllocError> {
    for (its, word) in near {
        if *its == distance && is_known(alloc, unknown, *word)? {
            return Ok(Some(*word));
        }
    }
    Ok(None)
}

/// Whether a word names something in the place of the unknown one: the script with it is not refused there.
fn is_known(alloc: Global, unknown: Unknown<'_>, word: &str) -> Result<bool, AllocError> {
    let mut script = Vec::from_slice(alloc, unknown.before)?;
    script.extend_from_slice(b"\"".as_slice())?;
    script.extend_from_slice(word.as_bytes())?;
    script.extend_from_slice(unknown.after.as_bytes())?;
    match Script::from_bytes(alloc, script.as_slice()) {
        Ok(_) => Ok(true),
        Err(ScriptError::Refused { fault, place }) => {
            let explanation = explain(alloc, script.as_slice(), fault, place)?;
            Ok(!explanation.as_str().starts_with(unknown.told))
        }
        Err(ScriptError::Memory) => Err(AllocError),
    }
}
