//! The words of a line.

ghost use Rattle.std.specs.Prelude.{◌≡◌, ◌+◌, ◌≤◌, ◌<◌, ◌++◌, IfOk, OnOk, map, slice_range, drop, length};
ghost use Rattle.pt_shell.specs.Words as spec;

use std::alloc::{AllocError, Global};

/// A word of a line.
#[derive(Clone, Copy)]
pub struct Word<'a> {
    /// Its column, counted in bytes from 1.
    pub column: usize,
    pub text: &'a [u8],
}

fn is_blank(byte: u8) -> bool
    ensures { result ≡ spec.is_blank byte }
{
    byte == b' ' || byte == b'\t' || byte == b'\r'
}

/// The words of a line, in order: the texts between blanks. A blank is a space, a tab or a carriage return.
pub fn words_of(alloc: Global, line: &[u8]) -> Result<Vec<Word<'_>>, AllocError>
    ensures { IfOk result (λ words. map spec.told_word words.items ≡ spec.words_in line.now) }
{
    let mut words = Vec::new(alloc);
    let mut start: usize = 0;
    for place in 0..line.len() {
        start = pass(&mut words, line, start, place)?;
    }
    push_word(&mut words, line, start, line.len())?;
    Ok(words)
}

/// Passes one byte, and adds the word before it if it is a blank. Returns the place at which the next word begins.
#[tactic(auto, using(crate::proofs::Splitting::of_blank, crate::proofs::Splitting::of_other))]
fn pass<'a>(
    words: &mut Vec<Word<'a>>,
    line: &'a [u8],
    start: usize,
    place: usize,
) -> Result<usize, AllocError>
    requires order { start ≤ place }
    requires within { place < length line.now }
    ensures order { IfOk result (λ next. next ≤ place + 1) }
    ensures words { IfOk result (λ next.
        map spec.told_word words.new.items
        ++ spec.words_behind (next + 1) (slice_range line.now next (place + 1)) (drop (place + 1) line.now)
        ≡ map spec.told_word words.old.items
        ++ spec.words_behind (start + 1) (slice_range line.now start place) (drop place line.now)) }
{
    if is_blank(line[place]) {
        push_word(words, line, start, place)?;
        return Ok(place + 1);
    }
    Ok(start)
}

/// Adds the word between two places, if there is any byte.
fn push_word<'a>(
    words: &mut Vec<Word<'a>>,
    line: &'a [u8],
    start: usize,
    end: usize,
) -> Result<(), AllocError>
    requires order { start ≤ end }
    requires within { end ≤ length line.now }
    ensures { OnOk result (map spec.told_word words.new.items
        ≡ map spec.told_word words.old.items ++ spec.one_word (start + 1) (slice_range line.now start end)) }
{
    if start < end {
        words.push(Word {
            column: start + 1,
            text: &line[start..end],
        })?;
    }
    Ok(())
}

/// The words with one space between each two.
pub fn joined(alloc: Global, words: &[Word<'_>]) -> Result<Vec<u8>, AllocError>
    ensures { IfOk result (λ text. text.items ≡ spec.joined_words (map spec.told_word words.now)) }
{
    let mut text = Vec::new(alloc);
    let [first, rest @ ..] = words else {
        return Ok(text);
    };
    text.extend_from_slice(first.text)?;
    push_spaced(&mut text, rest)?;
    Ok(text)
}

/// Adds each word after a space.
fn push_spaced(text: &mut Vec<u8>, words: &[Word<'_>]) -> Result<(), AllocError>
    ensures { OnOk result (text.new.items ≡ text.old.items ++ spec.spaced (map spec.told_word words.now)) }
{
    for place in 0..words.len() {
        text.push(b' ')?;
        text.extend_from_slice(words[place].text)?;
    }
    Ok(())
}
