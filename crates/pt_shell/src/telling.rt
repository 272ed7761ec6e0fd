//! The message about a line that failed.

use crate::complaint::{Complaint, State};
use crate::lines::{Mistake, Why};
use crate::session::{Session, next_line};
use std::io;
use std::io::Write;

/// Writes in one line why the line with this number failed.
pub(crate) fn tell<W: Write>(
    out: &mut W,
    session: &Session,
    number: u64,
    line: &[u8],
    complaint: Complaint,
) -> io::Result<()> {
    match complaint {
        Complaint::Mistake(mistake) => tell_mistake(out, number, line, mistake),
        Complaint::NotNow(column, state) => tell_state(out, number, line, column, state),
        Complaint::Unexpected => tell_unexpected(out, session, number, line),
        Complaint::NothingLeft => writeln!(
            out,
            "line {number}: no line of an answer is left to be compared"
        ),
        Complaint::LinesLeft => tell_left(out, session, number),
        Complaint::Memory => writeln!(out, "line {number}: memory refused"),
    }
}

/// Writes that the lines ended when some lines of the last answer were compared, and some were not.
pub(crate) fn tell_end<W: Write>(out: &mut W, session: &Session, number: u64) -> io::Result<()> {
    tell_left(out, session, number)
}

fn tell_mistake<W: Write>(
    out: &mut W,
    number: u64,
    line: &[u8],
    mistake: Mistake,
) -> io::Result<()> {
    let Mistake { column, why } = mistake;
    if why == Why::Missing {
        return writeln!(out, "line {number}, column {column}: {why}");
    }
    write!(out, "line {number}, column {column}: {why}: ")?;
    tell_word(out, line, column)
}

fn tell_state<W: Write>(
    out: &mut W,
    number: u64,
    line: &[u8],
    column: usize,
    state: State,
) -> io::Result<()> {
    let state = match state {
        State::Closed => "there is no node",
        State::Running => "the node runs",
        State::Gathered => "the node is gathered",
        State::Settled => "the node is settled",
    };
    write!(out, "line {number}, column {column}: {state}: ")?;
    tell_word(out, line, column)
}

/// Writes the word at that column of a line, and a line feed.
fn tell_word<W: Write>(out: &mut W, line: &[u8], column: usize) -> io::Result<()> {
    let start = column.saturating_sub(1).min(line.len());
    tell_bytes(out, word_in(&line[start..]))?;
    out.write_all(b"\n")
}

/// The most bytes of a line that are shown of it.
const MOST_SHOWN: usize = 200;

/// Writes bytes of a line so that no terminal takes them for commands: one that is no printable ASCII is written as `\x1b`.
/// A long text is cut.
fn tell_bytes<W: Write>(out: &mut W, bytes: &[u8]) -> io::Result<()> {
    for at in 0..bytes.len().min(MOST_SHOWN) {
        tell_byte(out, bytes[at])?;
    }
    if bytes.len() > MOST_SHOWN {
        return out.write_all(b"..");
    }
    Ok(())
}

fn tell_byte<W: Write>(out: &mut W, byte: u8) -> io::Result<()> {
    match byte {
        b' '..=b'~' => out.write_all(&[byte]),
        b'\t' => out.write_all(b" "),
        _ => write!(out, "\\x{byte:02x}"),
    }
}

/// The text before the first blank.
fn word_in(text: &[u8]) -> &[u8] {
    for place in 0..text.len() {
        if is_blank(text[place]) {
            return &text[..place];
        }
    }
    text
}

fn tell_unexpected<W: Write>(
    out: &mut W,
    session: &Session,
    number: u64,
    line: &[u8],
) -> io::Result<()> {
    write!(out, "line {number}: wanted ")?;
    tell_bytes(out, wanted_in(line))?;
    out.write_all(b", answered ")?;
    out.write_all(next_line(session))?;
    out.write_all(b"\n")
}

/// The text after the first word of a line, without the blanks before it.
fn wanted_in(line: &[u8]) -> &[u8] {
    without_blanks(without_word(without_blanks(line)))
}

/// The text without the blanks in front.
fn without_blanks(text: &[u8]) -> &[u8] {
    for place in 0..text.len() {
        if !is_blank(text[place]) {
            return &text[place..];
        }
    }
    &text[..0]
}

/// The text without the word in front.
fn without_word(text: &[u8]) -> &[u8] {
    for place in 0..text.len() {
        if is_blank(text[place]) {
            return &text[place..];
        }
    }
    &text[..0]
}

fn is_blank(byte: u8) -> bool {
    byte == b' ' || byte == b'\t' || byte == b'\r'
}

fn tell_left<W: Write>(out: &mut W, session: &Session, number: u64) -> io::Result<()> {
    write!(out, "line {number}: not compared: ")?;
    out.write_all(next_line(session))?;
    out.write_all(b"\n")
}
