//! The words in which a note of the clerk is printed.

use crate::clerk::Note;
use crate::facts;
use std::fmt::{self, Display, Formatter, Write};

/// A note as it is printed, with the name of the line that it speaks of.
#[derive(Clone, Copy)]
pub struct Report {
    note: Note,
    line: &'static str,
}

/// Whether a note speaks of a line by its place, and not of a caller by its number.
pub fn is_of_line(note: &Note) -> bool {
    fact_of_line(note.told.kind).is_some()
}

/// What happened at a line, if the fact is one of a line.
fn fact_of_line(fact: u32) -> Option<&'static str> {
    match fact {
        facts::STARTS => Some("is started, as process"),
        facts::HAS_NAME => Some("has its name"),
        facts::RINGS => Some("rings"),
        facts::GIVES_UP => Some("gives up, nobody answered"),
        facts::IS_BUSY => Some("is busy"),
        facts::PICKS_UP => Some("is answered"),
        facts::STOPS => Some("stops ringing, its alarm is cancelled"),
        facts::IS_FREE => Some("is free again"),
        facts::HAS_NO_NAME => Some("has exited, and nobody has its name"),
        _ => None,
    }
}

/// What a caller does.
fn fact_of_caller(fact: u32) -> &'static str {
    match fact {
        facts::HEARS_BUSY => "hears that the line is busy",
        facts::HEARS_NOBODY => "hears that nobody answered",
        facts::TALKS => "talks",
        facts::HANGS_UP => "hangs up",
        facts::IS_TIRED => "has waited long enough, and hangs up",
        facts::FORGETS => "has waited long enough, and forgets to hang up",
        facts::IS_TOO_LATE => "gets an answer too late",
        facts::IS_LOUD => "makes a noise that no line survives",
        facts::IS_CUT_OFF => "gets the DOWN of its line, and is cut off",
        _ => "cannot ask its line",
    }
}

impl Report {
    pub fn new(note: Note, line: &'static str) -> Report {
        Report { note, line }
    }

    /// Writes whom a caller has found.
    fn write_found<W: Write>(&self, f: &mut Formatter<W>) -> fmt::Result {
        let (caller, line) = (self.note.told.num, self.line);
        match self.note.told.who {
            Some(pid) => write!(f, "caller {caller} looks for {line}, and finds {pid}"),
            None => write!(f, "caller {caller} looks for {line}, and finds nobody"),
        }
    }

    /// Writes what a caller does.
    fn write_caller<W: Write>(&self, f: &mut Formatter<W>) -> fmt::Result {
        if self.note.told.kind == facts::FINDS {
            return self.write_found(f);
        }
        let (caller, fact) = (self.note.told.num, fact_of_caller(self.note.told.kind));
        write!(f, "caller {caller} {fact}")
    }

    /// Writes what happened at a line, with its process if it was started.
    fn write_line<W: Write>(&self, f: &mut Formatter<W>, fact: &str) -> fmt::Result {
        let line = self.line;
        match self.note.told.who {
            Some(pid) if self.note.told.kind == facts::STARTS => write!(f, "{line} {fact} {pid}"),
            _ => write!(f, "{line} {fact}"),
        }
    }
}

impl Display for Report {
    fn fmt<W: Write>(&self, f: &mut Formatter<W>) -> fmt::Result {
        let at = self.note.at;
        write!(f, "at {at}: ")?;
        match fact_of_line(self.note.told.kind) {
            Some(fact) => self.write_line(f, fact),
            None => self.write_caller(f),
        }
    }
}
