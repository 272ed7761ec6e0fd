//! Reading the lines of a reader, and writing the answers.

ghost use Rattle.std.specs.Prelude.{◌≡◌, ◌≢◌, OnOk, IfOk, Ok, true, false};
ghost use Rattle.std.specs.Io.KnownBytes.{Appends};
ghost use Rattle.std.specs.Io.BufRead.{strip_last};
ghost use Rattle.pt_shell.specs.Running as spec;
ghost use Rattle.pt_shell.specs.Sessions.{is_comparing, seen_session};
ghost use Rattle.pt_shell.specs.declared.complaint.Complaint.{Complaint};

use crate::complaint::Complaint;
use crate::session::{Heard, Session, answer_of, begin, hear, is_comparing};
use crate::telling::{tell, tell_end};
use pt_shard::Config;
use std::alloc::Global;
use std::io;
use std::io::{BufRead, Write};

/// The text that is written before a line is read from a person.
pub const PROMPT: &str = "> ";

/// Why a run ended before its lines did.
#[derive(Clone, Copy, Debug, PartialEq, Eq)]
pub enum Fault {
    /// A line was no call, or the answer was not the expected one.
    Line,
    Memory,
    /// The reader or a writer failed.
    File,
}

impl From<io::Error> for Fault {
    fn from(error: io::Error) -> Fault {
        if error.kind() == io::ErrorKind::OutOfMemory {
            Fault::Memory
        } else {
            Fault::File
        }
    }
}

/// Reads the lines of a reader until it ends, makes their calls, and writes the answers, in order. A message about a
/// line that failed goes to `errors`. With a person the run then continues, and else it ends there.
pub fn run<R: BufRead, W: Write, E: Write>(
    alloc: Global,
    is_person: bool,
    from: &mut R,
    out: &mut W,
    errors: &mut E,
) -> Result<(), Fault>
    ensures { OnOk result (spec.HasRunAll is_person Config.DEFAULT (R.remaining from.old) spec.fresh_session
        (W.contents out.old) (W.contents out.new)) }
{
    let mut session = begin(alloc);
    let mut line = Vec::new(alloc);
    for number in 1..u64::MAX {
        let more = step(
            is_person,
            number,
            from,
            &mut session,
            &mut line,
            out,
            errors,
        )?;
        if more {
            continue;
        }
        return Ok(());
    }
    Err(Fault::File)
}

/// Reads a line and does what it asks for. Returns whether there was one.
fn step<R: BufRead, W: Write, E: Write>(
    is_person: bool,
    number: u64,
    from: &mut R,
    session: &mut Session,
    line: &mut Vec<u8>,
    out: &mut W,
    errors: &mut E,
) -> Result<bool, Fault>
    ensures { IfOk result (λ more. spec.SessionSteps is_person Config.DEFAULT more (R.remaining from.old)
        (R.remaining from.new) (seen_session session.old) (W.contents out.old) (W.contents out.new) (seen_session session.new)) }
{
    prompt(is_person, out)?;
    let more = read_line(from, line)?;
    if more {
        let line = bare(line.as_slice());
        pass(is_person, number, session, line, out, errors)?;
        return Ok(true);
    }
    end(session, number, errors)?;
    Ok(false)
}

/// Reads the next line. Returns whether there is one.
fn read_line<R: BufRead>(from: &mut R, line: &mut Vec<u8>) -> Result<bool, Fault>
    ensures { IfOk result (λ more. spec.ReadsLine more (R.remaining from.old) (R.remaining from.new) line.new.items) }
{
    line.clear();
    match from.read_until(b'\n', line) {
        Ok(count) => Ok(count > 0),
        Err(error) => Err(Fault::from(error)),
    }
}

/// The line without its line feed.
fn bare(line: &[u8]) -> &[u8]
    ensures { result.now ≡ strip_last 10 line.now }
{
    let len = line.len();
    if len > 0 && line[len - 1] == b'\n' {
        &line[..len - 1]
    } else {
        line
    }
}

#[tactic(auto, using(crate::proofs::LineByLine::appends_keeps, crate::proofs::LineByLine::appends_nothing))]
fn prompt<W: Write>(is_person: bool, out: &mut W) -> io::Result<()>
    ensures { OnOk result (Appends (W.contents out.old) (W.contents out.new) (spec.prompted is_person)) }
{
    if is_person {
        out.write_all(PROMPT.as_bytes())?;
        out.flush()?;
    }
    Ok(())
}

/// Does what one line asks for, and writes its answer, or why it failed.
fn pass<W: Write, E: Write>(
    is_person: bool,
    number: u64,
    session: &mut Session,
    line: &[u8],
    out: &mut W,
    errors: &mut E,
) -> Result<(), Fault>
    ensures { OnOk result (spec.HearsLine is_person Config.DEFAULT line.now (seen_session session.old) (W.contents out.old)
        (W.contents out.new) (seen_session session.new)) }
{
    match hear(session, line) {
        Ok(heard) => {
            write_answer(session, heard, out)?;
            Ok(())
        }
        Err(complaint) => {
            out.flush()?;
            tell(errors, session, number, line, complaint)?;
            errors.flush()?;
            go_on(is_person, complaint)
        }
    }
}

/// Whether a run continues after a line that failed.
fn go_on(is_person: bool, complaint: Complaint) -> Result<(), Fault>
    ensures person { OnOk result (is_person ≡ true) }
    ensures memory { OnOk result (complaint ≢ Complaint.Memory) }
{
    match complaint {
        Complaint::Memory => Err(Fault::Memory),
        _ if is_person => Ok(()),
        _ => Err(Fault::Line),
    }
}

/// Writes the answer, if there is one.
#[tactic(auto, using(crate::proofs::LineByLine::appends_keeps, crate::proofs::LineByLine::appends_nothing))]
fn write_answer<W: Write>(session: &Session, heard: Heard, out: &mut W) -> io::Result<()>
    ensures { OnOk result (Appends (W.contents out.old) (W.contents out.new)
        (spec.written_answer (Ok heard) (seen_session session.now))) }
{
    match heard {
        Heard::Silent => Ok(()),
        Heard::Answered => {
            out.write_all(answer_of(session).as_bytes())?;
            out.flush()
        }
    }
}

/// Ends a run when its lines have ended.
fn end<E: Write>(session: &Session, number: u64, errors: &mut E) -> Result<(), Fault>
    ensures { OnOk result (is_comparing (seen_session session.now) ≡ false) }
{
    if is_comparing(session) {
        tell_end(errors, session, number)?;
        errors.flush()?;
        return Err(Fault::Line);
    }
    Ok(())
}
