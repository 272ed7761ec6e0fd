//! Lines on standard error, and the statuses that go with them.

use crate::asked::Asked;
use crate::refusal::Refusal;
use clap::Error;
use clap::error::ErrorKind;
use pt_auditor::{Foreign, Verdict};
use pt_signal::Pid;
use std::fmt::Display;
use std::process::ExitCode;
use std::rt::Runtime;
use std::{fmt, io};

/// A process that a state has twice.
#[derive(Clone, Copy)]
struct Twice(Pid);

impl fmt::Display for Twice {
    fn fmt<W: fmt::Write>(&self, f: &mut fmt::Formatter<W>) -> fmt::Result {
        let pid = self.0;
        write!(f, "{pid} is there twice")
    }
}

/// What is said before the line of a legal history that no node prints.
const STRANGE: &str = "legal, but of no node: ";

/// A line of a legal history that no node prints.
#[derive(Clone, Copy)]
struct Strange(Foreign);

impl fmt::Display for Strange {
    fn fmt<W: fmt::Write>(&self, f: &mut fmt::Formatter<W>) -> fmt::Result {
        let foreign = self.0;
        write!(f, "{STRANGE}{foreign}")
    }
}

/// The name, or none.
fn given(name: Option<&str>) -> &str {
    match name {
        Some(name) => name,
        None => "",
    }
}

/// Prints one line on standard error, and returns the status.
pub fn tell<R: Runtime, T: Display + Drop>(rt: &R, line: T, status: u8) -> ExitCode {
    let _ = rt.eprintln(line);
    ExitCode::from(status)
}

/// Prints one line on standard error, which names a file behind the head, and returns the status.
fn tell_of<R: Runtime, T: Display + Copy>(
    rt: &R,
    head: &str,
    name: &str,
    why: T,
    status: u8,
) -> ExitCode {
    let _ = eprintln!(rt; "{head}{name}: {why}");
    ExitCode::from(status)
}

/// Reports what is wrong with the state that the history goes on from.
fn tell_state<R: Runtime, T: Display + Copy>(rt: &R, asked: &Asked<'_, '_>, why: T) -> ExitCode {
    tell_of(rt, "", given(asked.resume), why, 3)
}

/// Reports that the last line of the file has no line feed.
fn tell_torn<R: Runtime>(rt: &R, name: Option<&str>, line: u64) -> ExitCode {
    match name {
        Some(name) => {
            let _ = eprintln!(rt; "not complete: {name}: line {line} has no line feed");
        }
        None => {
            let _ = eprintln!(rt; "not complete: line {line} has no line feed");
        }
    }
    ExitCode::from(4)
}

/// Reports a file that failed, with its name and the cause if that is asked for.
fn tell_unread<R: Runtime>(rt: &R, explain: bool, name: &str, error: io::Error) -> ExitCode {
    let code = tell(rt, "file refused", 3);
    if explain {
        let _ = eprintln!(rt; "{name}: {error}");
    }
    code
}

/// Prints what `clap` says of the words: help and the version on standard output, all else on standard error.
pub fn tell_clap<R: Runtime>(rt: &R, error: Error) -> ExitCode {
    match error.kind() {
        ErrorKind::OutOfMemory => tell(rt, "memory refused", 3),
        ErrorKind::DisplayHelp | ErrorKind::DisplayVersion => tell_asked(rt, error),
        _ => {
            let _ = rt.eprint(error);
            ExitCode::from(2)
        }
    }
}

/// Prints help, or the version.
fn tell_asked<R: Runtime>(rt: &R, error: Error) -> ExitCode {
    if rt.print(error).is_ok() {
        ExitCode::SUCCESS
    } else {
        tell(rt, "file refused", 3)
    }
}

/// The name of the file at the place, if there are several.
fn several<'a>(files: &'a [&'a str], place: usize) -> Option<&'a str> {
    if files.len() > 1 {
        Some(name_of(files, place))
    } else {
        None
    }
}

/// The name of a file.
fn name_of<'a>(files: &'a [&'a str], place: usize) -> &'a str {
    if place < files.len() {
        files[place]
    } else {
        "standard input"
    }
}

fn tell_unwritten<R: Runtime>(rt: &R, asked: &Asked<'_, '_>, error: io::Error) -> ExitCode {
    let code = tell(rt, "file refused", 3);
    if asked.explain {
        let _ = eprintln!(rt; "the output was not written: {error}");
    }
    code
}

/// Reports why a legal history is not complete.
fn tell_incomplete<R: Runtime>(rt: &R, verdict: Verdict) -> ExitCode {
    let letters = verdict.letters;
    if letters == 0 {
        return tell(rt, "not complete: no event", 4);
    }
    let _ = eprintln!(rt; "not complete: {letters} letters on their way");
    ExitCode::from(4)
}

/// Reports why there is no verdict, or not all of the output was printed.
pub fn tell_refusal<R: Runtime>(rt: &R, asked: &Asked<'_, '_>, refusal: Refusal) -> ExitCode {
    let files = asked.files;
    match refusal {
        Refusal::History(fault) => tell(rt, fault, 1),
        Refusal::InFile(place, fault) => tell_of(rt, "", name_of(files, place), fault, 1),
        Refusal::NoNode(foreign) => tell(rt, Strange(foreign), 1),
        Refusal::NoNodeInFile(place, foreign) => {
            tell_of(rt, STRANGE, name_of(files, place), foreign, 1)
        }
        Refusal::Incomplete(verdict) => tell_incomplete(rt, verdict),
        Refusal::Torn(place, line) => tell_torn(rt, several(files, place), line),
        refusal => tell_stated(rt, asked, refusal),
    }
}

/// Reports what is wrong with a state or a file, or that there was no memory.
fn tell_stated<R: Runtime>(rt: &R, asked: &Asked<'_, '_>, refusal: Refusal) -> ExitCode {
    match refusal {
        Refusal::Damaged(damage) => tell_state(rt, asked, damage),
        Refusal::Twice(pid) => tell_state(rt, asked, Twice(pid)),
        Refusal::UnreadState(error) => tell_unread(rt, asked.explain, given(asked.resume), error),
        Refusal::Unsaved(error) => tell_unread(rt, asked.explain, given(asked.save), error),
        Refusal::Unread(place, error) => {
            tell_unread(rt, asked.explain, name_of(asked.files, place), error)
        }
        Refusal::Unwritten(error) => tell_unwritten(rt, asked, error),
        _ => tell(rt, "memory refused", 3),
    }
}

/// Reports that no event concerned the process that was asked for.
pub fn tell_nobody<R: Runtime>(rt: &R, asked: &Asked<'_, '_>) -> ExitCode {
    if let Some(pid) = asked.selection.pid {
        let _ = eprintln!(rt; "no event concerns {pid}");
    }
    ExitCode::SUCCESS
}
