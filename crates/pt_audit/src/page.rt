//! The end of a page, with the verdict or with the fault.

use crate::asked::{Asked, Print};
use crate::output::Output;
use crate::refusal::Refusal;
use pt_auditor::{Fault, Foreign};
use pt_render::{PAGE_END, PAGE_NAMES};
use std::fmt;
use std::io::Write;

/// Why a history has no verdict. Its texts have no character that JSON would escape.
#[derive(Clone, Copy)]
enum Flawed {
    Fault(Fault),
    Foreign(Foreign),
    /// The number of the last line, which has no line feed.
    Torn(u64),
    Empty,
}

impl fmt::Display for Flawed {
    fn fmt<W: fmt::Write>(&self, f: &mut fmt::Formatter<W>) -> fmt::Result {
        match *self {
            Flawed::Fault(fault) => write!(f, "{fault}"),
            Flawed::Foreign(foreign) => write!(f, "legal, but of no node: {foreign}"),
            Flawed::Torn(line) => write!(f, "not complete: line {line} has no line feed"),
            Flawed::Empty => write!(f, "not complete: no event"),
        }
    }
}

/// The last line of the history on a page, in the place of the verdict.
#[derive(Clone, Copy)]
struct JsonFlawed(Flawed);

impl fmt::Display for JsonFlawed {
    fn fmt<W: fmt::Write>(&self, f: &mut fmt::Formatter<W>) -> fmt::Result {
        let why = self.0;
        write!(f, "{{\"verdict\":\"at fault\",\"why\":\"{why}\"}}")
    }
}

/// Why the history has no verdict, if the fault is the history's. A history over a state has one without events, too.
fn flaw_of(refusal: Refusal, is_new: bool) -> Option<Flawed> {
    match refusal {
        Refusal::Incomplete(verdict) if is_new && verdict.events == 0 => Some(Flawed::Empty),
        Refusal::History(fault) => Some(Flawed::Fault(fault)),
        Refusal::InFile(_, fault) => Some(Flawed::Fault(fault)),
        Refusal::NoNode(foreign) => Some(Flawed::Foreign(foreign)),
        Refusal::NoNodeInFile(_, foreign) => Some(Flawed::Foreign(foreign)),
        Refusal::Torn(_, line) => Some(Flawed::Torn(line)),
        _ => None,
    }
}

/// Ends the page with the fault of the history, if a page is printed and the fault is the history's. A page that cannot
/// be written stays cut off.
pub fn end_at_fault<W: Write>(refusal: Refusal, asked: &Asked<'_, '_>, out: &mut Output<W>) {
    if asked.print != Print::Page {
        return;
    }
    if let Some(why) = flaw_of(refusal, asked.is_of_nothing()) {
        let _ = end_with(why, out);
    }
}

fn end_with<W: Write>(why: Flawed, out: &mut Output<W>) -> Result<(), Refusal> {
    match out.say(JsonFlawed(why)) {
        Ok(()) => end_page(out),
        Err(refusal) => Err(refusal),
    }
}

/// Prints what is behind the history, which has no names, and flushes the writer.
pub fn end_page<W: Write>(out: &mut Output<W>) -> Result<(), Refusal> {
    if let Err(refusal) = out.say(PAGE_NAMES) {
        return Err(refusal);
    }
    match out.say("{}") {
        Ok(()) => end_script(out),
        Err(refusal) => Err(refusal),
    }
}

fn end_script<W: Write>(out: &mut Output<W>) -> Result<(), Refusal> {
    match out.say(PAGE_END) {
        Ok(()) => out.flush(),
        Err(refusal) => Err(refusal),
    }
}
