//! Auditing histories, and printing what is asked for.

use crate::asked::{Asked, Print};
use crate::output::Output;
use crate::page::end_page;
use crate::refusal::{Refusal, faulty, unread, wants_memory};
use crate::source::{PIECE, Source};
use pt_auditor::{Audit, Begun, Did, Fault, Foreign, Hearing, Verdict};
use pt_chart::{Watch, chart_watched};
use pt_events::{Event, Stamped};
use pt_render::{
    JsonEvent, JsonLeftOver, JsonStep, JsonVerdict, MERMAID_HEAD, MermaidEvent, MermaidLeftOver,
    PAGE_HEAD,
};
use pt_texts::LeftOver;
use std::alloc::Global;
use std::io::{Read, Write};
use std::{fmt, mem};

/// Reads the next bytes. After a fault the audit has read nothing.
fn feed(alloc: Global, audit: &mut Audit, bytes: &[u8]) -> Result<(), Fault> {
    match mem::replace(audit, Audit::new(alloc)).read(alloc, bytes) {
        Ok(next) => {
            *audit = next;
            Ok(())
        }
        Err(fault) => Err(fault),
    }
}

/// Reads one history to its end, piece by piece, behind so many events.
pub fn audit_pieces<R: Read>(
    alloc: Global,
    audit: &mut Audit,
    from: &mut R,
    before: u64,
) -> Result<(), Refusal> {
    match vec![in alloc; 0u8; PIECE] {
        Ok(mut piece) => read_pieces(alloc, audit, from, piece.as_mut_slice(), before),
        Err(_) => Err(Refusal::Memory),
    }
}

fn read_pieces<R: Read>(
    alloc: Global,
    audit: &mut Audit,
    from: &mut R,
    piece: &mut [u8],
    before: u64,
) -> Result<(), Refusal> {
    for _ in 0..u64::MAX {
        match read_piece(from, piece) {
            Ok(bytes) => {
                if bytes.len() == 0 {
                    return Ok(());
                }
                if let Err(fault) = feed(alloc, audit, bytes) {
                    return Err(faulty(fault, before));
                }
            }
            Err(refusal) => return Err(refusal),
        }
    }
    Err(Refusal::Memory)
}

/// The next bytes; none at the end.
fn read_piece<'a, R: Read>(from: &mut R, piece: &'a mut [u8]) -> Result<&'a [u8], Refusal> {
    match from.read(piece) {
        Ok(count) => Ok(&piece[..count]),
        Err(error) => Err(unread(0, error)),
    }
}

/// Reads all files, merged by stamp and desk, and prints the output that comes before the verdict.
pub fn audit_lines<R: Read + Drop, W: Write>(
    alloc: Global,
    audit: &mut Audit,
    sources: &mut [Source<R>],
    asked: &Asked<'_, '_>,
    out: &mut Output<W>,
) -> Result<(), Refusal> {
    if let Err(refusal) = print_head(asked, out) {
        return Err(refusal);
    }
    match begin(sources) {
        Ok(()) => audit_all(alloc, audit, sources, asked, out),
        Err(refusal) => Err(refusal),
    }
}

/// Reads the first line of each file.
fn begin<R: Read + Drop>(sources: &mut [Source<R>]) -> Result<(), Refusal> {
    for place in 0..sources.len() {
        if let Err(refusal) = sources[place].advance() {
            return Err(refusal);
        }
    }
    Ok(())
}

fn audit_all<R: Read + Drop, W: Write>(
    alloc: Global,
    audit: &mut Audit,
    sources: &mut [Source<R>],
    asked: &Asked<'_, '_>,
    out: &mut Output<W>,
) -> Result<(), Refusal> {
    let several = sources.len() > 1;
    for _ in 0..u64::MAX {
        let place = first_of(sources);
        let Some(source) = sources.get_mut(place) else {
            return Ok(());
        };
        if let Err(refusal) = step(alloc, audit, source, several, asked, out) {
            return Err(refusal);
        }
    }
    Err(Refusal::Memory)
}

/// Audits the line of the file, prints it if it is asked for, and reads the next line.
fn step<R: Read + Drop, W: Write>(
    alloc: Global,
    audit: &mut Audit,
    source: &mut Source<R>,
    several: bool,
    asked: &Asked<'_, '_>,
    out: &mut Output<W>,
) -> Result<(), Refusal> {
    if asked.wants_line_feed() && source.is_torn() {
        return Err(Refusal::Torn(source.file(), source.number()));
    }
    if let Some(stamped) = stepping(source, asked) {
        return take_step(alloc, audit, source, several, asked, stamped, out);
    }
    if let Err(fault) = hear(alloc, audit, source.line()) {
        return Err(fault_of(fault, source, several, out.before));
    }
    note(audit.hearing(), source, asked, out);
    match print_event(source, asked, out) {
        Ok(()) => source.advance(),
        Err(refusal) => Err(refusal),
    }
}

/// The event of the line, if it is printed with what it changes.
fn stepping<R: Read + Drop>(source: &Source<R>, asked: &Asked<'_, '_>) -> Option<Stamped> {
    match source.event() {
        Some(stamped) if asked.wants_step(stamped) => Some(stamped),
        _ => None,
    }
}

/// Audits the event, prints it with what it changed, and reads the next line.
fn take_step<R: Read + Drop, W: Write>(
    alloc: Global,
    audit: &mut Audit,
    source: &mut Source<R>,
    several: bool,
    asked: &Asked<'_, '_>,
    stamped: Stamped,
    out: &mut Output<W>,
) -> Result<(), Refusal> {
    let Ok(begun) = Begun::new(alloc, audit.hearing().state(), stamped.event) else {
        return Err(Refusal::Memory);
    };
    if let Err(fault) = hear(alloc, audit, source.line()) {
        return Err(fault_of(fault, source, several, out.before));
    }
    note(audit.hearing(), source, asked, out);
    match print_step(alloc, audit.hearing(), begun, stamped, out) {
        Ok(()) => source.advance(),
        Err(refusal) => Err(refusal),
    }
}

/// Prints the event with what it changed, where it was heard last.
fn print_step<W: Write>(
    alloc: Global,
    hearing: &Hearing,
    begun: Begun,
    stamped: Stamped,
    out: &mut Output<W>,
) -> Result<(), Refusal> {
    match begun.changes(alloc, hearing.state()) {
        Ok(then) => say_step(stamped, then.as_slice(), out),
        Err(_) => Err(Refusal::Memory),
    }
}

fn say_step<W: Write>(stamped: Stamped, then: &[Did], out: &mut Output<W>) -> Result<(), Refusal> {
    out.say(JsonStep { stamped, then })
}

/// Reads the line.
fn hear(alloc: Global, audit: &mut Audit, line: &[u8]) -> Result<(), Fault> {
    match feed(alloc, audit, line) {
        Ok(()) => feed(alloc, audit, b"\n".as_slice()),
        Err(fault) => Err(fault),
    }
}

/// The refusal for the fault of the file's line. With several files it names the file.
fn fault_of<R: Read + Drop>(
    fault: Fault,
    source: &Source<R>,
    names_file: bool,
    before: u64,
) -> Refusal {
    if names_file && !wants_memory(fault) {
        let line = source.number();
        let why = fault.why;
        Refusal::InFile(source.file(), Fault { line, why })
    } else {
        faulty(fault, before)
    }
}

/// Notes whether no node prints the line, and whether it concerns the process that is asked for.
fn note<R: Read + Drop, W: Write>(
    hearing: &Hearing,
    source: &Source<R>,
    asked: &Asked<'_, '_>,
    out: &mut Output<W>,
) {
    if out.foreign.is_none() && hearing.foreign().is_some() {
        out.foreign = Some((source.file(), source.number()));
    }
    if let Some(event) = source.event() {
        out.met = out.met || asked.concerns(event);
    }
}

/// The place of the file whose line comes first, or the number of files if none has a line.
fn first_of<R: Read + Drop>(sources: &[Source<R>]) -> usize {
    let mut first = sources.len();
    for place in 0..sources.len() {
        let source = &sources[place];
        if source.is_open() && (first >= sources.len() || source.is_before(&sources[first])) {
            first = place;
        }
    }
    first
}

/// Prints the line of the file, if it is an event that is asked for, or a letter left over that is printed.
fn print_event<R: Read + Drop, W: Write>(
    source: &Source<R>,
    asked: &Asked<'_, '_>,
    out: &mut Output<W>,
) -> Result<(), Refusal> {
    let Some(event) = source.event() else {
        return print_left_over(source, asked, out);
    };
    if !asked.selection.has_event(event) {
        return Ok(());
    }
    match asked.print {
        Print::History => out.say(event),
        Print::Chart => out.keep(event),
        Print::Mermaid => out.say(MermaidEvent(event)),
        Print::Json => out.say(JsonEvent(event)),
        _ => Ok(()),
    }
}

/// Prints the line of the file in a diagram or as JSON, if it is a letter left over whose sending is asked for.
fn print_left_over<R: Read + Drop, W: Write>(
    source: &Source<R>,
    asked: &Asked<'_, '_>,
    out: &mut Output<W>,
) -> Result<(), Refusal> {
    let Some(left_over) = source.left_over() else {
        return Ok(());
    };
    let LeftOver {
        from_desk,
        to_desk,
        letter,
    } = left_over;
    let sending = Stamped {
        stamp: letter.stamp,
        desk: from_desk,
        event: Event::Said(letter.from, letter.to, letter.signal),
    };
    if !asked.wants(sending) {
        return Ok(());
    }
    match asked.print {
        Print::Mermaid => out.say(MermaidLeftOver(letter)),
        Print::Json | Print::Steps | Print::Page => out.say(JsonLeftOver {
            from_desk,
            to_desk,
            letter,
        }),
        _ => Ok(()),
    }
}

/// Prints what comes before all events: the first line of a diagram, or the head of a page.
fn print_head<W: Write>(asked: &Asked<'_, '_>, out: &mut Output<W>) -> Result<(), Refusal> {
    match asked.print {
        Print::Mermaid => out.say(MERMAID_HEAD),
        Print::Page => out.say(PAGE_HEAD),
        _ => Ok(()),
    }
}

/// The line that no node prints, with its file if there are several.
fn no_node<W: Write>(foreign: Foreign, asked: &Asked<'_, '_>, out: &Output<W>) -> Refusal {
    match out.foreign {
        Some((place, line)) if asked.files.len() > 1 => {
            let why = foreign.why;
            Refusal::NoNodeInFile(place, Foreign { line, why })
        }
        _ => Refusal::NoNode(foreign),
    }
}

/// Prints the verdict, unless there is no event to judge and no state to save, or no node prints this history and the judge's
/// verdict alone is not enough.
pub fn conclude<W: Write>(
    verdict: Verdict,
    asked: &Asked<'_, '_>,
    out: &mut Output<W>,
) -> Result<(), Refusal> {
    match verdict.foreign {
        None if verdict.events == 0 && asked.is_of_nothing() => match out.flush() {
            Ok(()) => Err(Refusal::Incomplete(verdict)),
            Err(refusal) => Err(refusal),
        },
        Some(foreign) if !asked.judge || asked.save.is_some() => match out.flush() {
            Ok(()) => Err(no_node(foreign, asked, out)),
            Err(refusal) => Err(refusal),
        },
        _ => match print_verdict(verdict, asked.print, out) {
            Ok(()) => demand(verdict, asked, out.before),
            Err(refusal) => Err(refusal),
        },
    }
}

/// Refuses a legal history that is not complete, if it has to be.
fn demand(verdict: Verdict, asked: &Asked<'_, '_>, before: u64) -> Result<(), Refusal> {
    if is_incomplete(verdict, asked, before) {
        return Err(Refusal::Incomplete(verdict));
    }
    Ok(())
}

/// Whether letters are in flight, or no event came, where that has a status of its own.
fn is_incomplete(verdict: Verdict, asked: &Asked<'_, '_>, before: u64) -> bool {
    (asked.wants_line_feed() && verdict.letters > 0) || (asked.complete && verdict.events == before)
}

/// A verdict, in the form of the output before it.
#[derive(Clone, Copy)]
struct Concluded {
    verdict: Verdict,
    print: Print,
}

impl fmt::Display for Concluded {
    fn fmt<W: fmt::Write>(&self, f: &mut fmt::Formatter<W>) -> fmt::Result {
        let verdict = self.verdict;
        match self.print {
            Print::Chart => write!(f, "<!-- {verdict} -->"),
            Print::Mermaid => write!(f, "    %% {verdict}"),
            Print::Json | Print::Steps | Print::Page => write_json(verdict, f),
            _ => write!(f, "{verdict}"),
        }
    }
}

fn write_json<W: fmt::Write>(verdict: Verdict, f: &mut fmt::Formatter<W>) -> fmt::Result {
    let verdict = JsonVerdict {
        events: verdict.events,
        desks: verdict.desks,
        letters: verdict.letters,
    };
    write!(f, "{verdict}")
}

/// Prints the verdict of a history, in the form of the output before it, and flushes the writer.
fn print_verdict<W: Write>(
    verdict: Verdict,
    print: Print,
    out: &mut Output<W>,
) -> Result<(), Refusal> {
    let verdict = Verdict {
        foreign: None,
        ..verdict
    };
    match out.say(Concluded { verdict, print }) {
        Ok(()) if print == Print::Page => end_page(out),
        Ok(()) => out.flush(),
        Err(refusal) => Err(refusal),
    }
}

/// Prints what became of each process, or the chart, if that is asked for and the history is legal so far.
pub fn print_end<P: Watch, W: Write>(
    alloc: Global,
    hearing: &Hearing,
    asked: &Asked<'_, '_>,
    watch: &P,
    out: &mut Output<W>,
) -> Result<(), Refusal> {
    match asked.print {
        Print::Summary if hearing.end().is_ok() => print_summary(hearing, asked, out),
        Print::Chart if hearing.end().is_ok() => print_chart(alloc, watch, out),
        _ => Ok(()),
    }
}

fn print_chart<P: Watch, W: Write>(
    alloc: Global,
    watch: &P,
    out: &mut Output<W>,
) -> Result<(), Refusal> {
    match chart_watched(alloc, out.drawn.as_slice(), &[], watch) {
        Ok(drawing) => print_drawing(drawing.as_str(), out),
        Err(error) => Err(Refusal::from(error)),
    }
}

fn print_drawing<W: Write>(drawing: &str, out: &mut Output<W>) -> Result<(), Refusal> {
    match out.writer.write_all(drawing.as_bytes()) {
        Ok(()) => Ok(()),
        Err(error) => Err(Refusal::from(error)),
    }
}

fn print_summary<W: Write>(
    hearing: &Hearing,
    asked: &Asked<'_, '_>,
    out: &mut Output<W>,
) -> Result<(), Refusal> {
    for number in 0..usize::MAX {
        let Some(standing) = hearing.standing(number) else {
            return Ok(());
        };
        if !asked.selection.has_process(standing.pid) {
            continue;
        }
        if let Err(refusal) = out.say(standing) {
            return Err(refusal);
        }
    }
    Ok(())
}
