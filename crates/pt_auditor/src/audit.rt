//! A history read from bytes.

ghost use Rattle.std.specs.Prelude.{◌≡◌, ℕ, ◌+◌, ◌-◌, ◌^◌, [], List, min, IfOk};
ghost use Rattle.pt_auditor.specs.Hearings.{Heard, IsHeard};
ghost use Rattle.pt_events.specs.declared.event.Stamped.{Stamped};
ghost use Rattle.pt_auditor.specs.Reading.{IsRead, AuditReads, ClosesText, Concludes, Grows, IsTorn};
ghost use Rattle.pt_auditor.specs.Rests.{IsRestOf, IsTextOf, RestsText};

use crate::line::hear_line;
use crate::{Fault, Hearing, MOST_LINE, Rest, Restless, Unfit, Verdict, Why};
use std::alloc::Global;

/// A history as far as its text was read.
///
/// Contracts speak of the whole text so far, and of all events and letters of its lines. No audit keeps these.
pub struct Audit {
    hearing: Hearing,
    /// The part of the unfinished line that was read.
    line: Vec<u8>,
    /// The number of finished lines.
    lines: u64,
}

// By hand, so that each drop of it is a call: a derived drop is proved field by field at each place that drops a value.
impl Drop for Audit {
    fn drop(self) {
        let Audit {
            hearing: _,
            line: _,
            lines: _,
        } = self;
    }
}

fn one_more(count: u64) -> u64
    ensures { result ≡ min (count + 1) (2 ^ 64 - 1) }
{
    count.saturating_add(1)
}

/// The verdict, if the text ends after so many lines.
fn conclude(hearing: &Hearing, lines: u64) -> Result<Verdict, Fault>
    ensures { (heard : Heard) → IsHeard heard hearing.now → ClosesText heard lines result }
{
    match hearing.end() {
        Ok(verdict) => Ok(verdict),
        Err(objection) => Err(Fault {
            line: one_more(lines),
            why: Why::Over(objection),
        }),
    }
}

/// The open line has one byte more.
fn grow(line: &mut Vec<u8>, byte: u8) -> Result<(), Why>
    ensures { Grows line.old.items byte line.new.items result }
{
    let open = line.as_slice();
    if open.len() == MOST_LINE {
        return Err(Why::Long);
    }
    if line.push(byte).is_err() {
        return Err(Why::Memory);
    }
    Ok(())
}

/// The fault of the line after so many lines.
fn stop(lines: u64, why: Why) -> Fault
    ensures { result ≡ record { line = min (lines + 1) (2 ^ 64 - 1); why = why } }
{
    Fault {
        line: one_more(lines),
        why,
    }
}

impl Audit {
    /// An audit that has read nothing.
    pub fn new(alloc: Global) -> Audit
        ensures { IsRead [] (record { events = []; left = []; since = None }) result.hearing result.line.items result.lines }
    {
        Audit {
            hearing: Hearing::new(alloc),
            line: Vec::new(alloc),
            lines: 0,
        }
    }

    /// An audit that goes on from a rest: what it reads comes after the text of the history that was at rest. Fails as
    /// [`Hearing::over`] does.
    pub fn over(alloc: Global, rest: Rest) -> Result<Audit, Unfit>
        ensures { (text : List ℕ) (past : List Stamped) → IsTextOf text past → IsRestOf past rest
            → IfOk result (λ audit. IsRead text (record { events = past; left = []; since = rest.last })
            audit.hearing audit.line.items audit.lines) }
    {
        let lines = rest.events;
        match Hearing::over(alloc, rest) {
            Ok(hearing) => Ok(Audit {
                hearing,
                line: Vec::new(alloc),
                lines,
            }),
            Err(unfit) => Err(unfit),
        }
    }

    /// The number of the line that has no line feed yet, if there is one.
    pub fn torn(&self) -> Option<u64>
        ensures { (text : List ℕ) (heard : Heard) → IsRead text heard self.now.hearing self.now.line.items self.now.lines
            → IsTorn text result }
    {
        if self.line.len() == 0 {
            return None;
        }
        Some(one_more(self.lines))
    }

    /// What is known of the history, if it is at rest, so that the next one can go on from it. Fails with
    /// [`Restless::Line`] if the last line has no line feed, and else as [`Hearing::rest`] does.
    pub fn rest(self, alloc: Global) -> Result<Rest, Restless>
        ensures { (text : List ℕ) (heard : Heard) → IsRead text heard self.hearing self.line.items self.lines
            → RestsText text heard self.line.items result }
    {
        let Audit {
            hearing,
            line,
            lines: _,
        } = self;
        let open = line.as_slice();
        if open.len() == 0 {
            return hearing.rest(alloc);
        }
        Err(Restless::Line)
    }

    /// Reads the next bytes; any number may be passed. Fails with the first line at fault, as soon as its line feed is
    /// read, or the byte by which it is too long. The audit is dropped then.
    pub fn read(self, alloc: Global, bytes: &[u8]) -> Result<Audit, Fault>
        ensures { (text : List ℕ) (heard : Heard) → IsRead text heard self.hearing self.line.items self.lines
            → AuditReads text bytes.now result }
    {
        let Audit {
            mut hearing,
            mut line,
            mut lines,
        } = self;
        for place in 0..bytes.len() {
            let byte = bytes[place];
            if byte == 10 {
                match hear_line(alloc, hearing, line.as_slice()) {
                    Ok(next) => hearing = next,
                    Err(why) => {
                        return Err(Fault {
                            line: one_more(lines),
                            why,
                        });
                    }
                }
                line.clear();
                lines = one_more(lines);
                continue;
            }
            if let Err(why) = grow(&mut line, byte) {
                return Err(stop(lines, why));
            }
        }
        Ok(Audit {
            hearing,
            line,
            lines,
        })
    }

    /// The hearing of the finished lines.
    pub fn hearing(&self) -> &Hearing
        ensures { result.now ≡ self.now.hearing }
    {
        &self.hearing
    }

    /// Returns the verdict on the whole text. Its last line needs no line feed.
    pub fn end(self, alloc: Global) -> Result<Verdict, Fault>
        ensures { (text : List ℕ) (heard : Heard) → IsRead text heard self.hearing self.line.items self.lines
            → Concludes text result }
    {
        let Audit {
            hearing,
            line,
            lines,
        } = self;
        let open = line.as_slice();
        if open.len() == 0 {
            return conclude(&hearing, lines);
        }
        match hear_line(alloc, hearing, open) {
            Ok(hearing) => conclude(&hearing, one_more(lines)),
            Err(why) => Err(Fault {
                line: one_more(lines),
                why,
            }),
        }
    }
}
