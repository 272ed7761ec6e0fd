//! The lines of an explained summary.

ghost use Rattle.std.specs.Prelude.{◌≡◌, ◌≢◌, ℕ, ◌++◌, codes, List, Option, OnOk, IfOk, IfErr};
ghost use Rattle.std.specs.Io.KnownBytes.{Appends};
ghost use Rattle.pt_accounts.specs.LivesState.{InEveryMerge};
ghost use Rattle.pt_gathered.specs.Gathered.{begins, journals};
ghost use Rattle.pt_report.specs.Lines.{totals_text};
ghost use Rattle.pt_report.specs.Summaries.{AppendsNotes, AreNotesOf, Explains, SummarizesAs, first_line, noted_line};
ghost use Rattle.pt_report.specs.Reports.{IsOfSummary};
ghost use Rattle.pt_report.specs.declared.fault.ReportFault.TheVariants.{File};

use crate::ending::Endings;
use crate::fault::ReportFault;
use crate::notes::{Note, Sources, notes_of, numbers_of};
use crate::summary::{print_summary, settled_of, write_account};
use crate::totals::Totals;
use pt_node::{Gathered, Quiet};
use pt_runner::Runner;
use pt_script::{Script, process_names};
use std::alloc::{AllocError, Global};
use std::io;
use std::io::Write;

/// Settles a node and prints what became of its processes. With `explain`, a note follows the line of each: what it is
/// doing, or why it exited.
pub(crate) fn summarize<W: Write>(
    alloc: Global,
    explain: bool,
    bytes: &[u8],
    script: &Script,
    runners: &[Runner<'_>],
    gathered: Gathered,
    out: &mut W,
) -> Result<(), ReportFault>
    ensures text { OnOk result (SummarizesAs explain gathered (W.contents out.old) (W.contents out.new)) }
    ensures fault { IfErr result (IsOfSummary gathered) }
    ensures untouched { IfErr result (λ f. f ≢ File → out.new ≡ out.old) }
{
    if explain {
        print_explained(alloc, bytes, script, runners, gathered, out)
    } else {
        print_summary(gathered, out)
    }
}

/// Settles a node and prints what became of its processes, with a note after each.
fn print_explained<W: Write>(
    alloc: Global,
    bytes: &[u8],
    script: &Script,
    runners: &[Runner<'_>],
    gathered: Gathered,
    out: &mut W,
) -> Result<(), ReportFault>
    ensures text { OnOk result (Explains gathered (W.contents out.old) (W.contents out.new)) }
    ensures fault { IfErr result (IsOfSummary gathered) }
    ensures untouched { IfErr result (λ f. f ≢ File → out.new ≡ out.old) }
{
    let (quiet, totals) = settled_of(gathered)?;
    let notes = notes_on(alloc, bytes, script, runners, &quiet)?;
    match write_explained(out, &quiet, notes.as_slice(), totals) {
        Ok(()) => Ok(()),
        Err(_) => Err(ReportFault::File),
    }
}

/// A note for each process ever spawned.
fn notes_on(
    alloc: Global,
    bytes: &[u8],
    script: &Script,
    runners: &[Runner<'_>],
    quiet: &Quiet,
) -> Result<Vec<Note>, AllocError>
    ensures { IfOk result (λ notes. AreNotesOf quiet.now notes.items) }
{
    let names = process_names(alloc, bytes)?;
    let numbers = numbers_of(alloc, runners)?;
    let history = quiet.history()?;
    let endings = Endings::of(alloc, history.as_slice())?;
    let sources = Sources {
        script,
        names: names.as_slice(),
        runners,
        numbers: &numbers,
        endings: &endings,
    };
    notes_from(alloc, sources, quiet)
}

/// The same, from these sources.
fn notes_from(
    alloc: Global,
    sources: Sources<'_, '_>,
    quiet: &Quiet,
) -> Result<Vec<Note>, AllocError>
    ensures { IfOk result (λ notes. AreNotesOf quiet.now notes.items) }
{
    notes_of(alloc, sources, quiet, quiet.pids())
}

/// Writes two lines for each process, then the totals, and flushes the writer.
fn write_explained<W: Write>(
    out: &mut W,
    quiet: &Quiet,
    notes: &[Note],
    totals: Totals,
) -> io::Result<()>
    ensures { OnOk result ((mid : Option (List ℕ)) × AppendsNotes quiet.now notes.now (W.contents out.old) mid
        × Appends mid (W.contents out.new) (totals_text totals ++ codes "\n")) }
{
    write_notes(out, quiet, notes)?;
    writeln!(out, "{totals}")?;
    out.flush()
}

/// Writes two lines for each process.
#[tactic(auto, using(crate::proofs::Accounts::next_notes))]
fn write_notes<W: Write>(out: &mut W, quiet: &Quiet, notes: &[Note]) -> io::Result<()>
    ensures { OnOk result (AppendsNotes quiet.now notes.now (W.contents out.old) (W.contents out.new)) }
{
    for note in notes {
        write_note(out, quiet, note)?;
    }
    Ok(())
}

/// Writes the line of a process, and its note after it.
fn write_note<W: Write>(out: &mut W, quiet: &Quiet, note: &Note) -> io::Result<()>
    ensures { OnOk result
        (InEveryMerge (journals quiet.now.gathered)
        (λ past.
        Appends (W.contents out.old) (W.contents out.new) (noted_line (begins quiet.now.gathered) past note.now))) }
{
    write_account(out, quiet, note.pid)?;
    let line = first_line(note.text.as_str());
    writeln!(out, "  {line}")
}

/// The first line of a text: a note is one line, even if a name or word of the script has more.
fn first_line(text: &str) -> &str
    ensures { result.now ≡ first_line text.now }
{
    match text.split_once('\n') {
        Some((line, _rest)) => line,
        None => text,
    }
}
