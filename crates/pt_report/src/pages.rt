//! A history with what each event changed: by lines, or as a page for a browser.

ghost use Rattle.std.specs.Prelude.{◌≡◌, ◌≢◌, ◌++◌, [], IfOk, OnOk, IfErr, List, map, reverse};
ghost use Rattle.std.specs.Io.KnownBytes.{Appends};
ghost use Rattle.pt_events.specs.Journal.{IsMerge};
ghost use Rattle.pt_events.specs.declared.event.Stamped.{Stamped};
ghost use Rattle.pt_gathered.specs.Gathered.{journals};
ghost use Rattle.pt_gathered.specs.LeftOvers.{all_left};
ghost use Rattle.pt_chart.specs.Drawing.{called_given};
ghost use Rattle.pt_render.specs.Pages.{page_text, step_told, steps_after, steps_text};
ghost use Rattle.pt_script.specs.Called.{names_in};
ghost use Rattle.pt_report.specs.Called as spec;
ghost use Rattle.pt_report.specs.Status.{IsOfPrint};
ghost use Rattle.pt_report.specs.declared.fault.ReportFault.TheVariants.{File};

use crate::called::called_by;
use crate::fault::ReportFault;
use crate::history::all_events;
use pt_chart::Called;
use pt_node::{Gathered, LeftOver, Stamped};
use pt_render::{Step, Watch, steps_watched, write_page, write_steps};
use pt_runner::Runner;
use pt_script::process_names;
use std::alloc::{AllocError, Global};
use std::io;
use std::io::Write;

/// Prints the events of epochs and of the last one's node as JSON, each with what it changed, and the letters left over.
pub(crate) fn print_steps<P: Watch, W: Write>(
    alloc: Global,
    kept: Vec<Stamped>,
    gathered: &Gathered,
    watch: &P,
    out: &mut W,
) -> Result<(), ReportFault>
    ensures text { OnOk result
        ((h : List Stamped) × IsMerge (journals gathered.now) (reverse h)
        × Appends (W.contents out.old) (W.contents out.new)
        (steps_text (steps_after [] (kept.items ++ h)) (all_left gathered.now))) }
    ensures fault { IfErr result IsOfPrint }
    ensures untouched { IfErr result (λ f. f ≢ File → out.new ≡ out.old) }
{
    let events = all_events(kept, gathered)?;
    let letters = gathered.left_over()?;
    let told = told_of(alloc, events.as_slice(), watch)?;
    match write_lines(out, told.as_slice(), letters.as_slice()) {
        Ok(()) => Ok(()),
        Err(_) => Err(ReportFault::File),
    }
}

/// Prints the page of the histories of epochs and of the last one's node, which these runners ran. The processes have
/// their names of the script's bytes.
pub(crate) fn print_page<P: Watch, W: Write>(
    alloc: Global,
    script: &[u8],
    runners: &[Runner<'_>],
    kept: Vec<Stamped>,
    gathered: &Gathered,
    watch: &P,
    out: &mut W,
) -> Result<(), ReportFault>
    ensures text { OnOk result
        ((h : List Stamped) × IsMerge (journals gathered.now) (reverse h)
        × Appends (W.contents out.old) (W.contents out.new)
        (page_text (steps_after [] (kept.items ++ h)) (all_left gathered.now)
        (spec.called_by (names_in script.now) runners.now))) }
    ensures fault { IfErr result IsOfPrint }
    ensures untouched { IfErr result (λ f. f ≢ File → out.new ≡ out.old) }
{
    let events = all_events(kept, gathered)?;
    let letters = gathered.left_over()?;
    let told = told_of(alloc, events.as_slice(), watch)?;
    print_named(
        alloc,
        script,
        runners,
        told.as_slice(),
        letters.as_slice(),
        out,
    )
}

/// What each event changed. The history of a node is legal, so memory is all that can be wanting.
fn told_of<P: Watch>(alloc: Global, events: &[Stamped], watch: &P) -> Result<Vec<Step>, AllocError>
    ensures { IfOk result (λ list. map step_told list.items ≡ steps_after [] events.now) }
{
    match steps_watched(alloc, events, watch) {
        Ok(list) => Ok(list),
        Err(_) => Err(AllocError),
    }
}

/// Prints the page of events and letters, with the names of the script's processes.
fn print_named<W: Write>(
    alloc: Global,
    script: &[u8],
    runners: &[Runner<'_>],
    told: &[Step],
    letters: &[LeftOver],
    out: &mut W,
) -> Result<(), ReportFault>
    ensures text { OnOk result (Appends (W.contents out.old) (W.contents out.new)
        (page_text (map step_told told.now) letters.now (spec.called_by (names_in script.now) runners.now))) }
    ensures fault { IfErr result IsOfPrint }
    ensures untouched { IfErr result (λ f. f ≢ File → out.new ≡ out.old) }
{
    let names = process_names(alloc, script)?;
    let called = called_by(alloc, names.as_slice(), runners)?;
    match write_whole(out, told, letters, called.as_slice()) {
        Ok(()) => Ok(()),
        Err(_) => Err(ReportFault::File),
    }
}

/// Writes the lines, and flushes the writer.
#[tactic(auto, using(crate::proofs::Writing::appends_keeps))]
fn write_lines<W: Write>(out: &mut W, told: &[Step], letters: &[LeftOver]) -> io::Result<()>
    ensures { OnOk result (Appends (W.contents out.old) (W.contents out.new)
        (steps_text (map step_told told.now) letters.now)) }
{
    write_steps(out, told, letters)?;
    out.flush()
}

/// Writes the page, and flushes the writer.
#[tactic(auto, using(crate::proofs::Writing::appends_keeps))]
fn write_whole<W: Write>(
    out: &mut W,
    told: &[Step],
    letters: &[LeftOver],
    called: &[Called<'_>],
) -> io::Result<()>
    ensures { OnOk result (Appends (W.contents out.old) (W.contents out.new)
        (page_text (map step_told told.now) letters.now (map called_given called.now))) }
{
    write_page(out, told, letters, called)?;
    out.flush()
}
