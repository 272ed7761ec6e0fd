//! The chart of a history.

ghost use Rattle.std.specs.Prelude.{◌≡◌, ◌≢◌, ℕ, ◌++◌, IfOk, OnOk, IfErr, List, reverse, string_bytes};
ghost use Rattle.std.specs.Io.KnownBytes.{Appends};
ghost use Rattle.pt_events.specs.Journal.{IsMerge};
ghost use Rattle.pt_events.specs.declared.event.Stamped.{Stamped};
ghost use Rattle.pt_chart.specs.Drawing.{IsChart};
ghost use Rattle.pt_gathered.specs.Gathered.{journals};
ghost use Rattle.pt_script.specs.Called.{names_in};
ghost use Rattle.pt_report.specs.Called.{called_by};
ghost use Rattle.pt_report.specs.Status.{IsOfPrint};
ghost use Rattle.pt_report.specs.declared.fault.ReportFault.TheVariants.{File};

use crate::called::called_by;
use crate::fault::ReportFault;
use crate::history::all_events;
use pt_chart::chart_watched;
use pt_node::{Gathered, Stamped};
use pt_render::Watch;
use pt_runner::Runner;
use pt_script::process_names;
use std::alloc::{AllocError, Global};
use std::io;
use std::io::Write;

/// Prints the chart of the histories of epochs and of the last one's node, which these runners ran. The processes have
/// their names of the script's bytes.
pub(crate) fn print_chart<P: Watch, W: Write>(
    alloc: Global,
    script: &[u8],
    runners: &[Runner<'_>],
    kept: Vec<Stamped>,
    gathered: &Gathered,
    watch: &P,
    out: &mut W,
) -> Result<(), ReportFault>
    ensures text { OnOk result
        ((h : List Stamped) × IsMerge (journals gathered.now) (reverse h) × (text : List ℕ)
        × IsChart (kept.items ++ h) (called_by (names_in script.now) runners.now) text
        × Appends (W.contents out.old) (W.contents out.new) text) }
    ensures fault { IfErr result IsOfPrint }
    ensures untouched { IfErr result (λ f. f ≢ File → out.new ≡ out.old) }
{
    let events = all_events(kept, gathered)?;
    let drawing = drawing_of(alloc, script, runners, events.as_slice(), watch)?;
    match write_text(out, drawing.as_str()) {
        Ok(()) => Ok(()),
        Err(_) => Err(ReportFault::File),
    }
}

/// The chart of these events.
fn drawing_of<P: Watch>(
    alloc: Global,
    script: &[u8],
    runners: &[Runner<'_>],
    events: &[Stamped],
    watch: &P,
) -> Result<String, AllocError>
    ensures { IfOk result
        (λ text. IsChart events.now (called_by (names_in script.now) runners.now) (string_bytes text)) }
{
    let names = process_names(alloc, script)?;
    let called = called_by(alloc, names.as_slice(), runners)?;
    chart_watched(alloc, events, called.as_slice(), watch)
}

/// Writes a text, and flushes the writer.
fn write_text<W: Write>(out: &mut W, text: &str) -> io::Result<()>
    ensures { OnOk result (Appends (W.contents out.old) (W.contents out.new) text.now) }
{
    out.write_all(text.as_bytes())?;
    out.flush()
}
