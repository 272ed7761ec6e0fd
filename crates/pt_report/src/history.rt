//! The lines of a history.

ghost use Rattle.std.specs.Prelude.{◌≡◌, ◌≢◌, ◌++◌, IfOk, OnOk, IfErr, List, reverse};
ghost use Rattle.std.specs.Io.KnownBytes.{Appends};
ghost use Rattle.pt_events.specs.Journal.{IsMerge};
ghost use Rattle.pt_events.specs.declared.event.Stamped.{Stamped};
ghost use Rattle.pt_gathered.specs.Gathered.{journals};
ghost use Rattle.pt_gathered.specs.LeftOvers.{all_left};
ghost use Rattle.pt_report.specs.Lines.{lines, left_lines, history_text};
ghost use Rattle.pt_report.specs.Status.{IsOfPrint};
ghost use Rattle.pt_report.specs.declared.fault.ReportFault.TheVariants.{File};

use crate::fault::ReportFault;
use crate::form::{Form, write_event, write_head, write_letter};
use pt_node::{Gathered, LeftOver, Stamped};
use pt_render::{Watch, Work};
use std::alloc::AllocError;
use std::io;
use std::io::Write;

/// Prints, in this form, the histories of epochs and of the last one's node, and the letters left over.
pub(crate) fn print_history<P: Watch, W: Write>(
    form: Form,
    kept: Vec<Stamped>,
    gathered: &Gathered,
    watch: &P,
    out: &mut W,
) -> Result<(), ReportFault>
    ensures text { OnOk result
        ((h : List Stamped) × IsMerge (journals gathered.now) (reverse h)
        × Appends (W.contents out.old) (W.contents out.new)
        (history_text form (kept.items ++ h) (all_left gathered.now))) }
    ensures fault { IfErr result IsOfPrint }
    ensures untouched { IfErr result (λ f. f ≢ File → out.new ≡ out.old) }
{
    let events = all_events(kept, gathered)?;
    let letters = gathered.left_over()?;
    match write_history(out, form, events.as_slice(), letters.as_slice(), watch) {
        Ok(()) => Ok(()),
        Err(_) => Err(ReportFault::File),
    }
}

/// The events that were kept, and those of the node.
pub(crate) fn all_events(
    kept: Vec<Stamped>,
    gathered: &Gathered,
) -> Result<Vec<Stamped>, AllocError>
    ensures { IfOk result (λ all. (h : List Stamped) × IsMerge (journals gathered.now) (reverse h)
        × (all.items ≡ kept.items ++ h)) }
{
    let events = gathered.history()?;
    let mut kept = kept;
    if kept.is_empty() {
        return Ok(events);
    }
    kept.extend_from_slice(events.as_slice())?;
    Ok(kept)
}

/// Writes the events, then the letters left over, and flushes the writer.
#[tactic(auto, using(crate::proofs::Writing::appends_then, crate::proofs::Writing::appends_keeps))]
fn write_history<P: Watch, W: Write>(
    out: &mut W,
    form: Form,
    events: &[Stamped],
    letters: &[LeftOver],
    watch: &P,
) -> io::Result<()>
    ensures { OnOk result
        (Appends (W.contents out.old) (W.contents out.new) (history_text form events.now letters.now)) }
{
    watch.begin(Work::Print, Some(events.len() as u64));
    write_head(out, form)?;
    write_events(out, form, events, watch)?;
    write_letters(out, form, letters)?;
    out.flush()
}

/// Writes one line for each event, of which the watch hears.
pub(crate) fn write_events<P: Watch, W: Write>(
    out: &mut W,
    form: Form,
    events: &[Stamped],
    watch: &P,
) -> io::Result<()>
    ensures { OnOk result (Appends (W.contents out.old) (W.contents out.new) (lines form events.now)) }
{
    for event in events {
        write_event(out, form, *event)?;
        watch.count();
    }
    Ok(())
}

/// Writes one line for each letter.
fn write_letters<W: Write>(out: &mut W, form: Form, letters: &[LeftOver]) -> io::Result<()>
    ensures { OnOk result (Appends (W.contents out.old) (W.contents out.new) (left_lines form letters.now)) }
{
    for letter in letters {
        write_letter(out, form, *letter)?;
    }
    Ok(())
}
