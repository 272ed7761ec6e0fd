//! Running a script, and printing what happened.

ghost use Rattle.std.specs.Prelude.{◌≡◌, ◌≢◌, ◌⊎◌, IfOk, OnOk, IfErr};
ghost use Rattle.pt_report.specs.Reports.{Reports, ReportsLeft, HasWrittenOf, IsRefusedAs};
ghost use Rattle.pt_report.specs.declared.fault.ReportFault.TheVariants.{File};

use crate::chart::print_chart;
use crate::explained::summarize;
use crate::fault::ReportFault;
use crate::form::Form;
use crate::history::print_history;
use crate::pages::{print_page, print_steps};
use crate::running::run_script;
use crate::watching::Counting;
use pt_render::{Options, Show, Unwatched, Watch};
use pt_script::Script;
use std::alloc::Global;
use std::io::Write;
use std::thread::Threads;

/// Reads a script from its bytes, runs it as the options say, and prints what happened.
///
/// On `Ok` the whole text was written and the writer flushed. The text is the history in the form that the options ask
/// for, the summary or the chart of a node. The node has the script's settings, was run and then gathered. Each of its
/// desks took all the turns that the options ask for, with the script's budget, and before each of them a step of the
/// script's operations. In a chart and in a page each process has its name of the script. In a summary that is to be explained, a
/// line after each process says what it is doing, or why it exited. What `Mode::Single` prints is the same each time.
///
/// This holds for each epoch that the options ask for. Between two epochs the node is gathered, settled and resumed
/// with empty journals, and the processes of the script continue from their places. The history and the chart have the
/// events of all epochs, in order, and so have the steps and the page. The summary is that of the last.
///
/// Fails with `Script` if the bytes are no script, with the first fault and its place. Fails with `Desk` if a process
/// that the script begins with found no free slot on its desk (`Full`). Fails with `Desk` too if a clock is at its
/// limit (`Worn`), there or when the node is settled, between epochs or for a summary. Fails with `Memory` if there was
/// none. The writer is then as it was. If the history of more than one epoch is printed by lines, it has the lines of
/// the epochs that had passed. Fails with `File` exactly if the writer failed; some of the text may have been written.
pub fn report<R: Threads + Sync, W: Write>(
    rt: &R,
    alloc: Global,
    options: &Options,
    script: &[u8],
    out: &mut W,
) -> Result<(), ReportFault>
    ensures text { OnOk result (Reports script.now options.now (W.contents out.old) (W.contents out.new)) }
    ensures refused { IfErr result (IsRefusedAs script.now options.now) }
    ensures untouched { IfErr result (λ f. f ≢ File → (out.new ≡ out.old)
        ⊎ HasWrittenOf script.now options.now (W.contents out.old) (W.contents out.new)) }
{
    let mut left = 0;
    run_and_report(
        rt,
        alloc,
        options,
        script,
        &Counting(&Unwatched),
        out,
        &mut left,
    )
}

/// Reports as [`report`] does, and returns the number of processes that have operations left: 0 if the run is at rest.
/// Meanwhile the watch hears of each turn of a desk, and then of each event that is printed or judged, or part that is drawn. A
/// pause between two epochs counts as a turn.
///
/// A run is at rest if no letter is in flight, and each process has seen all that happened in the last turn. Each
/// process must also have exited, or wait for an item that has not arrived. Else all live processes of the script are
/// counted.
pub fn report_left<R: Threads + Sync, P: Watch + Sync, W: Write>(
    rt: &R,
    alloc: Global,
    options: &Options,
    script: &[u8],
    watch: &P,
    out: &mut W,
) -> Result<u64, ReportFault>
    ensures text { IfOk result
        (λ left. ReportsLeft left script.now options.now (W.contents out.old) (W.contents out.new)) }
    ensures refused { IfErr result (IsRefusedAs script.now options.now) }
    ensures untouched { IfErr result (λ f. f ≢ File → (out.new ≡ out.old)
        ⊎ HasWrittenOf script.now options.now (W.contents out.old) (W.contents out.new)) }
{
    let mut left = 0;
    run_and_report(rt, alloc, options, script, &Counting(watch), out, &mut left)?;
    Ok(left)
}

/// Reads a script, runs it, prints what happened, and notes how many processes have operations left.
#[tactic(auto, using(crate::proofs::Faults::of_run, crate::proofs::Faults::of_print, crate::proofs::Faults::of_summary))]
fn run_and_report<R: Threads + Sync, P: Watch + Sync, W: Write>(
    rt: &R,
    alloc: Global,
    options: &Options,
    script: &[u8],
    gate: &Counting<'_, P>,
    out: &mut W,
    left: &mut u64,
) -> Result<(), ReportFault>
    ensures text { OnOk result
        (ReportsLeft left.new script.now options.now (W.contents out.old) (W.contents out.new)) }
    ensures refused { IfErr result (IsRefusedAs script.now options.now) }
    ensures untouched { IfErr result (λ f. f ≢ File → (out.new ≡ out.old)
        ⊎ HasWrittenOf script.now options.now (W.contents out.old) (W.contents out.new)) }
{
    let read = Script::from_bytes(alloc, script)?;
    let mut kept = Vec::new(alloc);
    let (gathered, runners, behind) = run_script(rt, alloc, options, &read, gate, &mut kept, out)?;
    *left = behind;
    let staff = runners.as_slice();
    match options.print {
        Show::Summary => summarize(alloc, options.explain, script, &read, staff, gathered, out),
        Show::History => print_history(Form::Lines, kept, &gathered, gate.0, out),
        Show::Mermaid => print_history(Form::Diagram, kept, &gathered, gate.0, out),
        Show::Json => print_history(Form::Objects, kept, &gathered, gate.0, out),
        Show::Chart => print_chart(alloc, script, staff, kept, &gathered, gate.0, out),
        Show::Steps => print_steps(alloc, kept, &gathered, gate.0, out),
        Show::Page => print_page(alloc, script, staff, kept, &gathered, gate.0, out),
    }
}
