//! The epochs of a run: between two of them the node is settled, and resumed with empty journals.

ghost use Rattle.std.specs.Prelude.{◌≡◌, ◌≢◌, ◌⊎◌, ◌-◌, ◌++◌, [], List, OnOk, IfOk, IfErr};
ghost use Rattle.std.specs.Io.KnownBytes.{Appends};
ghost use Rattle.pt_events.specs.declared.event.Stamped.{Stamped};
ghost use Rattle.pt_gathered.specs.Gathered.{GatheredState};
ghost use Rattle.pt_gathered.specs.Settling.{NothingLeft, Settles};
ghost use Rattle.pt_node.specs.Gathering.{Gathers};
ghost use Rattle.pt_report.specs.Epochs as spec;
ghost use Rattle.pt_report.specs.Epochs.{BeginAgain, CanBegin, EndsEpoch, HasWritten, IsOfEnd, IsOfEpoch, IsOfEpochs, PassEpochs};
ghost use Rattle.pt_report.specs.Epochs.{PassesEpoch};
ghost use Rattle.pt_report.specs.Lines.{lines};
ghost use Rattle.pt_report.specs.Status.{IsOfPrint};
ghost use Rattle.pt_report.specs.declared.fault.ReportFault.TheVariants.{File};

use crate::fault::ReportFault;
use crate::form::Form;
use crate::history::write_events;
use crate::running::run_epoch;
use crate::watching::Counting;
use pt_node::{Node, Settled, Stamped};
use pt_render::{Options, Show, Unwatched, Watch};
use pt_runner::Runner;
use std::alloc::Global;
use std::io;
use std::io::Write;
use std::thread::Threads;

/// Runs all epochs but the last. As the options say, it writes the history of each as it ends, or keeps it after those
/// before it.
pub(crate) fn pass_epochs<R: Threads + Sync, P: Watch + Sync, W: Write>(
    rt: &R,
    alloc: Global,
    options: &Options,
    budget: u32,
    node: Node,
    runners: &mut Vec<Runner<'_>>,
    gate: &Counting<'_, P>,
    kept: &mut Vec<Stamped>,
    out: &mut W,
) -> Result<Node, ReportFault>
    requires begins { CanBegin node runners.old.items }
    requires empty { kept.old.items ≡ [] }
    ensures passed { IfOk result (λ next. (histories : List Stamped)
        × PassEpochs options.now budget (options.now.epochs - 1) (node, runners.old.items) histories
        (next, runners.new.items)
        × spec.AreAt W.contents options.now.print histories out.old kept.new.items out.new) }
    ensures fault { IfErr result (IsOfEpochs options.now budget (node, runners.old.items)) }
    ensures told { OnOk result ((out.new ≡ out.old)
        ⊎ HasWritten options.now budget (node, runners.old.items) (W.contents out.old) (W.contents out.new)) }
    ensures untouched { IfErr result (λ f. f ≢ File → (out.new ≡ out.old)
        ⊎ HasWritten options.now budget (node, runners.old.items) (W.contents out.old) (W.contents out.new)) }
{
    let mut node = node;
    let before = options.epochs.saturating_sub(1);
    for _epoch in 0..before {
        node = next_epoch(rt, alloc, options, budget, node, runners, gate, kept, out)?;
    }
    Ok(node)
}

/// Runs one epoch, and writes or keeps its history as the options say.
fn next_epoch<R: Threads + Sync, P: Watch + Sync, W: Write>(
    rt: &R,
    alloc: Global,
    options: &Options,
    budget: u32,
    node: Node,
    runners: &mut Vec<Runner<'_>>,
    gate: &Counting<'_, P>,
    kept: &mut Vec<Stamped>,
    out: &mut W,
) -> Result<Node, ReportFault>
    requires { CanBegin node runners.old.items }
    ensures passed { IfOk result (λ next. (history : List Stamped)
        × PassesEpoch options.now budget (node, runners.old.items) history (next, runners.new.items)
        × ((histories : List Stamped) (first : W)
        → spec.AreAt W.contents options.now.print histories first kept.old.items out.old
        → spec.AreAt W.contents options.now.print (histories ++ history) first kept.new.items out.new)) }
    ensures fault { IfErr result
        (λ f. IsOfPrint f ⊎ IsOfEpoch options.now budget (node, runners.old.items) f) }
    ensures untouched { IfErr result (λ f. f ≢ File → out.new ≡ out.old) }
{
    let (next, history) = pass_epoch(rt, alloc, options, budget, node, runners, gate)?;
    put(options.print, history.as_slice(), kept, out)?;
    gate.0.count();
    Ok(next)
}

/// Runs one epoch, and returns its history.
fn pass_epoch<R: Threads + Sync, P: Watch + Sync>(
    rt: &R,
    alloc: Global,
    options: &Options,
    budget: u32,
    node: Node,
    runners: &mut Vec<Runner<'_>>,
    gate: &Counting<'_, P>,
) -> Result<(Node, Vec<Stamped>), ReportFault>
    requires { CanBegin node runners.old.items }
    ensures passes { IfOk result
        (λ r. PassesEpoch options.now budget (node, runners.old.items) r.1.items (r.0, runners.new.items)) }
    ensures fault { IfErr result (IsOfEpoch options.now budget (node, runners.old.items)) }
{
    let mut node = node;
    run_epoch(rt, options, budget, &mut node, runners, gate)?;
    let ended = end_epoch(alloc, node)?;
    begin_again(runners);
    Ok(ended)
}

/// Lets every runner begin again over its desk, which was resumed.
fn begin_again(runners: &mut Vec<Runner<'_>>)
    ensures { BeginAgain runners.old.items runners.new.items }
{
    for index in 0..runners.len() {
        runners[index].begin_again();
    }
}

/// Ends an epoch: the node is gathered, settled and resumed with empty journals, in the directory that it has. It returns
/// what they had.
fn end_epoch(alloc: Global, node: Node) -> Result<(Node, Vec<Stamped>), ReportFault>
    ensures ends { IfOk result (λ r. EndsEpoch node r.1.items r.0) }
    ensures fault { IfErr result (IsOfEnd node) }
{
    let settled = settle(node)?;
    let history = settled.history()?;
    match Node::resume_settled(alloc, settled) {
        Ok(next) => Ok((next, history)),
        Err(_settled) => Err(ReportFault::Memory),
    }
}

/// Gathers and settles the node.
fn settle(node: Node) -> Result<Settled, ReportFault>
    ensures settles { IfOk result (λ settled. (gathered : GatheredState) × Gathers node gathered
        × Settles gathered settled.gathered) }
    ensures nothing_left { IfOk result (λ settled. NothingLeft settled.gathered) }
    ensures fault { IfErr result (IsOfEnd node) }
{
    let Ok(gathered) = node.gather() else {
        return Err(ReportFault::Memory);
    };
    match gathered.settle_unlisted() {
        Ok(settled) => Ok(settled),
        Err(unsettled) => Err(ReportFault::from(unsettled.fault)),
    }
}

/// Writes the history of an epoch, or keeps it after those before it, as the options say.
fn put<W: Write>(
    print: Show,
    history: &[Stamped],
    kept: &mut Vec<Stamped>,
    out: &mut W,
) -> Result<(), ReportFault>
    ensures at { OnOk result
        ((histories : List Stamped) (first : W)
        → spec.AreAt W.contents print histories first kept.old.items out.old
        → spec.AreAt W.contents print (histories ++ history.now) first kept.new.items out.new) }
    ensures fault { IfErr result IsOfPrint }
    ensures untouched { IfErr result (λ f. f ≢ File → out.new ≡ out.old) }
{
    match print {
        Show::History => write_epoch(out, Form::Lines, history),
        Show::Json => write_epoch(out, Form::Objects, history),
        Show::Chart | Show::Mermaid | Show::Steps | Show::Page => {
            kept.extend_from_slice(history)?;
            Ok(())
        }
        Show::Summary => Ok(()),
    }
}

/// Writes the events of an epoch, and flushes the writer.
fn write_epoch<W: Write>(out: &mut W, form: Form, events: &[Stamped]) -> Result<(), ReportFault>
    ensures text { OnOk result (Appends (W.contents out.old) (W.contents out.new) (lines form events.now)) }
    ensures fault { IfErr result (λ f. f ≡ File) }
{
    match write_all(out, form, events) {
        Ok(()) => Ok(()),
        Err(_) => Err(ReportFault::File),
    }
}

#[tactic(auto, using(crate::proofs::Writing::appends_keeps))]
fn write_all<W: Write>(out: &mut W, form: Form, events: &[Stamped]) -> io::Result<()>
    ensures { OnOk result (Appends (W.contents out.old) (W.contents out.new) (lines form events.now)) }
{
    write_events(out, form, events, &Unwatched)?;
    out.flush()
}
