//! Running a script.

ghost use Rattle.std.specs.Prelude.{◌≡◌, ◌≢◌, ◌⊎◌, ◌-◌, [], ◌==◌, ◌&&◌, cond, length, List, true, OnOk, IfOk, IfErr};
ghost use Rattle.pt_events.specs.declared.event.Stamped.{Stamped};
ghost use Rattle.pt_gathered.specs.LeftOvers.{all_left};
ghost use Rattle.pt_report.specs.Epochs as spec;
ghost use Rattle.pt_report.specs.Epochs.{CanBegin, HasWritten, IsLeft, NothingCanHappen, RunsAndRests, RunsEpoch, RunsOn};
ghost use Rattle.pt_report.specs.Epochs.{RunsUntilQuiet, Staffed};
ghost use Rattle.pt_report.specs.Reports.{RunIsBegun, IsOfRun, IsRun};
ghost use Rattle.pt_report.specs.declared.fault.ReportFault.TheVariants.{File, Memory};

use crate::epochs::pass_epochs;
use crate::fault::ReportFault;
use crate::watching::{Counting, turns_of};
use pt_node::{Desk, Gathered, Node, Stamped, abandon, open};
use pt_render::{MOST_TURNS, Mode, Options, Until, Watch, Work};
use pt_runner::{Runner, are_idle};
use pt_script::Script;
use std::alloc::{AllocError, Global};
use std::io::Write;
use std::thread::Threads;

/// The node of a script, run as the options say and gathered in its last epoch, the runners that ran it, and how many
/// processes have operations left. The histories of the epochs before are in the writer or kept, as the options say.
#[tactic(auto, using(crate::proofs::Faults::told_of_start))]
pub(crate) fn run_script<'a, R: Threads + Sync, P: Watch + Sync, W: Write>(
    rt: &R,
    alloc: Global,
    options: &Options,
    script: &'a Script,
    gate: &Counting<'_, P>,
    kept: &mut Vec<Stamped>,
    out: &mut W,
) -> Result<(Gathered, Vec<Runner<'a>>, u64), ReportFault>
    requires { kept.old.items ≡ [] }
    ensures node { IfOk result (λ r. (histories : List Stamped)
        × (run : IsRun (options.now.epochs - 1) options.now script.now histories r.0 r.1.items)
        × spec.AreAt W.contents options.now.print histories out.old kept.new.items out.new
        × IsLeft run.0.ran r.0 r.2) }
    ensures fault { IfErr result (IsOfRun options.now script.now) }
    ensures told { OnOk result ((out.new ≡ out.old) ⊎ ((first : Staffed) × RunIsBegun script.now first
        × HasWritten options.now script.now.settings.budget first (W.contents out.old) (W.contents out.new))) }
    ensures untouched { IfErr result (λ f. f ≢ File → (out.new ≡ out.old) ⊎ ((first : Staffed)
        × RunIsBegun script.now first
        × HasWritten options.now script.now.settings.budget first (W.contents out.old) (W.contents out.new))) }
{
    // the settings of a script are in their ranges, so memory is all that can be wanting
    let Ok(mut desks) = open(alloc, script.config()) else {
        return Err(ReportFault::Memory);
    };
    match Runner::start(alloc, script, desks.as_mut_slice()) {
        Ok(runners) => {
            gate.0
                .begin(Work::Run, turns_of(options, script.config().desks));
            let node = Node::of_desks(alloc, desks);
            run_epochs(rt, alloc, options, script, node, runners, gate, kept, out)
        }
        Err(fault) => {
            abandon(desks);
            Err(ReportFault::from(fault))
        }
    }
}

/// Runs all epochs of a node, and gathers it in the last.
fn run_epochs<'a, R: Threads + Sync, P: Watch + Sync, W: Write>(
    rt: &R,
    alloc: Global,
    options: &Options,
    script: &Script,
    node: Node,
    runners: Vec<Runner<'a>>,
    gate: &Counting<'_, P>,
    kept: &mut Vec<Stamped>,
    out: &mut W,
) -> Result<(Gathered, Vec<Runner<'a>>, u64), ReportFault>
    requires begun { RunIsBegun script.now (node, runners.items) }
    requires empty { kept.old.items ≡ [] }
    ensures node { IfOk result (λ r. (histories : List Stamped)
        × (run : IsRun (options.now.epochs - 1) options.now script.now histories r.0 r.1.items)
        × spec.AreAt W.contents options.now.print histories out.old kept.new.items out.new
        × IsLeft run.0.ran r.0 r.2) }
    ensures fault { IfErr result (IsOfRun options.now script.now) }
    ensures told { OnOk result ((out.new ≡ out.old) ⊎ ((first : Staffed) × RunIsBegun script.now first
        × HasWritten options.now script.now.settings.budget first (W.contents out.old) (W.contents out.new))) }
    ensures untouched { IfErr result (λ f. f ≢ File → (out.new ≡ out.old) ⊎ ((first : Staffed)
        × RunIsBegun script.now first
        × HasWritten options.now script.now.settings.budget first (W.contents out.old) (W.contents out.new))) }
{
    let mut runners = runners;
    let budget = script.budget();
    let mut node = pass_epochs(
        rt,
        alloc,
        options,
        budget,
        node,
        &mut runners,
        gate,
        kept,
        out,
    )?;
    run_epoch(rt, options, budget, &mut node, &mut runners, gate)?;
    let desks = node.desks();
    let staff = runners.as_slice();
    let alive = alive_in(desks, staff);
    let idle = are_idle(staff, desks);
    match node.gather() {
        Ok(gathered) => {
            let left = left_of(idle, alive, &gathered)?;
            Ok((gathered, runners, left))
        }
        Err(_back) => Err(ReportFault::Memory),
    }
}

/// How many processes have operations left: none if the runners are idle and no letter is on its way.
fn left_of(idle: bool, alive: u64, gathered: &Gathered) -> Result<u64, AllocError>
    ensures { IfOk result (λ n. n ≡ cond (idle && (length (all_left gathered.now) == 0)) 0 alive) }
{
    let letters = gathered.left_over()?;
    Ok(if idle && letters.is_empty() { 0 } else { alive })
}

/// How many processes of the script are alive, staying at the greatest number.
#[tactic(auto, using(crate::proofs::Rest::all_counted))]
fn alive_in(desks: &[Desk], runners: &[Runner<'_>]) -> u64
    ensures { result ≡ spec.alive_in (desks.now, runners.now) }
{
    let mut alive = 0u64;
    for place in 0..desks.len().min(runners.len()) {
        alive = alive.saturating_add(runners[place].alive(&desks[place]) as u64);
    }
    alive
}

/// Runs the desks for one epoch, as the options say.
pub(crate) fn run_epoch<R: Threads + Sync, P: Watch + Sync>(
    rt: &R,
    options: &Options,
    budget: u32,
    node: &mut Node,
    runners: &mut Vec<Runner<'_>>,
    gate: &Counting<'_, P>,
) -> Result<(), ReportFault>
    requires { CanBegin node.old runners.old.items }
    ensures runs { OnOk result
        (RunsEpoch options.now budget (node.old, runners.old.items) (node.new, runners.new.items)) }
    ensures begins { OnOk result (CanBegin node.new runners.new.items) }
    ensures fault { IfErr result (λ f. f ≡ Memory) }
{
    match options.until {
        Until::Turns => run_once(rt, options, budget, node, runners, gate),
        Until::Quiet => run_until_quiet(rt, options, budget, node, runners, gate),
    }
}

/// Lets each desk take its turns again and again, one at least each time, until nothing more can happen, or the largest
/// number of turns was taken.
fn run_until_quiet<R: Threads + Sync, P: Watch + Sync>(
    rt: &R,
    options: &Options,
    budget: u32,
    node: &mut Node,
    runners: &mut Vec<Runner<'_>>,
    gate: &Counting<'_, P>,
) -> Result<(), ReportFault>
    requires { CanBegin node.old runners.old.items }
    ensures runs { OnOk result
        (RunsUntilQuiet options.now budget (node.old, runners.old.items) (node.new, runners.new.items)) }
    ensures begins { OnOk result (CanBegin node.new runners.new.items) }
    ensures fault { IfErr result (λ f. f ≡ Memory) }
{
    let each = with_a_turn(options);
    for _run in 0..most_runs(options) {
        let quiet = run_and_rest(rt, &each, budget, node, runners, gate)?;
        if quiet {
            return Ok(());
        }
    }
    Ok(())
}

/// The same options, with one turn if they ask for none: nothing comes to rest without a turn.
fn with_a_turn(options: &Options) -> Options
    ensures { result ≡ spec.with_a_turn options.now }
{
    Options {
        turns: options.turns.max(1),
        ..*options
    }
}

/// How often desks are run at most until nothing more can happen.
fn most_runs(options: &Options) -> u64
    ensures { result ≡ spec.most_runs options.now }
{
    (MOST_TURNS / options.turns.max(1)).max(1)
}

/// Lets each desk take its turns once, then delivers every letter in flight, and returns whether nothing more can
/// happen.
fn run_and_rest<R: Threads + Sync, P: Watch + Sync>(
    rt: &R,
    options: &Options,
    budget: u32,
    node: &mut Node,
    runners: &mut Vec<Runner<'_>>,
    gate: &Counting<'_, P>,
) -> Result<bool, ReportFault>
    requires { CanBegin node.old runners.old.items }
    ensures runs { IfOk result (λ quiet.
        RunsAndRests options.now budget (node.old, runners.old.items) (node.new, runners.new.items)) }
    ensures quiet { IfOk result (λ quiet. quiet ≡ true → NothingCanHappen (node.new, runners.new.items)) }
    ensures begins { OnOk result (CanBegin node.new runners.new.items) }
    ensures fault { IfErr result (λ f. f ≡ Memory) }
{
    run_once(rt, options, budget, node, runners, gate)?;
    let rested = node.turn_until_still(budget);
    match rested.stopped {
        Some(_stop) => Ok(false),
        None => Ok(are_idle(runners.as_slice(), node.desks())),
    }
}

/// Lets each desk take its turns once.
fn run_once<R: Threads + Sync, P: Watch + Sync>(
    rt: &R,
    options: &Options,
    budget: u32,
    node: &mut Node,
    runners: &mut Vec<Runner<'_>>,
    gate: &Counting<'_, P>,
) -> Result<(), ReportFault>
    requires { CanBegin node.old runners.old.items }
    ensures runs { OnOk result (RunsOn options.now budget (node.old, runners.old.items) (node.new, runners.new.items)) }
    ensures begins { OnOk result (CanBegin node.new runners.new.items) }
    ensures fault { IfErr result (λ f. f ≡ Memory) }
{
    match options.threads {
        Mode::Single => {
            node.run_single(runners, options.turns, budget, gate)?;
            Ok(())
        }
        Mode::Many => {
            node.run(rt, runners, options.turns, budget, gate)?;
            Ok(())
        }
    }
}
