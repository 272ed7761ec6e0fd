//! The lines of a summary.

ghost use Rattle.std.specs.Prelude.{◌≡◌, ◌≢◌, ◌-◌, ◌^◌, ◌++◌, [], codes, min, OnOk, IfOk, IfErr};
ghost use Rattle.pt_gathered.specs.Settling.{event_count};
ghost use Rattle.pt_report.specs.Lines.{totals_text};
ghost use Rattle.std.specs.Io.KnownBytes.{Appends};
ghost use Rattle.pt_accounts.specs.LivesState.{InEveryMerge, account_in};
ghost use Rattle.pt_gathered.specs.Gathered.{begins, journals};
ghost use Rattle.pt_report.specs.Summaries.{Summarizes, Totalled, AppendsAccounts, account_line};
ghost use Rattle.pt_report.specs.Reports.{IsOfSummary};
ghost use Rattle.pt_report.specs.declared.fault.ReportFault.TheVariants.{File};

use crate::fault::ReportFault;
use crate::totals::{ProcessLine, Totals};
use pt_node::{Gathered, Pid, Quiet};
use std::io;
use std::io::Write;

/// Settles a node and prints what became of its processes.
pub(crate) fn print_summary<W: Write>(gathered: Gathered, out: &mut W) -> Result<(), ReportFault>
    ensures text { OnOk result (Summarizes gathered (W.contents out.old) (W.contents out.new)) }
    ensures fault { IfErr result (IsOfSummary gathered) }
    ensures untouched { IfErr result (λ f. f ≢ File → out.new ≡ out.old) }
{
    let (quiet, totals) = settled_of(gathered)?;
    match write_summary(out, &quiet, totals) {
        Ok(()) => Ok(()),
        Err(_) => Err(ReportFault::File),
    }
}

/// Settles a node, and returns it with its totals.
pub(crate) fn settled_of(gathered: Gathered) -> Result<(Quiet, Totals), ReportFault>
    ensures totalled { IfOk result (λ r. Totalled gathered r.0 r.1) }
    ensures fault { IfErr result (IsOfSummary gathered) }
{
    let events = count_events(&gathered);
    let left_over = gathered.left_over()?.len() as u64;
    let quiet = match gathered.settle() {
        Ok(quiet) => quiet,
        Err(unsettled) => return Err(ReportFault::from(unsettled.fault)),
    };
    let settled = quiet.handled();
    let totals = Totals {
        events,
        left_over,
        settled,
    };
    Ok((quiet, totals))
}

/// The number of events of the journals, staying at `u64::MAX` once it is reached.
fn count_events(gathered: &Gathered) -> u64
    ensures { result ≡ min (event_count gathered.now) (2 ^ 64 - 1) }
{
    let mut count = 0u64;
    for desk in 0..gathered.desks() {
        if let Some(journal) = gathered.journal(desk) {
            count = count.saturating_add(journal.events().len() as u64);
        }
    }
    count
}

/// Writes a line for each process, then the totals, and flushes the writer.
fn write_summary<W: Write>(out: &mut W, quiet: &Quiet, totals: Totals) -> io::Result<()>
    ensures { OnOk result
        (AppendsAccounts (totals_text totals ++ codes "\n") quiet.now (W.contents out.old) (W.contents out.new)) }
{
    write_accounts(out, quiet)?;
    writeln!(out, "{totals}")?;
    out.flush()
}

/// Writes one line for each process.
#[tactic(auto, using(crate::proofs::Accounts::next_lines, crate::proofs::Accounts::all_lines))]
fn write_accounts<W: Write>(out: &mut W, quiet: &Quiet) -> io::Result<()>
    ensures { OnOk result (AppendsAccounts [] quiet.now (W.contents out.old) (W.contents out.new)) }
{
    for pid in quiet.pids() {
        write_account(out, quiet, *pid)?;
    }
    Ok(())
}

/// Writes the line of a process, if it was spawned.
#[tactic(auto, using(crate::proofs::Accounts::told_line))]
pub(crate) fn write_account<W: Write>(out: &mut W, quiet: &Quiet, pid: Pid) -> io::Result<()>
    ensures { OnOk result
        (InEveryMerge (journals quiet.now.gathered)
        (λ past.
        Appends (W.contents out.old) (W.contents out.new)
        (account_line pid (account_in (begins quiet.now.gathered) past pid)))) }
{
    match quiet.account(pid) {
        Some(account) => {
            let line = ProcessLine { pid, account };
            writeln!(out, "{line}")
        }
        None => Ok(()),
    }
}
