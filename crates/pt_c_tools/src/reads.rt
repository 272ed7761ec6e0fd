//! Reading a gathered node, a settled node and a history. Nothing changes.
//!
//! A call returns 9 if the handle is empty, and 8 if what was asked for is not there.

ghost use Rattle.std.specs.Prelude.{◌≡◌, length, slice_get};
ghost use Rattle.pt_c_values.specs.Places.{ReadsThrough, ShowsCode};
ghost use Rattle.pt_c_desks.specs.Reading.{TellsCount, ShowsPid, TellsPid, TellsAccount, TellsLinked, TellsKept, TellsWatching};
ghost use Rattle.pt_c_desks.specs.QuietNodes.{node_of};
ghost use Rattle.pt_c_values.specs.Crossing.{pid_crossed, pid_out, ref_in, event_out, left_out};

use crate::gathered_handle::{GatheredHandle, claim as claim_gathered, hold as hold_gathered};
use pt_c_desks::history_handle::{HistoryHandle, claim as claim_history, hold as hold_history};
use pt_c_desks::looking::{show_event, show_ids};
use pt_c_desks::quiet_handle::{QuietHandle, claim as claim_quiet, hold as hold_quiet};
use pt_c_desks::quiet_node::QuietNode;
use pt_c_values::codes::{DONE, EMPTY, NOTHING, UNLISTED};
use pt_c_values::crossing::{account_out, left_out, pid_in, pid_out, ref_in};
use pt_c_values::types::{PtAccount, PtEvent, PtIds, PtLeftOver, PtPid, PtRef};
use pt_node::{Pid, Quiet};
use std::alloc::Global;

/// The number of desks of the node.
pub fn gathered_desks(alloc: Global, g: &mut GatheredHandle, out: &mut u8) -> u32
    ensures { ReadsThrough g.old.state g.new.state result (out.new ≡ out.old)
        (λ d. (result ≡ 0) × (out.new ≡ length d.shards)) }
{
    let Some(held) = claim_gathered(alloc, g) else {
        return EMPTY;
    };
    let code = match &held.gathered {
        Some(gathered) => {
            *out = gathered.desks();
            DONE
        }
        None => EMPTY,
    };
    *g = hold_gathered(held);
    code
}

/// The number of desks of the settled node.
pub fn quiet_desks(alloc: Global, q: &mut QuietHandle, out: &mut u8) -> u32
    ensures { ReadsThrough q.old.state q.new.state result (out.new ≡ out.old)
        (λ d. (result ≡ 0) × (out.new ≡ length (node_of d).gathered.shards)) }
{
    let Some(held) = claim_quiet(alloc, q) else {
        return EMPTY;
    };
    let code = match &held.quiet {
        Some(node) => {
            *out = node.settled().desks();
            DONE
        }
        None => EMPTY,
    };
    *q = hold_quiet(held);
    code
}

/// The number of letters that settling handled.
pub fn quiet_handled(alloc: Global, q: &mut QuietHandle, out: &mut u64) -> u32
    ensures { ReadsThrough q.old.state q.new.state result (out.new ≡ out.old)
        (λ d. (result ≡ 0) × (out.new ≡ (node_of d).handled)) }
{
    let Some(held) = claim_quiet(alloc, q) else {
        return EMPTY;
    };
    let code = match &held.quiet {
        Some(node) => {
            *out = node.settled().handled();
            DONE
        }
        None => EMPTY,
    };
    *q = hold_quiet(held);
    code
}

/// The number of processes ever spawned; 26 if the node has no list of its pids.
pub fn quiet_pid_count(alloc: Global, q: &mut QuietHandle, out: &mut usize) -> u32
    ensures { ReadsThrough q.old.state q.new.state result (out.new ≡ out.old) (λ d. TellsCount d result out.old out.new) }
{
    let Some(held) = claim_quiet(alloc, q) else {
        return EMPTY;
    };
    let code = match &held.quiet {
        Some(node) => pid_count(node, out),
        None => EMPTY,
    };
    *q = hold_quiet(held);
    code
}

/// The same of the node itself.
fn pid_count(node: &QuietNode, out: &mut usize) -> u32
    ensures { TellsCount node.now result out.old out.new }
{
    match node {
        QuietNode::Listed(quiet) => {
            *out = quiet.pids().len();
            DONE
        }
        QuietNode::Unlisted(_) => UNLISTED,
    }
}

/// The pid at this place among all ever spawned, by shard, slot and version; 26 if the node has no list of its pids, and
/// else 8 if there is none at the place.
pub fn quiet_pid_at(alloc: Global, q: &mut QuietHandle, place: usize, out: &mut PtPid) -> u32
    ensures { ReadsThrough q.old.state q.new.state result (out.new ≡ out.old) (λ d. TellsPid d place result out.old out.new) }
{
    let Some(held) = claim_quiet(alloc, q) else {
        return EMPTY;
    };
    let code = match &held.quiet {
        Some(node) => pid_at(node, place, out),
        None => EMPTY,
    };
    *q = hold_quiet(held);
    code
}

/// The same of the node itself.
fn pid_at(node: &QuietNode, place: usize, out: &mut PtPid) -> u32
    ensures { TellsPid node.now place result out.old out.new }
{
    match node {
        QuietNode::Listed(quiet) => show_pid(quiet, place, out),
        QuietNode::Unlisted(_) => UNLISTED,
    }
}

/// The same of a node that has the list. (Beside the handle the prover does not find it.)
fn show_pid(quiet: &Quiet, place: usize, out: &mut PtPid) -> u32
    ensures { ShowsPid quiet.now place result out.old out.new }
{
    show_pid_at(quiet.pids(), place, out)
}

fn show_pid_at(pids: &[Pid], place: usize, out: &mut PtPid) -> u32
    ensures { ShowsCode result out.old out.new pid_out (slice_get pids.now place) }
{
    match pids.get(place) {
        Some(pid) => {
            *out = pid_out(*pid);
            DONE
        }
        None => NOTHING,
    }
}

/// What became of p, as `Settled::account` returns it; 8 if it was never spawned.
pub fn quiet_account(alloc: Global, q: &mut QuietHandle, p: PtPid, out: &mut PtAccount) -> u32
    ensures { ReadsThrough q.old.state q.new.state result (out.new ≡ out.old)
        (λ d. TellsAccount (node_of d) (pid_crossed p) result out.old out.new) }
{
    let Some(held) = claim_quiet(alloc, q) else {
        return EMPTY;
    };
    let code = match &held.quiet {
        Some(node) => match node.settled().account(pid_in(p)) {
            Some(account) => {
                *out = account_out(account);
                DONE
            }
            None => NOTHING,
        },
        None => EMPTY,
    };
    *q = hold_quiet(held);
    code
}

/// The ids under which p is linked with another process, or was just after its own exit; 8 if there are none.
pub fn quiet_linked(
    alloc: Global,
    q: &mut QuietHandle,
    p: PtPid,
    peer: PtPid,
    out: &mut PtIds,
) -> u32
    ensures { ReadsThrough q.old.state q.new.state result (out.new ≡ out.old)
        (λ d. TellsLinked (node_of d) (pid_crossed p) (pid_crossed peer) result out.old out.new) }
{
    let Some(held) = claim_quiet(alloc, q) else {
        return EMPTY;
    };
    let code = match &held.quiet {
        Some(node) => show_ids(node.settled().linked(pid_in(p), pid_in(peer)), out),
        None => EMPTY,
    };
    *q = hold_quiet(held);
    code
}

/// Whether a process keeps a watch of this reference, or did just after its own exit.
pub fn quiet_kept(
    alloc: Global,
    q: &mut QuietHandle,
    target: PtPid,
    monitor: PtRef,
    out: &mut bool,
) -> u32
    ensures { ReadsThrough q.old.state q.new.state result (out.new ≡ out.old)
        (λ d. TellsKept (node_of d) (pid_crossed target) (ref_in monitor) result out.new) }
{
    let Some(held) = claim_quiet(alloc, q) else {
        return EMPTY;
    };
    let code = match &held.quiet {
        Some(node) => {
            *out = node.settled().kept(pid_in(target), ref_in(monitor));
            DONE
        }
        None => EMPTY,
    };
    *q = hold_quiet(held);
    code
}

/// Whether a process's monitor of this reference is open.
pub fn quiet_watching(
    alloc: Global,
    q: &mut QuietHandle,
    watcher: PtPid,
    monitor: PtRef,
    out: &mut bool,
) -> u32
    ensures { ReadsThrough q.old.state q.new.state result (out.new ≡ out.old)
        (λ d. TellsWatching (node_of d) (pid_crossed watcher) (ref_in monitor) result out.new) }
{
    let Some(held) = claim_quiet(alloc, q) else {
        return EMPTY;
    };
    let code = match &held.quiet {
        Some(node) => {
            *out = node.settled().watching(pid_in(watcher), ref_in(monitor));
            DONE
        }
        None => EMPTY,
    };
    *q = hold_quiet(held);
    code
}

/// The number of events of the history.
pub fn history_count(alloc: Global, h: &mut HistoryHandle, out: &mut usize) -> u32
    ensures { ReadsThrough h.old.state h.new.state result (out.new ≡ out.old)
        (λ d. (result ≡ 0) × (out.new ≡ length d.events)) }
{
    let Some(held) = claim_history(alloc, h) else {
        return EMPTY;
    };
    let code = match &held.history {
        Some(history) => {
            *out = history.events.len();
            DONE
        }
        None => EMPTY,
    };
    *h = hold_history(held);
    code
}

/// The event at this place of the history, 0 the first; 8 if there is none.
pub fn history_at(alloc: Global, h: &mut HistoryHandle, place: usize, out: &mut PtEvent) -> u32
    ensures { ReadsThrough h.old.state h.new.state result (out.new ≡ out.old)
        (λ d. ShowsCode result out.old out.new event_out (slice_get d.events place)) }
{
    let Some(held) = claim_history(alloc, h) else {
        return EMPTY;
    };
    let code = match &held.history {
        Some(history) => show_event(history.events.as_slice(), place, out),
        None => EMPTY,
    };
    *h = hold_history(held);
    code
}

/// The number of letters left over at the end of the history.
pub fn history_left_count(alloc: Global, h: &mut HistoryHandle, out: &mut usize) -> u32
    ensures { ReadsThrough h.old.state h.new.state result (out.new ≡ out.old) (λ d. (result ≡ 0) × (out.new ≡ length d.left)) }
{
    let Some(held) = claim_history(alloc, h) else {
        return EMPTY;
    };
    let code = match &held.history {
        Some(history) => {
            *out = history.left.len();
            DONE
        }
        None => EMPTY,
    };
    *h = hold_history(held);
    code
}

/// The letter at this place among those left over; 8 if there is none.
pub fn history_left_at(
    alloc: Global,
    h: &mut HistoryHandle,
    place: usize,
    out: &mut PtLeftOver,
) -> u32
    ensures { ReadsThrough h.old.state h.new.state result (out.new ≡ out.old)
        (λ d. ShowsCode result out.old out.new left_out (slice_get d.left place)) }
{
    let Some(held) = claim_history(alloc, h) else {
        return EMPTY;
    };
    let code = match &held.history {
        Some(history) => match history.left.get(place) {
            Some(letter) => {
                *out = left_out(*letter);
                DONE
            }
            None => NOTHING,
        },
        None => EMPTY,
    };
    *h = hold_history(held);
    code
}
