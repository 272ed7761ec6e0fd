//! Reading a desk. Nothing changes.
//!
//! A call returns 9 if the handle is empty, and 8 if what was asked for is not there.

ghost use Rattle.std.specs.Prelude.{◌≡◌, length, reverse};
ghost use Rattle.pt_shard.specs.ShardState.{lives};
ghost use Rattle.pt_shard.specs.Known.{knows};
ghost use Rattle.pt_shard.specs.Living.{living_in};
ghost use Rattle.pt_c_values.specs.Places.{ReadsThrough, ShowsCode};
ghost use Rattle.pt_c_desks.specs.Reading.{event_numbered, item_numbered, linked_on_desk, waits_in, pending_in, event_count_in};
ghost use Rattle.pt_c_desks.specs.Reading.{nth_link, links_on_desk, nth_monitor, monitors_on_desk};
ghost use Rattle.pt_c_desks.specs.Reading.{traps_on_desk, watchers_on_desk};
ghost use Rattle.pt_c_desks.specs.Waking.{Woken, NobodyIsMissed};
ghost use Rattle.pt_c_values.specs.Crossing.{pid_crossed, pid_out, ref_out, ids_out, item_out, event_out};

use crate::desk_handle::{DeskHandle, claim, hold};
use crate::looking::{show_event, show_ids, show_monitor, show_pid};
use pt_c_values::codes::{DONE, EMPTY, NOTHING};
use pt_c_values::crossing::{ids_out, item_out, pid_in, pid_out};
use pt_c_values::types::{PtEvent, PtIds, PtItem, PtPid, PtRef};
use std::alloc::Global;

/// The stamp of the newest event, or the start of the clock.
pub fn clock(alloc: Global, h: &mut DeskHandle, out: &mut u64) -> u32
    ensures { ReadsThrough h.old.state h.new.state result (out.new ≡ out.old) (λ d. (result ≡ 0) × (out.new ≡ d.shard.clock)) }
{
    let Some(held) = claim(alloc, h) else {
        return EMPTY;
    };
    let code = match &held.desk {
        Some(desk) => {
            *out = desk.clock();
            DONE
        }
        None => EMPTY,
    };
    *h = hold(held);
    code
}

/// The number of the desk.
pub fn number(alloc: Global, h: &mut DeskHandle, out: &mut u8) -> u32
    ensures { ReadsThrough h.old.state h.new.state result (out.new ≡ out.old) (λ d. (result ≡ 0) × (out.new ≡ d.shard.number)) }
{
    let Some(held) = claim(alloc, h) else {
        return EMPTY;
    };
    let code = match &held.desk {
        Some(desk) => {
            *out = desk.number();
            DONE
        }
        None => EMPTY,
    };
    *h = hold(held);
    code
}

/// Whether p is alive on the desk.
pub fn alive(alloc: Global, h: &mut DeskHandle, p: PtPid, out: &mut bool) -> u32
    ensures { ReadsThrough h.old.state h.new.state result (out.new ≡ out.old)
        (λ d. (result ≡ 0) × (out.new ≡ lives d.shard (pid_crossed p))) }
{
    let Some(held) = claim(alloc, h) else {
        return EMPTY;
    };
    let code = match &held.desk {
        Some(desk) => {
            *out = desk.alive_here(pid_in(p));
            DONE
        }
        None => EMPTY,
    };
    *h = hold(held);
    code
}

/// Whether p may be the target of a call. If it may not, calls with this target return 7.
pub fn knows(alloc: Global, h: &mut DeskHandle, p: PtPid, out: &mut bool) -> u32
    ensures { ReadsThrough h.old.state h.new.state result (out.new ≡ out.old)
        (λ d. (result ≡ 0) × (out.new ≡ knows d.shard (pid_crossed p))) }
{
    let Some(held) = claim(alloc, h) else {
        return EMPTY;
    };
    let code = match &held.desk {
        Some(desk) => {
            *out = desk.knows(pid_in(p));
            DONE
        }
        None => EMPTY,
    };
    *h = hold(held);
    code
}

/// The number of letters that wait in the outbox and the hold.
pub fn pending(alloc: Global, h: &mut DeskHandle, out: &mut u64) -> u32
    ensures { ReadsThrough h.old.state h.new.state result (out.new ≡ out.old) (λ d. (result ≡ 0) × (out.new ≡ pending_in d)) }
{
    let Some(held) = claim(alloc, h) else {
        return EMPTY;
    };
    let code = match &held.desk {
        Some(desk) => {
            *out = desk.pending();
            DONE
        }
        None => EMPTY,
    };
    *h = hold(held);
    code
}

/// The pid that the next process spawned here will have; 8 if no slot is free.
pub fn vacant(alloc: Global, h: &mut DeskHandle, out: &mut PtPid) -> u32
    ensures { ReadsThrough h.old.state h.new.state result (out.new ≡ out.old)
        (λ d. ShowsCode result out.old out.new pid_out d.shard.vacant) }
{
    let Some(held) = claim(alloc, h) else {
        return EMPTY;
    };
    let code = match &held.desk {
        Some(desk) => show_pid(desk.vacant(), out),
        None => EMPTY,
    };
    *h = hold(held);
    code
}

/// The number of items that wait in the mailbox of p; 8 if p is not alive on the desk.
pub fn waiting(alloc: Global, h: &mut DeskHandle, p: PtPid, out: &mut usize) -> u32
    ensures { ReadsThrough h.old.state h.new.state result (out.new ≡ out.old)
        (λ d. ShowsCode result out.old out.new length (waits_in d (pid_crossed p))) }
{
    let Some(held) = claim(alloc, h) else {
        return EMPTY;
    };
    let code = match &held.desk {
        Some(desk) => match desk.waiting(pid_in(p)) {
            Some(items) => {
                *out = items.len();
                DONE
            }
            None => NOTHING,
        },
        None => EMPTY,
    };
    *h = hold(held);
    code
}

/// The item at this place in the mailbox of p, 0 the oldest, which stays there; 8 if there is none.
pub fn peek(alloc: Global, h: &mut DeskHandle, p: PtPid, place: usize, out: &mut PtItem) -> u32
    ensures { ReadsThrough h.old.state h.new.state result (out.new ≡ out.old)
        (λ d. ShowsCode result out.old out.new item_out (item_numbered (waits_in d (pid_crossed p)) place)) }
{
    let Some(held) = claim(alloc, h) else {
        return EMPTY;
    };
    let code = match &held.desk {
        Some(desk) => match desk.waiting(pid_in(p)) {
            Some(items) => match items.get(place) {
                Some(item) => {
                    *out = item_out(*item);
                    DONE
                }
                None => NOTHING,
            },
            None => NOTHING,
        },
        None => EMPTY,
    };
    *h = hold(held);
    code
}

/// The ids under which p is linked with another process, by p's own half of the link; 8 if there are none.
pub fn linked(alloc: Global, h: &mut DeskHandle, p: PtPid, peer: PtPid, out: &mut PtIds) -> u32
    ensures { ReadsThrough h.old.state h.new.state result (out.new ≡ out.old)
        (λ d. ShowsCode result out.old out.new ids_out (linked_on_desk d (pid_crossed p) (pid_crossed peer))) }
{
    let Some(held) = claim(alloc, h) else {
        return EMPTY;
    };
    let code = match &held.desk {
        Some(desk) => show_ids(desk.linked(pid_in(p), pid_in(peer)), out),
        None => EMPTY,
    };
    *h = hold(held);
    code
}

/// The number of processes that p is linked with; 8 if p is not alive on the desk.
pub fn link_count(alloc: Global, h: &mut DeskHandle, p: PtPid, out: &mut usize) -> u32
    ensures { ReadsThrough h.old.state h.new.state result (out.new ≡ out.old)
        (λ d. ShowsCode result out.old out.new length (links_on_desk d (pid_crossed p))) }
{
    let Some(held) = claim(alloc, h) else {
        return EMPTY;
    };
    let code = match &held.desk {
        Some(desk) => match desk.process(pid_in(p)) {
            Some(process) => {
                *out = process.links_len();
                DONE
            }
            None => NOTHING,
        },
        None => EMPTY,
    };
    *h = hold(held);
    code
}

/// The process that p is linked with at this place, 0 the oldest link, and the ids of the link; 8 if there is none.
pub fn link_at(
    alloc: Global,
    h: &mut DeskHandle,
    p: PtPid,
    place: usize,
    peer: &mut PtPid,
    ids: &mut PtIds,
) -> u32
    ensures { ReadsThrough h.old.state h.new.state result ((peer.new ≡ peer.old) × (ids.new ≡ ids.old))
        (λ d. ShowsCode result peer.old peer.new (λ l. pid_out l.0) (nth_link (links_on_desk d (pid_crossed p)) place)
        × ShowsCode result ids.old ids.new (λ l. ids_out l.1) (nth_link (links_on_desk d (pid_crossed p)) place)) }
{
    let Some(held) = claim(alloc, h) else {
        return EMPTY;
    };
    let code = match &held.desk {
        Some(desk) => match desk.process(pid_in(p)) {
            Some(process) => match process.link_at(place) {
                Some((pid, both)) => {
                    *peer = pid_out(pid);
                    *ids = ids_out(both);
                    DONE
                }
                None => NOTHING,
            },
            None => NOTHING,
        },
        None => EMPTY,
    };
    *h = hold(held);
    code
}

/// The number of open monitors of p; 8 if p is not alive on the desk.
pub fn monitor_count(alloc: Global, h: &mut DeskHandle, p: PtPid, out: &mut usize) -> u32
    ensures { ReadsThrough h.old.state h.new.state result (out.new ≡ out.old)
        (λ d. ShowsCode result out.old out.new length (monitors_on_desk d (pid_crossed p))) }
{
    let Some(held) = claim(alloc, h) else {
        return EMPTY;
    };
    let code = match &held.desk {
        Some(desk) => match desk.process(pid_in(p)) {
            Some(process) => {
                *out = process.monitors_len();
                DONE
            }
            None => NOTHING,
        },
        None => EMPTY,
    };
    *h = hold(held);
    code
}

/// The open monitor of p at this place, 0 the oldest, and its target; 8 if there is none.
pub fn monitor_at(
    alloc: Global,
    h: &mut DeskHandle,
    p: PtPid,
    place: usize,
    monitor: &mut PtRef,
    target: &mut PtPid,
) -> u32
    ensures { ReadsThrough h.old.state h.new.state result ((monitor.new ≡ monitor.old) × (target.new ≡ target.old))
        (λ d. ShowsCode result monitor.old monitor.new (λ m. ref_out m.0) (nth_monitor (monitors_on_desk d (pid_crossed p)) place)
        × ShowsCode result target.old target.new (λ m. pid_out m.1) (nth_monitor (monitors_on_desk d (pid_crossed p)) place)) }
{
    let Some(held) = claim(alloc, h) else {
        return EMPTY;
    };
    let code = match &held.desk {
        Some(desk) => match desk.process(pid_in(p)) {
            Some(process) => show_monitor(process.monitor_at(place), monitor, target),
            None => NOTHING,
        },
        None => EMPTY,
    };
    *h = hold(held);
    code
}

/// The number of monitors that others have of p; 8 if p is not alive on the desk.
pub fn watcher_count(alloc: Global, h: &mut DeskHandle, p: PtPid, out: &mut usize) -> u32
    ensures { ReadsThrough h.old.state h.new.state result (out.new ≡ out.old)
        (λ d. ShowsCode result out.old out.new length (watchers_on_desk d (pid_crossed p))) }
{
    let Some(held) = claim(alloc, h) else {
        return EMPTY;
    };
    let code = match &held.desk {
        Some(desk) => match desk.process(pid_in(p)) {
            Some(process) => {
                *out = process.watchers_len();
                DONE
            }
            None => NOTHING,
        },
        None => EMPTY,
    };
    *h = hold(held);
    code
}

/// The monitor that another process has of p at this place, 0 the oldest, and its owner; 8 if there is none.
pub fn watcher_at(
    alloc: Global,
    h: &mut DeskHandle,
    p: PtPid,
    place: usize,
    monitor: &mut PtRef,
    watcher: &mut PtPid,
) -> u32
    ensures { ReadsThrough h.old.state h.new.state result ((monitor.new ≡ monitor.old) × (watcher.new ≡ watcher.old))
        (λ d. ShowsCode result monitor.old monitor.new (λ m. ref_out m.0) (nth_monitor (watchers_on_desk d (pid_crossed p)) place)
        × ShowsCode result watcher.old watcher.new (λ m. pid_out m.1) (nth_monitor (watchers_on_desk d (pid_crossed p)) place)) }
{
    let Some(held) = claim(alloc, h) else {
        return EMPTY;
    };
    let code = match &held.desk {
        Some(desk) => match desk.process(pid_in(p)) {
            Some(process) => show_monitor(process.watcher_at(place), monitor, watcher),
            None => NOTHING,
        },
        None => EMPTY,
    };
    *h = hold(held);
    code
}

/// Whether p traps exits; 8 if p is not alive on the desk.
pub fn traps(alloc: Global, h: &mut DeskHandle, p: PtPid, out: &mut bool) -> u32
    ensures { ReadsThrough h.old.state h.new.state result (out.new ≡ out.old)
        (λ d. ShowsCode result out.old out.new (λ on. on) (traps_on_desk d (pid_crossed p))) }
{
    let Some(held) = claim(alloc, h) else {
        return EMPTY;
    };
    let code = match &held.desk {
        Some(desk) => match desk.process(pid_in(p)) {
            Some(process) => {
                *out = process.traps();
                DONE
            }
            None => NOTHING,
        },
        None => EMPTY,
    };
    *h = hold(held);
    code
}

/// The live process in this slot of the desk; 8 if there is none.
pub fn lives_in(alloc: Global, h: &mut DeskHandle, slot: u32, out: &mut PtPid) -> u32
    ensures { ReadsThrough h.old.state h.new.state result (out.new ≡ out.old)
        (λ d. ShowsCode result out.old out.new pid_out (living_in d.shard slot)) }
{
    let Some(held) = claim(alloc, h) else {
        return EMPTY;
    };
    let code = match &held.desk {
        Some(desk) => show_pid(desk.lives_in(slot), out),
        None => EMPTY,
    };
    *h = hold(held);
    code
}

/// The number of events of the desk's journal.
pub fn event_count(alloc: Global, h: &mut DeskHandle, out: &mut usize) -> u32
    ensures { ReadsThrough h.old.state h.new.state result (out.new ≡ out.old)
        (λ d. (result ≡ 0) × (out.new ≡ event_count_in d)) }
{
    let Some(held) = claim(alloc, h) else {
        return EMPTY;
    };
    let code = match &held.desk {
        Some(desk) => {
            *out = desk.journal().events().len();
            DONE
        }
        None => EMPTY,
    };
    *h = hold(held);
    code
}

/// The event at this place of the desk's journal, 0 the oldest; 8 if there is none.
pub fn event_at(alloc: Global, h: &mut DeskHandle, place: usize, out: &mut PtEvent) -> u32
    ensures { ReadsThrough h.old.state h.new.state result (out.new ≡ out.old)
        (λ d. ShowsCode result out.old out.new event_out (event_numbered d place)) }
{
    let Some(held) = claim(alloc, h) else {
        return EMPTY;
    };
    let code = match &held.desk {
        Some(desk) => show_event(desk.journal().events(), place, out),
        None => EMPTY,
    };
    *h = hold(held);
    code
}

/// The next process that got a signal, or exited by its own call, from the event at place `at` of the journal on. `at`
/// is then the place after that event. It returns 8 if there is no such event any more, and then `at` is after the
/// newest.
///
/// So a caller that keeps `at` gets each such event once. No process that got an item or exited is missed: by every
/// event only the process that is returned for it may get an item or exit. A returned one need not have got an item,
/// since a signal may queue nothing.
#[tactic(auto, using(crate::proofs::Waking::nobody_is_missed))]
pub fn next_woken(alloc: Global, h: &mut DeskHandle, at: &mut usize, out: &mut PtPid) -> u32
    ensures all { NobodyIsMissed }
    ensures next { ReadsThrough h.old.state h.new.state result ((at.new ≡ at.old) × (out.new ≡ out.old))
        (λ d. Woken result at.old at.new out.old out.new (reverse d.shard.journal)) }
{
    let Some(held) = claim(alloc, h) else {
        return EMPTY;
    };
    let code = match &held.desk {
        Some(desk) => match pt_workers::next_woken(desk.journal().events(), at) {
            Some(pid) => {
                *out = pid_out(pid);
                DONE
            }
            None => NOTHING,
        },
        None => EMPTY,
    };
    *h = hold(held);
    code
}
