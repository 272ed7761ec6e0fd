//! Reading a desk, a gathered node, a settled node and a history. Nothing changes.
//!
//! A call returns 9 if the handle is empty, and 8 if what was asked for is not there.

ghost use Rattle.std.specs.Prelude.{◌≡◌, length, reverse, slice_get};
ghost use Rattle.pt_shard.specs.ShardState.{lives};
ghost use Rattle.pt_shard.specs.Known.{knows};
ghost use Rattle.pt_shard.specs.Living.{living_in};
ghost use Rattle.pt_c_values.specs.Places.{ReadsThrough, ShowsCode};
ghost use Rattle.pt_c_desks.specs.Reading.{event_numbered, item_numbered, linked_on_desk, waits_in, pending_in, event_count_in};
ghost use Rattle.pt_c_desks.specs.Reading.{nth_link, links_on_desk, nth_monitor, monitors_on_desk, traps_on_desk, watchers_on_desk};
ghost use Rattle.pt_c_desks.specs.Waking.{Woken, NobodyIsMissed};
ghost use Rattle.pt_c_desks.specs.Reading.{TellsCount, TellsPid, TellsAccount, TellsLinked, TellsKept, TellsWatching};
ghost use Rattle.pt_c_desks.specs.QuietNodes.{node_of};
ghost use Rattle.pt_c_values.specs.Crossing.{pid_crossed, pid_out, ref_in, ref_out, ids_out, item_out, event_out, left_out};

use pt_c_desks::desk_handle::DeskHandle;
use pt_c_desks::history_handle::HistoryHandle;
use pt_c_desks::quiet_handle::QuietHandle;
use pt_c_desks::reads;
use pt_c_tools::gathered_handle::GatheredHandle;
use pt_c_tools::reads as node_reads;
use pt_c_values::types::{PtAccount, PtEvent, PtIds, PtItem, PtLeftOver, PtPid, PtRef};
use std::alloc::Global;

/// The stamp of the newest event, or the start of the clock.
#[unsafe(no_mangle)]
pub extern "C" fn pt_clock(alloc: Global, h: &mut DeskHandle, out: &mut u64) -> u32
    ensures { ReadsThrough h.old.state h.new.state result (out.new ≡ out.old) (λ d. (result ≡ 0) × (out.new ≡ d.shard.clock)) }
{
    reads::clock(alloc, h, out)
}

/// The number of the desk.
#[unsafe(no_mangle)]
pub extern "C" fn pt_number(alloc: Global, h: &mut DeskHandle, out: &mut u8) -> u32
    ensures { ReadsThrough h.old.state h.new.state result (out.new ≡ out.old) (λ d. (result ≡ 0) × (out.new ≡ d.shard.number)) }
{
    reads::number(alloc, h, out)
}

/// Whether p is alive on the desk.
#[unsafe(no_mangle)]
pub extern "C" fn pt_alive(alloc: Global, h: &mut DeskHandle, p: PtPid, out: &mut bool) -> u32
    ensures { ReadsThrough h.old.state h.new.state result (out.new ≡ out.old)
        (λ d. (result ≡ 0) × (out.new ≡ lives d.shard (pid_crossed p))) }
{
    reads::alive(alloc, h, p, out)
}

/// Whether p may be the target of a call. If it may not, calls with this target return 7.
#[unsafe(no_mangle)]
pub extern "C" fn pt_knows(alloc: Global, h: &mut DeskHandle, p: PtPid, out: &mut bool) -> u32
    ensures { ReadsThrough h.old.state h.new.state result (out.new ≡ out.old)
        (λ d. (result ≡ 0) × (out.new ≡ knows d.shard (pid_crossed p))) }
{
    reads::knows(alloc, h, p, out)
}

/// The number of letters that wait in the outbox and the hold.
#[unsafe(no_mangle)]
pub extern "C" fn pt_pending(alloc: Global, h: &mut DeskHandle, out: &mut u64) -> u32
    ensures { ReadsThrough h.old.state h.new.state result (out.new ≡ out.old) (λ d. (result ≡ 0) × (out.new ≡ pending_in d)) }
{
    reads::pending(alloc, h, out)
}

/// The pid that the next process spawned here will have; 8 if no slot is free.
#[unsafe(no_mangle)]
pub extern "C" fn pt_vacant(alloc: Global, h: &mut DeskHandle, out: &mut PtPid) -> u32
    ensures { ReadsThrough h.old.state h.new.state result (out.new ≡ out.old)
        (λ d. ShowsCode result out.old out.new pid_out d.shard.vacant) }
{
    reads::vacant(alloc, h, out)
}

/// The number of items that wait in the mailbox of p; 8 if p is not alive on the desk.
#[unsafe(no_mangle)]
pub extern "C" fn pt_waiting(alloc: Global, h: &mut DeskHandle, p: PtPid, out: &mut usize) -> u32
    ensures { ReadsThrough h.old.state h.new.state result (out.new ≡ out.old)
        (λ d. ShowsCode result out.old out.new length (waits_in d (pid_crossed p))) }
{
    reads::waiting(alloc, h, p, out)
}

/// The item at this place in the mailbox of p, 0 the oldest, which stays there; 8 if there is none.
#[unsafe(no_mangle)]
pub extern "C" fn pt_peek(
    alloc: Global,
    h: &mut DeskHandle,
    p: PtPid,
    place: usize,
    out: &mut PtItem,
) -> u32
    ensures { ReadsThrough h.old.state h.new.state result (out.new ≡ out.old)
        (λ d. ShowsCode result out.old out.new item_out (item_numbered (waits_in d (pid_crossed p)) place)) }
{
    reads::peek(alloc, h, p, place, out)
}

/// The ids under which p is linked with another process, by p's own half of the link; 8 if there are none.
#[unsafe(no_mangle)]
pub extern "C" fn pt_linked(
    alloc: Global,
    h: &mut DeskHandle,
    p: PtPid,
    peer: PtPid,
    out: &mut PtIds,
) -> u32
    ensures { ReadsThrough h.old.state h.new.state result (out.new ≡ out.old)
        (λ d. ShowsCode result out.old out.new ids_out (linked_on_desk d (pid_crossed p) (pid_crossed peer))) }
{
    reads::linked(alloc, h, p, peer, out)
}

/// The number of processes that p is linked with; 8 if p is not alive on the desk.
#[unsafe(no_mangle)]
pub extern "C" fn pt_link_count(alloc: Global, h: &mut DeskHandle, p: PtPid, out: &mut usize) -> u32
    ensures { ReadsThrough h.old.state h.new.state result (out.new ≡ out.old)
        (λ d. ShowsCode result out.old out.new length (links_on_desk d (pid_crossed p))) }
{
    reads::link_count(alloc, h, p, out)
}

/// The process that p is linked with at this place, 0 the oldest link, and the ids of the link; 8 if there is none.
#[unsafe(no_mangle)]
pub extern "C" fn pt_link_at(
    alloc: Global,
    h: &mut DeskHandle,
    p: PtPid,
    place: usize,
    peer: &mut PtPid,
    ids: &mut PtIds,
) -> u32
    ensures { ReadsThrough h.old.state h.new.state result ((peer.new ≡ peer.old) × (ids.new ≡ ids.old))
        (λ d. ShowsCode result peer.old peer.new (λ l. pid_out l.0) (nth_link (links_on_desk d (pid_crossed p)) place)
        × ShowsCode result ids.old ids.new (λ l. ids_out l.1) (nth_link (links_on_desk d (pid_crossed p)) place)) }
{
    reads::link_at(alloc, h, p, place, peer, ids)
}

/// The number of open monitors of p; 8 if p is not alive on the desk.
#[unsafe(no_mangle)]
pub extern "C" fn pt_monitor_count(
    alloc: Global,
    h: &mut DeskHandle,
    p: PtPid,
    out: &mut usize,
) -> u32
    ensures { ReadsThrough h.old.state h.new.state result (out.new ≡ out.old)
        (λ d. ShowsCode result out.old out.new length (monitors_on_desk d (pid_crossed p))) }
{
    reads::monitor_count(alloc, h, p, out)
}

/// The open monitor of p at this place, 0 the oldest, and its target; 8 if there is none.
#[unsafe(no_mangle)]
pub extern "C" fn pt_monitor_at(
    alloc: Global,
    h: &mut DeskHandle,
    p: PtPid,
    place: usize,
    monitor: &mut PtRef,
    target: &mut PtPid,
) -> u32
    ensures { ReadsThrough h.old.state h.new.state result ((monitor.new ≡ monitor.old) × (target.new ≡ target.old))
        (λ d. ShowsCode result monitor.old monitor.new (λ m. ref_out m.0) (nth_monitor (monitors_on_desk d (pid_crossed p)) place)
        × ShowsCode result target.old target.new (λ m. pid_out m.1) (nth_monitor (monitors_on_desk d (pid_crossed p)) place)) }
{
    reads::monitor_at(alloc, h, p, place, monitor, target)
}

/// The number of monitors that others have of p; 8 if p is not alive on the desk.
#[unsafe(no_mangle)]
pub extern "C" fn pt_watcher_count(
    alloc: Global,
    h: &mut DeskHandle,
    p: PtPid,
    out: &mut usize,
) -> u32
    ensures { ReadsThrough h.old.state h.new.state result (out.new ≡ out.old)
        (λ d. ShowsCode result out.old out.new length (watchers_on_desk d (pid_crossed p))) }
{
    reads::watcher_count(alloc, h, p, out)
}

/// The monitor that another process has of p at this place, 0 the oldest, and its owner; 8 if there is none.
#[unsafe(no_mangle)]
pub extern "C" fn pt_watcher_at(
    alloc: Global,
    h: &mut DeskHandle,
    p: PtPid,
    place: usize,
    monitor: &mut PtRef,
    watcher: &mut PtPid,
) -> u32
    ensures { ReadsThrough h.old.state h.new.state result ((monitor.new ≡ monitor.old) × (watcher.new ≡ watcher.old))
        (λ d. ShowsCode result monitor.old monitor.new (λ m. ref_out m.0) (nth_monitor (watchers_on_desk d (pid_crossed p)) place)
        × ShowsCode result watcher.old watcher.new (λ m. pid_out m.1) (nth_monitor (watchers_on_desk d (pid_crossed p)) place)) }
{
    reads::watcher_at(alloc, h, p, place, monitor, watcher)
}

/// Whether p traps exits; 8 if p is not alive on the desk.
#[unsafe(no_mangle)]
pub extern "C" fn pt_traps(alloc: Global, h: &mut DeskHandle, p: PtPid, out: &mut bool) -> u32
    ensures { ReadsThrough h.old.state h.new.state result (out.new ≡ out.old)
        (λ d. ShowsCode result out.old out.new (λ on. on) (traps_on_desk d (pid_crossed p))) }
{
    reads::traps(alloc, h, p, out)
}

/// The live process in this slot of the desk; 8 if there is none.
#[unsafe(no_mangle)]
pub extern "C" fn pt_lives_in(alloc: Global, h: &mut DeskHandle, slot: u32, out: &mut PtPid) -> u32
    ensures { ReadsThrough h.old.state h.new.state result (out.new ≡ out.old)
        (λ d. ShowsCode result out.old out.new pid_out (living_in d.shard slot)) }
{
    reads::lives_in(alloc, h, slot, out)
}

/// The number of events of the desk's journal.
#[unsafe(no_mangle)]
pub extern "C" fn pt_event_count(alloc: Global, h: &mut DeskHandle, out: &mut usize) -> u32
    ensures { ReadsThrough h.old.state h.new.state result (out.new ≡ out.old)
        (λ d. (result ≡ 0) × (out.new ≡ event_count_in d)) }
{
    reads::event_count(alloc, h, out)
}

/// The event at this place of the desk's journal, 0 the oldest; 8 if there is none.
#[unsafe(no_mangle)]
pub extern "C" fn pt_event_at(
    alloc: Global,
    h: &mut DeskHandle,
    place: usize,
    out: &mut PtEvent,
) -> u32
    ensures { ReadsThrough h.old.state h.new.state result (out.new ≡ out.old)
        (λ d. ShowsCode result out.old out.new event_out (event_numbered d place)) }
{
    reads::event_at(alloc, h, place, out)
}

/// The number of desks of the node.
#[unsafe(no_mangle)]
pub extern "C" fn pt_gathered_desks(alloc: Global, g: &mut GatheredHandle, out: &mut u8) -> u32
    ensures { ReadsThrough g.old.state g.new.state result (out.new ≡ out.old)
        (λ d. (result ≡ 0) × (out.new ≡ length d.shards)) }
{
    node_reads::gathered_desks(alloc, g, out)
}

/// The number of desks of the settled node.
#[unsafe(no_mangle)]
pub extern "C" fn pt_quiet_desks(alloc: Global, q: &mut QuietHandle, out: &mut u8) -> u32
    ensures { ReadsThrough q.old.state q.new.state result (out.new ≡ out.old)
        (λ d. (result ≡ 0) × (out.new ≡ length (node_of d).gathered.shards)) }
{
    node_reads::quiet_desks(alloc, q, out)
}

/// The number of letters that settling handled.
#[unsafe(no_mangle)]
pub extern "C" fn pt_quiet_handled(alloc: Global, q: &mut QuietHandle, out: &mut u64) -> u32
    ensures { ReadsThrough q.old.state q.new.state result (out.new ≡ out.old)
        (λ d. (result ≡ 0) × (out.new ≡ (node_of d).handled)) }
{
    node_reads::quiet_handled(alloc, q, out)
}

/// The number of processes ever spawned; 26 if the node has no list of its pids.
#[unsafe(no_mangle)]
pub extern "C" fn pt_quiet_pid_count(alloc: Global, q: &mut QuietHandle, out: &mut usize) -> u32
    ensures { ReadsThrough q.old.state q.new.state result (out.new ≡ out.old) (λ d. TellsCount d result out.old out.new) }
{
    node_reads::quiet_pid_count(alloc, q, out)
}

/// The pid at this place among all ever spawned, by shard, slot and version; 26 if the node has no list of its pids, and
/// else 8 if there is none at the place.
#[unsafe(no_mangle)]
pub extern "C" fn pt_quiet_pid_at(
    alloc: Global,
    q: &mut QuietHandle,
    place: usize,
    out: &mut PtPid,
) -> u32
    ensures { ReadsThrough q.old.state q.new.state result (out.new ≡ out.old) (λ d. TellsPid d place result out.old out.new) }
{
    node_reads::quiet_pid_at(alloc, q, place, out)
}

/// What became of p, as `Settled::account` returns it; 8 if it was never spawned.
#[unsafe(no_mangle)]
pub extern "C" fn pt_quiet_account(
    alloc: Global,
    q: &mut QuietHandle,
    p: PtPid,
    out: &mut PtAccount,
) -> u32
    ensures { ReadsThrough q.old.state q.new.state result (out.new ≡ out.old)
        (λ d. TellsAccount (node_of d) (pid_crossed p) result out.old out.new) }
{
    node_reads::quiet_account(alloc, q, p, out)
}

/// The ids under which p is linked with another process, or was just after its own exit; 8 if there are none.
#[unsafe(no_mangle)]
pub extern "C" fn pt_quiet_linked(
    alloc: Global,
    q: &mut QuietHandle,
    p: PtPid,
    peer: PtPid,
    out: &mut PtIds,
) -> u32
    ensures { ReadsThrough q.old.state q.new.state result (out.new ≡ out.old)
        (λ d. TellsLinked (node_of d) (pid_crossed p) (pid_crossed peer) result out.old out.new) }
{
    node_reads::quiet_linked(alloc, q, p, peer, out)
}

/// Whether a process keeps a watch of this reference, or did just after its own exit.
#[unsafe(no_mangle)]
pub extern "C" fn pt_quiet_kept(
    alloc: Global,
    q: &mut QuietHandle,
    target: PtPid,
    monitor: PtRef,
    out: &mut bool,
) -> u32
    ensures { ReadsThrough q.old.state q.new.state result (out.new ≡ out.old)
        (λ d. TellsKept (node_of d) (pid_crossed target) (ref_in monitor) result out.new) }
{
    node_reads::quiet_kept(alloc, q, target, monitor, out)
}

/// Whether a process's monitor of this reference is open.
#[unsafe(no_mangle)]
pub extern "C" fn pt_quiet_watching(
    alloc: Global,
    q: &mut QuietHandle,
    watcher: PtPid,
    monitor: PtRef,
    out: &mut bool,
) -> u32
    ensures { ReadsThrough q.old.state q.new.state result (out.new ≡ out.old)
        (λ d. TellsWatching (node_of d) (pid_crossed watcher) (ref_in monitor) result out.new) }
{
    node_reads::quiet_watching(alloc, q, watcher, monitor, out)
}

/// The number of events of the history.
#[unsafe(no_mangle)]
pub extern "C" fn pt_history_count(alloc: Global, h: &mut HistoryHandle, out: &mut usize) -> u32
    ensures { ReadsThrough h.old.state h.new.state result (out.new ≡ out.old)
        (λ d. (result ≡ 0) × (out.new ≡ length d.events)) }
{
    node_reads::history_count(alloc, h, out)
}

/// The event at this place of the history, 0 the first; 8 if there is none.
#[unsafe(no_mangle)]
pub extern "C" fn pt_history_at(
    alloc: Global,
    h: &mut HistoryHandle,
    place: usize,
    out: &mut PtEvent,
) -> u32
    ensures { ReadsThrough h.old.state h.new.state result (out.new ≡ out.old)
        (λ d. ShowsCode result out.old out.new event_out (slice_get d.events place)) }
{
    node_reads::history_at(alloc, h, place, out)
}

/// The number of letters left over at the end of the history.
#[unsafe(no_mangle)]
pub extern "C" fn pt_history_left_count(
    alloc: Global,
    h: &mut HistoryHandle,
    out: &mut usize,
) -> u32
    ensures { ReadsThrough h.old.state h.new.state result (out.new ≡ out.old) (λ d. (result ≡ 0) × (out.new ≡ length d.left)) }
{
    node_reads::history_left_count(alloc, h, out)
}

/// The letter at this place among those left over; 8 if there is none.
#[unsafe(no_mangle)]
pub extern "C" fn pt_history_left_at(
    alloc: Global,
    h: &mut HistoryHandle,
    place: usize,
    out: &mut PtLeftOver,
) -> u32
    ensures { ReadsThrough h.old.state h.new.state result (out.new ≡ out.old)
        (λ d. ShowsCode result out.old out.new left_out (slice_get d.left place)) }
{
    node_reads::history_left_at(alloc, h, place, out)
}

/// The next process that got a signal, or exited by its own call, from the event at place `at` of the journal on. `at`
/// is then the place after that event. It returns 8 if there is no such event any more, and then `at` is after the
/// newest.
///
/// So a caller that keeps `at` gets each such event once. No process that got an item or exited is missed: by every
/// event only the process that is returned for it may get an item or exit. A returned one need not have got an item,
/// since a signal may queue nothing.
#[unsafe(no_mangle)]
pub extern "C" fn pt_next_woken(
    alloc: Global,
    h: &mut DeskHandle,
    at: &mut usize,
    out: &mut PtPid,
) -> u32
    ensures all { NobodyIsMissed }
    ensures next { ReadsThrough h.old.state h.new.state result ((at.new ≡ at.old) × (out.new ≡ out.old))
        (λ d. Woken result at.old at.new out.old out.new (reverse d.shard.journal)) }
{
    reads::next_woken(alloc, h, at, out)
}
