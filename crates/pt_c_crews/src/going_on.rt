//! Going on with a node and its crews, in one call.

ghost use Rattle.std.specs.Prelude.{◌≡◌, map};
ghost use Rattle.pt_workers.specs.Desks.{AreDesks};
ghost use Rattle.pt_c_values.specs.Places.{values};
ghost use Rattle.pt_c_tools.specs.Nodes.{IsWholeNode};
ghost use Rattle.pt_c_crews.specs.NodeGoingOn.{GoOnWith, NodeGoesOn, ResumesWith};

use crate::crew_handle::CrewHandle;
use crate::rows::{are_own, count_crews, go_on_all};
use pt_c_desks::desk_handle::DeskHandle;
use pt_c_desks::history_handle::{HistoryHandle, claim, hold, is_full as has_history};
use pt_c_desks::quiet_handle::QuietHandle;
use pt_c_tools::first_stages::{gather_first, settle_first};
use pt_c_tools::gathered_handle::GatheredHandle;
use pt_c_tools::node::{give_up_history, quiet_history};
use pt_c_tools::resuming::resume_desks;
use pt_c_tools::settling::settle_unlisted;
use pt_c_values::codes::{DONE, EMPTY, FILLED, WRONG_DESK, open_code};
use pt_node::{OpenError, Setting};
use std::alloc::Global;

/// Continues with a node and its crews. It gathers the desks and settles the node, takes its history, and resumes it. Then
/// each crew continues over the desk at its place, as `Scheduler::go_on` does with that history. The desks are in their
/// handles again, and `history` has the history. The node keeps its directory of exited processes.
///
/// These come first, and then nothing has changed. It returns 9 if a handle of `crews` has no crew, else 11 if there are
/// more or fewer crews than desks, else 10 if `history` is not empty, else 18 if a crew is that of a desk with another
/// number than its place.
///
/// Then it makes the calls `gather_desks`, `settle_unlisted`, `quiet_history` and `resume_desks`, up to the first that
/// does not return 0, and returns its code. The crews and `history` are as they were then, and the node is where that
/// call left it: in the handles of the desks, in `gathered` or in `settled`. So the same call made again does the rest:
/// the desks are gathered only if neither `gathered` nor `settled` has a node, and the node is settled only if `settled`
/// has none. It returns 10 if a desk, too, is in its handle, or if both have a node.
pub fn crews_go_on(
    alloc: Global,
    crews: &mut [CrewHandle],
    desks: &mut [DeskHandle],
    gathered: &mut GatheredHandle,
    settled: &mut QuietHandle,
    history: &mut HistoryHandle,
) -> u32
    requires { IsWholeNode (map (λ h. h.state) desks.old) → AreDesks (values (map (λ h. h.state) desks.old)) }
    ensures { NodeGoesOn result
        (record {
          crews = map (λ h. h.state) crews.old;
          desks = map (λ h. h.state) desks.old;
          gathered = gathered.old.state;
          settled = settled.old.state;
          history = history.old.state;
        })
        (record {
          crews = map (λ h. h.state) crews.new;
          desks = map (λ h. h.state) desks.new;
          gathered = gathered.new.state;
          settled = settled.new.state;
          history = history.new.state;
        }) }
{
    let count = count_crews(alloc, crews);
    if count != crews.len() {
        return EMPTY;
    }
    if crews.len() != desks.len() {
        return open_code(OpenError::Bounds(Setting::Desks));
    }
    if has_history(alloc, history) {
        return FILLED;
    }
    if !are_own(alloc, crews) {
        return WRONG_DESK;
    }
    let first = gather_first(alloc, desks, gathered, settled);
    if first != DONE {
        return first;
    }
    let second = settle_first(alloc, gathered, settled);
    if second != DONE {
        return second;
    }
    resume_crews(alloc, crews, desks, settled, history)
}

/// Resumes the node. The crews go on with its history, which `history` has then.
fn resume_crews(
    alloc: Global,
    crews: &mut [CrewHandle],
    desks: &mut [DeskHandle],
    settled: &mut QuietHandle,
    history: &mut HistoryHandle,
) -> u32
    ensures { ResumesWith result (map (λ h. h.state) crews.old) (map (λ h. h.state) crews.new)
        (map (λ h. h.state) desks.old) (map (λ h. h.state) desks.new) settled.old.state settled.new.state
        history.old.state history.new.state }
{
    let mut told = HistoryHandle::none();
    let read = quiet_history(alloc, settled, &mut told);
    if read != DONE {
        return read;
    }
    let resumed = resume_desks(alloc, settled, desks);
    if resumed != DONE {
        // (a handle that goes out of scope frees nothing)
        give_up_history(alloc, &mut told);
        return resumed;
    }
    go_on_with(alloc, crews, &mut told);
    *history = told;
    DONE
}

/// The crews go on with the history of the handle, if there is one.
fn go_on_with(alloc: Global, crews: &mut [CrewHandle], told: &mut HistoryHandle)
    ensures crews { GoOnWith told.old.state (map (λ h. h.state) crews.old) (map (λ h. h.state) crews.new) }
    ensures same { told.new.state ≡ told.old.state }
{
    let Some(place) = claim(alloc, told) else {
        return;
    };
    if let Some(history) = &place.history {
        go_on_all(alloc, crews, history.events.as_slice());
    }
    *told = hold(place);
}
