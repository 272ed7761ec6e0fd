//! Going on with a node and its crews, in one call.

ghost use Rattle.std.specs.Prelude.{map};
ghost use Rattle.pt_workers.specs.Desks.{AreDesks};
ghost use Rattle.pt_c_values.specs.Places.{values};
ghost use Rattle.pt_c_tools.specs.Nodes.{IsWholeNode};
ghost use Rattle.pt_c_crews.specs.NodeGoingOn.{NodeGoesOn};

use pt_c_crews::crew_handle::CrewHandle;
use pt_c_crews::going_on;
use pt_c_desks::desk_handle::DeskHandle;
use pt_c_desks::history_handle::HistoryHandle;
use pt_c_desks::quiet_handle::QuietHandle;
use pt_c_tools::gathered_handle::GatheredHandle;
use std::alloc::Global;

/// Continues with a node and its crews. It gathers the desks and settles the node, takes its history, and resumes it. Then
/// each crew continues over the desk at its place, as `Scheduler::go_on` does with that history. The desks are in their
/// handles again, and `history` has the history. The node keeps its directory of exited processes.
///
/// These come first, and then nothing has changed. It returns 9 if a handle of `crews` has no crew, else 11 if there are
/// more or fewer crews than desks, else 10 if `history` is not empty, else 18 if a crew is that of a desk with another
/// number than its place.
///
/// Then it makes the calls `pt_gather`, `pt_settle_unlisted`, `pt_quiet_history` and `pt_resume`, up to the first that
/// does not return 0, and returns its code. The crews and `history` are as they were then, and the node is where that
/// call left it: in the handles of the desks, in `gathered` or in `settled`. So the same call made again does the rest:
/// the desks are gathered only if neither `gathered` nor `settled` has a node, and the node is settled only if `settled`
/// has none. It returns 10 if a desk, too, is in its handle, or if both have a node.
#[unsafe(no_mangle)]
pub extern "C" fn pt_crews_go_on(
    alloc: Global,
    crews: &mut [CrewHandle],
    desks: &mut [DeskHandle],
    gathered: &mut GatheredHandle,
    settled: &mut QuietHandle,
    history: &mut HistoryHandle,
) -> u32
    requires { IsWholeNode (map (λ h. h.state) desks.old) → AreDesks (values (map (λ h. h.state) desks.old)) }
    ensures { NodeGoesOn result
        (record {
          crews = map (λ h. h.state) crews.old;
          desks = map (λ h. h.state) desks.old;
          gathered = gathered.old.state;
          settled = settled.old.state;
          history = history.old.state;
        })
        (record {
          crews = map (λ h. h.state) crews.new;
          desks = map (λ h. h.state) desks.new;
          gathered = gathered.new.state;
          settled = settled.new.state;
          history = history.new.state;
        }) }
{
    going_on::crews_go_on(alloc, crews, desks, gathered, settled, history)
}
