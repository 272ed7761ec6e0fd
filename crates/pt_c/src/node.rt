//! Opening a node, gathering its desks, settling it, and listing its pids.

ghost use Rattle.std.specs.Prelude.{◌≡◌, ⊤, true, false, map};
ghost use Rattle.pt_workers.specs.Desks.{AreDesks};
ghost use Rattle.pt_c_values.specs.Places.{CallsThrough, value_behind, values};
ghost use Rattle.pt_c_tools.specs.Nodes.{OpensAs, IsWholeNode, GathersAs, SettlesAs, ListsItsPids, HandleTells};
ghost use Rattle.pt_c_values.specs.Filling.{GivesUp};
ghost use Rattle.pt_c_tools.specs.Nodes.{IsHistoryOf, IsHistoryOfQuiet};

use pt_c_desks::desk_handle::DeskHandle;
use pt_c_desks::history_handle::HistoryHandle;
use pt_c_desks::quiet_handle::QuietHandle;
use pt_c_tools::gathered_handle::GatheredHandle;
use pt_c_tools::{node, settling};
use pt_c_values::types::PtConfig;
use std::alloc::Global;

/// Opens a node: each handle gets one of its desks, in order, as `open` makes them.
///
/// The handles must be empty: it returns 10 if one is not. It returns 11 to 15 if a setting is out of its range; for 11
/// this is the number of handles.
#[unsafe(no_mangle)]
pub extern "C" fn pt_open(alloc: Global, desks: &mut [DeskHandle], config: PtConfig) -> u32
    ensures { OpensAs config result (map (λ h. h.state) desks.old) (map (λ h. h.state) desks.new) }
{
    node::open_desks(alloc, desks, config)
}

/// Brings the desks of a node together, as `gather` does. `out` has the node then, and the handles of the desks are
/// empty.
///
/// All handles must have a desk: it returns 9 if one has none, or there is no handle. They must be all desks of one
/// `pt_open` or of one resumption, each once and in order: it returns 11 if there are more or fewer than their node has, or
/// one is not at the place of its number. Desks of different nodes are not told apart. `out` must be empty: it returns
/// 10 if it is not. If it returns 2, for want of memory, all desks are in their handles as they were.
#[unsafe(no_mangle)]
pub extern "C" fn pt_gather(
    alloc: Global,
    desks: &mut [DeskHandle],
    out: &mut GatheredHandle,
) -> u32
    requires { IsWholeNode (map (λ h. h.state) desks.old) → AreDesks (values (map (λ h. h.state) desks.old)) }
    ensures { GathersAs result (map (λ h. h.state) desks.old) (map (λ h. h.state) desks.new)
        out.old.state out.new.state }
{
    node::gather_desks(alloc, desks, out)
}

/// Settles the node, as `Gathered::settle` does. `out` has the settled node then, with the list of its pids, and the
/// handle of the gathered one is empty.
///
/// `out` must be empty: it returns 10 if it is not. If it returns 2 or 3, the handle has the node with what was handled
/// so far, and the node may be settled again.
#[unsafe(no_mangle)]
pub extern "C" fn pt_settle(alloc: Global, g: &mut GatheredHandle, out: &mut QuietHandle) -> u32
    ensures { SettlesAs true result g.old.state g.new.state out.old.state out.new.state }
{
    settling::settle_listed(alloc, g, out)
}

/// Settles the node, as `Gathered::settle_unlisted` does: without the list of all pids that ever were. `out` has the
/// settled node then, and the handle of the gathered one is empty.
///
/// `out` must be empty: it returns 10 if it is not. If it returns 2 or 3, the handle has the node with what was handled
/// so far, and the node may be settled again.
#[unsafe(no_mangle)]
pub extern "C" fn pt_settle_unlisted(
    alloc: Global,
    g: &mut GatheredHandle,
    out: &mut QuietHandle,
) -> u32
    ensures { SettlesAs false result g.old.state g.new.state out.old.state out.new.state }
{
    settling::settle_unlisted(alloc, g, out)
}

/// Makes the list of all pids that ever were, if the settled node has none.
///
/// If it returns 2, for want of memory, the node is in its handle as it was, without the list.
#[unsafe(no_mangle)]
pub extern "C" fn pt_quiet_list(alloc: Global, q: &mut QuietHandle) -> u32
    ensures { CallsThrough q.old.state q.new.state result ⊤ (λ old new. ListsItsPids result old new) }
{
    settling::list_pids(alloc, q)
}

/// Gives up a desk, with its processes, its journal and the letters in it. The handle is empty then, and the memory is
/// freed.
#[unsafe(no_mangle)]
pub extern "C" fn pt_give_up(alloc: Global, h: &mut DeskHandle) -> u32
    ensures { GivesUp result h.old.state h.new.state }
{
    node::give_up_desk(alloc, h)
}

/// Gives up a gathered node.
#[unsafe(no_mangle)]
pub extern "C" fn pt_gathered_give_up(alloc: Global, g: &mut GatheredHandle) -> u32
    ensures { GivesUp result g.old.state g.new.state }
{
    node::give_up_gathered(alloc, g)
}

/// Gives up a settled node.
#[unsafe(no_mangle)]
pub extern "C" fn pt_quiet_give_up(alloc: Global, q: &mut QuietHandle) -> u32
    ensures { GivesUp result q.old.state q.new.state }
{
    node::give_up_quiet(alloc, q)
}

/// Gives up a history.
#[unsafe(no_mangle)]
pub extern "C" fn pt_history_give_up(alloc: Global, h: &mut HistoryHandle) -> u32
    ensures { GivesUp result h.old.state h.new.state }
{
    node::give_up_history(alloc, h)
}

/// The history of a gathered node, as `Gathered::history` and `Gathered::left_over` return it. `out` has it then.
///
/// `out` must be empty: it returns 10 if it is not.
#[unsafe(no_mangle)]
pub extern "C" fn pt_gathered_history(
    alloc: Global,
    g: &mut GatheredHandle,
    out: &mut HistoryHandle,
) -> u32
    ensures tells { HandleTells result (value_behind g.old.state) IsHistoryOf out.old.state out.new.state }
    ensures same { g.new.state ≡ g.old.state }
{
    node::gathered_history(alloc, g, out)
}

/// The history of a settled node, as `Settled::history` returns it. `out` has it then, with no letter left over.
///
/// `out` must be empty: it returns 10 if it is not.
#[unsafe(no_mangle)]
pub extern "C" fn pt_quiet_history(
    alloc: Global,
    q: &mut QuietHandle,
    out: &mut HistoryHandle,
) -> u32
    ensures tells { HandleTells result (value_behind q.old.state) IsHistoryOfQuiet out.old.state out.new.state }
    ensures same { q.new.state ≡ q.old.state }
{
    node::quiet_history(alloc, q, out)
}
