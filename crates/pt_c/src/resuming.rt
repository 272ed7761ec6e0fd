//! Resuming a settled node.

ghost use Rattle.std.specs.Prelude.{map};
ghost use Rattle.pt_c_tools.specs.Nodes.{ResumesAs};

use pt_c_desks::desk_handle::DeskHandle;
use pt_c_desks::quiet_handle::QuietHandle;
use pt_c_tools::resuming;
use std::alloc::Global;

/// Continues from a settled node, as `resume` and `resume_settled` do. Each handle gets one of its desks, in order, with
/// an empty journal over what was left, and the handle of the settled node is empty then.
///
/// It returns 9 if there is no settled node. The handles must be empty, and as many as the node has desks: it returns
/// 10 if one is not empty, else 11 if there are more or fewer. If it returns 2, for want of memory, the settled node is
/// in its handle as it was.
#[unsafe(no_mangle)]
pub extern "C" fn pt_resume(alloc: Global, q: &mut QuietHandle, desks: &mut [DeskHandle]) -> u32
    ensures { ResumesAs result q.old.state q.new.state (map (λ h. h.state) desks.old) (map (λ h. h.state) desks.new) }
{
    resuming::resume_desks(alloc, q, desks)
}
