//! The stages of going on with a node that need no crew: gathering and settling, if they were not made before.

ghost use Rattle.std.specs.Prelude.{◌≡◌, map};
ghost use Rattle.pt_workers.specs.Desks.{AreDesks};
ghost use Rattle.pt_c_values.specs.Places.{values};
ghost use Rattle.pt_c_values.specs.Codes.{filled};
ghost use Rattle.pt_c_tools.specs.Nodes.{IsWholeNode};
ghost use Rattle.pt_c_values.specs.Filling.{IfNone};
ghost use Rattle.pt_c_tools.specs.FirstStages.{GathersFirst, SettlesFirst};

use crate::gathered_handle::{GatheredHandle, is_full as has_gathered};
use crate::node::gather_desks;
use crate::settling::settle_unlisted;
use pt_c_desks::desk_handle::DeskHandle;
use pt_c_desks::quiet_handle::{QuietHandle, is_full as has_settled};
use pt_c_desks::rows::count_full;
use pt_c_values::codes::{DONE, FILLED};
use std::alloc::Global;

/// Gathers the desks, if neither of the two handles has a node.
pub fn gather_first(
    alloc: Global,
    desks: &mut [DeskHandle],
    gathered: &mut GatheredHandle,
    settled: &mut QuietHandle,
) -> u32
    requires { IsWholeNode (map (λ h. h.state) desks.old) → AreDesks (values (map (λ h. h.state) desks.old)) }
    ensures gathers { GathersFirst result (map (λ h. h.state) desks.old) (map (λ h. h.state) desks.new)
        gathered.old.state gathered.new.state settled.old.state }
    ensures same { settled.new.state ≡ settled.old.state }
{
    let is_gathered = has_gathered(alloc, gathered);
    if is_gathered {
        return passed_over(alloc, desks);
    }
    let is_settled = has_settled(alloc, settled);
    if is_settled {
        return passed_over(alloc, desks);
    }
    gather_desks(alloc, desks, gathered)
}

/// The code where the desks are not gathered, since they were before: their handles have to be empty.
fn passed_over(alloc: Global, desks: &mut [DeskHandle]) -> u32
    ensures code { IfNone (values (map (λ h. h.state) desks.old)) (result ≡ 0) (result ≡ filled) }
    ensures same { map (λ h. h.state) desks.new ≡ map (λ h. h.state) desks.old }
{
    if count_full(alloc, desks) != 0 {
        return FILLED;
    }
    DONE
}

/// Settles the node, if it is not settled.
pub fn settle_first(alloc: Global, gathered: &mut GatheredHandle, settled: &mut QuietHandle) -> u32
    ensures { SettlesFirst result gathered.old.state gathered.new.state settled.old.state settled.new.state }
{
    let is_settled = has_settled(alloc, settled);
    if !is_settled {
        return settle_unlisted(alloc, gathered, settled);
    }
    let is_gathered = has_gathered(alloc, gathered);
    if is_gathered {
        return FILLED;
    }
    DONE
}
