//! Settling a gathered node, and listing the pids of a settled one.

ghost use Rattle.std.specs.Prelude.{◌≡◌, ⊤, true, false, IfErr, IfOk};
ghost use Rattle.pt_c_values.specs.Places.{CallsThrough};
ghost use Rattle.pt_c_desks.specs.QuietNodes.{is_listed, node_of};
ghost use Rattle.pt_c_tools.specs.Nodes.{IsSettledOf, IsStoppedOf, ListsItsPids, SettlesAs};

use crate::gathered_handle::{
    GatheredHandle, filled as filled_gathered, is_full as has_gathered, take_out as take_gathered,
};
use pt_c_desks::quiet_handle::{
    QuietHandle, claim, filled as filled_quiet, hold, is_full as has_quiet, spare as spare_quiet,
};
use pt_c_desks::quiet_node::QuietNode;
use pt_c_values::codes::{DONE, EMPTY, FILLED, MEMORY, stop_code};
use pt_node::{Gathered, Unsettled};
use std::alloc::Global;

/// Settles the node, as `Gathered::settle` does. `out` has the settled node then, with the list of its pids, and the
/// handle of the gathered one is empty.
///
/// `out` must be empty: it returns 10 if it is not. If it returns 2 or 3, the handle has the node with what was handled
/// so far, and the node may be settled again.
pub fn settle_listed(alloc: Global, g: &mut GatheredHandle, out: &mut QuietHandle) -> u32
    ensures { SettlesAs true result g.old.state g.new.state out.old.state out.new.state }
{
    settle_into(alloc, g, out, true)
}

/// Settles the node, as `Gathered::settle_unlisted` does: without the list of all pids that ever were. `out` has the
/// settled node then, and the handle of the gathered one is empty.
///
/// `out` must be empty: it returns 10 if it is not. If it returns 2 or 3, the handle has the node with what was handled
/// so far, and the node may be settled again.
pub fn settle_unlisted(alloc: Global, g: &mut GatheredHandle, out: &mut QuietHandle) -> u32
    ensures { SettlesAs false result g.old.state g.new.state out.old.state out.new.state }
{
    settle_into(alloc, g, out, false)
}

/// Settles the node, with the list of its pids or without.
fn settle_into(alloc: Global, g: &mut GatheredHandle, out: &mut QuietHandle, listed: bool) -> u32
    ensures { SettlesAs listed result g.old.state g.new.state out.old.state out.new.state }
{
    if !has_gathered(alloc, g) {
        return EMPTY;
    }
    if has_quiet(alloc, out) {
        return FILLED;
    }
    let Ok(empty) = spare_quiet(alloc) else {
        return MEMORY;
    };
    let (place, gathered) = take_gathered(alloc, g).unwrap();
    match settled_node(gathered, listed) {
        Ok(node) => {
            *out = filled_quiet(empty, node);
            DONE
        }
        Err(back) => {
            *g = filled_gathered(place, back.gathered);
            stop_code(Some(back.fault))
        }
    }
}

fn settled_node(gathered: Gathered, listed: bool) -> Result<QuietNode, Unsettled>
    ensures list { IfOk result (λ node. is_listed node ≡ listed) }
    ensures settled { IfOk result (λ node. IsSettledOf gathered (node_of node)) }
    ensures stopped { IfErr result (λ back. IsStoppedOf gathered back.fault back.gathered) }
{
    if listed {
        match gathered.settle() {
            Ok(quiet) => Ok(QuietNode::Listed(quiet)),
            Err(back) => Err(back),
        }
    } else {
        match gathered.settle_unlisted() {
            Ok(settled) => Ok(QuietNode::Unlisted(settled)),
            Err(back) => Err(back),
        }
    }
}

/// Makes the list of all pids that ever were, if the settled node has none.
///
/// If it returns 2, for want of memory, the node is in its handle as it was, without the list.
pub fn list_pids(alloc: Global, q: &mut QuietHandle) -> u32
    ensures { CallsThrough q.old.state q.new.state result ⊤ (λ old new. ListsItsPids result old new) }
{
    let Some(mut place) = claim(alloc, q) else {
        return EMPTY;
    };
    let code = match place.quiet.take() {
        Some(node) => {
            let (node, code) = listed(node);
            place.quiet = Some(node);
            code
        }
        None => EMPTY,
    };
    *q = hold(place);
    code
}

/// The node with the list of its pids and 0, or the node as it was and 2.
fn listed(node: QuietNode) -> (QuietNode, u32)
    ensures { ListsItsPids result.1 node result.0 }
{
    match node.with_list() {
        Ok(node) => (node, DONE),
        Err(node) => (node, MEMORY),
    }
}
