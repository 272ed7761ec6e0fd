//! Resuming a settled node.

ghost use Rattle.std.specs.Prelude.{◌≡◌, length, map, IfErr, IfOk};
ghost use Rattle.std.specs.Option.{option_map};
ghost use Rattle.pt_node.specs.Resuming.{Resumes};
ghost use Rattle.pt_c_values.specs.Places.{value_behind};
ghost use Rattle.pt_c_desks.specs.QuietNodes.{node_of};
ghost use Rattle.pt_c_tools.specs.Nodes.{ResumesAs};

use pt_c_desks::desk_handle::DeskHandle;
use pt_c_desks::quiet_handle::{QuietHandle, claim, filled, hold, take_out};
use pt_c_desks::quiet_node::QuietNode;
use pt_c_desks::rows::{count_full, fill_all, spare_places};
use pt_c_values::codes::{DONE, EMPTY, FILLED, MEMORY, open_code};
use pt_node::{Desk, OpenError, Setting, resume, resume_settled};
use std::alloc::Global;

/// Continues from a settled node, as `resume` and `resume_settled` do. Each handle gets one of its desks, in order, with
/// an empty journal over what was left, and the handle of the settled node is empty then.
///
/// It returns 9 if there is no settled node. The handles must be empty, and as many as the node has desks: it returns
/// 10 if one is not empty, else 11 if there are more or fewer. If it returns 2, for want of memory, the settled node is
/// in its handle as it was.
pub fn resume_desks(alloc: Global, q: &mut QuietHandle, desks: &mut [DeskHandle]) -> u32
    ensures { ResumesAs result q.old.state q.new.state (map (λ h. h.state) desks.old) (map (λ h. h.state) desks.new) }
{
    let Some(count) = desk_count(alloc, q) else {
        return EMPTY;
    };
    if count_full(alloc, desks) != 0 {
        return FILLED;
    }
    if count != desks.len() {
        return open_code(OpenError::Bounds(Setting::Desks));
    }
    let Ok(places) = spare_places(alloc, desks.len()) else {
        return MEMORY;
    };
    let (place, node) = take_out(alloc, q).unwrap();
    match resume_node(alloc, node) {
        Ok(list) => {
            fill_all(desks, places, list);
            DONE
        }
        Err(node) => {
            *q = filled(place, node);
            MEMORY
        }
    }
}

/// Continues from a settled node. Fails only for want of memory: the node then comes back as it was.
fn resume_node(alloc: Global, node: QuietNode) -> Result<Vec<Desk>, QuietNode>
    ensures resumes { IfOk result (λ desks. Resumes (node_of node).gathered desks.items) }
    ensures back { IfErr result (λ back. back ≡ node) }
{
    match node {
        QuietNode::Listed(quiet) => match resume(alloc, quiet) {
            Ok(desks) => Ok(desks),
            Err(back) => Err(QuietNode::Listed(back.quiet)),
        },
        QuietNode::Unlisted(settled) => match resume_settled(alloc, settled) {
            Ok(desks) => Ok(desks),
            Err(settled) => Err(QuietNode::Unlisted(settled)),
        },
    }
}

/// The number of desks of the settled node, if there is one.
fn desk_count(alloc: Global, q: &mut QuietHandle) -> Option<usize>
    ensures same { q.new.state ≡ q.old.state }
    ensures count { result ≡ option_map (λ d. length (node_of d).gathered.shards) (value_behind q.old.state) }
{
    let place = claim(alloc, q)?;
    let count = match &place.quiet {
        Some(node) => Some(usize::from(node.settled().desks())),
        None => None,
    };
    *q = hold(place);
    count
}
