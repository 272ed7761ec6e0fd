//! Making all lanes of a node.

ghost use Rattle.std.specs.Prelude.{◌≡◌, ℕ, ◌<◌, ◌≤◌, map, [], ◌∷◌, ◌++◌, IfOk, slice_index_or, vec_len};
ghost use Rattle.pt_carrier.specs.Lanes.{Sending, new_sending, new_receiving};
ghost use Rattle.pt_carrier.specs.Ends.{OutEnds, InEnds};
ghost use Rattle.pt_carrier.specs.Node.{places, IsNode, IsNew, lists};
ghost use Rattle.pt_carrier.specs.Opening.{AreLanes};
ghost use Rattle.pt_signal.specs.declared.config.TheConstants.{MAX_DESKS, MAX_LANE};

use crate::ends::{Ins, Outs};
use crate::lane::{self, InLane, OutLane};
use std::alloc::{AllocError, Global};
use std::mem;

/// Makes the lanes among `desks` desks, each for `capacity` letters, and returns the ends of each desk in order.
///
/// Fails only if there is no memory; all that was made is then freed.
pub fn open(alloc: Global, desks: u8, capacity: u32) -> Result<Vec<(Outs, Ins)>, AllocError>
    requires desks { (1 ≤ desks) × (desks ≤ MAX_DESKS) }
    requires capacity { (1 ≤ capacity) × (capacity ≤ MAX_LANE) }
    ensures count { IfOk result (λ v. vec_len v ≡ desks) }
    ensures node { IfOk result (λ v. IsNode (map places v.items)) }
    ensures new { IfOk result
        (λ v. (d : ℕ) (p : OutEnds × InEnds) → d < desks → IsNew desks capacity (slice_index_or v.items d p)) }
{
    let (rows, columns) = all_lanes(alloc, desks, capacity)?;
    pair_up(alloc, desks, capacity, rows, columns)
}

/// All lanes: those out of each desk, and those into each desk.
fn all_lanes(
    alloc: Global,
    desks: u8,
    capacity: u32,
) -> Result<(Vec<Vec<OutLane>>, Vec<Vec<InLane>>), AllocError>
    requires { 1 ≤ capacity }
    ensures { IfOk result (λ r. AreLanes desks desks capacity (lists r.0.items) (lists r.1.items)) }
{
    let mut columns = empty_columns(alloc, desks)?;
    let mut rows = Vec::with_capacity(alloc, usize::from(desks))?;
    for d in 0..desks {
        rows.push(lanes_from(alloc, d, desks, capacity, &mut columns)?)?;
    }
    Ok((rows, columns))
}

/// A list for the lanes into each desk.
fn empty_columns(alloc: Global, desks: u8) -> Result<Vec<Vec<InLane>>, AllocError>
    ensures { IfOk result (λ v. (vec_len v ≡ desks) × ((e : ℕ) → slice_index_or (lists v.items) e [] ≡ [])) }
{
    let mut columns = Vec::with_capacity(alloc, usize::from(desks))?;
    for _e in 0..desks {
        columns.push(Vec::with_capacity(alloc, usize::from(desks))?)?;
    }
    Ok(columns)
}

/// The lanes out of desk d. The other end of each is put after the lanes into its desk.
fn lanes_from(
    alloc: Global,
    d: u8,
    desks: u8,
    capacity: u32,
    columns: &mut Vec<Vec<InLane>>,
) -> Result<Vec<OutLane>, AllocError>
    requires columns { vec_len columns.old ≡ desks }
    requires capacity { 1 ≤ capacity }
    ensures desks { IfOk result (λ row. (vec_len row ≡ desks) × (vec_len columns.new ≡ desks)) }
    ensures row { IfOk result
        (λ row. (e : ℕ) (x : Sending) → e < desks
        → slice_index_or row.items e x ≡ new_sending (slice_index_or row.items e x).ring d e capacity) }
    ensures columns { IfOk result
        (λ row. (e : ℕ) (x : Sending) → e < desks
        → slice_index_or (lists columns.new.items) e []
        ≡ slice_index_or (lists columns.old.items) e [] ++ new_receiving (slice_index_or row.items e x).ring d e ∷ []) }
{
    let mut row = Vec::with_capacity(alloc, usize::from(desks))?;
    for e in 0..desks {
        let (out, into) = lane::make(alloc, d, e, capacity as usize)?;
        row.push(out)?;
        columns[usize::from(e)].push(into)?;
    }
    Ok(row)
}

/// The ends of each desk. They are made only here, after all that can fail, since they cannot be dropped.
fn pair_up(
    alloc: Global,
    desks: u8,
    capacity: u32,
    rows: Vec<Vec<OutLane>>,
    columns: Vec<Vec<InLane>>,
) -> Result<Vec<(Outs, Ins)>, AllocError>
    requires desks { desks ≤ MAX_DESKS }
    requires lanes { AreLanes desks desks capacity (lists rows.items) (lists columns.items) }
    ensures count { IfOk result (λ v. vec_len v ≡ desks) }
    ensures node { IfOk result (λ v. IsNode (map places v.items)) }
    ensures new { IfOk result
        (λ v. (d : ℕ) (p : OutEnds × InEnds) → d < desks → IsNew desks capacity (slice_index_or v.items d p)) }
{
    let mut rows = rows;
    let mut columns = columns;
    let mut pairs = Vec::with_capacity(alloc, usize::from(desks))?;
    for d in 0..desks {
        let outs = Outs::new(d, mem::replace(&mut rows[usize::from(d)], Vec::new(alloc)));
        let ins = Ins::new(
            d,
            mem::replace(&mut columns[usize::from(d)], Vec::new(alloc)),
        );
        pairs.push_reserved((outs, ins));
    }
    Ok(pairs)
}
