//! The seats of a node's desks in the directory of exited processes.

ghost use Rattle.std.specs.Prelude.{◌≡◌, ◌<◌, List, map, slice_index_or, IfOk, vec_len};
ghost use Rattle.std.specs.Arc.{arc_value};
ghost use Rattle.atomic_table.specs.Seated.{TableId};
ghost use Rattle.pt_directory.specs.Views.{up_from};
ghost use Rattle.pt_directory.specs.Seats.{AreEnded, AreLate, late_seat};
ghost use Rattle.pt_signal.specs.Settings.{IsInRange};
ghost use Rattle.pt_node.specs.Seating.{Seated, AreFreshSeats, AreOf, AreAudited, together};

use pt_directory::{Directory, Seat};
use pt_gathered::Kept;
use pt_shard::Config;
use pt_signal::Pid;
use std::alloc::{AllocError, Global};
use std::sync::Arc;

/// A desk's seat, beside the directory of its node.
pub(crate) type Seated = (Arc<Directory, Global>, Seat);

/// The seats of a node's desks, in order, in a new directory in which these pids have exited.
pub(crate) fn fresh_seats(
    alloc: Global,
    config: Config,
    ended: &[(Pid, u64)],
) -> Result<Vec<Seated>, AllocError>
    requires range { IsInRange config }
    requires ended { AreEnded config.desks config.slots ended.now }
    ensures { IfOk result (λ v. AreFreshSeats config ended.now (map (λ p. (arc_value p.0, p.1)) v.items)) }
{
    let mut seated = Vec::with_capacity(alloc, usize::from(config.desks))?;
    let (directory, mut seats) = Directory::reopen(alloc, config.desks, config.slots, ended)?;
    let directory = Arc::new(alloc, directory)?;
    seats.reverse();
    while let Some(seat) = seats.pop() {
        seated.push_reserved((directory.clone()?, seat));
    }
    Ok(seated)
}

/// The seats of a node's desks, in order, made anew of what was kept of its directory. Of these pids those are reported
/// to have exited that were not reported yet.
pub(crate) fn kept_seats(
    alloc: Global,
    desks: u8,
    kept: Kept,
    ended: &[(Pid, u64)],
) -> Result<Vec<Seated>, AllocError>
    requires seat { (kept.seat.name ≡ kept.directory.name) × (kept.seat.homes ≡ up_from 0 kept.directory.desks) }
    requires desks { desks ≡ kept.directory.desks }
    requires ended { AreLate kept.directory kept.seat.deaths ended.now }
    ensures { IfOk result (λ v. ◌≡◌ {A = List Seated} (map (λ p. (arc_value p.0, p.1)) v.items)
        (map (λ n. (kept.directory, late_seat kept.directory.name kept.seat.deaths ended.now n)) (up_from 0 desks))) }
{
    let mut seated = Vec::with_capacity(alloc, usize::from(desks))?;
    let (directory, seat, _written) = kept.into_parts();
    let mut seats = directory.go_on(alloc, seat, ended)?;
    seats.reverse();
    while let Some(seat) = seats.pop() {
        seated.push_reserved((directory.clone()?, seat));
    }
    Ok(seated)
}

/// Joins all seats, in order, and audits what they know together. It returns that with the lengths of the journals.
pub(crate) fn audit_all(seats: Vec<Seated>, written: Vec<usize>) -> Kept
    requires some { 0 < vec_len seats }
    requires one { (name : TableId) × AreOf name (map (λ p. (arc_value p.0, p.1)) seats.items) }
    ensures audited { AreAudited (map (λ p. (arc_value p.0, p.1)) seats.items) }
    ensures directory { (p : Seated) → (slice_index_or (map (λ p. (arc_value p.0, p.1)) seats.items) 0 p).0
        ≡ result.directory }
    ensures seat { result.seat ≡ together result.directory.name (map (λ p. (arc_value p.0, p.1)) seats.items) }
    ensures written { result.written ≡ written.items }
{
    let mut seats = seats;
    let (directory, mut seat) = seats.remove(0);
    seats.reverse();
    while let Some((_directory, other)) = seats.pop() {
        directory.join(&mut seat, other);
    }
    directory.audit(&mut seat);
    Kept::of(directory, seat, written)
}
