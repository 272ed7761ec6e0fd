//! What a desk steps with.

use crate::view::View;
use std::marker::Model;

/// The seat of the directory's table.
pub(crate) type TableSeat = atomic_table::Seat<(), View>;

/// What a desk steps with; it has no bytes.
///
/// A contract sees of which directory it is, whose home it is, what it read, and which deaths it told.
#[derive(Drop)]
pub struct Seat {
    pub(crate) inner: TableSeat,
}

impl Model for Seat {
    ghost use Rattle.std.specs.Prelude.{◌≡◌, []};
    ghost use Rattle.pt_directory.specs.Seats.{SeatState, seat_state};

    ghost Value = { SeatState };

    ghost view = { λ s. seat_state s.inner.table_id s.inner.me.0 };

    ghost invariant = { λ s. (s.inner.me.1 ≡ []) × (s.inner.me.0.begun ≡ []) };
}
