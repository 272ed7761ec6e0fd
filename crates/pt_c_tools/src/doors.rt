//! Giving up the two ends of a way in.

ghost use Rattle.pt_c_values.specs.Filling.{GivesUp};

use crate::door_handle::{DoorHandle, claim as claim_door};
use crate::way_in_handle::{WayInHandle, claim as claim_way_in};
use pt_c_values::codes::EMPTY;
use pt_c_values::ending::end_code;
use std::alloc::Global;

/// Gives up a door. What was handed in stays, and is taken out at the other end.
pub fn give_up_door(alloc: Global, d: &mut DoorHandle) -> u32
    ensures { GivesUp result d.old.state d.new.state }
{
    match claim_door(alloc, d) {
        Some(place) => end_code(place.door.is_some()),
        None => EMPTY,
    }
}

/// Gives up the end of a desk. The messages that wait in the way in are dropped.
pub fn give_up_way_in(alloc: Global, w: &mut WayInHandle) -> u32
    ensures { GivesUp result w.old.state w.new.state }
{
    match claim_way_in(alloc, w) {
        Some(place) => end_code(place.way_in.is_some()),
        None => EMPTY,
    }
}
