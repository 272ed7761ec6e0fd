//! The handles of crews, in a row.

ghost use Rattle.std.specs.Prelude.{◌≡◌, length, map, reverse};
ghost use Rattle.pt_c_values.specs.Places.{value_behind, values};
ghost use Rattle.pt_c_crews.specs.GoingOn.{AllCrewsGoOn, CrewGoesOn};
ghost use Rattle.pt_c_values.specs.Codes.{is_number_of};
ghost use Rattle.pt_c_crews.specs.Owning.{are_own, fits_at};
ghost use Rattle.pt_scheduler.specs.Owning.{desk_of};

use crate::crew_handle::{CrewHandle, claim, hold, is_full};
use pt_events::Stamped;
use pt_scheduler::Scheduler;
use std::alloc::Global;

/// The number of handles that have a crew.
pub fn count_crews(alloc: Global, crews: &mut [CrewHandle]) -> usize
    ensures same { map (λ h. h.state) crews.new ≡ map (λ h. h.state) crews.old }
    ensures count { result ≡ length (values (map (λ h. h.state) crews.old)) }
{
    let mut count = 0;
    for k in 0..crews.len() {
        count += usize::from(is_full(alloc, &mut crews[k]));
    }
    count
}

/// Whether each crew is that of the desk of its place, or may be that of any desk.
pub fn are_own(alloc: Global, crews: &mut [CrewHandle]) -> bool
    ensures same { map (λ h. h.state) crews.new ≡ map (λ h. h.state) crews.old }
    ensures own { result ≡ are_own 0 (map (λ h. h.state) crews.old) }
{
    for k in 0..crews.len() {
        if !fits_at(alloc, &mut crews[k], k) {
            return false;
        }
    }
    true
}

/// Whether the crew of the handle, if there is one, may be used with the desk of this place.
fn fits_at(alloc: Global, h: &mut CrewHandle, place: usize) -> bool
    ensures same { h.new.state ≡ h.old.state }
    ensures fits { result ≡ fits_at place (value_behind h.old.state) }
{
    let Some(held) = claim(alloc, h) else {
        return true;
    };
    let fits = match &held.crew {
        Some(crew) => has_number(crew, place),
        None => true,
    };
    *h = hold(held);
    fits
}

/// Whether this is the number of the crew's desk, or the crew may be that of any desk.
fn has_number(crew: &Scheduler, number: usize) -> bool
    ensures { result ≡ is_number_of (desk_of crew.now) number }
{
    match crew.desk() {
        Some(own) => usize::from(own) == number,
        None => true,
    }
}

/// Each crew goes on over a desk of the resumed node, with the history of the node before.
pub fn go_on_all(alloc: Global, crews: &mut [CrewHandle], history: &[Stamped])
    ensures { AllCrewsGoOn (reverse history.now) (map (λ h. h.state) crews.old) (map (λ h. h.state) crews.new) }
{
    for k in 0..crews.len() {
        go_on_one(alloc, &mut crews[k], history);
    }
}

/// The crew of the handle goes on, if there is one.
fn go_on_one(alloc: Global, h: &mut CrewHandle, history: &[Stamped])
    ensures { CrewGoesOn (reverse history.now) h.old.state h.new.state }
{
    let Some(mut place) = claim(alloc, h) else {
        return;
    };
    if let Some(crew) = &mut place.crew {
        crew.go_on(history);
    }
    *h = hold(place);
}
