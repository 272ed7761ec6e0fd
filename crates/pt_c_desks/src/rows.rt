//! The handles of desks, in a row.

ghost use Rattle.std.specs.Prelude.{◌≡◌, ◌≤◌, [], map, length, replicate, None, IfOk};
ghost use Rattle.std.specs.Vec.{vec_capacity};
ghost use Rattle.pt_c_values.specs.Places.{value_behind, values, full};
ghost use Rattle.pt_c_desks.specs.InOrder.{are_in_order, is_desk_at};

use crate::desk_handle::{DeskHandle, claim, filled, hold, is_full, spare, take_out};
use crate::held::HeldDesk;
use pt_desk::Desk;
use std::alloc::{AllocError, Global};

/// The number of handles that have a desk.
pub fn count_full(alloc: Global, desks: &mut [DeskHandle]) -> usize
    ensures same { map (λ h. h.state) desks.new ≡ map (λ h. h.state) desks.old }
    ensures count { result ≡ length (values (map (λ h. h.state) desks.old)) }
{
    let mut count = 0;
    for k in 0..desks.len() {
        count += usize::from(is_full(alloc, &mut desks[k]));
    }
    count
}

/// Whether each handle has the desk of its place, in a node of as many desks as there are handles.
pub fn are_in_order(alloc: Global, desks: &mut [DeskHandle]) -> bool
    ensures same { map (λ h. h.state) desks.new ≡ map (λ h. h.state) desks.old }
    ensures order { result ≡ are_in_order 0 (length desks.old) (map (λ h. h.state) desks.old) }
{
    let count = desks.len();
    for k in 0..count {
        if !is_desk_at(alloc, &mut desks[k], k, count) {
            return false;
        }
    }
    true
}

/// Whether the handle has the desk of this place, in a node of so many desks.
fn is_desk_at(alloc: Global, h: &mut DeskHandle, place: usize, count: usize) -> bool
    ensures same { h.new.state ≡ h.old.state }
    ensures at { result ≡ is_desk_at place count (value_behind h.old.state) }
{
    let Some(held) = claim(alloc, h) else {
        return false;
    };
    let at = match &held.desk {
        Some(desk) => {
            usize::from(desk.number()) == place && usize::from(desk.config().desks) == count
        }
        None => false,
    };
    *h = hold(held);
    at
}

/// Takes the desks of all handles, and their places.
pub fn empty_all(
    alloc: Global,
    desks: &mut [DeskHandle],
    places: &mut Vec<Box<HeldDesk, Global>>,
    list: &mut Vec<Desk>,
)
    requires room { (length desks.old ≤ vec_capacity list.old) × (length desks.old ≤ vec_capacity places.old) }
    requires none { (list.old.items ≡ []) × (places.old.items ≡ []) }
    requires full { length (values (map (λ h. h.state) desks.old)) ≡ length desks.old }
    ensures list { list.new.items ≡ values (map (λ h. h.state) desks.old) }
    ensures places { length places.new.items ≡ length desks.old }
    ensures empty { map (λ h. h.state) desks.new ≡ replicate (length desks.old) None }
{
    for k in 0..desks.len() {
        let (place, desk) = take_out(alloc, &mut desks[k]).unwrap();
        list.push_reserved(desk);
        places.push_reserved(place);
    }
}

/// Fills each handle with a place that has one of these desks.
pub fn fill_all(desks: &mut [DeskHandle], places: Vec<Box<HeldDesk, Global>>, list: Vec<Desk>)
    requires places { length places.items ≡ length desks.old }
    requires list { length list.items ≡ length desks.old }
    ensures { map (λ h. h.state) desks.new ≡ map full list.items }
{
    let mut places = places;
    let mut list = list;
    let mut k = desks.len();
    while let Some(desk) = list.pop() {
        k -= 1;
        desks[k] = filled(places.pop().unwrap(), desk);
    }
    list.destroy_empty();
}

/// As many empty places.
pub fn spare_places(alloc: Global, count: usize) -> Result<Vec<Box<HeldDesk, Global>>, AllocError>
    ensures { IfOk result (λ v. length v.items ≡ count) }
{
    let mut places = Vec::with_capacity(alloc, count)?;
    for _place in 0..count {
        places.push(spare(alloc)?)?;
    }
    Ok(places)
}
