//! The handle of a door.

ghost use Rattle.std.specs.Prelude.{◌≡◌, Option, Some, None, IfOk, is_some};
ghost use Rattle.std.specs.Coded.{coded_option};
ghost use Rattle.std.specs.Option.{option_map};
ghost use Rattle.pt_c_tools.specs.contracts.held.HeldDoor.{the_row as row};
ghost use Rattle.pt_c_values.specs.Places.{value_behind, full};
ghost use Rattle.pt_c_values.specs.Held.{held_on_heap};

use crate::door::Door;
use crate::held::HeldDoor;
use pt_c_values::loose::{Loose, Opaque};
use std::alloc::{AllocError, Global};
use std::marker::Model;
use std::mem;

/// The place of a door on the heap, or none.
///
/// In C it is a pointer, null if there is none. The ghost field is the value at the place.
#[repr(C)]
#[derive(Drop)]
pub struct DoorHandle {
    at: *mut Opaque,
    pub ghost state: { Option row.Denot } by { coded_option row.coded },
}

impl Model for DoorHandle {
    ghost also_owns = { λ h. held_on_heap row h.state h.at };
}

// What it has is `Send`, and any thread may give a block of the C library's heap back.
unsafe impl Send for DoorHandle {}

impl DoorHandle {
    pub(crate) fn of(loose: Loose<HeldDoor, Global>) -> DoorHandle
        ensures { result.state ≡ Some loose.value }
    {
        let Loose { at, alloc: _ } = loose;
        let at = at as *mut Opaque;
        DoorHandle { at }
    }

    pub(crate) fn into_loose(self, alloc: Global) -> Option<Loose<HeldDoor, Global>>
        ensures { option_map (λ l. l.value) result ≡ self.state }
    {
        let DoorHandle { at } = self;
        if at.is_null() {
            None
        } else {
            let at = at as *mut HeldDoor;
            Some(Loose { at, alloc })
        }
    }

    pub(crate) fn none() -> DoorHandle
        ensures { result.state ≡ None }
    {
        DoorHandle {
            at: std::ptr::null_mut(),
        }
    }
}

/// Takes the place out of the handle, for one call.
pub fn claim(alloc: Global, h: &mut DoorHandle) -> Option<Box<HeldDoor, Global>>
    ensures value { option_map (λ b. b.value) result ≡ h.old.state }
    ensures handle { h.new.state ≡ None }
{
    match mem::replace(h, DoorHandle::none()).into_loose(alloc) {
        Some(loose) => Some(loose.into_box()),
        None => None,
    }
}

/// The handle with this place.
pub fn hold(place: Box<HeldDoor, Global>) -> DoorHandle
    ensures { result.state ≡ Some place.value }
{
    DoorHandle::of(Loose::of(place))
}

/// Whether the handle has a door.
pub fn is_full(alloc: Global, h: &mut DoorHandle) -> bool
    ensures same { h.new.state ≡ h.old.state }
    ensures full { result ≡ is_some (value_behind h.old.state) }
{
    let Some(place) = claim(alloc, h) else {
        return false;
    };
    let full = place.door.is_some();
    *h = hold(place);
    full
}

/// An empty place.
pub fn spare(alloc: Global) -> Result<Box<HeldDoor, Global>, AllocError>
    ensures { IfOk result (λ b. b.value ≡ None) }
{
    match Box::new(alloc, HeldDoor { door: None }) {
        Ok(place) => Ok(place),
        Err(_) => Err(AllocError),
    }
}

/// The handle with this place, and with the value in it.
pub fn filled(place: Box<HeldDoor, Global>, value: Door) -> DoorHandle
    ensures { result.state ≡ full value }
{
    let mut place = place;
    let before = mem::replace(&mut place.door, Some(value));
    drop(HeldDoor { door: before });
    hold(place)
}
