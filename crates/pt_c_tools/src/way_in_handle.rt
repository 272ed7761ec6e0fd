//! The handle of a way in.

ghost use Rattle.std.specs.Prelude.{◌≡◌, Option, Some, None, IfOk, is_some};
ghost use Rattle.std.specs.Coded.{coded_option};
ghost use Rattle.std.specs.Option.{option_map};
ghost use Rattle.pt_c_tools.specs.contracts.held.HeldWayIn.{the_row as row};
ghost use Rattle.pt_c_values.specs.Places.{value_behind, full};
ghost use Rattle.pt_c_values.specs.Held.{held_on_heap};

use crate::door::WayIn;
use crate::held::HeldWayIn;
use pt_c_values::loose::{Loose, Opaque};
use std::alloc::{AllocError, Global};
use std::marker::Model;
use std::mem;

/// The place of a way in on the heap, or none.
///
/// In C it is a pointer, null if there is none. The ghost field is the value at the place.
#[repr(C)]
#[derive(Drop)]
pub struct WayInHandle {
    at: *mut Opaque,
    pub ghost state: { Option row.Denot } by { coded_option row.coded },
}

impl Model for WayInHandle {
    ghost also_owns = { λ h. held_on_heap row h.state h.at };
}

// What it has is `Send`, and any thread may give a block of the C library's heap back.
unsafe impl Send for WayInHandle {}

impl WayInHandle {
    pub(crate) fn of(loose: Loose<HeldWayIn, Global>) -> WayInHandle
        ensures { result.state ≡ Some loose.value }
    {
        let Loose { at, alloc: _ } = loose;
        let at = at as *mut Opaque;
        WayInHandle { at }
    }

    pub(crate) fn into_loose(self, alloc: Global) -> Option<Loose<HeldWayIn, Global>>
        ensures { option_map (λ l. l.value) result ≡ self.state }
    {
        let WayInHandle { at } = self;
        if at.is_null() {
            None
        } else {
            let at = at as *mut HeldWayIn;
            Some(Loose { at, alloc })
        }
    }

    pub(crate) fn none() -> WayInHandle
        ensures { result.state ≡ None }
    {
        WayInHandle {
            at: std::ptr::null_mut(),
        }
    }
}

/// Takes the place out of the handle, for one call.
pub fn claim(alloc: Global, h: &mut WayInHandle) -> Option<Box<HeldWayIn, Global>>
    ensures value { option_map (λ b. b.value) result ≡ h.old.state }
    ensures handle { h.new.state ≡ None }
{
    match mem::replace(h, WayInHandle::none()).into_loose(alloc) {
        Some(loose) => Some(loose.into_box()),
        None => None,
    }
}

/// The handle with this place.
pub fn hold(place: Box<HeldWayIn, Global>) -> WayInHandle
    ensures { result.state ≡ Some place.value }
{
    WayInHandle::of(Loose::of(place))
}

/// Whether the handle has a way in.
pub fn is_full(alloc: Global, h: &mut WayInHandle) -> bool
    ensures same { h.new.state ≡ h.old.state }
    ensures full { result ≡ is_some (value_behind h.old.state) }
{
    let Some(place) = claim(alloc, h) else {
        return false;
    };
    let full = place.way_in.is_some();
    *h = hold(place);
    full
}

/// An empty place.
pub fn spare(alloc: Global) -> Result<Box<HeldWayIn, Global>, AllocError>
    ensures { IfOk result (λ b. b.value ≡ None) }
{
    match Box::new(alloc, HeldWayIn { way_in: None }) {
        Ok(place) => Ok(place),
        Err(_) => Err(AllocError),
    }
}

/// The handle with this place, and with the value in it.
pub fn filled(place: Box<HeldWayIn, Global>, value: WayIn) -> WayInHandle
    ensures { result.state ≡ full value }
{
    let mut place = place;
    let before = mem::replace(&mut place.way_in, Some(value));
    drop(HeldWayIn { way_in: before });
    hold(place)
}
