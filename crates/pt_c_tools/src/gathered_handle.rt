//! The handle of a gathered node.

ghost use Rattle.std.specs.Prelude.{◌≡◌, Option, Some, None, IfOk, is_some};
ghost use Rattle.std.specs.Coded.{coded_option};
ghost use Rattle.std.specs.Option.{option_map};
ghost use Rattle.pt_c_tools.specs.contracts.held.HeldGathered.{the_row as row};
ghost use Rattle.pt_c_values.specs.Places.{value_behind, full};
ghost use Rattle.pt_c_values.specs.Held.{held_on_heap};

use crate::held::HeldGathered;
use pt_c_values::loose::{Loose, Opaque};
use pt_node::Gathered;
use std::alloc::{AllocError, Global};
use std::marker::Model;
use std::mem;

/// The place of a gathered node on the heap, or none.
///
/// In C it is a pointer, null if there is none. The ghost field is the value at the place.
#[repr(C)]
#[derive(Drop)]
pub struct GatheredHandle {
    at: *mut Opaque,
    pub ghost state: { Option row.Denot } by { coded_option row.coded },
}

impl Model for GatheredHandle {
    ghost also_owns = { λ h. held_on_heap row h.state h.at };
}

// What it has is `Send`, and any thread may give a block of the C library's heap back.
unsafe impl Send for GatheredHandle {}

impl GatheredHandle {
    pub(crate) fn of(loose: Loose<HeldGathered, Global>) -> GatheredHandle
        ensures { result.state ≡ Some loose.value }
    {
        let Loose { at, alloc: _ } = loose;
        let at = at as *mut Opaque;
        GatheredHandle { at }
    }

    pub(crate) fn into_loose(self, alloc: Global) -> Option<Loose<HeldGathered, Global>>
        ensures { option_map (λ l. l.value) result ≡ self.state }
    {
        let GatheredHandle { at } = self;
        if at.is_null() {
            None
        } else {
            let at = at as *mut HeldGathered;
            Some(Loose { at, alloc })
        }
    }

    pub(crate) fn none() -> GatheredHandle
        ensures { result.state ≡ None }
    {
        GatheredHandle {
            at: std::ptr::null_mut(),
        }
    }
}

/// Takes the place out of the handle, for one call.
pub fn claim(alloc: Global, h: &mut GatheredHandle) -> Option<Box<HeldGathered, Global>>
    ensures value { option_map (λ b. b.value) result ≡ h.old.state }
    ensures handle { h.new.state ≡ None }
{
    match mem::replace(h, GatheredHandle::none()).into_loose(alloc) {
        Some(loose) => Some(loose.into_box()),
        None => None,
    }
}

/// The handle with this place.
pub fn hold(place: Box<HeldGathered, Global>) -> GatheredHandle
    ensures { result.state ≡ Some place.value }
{
    GatheredHandle::of(Loose::of(place))
}

/// Whether the handle has a gathered node.
pub fn is_full(alloc: Global, h: &mut GatheredHandle) -> bool
    ensures same { h.new.state ≡ h.old.state }
    ensures full { result ≡ is_some (value_behind h.old.state) }
{
    let Some(place) = claim(alloc, h) else {
        return false;
    };
    let full = place.gathered.is_some();
    *h = hold(place);
    full
}

/// Takes the value out of the handle, with its place.
pub fn take_out(
    alloc: Global,
    h: &mut GatheredHandle,
) -> Option<(Box<HeldGathered, Global>, Gathered)>
    ensures value { option_map (λ r. r.1) result ≡ value_behind h.old.state }
    ensures empty { h.new.state ≡ None }
{
    let mut place = claim(alloc, h)?;
    let value = place.gathered.take()?;
    Some((place, value))
}

/// An empty place.
pub fn spare(alloc: Global) -> Result<Box<HeldGathered, Global>, AllocError>
    ensures { IfOk result (λ b. b.value ≡ None) }
{
    match Box::new(alloc, HeldGathered { gathered: None }) {
        Ok(place) => Ok(place),
        Err(_) => Err(AllocError),
    }
}

/// The handle with this place, and with the value in it.
pub fn filled(place: Box<HeldGathered, Global>, value: Gathered) -> GatheredHandle
    ensures { result.state ≡ full value }
{
    let mut place = place;
    let before = mem::replace(&mut place.gathered, Some(value));
    drop(HeldGathered { gathered: before });
    hold(place)
}
