//! The handle of timers.

ghost use Rattle.std.specs.Prelude.{◌≡◌, Option, Some, None, IfOk, is_some};
ghost use Rattle.std.specs.Coded.{coded_option};
ghost use Rattle.std.specs.Option.{option_map};
ghost use Rattle.pt_c_tools.specs.contracts.held.HeldTimers.{the_row as row};
ghost use Rattle.pt_c_values.specs.Places.{value_behind, full};
ghost use Rattle.pt_c_values.specs.Held.{held_on_heap};

use crate::held::HeldTimers;
use pt_c_values::loose::{Loose, Opaque};
use pt_timers::Timers;
use std::alloc::{AllocError, Global};
use std::marker::Model;
use std::mem;

/// The place of timers on the heap, or none.
///
/// In C it is a pointer, null if there is none. The ghost field is the value at the place.
#[repr(C)]
#[derive(Drop)]
pub struct TimersHandle {
    at: *mut Opaque,
    pub ghost state: { Option row.Denot } by { coded_option row.coded },
}

impl Model for TimersHandle {
    ghost also_owns = { λ h. held_on_heap row h.state h.at };
}

// What it has is `Send`, and any thread may give a block of the C library's heap back.
unsafe impl Send for TimersHandle {}

impl TimersHandle {
    pub(crate) fn of(loose: Loose<HeldTimers, Global>) -> TimersHandle
        ensures { result.state ≡ Some loose.value }
    {
        let Loose { at, alloc: _ } = loose;
        let at = at as *mut Opaque;
        TimersHandle { at }
    }

    pub(crate) fn into_loose(self, alloc: Global) -> Option<Loose<HeldTimers, Global>>
        ensures { option_map (λ l. l.value) result ≡ self.state }
    {
        let TimersHandle { at } = self;
        if at.is_null() {
            None
        } else {
            let at = at as *mut HeldTimers;
            Some(Loose { at, alloc })
        }
    }

    pub(crate) fn none() -> TimersHandle
        ensures { result.state ≡ None }
    {
        TimersHandle {
            at: std::ptr::null_mut(),
        }
    }
}

/// Takes the place out of the handle, for one call.
pub fn claim(alloc: Global, h: &mut TimersHandle) -> Option<Box<HeldTimers, Global>>
    ensures value { option_map (λ b. b.value) result ≡ h.old.state }
    ensures handle { h.new.state ≡ None }
{
    match mem::replace(h, TimersHandle::none()).into_loose(alloc) {
        Some(loose) => Some(loose.into_box()),
        None => None,
    }
}

/// The handle with this place.
pub fn hold(place: Box<HeldTimers, Global>) -> TimersHandle
    ensures { result.state ≡ Some place.value }
{
    TimersHandle::of(Loose::of(place))
}

/// Whether the handle has timers.
pub fn is_full(alloc: Global, h: &mut TimersHandle) -> bool
    ensures same { h.new.state ≡ h.old.state }
    ensures full { result ≡ is_some (value_behind h.old.state) }
{
    let Some(place) = claim(alloc, h) else {
        return false;
    };
    let full = place.timers.is_some();
    *h = hold(place);
    full
}

/// An empty place.
pub fn spare(alloc: Global) -> Result<Box<HeldTimers, Global>, AllocError>
    ensures { IfOk result (λ b. b.value ≡ None) }
{
    match Box::new(alloc, HeldTimers { timers: None }) {
        Ok(place) => Ok(place),
        Err(_) => Err(AllocError),
    }
}

/// The handle with this place, and with the value in it.
pub fn filled(place: Box<HeldTimers, Global>, value: Timers<u64>) -> TimersHandle
    ensures { result.state ≡ full value }
{
    let mut place = place;
    let before = mem::replace(&mut place.timers, Some(value));
    drop(HeldTimers { timers: before });
    hold(place)
}
