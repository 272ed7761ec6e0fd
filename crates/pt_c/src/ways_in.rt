//! The way in: messages from threads that have no desk.
//!
//! Each makes the call of `Door` and of `WayIn` that has its name on what the handle has, and returns its code. It returns
//! 9 if the handle has nothing, and nothing has changed then.

ghost use Rattle.std.specs.Prelude.{◌≡◌};
ghost use Rattle.pt_c_values.specs.Places.{CallsThrough};
ghost use Rattle.pt_c_values.specs.Filling.{GivesUp};
ghost use Rattle.pt_c_tools.specs.WaysIn.{LooksInCode, OpensWayIn, PostsCode, TakesCode, post_in, sample_post};

use pt_c_tools::door_handle::DoorHandle;
use pt_c_tools::doors;
use pt_c_tools::through::{len, open_both, post as post_at, sample, take};
use pt_c_tools::types::PtPost;
use pt_c_tools::way_in_handle::WayInHandle;
use std::alloc::Global;
use std::mem::size_of;

/// Makes a way in with so many places: a door for a thread without a desk, and the other end for that of a desk. The
/// handles must be empty: it returns 10 if one is not. It returns 22 if no place is asked for.
#[unsafe(no_mangle)]
pub extern "C" fn pt_door_open(
    alloc: Global,
    d: &mut DoorHandle,
    w: &mut WayInHandle,
    places: u32,
) -> u32
    ensures { OpensWayIn places result d.old.state d.new.state w.old.state w.new.state }
{
    open_both(alloc, d, w, places)
}

/// Gives up a door. What was handed in stays, and is taken out at the other end.
#[unsafe(no_mangle)]
pub extern "C" fn pt_door_give_up(alloc: Global, d: &mut DoorHandle) -> u32
    ensures { GivesUp result d.old.state d.new.state }
{
    doors::give_up_door(alloc, d)
}

/// Gives up the end of a desk. The messages that wait in the way in are dropped.
#[unsafe(no_mangle)]
pub extern "C" fn pt_way_in_give_up(alloc: Global, w: &mut WayInHandle) -> u32
    ensures { GivesUp result w.old.state w.new.state }
{
    doors::give_up_way_in(alloc, w)
}

/// Hands in a message, as `Door::post` does. It returns 4 if the door is told that its way in was given up, and otherwise 1
/// if it knows of no free place. Nothing has changed then.
#[unsafe(no_mangle)]
pub extern "C" fn pt_door_post(alloc: Global, d: &mut DoorHandle, post: PtPost) -> u32
    ensures { CallsThrough d.old.state d.new.state result (Unit {0}) (λ old new. PostsCode (post_in post) result old new) }
{
    post_at(alloc, d, post)
}

/// Takes out the oldest message that waits, as `WayIn::take` does. It writes it to `out` if it returns 0, and returns 8 if
/// none waits.
#[unsafe(no_mangle)]
pub extern "C" fn pt_way_in_take(alloc: Global, w: &mut WayInHandle, out: &mut PtPost) -> u32
    ensures { CallsThrough w.old.state w.new.state result (out.new ≡ out.old)
        (λ old new. TakesCode result out.old out.new old new) }
{
    take(alloc, w, out)
}

/// The number of messages that wait.
#[unsafe(no_mangle)]
pub extern "C" fn pt_way_in_len(alloc: Global, w: &mut WayInHandle, out: &mut usize) -> u32
    ensures { CallsThrough w.old.state w.new.state result (out.new ≡ out.old)
        (λ old new. LooksInCode result out.new old new) }
{
    len(alloc, w, out)
}

/// Writes a sample of a message from outside, and its size: the fields have the numbers 1, 2, 3 and so on in order.
#[unsafe(no_mangle)]
pub extern "C" fn pt_about_post(out: &mut PtPost, size: &mut usize)
    ensures { (out.new ≡ sample_post) × (size.new ≡ 48) }
{
    *out = sample();
    *size = size_of::<PtPost>();
}
