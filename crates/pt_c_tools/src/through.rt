//! The calls of a way in through its handles, with plain structs and codes.

ghost use Rattle.std.specs.Prelude.{◌≡◌};
ghost use Rattle.pt_c_values.specs.Places.{CallsThrough};
ghost use Rattle.pt_c_tools.specs.WaysIn.{LooksInCode, OpensWayIn, PostsCode, TakesCode, post_in, post_out, sample_post};

use crate::door::{Post, open};
use crate::door_handle::{self, DoorHandle};
use crate::types::PtPost;
use crate::way_in_handle::{self, WayInHandle};
use pt_c_values::codes::{DONE, EMPTY, FILLED, MEMORY, NOTHING};
use pt_c_values::crossing::{body_in, body_out, pid_in, pid_out};
use pt_c_values::types::{PtBody, PtPid};
use std::alloc::Global;

/// The door knows of no free place.
const NO_PLACE: u32 = 1;

/// The way in of the door was given up.
const GIVEN_UP: u32 = 4;

/// A way in of no places was asked for.
pub const BAD_PLACES: u32 = 22;

fn post_in(post: PtPost) -> Post
    ensures { result ≡ post_in post }
{
    Post {
        to: pid_in(post.to),
        body: body_in(post.body),
    }
}

fn post_out(post: Post) -> PtPost
    ensures { result ≡ post_out post }
{
    PtPost {
        to: pid_out(post.to),
        body: body_out(post.body),
    }
}

/// Makes a way in with so many places, at least one. The handles must be empty.
pub fn open_both(alloc: Global, d: &mut DoorHandle, w: &mut WayInHandle, places: u32) -> u32
    ensures { OpensWayIn places result d.old.state d.new.state w.old.state w.new.state }
{
    let has_door = door_handle::is_full(alloc, d);
    let has_way_in = way_in_handle::is_full(alloc, w);
    if has_door || has_way_in {
        return FILLED;
    }
    if places == 0 {
        return BAD_PLACES;
    }
    let Ok(door_place) = door_handle::spare(alloc) else {
        return MEMORY;
    };
    let Ok(way_in_place) = way_in_handle::spare(alloc) else {
        return MEMORY;
    };
    let Ok((door, way_in)) = open(alloc, places) else {
        return MEMORY;
    };
    *d = door_handle::filled(door_place, door);
    *w = way_in_handle::filled(way_in_place, way_in);
    DONE
}

/// Hands in a message at a door, unless its way in was given up.
#[tactic(auto, using(crate::proofs::Handing::posts_after))]
pub fn post(alloc: Global, h: &mut DoorHandle, post: PtPost) -> u32
    ensures { CallsThrough h.old.state h.new.state result (Unit {0}) (λ old new. PostsCode (post_in post) result old new) }
{
    let Some(mut held) = door_handle::claim(alloc, h) else {
        return EMPTY;
    };
    let code = match &mut held.door {
        Some(door) => {
            if door.is_gone() {
                GIVEN_UP
            } else if door.post(post_in(post)) {
                DONE
            } else {
                NO_PLACE
            }
        }
        None => EMPTY,
    };
    *h = door_handle::hold(held);
    code
}

/// Takes out the oldest message that waits.
pub fn take(alloc: Global, h: &mut WayInHandle, out: &mut PtPost) -> u32
    ensures { CallsThrough h.old.state h.new.state result (out.new ≡ out.old)
        (λ old new. TakesCode result out.old out.new old new) }
{
    let Some(mut held) = way_in_handle::claim(alloc, h) else {
        return EMPTY;
    };
    let code = match &mut held.way_in {
        Some(way_in) => match way_in.take() {
            Some(post) => {
                *out = post_out(post);
                DONE
            }
            None => NOTHING,
        },
        None => EMPTY,
    };
    *h = way_in_handle::hold(held);
    code
}

/// The number of messages that wait.
pub fn len(alloc: Global, h: &mut WayInHandle, out: &mut usize) -> u32
    ensures { CallsThrough h.old.state h.new.state result (out.new ≡ out.old)
        (λ old new. LooksInCode result out.new old new) }
{
    let Some(mut held) = way_in_handle::claim(alloc, h) else {
        return EMPTY;
    };
    let code = match &mut held.way_in {
        Some(way_in) => {
            *out = way_in.len();
            DONE
        }
        None => EMPTY,
    };
    *h = way_in_handle::hold(held);
    code
}

/// A message whose fields have the numbers 1, 2, 3 and so on in order, a bool being true.
pub fn sample() -> PtPost
    ensures { result ≡ sample_post }
{
    PtPost {
        to: PtPid {
            shard: 1,
            slot: 2,
            version: 3,
        },
        body: PtBody {
            kind: 4,
            num: 5,
            has_who: true,
            who: PtPid {
                shard: 7,
                slot: 8,
                version: 9,
            },
        },
    }
}
