//! Where the letters of a desk are: whom to wake after its next turn, and whether it has something to do.

ghost use Rattle.std.specs.Prelude.{◌≡◌};
ghost use Rattle.pt_shard.specs.Fit.{IsFit};
ghost use Rattle.pt_c_values.specs.Places.{CallsThrough, ReadsThrough};
ghost use Rattle.pt_c_desks.specs.Letters.{HasLetters, HasLettersCode, LooksFrom, NextFromCode, NextLaneCode};
ghost use Rattle.pt_c_desks.specs.Letters.{PostsWhereLettersWait, SameLanes, desks_with};

use crate::desk_handle::{DeskHandle, claim, filled, hold};
use pt_c_values::codes::{DONE, EMPTY, NOTHING};
use pt_carrier::Ins;
use pt_desk::Desk;
use pt_shard::Shard;
use std::alloc::Global;

/// The desks for which letters wait in the outbox of the desk, a bit for each, the lowest that of desk 0. The next turn
/// posts to no others.
pub fn letters_out(alloc: Global, h: &mut DeskHandle, out: &mut u64) -> u32
    ensures { ReadsThrough h.old.state h.new.state result (out.new ≡ out.old)
        (λ d. (result ≡ 0) × (out.new ≡ desks_with d.shard.outbox)) }
{
    let Some(mut place) = claim(alloc, h) else {
        return EMPTY;
    };
    let Some(desk) = place.desk.take() else {
        *h = hold(place);
        return EMPTY;
    };
    let (shard, outs, ins, directory, seat, before) = desk.apart();
    *out = waiting_out(&shard);
    let desk = Desk::whole(shard, outs, ins, directory, seat, before);
    *h = filled(place, desk);
    DONE
}

/// The desks for which letters wait, from the last to the first.
fn waiting_out(shard: &Shard) -> u64
    requires { IsFit shard.now }
    ensures { result ≡ desks_with shard.now.outbox }
{
    let desks = shard.config().desks;
    let mut waiting: u64 = 0;
    for k in 0..desks {
        waiting = waiting * 2 + u64::from(shard.count_out(desks - 1 - k) != 0);
    }
    waiting
}

/// Whether a letter waits: in the outbox or the hold of the desk, or in a lane to it that shows one. The desk looks at its
/// lanes, and nothing else of it changes.
pub fn has_letters(alloc: Global, h: &mut DeskHandle, out: &mut bool) -> u32
    ensures { CallsThrough h.old.state h.new.state result (out.new ≡ out.old)
        (λ old new. HasLettersCode result old out.new new) }
{
    let Some(mut place) = claim(alloc, h) else {
        return EMPTY;
    };
    let Some(desk) = place.desk.take() else {
        *h = hold(place);
        return EMPTY;
    };
    let (shard, outs, mut ins, directory, seat, before) = desk.apart();
    *out = waits(&shard, &mut ins);
    let desk = Desk::whole(shard, outs, ins, directory, seat, before);
    *h = filled(place, desk);
    DONE
}

/// Whether a letter waits, or a lane shows one.
fn waits(shard: &Shard, ins: &mut Ins) -> bool
    ensures same { SameLanes ins.old ins.new }
    ensures letters { HasLetters shard.now ins.old result ins.new }
{
    if shard.pending() != 0 {
        return true;
    }
    ins.next_from().is_some()
}

/// Lets the next turn look at the lane from desk `from` before the others, as `Desk::look_from` does.
pub fn look_from(alloc: Global, h: &mut DeskHandle, from: u8) -> u32
    ensures { CallsThrough h.old.state h.new.state result (Unit {0}) (LooksFrom from result) }
{
    let Some(mut place) = claim(alloc, h) else {
        return EMPTY;
    };
    let code = match &mut place.desk {
        Some(desk) => {
            desk.look_from(from);
            DONE
        }
        None => EMPTY,
    };
    *h = hold(place);
    code
}

/// The desk whose lane the next letter comes from: the first that shows one, from where the next turn looks first. It
/// writes that desk to `out` if it returns 0, and returns 8 if no lane shows a letter. The desk looks at its lanes, and
/// nothing else of it changes.
pub fn next_from(alloc: Global, h: &mut DeskHandle, out: &mut u8) -> u32
    ensures { CallsThrough h.old.state h.new.state result (out.new ≡ out.old)
        (λ old new. NextFromCode result old out.old out.new new) }
{
    let Some(mut place) = claim(alloc, h) else {
        return EMPTY;
    };
    let Some(desk) = place.desk.take() else {
        *h = hold(place);
        return EMPTY;
    };
    let (shard, outs, mut ins, directory, seat, before) = desk.apart();
    let code = next_lane(&mut ins, out);
    let desk = Desk::whole(shard, outs, ins, directory, seat, before);
    *h = filled(place, desk);
    code
}

/// The same of the lanes alone.
fn next_lane(ins: &mut Ins, out: &mut u8) -> u32
    ensures same { SameLanes ins.old ins.new }
    ensures lane { NextLaneCode result ins.old out.old out.new ins.new }
{
    match ins.next_from() {
        Some(from) => {
            *out = from;
            DONE
        }
        None => NOTHING,
    }
}

/// A turn posts only to desks for which letters waited as it began. The function does nothing: its contract is the
/// promise.
pub fn turns_post_where_letters_wait()
    ensures { PostsWhereLettersWait }
{}
