//! What a desk lost: what waited in the mailbox of a process as it exited, and each message that came to one that was
//! not alive.
//!
//! Each call returns 9 if the handle has no desk, and nothing has changed then.

ghost use Rattle.std.specs.Prelude.{◌≡◌};
ghost use Rattle.pt_c_values.specs.Places.{CallsThrough, ReadsThrough, ShowsCode};
ghost use Rattle.pt_c_values.specs.Crossing.{item_out, loss_numbered};
ghost use Rattle.pt_c_desks.specs.Losing.{KeepsLosses, PassesLoss, item_lost, loss_out};

use crate::desk_handle::{DeskHandle, claim, hold};
use pt_c_values::codes::{DONE, EMPTY, NOTHING};
use pt_c_values::crossing::{item_out, no_reason, pid_out, reason_out};
use pt_c_values::types::{PtItem, PtLoss};
use pt_shard::Loss;
use std::alloc::Global;

fn loss_out(loss: &Loss) -> PtLoss
    ensures { result ≡ loss_out loss.now }
{
    let reason = loss.reason();
    PtLoss {
        has_exited: reason.is_some(),
        pid: pid_out(loss.pid()),
        reason: match reason {
            Some(reason) => reason_out(reason),
            None => no_reason(),
        },
        items: loss.len(),
    }
}

/// Sets whether what the desk loses from now on is kept until it is told, as `Desk::keep_losses` does.
pub fn keep_losses(alloc: Global, h: &mut DeskHandle, on: bool) -> u32
    ensures { CallsThrough h.old.state h.new.state result (Unit {0}) (KeepsLosses on result) }
{
    let Some(mut place) = claim(alloc, h) else {
        return EMPTY;
    };
    let code = match &mut place.desk {
        Some(desk) => {
            desk.keep_losses(on);
            DONE
        }
        None => EMPTY,
    };
    *h = hold(place);
    code
}

/// The loss with this number among those that were not told, the oldest first. It writes it to `out` if it returns 0, and
/// returns 8 if there are not so many.
pub fn loss_at(alloc: Global, h: &mut DeskHandle, place: usize, out: &mut PtLoss) -> u32
    ensures { ReadsThrough h.old.state h.new.state result (out.new ≡ out.old)
        (λ d. ShowsCode result out.old out.new loss_out (loss_numbered d place)) }
{
    let Some(held) = claim(alloc, h) else {
        return EMPTY;
    };
    let code = match &held.desk {
        Some(desk) => match desk.loss(place) {
            Some(loss) => {
                *out = loss_out(loss);
                DONE
            }
            None => NOTHING,
        },
        None => EMPTY,
    };
    *h = hold(held);
    code
}

/// The item with this number of that loss, the oldest first. It writes it to `out` if it returns 0, and returns 8 if there
/// are not so many.
pub fn loss_item(
    alloc: Global,
    h: &mut DeskHandle,
    place: usize,
    item: usize,
    out: &mut PtItem,
) -> u32
    ensures { ReadsThrough h.old.state h.new.state result (out.new ≡ out.old)
        (λ d. ShowsCode result out.old out.new item_out (item_lost (loss_numbered d place) item)) }
{
    let Some(held) = claim(alloc, h) else {
        return EMPTY;
    };
    let code = match &held.desk {
        Some(desk) => match desk.loss(place) {
            Some(loss) => match loss.item(item) {
                Some(item) => {
                    *out = item_out(item);
                    DONE
                }
                None => NOTHING,
            },
            None => NOTHING,
        },
        None => EMPTY,
    };
    *h = hold(held);
    code
}

/// The oldest loss was told: it is kept no longer. It returns 8 if none was kept.
pub fn next_loss(alloc: Global, h: &mut DeskHandle) -> u32
    ensures { CallsThrough h.old.state h.new.state result (Unit {0}) (PassesLoss result) }
{
    let Some(mut place) = claim(alloc, h) else {
        return EMPTY;
    };
    let code = match &mut place.desk {
        Some(desk) => match desk.next_loss() {
            Some(_) => DONE,
            None => NOTHING,
        },
        None => EMPTY,
    };
    *h = hold(place);
    code
}
