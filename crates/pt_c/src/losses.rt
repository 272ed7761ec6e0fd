//! What a desk lost: what waited in the mailbox of a process as it exited, and each message that came to one that was
//! not alive.
//!
//! Each call returns 9 if the handle has no desk, and nothing has changed then.

ghost use Rattle.std.specs.Prelude.{◌≡◌};
ghost use Rattle.pt_c_values.specs.Places.{CallsThrough, ReadsThrough, ShowsCode};
ghost use Rattle.pt_c_values.specs.Crossing.{item_out, loss_numbered};
ghost use Rattle.pt_c_desks.specs.Losing.{KeepsLosses, PassesLoss, item_lost, loss_out};

use pt_c_desks::desk_handle::DeskHandle;
use pt_c_desks::losses;
use pt_c_values::types::{PtItem, PtLoss};
use std::alloc::Global;

/// Sets whether what the desk loses from now on is kept until it is told, as `Desk::keep_losses` does.
#[unsafe(no_mangle)]
pub extern "C" fn pt_keep_losses(alloc: Global, h: &mut DeskHandle, on: bool) -> u32
    ensures { CallsThrough h.old.state h.new.state result (Unit {0}) (KeepsLosses on result) }
{
    losses::keep_losses(alloc, h, on)
}

/// The loss with this number among those that were not told, the oldest first. It writes it to `out` if it returns 0, and
/// returns 8 if there are not so many.
#[unsafe(no_mangle)]
pub extern "C" fn pt_loss_at(
    alloc: Global,
    h: &mut DeskHandle,
    place: usize,
    out: &mut PtLoss,
) -> u32
    ensures { ReadsThrough h.old.state h.new.state result (out.new ≡ out.old)
        (λ d. ShowsCode result out.old out.new loss_out (loss_numbered d place)) }
{
    losses::loss_at(alloc, h, place, out)
}

/// The item with this number of that loss, the oldest first. It writes it to `out` if it returns 0, and returns 8 if there
/// are not so many.
#[unsafe(no_mangle)]
pub extern "C" fn pt_loss_item(
    alloc: Global,
    h: &mut DeskHandle,
    place: usize,
    item: usize,
    out: &mut PtItem,
) -> u32
    ensures { ReadsThrough h.old.state h.new.state result (out.new ≡ out.old)
        (λ d. ShowsCode result out.old out.new item_out (item_lost (loss_numbered d place) item)) }
{
    losses::loss_item(alloc, h, place, item, out)
}

/// The oldest loss was told: it is kept no longer. It returns 8 if none was kept.
#[unsafe(no_mangle)]
pub extern "C" fn pt_next_loss(alloc: Global, h: &mut DeskHandle) -> u32
    ensures { CallsThrough h.old.state h.new.state result (Unit {0}) (PassesLoss result) }
{
    losses::next_loss(alloc, h)
}
