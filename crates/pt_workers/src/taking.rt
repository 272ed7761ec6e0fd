//! Taking items one after the other.

ghost use Rattle.std.specs.Prelude.{⊤};
ghost use Rattle.pt_signal.specs.declared.item.Item.{Item};
ghost use Rattle.pt_desk.specs.DeskState.{DeskState, GoesOn};
ghost use Rattle.pt_workers.specs.Taking.{TakesEach};

use pt_desk::Desk;
use pt_shard::Fault;
use pt_signal::{Item, Pick, Pid};

/// What a program does with an item that was taken out of a mailbox.
///
/// It may call the desk, and promises what each call of a desk promises. The ghost member `takes` says what else it may
/// do: it relates itself and the desk before, the item, and the two after.
pub trait Takes {
    ghost takes: { Self → DeskState → Item → Self → DeskState → Type 0 } = { λ _ _ _ _ _. ⊤ };

    /// Called with each item that was taken out of the mailbox.
    fn take(&mut self, desk: &mut Desk, item: Item)
        ensures takes { takes self.old desk.old item self.new desk.new }
        ensures goes_on { GoesOn desk.old desk.new };
}

/// Takes at most `most` matching items out of the mailbox of p, oldest first, and passes each to `to` as it is taken.
/// It returns how many there were: fewer than `most` only if no matching item is left.
///
/// Fails as [`Desk::receive`] does for the next item: with `Gone`, and if an item matches, with `Worn` or `Memory`. The
/// items taken before were passed to `to`, and stay taken.
pub fn take_each<T: Takes>(
    desk: &mut Desk,
    p: Pid,
    pick: Pick,
    most: u32,
    to: &mut T,
) -> Result<u32, Fault>
    ensures takes { TakesEach T.takes p pick most (desk.old, to.old) result (desk.new, to.new) }
    ensures goes_on { GoesOn desk.old desk.new }
{
    for count in 0..most {
        let Some(item) = desk.receive(p, pick)? else {
            return Ok(count);
        };
        to.take(desk, item);
    }
    Ok(most)
}
