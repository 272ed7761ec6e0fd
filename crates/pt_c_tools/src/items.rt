//! Items that C passes, as the table's own.

ghost use Rattle.std.specs.Prelude.{◌≡◌};
ghost use Rattle.pt_c_tools.specs.Items.{ItemsCross, item_in};

use pt_c_values::crossing::{body_in, pid_in, reason_in, ref_in};
use pt_c_values::types::PtItem;
use pt_workers::Item;

/// The item; none if its code, or that of the reason which counts, means nothing.
pub fn item_in(item: PtItem) -> Option<Item>
    ensures { result ≡ item_in item }
{
    let pid = pid_in(item.pid);
    let reference = ref_in(item.reference);
    if item.code == 0 {
        Some(Item::User(pid, body_in(item.body)))
    } else if item.code == 1 {
        reason_in(item.reason).map(|reason| Item::Exit(pid, reason))
    } else if item.code == 2 {
        reason_in(item.reason).map(|reason| Item::Down(reference, pid, reason))
    } else if item.code == 3 {
        Some(Item::Alive(reference, pid, item.alive))
    } else {
        None
    }
}

/// What the library writes of an item is read as that item again. The function does nothing: its contract is the promise.
pub fn items_cross()
    ensures { ItemsCross }
{}
