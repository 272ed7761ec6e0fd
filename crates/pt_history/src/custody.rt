//! The law of custody, as the contract of a function that does nothing.

ghost use Rattle.pt_history.specs.Custody.{CustodyHolds, EachCounts};
ghost use Rattle.pt_history.specs.Nodes.{ForgotNothing, GatheredKeep, KeepsEach, LossesAreTold, PausesKeep};
ghost use Rattle.pt_history.specs.Nodes.{PausesTell, SettledKeep, TellingStays};

use pt_gathered::Gathered;
use pt_laws::laws;
use pt_shard::losses_are_kept;

/// Each item that came to a process was taken, waits, or was lost, and is one of these once. From each process the
/// messages that it sent are, in order, those that came and then those on their way. The function does nothing: its
/// contract is the promise.
///
/// So it is in each legal history (`history`). It is so over all that happened on a node from its first opening on: where
/// its desks are gathered (`gathered`), once nothing is on its way (`settled`), and on the desks that are resumed
/// (`pauses`). Those go on from what happened until then, so it holds over any number of pauses. A node that forgot no
/// reason goes on so, too (`from`).
///
/// If a desk keeps its losses from the first opening on (`telling`), what is lost is what it told and then what it still
/// keeps, in order (`told`). Settling adds what it loses to what is kept, so that is so behind each pause, too
/// (`pauses_tell`). The messages of a process are as many as were taken, wait, were lost, and are on their way
/// (`counts`).
pub fn custody_holds()
    ensures history { CustodyHolds }
    ensures gathered { GatheredKeep }
    ensures settled { SettledKeep }
    ensures pauses { PausesKeep }
    ensures from { ForgotNothing }
    ensures telling { TellingStays }
    ensures told { LossesAreTold }
    ensures pauses_tell { PausesTell }
    ensures counts { EachCounts }
{
    laws::merge_is_legal();
    laws::stamps_make_new_ids();
    losses_are_kept();
}

/// The law at a node whose desks were gathered, whatever it goes on from. The function does nothing: its contract is the
/// promise.
pub fn custody_of(gathered: &Gathered)
    ensures { KeepsEach gathered.now }
{
    custody_holds();
    // read for the proof alone: it says what holds of every gathered node
    let _desks = gathered.desks();
}
