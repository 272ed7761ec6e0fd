//! What hears how far a run is.

use pt_node::Gate;
use pt_render::{Options, Until, Watch};

/// A gate that is always open. It tells its watch of each turn.
#[derive(Drop)]
pub(crate) struct Counting<'a, P>(pub(crate) &'a P);

impl<P: Watch> Gate for Counting<'_, P> {
    ghost use Rattle.pt_workers.specs.Running.{always};

    ghost lets = { λ _ desk turn begins. always desk turn begins };

    fn before(&self, _desk: u8, _turn: u64) -> bool {
        true
    }

    fn after(&self, _desk: u8, _turn: u64) {
        self.0.count();
    }
}

/// How many turns the desks take in all epochs, if their number is asked for, and how many pauses come between. It stays at
/// the greatest number.
pub(crate) fn turns_of(options: &Options, desks: u8) -> Option<u64> {
    match options.until {
        Until::Turns => {
            let epoch = options.turns.saturating_mul(u64::from(desks));
            let pauses = options.epochs.saturating_sub(1);
            Some(epoch.saturating_mul(options.epochs).saturating_add(pauses))
        }
        Until::Quiet => None,
    }
}
