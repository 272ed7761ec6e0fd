//! Why a letter is not handled.

use std::alloc::{AllocError, AllocFailed};
use thiserror::Error;

/// Why a letter is not handled. The desk is then as it was.
#[derive(Clone, Copy, Debug, PartialEq, Eq, Error)]
pub enum Stop {
    /// There was no memory for what the letter needs.
    #[error("there was no memory for the next letter")]
    Memory,
    /// The stamp of the receipt would pass the limit of clocks.
    #[error("the clock is at its limit")]
    Worn,
}

impl From<AllocError> for Stop {
    ghost use Rattle.std.specs.Prelude.{◌≡◌};
    ghost use Rattle.pt_shard.specs.declared.stop.Stop.TheVariants.{Memory};

    ghost from_gives = { λ _ f. f ≡ Memory };

    fn from(_error: AllocError) -> Stop {
        Stop::Memory
    }
}

impl<T: Drop> From<AllocFailed<T>> for Stop {
    ghost use Rattle.std.specs.Prelude.{◌≡◌};
    ghost use Rattle.pt_shard.specs.declared.stop.Stop.TheVariants.{Memory};

    ghost from_gives = { λ _ f. f ≡ Memory };

    fn from(_failed: AllocFailed<T>) -> Stop {
        Stop::Memory
    }
}
