//! Where the history of each epoch goes.

ghost use Rattle.std.specs.Prelude.{⊤, List, OnErr, OnOk};
ghost use Rattle.pt_events.specs.declared.event.Stamped.{Stamped};

use pt_events::Stamped;
use thiserror::Error;

/// A sink took a history not. Why is in the sink itself, which is lent.
#[derive(Clone, Copy, Debug, PartialEq, Eq, Error)]
#[error("the sink did not take the history")]
pub struct Refused;

/// What takes the history of each epoch.
///
/// The ghost members `takes` and `refuses` say what it does with a history that it takes, and with one that it does not:
/// each relates the sink before, the history, and the sink afterwards.
pub trait Sink {
    ghost takes: { Self → List Stamped → Self → Type 0 };

    ghost refuses: { Self → List Stamped → Self → Type 0 } = { λ _ _ _. ⊤ };

    /// Takes the history of one epoch, its oldest event first.
    ///
    /// If it refuses, the run of epochs ends, and the same history is handed to it again once the run goes on.
    fn take(&mut self, history: &[Stamped]) -> Result<(), Refused>
        ensures takes { OnOk result (takes self.old history.now self.new) }
        ensures refuses { OnErr result (refuses self.old history.now self.new) };
}
