//! What the law of custody refuses, as the contract of a function that does nothing.

ghost use Rattle.pt_history.specs.CustodyExamples.{TellsEachFate};

/// A history in which one message of five is taken, three are lost and one is on its way. The law of custody does not hold
/// of it if the lost are left out, or the one on its way, or if one is told twice.
pub fn each_fate_is_told()
    ensures { TellsEachFate }
{}
