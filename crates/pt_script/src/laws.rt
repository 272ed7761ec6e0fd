//! The laws of scripts: each is the contract of a function that does nothing.

ghost use Rattle.std.specs.Prelude.{◌≡◌};
ghost use Rattle.pt_script.specs.Laws.{AcceptedAreSound, ReasonsAsPrinted, FaultsHavePlaces, NumbersArePlaces};
ghost use Rattle.pt_script.specs.Laws.{NamesArePlaces, OperationsReadBack, ScriptsReadBack, AcceptedReadBack, OldFormatsAsWritten};
ghost use Rattle.pt_script.specs.Laws.{AcceptedHaveNoRepeats};

use crate::limits::{
    DEFAULT_BUDGET, DEFAULT_LANE, DEFAULT_SLOTS, MAX_BUDGET, MAX_BYTES, MAX_DEPTH, MAX_DESKS,
    MAX_FORMAT, MAX_LANE, MAX_NAME, MAX_NESTING, MAX_OPERATIONS, MAX_PROCESSES, MAX_SLOTS,
    MAX_TIMES,
};

/// The limits of formats 1 to 3, as numbers. The format's definition cites them by name only.
pub fn limits_stand()
    ensures format { MAX_FORMAT ≡ 3 }
    ensures desks { MAX_DESKS ≡ 64 }
    ensures slots { MAX_SLOTS ≡ 65536 }
    ensures lane { MAX_LANE ≡ 65536 }
    ensures budget { MAX_BUDGET ≡ 65536 }
    ensures bytes { MAX_BYTES ≡ 1048576 }
    ensures processes { MAX_PROCESSES ≡ 4096 }
    ensures operations { MAX_OPERATIONS ≡ 65536 }
    ensures times { MAX_TIMES ≡ 65536 }
    ensures depth { MAX_DEPTH ≡ 8 }
    ensures nesting { MAX_NESTING ≡ 63 }
    ensures name { MAX_NAME ≡ 32 }
{}

/// The defaults of all formats: 1,024 slots, lanes of 64 letters, and turns of 16. The default of the top version,
/// 4,294,967,295, is a number in the format's definition.
pub fn defaults_stand()
    ensures slots { DEFAULT_SLOTS ≡ 1024 }
    ensures lane { DEFAULT_LANE ≡ 64 }
    ensures budget { DEFAULT_BUDGET ≡ 16 }
{}

/// In every script that is accepted, each process number is below the number of processes, and each tag was made by an
/// earlier operation of its list. Each desk is one of the node's, and the settings are in their ranges. There are at
/// most 4,096 processes and 65,536 operations.
pub fn accepted_scripts_are_sound()
    ensures { AcceptedAreSound }
{}

/// A reason is read from the text that it is printed as, and from no other.
pub fn reasons_are_read_as_printed()
    ensures { ReasonsAsPrinted }
{}

/// The place of a fault names a process of the text, and an operation of the text. Processes are counted in the order
/// in which they begin, even if something is wrong in them, and operations in the list of their process.
pub fn faults_have_places()
    ensures { FaultsHavePlaces }
{}

/// In every script that is accepted, as it is written, the number of a process is its place in the text. The script has
/// one process for each of the text, with as many operations. Each spawn has the number of the process that it spawns, and
/// each process of the script's list has its own.
pub fn numbers_are_places()
    ensures { NumbersArePlaces }
{}

/// The name of a process of the script's list means that process, by its place in the text.
pub fn names_are_places()
    ensures { NamesArePlaces }
{}

/// Every operation except a spawn is read as it is written in its scope. Its numbers must be in their ranges, and its
/// processes and tags must have names of the scope.
pub fn operations_read_back()
    ensures { OperationsReadBack }
{}

/// Every well-formed script is read back, as it is written, from the value that is written of it, and from each text of
/// that value of at most 1,048,576 bytes. A well-formed script keeps the limits, and each operation names what is in its scope. Its
/// processes are numbered in the order in which they begin, however deep their spawns nest.
pub fn scripts_read_back()
    ensures { ScriptsReadBack }
{}

/// Every script that is accepted as it is written is well formed, and is read back from the value that is written of it. So
/// a well-formed script meets no more conditions than the format has for what is written.
pub fn accepted_scripts_read_back()
    ensures { AcceptedReadBack }
{}

/// A script of format 1 or 2 is run as it is written: nothing is written out, and nothing more is refused.
pub fn old_formats_are_as_written()
    ensures { OldFormatsAsWritten }
{}

/// No script that was read has a `Repeat` or an `Again`, in any format: its repeats are written out.
pub fn accepted_scripts_have_no_repeats()
    ensures { AcceptedHaveNoRepeats }
{}
