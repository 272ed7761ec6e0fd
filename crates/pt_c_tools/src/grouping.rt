//! The codes of groups, and what their calls write.

ghost use Rattle.std.specs.Prelude.{◌≡◌};
ghost use Rattle.pt_c_tools.specs.Grouping.{join_code, joined_out, last_out, left_code, left_monitor};

use pt_c_values::codes::{DONE, MEMORY, NOTHING};
use pt_c_values::crossing::ref_out;
use pt_c_values::types::PtRef;
use pt_names::{JoinError, Left};
use pt_signal::Ref;

/// The process cannot join the group once more.
const FULL: u32 = 1;

/// Writes the monitor of a process that joined a group, and returns the code.
pub(crate) fn show_joined(answer: Result<Ref, JoinError>, out: &mut PtRef) -> u32
    ensures code { result ≡ join_code answer }
    ensures monitor { out.new ≡ joined_out out.old answer }
{
    match answer {
        Ok(monitor) => {
            *out = ref_out(monitor);
            DONE
        }
        Err(JoinError::Full) => FULL,
        Err(JoinError::Memory) => MEMORY,
    }
}

/// Writes whether a process that left a group is in none any more, and its monitor then, and returns the code.
pub(crate) fn show_left(left: Left, last: &mut bool, out: &mut PtRef) -> u32
    ensures code { result ≡ left_code left }
    ensures last { last.new ≡ last_out last.old left }
    ensures monitor { out.new ≡ left_monitor out.old left }
{
    match left {
        Left::NotThere => NOTHING,
        Left::Stays => {
            *last = false;
            DONE
        }
        Left::Last(monitor) => {
            *last = true;
            *out = ref_out(monitor);
            DONE
        }
    }
}
