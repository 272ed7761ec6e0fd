//! What the library reports of the codes and structs of supervisors, so that a header or a wrapper can be compared with it.

ghost use Rattle.std.specs.Prelude.{◌≡◌};
ghost use Rattle.pt_c_tools.specs.AboutSupervisors.{all_supervisor_codes, sample_child, sample_child_spec, sample_supervisor_spec};
ghost use Rattle.pt_c_tools.specs.AboutSupervisors.{sample_child_counts, sample_gave_up};

use pt_c_tools::about_supervisors::{self, PtSupervisorCodes};
use pt_c_values::types::{PtChild, PtChildCounts, PtChildSpec, PtGaveUp, PtSupervisorSpec};

/// Writes each code, from the same functions as the calls, and the sizes.
#[unsafe(no_mangle)]
pub extern "C" fn pt_about_supervisors(out: &mut PtSupervisorCodes)
    ensures { out.new ≡ all_supervisor_codes }
{
    about_supervisors::codes(out);
}

/// Writes a sample of a supervisor: its fields have the numbers 1, 2, 3 and so on in order, a bool being true.
#[unsafe(no_mangle)]
pub extern "C" fn pt_about_supervisor_spec(out: &mut PtSupervisorSpec)
    ensures { out.new ≡ sample_supervisor_spec }
{
    about_supervisors::supervisor_spec(out);
}

/// Writes a sample of what a supervisor knows of a child: its fields have the numbers 1, 2, 3 and so on in order.
#[unsafe(no_mangle)]
pub extern "C" fn pt_about_child_spec(out: &mut PtChildSpec)
    ensures { out.new ≡ sample_child_spec }
{
    about_supervisors::child_spec(out);
}

/// Writes a sample of a child: its fields have the numbers 1, 2, 3 and so on in order, a bool being true.
#[unsafe(no_mangle)]
pub extern "C" fn pt_about_child(out: &mut PtChild)
    ensures { out.new ≡ sample_child }
{
    about_supervisors::child(out);
}

/// Writes a sample of how many children a supervisor has: its fields have the numbers 1, 2, 3 in order.
#[unsafe(no_mangle)]
pub extern "C" fn pt_about_child_counts(out: &mut PtChildCounts)
    ensures { out.new ≡ sample_child_counts }
{
    about_supervisors::child_counts(out);
}

/// Writes a sample of why a supervisor gave up: its fields have the numbers 1, 2, 3 and so on in order, a bool being true.
#[unsafe(no_mangle)]
pub extern "C" fn pt_about_gave_up(out: &mut PtGaveUp)
    ensures { out.new ≡ sample_gave_up }
{
    about_supervisors::gave_up(out);
}
