//! Names: which process has which name.
//!
//! Each makes the call of `Names` that has its name on the names of the handle, and returns its code. It returns 9 if the
//! handle has none, and then 19 if the bytes are no name. Nothing has changed in either case.

ghost use Rattle.std.specs.Prelude.{◌≡◌, length};
ghost use Rattle.pt_names.specs.State.{name_at, pid_of};
ghost use Rattle.pt_c_values.specs.Places.{CallsThrough, ReadsThrough, ShowsCode};
ghost use Rattle.pt_c_values.specs.Crossing.{pid_crossed, pid_out, ref_in};
ghost use Rattle.pt_c_tools.specs.Naming.{ChecksName, ForgetsHolder, IfIsName, RegistersName, UnregistersName};
ghost use Rattle.pt_c_tools.specs.Naming.{name_crossed, name_out, OpensNames};
ghost use Rattle.pt_c_values.specs.Filling.{GivesUp};

use pt_c_tools::names;
use pt_c_tools::names_handle::NamesHandle;
use pt_c_tools::naming::{PtHolder, PtName};
use pt_c_values::types::{PtPid, PtRef};
use std::alloc::Global;

/// Begins names, of which no process has one. The handle must be empty: it returns 10 if it is not.
#[unsafe(no_mangle)]
pub extern "C" fn pt_names_open(alloc: Global, n: &mut NamesHandle) -> u32
    ensures { OpensNames result n.old.state n.new.state }
{
    names::open(alloc, n)
}

/// Gives up names. The processes stay as they are.
#[unsafe(no_mangle)]
pub extern "C" fn pt_names_give_up(alloc: Global, n: &mut NamesHandle) -> u32
    ensures { GivesUp result n.old.state n.new.state }
{
    names::give_up(alloc, n)
}

/// Gives a process a name, and keeps the monitor with it, as `Names::register` does. It returns 20 if a process has the
/// name, and 21 if the process has a name.
#[unsafe(no_mangle)]
pub extern "C" fn pt_names_register(
    alloc: Global,
    n: &mut NamesHandle,
    name: &[u8],
    p: PtPid,
    monitor: PtRef,
) -> u32
    ensures { CallsThrough n.old.state n.new.state result (Unit {0})
        (λ old new. IfIsName (name_crossed name.now) result (new ≡ old)
        (λ a. RegistersName a (pid_crossed p) (ref_in monitor) result old new)) }
{
    names::register(alloc, n, name, p, monitor)
}

/// Checks whether the process can have the name, as `Names::check` does: it returns 0, 20 or 21.
#[unsafe(no_mangle)]
pub extern "C" fn pt_names_check(alloc: Global, n: &mut NamesHandle, name: &[u8], p: PtPid) -> u32
    ensures { ReadsThrough n.old.state n.new.state result (Unit {0})
        (λ names. IfIsName (name_crossed name.now) result (Unit {0})
        (λ a. ChecksName a (pid_crossed p) result names)) }
{
    names::check(alloc, n, name, p)
}

/// The process that has the name; 8 if no process has it.
#[unsafe(no_mangle)]
pub extern "C" fn pt_names_whereis(
    alloc: Global,
    n: &mut NamesHandle,
    name: &[u8],
    out: &mut PtPid,
) -> u32
    ensures { ReadsThrough n.old.state n.new.state result (out.new ≡ out.old)
        (λ names. IfIsName (name_crossed name.now) result (out.new ≡ out.old)
        (λ a. ShowsCode result out.old out.new pid_out (pid_of names a))) }
{
    names::whereis(alloc, n, name, out)
}

/// Removes a name, and writes to `out` who had it, with its monitor; 8 if no process has it.
#[unsafe(no_mangle)]
pub extern "C" fn pt_names_unregister(
    alloc: Global,
    n: &mut NamesHandle,
    name: &[u8],
    out: &mut PtHolder,
) -> u32
    ensures { CallsThrough n.old.state n.new.state result (out.new ≡ out.old)
        (λ old new. IfIsName (name_crossed name.now) result ((new ≡ old) × (out.new ≡ out.old))
        (λ a. UnregistersName a result out.old out.new old new)) }
{
    names::unregister(alloc, n, name, out)
}

/// Removes the name of a process that has exited, and writes it to `out`; 8 if it has none.
#[unsafe(no_mangle)]
pub extern "C" fn pt_names_forget(
    alloc: Global,
    n: &mut NamesHandle,
    p: PtPid,
    out: &mut PtName,
) -> u32
    ensures { CallsThrough n.old.state n.new.state result (out.new ≡ out.old)
        (λ old new. ForgetsHolder (pid_crossed p) result out.old out.new old new) }
{
    names::forget(alloc, n, p, out)
}

/// The name of a process; 8 if it has none.
#[unsafe(no_mangle)]
pub extern "C" fn pt_names_name_of(
    alloc: Global,
    n: &mut NamesHandle,
    p: PtPid,
    out: &mut PtName,
) -> u32
    ensures { ReadsThrough n.old.state n.new.state result (out.new ≡ out.old)
        (λ names. ShowsCode result out.old out.new name_out (name_at names (pid_crossed p))) }
{
    names::name_of(alloc, n, p, out)
}

/// The number of names.
#[unsafe(no_mangle)]
pub extern "C" fn pt_names_len(alloc: Global, n: &mut NamesHandle, out: &mut usize) -> u32
    ensures { ReadsThrough n.old.state n.new.state result (out.new ≡ out.old)
        (λ names. (result ≡ 0) × (out.new ≡ length names.holders)) }
{
    names::len(alloc, n, out)
}
