//! Names: which process has which name.
//!
//! Each makes the call of `Names` that has its name on the names of the handle, and returns its code. It returns 9 if the
//! handle has none, and then 19 if the bytes are no name. Nothing has changed in either case.

ghost use Rattle.std.specs.Prelude.{◌≡◌, length};
ghost use Rattle.pt_names.specs.State.{name_at, pid_of};
ghost use Rattle.pt_c_values.specs.Places.{CallsThrough, ReadsThrough, ShowsCode};
ghost use Rattle.pt_c_values.specs.Crossing.{pid_crossed, pid_out, ref_in};
ghost use Rattle.pt_c_tools.specs.Naming.{ChecksName, ForgetsHolder, IfIsName, RegistersName, UnregistersName};
ghost use Rattle.pt_c_tools.specs.Naming.{name_crossed, name_out, OpensNames};
ghost use Rattle.pt_c_values.specs.Filling.{GivesUp};

use crate::names_handle::{NamesHandle, claim, filled, hold, is_full, spare};
use crate::naming::{BAD_NAME, PtHolder, PtName, holder_out, name_out, register_code};
use pt_c_values::codes::{DONE, EMPTY, FILLED, MEMORY, NOTHING};
use pt_c_values::crossing::{pid_in, pid_out, ref_in};
use pt_c_values::ending::end_code;
use pt_c_values::types::{PtPid, PtRef};
use pt_names::{Name, Names};
use std::alloc::Global;

/// Begins names, of which no process has one. The handle must be empty: it returns 10 if it is not.
pub fn open(alloc: Global, n: &mut NamesHandle) -> u32
    ensures { OpensNames result n.old.state n.new.state }
{
    if is_full(alloc, n) {
        return FILLED;
    }
    let Ok(place) = spare(alloc) else {
        return MEMORY;
    };
    *n = filled(place, Names::new(alloc));
    DONE
}

/// Gives up names. The processes stay as they are.
pub fn give_up(alloc: Global, n: &mut NamesHandle) -> u32
    ensures { GivesUp result n.old.state n.new.state }
{
    match claim(alloc, n) {
        Some(place) => end_code(place.names.is_some()),
        None => EMPTY,
    }
}

/// Gives a process a name, and keeps the monitor with it, as `Names::register` does. It returns 20 if a process has the
/// name, and 21 if the process has a name.
pub fn register(alloc: Global, n: &mut NamesHandle, name: &[u8], p: PtPid, monitor: PtRef) -> u32
    ensures { CallsThrough n.old.state n.new.state result (Unit {0})
        (λ old new. IfIsName (name_crossed name.now) result (new ≡ old)
        (λ a. RegistersName a (pid_crossed p) (ref_in monitor) result old new)) }
{
    let Some(mut held) = claim(alloc, n) else {
        return EMPTY;
    };
    let code = match &mut held.names {
        Some(names) => match Name::from_bytes(name) {
            Some(name) => register_code(names.register(name, pid_in(p), ref_in(monitor))),
            None => BAD_NAME,
        },
        None => EMPTY,
    };
    *n = hold(held);
    code
}

/// Checks whether the process can have the name, as `Names::check` does: it returns 0, 20 or 21.
pub fn check(alloc: Global, n: &mut NamesHandle, name: &[u8], p: PtPid) -> u32
    ensures { ReadsThrough n.old.state n.new.state result (Unit {0})
        (λ names. IfIsName (name_crossed name.now) result (Unit {0})
        (λ a. ChecksName a (pid_crossed p) result names)) }
{
    let Some(held) = claim(alloc, n) else {
        return EMPTY;
    };
    let code = match &held.names {
        Some(names) => match Name::from_bytes(name) {
            Some(name) => register_code(names.check(name, pid_in(p))),
            None => BAD_NAME,
        },
        None => EMPTY,
    };
    *n = hold(held);
    code
}

/// The process that has the name; 8 if no process has it.
pub fn whereis(alloc: Global, n: &mut NamesHandle, name: &[u8], out: &mut PtPid) -> u32
    ensures { ReadsThrough n.old.state n.new.state result (out.new ≡ out.old)
        (λ names. IfIsName (name_crossed name.now) result (out.new ≡ out.old)
        (λ a. ShowsCode result out.old out.new pid_out (pid_of names a))) }
{
    let Some(held) = claim(alloc, n) else {
        return EMPTY;
    };
    let code = match &held.names {
        Some(names) => match Name::from_bytes(name) {
            Some(name) => match names.whereis(name) {
                Some(pid) => {
                    *out = pid_out(pid);
                    DONE
                }
                None => NOTHING,
            },
            None => BAD_NAME,
        },
        None => EMPTY,
    };
    *n = hold(held);
    code
}

/// Removes a name, and writes to `out` who had it, with its monitor; 8 if no process has it.
pub fn unregister(alloc: Global, n: &mut NamesHandle, name: &[u8], out: &mut PtHolder) -> u32
    ensures { CallsThrough n.old.state n.new.state result (out.new ≡ out.old)
        (λ old new. IfIsName (name_crossed name.now) result ((new ≡ old) × (out.new ≡ out.old))
        (λ a. UnregistersName a result out.old out.new old new)) }
{
    let Some(mut held) = claim(alloc, n) else {
        return EMPTY;
    };
    let code = match &mut held.names {
        Some(names) => match Name::from_bytes(name) {
            Some(name) => match names.unregister(name) {
                Some(holder) => {
                    *out = holder_out(holder);
                    DONE
                }
                None => NOTHING,
            },
            None => BAD_NAME,
        },
        None => EMPTY,
    };
    *n = hold(held);
    code
}

/// Removes the name of a process that has exited, and writes it to `out`; 8 if it has none.
pub fn forget(alloc: Global, n: &mut NamesHandle, p: PtPid, out: &mut PtName) -> u32
    ensures { CallsThrough n.old.state n.new.state result (out.new ≡ out.old)
        (λ old new. ForgetsHolder (pid_crossed p) result out.old out.new old new) }
{
    let Some(mut held) = claim(alloc, n) else {
        return EMPTY;
    };
    let code = match &mut held.names {
        Some(names) => match names.forget(pid_in(p)) {
            Some(name) => {
                *out = name_out(name);
                DONE
            }
            None => NOTHING,
        },
        None => EMPTY,
    };
    *n = hold(held);
    code
}

/// The name of a process; 8 if it has none.
pub fn name_of(alloc: Global, n: &mut NamesHandle, p: PtPid, out: &mut PtName) -> u32
    ensures { ReadsThrough n.old.state n.new.state result (out.new ≡ out.old)
        (λ names. ShowsCode result out.old out.new name_out (name_at names (pid_crossed p))) }
{
    let Some(held) = claim(alloc, n) else {
        return EMPTY;
    };
    let code = match &held.names {
        Some(names) => match names.name_of(pid_in(p)) {
            Some(name) => {
                *out = name_out(name);
                DONE
            }
            None => NOTHING,
        },
        None => EMPTY,
    };
    *n = hold(held);
    code
}

/// The number of names.
pub fn len(alloc: Global, n: &mut NamesHandle, out: &mut usize) -> u32
    ensures { ReadsThrough n.old.state n.new.state result (out.new ≡ out.old)
        (λ names. (result ≡ 0) × (out.new ≡ length names.holders)) }
{
    let Some(held) = claim(alloc, n) else {
        return EMPTY;
    };
    let code = match &held.names {
        Some(names) => {
            *out = names.len();
            DONE
        }
        None => EMPTY,
    };
    *n = hold(held);
    code
}
