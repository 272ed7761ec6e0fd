//! The names of a script's processes. Nothing that a script does depends on them.

ghost use Rattle.std.specs.Prelude.{◌≡◌, [], ◌++◌, IfOk, OnOk, if◌then◌else◌, map, string_bytes};
ghost use Rattle.serde_json.specs.View.{view};
ghost use Rattle.pt_script.specs.Operations as operations;
ghost use Rattle.pt_script.specs.Called as spec;
ghost use Rattle.pt_script.specs.Standing.{all_processes, processes_in, processes_of, spawns_in};

use crate::limits::MAX_NESTING;
use crate::members::{list, text};
use crate::operation::is_spawn;
use serde_json::Value;
use std::alloc::{AllocError, Global};

/// The names of a script's processes, by number, as its bytes have them. A process without a name in the text has an
/// empty one, and bytes that are no JSON have no processes. Neither happens with a script that is accepted.
pub fn process_names(alloc: Global, bytes: &[u8]) -> Result<Vec<String>, AllocError>
    ensures { IfOk result (λ names. map string_bytes names.items ≡ spec.names_in bytes.now) }
{
    match Value::from_slice(alloc, bytes) {
        Ok(value) => names_of(alloc, &value),
        Err(error) => {
            if error.is_memory() {
                Err(AllocError)
            } else {
                Ok(Vec::new(alloc))
            }
        }
    }
}

fn names_of(alloc: Global, value: &Value) -> Result<Vec<String>, AllocError>
    ensures { IfOk result (λ names. map string_bytes names.items ≡ map spec.name_of (all_processes (view value.now))) }
{
    let mut names = Vec::new(alloc);
    if let Ok(values) = list(value.get("processes")) {
        name_all(alloc, values, &mut names)?;
    }
    Ok(names)
}

/// The names of the processes of the list, and of those that begin in them.
fn name_all(alloc: Global, values: &[Value], names: &mut Vec<String>) -> Result<(), AllocError>
    ensures { OnOk result (map string_bytes names.new.items
        ≡ map string_bytes names.old.items ++ map spec.name_of (processes_of (map view values.now))) }
{
    for value in values {
        name_process(alloc, value, MAX_NESTING, names)?;
    }
    Ok(())
}

/// The name of a process, and those of the processes that begin in it.
#[cycle(called)]
fn name_process(
    alloc: Global,
    value: &Value,
    levels: u32,
    names: &mut Vec<String>,
) -> Result<(), AllocError>
    ensures { OnOk result (map string_bytes names.new.items
        ≡ map string_bytes names.old.items ++ map spec.name_of (processes_in levels (view value.now))) }
{
    names.push(name_of(alloc, value)?)?;
    if levels == 0 {
        return Ok(());
    }
    match list(value.get("ops")) {
        Ok(ops) => name_spawns(alloc, ops, levels - 1, names),
        Err(_) => Ok(()),
    }
}

/// The names of the processes that the spawns of a list begin.
#[cycle(called)]
fn name_spawns(
    alloc: Global,
    ops: &[Value],
    levels: u32,
    names: &mut Vec<String>,
) -> Result<(), AllocError>
    ensures { OnOk result (map string_bytes names.new.items
        ≡ map string_bytes names.old.items ++ map spec.name_of (spawns_in (processes_in levels) (map view ops.now))) }
{
    for op in ops {
        name_spawn(alloc, op, levels, names)?;
    }
    Ok(())
}

/// The names of the processes that an operation begins.
#[cycle(called)]
fn name_spawn(
    alloc: Global,
    op: &Value,
    levels: u32,
    names: &mut Vec<String>,
) -> Result<(), AllocError>
    ensures { OnOk result (map string_bytes names.new.items ≡ map string_bytes names.old.items
        ++ map spec.name_of (if operations.is_spawn (view op.now) then processes_in levels (view op.now) else [])) }
{
    if is_spawn(op) {
        name_process(alloc, op, levels, names)
    } else {
        Ok(())
    }
}

/// The name of a process; empty if it has none.
fn name_of(alloc: Global, value: &Value) -> Result<String, AllocError>
    ensures { IfOk result (λ name. string_bytes name ≡ spec.name_of (view value.now)) }
{
    match text(value.get("name")) {
        Ok(name) => String::from_str(alloc, name),
        Err(_) => Ok(String::new(alloc)),
    }
}
