//! The lists of operations, spawns within spawns.

ghost use Rattle.std.specs.Prelude.{◌≡◌, ◌≤◌, ◌<◌, ◌+◌, map, vec_len, OnOk};
ghost use Rattle.serde_json.specs.View.{view};
ghost use Rattle.pt_script.specs.Lists as spec;
ghost use Rattle.pt_script.specs.Scopes.{scope_view, naming};
ghost use Rattle.pt_script.specs.declared.limits.TheConstants.{MAX_OPERATIONS, MAX_PROCESSES};

use crate::draft::Draft;
use crate::fault::{Fault, Place, ScriptError};
use crate::limits::{MAX_OPERATIONS, MAX_PROCESSES};
use crate::names::Names;
use crate::operation::{Scope, is_spawn, op_of, plain, spawned_by, tagged};
use crate::script::Process;
use crate::values::Operation;
use serde_json::Value;
use std::alloc::Global;

/// The place of a process.
pub(crate) fn at_process(process: u32) -> Place
    ensures { result ≡ spec.at_process process }
{
    Place {
        process: Some(process),
        op: None,
    }
}

fn at_operation(process: u32, op: u32) -> Place
    ensures { result ≡ spec.at_operation process op }
{
    Place {
        process: Some(process),
        op: Some(op),
    }
}

/// Fails at one process too many, at one operation too many, and at a spawn inside too many others.
fn limits(spawns: bool, place: Place, levels: u32, next: u32, seen: u32) -> Result<(), ScriptError>
    ensures { result ≡ spec.limits spawns place levels next seen }
{
    if spawns && MAX_PROCESSES <= next as usize {
        return Err(ScriptError::Refused {
            fault: Fault::Bounds,
            place: at_process(next),
        });
    }
    if MAX_OPERATIONS <= seen || (spawns && levels == 0) {
        return Err(ScriptError::Refused {
            fault: Fault::Bounds,
            place,
        });
    }
    Ok(())
}

/// Reads the operations of the next process, and the processes that begin in them.
#[cycle(lists)]
pub(crate) fn read_process<'a>(
    alloc: Global,
    draft: &mut Draft,
    tops: &Names<'a>,
    format: u8,
    parent: Option<u32>,
    levels: u32,
    trap: bool,
    list: &'a [Value],
) -> Result<(), ScriptError>
    requires { vec_len draft.old.processes < MAX_PROCESSES }
    ensures seen { OnOk result (draft.old.seen ≤ draft.new.seen) }
    ensures read { spec.ReadsProcess trap draft.old.processes.items draft.new.processes.items draft.new.seen result
        (spec.list_at levels (spec.fresh_scope format (vec_len draft.old.processes) parent (naming tops.now))
        (vec_len draft.old.processes + 1) draft.old.seen (map view list.now)) }
{
    let number = draft.processes.len();
    draft.processes.push(Process::new(trap, Vec::new(alloc)))?;
    let mut scope = Scope {
        format,
        own: number as u32,
        parent,
        tops,
        children: Names::new(alloc),
        monitors: Names::new(alloc),
        asks: Names::new(alloc),
        made: 0,
    };
    let operations = read_list(alloc, draft, &mut scope, levels, list)?;
    draft.processes[number] = Process::new(trap, operations);
    Ok(())
}

#[cycle(lists)]
fn read_list<'a>(
    alloc: Global,
    draft: &mut Draft,
    scope: &mut Scope<'a, '_>,
    levels: u32,
    list: &'a [Value],
) -> Result<Vec<Operation>, ScriptError>
    requires { scope.old.made ≤ draft.old.seen }
    ensures seen { OnOk result (draft.old.seen ≤ draft.new.seen) }
    ensures read { spec.ReadsList draft.old.processes.items draft.new.processes.items draft.new.seen result
        (spec.list_at levels (scope_view scope.old) (vec_len draft.old.processes) draft.old.seen (map view list.now)) }
{
    let mut operations = Vec::new(alloc);
    for (index, value) in list.iter().enumerate() {
        let operation = read_operation(alloc, draft, scope, levels, index, value)?;
        operations.push(operation)?;
    }
    Ok(operations)
}

#[cycle(lists)]
fn read_operation<'a>(
    alloc: Global,
    draft: &mut Draft,
    scope: &mut Scope<'a, '_>,
    levels: u32,
    index: usize,
    value: &'a Value,
) -> Result<Operation, ScriptError>
    requires index { index ≤ draft.old.seen }
    requires made { scope.old.made ≤ draft.old.seen }
    ensures read { spec.ReadsStep draft.old.processes.items draft.new.processes.items draft.new.seen
        (scope_view scope.new) result
        (spec.step_at levels index (scope_view scope.old) (vec_len draft.old.processes) draft.old.seen
        (view value.now)) }
    ensures seen { OnOk result (draft.old.seen < draft.new.seen) }
    ensures made { OnOk result (scope.new.made ≤ draft.new.seen) }
{
    let next = draft.processes.len() as u32;
    let place = at_operation(scope.own, index as u32);
    let spawns = is_spawn(value);
    limits(spawns, place, levels, next, draft.seen)?;
    draft.seen += 1;
    if spawns {
        read_spawn(alloc, draft, scope, levels - 1, place, value)
    } else {
        read_simple(scope, place, value)
    }
}

/// Reads a spawn and its operations, with at most so many levels of spawns inside it.
#[cycle(lists)]
fn read_spawn<'a>(
    alloc: Global,
    draft: &mut Draft,
    scope: &mut Scope<'a, '_>,
    levels: u32,
    place: Place,
    value: &'a Value,
) -> Result<Operation, ScriptError>
    requires { vec_len draft.old.processes < MAX_PROCESSES }
    ensures read { spec.ReadsStep draft.old.processes.items draft.new.processes.items draft.new.seen
        (scope_view scope.new) result
        (spec.spawned (λ t n k es. spec.list_from levels 0 t n k es) place (scope_view scope.old)
        (vec_len draft.old.processes) draft.old.seen (view value.now)) }
    ensures seen { OnOk result (draft.old.seen ≤ draft.new.seen) }
    ensures made { OnOk result (scope.new.made ≡ scope.old.made) }
{
    let next = draft.processes.len() as u32;
    let child = spawned_by(scope, value).map_err(|fault| ScriptError::Refused { fault, place })?;
    read_process(
        alloc,
        draft,
        scope.tops,
        scope.format,
        Some(scope.own),
        levels,
        child.trap,
        child.list,
    )?;
    scope.children.add(child.name, next)?;
    Ok(Operation::Spawn {
        process: next,
        linked: child.linked,
    })
}

/// Reads an operation that spawns nothing.
fn read_simple<'a>(
    scope: &mut Scope<'a, '_>,
    place: Place,
    value: &'a Value,
) -> Result<Operation, ScriptError>
    requires { scope.old.made < MAX_OPERATIONS }
    ensures read { spec.ReadsSimple place (scope_view scope.new) result
        (spec.simple (scope_view scope.old) (view value.now)) }
    ensures made { OnOk result (scope.new.made ≤ scope.old.made + 1) }
{
    let op = op_of(value).map_err(|fault| ScriptError::Refused { fault, place })?;
    if op == "monitor" {
        let (to, name) = tagged(scope, value).map_err(|fault| ScriptError::Refused {
            fault,
            place,
        })?;
        let tag = scope.made;
        scope.monitors.add(name, tag)?;
        scope.made += 1;
        Ok(Operation::Monitor { to, tag })
    } else if op == "alive" && scope.can_ask() {
        let (to, name) = tagged(scope, value).map_err(|fault| ScriptError::Refused {
            fault,
            place,
        })?;
        let tag = scope.made;
        scope.asks.add(name, tag)?;
        scope.made += 1;
        Ok(Operation::Alive { to, tag })
    } else {
        plain(scope, op, value).map_err(|fault| ScriptError::Refused { fault, place })
    }
}
