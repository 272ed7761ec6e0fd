//! A script as a whole.

ghost use Rattle.std.specs.Prelude.{◌≡◌, ◌≤◌, IfOk, map};
ghost use Rattle.serde_json.specs.View.{view};
ghost use Rattle.pt_script.specs.declared.fault.ScriptError.TheVariants.{Refused};
ghost use Rattle.pt_script.specs.Lists.{at_script};
ghost use Rattle.pt_script.specs.Scopes.{naming};
ghost use Rattle.pt_script.specs.Scripts as spec;
ghost use Rattle.pt_script.specs.Steps.{each};
ghost use Rattle.pt_script.specs.declared.limits.TheConstants.{MAX_DESKS, MAX_SLOTS};

use crate::draft::Draft;
use crate::fault::{Fault, Place, ScriptError};
use crate::heads::{Heads, Pending, of_process};
use crate::limits::{
    DEFAULT_BUDGET, DEFAULT_LANE, DEFAULT_SLOTS, MAX_BUDGET, MAX_BYTES, MAX_DEPTH, MAX_DESKS,
    MAX_FORMAT, MAX_LANE, MAX_PROCESSES, MAX_SLOTS,
};
use crate::lists::read_process;
use crate::members::{known, list, whole_at, whole_or};
use crate::names::Names;
use crate::script::{Process, Script};
use crate::values::Settings;
use serde_json::Value;
use std::alloc::Global;

/// A fault of the script as a whole.
fn of_script(fault: Fault) -> ScriptError
    ensures { result ≡ Refused fault at_script }
{
    let place = Place {
        process: None,
        op: None,
    };
    ScriptError::Refused { fault, place }
}

#[tactic(auto, unfolding(crate::specs::Scripts::settings))]
fn settings_of(value: &Value) -> Result<Settings, Fault>
    ensures value { result ≡ spec.settings (view value.now) }
    ensures desks { IfOk result (λ s. (1 ≤ s.desks) × (s.desks ≤ MAX_DESKS)) }
    ensures slots { IfOk result (λ s. s.slots ≤ MAX_SLOTS) }
{
    known(
        value,
        &[
            "format",
            "desks",
            "slots",
            "top",
            "lane",
            "budget",
            "processes",
        ],
    )?;
    let format = whole_at(value.get("format"), 1, MAX_FORMAT)? as u8;
    let desks = whole_at(value.get("desks"), 1, MAX_DESKS as u64)? as u8;
    let slots = whole_or(value.get("slots"), DEFAULT_SLOTS, 1, MAX_SLOTS)? as u32;
    let top_version = whole_or(value.get("top"), 4_294_967_295, 1, 4_294_967_295)? as u32;
    let lane = whole_or(value.get("lane"), DEFAULT_LANE, 1, MAX_LANE)? as u32;
    let budget = whole_or(value.get("budget"), DEFAULT_BUDGET, 1, MAX_BUDGET)? as u32;
    Ok(Settings {
        format,
        desks,
        slots,
        top_version,
        lane,
        budget,
    })
}

/// Reads the operations of one more process.
#[tactic(auto, unfolding(crate::specs::Scripts::next_list))]
fn read_pending<'a>(
    alloc: Global,
    draft: &mut Draft,
    format: u8,
    names: &Names<'a>,
    pending: Pending<'a>,
) -> Result<(), ScriptError>
    ensures { spec.Becomes (record {
      processes = draft.new.processes.items;
      seen = draft.new.seen;
    }) result
        (spec.next_list format (naming names.now)
        (record { processes = draft.old.processes.items; seen = draft.old.seen })
        (record { trap = pending.entry.trap; value = view pending.entry.value.now })) }
{
    let next = draft.processes.len();
    if MAX_PROCESSES <= next {
        return Err(of_process(Fault::Bounds, next as u32));
    }
    let number = next as u32;
    let ops = list(pending.value.get("ops")).map_err(|fault| of_process(fault, number))?;
    read_process(
        alloc,
        draft,
        names,
        format,
        None,
        MAX_DEPTH,
        pending.trap,
        ops,
    )
}

/// The processes of a script, by number.
fn processes_of(alloc: Global, format: u8, heads: &Heads<'_>) -> Result<Vec<Process>, ScriptError>
    ensures { spec.ReadsPlans result
        (each (spec.next_list format (naming heads.now.names)) spec.no_lists
        (map spec.pending_view heads.now.unread.items)) }
{
    let mut draft = Draft {
        processes: Vec::new(alloc),
        seen: 0,
    };
    for pending in &heads.unread {
        read_pending(alloc, &mut draft, format, &heads.names, *pending)?;
    }
    Ok(draft.processes)
}

#[tactic(auto, unfolding(crate::specs::Scripts::script))]
fn script_of(alloc: Global, value: &Value) -> Result<Script, ScriptError>
    ensures { spec.Reads result (spec.script (view value.now)) }
{
    let settings = settings_of(value).map_err(of_script)?;
    let values = list(value.get("processes")).map_err(of_script)?;
    let heads = Heads::of(alloc, &settings, values)?;
    let processes = processes_of(alloc, settings.format, &heads)?;
    Ok(Script::new(settings, heads.tops.into_tops(), processes))
}

/// Reads a script, and writes its repeats out.
fn unrolled_of(alloc: Global, value: &Value) -> Result<Script, ScriptError>
    ensures { spec.Reads result (spec.as_run (spec.script (view value.now))) }
{
    script_of(alloc, value)?.unrolled(alloc)
}

impl Script {
    /// Reads a script from its text, and writes its repeats out. Fails with the first fault in it and its place, or with `Memory` if memory ran out
    /// before either was known. The fault is `Bounds` if the text has more than 1,048,576 bytes.
    #[tactic(auto, unfolding(crate::specs::Scripts::reading))]
    pub fn read(alloc: Global, text: &str) -> Result<Script, ScriptError>
        ensures { spec.Reads result (spec.reading text.now) }
    {
        Script::from_bytes(alloc, text.as_bytes())
    }

    /// Reads a script from bytes, as `read` does. The fault is `Syntax` if the bytes are no UTF-8.
    #[tactic(auto, unfolding(crate::specs::Scripts::as_written, crate::specs::Scripts::reading))]
    pub fn from_bytes(alloc: Global, bytes: &[u8]) -> Result<Script, ScriptError>
        ensures { spec.Reads result (spec.reading bytes.now) }
    {
        if MAX_BYTES < bytes.len() {
            return Err(of_script(Fault::Bounds));
        }
        match Value::from_slice(alloc, bytes) {
            Ok(value) => unrolled_of(alloc, &value),
            Err(error) => {
                if error.is_memory() {
                    Err(ScriptError::Memory)
                } else {
                    Err(of_script(Fault::Syntax))
                }
            }
        }
    }
}
