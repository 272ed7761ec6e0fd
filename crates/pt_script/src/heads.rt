//! The heads of the processes that a script begins with: all but their operations.

ghost use Rattle.std.specs.Prelude.{◌≡◌, ◌≤◌, ◌<◌, ◌==◌, IfOk, OnOk, map, min, count_by, option_map, if◌then◌else◌};
ghost use Rattle.serde_json.specs.View.{view};
ghost use Rattle.pt_script.specs.Members as members;
ghost use Rattle.pt_script.specs.Operations.{new_name, is_spawn as spec_is_spawn};
ghost use Rattle.pt_script.specs.declared.fault.ScriptError.TheVariants.{Refused};
ghost use Rattle.pt_script.specs.Lists.{at_process};
ghost use Rattle.pt_script.specs.Scopes.{naming};
ghost use Rattle.pt_script.specs.Scripts as spec;
ghost use Rattle.pt_script.specs.Steps.{ReadingGives, each};
ghost use Rattle.pt_script.specs.declared.limits.TheConstants.{MAX_DESKS, MAX_SLOTS};

use crate::crowd::Crowd;
use crate::fault::{Fault, ScriptError};
use crate::limits::{MAX_NESTING, MAX_PROCESSES};
use crate::lists::at_process;
use crate::members::{flag_or_false, known, list, text, whole_at};
use crate::names::{Names, is_own_name};
use crate::operation::is_spawn;
use crate::values::{Settings, Top};
use serde_json::Value;
use std::alloc::{AllocError, Global};

/// A fault of the process with this number.
pub(crate) fn of_process(fault: Fault, process: u32) -> ScriptError
    ensures { result ≡ Refused fault (at_process process) }
{
    let place = at_process(process);
    ScriptError::Refused { fault, place }
}

/// The number of processes that a process and the spawns within it begin, even if something is wrong in them.
#[cycle(begun)]
fn begun(value: &Value, levels: u32) -> u32
    ensures { result ≡ min (spec.begun_in levels (view value.now)) 4294967295 }
{
    if levels == 0 {
        return 1;
    }
    match list(value.get("ops")) {
        Ok(list) => begun_within(list, levels - 1).saturating_add(1),
        Err(_) => 1,
    }
}

/// The number of processes that the spawns in a list begin.
#[cycle(begun)]
fn begun_within(list: &[Value], levels: u32) -> u32
    ensures { result ≡ min (spec.spawned_by (spec.begun_in levels) (map view list.now)) 4294967295 }
{
    let mut count = 0u32;
    for op in list {
        count = count.saturating_add(begun_by(op, levels));
    }
    count
}

/// The number of processes that an operation begins.
#[cycle(begun)]
fn begun_by(op: &Value, levels: u32) -> u32
    ensures { result ≡ min (if spec_is_spawn (view op.now) then spec.begun_in levels (view op.now) else 0) 4294967295 }
{
    if is_spawn(op) { begun(op, levels) } else { 0 }
}

/// What a top-level process says, without its operations.
#[derive(Clone, Copy)]
struct Head<'a> {
    name: &'a str,
    desk: u8,
    trap: bool,
}

/// A process whose operations are to be read.
#[derive(Clone, Copy)]
pub(crate) struct Pending<'a> {
    pub(crate) trap: bool,
    pub(crate) value: &'a Value,
}

/// What is known by the heads so far.
#[derive(Drop)]
pub(crate) struct Heads<'a> {
    pub(crate) names: Names<'a>,
    pub(crate) tops: Crowd,
    pub(crate) unread: Vec<Pending<'a>>,
    /// The number of the next one.
    pub(crate) next: u32,
}

impl<'a> Heads<'a> {
    fn new(alloc: Global) -> Heads<'a>
        ensures { spec.heads_view result ≡ spec.no_heads }
    {
        Heads {
            names: Names::new(alloc),
            tops: Crowd::new(alloc),
            unread: Vec::new(alloc),
            next: 0,
        }
    }

    /// The name of a process that the script begins with.
    fn name<'b>(&self, member: Option<&'b Value>) -> Result<&'b str, Fault>
        ensures { ReadingGives (λ t. t.now) result
            (members.required (new_name (naming self.now.names)) (option_map (λ v. view v.now) member.entry)) }
    {
        let name = text(member)?;
        if !is_own_name(name) {
            return Err(Fault::Field);
        }
        if self.names.find(name).is_some() {
            return Err(Fault::Name);
        }
        Ok(name)
    }

    /// Fails if there is one process more than the desk has slots.
    fn room(&self, settings: &Settings, desk: u8) -> Result<(), Fault>
        requires { desk < MAX_DESKS }
        ensures room { result ≡ spec.room settings.now self.now.tops desk }
        ensures left { OnOk result (count_by (λ t. t.desk == desk) self.now.tops < settings.now.slots) }
    {
        if self.tops.count(desk) < settings.slots {
            Ok(())
        } else {
            Err(Fault::Bounds)
        }
    }

    #[tactic(auto, unfolding(crate::specs::Scripts::head))]
    fn head<'b>(&self, settings: &Settings, value: &'b Value) -> Result<Head<'b>, Fault>
        requires { (1 ≤ settings.now.desks) × (settings.now.desks ≤ MAX_DESKS) }
        ensures head { ReadingGives (λ h. record {
          name = h.name.now;
          desk = h.desk;
          trap = h.trap;
        }) result (spec.head settings.now (spec.heads_view self.now) (view value.now)) }
        ensures desk { IfOk result (λ h. h.desk < MAX_DESKS) }
        ensures room { IfOk result (λ h. count_by (λ t. t.desk == h.desk) self.now.tops < settings.now.slots) }
    {
        known(value, &["name", "desk", "trap", "ops"])?;
        let name = self.name(value.get("name"))?;
        let desk = whole_at(value.get("desk"), 0, (settings.desks - 1) as u64)? as u8;
        self.room(settings, desk)?;
        let trap = flag_or_false(value.get("trap"))?;
        Ok(Head { name, desk, trap })
    }

    fn add(&mut self, head: Head<'a>, value: &'a Value) -> Result<(), AllocError>
        requires desk { head.desk < MAX_DESKS }
        requires room { count_by (λ t. t.desk == head.desk) self.old.tops < MAX_SLOTS }
        ensures { OnOk result (spec.heads_view self.new ≡ spec.with_head (spec.heads_view self.old) (record {
          name = head.entry.name.now;
          desk = head.entry.desk;
          trap = head.entry.trap;
        }) (view value.now)) }
    {
        let next = self.next;
        self.names.add(head.name, next)?;
        self.unread.push(Pending {
            trap: head.trap,
            value,
        })?;
        self.tops.push(Top {
            process: next,
            desk: head.desk,
        })?;
        self.next = next.saturating_add(begun(value, MAX_NESTING));
        Ok(())
    }

    #[tactic(auto, unfolding(crate::specs::Scripts::next_head))]
    fn read(&mut self, settings: &Settings, value: &'a Value) -> Result<(), ScriptError>
        requires desks { (1 ≤ settings.now.desks) × (settings.now.desks ≤ MAX_DESKS) }
        requires slots { settings.now.slots ≤ MAX_SLOTS }
        ensures { spec.Becomes (spec.heads_view self.new) result
            (spec.next_head settings.now (spec.heads_view self.old) (view value.now)) }
    {
        let number = self.next;
        if MAX_PROCESSES <= number as usize {
            return Err(of_process(Fault::Bounds, number));
        }
        let head = self
            .head(settings, value)
            .map_err(|fault| of_process(fault, number))?;
        self.add(head, value)?;
        Ok(())
    }

    /// The heads of all processes of the list.
    pub(crate) fn of(
        alloc: Global,
        settings: &Settings,
        values: &'a [Value],
    ) -> Result<Heads<'a>, ScriptError>
        requires desks { (1 ≤ settings.now.desks) × (settings.now.desks ≤ MAX_DESKS) }
        requires slots { settings.now.slots ≤ MAX_SLOTS }
        ensures { spec.ReadsHeads result (each (spec.next_head settings.now) spec.no_heads (map view values.now)) }
    {
        let mut heads = Heads::new(alloc);
        for value in values {
            heads.read(settings, value)?;
        }
        Ok(heads)
    }
}
