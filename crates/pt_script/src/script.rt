//! What a script says.

ghost use Rattle.std.specs.Prelude.{◌≡◌, ◌+◌, ◌≤◌, length, map};
ghost use Rattle.pt_signal.specs.Settings.{IsInRange};
ghost use Rattle.pt_script.specs.Nodes.{config_of};
ghost use Rattle.pt_script.specs.Sound.{IsSoundScript};
ghost use Rattle.pt_script.specs.Spreading.{placed, spread};
ghost use Rattle.pt_script.specs.Scripts.{Reads};
ghost use Rattle.pt_script.specs.Unrolling.{hurried, hurried_operation, hurried_plan, unrolled};

use crate::fault::ScriptError;
use crate::limits::{BLOCKS_FORMAT, MAX_DESKS};
use crate::unrolling::unrolled as write_out;
use crate::values::{Operation, Settings, Top};
use pt_signal::Config;
use std::alloc::Global;
use std::marker::Model;

/// What a process of a script does.
#[derive(Debug, Drop)]
pub struct Process {
    trap: bool,
    operations: Vec<Operation>,
}

impl Model for Process {
    ghost use Rattle.pt_script.specs.Plans.{Plan};

    ghost Value = { Plan };

    ghost view = { λ p. record { trap = p.trap; operations = p.operations.items } };
}

impl Process {
    /// A process that does these operations.
    pub(crate) fn new(trap: bool, operations: Vec<Operation>) -> Process
        ensures { result ≡ record { trap = trap; operations = operations.items } }
    {
        Process { trap, operations }
    }

    /// Whether it begins with trapping exits, before its first operation.
    pub fn traps(&self) -> bool
        ensures { result ≡ self.now.trap }
    {
        self.trap
    }

    /// What it does, in order.
    pub fn operations(&self) -> &[Operation]
        ensures { result.now ≡ self.now.operations }
    {
        self.operations.as_slice()
    }

    /// Lets it wait for no item for some tries.
    fn hurry(&mut self)
        ensures { self.new ≡ hurried_plan self.old }
    {
        hurry(self.operations.as_mut_slice());
    }
}

/// A script: what the processes of a node do.
#[derive(Debug, Drop)]
pub struct Script {
    settings: Settings,
    tops: Vec<Top>,
    processes: Vec<Process>,
}

impl Model for Script {
    ghost use Rattle.pt_script.specs.Plans.{Whole};
    ghost use Rattle.pt_script.specs.Sound.{IsSoundScript};

    ghost Value = { Whole };

    ghost view = { λ s. record { settings = s.settings; tops = s.tops.items; processes = s.processes.items } };

    ghost invariant = { λ s. IsSoundScript (record {
      settings = s.settings;
      tops = s.tops.items;
      processes = s.processes.items;
    }) };
}

impl Script {
    pub(crate) fn new(settings: Settings, tops: Vec<Top>, processes: Vec<Process>) -> Script
        requires { IsSoundScript (record { settings = settings; tops = tops.items; processes = processes.items }) }
        ensures { result ≡ record { settings = settings; tops = tops.items; processes = processes.items } }
    {
        Script {
            settings,
            tops,
            processes,
        }
    }

    /// The settings of the node, and the budget of its turns.
    pub fn settings(&self) -> Settings
        ensures settings { result ≡ self.now.settings }
        ensures sound { IsSoundScript self.now }
    {
        self.settings
    }

    /// The settings of the script's node, whose clocks begin at 0.
    pub fn config(&self) -> Config
        ensures settings { result ≡ config_of self.now.settings }
        ensures range { IsInRange result }
    {
        let settings = self.settings();
        Config {
            desks: settings.desks,
            slots: settings.slots,
            top_version: settings.top_version,
            lane: settings.lane,
            start: 0,
        }
    }

    /// The number of letters that each turn of a desk may handle.
    pub fn budget(&self) -> u32
        ensures budget { result ≡ self.now.settings.budget }
        ensures sound { IsSoundScript self.now }
    {
        self.settings.budget
    }

    /// The processes that the script begins with, in its order.
    pub fn tops(&self) -> &[Top]
        ensures tops { result.now ≡ self.now.tops }
        ensures sound { IsSoundScript self.now }
    {
        self.tops.as_slice()
    }

    /// Every process of the script, by number.
    pub fn processes(&self) -> &[Process]
        ensures processes { result.now ≡ self.now.processes }
        ensures sound { IsSoundScript self.now }
    {
        self.processes.as_slice()
    }

    /// The script with one desk for each of its processes, in their order. `None` if it has more than 64 processes, or if
    /// one of them is spawned.
    pub fn spread(mut self) -> Option<Script>
        ensures { result ≡ spread self }
    {
        let count = self.tops.len();
        if count != self.processes.len() || MAX_DESKS < count {
            return None;
        }
        place(self.tops.as_mut_slice());
        self.settings.desks = count.max(1) as u8;
        Some(self)
    }

    /// The script as it is run: each round of a repeat has operations of its own. Formats 1 and 2 have no repeats.
    pub(crate) fn unrolled(mut self, alloc: Global) -> Result<Script, ScriptError>
        ensures { Reads result (unrolled self) }
    {
        if self.settings.format < BLOCKS_FORMAT {
            return Ok(self);
        }
        self.processes = write_out(alloc, self.processes.as_slice())?;
        Ok(self)
    }

    /// The script in which no process waits for some tries: each such receive takes an item, or goes on at once. All else
    /// is as it was.
    pub fn hurried(mut self) -> Script
        ensures { result ≡ hurried self }
    {
        hurry_all(self.processes.as_mut_slice());
        self
    }
}

/// Lets no process wait for some tries.
fn hurry_all(processes: &mut [Process])
    ensures { processes.new ≡ map hurried_plan processes.old }
{
    for number in 0..processes.len() {
        processes[number].hurry();
    }
}

/// Lets no operation wait for some tries.
fn hurry(operations: &mut [Operation])
    ensures { operations.new ≡ map hurried_operation operations.old }
{
    for place in 0..operations.len() {
        operations[place] = at_once(operations[place]);
    }
}

/// An operation that takes an item or goes on at once, where it waits for some tries.
fn at_once(operation: Operation) -> Operation
    ensures { result ≡ hurried_operation operation }
{
    match operation {
        Operation::ReceiveAfter { pattern, .. } => Operation::Check(pattern),
        other => other,
    }
}

/// Puts each process on the desk of its place.
fn place(tops: &mut [Top])
    requires { length tops.old ≤ MAX_DESKS }
    ensures { tops.new ≡ placed 0 tops.old }
{
    for desk in 0..tops.len() {
        tops[desk].desk = desk as u8;
    }
}
