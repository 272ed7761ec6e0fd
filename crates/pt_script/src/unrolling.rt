//! The repeats of a script, written out: each round has operations of its own, and tags of its own.

ghost use Rattle.std.specs.Prelude.{◌≡◌, ◌≤◌, ◌<◌, ◌+◌, length, slice_get, Some, OnOk};
ghost use Rattle.pt_script.specs.Unrolling as spec;
ghost use Rattle.pt_script.specs.Sound.{operations_of};
ghost use Rattle.pt_script.specs.declared.values.Operation.TheVariants.{If};
ghost use Rattle.pt_script.specs.declared.limits.TheConstants.{MAX_OPERATIONS, MAX_PROCESSES};

use crate::fault::{Fault, Place, ScriptError};
use crate::limits::MAX_OPERATIONS;
use crate::script::Process;
use crate::values::{Operation, Pattern};
use std::alloc::{AllocError, Global};

/// A block that is open where a list is written out.
#[derive(Clone, Copy)]
enum Block {
    /// What an `If` at this place began.
    Branch { at: u32 },
    /// The same behind its `Else`.
    Otherwise { at: u32 },
    /// What a `Repeat` at this place began, with the rounds that are left behind this one.
    Loop { at: u32, left: u32 },
}

impl Block {
    fn at(self) -> u32
        ensures { result ≡ spec.begun_at self }
    {
        match self {
            Block::Branch { at } => at,
            Block::Otherwise { at } => at,
            Block::Loop { at, .. } => at,
        }
    }
}

/// How far a list is written out.
#[derive(Drop)]
struct Reached {
    /// The place in the list as it is written.
    place: usize,
    /// The blocks around that place, the innermost last.
    blocks: Vec<Block>,
    /// What each tag of the list stands for now.
    tags: Vec<u32>,
    /// How many tags the operations that are written out make.
    made: u32,
    operations: Vec<Operation>,
}

/// A fault of the operation at a place of the list as it is written.
fn refused(fault: Fault, process: u32, op: u32) -> ScriptError
    ensures { result ≡ spec.refused fault process op }
{
    let place = Place {
        process: Some(process),
        op: Some(op),
    };
    ScriptError::Refused { fault, place }
}

/// Whether an `if` behind this operation tests the item that was taken.
fn may_branch(before: Operation) -> bool
    ensures { result ≡ spec.may_branch (Some before) }
{
    matches!(
        before,
        Operation::Receive(_)
            | Operation::ReceiveAfter { .. }
            | Operation::Check(_)
            | Operation::If(_)
            | Operation::Else
    )
}

impl Reached {
    fn new(alloc: Global) -> Reached
        ensures { spec.reached_view result ≡ spec.at_first }
    {
        Reached {
            place: 0,
            blocks: Vec::new(alloc),
            tags: Vec::new(alloc),
            made: 0,
            operations: Vec::new(alloc),
        }
    }

    /// What a tag of the list stands for.
    fn tag_now(&self, tag: u32) -> u32
        ensures { result ≡ spec.tag_now self.now.tags.items tag }
    {
        match self.tags.get(tag as usize) {
            Some(now) => *now,
            None => 0,
        }
    }

    fn pattern_now(&self, pattern: Pattern) -> Pattern
        ensures { result ≡ spec.pattern_now self.now.tags.items pattern }
    {
        match pattern {
            Pattern::DownOf(tag) => Pattern::DownOf(self.tag_now(tag)),
            Pattern::AliveOf(tag) => Pattern::AliveOf(self.tag_now(tag)),
            other => other,
        }
    }

    /// An operation that makes no tag, with what its tags stand for.
    fn operation_now(&self, operation: Operation) -> Operation
        ensures { result ≡ spec.operation_now self.now.tags.items operation }
    {
        match operation {
            Operation::Receive(pattern) => Operation::Receive(self.pattern_now(pattern)),
            Operation::Check(pattern) => Operation::Check(self.pattern_now(pattern)),
            Operation::ReceiveAfter { pattern, tries } => Operation::ReceiveAfter {
                pattern: self.pattern_now(pattern),
                tries,
            },
            Operation::If(pattern) => Operation::If(self.pattern_now(pattern)),
            Operation::Demonitor { tag, flush } => Operation::Demonitor {
                tag: self.tag_now(tag),
                flush,
            },
            other => other,
        }
    }

    /// Writes out an operation that makes no tag.
    fn write(&mut self, operation: Operation) -> Result<(), AllocError>
        requires { self.old.place < MAX_OPERATIONS }
        ensures next { OnOk result
            (spec.reached_view self.new ≡ spec.with_operation (spec.reached_view self.old) operation) }
    {
        let now = self.operation_now(operation);
        self.operations.push(now)?;
        self.place += 1;
        Ok(())
    }

    /// Lets a tag of the list stand for the next one from now on.
    fn stand(&mut self, tag: u32) -> Result<(), AllocError>
        requires { self.old.made ≤ MAX_OPERATIONS }
        ensures { OnOk result (spec.reached_view self.new ≡ spec.with_next (spec.reached_view self.old) tag) }
    {
        let now = self.made;
        let index = tag as usize;
        if index < self.tags.len() {
            self.tags[index] = now;
        } else {
            self.tags.push(now)?;
        }
        self.made += 1;
        Ok(())
    }

    /// Writes out an operation that makes this tag of the list, which is the next one there.
    fn write_maker(&mut self, tag: u32, operation: Operation) -> Result<(), AllocError>
        requires place { self.old.place < MAX_OPERATIONS }
        requires made { self.old.made ≤ MAX_OPERATIONS }
        ensures next { OnOk result
            (spec.reached_view self.new ≡ spec.with_maker (spec.reached_view self.old) tag operation) }
    {
        self.stand(tag)?;
        self.operations.push(operation)?;
        self.place += 1;
        Ok(())
    }

    /// Begins a branch, if the operation before takes an item.
    fn branch(&mut self, list: &[Operation], pattern: Pattern) -> Result<bool, AllocError>
        requires within { self.old.place < length list.now }
        requires short { length list.now ≤ MAX_OPERATIONS }
        ensures { spec.GoesPast result (spec.reached_view self.old) (spec.reached_view self.new)
            (spec.past_next list.now (spec.reached_view self.old) (Some (If pattern))) }
    {
        let place = self.place;
        if place == 0 || !may_branch(list[place - 1]) {
            return Ok(false);
        }
        self.write(Operation::If(pattern))?;
        self.blocks.push(Block::Branch { at: place as u32 })?;
        Ok(true)
    }

    /// Goes on with the other operations of a branch, which has them once.
    fn otherwise(&mut self) -> Result<bool, AllocError>
        requires { self.old.place < MAX_OPERATIONS }
        ensures { spec.GoesPast result (spec.reached_view self.old) (spec.reached_view self.new)
            (spec.at_else (spec.reached_view self.old).blocks (spec.reached_view self.old)) }
    {
        match self.blocks.pop() {
            Some(Block::Branch { at }) => {
                self.blocks.push(Block::Otherwise { at })?;
                self.write(Operation::Else)?;
                Ok(true)
            }
            _ => Ok(false),
        }
    }

    /// Ends a branch.
    fn end(&mut self) -> Result<bool, AllocError>
        requires { self.old.place < MAX_OPERATIONS }
        ensures { spec.GoesPast result (spec.reached_view self.old) (spec.reached_view self.new)
            (spec.at_end (spec.reached_view self.old).blocks (spec.reached_view self.old)) }
    {
        match self.blocks.pop() {
            Some(Block::Branch { .. } | Block::Otherwise { .. }) => {
                self.write(Operation::End)?;
                Ok(true)
            }
            _ => Ok(false),
        }
    }

    /// Begins a repeat.
    fn repeat(&mut self, times: u32) -> Result<(), AllocError>
        requires { self.old.place < MAX_OPERATIONS }
        ensures next { OnOk result
            (spec.reached_view self.new ≡ spec.with_repeat (spec.reached_view self.old) times) }
    {
        let at = self.place as u32;
        let left = times.saturating_sub(1);
        self.blocks.push(Block::Loop { at, left })?;
        self.place += 1;
        Ok(())
    }

    /// Begins the next round of a repeat, or goes on behind it.
    fn again(&mut self) -> Result<bool, AllocError>
        requires { self.old.place < MAX_OPERATIONS }
        ensures { spec.GoesPast result (spec.reached_view self.old) (spec.reached_view self.new)
            (spec.at_again (spec.reached_view self.old).blocks (spec.reached_view self.old)) }
    {
        match self.blocks.pop() {
            Some(Block::Loop { left: 0, .. }) => {
                self.place += 1;
                Ok(true)
            }
            Some(Block::Loop { at, left }) => {
                self.blocks.push(Block::Loop { at, left: left - 1 })?;
                self.place = at as usize + 1;
                Ok(true)
            }
            _ => Ok(false),
        }
    }

    /// Goes past an operation. Returns `false` if it may not stand at its place.
    fn pass(&mut self, list: &[Operation], operation: Operation) -> Result<bool, AllocError>
        requires within { self.old.place < length list.now }
        requires short { length list.now ≤ MAX_OPERATIONS }
        requires made { self.old.made ≤ MAX_OPERATIONS }
        ensures { spec.GoesPast result (spec.reached_view self.old) (spec.reached_view self.new)
            (spec.past_next list.now (spec.reached_view self.old) (Some operation)) }
    {
        match operation {
            Operation::If(pattern) => return self.branch(list, pattern),
            Operation::Else => return self.otherwise(),
            Operation::End => return self.end(),
            Operation::Again => return self.again(),
            Operation::Repeat(times) => self.repeat(times)?,
            Operation::Monitor { to, tag } => {
                let now = self.made;
                self.write_maker(tag, Operation::Monitor { to, tag: now })?;
            }
            Operation::Alive { to, tag } => {
                let now = self.made;
                self.write_maker(tag, Operation::Alive { to, tag: now })?;
            }
            other => self.write(other)?,
        }
        Ok(true)
    }

    /// Goes past an operation, if one more is left.
    fn step(
        &mut self,
        left: &mut u32,
        process: u32,
        list: &[Operation],
        operation: Operation,
    ) -> Result<(), ScriptError>
        requires here { slice_get list.now self.old.place ≡ Some operation }
        requires short { length list.now ≤ MAX_OPERATIONS }
        requires made { self.old.made + left.old ≤ MAX_OPERATIONS }
        ensures step { spec.GoesOneFurther result left.old left.new process list.now (spec.reached_view self.old)
            (spec.reached_view self.new) }
        ensures made { OnOk result (self.new.made + left.new ≤ self.old.made + left.old) }
        ensures left { OnOk result (left.new < left.old) }
    {
        let place = self.place as u32;
        if !self.pass(list, operation)? {
            return Err(refused(Fault::Field, process, place));
        }
        if *left == 0 {
            return Err(refused(Fault::Bounds, process, place));
        }
        *left -= 1;
        Ok(())
    }
}

/// Writes out the operations of a process.
fn write_list(
    alloc: Global,
    left: &mut u32,
    process: u32,
    list: &[Operation],
) -> Result<Vec<Operation>, ScriptError>
    requires short { length list.now ≤ MAX_OPERATIONS }
    requires left { left.old ≤ MAX_OPERATIONS }
    ensures written { spec.WritesList result left.new (spec.unrolled_list left.old process list.now) }
    ensures left { OnOk result (left.new ≤ left.old) }
{
    let mut reached = Reached::new(alloc);
    while reached.place < list.len() {
        let operation = list[reached.place];
        reached.step(left, process, list, operation)?;
    }
    match reached.blocks.last() {
        Some(block) => Err(refused(Fault::Field, process, block.at())),
        None => Ok(reached.operations),
    }
}

/// The processes with the operations of each written out.
pub(crate) fn unrolled(alloc: Global, processes: &[Process]) -> Result<Vec<Process>, ScriptError>
    requires processes { length processes.now ≤ MAX_PROCESSES }
    requires operations { operations_of processes.now ≤ MAX_OPERATIONS }
    ensures { spec.WritesPlans result (spec.unrolled_plans MAX_OPERATIONS 0 processes.now) }
{
    let mut left = MAX_OPERATIONS;
    let mut written = Vec::new(alloc);
    for (number, process) in processes.iter().enumerate() {
        let operations = write_list(alloc, &mut left, number as u32, process.operations())?;
        written.push(Process::new(process.traps(), operations))?;
    }
    Ok(written)
}
