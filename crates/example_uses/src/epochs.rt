//! Epochs: a node that runs for as long as is wanted, with journals that do not grow for ever. Every so many turns it
//! is gathered and settled, its history is put into an archive, and it is resumed with empty journals.
//!
//! Take it if a program does not end by itself. The archive has what happened from the very beginning: the histories of
//! the epochs, one after the other. Together they are one legal history, with no letter in flight at its end. If
//! something fails, nothing is lost: the node comes back as it is then, and the program continues from it, or gives it
//! up.

ghost use Rattle.std.specs.Prelude.{List, OnOk, IfOk};
ghost use Rattle.pt_events.specs.declared.event.Stamped.{Stamped};
ghost use Rattle.pt_gathered.specs.Gathered.{GatheredState};
ghost use Rattle.pt_gathered.specs.Settling.{NothingLeft, Settles};
ghost use Rattle.pt_node.specs.Gathering.{Gathers};
ghost use Rattle.pt_workers.specs.Running.{AllWork, always, begins_by};
ghost use Rattle.example_uses.specs.Epochs.{Archives, IsArchived, Passes, PassAsOne};

use pt_node::{FreeGate, Node, NodeBack, RunFault, Settled, Stamped, Task, Unsettled};
use std::alloc::Global;
use std::io::Write;
use std::thread::Threads;
use std::{fmt, io};

/// The archive that gets the history of each epoch.
pub trait Archive {
    ghost keeps: { Self → List Stamped → Self → Type 0 };

    /// Keeps the history of one epoch, its oldest event first.
    fn keep(&mut self, history: &[Stamped]) -> io::Result<()>
        ensures { OnOk result (keeps self.old history.now self.new) };
}

/// An archive of text: a line for each event, as it is printed.
#[derive(Drop)]
pub struct Lines<W: Drop> {
    pub out: W,
}

impl<W: Write + Drop> Archive for Lines<W> {
    ghost use Rattle.example_uses.specs.Epochs.{AppendsLines};

    ghost keeps = { λ old history new. AppendsLines (W.contents old.out) history (W.contents new.out) };

    #[tactic(auto, using(crate::proofs::Written::appends_then, crate::proofs::Written::appends_keeps))]
    fn keep(&mut self, history: &[Stamped]) -> io::Result<()> {
        for event in history {
            writeln!(self.out, "{event}")?;
        }
        self.out.flush()
    }
}

/// The number of epochs, the turns that a desk takes in each, and the most letters that a turn handles.
#[derive(Clone, Copy, Debug, PartialEq, Eq)]
pub struct Plan {
    pub epochs: u64,
    pub turns: u64,
    pub budget: u32,
}

/// Why the epochs stopped, and the node as it is then.
#[derive(Drop)]
pub enum Halted {
    /// The run failed.
    Running(Node, RunFault),
    /// There was no memory to gather it.
    Gathering(NodeBack),
    /// A letter was not delivered.
    Settling(Unsettled),
    /// Its history was not kept: there was no memory for it, or the archive failed.
    Archiving(Settled),
    /// There was no memory to resume it.
    Resuming(Settled),
}

impl fmt::Display for Halted {
    fn fmt<W: fmt::Write>(&self, f: &mut fmt::Formatter<W>) -> fmt::Result {
        match self {
            Halted::Running(_, fault) => write!(f, "{fault}"),
            Halted::Gathering(back) => write!(f, "{back}"),
            Halted::Settling(unsettled) => write!(f, "{unsettled}"),
            Halted::Archiving(_) => write!(f, "the history was not kept"),
            Halted::Resuming(_) => write!(f, "there was no memory to go on from the settled node"),
        }
    }
}

/// Runs the node for so many epochs, each desk with its work on a thread of its own.
///
/// The histories that the epochs put into the archive, in order, follow what the node continues from, which is nothing
/// if it was just opened. Together they are one legal history from the very beginning on. No letter is in flight at its
/// end, and the node that comes back continues from it. Fails as [`Halted`] says; what earlier epochs put into the
/// archive stays there.
pub fn epochs<R: Threads + Sync, W: Task + Send, A: Archive>(
    rt: &R,
    alloc: Global,
    node: Node,
    works: &mut Vec<W>,
    plan: Plan,
    archive: &mut A,
) -> Result<Node, Halted>
    ensures { IfOk result (λ next. PassAsOne
        (AllWork (begins_by W.standing (λ desk turn. always desk turn)) (W.does, W.hears) plan.turns plan.budget)
        A.keeps
        plan.epochs (record { desks = node; works = works.old.items; archive = archive.old })
        (record { desks = next; works = works.new.items; archive = archive.new })) }
{
    let mut node = node;
    for _epoch in 0..plan.epochs {
        node = one_epoch(rt, alloc, node, works, plan, archive)?;
    }
    Ok(node)
}

/// Runs the node for one epoch, and ends it.
fn one_epoch<R: Threads + Sync, W: Task + Send, A: Archive>(
    rt: &R,
    alloc: Global,
    node: Node,
    works: &mut Vec<W>,
    plan: Plan,
    archive: &mut A,
) -> Result<Node, Halted>
    ensures { IfOk result (λ next. (history : List Stamped) × Passes
        (AllWork (begins_by W.standing (λ desk turn. always desk turn)) (W.does, W.hears) plan.turns plan.budget)
        A.keeps history
        (record { desks = node; works = works.old.items; archive = archive.old })
        (record { desks = next; works = works.new.items; archive = archive.new })) }
{
    let mut node = node;
    match node.run(rt, works, plan.turns, plan.budget, &FreeGate) {
        Ok(()) => end_epoch(alloc, node, archive),
        Err(fault) => Err(Halted::Running(node, fault)),
    }
}

/// Ends an epoch: puts its history into the archive, and resumes the node with empty journals.
///
/// No list of all pids is made, and the directory of exited processes is kept. So it costs what happened in the epoch. A
/// process or a slot to which nothing happened costs nothing.
pub fn end_epoch<A: Archive>(alloc: Global, node: Node, archive: &mut A) -> Result<Node, Halted>
    ensures { IfOk result (λ next. (history : List Stamped)
        × Archives A.keeps history node archive.old next archive.new) }
{
    let settled = settle(node)?;
    if let Err(_refused) = archived(&settled, archive) {
        return Err(Halted::Archiving(settled));
    }
    match Node::resume_settled(alloc, settled) {
        Ok(node) => Ok(node),
        Err(settled) => Err(Halted::Resuming(settled)),
    }
}

/// Gathers and settles the node.
fn settle(node: Node) -> Result<Settled, Halted>
    ensures settles { IfOk result (λ settled. (gathered : GatheredState) × Gathers node gathered
        × Settles gathered settled.gathered) }
    ensures nothing_left { IfOk result (λ settled. NothingLeft settled.gathered) }
{
    let gathered = match node.gather() {
        Ok(gathered) => gathered,
        Err(back) => return Err(Halted::Gathering(back)),
    };
    match gathered.settle_unlisted() {
        Ok(settled) => Ok(settled),
        Err(unsettled) => Err(Halted::Settling(unsettled)),
    }
}

/// Puts the history of the settled node into the archive.
fn archived<A: Archive>(settled: &Settled, archive: &mut A) -> io::Result<()>
    ensures { OnOk result ((history : List Stamped)
        × IsArchived A.keeps settled.now.gathered history archive.old archive.new) }
{
    let history = settled.history()?;
    archive.keep(history.as_slice())
}
