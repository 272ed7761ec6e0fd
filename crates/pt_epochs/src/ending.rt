//! The end of an epoch: the node is gathered and settled, its history goes to the sink, and it is resumed.

ghost use Rattle.std.specs.Prelude.{IsOk, OnErr, OnOk};
ghost use Rattle.pt_epochs.specs.Epochs.{AllHaveRoom, CrewBegins, AllBeginAs, EachCrew, EndsAs, GoesOnAs, Hands, HandsAs};
ghost use Rattle.pt_epochs.specs.Epochs.{CrewMayBegin, ResumesAllAs, SettlesAs};

use crate::halted::Halted;
use crate::sink::Sink;
use pt_behaviour::Behaviour;
use pt_crew::Crew;
use pt_gathered::{Gathered, Settled};
use pt_node::Node;
use std::alloc::{AllocError, Global};

/// Ends an epoch: gathers and settles the node, hands its history to the sink, resumes it with empty journals, and lets
/// the crews begin again over its desks.
///
/// What the sink gets follows what the node went on from, and both together are one legal history, with no letter in
/// flight at its end; the node that comes back goes on from it. If the node is still, no process has got anything
/// meanwhile.
///
/// No list of all pids is made, and the directory of exited processes is kept. So it costs what happened since the node
/// was opened or resumed, the desks, and a visit to each process of the crews, which begin again. A slot that did not
/// change since then costs nothing else.
///
/// Fails as [`Halted`] says. What was done until then stays, and [`Halted::go_on`] does the rest. If it was resuming that
/// failed, the directory is then made anew.
pub fn end_epoch<B: Behaviour + Drop, S: Sink>(
    alloc: Global,
    node: Node,
    crews: &mut Vec<Crew<B>>,
    sink: &mut S,
) -> Result<Node, Halted>
    ensures { EndsAs S.takes S.refuses node crews.old.items sink.old result crews.new.items sink.new }
{
    match node.gather() {
        Ok(gathered) => settle_over(alloc, gathered, crews, sink),
        Err(back) => Err(Halted::Gathering(back)),
    }
}

/// Settles a gathered node, and does the rest.
pub(crate) fn settle_over<B: Behaviour + Drop, S: Sink>(
    alloc: Global,
    gathered: Gathered,
    crews: &mut Vec<Crew<B>>,
    sink: &mut S,
) -> Result<Node, Halted>
    ensures { SettlesAs S.takes S.refuses gathered crews.old.items sink.old result crews.new.items sink.new }
{
    // read for the proof alone, here and below: it says what holds of every gathered node
    let _desks = gathered.desks();
    match gathered.settle_unlisted() {
        Ok(settled) => {
            let _settled = settled.desks();
            hand_over(alloc, settled, crews, sink)
        },
        Err(unsettled) => {
            let _unsettled = unsettled.gathered.desks();
            Err(Halted::Settling(unsettled))
        },
    }
}

/// Hands the history of a settled node to the sink, and does the rest.
pub(crate) fn hand_over<B: Behaviour + Drop, S: Sink>(
    alloc: Global,
    settled: Settled,
    crews: &mut Vec<Crew<B>>,
    sink: &mut S,
) -> Result<Node, Halted>
    ensures { HandsAs S.takes S.refuses settled crews.old.items sink.old result crews.new.items sink.new }
{
    // read for the proof alone, as above
    let _desks = settled.desks();
    match hand(&settled, sink) {
        Ok(()) => resume_over(alloc, settled, crews),
        Err(Unhanded::Unread) => Err(Halted::Reading(settled)),
        Err(Unhanded::Refused) => Err(Halted::Taking(settled)),
    }
}

/// Why a history was not handed over.
#[derive(Clone, Copy, Debug, PartialEq, Eq)]
pub(crate) enum Unhanded {
    /// There was no memory for it.
    Unread,
    /// The sink did not take it.
    Refused,
}

/// Hands the history of a settled node to the sink.
fn hand<S: Sink>(settled: &Settled, sink: &mut S) -> Result<(), Unhanded>
    ensures { Hands S.takes S.refuses settled.now.gathered sink.old result sink.new }
{
    let Ok(history) = settled.history() else {
        return Err(Unhanded::Unread);
    };
    match sink.take(history.as_slice()) {
        Ok(()) => Ok(()),
        Err(_refused) => Err(Unhanded::Refused),
    }
}

/// Resumes a settled node, and lets the crews begin again.
pub(crate) fn resume_over<B: Behaviour + Drop>(
    alloc: Global,
    settled: Settled,
    crews: &mut Vec<Crew<B>>,
) -> Result<Node, Halted>
    ensures { ResumesAllAs settled crews.old.items result crews.new.items }
{
    match Node::resume_settled(alloc, settled) {
        Ok(node) => begin_over(node, crews),
        Err(settled) => Err(Halted::Resuming(settled)),
    }
}

/// Lets the crews begin again over a node that was resumed.
pub(crate) fn begin_over<B: Behaviour + Drop>(
    node: Node,
    crews: &mut Vec<Crew<B>>,
) -> Result<Node, Halted>
    ensures { AllBeginAs node crews.old.items result crews.new.items }
{
    match begin_all(crews) {
        Ok(()) => Ok(node),
        Err(_) => Err(Halted::Beginning(node)),
    }
}

/// Lets each crew begin again, in order. Crews that attend their desks have the memory for it.
fn begin_all<B: Behaviour + Drop>(crews: &mut Vec<Crew<B>>) -> Result<(), AllocError>
    ensures begin { OnOk result (EachCrew CrewBegins crews.old.items crews.new.items) }
    ensures fails { OnErr result (EachCrew CrewMayBegin crews.old.items crews.new.items) }
    ensures ok { AllHaveRoom crews.old.items → IsOk result }
{
    for place in 0..crews.len() {
        crews[place].begin_again()?;
    }
    Ok(())
}

impl Halted {
    /// Goes on where an epoch halted: does the rest of its end, as [`end_epoch`] does it. If the crews did not run, or a
    /// turn was stopped, it returns the node, whose epoch goes on.
    ///
    /// A history that the sink has taken is not handed to it again. The crews have to be those that the epoch had.
    pub fn go_on<B: Behaviour + Drop, S: Sink>(
        self,
        alloc: Global,
        crews: &mut Vec<Crew<B>>,
        sink: &mut S,
    ) -> Result<Node, Halted>
        ensures { GoesOnAs S.takes S.refuses self crews.old.items sink.old result crews.new.items sink.new }
    {
        match self {
            Halted::Running(node, _) | Halted::Turning(node, _) => Ok(node),
            Halted::Gathering(back) => end_epoch(alloc, back.node, crews, sink),
            Halted::Settling(back) => settle_over(alloc, back.gathered, crews, sink),
            Halted::Reading(settled) | Halted::Taking(settled) => {
                hand_over(alloc, settled, crews, sink)
            },
            Halted::Resuming(settled) => resume_over(alloc, settled, crews),
            Halted::Beginning(node) => begin_over(node, crews),
        }
    }
}
