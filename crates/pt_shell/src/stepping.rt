//! Steps from one state of a node to the next: it is opened, gathered, settled, and resumed.

ghost use Rattle.std.specs.Prelude.{◌≡◌, IfOk, IfSome, length};
ghost use Rattle.pt_gathered.specs.LeftOvers.{all_left};
ghost use Rattle.pt_shell.specs.Stepping as spec;

use crate::answer::Answer;
use crate::looking_back::events_of;
use crate::phase::Phase;
use pt_events::Event;
use pt_gathered::{Gathered, Quiet};
use pt_node::Node;
use pt_shard::Config;
use std::alloc::{AllocError, Global};
use std::mem;

/// Opens a node. The one before is dropped, unless the new one could not be opened.
pub(crate) fn open(
    alloc: Global,
    phase: &mut Phase,
    earlier: &mut Vec<Event>,
    config: Config,
) -> Answer
    ensures { spec.OpensPhase config phase.old earlier.old.items result phase.new earlier.new.items }
{
    match Node::open(alloc, config) {
        Ok(node) => {
            *phase = Phase::Running(node);
            earlier.clear();
            Answer::Opened(Ok(()))
        }
        Err(error) => Answer::Opened(Err(error)),
    }
}

/// Gathers the node, if it runs.
pub(crate) fn gather(phase: &mut Phase) -> Option<Answer>
    ensures { spec.GathersPhase phase.old result phase.new }
{
    match mem::replace(phase, Phase::Closed) {
        Phase::Running(node) => {
            let (next, answer) = gathered(node);
            *phase = next;
            Some(answer)
        }
        other => {
            *phase = other;
            None
        }
    }
}

fn gathered(node: Node) -> (Phase, Answer)
    ensures { spec.GathersTo node result.1 result.0 }
{
    match node.gather() {
        Ok(gathered) => match count_left(&gathered) {
            Some(count) => (Phase::Gathered(gathered), Answer::LeftOver(count)),
            None => (Phase::Gathered(gathered), Answer::NoMemory),
        },
        Err(back) => (Phase::Running(back.node), Answer::NoMemory),
    }
}

/// The number of letters left over, if there was memory for their list.
fn count_left(gathered: &Gathered) -> Option<u64>
    ensures { IfSome result (λ n. n ≡ length (all_left gathered.now)) }
{
    match gathered.left_over() {
        Ok(letters) => Some(letters.len() as u64),
        Err(_) => None,
    }
}

/// Settles the node, if it is gathered.
pub(crate) fn settle(phase: &mut Phase) -> Option<Answer>
    ensures { spec.SettlesPhase phase.old result phase.new }
{
    match mem::replace(phase, Phase::Closed) {
        Phase::Gathered(gathered) => {
            let (next, answer) = settled(gathered);
            *phase = next;
            Some(answer)
        }
        other => {
            *phase = other;
            None
        }
    }
}

fn settled(gathered: Gathered) -> (Phase, Answer)
    ensures { spec.SettlesTo gathered result.1 result.0 }
{
    match gathered.settle() {
        Ok(quiet) => {
            let answer = Answer::Handled(Ok(quiet.handled()));
            (Phase::Settled(quiet), answer)
        }
        Err(unsettled) => (
            Phase::Gathered(unsettled.gathered),
            Answer::Handled(Err(unsettled.fault)),
        ),
    }
}

/// Resumes the node, if it is settled.
pub(crate) fn resume(alloc: Global, phase: &mut Phase, earlier: &mut Vec<Event>) -> Option<Answer>
    ensures { spec.ResumesPhase phase.old earlier.old.items result phase.new earlier.new.items }
{
    match mem::replace(phase, Phase::Closed) {
        Phase::Settled(quiet) => {
            let (next, answer) = resumed(alloc, quiet, earlier);
            *phase = next;
            Some(answer)
        }
        other => {
            *phase = other;
            None
        }
    }
}

fn resumed(alloc: Global, quiet: Quiet, earlier: &mut Vec<Event>) -> (Phase, Answer)
    ensures { spec.ResumesTo quiet earlier.old.items result.1 result.0 earlier.new.items }
{
    let Ok(events) = with_epoch(alloc, earlier.as_slice(), &quiet) else {
        return (Phase::Settled(quiet), Answer::NoMemory);
    };
    match Node::resume(alloc, quiet) {
        Ok(node) => {
            *earlier = events;
            (Phase::Running(node), Answer::Resumed)
        }
        Err(back) => (Phase::Settled(back.quiet), Answer::NoMemory),
    }
}

/// The events of all epochs, that of the node among them.
fn with_epoch(alloc: Global, earlier: &[Event], quiet: &Quiet) -> Result<Vec<Event>, AllocError>
    ensures { IfOk result (λ events. spec.HasEpoch quiet.now earlier.now events.items) }
{
    let mut events = earlier.to_vec(alloc)?;
    let history = quiet.history()?;
    let epoch = events_of(alloc, history.as_slice())?;
    events.extend_from_slice(epoch.as_slice())?;
    Ok(events)
}
