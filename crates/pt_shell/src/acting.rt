//! Calls that change a running node.

ghost use Rattle.pt_shell.specs.Acting.{DoesAct};

use crate::answer::Answer;
use crate::lines::Act;
use pt_node::Node;

/// Makes the call.
pub(crate) fn act(node: &mut Node, call: Act) -> Answer
    ensures { DoesAct call node.old result node.new }
{
    match call {
        Act::Spawn(desk) => Answer::Made(node.spawn(desk)),
        Act::SpawnChild(parent, linked) => Answer::Made(node.spawn_child(parent, linked)),
        Act::Send(from, to, body) => Answer::Done(node.send(from, to, body)),
        Act::ExitSignal(from, to, reason) => Answer::Done(node.exit_signal(from, to, reason)),
        Act::Link(pid, to) => Answer::Done(node.link(pid, to)),
        Act::Unlink(pid, to) => Answer::Done(node.unlink(pid, to)),
        Act::Trap(pid, on) => Answer::Told(node.trap(pid, on)),
        Act::Exit(pid, reason) => Answer::Done(node.exit(pid, reason)),
        Act::Monitor(pid, target) => Answer::Named(node.monitor(pid, target)),
        Act::Demonitor(pid, monitor, flush) => { Answer::Told(node.demonitor(pid, monitor, flush)) }
        Act::AskAlive(pid, target) => Answer::Named(node.ask_alive(pid, target)),
        Act::Receive(pid, pick) => Answer::Taken(node.receive(pid, pick)),
        Act::Turn(desk, budget) => Answer::Turned(node.turn(desk, budget)),
        Act::TurnAll(budget) => Answer::Turned(Ok(node.turn_all(budget))),
        Act::TurnUntilStill(budget) => Answer::Rested(node.turn_until_still(budget)),
    }
}
