//! Crews run each by a worker on a thread of its own, until there is a cause to look at the node.

ghost use Rattle.std.specs.Prelude.{◌≡◌, ◌≤◌, [], length, map, vec_len};
ghost use Rattle.std.specs.Vec.{vec_capacity};
ghost use Rattle.pt_workers.specs.NodeRunning.{RunsNode};
ghost use Rattle.pt_crew.specs.Running.{CrewsDo};
ghost use Rattle.pt_epochs.specs.Driving.{AllWorkLet, lets_short};
ghost use Rattle.pt_epochs.specs.Watching.{watch};

use crate::board::Board;
use crate::call::Call;
use crate::epochs::Plan;
use crate::gate::RestGate;
use crate::watched::Watched;
use pt_behaviour::Behaviour;
use pt_crew::Crew;
use pt_node::{Gate, Node, RunFault};
use std::alloc::Global;
use std::sync::Wait;
use std::thread::Threads;
use std::time::Duration;

/// No worker rests longer than so many milliseconds.
const LONGEST: u64 = 1;

/// The gate of the workers, at which they rest, and end as the call asks.
#[derive(Drop)]
struct CallGate<'a, R> {
    rest: RestGate<'a, R>,
    board: &'a Board,
    call: &'a Call,
}

impl<'a, R: Wait> Gate for CallGate<'a, R> {
    ghost use Rattle.std.specs.Prelude.{⊤};

    ghost lets = { λ _ _ _ _. ⊤ };

    fn before(&self, desk: u8, turn: u64) -> bool {
        if self.call.is_paused() || self.call.is_stopped() {
            self.board.bells().stop();
        }
        self.rest.before(desk, turn)
    }

    fn after(&self, desk: u8, turn: u64) {
        self.rest.after(desk, turn);
    }
}

/// The crews as workers have them, in order. It takes no memory.
fn watch_all<'a, B: Behaviour + Drop>(
    crews: &mut Vec<Crew<B>>,
    board: &'a Board,
    events: usize,
    works: &mut Vec<Watched<'a, Crew<B>>>,
)
    requires room { (works.old.items ≡ []) × (vec_len crews.old ≤ vec_capacity works.old) }
    ensures works { works.new.items ≡ map (watch events) crews.old.items }
    ensures empty { crews.new.items ≡ [] }
    ensures kept { vec_capacity crews.new ≡ vec_capacity crews.old }
{
    crews.reverse();
    while let Some(crew) = crews.pop() {
        works.push_reserved(Watched::new(crew, board, events));
    }
}

/// The crews as they are then, in order. It takes no memory.
fn release_all<B: Behaviour + Drop>(works: Vec<Watched<'_, Crew<B>>>, crews: &mut Vec<Crew<B>>)
    requires room { (crews.old.items ≡ []) × (vec_len works ≤ vec_capacity crews.old) }
    ensures { crews.new.items ≡ map (λ w. w.inner) works.entry.items }
{
    let mut works = works;
    works.reverse();
    while let Some(work) = works.pop() {
        crews.push_reserved(work.into_inner());
    }
}

/// Runs the crews, with this board.
fn run_watched<R: Threads + Wait + Sync, B: Behaviour + Drop + Send>(
    rt: &R,
    alloc: Global,
    board: &Board,
    node: &mut Node,
    crews: &mut Vec<Crew<B>>,
    turns: u64,
    plan: Plan,
    call: &Call,
) -> Result<(), RunFault>
    requires { length crews.old.items ≡ length node.old }
    ensures { RunsNode (AllWorkLet (lets_short plan.events) (CrewsDo B.answers) turns plan.budget)
        node.old crews.old.items result node.new crews.new.items }
{
    let Ok(mut works) = Vec::with_capacity(alloc, crews.len()) else {
        return Err(RunFault::Memory);
    };
    watch_all(crews, board, plan.events, &mut works);
    let rest = RestGate::new(rt, board.bells(), Duration::from_millis(LONGEST));
    let gate = CallGate { rest, board, call };
    let ran = node.run(rt, &mut works, turns, plan.budget, &gate);
    release_all(works, crews);
    ran
}

/// Runs each crew on a thread of its own, as [`Node::run`] does, for at most so many turns. All workers end before their
/// next turn once one of them finds a cause to look at the node: a journal is longer than the plan says, a turn was
/// stopped, the outside asks, or no desk had anything to do in its last turn.
pub(crate) fn run_crews<R: Threads + Wait + Sync, B: Behaviour + Drop + Send>(
    rt: &R,
    alloc: Global,
    node: &mut Node,
    crews: &mut Vec<Crew<B>>,
    turns: u64,
    plan: Plan,
    call: &Call,
) -> Result<(), RunFault>
    requires { length crews.old.items ≡ length node.old }
    ensures { RunsNode (AllWorkLet (lets_short plan.events) (CrewsDo B.answers) turns plan.budget)
        node.old crews.old.items result node.new crews.new.items }
{
    let Ok(board) = Board::new(alloc, node.config().desks) else {
        return Err(RunFault::Memory);
    };
    run_watched(rt, alloc, &board, node, crews, turns, plan, call)
}
