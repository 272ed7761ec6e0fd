//! Workers, each with a desk of a node.

ghost use Rattle.std.specs.Prelude.{◌≡◌, ℕ, ◌<◌, ◌≤◌, Bool, Some, None, false, MatchBool, length, map, slice_index_or};
ghost use Rattle.pt_signal.specs.declared.config.TheConstants.{MAX_DESKS};
ghost use Rattle.pt_desk.specs.DeskState.{DeskState, GoesOn};
ghost use Rattle.pt_workers.specs.Desks.{AreDesks};
ghost use Rattle.pt_workers.specs.Running.{AllGoOn, AllWork, HasTurn, HaveEnded, InRounds, Round, TakesTurn, Works, begins_by};

use crate::work::{Standing, Task};
use pt_desk::Desk;
use std::thread;
use std::thread::Threads;

/// What is called before and after each turn of each worker.
///
/// The workers share one gate, so it is used from several threads at a time.
///
/// The ghost member `lets` says what `before` may return for a desk and a turn. A run states its promise about its
/// workers' turns by it.
pub trait Gate {
    ghost lets: { Self → ℕ → ℕ → Bool → Type 0 };

    /// Whether the worker of that desk takes that turn, counted from 0. If not, the worker ends.
    fn before(&self, desk: u8, turn: u64) -> bool
        ensures { lets self.now desk turn result };

    /// Called after the worker of that desk has done that turn.
    fn after(&self, desk: u8, turn: u64);
}

/// The gate that is always open.
#[derive(Clone, Copy, Debug)]
pub struct FreeGate;

impl Gate for FreeGate {
    ghost use Rattle.pt_workers.specs.Running.{always};

    ghost lets = { λ _ desk turn begins. always desk turn begins };

    fn before(&self, _desk: u8, _turn: u64) -> bool {
        true
    }

    fn after(&self, _desk: u8, _turn: u64) {}
}

/// All desks and their work, in order, after a run.
pub struct Ran<W> {
    /// The desks as their workers left them.
    pub desks: Vec<(Desk, W)>,
}

impl<W: Task> Ran<W> {
    /// What the work of that desk says of itself after the run, or `None` if there is no such desk.
    pub fn standing(&self, desk: usize) -> Option<Standing>
        ensures there { (p : DeskState × W) → desk < length self.now.desks.items
            → result ≡ Some (W.standing (slice_index_or self.now.desks.items desk p).1) }
        ensures beyond { length self.now.desks.items ≤ desk → result ≡ None }
    {
        if desk >= self.desks.len() {
            return None;
        }
        let (_desk, work) = &self.desks[desk];
        Some(work.standing())
    }
}

/// Lets each desk's worker do up to `turns` turns on a thread of its own, and gives every desk back, in order.
///
/// A worker's turn is five calls:
///
/// - `gate.before`, which may end the worker;
/// - the work's `step`;
/// - the desk's `turn` with that budget;
/// - the work's `turned`, which gets what that turn returned;
/// - `gate.after`.
///
/// A worker also ends, before `gate.before`, if its work is done or has failed. The desks are lent, so none moves into
/// a thread. If no thread can be made, the workers run one after another. When `run` returns, every worker has ended.
/// An empty list is given back.
///
/// Each desk that comes back is the one at its place in the list that was passed, after its turns. So the desks of one
/// node still are that, and `gather` of `pt_node` takes them. Each worker takes all its turns, or all before the
/// first that did not begin. If a desk's turn stops, its worker does not end: the letter stays in the hold, and the
/// worker's next turn resumes with it.
pub fn run<R: Threads + Sync, G: Gate + Sync, W: Task + Send>(
    rt: &R,
    desks: Vec<(Desk, W)>,
    turns: u64,
    budget: u32,
    gate: &G,
) -> Ran<W>
    ensures each { AllGoOn desks.items result.desks.items }
    ensures turns { AllWork
        (begins_by W.standing (G.lets gate.now)) (W.does, W.hears) turns budget desks.items result.desks.items }
    ensures desks { AreDesks (map (λ p. p.0) desks.items) → AreDesks (map (λ p. p.0) result.desks.items) }
{
    let mut desks = desks;
    work_all(rt, &mut desks, turns, budget, gate);
    Ran { desks }
}

/// Does the same turns on the calling thread, in rounds. Each round is one turn of every worker that has not ended,
/// from desk 0 upwards.
///
/// Each desk that comes back is the one at its place in the list that was passed, after its turns. Each worker takes
/// the turns that [`run`] lets it take. A list of more than 64 desks is not of one node: its workers take all their
/// turns one after another.
pub fn run_single<G: Gate, W: Task>(
    desks: Vec<(Desk, W)>,
    turns: u64,
    budget: u32,
    gate: &G,
) -> Ran<W>
    ensures each { AllGoOn desks.items result.desks.items }
    ensures turns { AllWork
        (begins_by W.standing (G.lets gate.now)) (W.does, W.hears) turns budget desks.items result.desks.items }
    ensures rounds { length desks.items ≤ MAX_DESKS
        → InRounds (begins_by W.standing (G.lets gate.now))
        (W.does, W.hears) turns budget desks.items result.desks.items }
    ensures desks { AreDesks (map (λ p. p.0) desks.items) → AreDesks (map (λ p. p.0) result.desks.items) }
{
    let mut desks = desks;
    if desks.len() > 64 {
        one_by_one(&mut desks, turns, budget, gate);
        return Ran { desks };
    }
    all_rounds(&mut desks, turns, budget, gate);
    Ran { desks }
}

/// All rounds, or as many as there are until every worker has ended.
fn all_rounds<G: Gate, W: Task>(desks: &mut Vec<(Desk, W)>, turns: u64, budget: u32, gate: &G)
    requires { length desks.old.items ≤ MAX_DESKS }
    ensures each { AllGoOn desks.old.items desks.new.items }
    ensures turns { AllWork
        (begins_by W.standing (G.lets gate.now)) (W.does, W.hears) turns budget desks.old.items desks.new.items }
    ensures rounds { InRounds
        (begins_by W.standing (G.lets gate.now)) (W.does, W.hears) turns budget desks.old.items desks.new.items }
{
    let mut ended = [false; 64];
    for turn in 0..turns {
        if !one_round(desks, &mut ended, turn, budget, gate) {
            return;
        }
    }
}

/// Gives a turn to every worker that has not ended, and returns whether one of them continues.
fn one_round<G: Gate, W: Task>(
    desks: &mut Vec<(Desk, W)>,
    ended: &mut [bool; 64],
    turn: u64,
    budget: u32,
    gate: &G,
) -> bool
    requires { length desks.old.items ≤ MAX_DESKS }
    ensures each { AllGoOn desks.old.items desks.new.items }
    ensures round { Round
        (begins_by W.standing (G.lets gate.now)) (W.does, W.hears) budget turn (length desks.old.items)
        (desks.old.items, ended.old) (desks.new.items, ended.new) }
    ensures none { result ≡ false → HaveEnded (length desks.old.items) ended.new }
{
    let mut goes_on = false;
    for d in 0..desks.len() {
        turn_at(desks, ended, d, turn, budget, gate);
        if !ended[d] {
            goes_on = true;
        }
    }
    goes_on
}

/// Gives a turn to the worker of desk d, if it has not ended.
fn turn_at<G: Gate, W: Task>(
    desks: &mut Vec<(Desk, W)>,
    ended: &mut [bool; 64],
    d: usize,
    turn: u64,
    budget: u32,
    gate: &G,
)
    requires desk { d < length desks.old.items }
    requires few { length desks.old.items ≤ MAX_DESKS }
    ensures each { AllGoOn desks.old.items desks.new.items }
    ensures turn { HasTurn
        (begins_by W.standing (G.lets gate.now)) (W.does, W.hears) budget turn d (desks.old.items, ended.old)
        (desks.new.items, ended.new) }
{
    if ended[d] {
        return;
    }
    ended[d] = !one_turn(&mut desks[d], turn, budget, gate);
}

/// All turns of each worker, one worker after another.
fn one_by_one<G: Gate, W: Task>(desks: &mut Vec<(Desk, W)>, turns: u64, budget: u32, gate: &G)
    ensures each { AllGoOn desks.old.items desks.new.items }
    ensures turns { AllWork
        (begins_by W.standing (G.lets gate.now)) (W.does, W.hears) turns budget desks.old.items desks.new.items }
{
    for d in 0..desks.len() {
        work_turns(&mut desks[d], turns, budget, gate);
    }
}

/// The workers, each on a thread of its own as far as threads can be made.
fn work_all<R: Threads + Sync, G: Gate + Sync, W: Task + Send>(
    rt: &R,
    desks: &mut [(Desk, W)],
    turns: u64,
    budget: u32,
    gate: &G,
)
    ensures each { AllGoOn desks.old desks.new }
    ensures turns { AllWork
        (begins_by W.standing (G.lets gate.now)) (W.does, W.hears) turns budget desks.old desks.new }
{
    let workers = desks.len();
    if workers > 0 {
        thread::for_each_mut(
            rt,
            desks,
            workers,
            &|_, pair: &mut (Desk, W)| {
                work_turns(pair, turns, budget, gate);
            },
        );
    }
}

/// The turns of one worker.
fn work_turns<G: Gate, W: Task>(pair: &mut (Desk, W), turns: u64, budget: u32, gate: &G)
    ensures goes_on { GoesOn pair.old.0 pair.new.0 }
    ensures turns { Works
        (begins_by W.standing (G.lets gate.now) pair.old.0.shard.number) (W.does, W.hears) turns budget
        pair.old pair.new }
{
    for turn in 0..turns {
        if !one_turn(pair, turn, budget, gate) {
            return;
        }
    }
}

/// Does one turn of a worker, or returns false if it ends.
fn one_turn<G: Gate, W: Task>(pair: &mut (Desk, W), turn: u64, budget: u32, gate: &G) -> bool
    ensures goes_on { GoesOn pair.old.0 pair.new.0 }
    ensures lets { begins_by W.standing (G.lets gate.now) pair.old.0.shard.number pair.old.1 turn result }
    ensures takes { MatchBool result (TakesTurn (W.does, W.hears) budget pair.old pair.new) (pair.new ≡ pair.old) }
{
    let (desk, work) = pair;
    let number = desk.number();
    if !turn_begins(work, number, turn, gate) {
        return false;
    }
    work.step(desk);
    let turned = desk.turn(budget);
    work.turned(desk, turned);
    gate.after(number, turn);
    true
}

/// Whether the next turn of a worker begins. The gate is asked only if the work has more to do.
fn turn_begins<G: Gate, W: Task>(work: &W, desk: u8, turn: u64, gate: &G) -> bool
    ensures { begins_by W.standing (G.lets gate.now) desk work.now turn result }
{
    match work.standing() {
        Standing::Going => gate.before(desk, turn),
        Standing::Done | Standing::Failed => false,
    }
}
