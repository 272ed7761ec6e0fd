//! Runs the desks of a node, each with the work at its place.

ghost use Rattle.std.specs.Prelude.{◌≤◌, length};
ghost use Rattle.pt_signal.specs.declared.config.TheConstants.{MAX_DESKS};
ghost use Rattle.pt_workers.specs.Desks.{AreDesks};
ghost use Rattle.pt_workers.specs.NodeRunning.{RunsNode};
ghost use Rattle.pt_workers.specs.Running.{AllWork, InRounds, begins_by};

use pt_desk::Desk;
use pt_workers::{Gate, Ran, RunFault, Task, assign, release, run, run_single};
use std::alloc::Global;
use std::thread::Threads;

/// Runs the desks of a node on threads.
pub(crate) fn run_desks<R: Threads + Sync, G: Gate + Sync, W: Task + Send>(
    rt: &R,
    alloc: Global,
    desks: &mut Vec<Desk>,
    works: &mut Vec<W>,
    turns: u64,
    budget: u32,
    gate: &G,
) -> Result<(), RunFault>
    ensures runs { RunsNode (AllWork (begins_by W.standing (G.lets gate.now)) (W.does, W.hears) turns budget)
        desks.old.items works.old.items result desks.new.items works.new.items }
    ensures node { AreDesks desks.old.items → AreDesks desks.new.items }
{
    if works.len() != desks.len() {
        return Err(RunFault::Works);
    }
    let Ok(mut pairs) = Vec::with_capacity(alloc, desks.len()) else {
        return Err(RunFault::Memory);
    };
    assign(desks, works, &mut pairs);
    let Ran { desks: mut pairs } = run(rt, pairs, turns, budget, gate);
    release(&mut pairs, desks, works);
    pairs.destroy_empty();
    Ok(())
}

/// Runs the desks of a node on the calling thread.
pub(crate) fn run_desks_single<G: Gate, W: Task>(
    alloc: Global,
    desks: &mut Vec<Desk>,
    works: &mut Vec<W>,
    turns: u64,
    budget: u32,
    gate: &G,
) -> Result<(), RunFault>
    requires { AreDesks desks.old.items }
    ensures runs { RunsNode (λ old new.
        AllWork (begins_by W.standing (G.lets gate.now)) (W.does, W.hears) turns budget old new
        × InRounds (begins_by W.standing (G.lets gate.now)) (W.does, W.hears) turns budget old new)
        desks.old.items works.old.items result desks.new.items works.new.items }
    ensures node { AreDesks desks.new.items }
{
    count_desks(desks.as_slice());
    if works.len() != desks.len() {
        return Err(RunFault::Works);
    }
    let Ok(mut pairs) = Vec::with_capacity(alloc, desks.len()) else {
        return Err(RunFault::Memory);
    };
    assign(desks, works, &mut pairs);
    let Ran { desks: mut pairs } = run_single(pairs, turns, budget, gate);
    release(&mut pairs, desks, works);
    pairs.destroy_empty();
    Ok(())
}

/// A node has at most so many desks.
fn count_desks(desks: &[Desk])
    requires { AreDesks desks.now }
    ensures { length desks.now ≤ MAX_DESKS }
{
    // read for the proof alone: it says what holds of every desk
    let _ = desks[0].journal();
}
