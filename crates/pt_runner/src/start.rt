//! Starting the work of a script.

ghost use Rattle.std.specs.Prelude.{◌≡◌, ◌≤◌, None, IfOk, length, vec_len};
ghost use Rattle.pt_shard.specs.Calls.{Bears};
ghost use Rattle.pt_script.specs.Nodes.{config_of};
ghost use Rattle.pt_desk.specs.DeskState.{GoesOn, IsDesk};
ghost use Rattle.pt_workers.specs.Desks.{AreDesksOf};
ghost use Rattle.pt_runner.specs.Starting.{AreUnused, Starts, BearsList, AreRunners, IsRunnerOf, numbered_pids};

use crate::runner::{Actor, Runner, put_pid};
use pt_script::Script;
use pt_shard::Config;
use pt_workers::{Desk, Fault, Pid};
use std::alloc::{AllocError, Global};

impl<'a> Runner<'a> {
    /// Spawns the processes that the script begins with, in its order, and returns one runner for each desk, in their
    /// order.
    ///
    /// A runner has the processes that were spawned on its desk, in that order. Each is at the first operation of its
    /// list, and has no reference yet. The runner knows the pids of all that were spawned.
    ///
    /// The desks must be those that `open` returned for the script's `config`, in order. Fails with `Full` if the desk
    /// of the next process has no free slot, and with `Worn` if its clock is at its limit. Else it fails with `Memory`
    /// if there is none, for a process or for the runners. The processes that were spawned before stay.
    pub fn start(
        alloc: Global,
        script: &'a Script,
        desks: &mut [Desk],
    ) -> Result<Vec<Runner<'a>>, Fault>
        requires { AreUnused (config_of script.now.settings) desks.old }
        ensures desks { AreDesksOf (config_of script.now.settings) desks.new }
        ensures count { IfOk result (λ runners. vec_len runners ≡ length desks.new) }
        ensures starts { Starts script.now desks.new result }
    {
        Runner::start_on(alloc, script, script.config(), desks)
    }

    /// The same on a node with these settings, which need not be those of the script: the desks must be those that `open`
    /// returned for them, in order. They must be as many as the script has, with clocks that begin at 0.
    #[tactic(auto, using(crate::proofs::Starting::refused_as, crate::proofs::Starting::no_runners))]
    pub fn start_on(
        alloc: Global,
        script: &'a Script,
        config: Config,
        desks: &mut [Desk],
    ) -> Result<Vec<Runner<'a>>, Fault>
        requires fresh { AreUnused config desks.old }
        requires count { config.desks ≡ script.now.settings.desks }
        requires start { config.start ≡ 0 }
        ensures desks { AreDesksOf config desks.new }
        ensures count { IfOk result (λ runners. vec_len runners ≡ length desks.new) }
        ensures starts { Starts script.now desks.new result }
    {
        let born = bear(alloc, script, config, desks)?;
        let slots = config.slots as usize;
        let runners = runners_of(alloc, script, slots, born.as_slice(), desks.len())?;
        Ok(runners)
    }
}

/// Spawns the processes of the script's list, and returns their pids in its order.
fn bear(
    alloc: Global,
    script: &Script,
    config: Config,
    desks: &mut [Desk],
) -> Result<Vec<Pid>, Fault>
    requires fresh { AreUnused config desks.old }
    requires count { config.desks ≡ script.now.settings.desks }
    requires start { config.start ≡ 0 }
    ensures desks { AreDesksOf config desks.new }
    ensures bears { BearsList script.now.tops desks.new result }
{
    let tops = script.tops();
    let mut born = Vec::with_capacity(alloc, tops.len())?;
    for top in tops {
        let pid = bear_on(&mut desks[top.desk as usize])?;
        born.push_reserved(pid);
    }
    Ok(born)
}

/// Spawns a process on a desk. All that holds for every desk holds for it then, also if this fails.
fn bear_on(desk: &mut Desk) -> Result<Pid, Fault>
    ensures does { Bears None None desk.old.shard result desk.new.shard }
    ensures here { IfOk result (λ p. p.shard ≡ desk.new.shard.number) }
    ensures whole { IsDesk desk.new }
    ensures goes_on { GoesOn desk.old desk.new }
{
    let born = desk.spawn();
    // read for the proof alone: it says what holds of every desk
    let _ = desk.journal();
    born
}

/// A runner for each of so many desks, which have so many slots each.
fn runners_of<'a>(
    alloc: Global,
    script: &'a Script,
    slots: usize,
    born: &[Pid],
    desks: usize,
) -> Result<Vec<Runner<'a>>, AllocError>
    requires { length born.now ≤ length script.now.tops }
    ensures runners { IfOk result (λ runners. AreRunners script.now born.now desks runners.items) }
    ensures count { IfOk result (λ runners. vec_len runners ≡ desks) }
{
    let pids = pids_of(alloc, script, born)?;
    let mut runners = Vec::with_capacity(alloc, desks)?;
    for desk in 0..desks {
        runners.push(runner_of(alloc, script, slots, desk, born, pids.as_slice())?)?;
    }
    Ok(runners)
}

/// The pids by the numbers of their processes.
fn pids_of(alloc: Global, script: &Script, born: &[Pid]) -> Result<Vec<Option<Pid>>, AllocError>
    requires { length born.now ≤ length script.now.tops }
    ensures { IfOk result (λ pids. pids.items ≡ numbered_pids script.now born.now) }
{
    let tops = script.tops();
    let mut pids = vec![in alloc; None; script.processes().len()]?;
    for (index, pid) in born.iter().enumerate() {
        put_pid(&mut pids, tops[index].process, *pid);
    }
    Ok(pids)
}

/// The runner of a desk with so many slots.
fn runner_of<'a>(
    alloc: Global,
    script: &'a Script,
    slots: usize,
    desk: usize,
    born: &[Pid],
    pids: &[Option<Pid>],
) -> Result<Runner<'a>, AllocError>
    requires born { length born.now ≤ length script.now.tops }
    requires pids { pids.now ≡ numbered_pids script.now born.now }
    ensures { IfOk result (λ r. IsRunnerOf script.now born.now desk r) }
{
    let tops = script.tops();
    let mut actors = Vec::new(alloc);
    for (index, pid) in born.iter().enumerate() {
        if pid.shard as usize == desk {
            actors.push(Actor::new(alloc, script, *pid, tops[index].process))?;
        }
    }
    let came = vec![in alloc; 0; slots]?;
    Ok(Runner::new(alloc, script, Vec::from_slice(alloc, pids)?, actors, came))
}
