//! What a quiet node leaves for its next history, as the judge knows it.

ghost use Rattle.std.specs.Prelude.{◌≡◌, ◌∷◌, ◌++◌, ◌<◌, ℕ, [], length, map, true, false, IfOk};
ghost use Rattle.pt_events.specs.History.{life, is_unborn};
ghost use Rattle.pt_events.specs.Leaving.{outcome};
ghost use Rattle.pt_judge.specs.Judge.{IsAfter};
ghost use Rattle.pt_judge.specs.Judging.{now_is};
ghost use Rattle.pt_accounts.specs.LivesState.{InEveryMerge};
ghost use Rattle.pt_shard.specs.Restart.{restarted};
ghost use Rattle.pt_gathered.specs.Gathered.{begins, journals};
ghost use Rattle.pt_beginning.specs.Beginning.{start_of};

use crate::quiet::Quiet;
use crate::settled::Settled;
use pt_judge::{Holding, State};
use pt_laws::laws;
use pt_process::Process;
use pt_signal::{Ids, Pid, Ref};
use std::alloc::{AllocError, Global};

impl Quiet {
    /// The state that the node's history leads to, as the start of a history that continues from it. It has each
    /// process that was spawned. An exited one has its reason. A live one has its flag, its links, its open monitors,
    /// the watches that it keeps and the items that wait, each in order. No letter is in flight, and no id and no
    /// reference is made. Fails only if there is no memory.
    ///
    /// So `pt_judge::replay_from` judges from it what happens on the desks once the node is resumed.
    pub fn state(&self) -> Result<State, AllocError>
        ensures { IfOk result
            (λ state. (n : ℕ) → IsAfter (start_of (map (restarted n) self.now.gathered.shards)) [] state) }
    {
        laws::journals_have_one_merge();
        laws::journals_tell_their_pids();
        let settled = self.settled();
        // read for the proof alone: it says what holds of every gathered node
        let _desks = settled.desks();
        let mut state = State::new(settled.node().alloc());
        let pids = self.pids();
        for which in 0..pids.len() {
            state = settled.with_process(state, pids[which])?;
        }
        Ok(state)
    }
}

impl Settled {
    /// The state with this process added.
    fn with_process(&self, state: State, pid: Pid) -> Result<State, AllocError>
        requires desk { pid.shard < length self.now.gathered.shards }
        requires born { InEveryMerge (journals self.now.gathered)
            (λ past. is_unborn (life (begins self.now.gathered) past pid) ≡ false) }
        requires new { is_unborn (now_is state pid) ≡ true }
        ensures { IfOk result
            (λ new. InEveryMerge (journals self.now.gathered)
            (λ past.
            new ≡ record state {
              lives = state.lives ++ (pid, outcome (life (begins self.now.gathered) past pid)) ∷ [];
            })) }
    {
        laws::journals_have_one_merge();
        laws::journals_tell_their_pids();
        // read for the proof alone: it says what holds of every gathered node
        let _desks = self.desks();
        let alloc = self.node().alloc();
        let told = self.account(pid);
        if let Some(account) = told {
            if let Some(reason) = account.ended {
                return state.with_ended(alloc, pid, reason);
            }
        }
        let shards = self.node().shards();
        match shards[usize::from(pid.shard)].process(pid) {
            Some(process) => state.with_living(pid, holding_of(alloc, process)?),
            None => unreachable!(),
        }
    }
}

/// What a process holds.
fn holding_of(alloc: Global, process: &Process) -> Result<Holding, AllocError>
    ensures waiting { IfOk result (λ held. held.waiting.items ≡ process.now.state.waiting) }
    ensures links { IfOk result (λ held. held.links.items ≡ process.now.state.links) }
    ensures watching { IfOk result (λ held. held.watching.items ≡ process.now.state.watching) }
    ensures kept { IfOk result (λ held. held.kept.items ≡ process.now.state.kept) }
    ensures traps { IfOk result (λ held. held.traps ≡ process.now.state.traps) }
{
    let waiting = process.waiting().iter().copied().collect(alloc)?;
    let links = links_of(alloc, process)?;
    let watching = monitors_of(alloc, process)?;
    let kept = watches_of(alloc, process)?;
    Ok(Holding {
        waiting,
        links,
        watching,
        kept,
        traps: process.traps(),
    })
}

#[tactic(auto, using(crate::proofs::StartStates::copied_more, crate::proofs::StartStates::copied_all))]
fn links_of(alloc: Global, process: &Process) -> Result<Vec<(Pid, Ids)>, AllocError>
    ensures { IfOk result (λ links. links.items ≡ process.now.state.links) }
{
    let mut links = Vec::new(alloc);
    while let Some(link) = process.link_at(links.len()) {
        links.push(link)?;
    }
    Ok(links)
}

#[tactic(auto, using(crate::proofs::StartStates::copied_more, crate::proofs::StartStates::copied_all))]
fn monitors_of(alloc: Global, process: &Process) -> Result<Vec<(Ref, Pid)>, AllocError>
    ensures { IfOk result (λ monitors. monitors.items ≡ process.now.state.watching) }
{
    let mut monitors = Vec::new(alloc);
    while let Some(monitor) = process.monitor_at(monitors.len()) {
        monitors.push(monitor)?;
    }
    Ok(monitors)
}

#[tactic(auto, using(crate::proofs::StartStates::copied_more, crate::proofs::StartStates::copied_all))]
fn watches_of(alloc: Global, process: &Process) -> Result<Vec<(Ref, Pid)>, AllocError>
    ensures { IfOk result (λ watches. watches.items ≡ process.now.state.kept) }
{
    let mut watches = Vec::new(alloc);
    while let Some(watch) = process.watcher_at(watches.len()) {
        watches.push(watch)?;
    }
    Ok(watches)
}
