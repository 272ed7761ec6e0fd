//! Desks on threads: each desk has a worker, and afterwards the node is gathered. A `Work` says what a worker does in
//! each of its turns; the desk's own turn follows by itself. Here each desk's process sends to that of the next desk.

ghost use Rattle.std.specs.Prelude.{◌≡◌, IfOk, vec_len};
ghost use Rattle.pt_gathered.specs.Lawful.{KeepsHeadline};
ghost use Rattle.pt_workers.specs.Desks.{AreDesks};

use crate::RecipeError;
use crate::steps::{gathered, tell};
use pt_node::{
    Config, Desk, FreeGate, Gathered, Pid, Ran, Turned, Work, assign, open, release, run,
};
use std::alloc::Global;
use std::thread::Threads;

/// A process, its receiver, and the number of messages that it has sent. They are numbered 0, 1, 2 and so on.
#[derive(Clone, Copy, Debug)]
pub struct Sender {
    pub me: Pid,
    pub to: Pid,
    pub sent: i64,
}

impl Work for Sender {
    ghost use Rattle.example_uses.specs.Rings.{SaysNext};

    ghost does = { λ r old s new. SaysNext r old s new };

    #[tactic(auto, using(pt_workers::proofs::GoingOn::stays))]
    fn step(&mut self, desk: &mut Desk) {
        if let Ok(()) = tell(desk, self.me, self.to, 1, self.sent) {
            self.sent = self.sent.saturating_add(1);
        }
    }

    fn turned(&mut self, _desk: &Desk, _turned: Turned) {}
}

/// Opens a node, lets the first process of each desk send to that of the next desk for so many turns, and gathers the
/// node.
pub fn ring<R: Threads + Sync>(
    rt: &R,
    alloc: Global,
    config: Config,
    turns: u64,
) -> Result<Gathered, RecipeError>
    ensures { IfOk result (λ g. KeepsHeadline g) }
{
    let mut desks = open(alloc, config)?;
    let sent = send_round(rt, alloc, &mut desks, turns);
    let node = gathered(alloc, desks);
    sent.and(node)
}

/// Runs the desks with their senders, on threads.
fn send_round<R: Threads + Sync>(
    rt: &R,
    alloc: Global,
    desks: &mut Vec<Desk>,
    turns: u64,
) -> Result<(), RecipeError>
    requires { AreDesks desks.old.items }
    ensures { AreDesks desks.new.items }
{
    let mut senders = senders(alloc, desks)?;
    let mut pairs = Vec::with_capacity(alloc, desks.len())?;
    assign(desks, &mut senders, &mut pairs);
    let Ran { desks: mut pairs } = run(rt, pairs, turns, 16, &FreeGate);
    release(&mut pairs, desks, &mut senders);
    pairs.destroy_empty();
    Ok(())
}

/// Spawns a process on each desk, which sends to the one on the next desk.
fn senders(alloc: Global, desks: &mut Vec<Desk>) -> Result<Vec<Sender>, RecipeError>
    requires { AreDesks desks.old.items }
    ensures node { AreDesks desks.new.items }
    ensures count { IfOk result (λ s. vec_len s ≡ vec_len desks.new) }
{
    let mut senders = Vec::with_capacity(alloc, desks.len())?;
    for d in 0..desks.len() {
        let me = desks[d].spawn()?;
        let mut to = me;
        to.shard = u8::try_from((d + 1) % desks.len()).unwrap_or(0);
        senders.push_reserved(Sender { me, to, sent: 0 });
    }
    Ok(senders)
}
