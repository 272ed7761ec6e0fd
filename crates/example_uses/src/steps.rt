//! Steps that the recipes share: sending a message, and gathering the desks.

ghost use Rattle.std.specs.Prelude.{◌≡◌, IfOk};
ghost use Rattle.pt_desk.specs.DeskState.{GoesOn, HasSameEnds};
ghost use Rattle.pt_gathered.specs.Lawful.{KeepsHeadline, IsLegalNode};
ghost use Rattle.pt_workers.specs.Desks.{AreDesks};
ghost use Rattle.pt_node.specs.Gathering.{HasJournalsOf};
ghost use Rattle.example_uses.specs.Telling.{SaysTo, plain_message, unheard};

use crate::RecipeError;
use pt_node::{Body, Desk, Fault, Gathered, Pid, gather};
use std::alloc::Global;

/// Sends a message. If the desk does not know the receiver, the message is lost, as one to an exited process.
#[tactic(auto, using(pt_workers::proofs::GoingOn::stays))]
pub fn tell(desk: &mut Desk, from: Pid, to: Pid, kind: u32, num: i64) -> Result<(), Fault>
    ensures does { SaysTo from to (plain_message kind num) desk.old.shard result desk.new.shard }
    ensures ends { HasSameEnds desk.old desk.new }
    ensures goes_on { GoesOn desk.old desk.new }
{
    let body = Body {
        kind,
        num,
        who: None,
    };
    if !desk.knows(to) {
        return Ok(());
    }
    unheard(desk.send(from, to, body))
}

/// The answer to a message. That the receiver is seen to have exited is no failure: the message is lost.
fn unheard(answer: Result<(), Fault>) -> Result<(), Fault>
    ensures { result ≡ unheard answer }
{
    match answer {
        Err(Fault::NoProc) => Ok(()),
        heard => heard,
    }
}

/// Gathers the desks of a node. If there is no memory for that, they are given up.
pub fn gathered(alloc: Global, desks: Vec<Desk>) -> Result<Gathered, RecipeError>
    requires { AreDesks desks.items }
    ensures journals { IfOk result (λ g. HasJournalsOf desks.items g) }
    ensures headline { IfOk result (λ g. KeepsHeadline g) }
    ensures legal { IfOk result (λ g. IsLegalNode g) }
{
    match gather(alloc, desks) {
        Ok(gathered) => Ok(gathered),
        Err(back) => {
            back.abandon();
            Err(RecipeError::Memory)
        }
    }
}
