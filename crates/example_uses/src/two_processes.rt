//! Two processes that send each other a message: the first program to write over a node.
//!
//! Take it if one thread has a node of one desk. The program makes each call of a process, and nothing arrives before a
//! turn. The desks are gathered in the end, also if a call failed.

ghost use Rattle.std.specs.Prelude.{◌≡◌, IfOk, vec_len};
ghost use Rattle.pt_gathered.specs.Lawful.{KeepsHeadline, IsLegalNode};
ghost use Rattle.pt_workers.specs.Desks.{AreDesks, IsStill};
ghost use Rattle.example_uses.specs.Exchanges.{Exchanges, ExchangesOnFirst, HasExchanged};

use crate::RecipeError;
use crate::steps::{gathered, tell};
use pt_node::{Config, Desk, Fault, Gathered, Pick, open};
use std::alloc::Global;

/// The kind of a question.
pub const ASK: u32 = 1;

/// The kind of an answer.
pub const ANSWER: u32 = 2;

/// Opens a node of one desk, lets ping ask and pong answer, and gathers the node.
pub fn two_processes(alloc: Global) -> Result<Gathered, RecipeError>
    ensures headline { IfOk result (λ g. KeepsHeadline g) }
    ensures legal { IfOk result (λ g. IsLegalNode g) }
    ensures exchanged { IfOk result (λ g. HasExchanged g) }
{
    let mut desks = open(
        alloc,
        Config {
            desks: 1,
            slots: 8,
            top_version: u32::MAX,
            lane: 8,
            start: 0,
        },
    )?;
    let played = play(&mut desks);
    let gathered = gathered(alloc, desks)?;
    played?;
    Ok(gathered)
}

/// Does the exchange on desk 0, which stays a desk of its node.
#[tactic(auto, using(pt_workers::proofs::StillDesks::still_desks))]
fn play(desks: &mut Vec<Desk>) -> Result<(), Fault>
    requires { AreDesks desks.old.items }
    ensures desks { AreDesks desks.new.items }
    ensures count { vec_len desks.new ≡ vec_len desks.old }
    ensures does { ExchangesOnFirst desks.old.items result desks.new.items }
{
    exchange(&mut desks[0])
}

/// Lets ping ask and pong answer.
pub fn exchange(desk: &mut Desk) -> Result<(), Fault>
    ensures does { Exchanges desk.old result desk.new }
    ensures still { IsStill desk.old desk.new }
{
    let ping = desk.spawn()?;
    let pong = desk.spawn()?;
    tell(desk, ping, pong, ASK, 7)?;
    let _ = desk.turn(16);
    let _question = desk.receive(pong, Pick::Kind(ASK))?;
    tell(desk, pong, ping, ANSWER, 8)?;
    let _ = desk.turn(16);
    let _answer = desk.receive(ping, Pick::From(pong))?;
    Ok(())
}
