//! A node for a crowd: its desks with their workers, and what is gathered of them.

ghost use Rattle.std.specs.Prelude.{map};
ghost use Rattle.pt_workers.specs.Desks.{AreDesks};

use crate::board::{DESKS, SLOTS};
use crate::crowd::Crowd;
use pt_node::{Config, Desk, Gathered, Ran, assign, gather, open, release};
use std::alloc::Global;
use std::process::Abort;

/// The desks of a new node. The lanes are narrow, so that letters wait in the outboxes.
pub(crate) fn opened(rt: &impl Abort, alloc: Global) -> Vec<Desk>
    ensures { AreDesks result.items }
{
    let config = Config {
        desks: DESKS,
        slots: SLOTS,
        top_version: u32::MAX,
        lane: 1,
        start: 0,
    };
    let Ok(desks) = open(alloc, config) else {
        panic!(rt; "the node does not open");
    };
    desks
}

/// The desks, each with its worker.
pub(crate) fn staffed<'a>(
    rt: &impl Abort,
    alloc: Global,
    desks: Vec<Desk>,
    works: Vec<Crowd<'a>>,
) -> Vec<(Desk, Crowd<'a>)>
    requires { AreDesks desks.items }
    ensures { AreDesks (map (λ p. p.0) result.items) }
{
    let mut desks = desks;
    let mut works = works;
    let Ok(mut pairs) = Vec::with_capacity(alloc, desks.len()) else {
        panic!(rt; "no memory for the pairs");
    };
    assert!(rt; works.len() == desks.len());
    assign(&mut desks, &mut works, &mut pairs);
    desks.destroy_empty();
    pairs
}

/// The desks brought together, and their workers.
pub(crate) fn gathered<'a>(
    rt: &impl Abort,
    alloc: Global,
    ran: Ran<Crowd<'a>>,
) -> (Gathered, Vec<Crowd<'a>>)
    requires { AreDesks (map (λ p. p.0) ran.desks.items) }
{
    let Ran { desks: mut pairs } = ran;
    let Ok(mut desks) = Vec::with_capacity(alloc, pairs.len()) else {
        panic!(rt; "no memory for the desks");
    };
    let Ok(mut works) = Vec::with_capacity(alloc, pairs.len()) else {
        panic!(rt; "no memory for their workers");
    };
    release(&mut pairs, &mut desks, &mut works);
    pairs.destroy_empty();
    match gather(alloc, desks) {
        Ok(gathered) => (gathered, works),
        Err(back) => {
            back.abandon();
            panic!(rt; "the desks come back");
        }
    }
}
