//! Six scenes of processes that run code, each on four desks. In the first five the desks rest while there is nothing to
//! do. Each desk has a thread of its own, and the scene ends by what its processes do. They are:
//!
//! - a ring of a thousand processes;
//! - a bank with a sum that stays;
//! - a chat with guests that crash;
//! - a queue of jobs below a tree of supervisors;
//! - teams with workers that crash as they begin;
//! - such teams in rounds on one thread, on a node that pauses again and again.
//!
//! # What is proved
//!
//! - **The team.** On each desk every child that its supervisor wants alive is alive, once the node is gathered, or
//!   unlinked itself, or the supervisor is ending a child that traps exits and lives on. (`AllHereLive`)
//! - **The shifts.** So it is behind the pauses of its node. What happened until the last pause is one legal history.
//!   (`AllHereLive`, `IsLegal`)
//! - **The others.** Nothing goes wrong in a scene. That it ends, and what it prints, is seen by its run.
#![tactic(auto)]

mod bank;
mod chat;
mod jobs;
mod ring;
mod shifts;
mod stage;
mod team;

use anyhow::Result;

fn main(rt: HostRuntime) -> Result<()> {
    let alloc = rt.alloc();
    println!(rt; "{}", ring::play(&rt, alloc)?)?;
    println!(rt; "{}", bank::play(&rt, alloc)?)?;
    println!(rt; "{}", chat::play(&rt, alloc)?)?;
    println!(rt; "{}", jobs::play(&rt, alloc)?)?;
    let curtain = team::curtain(alloc)?;
    println!(rt; "{}", team::play(&rt, alloc, &curtain)?)?;
    println!(rt; "{}", shifts::play(alloc, &curtain)?)?;
    Ok(())
}
