//! A game: in each tick every process handles its messages, and then the desk has a turn.
//!
//! Take it if a process has a state of its own. A desk keeps mailboxes and links and nothing else, so the state is in a
//! map by pid beside it, here the health of each monster. A monster with no health left exits.

ghost use Rattle.std.specs.Prelude.{◌≡◌, []};
ghost use Rattle.pt_workers.specs.Desks.{IsStill};
ghost use Rattle.example_uses.specs.Doing.{Repeats};
ghost use Rattle.example_uses.specs.Games.{EndsIfSpent, MonsterEnters, SeesToMonster, SeesToAll, TakesHit, Ticks, entered, hit_by};

use indexmap::IndexMap;
use pt_node::{Desk, Fault, Item, Pick, Pid, Reason};
use std::alloc::Global;

/// The kind of the message that takes health away. Its number says how much.
pub const HIT: u32 = 1;

/// The most hits that a monster takes in a tick, and the most letters that a turn handles.
const BUDGET: u32 = 64;

/// A monster takes up to 64 hits in a tick, and a turn handles up to 64 letters.
///
/// The function does nothing: the law is its contract.
pub fn budget_stands()
    ensures { BUDGET ≡ 64 }
{}

/// The monsters of one desk, each with its health, in the order in which they entered.
#[derive(Drop)]
pub struct Game {
    pub health: IndexMap<Pid, i64>,
}

impl Game {
    /// A game without monsters.
    pub fn new(alloc: Global) -> Game
        ensures { result.health.entries ≡ [] }
    {
        let health = IndexMap::new(alloc);
        Game { health }
    }

    /// Spawns a monster: a process, with its health.
    pub fn enter(&mut self, desk: &mut Desk, health: i64) -> Result<Pid, Fault>
        ensures does { MonsterEnters desk.old.shard result desk.new.shard }
        ensures monsters { self.new.health.entries ≡ entered self.old.health.entries result health }
        ensures still { IsStill desk.old desk.new }
    {
        self.health.reserve(1)?;
        let pid = desk.spawn()?;
        let Ok(_former) = self.health.insert(pid, health) else {
            unreachable!();
        };
        Ok(pid)
    }

    /// Does one tick: each monster handles its messages, and the desk has a turn.
    pub fn tick(&mut self, desk: &mut Desk) -> Result<(), Fault>
        ensures does { Ticks (desk.old, self.old.health.entries) result (desk.new, self.new.health.entries) }
        ensures still { IsStill desk.old desk.new }
    {
        self.see_to_all(desk)?;
        let _ = desk.turn(BUDGET);
        Ok(())
    }

    /// Lets each monster handle its messages.
    fn see_to_all(&mut self, desk: &mut Desk) -> Result<(), Fault>
        ensures does { SeesToAll (desk.old.shard, self.old.health.entries) result
            (desk.new.shard, self.new.health.entries) }
        ensures still { IsStill desk.old desk.new }
    {
        for place in 0..self.health.len() {
            let (pid, health) = self.health.pair_mut(place);
            see_to(desk, *pid, health)?;
        }
        Ok(())
    }
}

/// Lets a monster, if it is alive, take the hits that wait, and makes it exit if no health is left.
fn see_to(desk: &mut Desk, me: Pid, health: &mut i64) -> Result<(), Fault>
    ensures does { SeesToMonster me (desk.old.shard, health.old) result (desk.new.shard, health.new) }
    ensures still { IsStill desk.old desk.new }
{
    if !desk.alive_here(me) {
        return Ok(());
    }
    take_hits(desk, me, health, BUDGET)?;
    end_if_spent(desk, me, *health)
}

/// Takes the hits that wait, at most as many as the budget.
fn take_hits(desk: &mut Desk, me: Pid, health: &mut i64, budget: u32) -> Result<(), Fault>
    ensures does { Repeats (TakesHit me) budget (desk.old.shard, health.old) result (desk.new.shard, health.new) }
    ensures still { IsStill desk.old desk.new }
{
    for _turn in 0..budget {
        if !take_hit(desk, me, health)? {
            return Ok(());
        }
    }
    Ok(())
}

/// Takes the oldest hit that waits, and returns whether there was one.
fn take_hit(desk: &mut Desk, me: Pid, health: &mut i64) -> Result<bool, Fault>
    ensures does { TakesHit me (desk.old.shard, health.old) result (desk.new.shard, health.new) }
    ensures still { IsStill desk.old desk.new }
{
    let hit = desk.receive(me, Pick::Kind(HIT))?;
    *health = hit_by(hit, *health);
    Ok(hit.is_some())
}

/// The health after a hit.
fn hit_by(hit: Option<Item>, health: i64) -> i64
    ensures { result ≡ hit_by hit health }
{
    match hit {
        Some(Item::User(_from, body)) => health.saturating_sub(body.num),
        _ => health,
    }
}

/// Makes a monster exit that has no health left.
fn end_if_spent(desk: &mut Desk, me: Pid, health: i64) -> Result<(), Fault>
    ensures does { EndsIfSpent me (desk.old.shard, health) result (desk.new.shard, health) }
    ensures still { IsStill desk.old desk.new }
{
    if health <= 0 {
        desk.exit(me, Reason::Normal)?;
    }
    Ok(())
}
