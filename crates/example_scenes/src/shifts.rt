//! The teams of the scene `team` on a node that pauses again and again, in rounds on the calling thread.
//!
//! The workers crash over several pauses, and each is started again. In each pause the journals of the node begin anew,
//! and a book gets what happened. So what happened before a pause counts behind it, by the theorems on supervisors over
//! pauses.

ghost use Rattle.std.specs.Prelude.{◌≡◌, ◌++◌, [], reverse, IfOk};
ghost use Rattle.pt_events.specs.History.{IsLegal};
ghost use Rattle.pt_events.specs.Journal.{events};
ghost use Rattle.pt_pauses.specs.Here.{AllHereLive};
ghost use Rattle.example_scenes.specs.Team.{AreTeams, boss_of};

use crate::stage::{BUDGET, Curtain, DESKS, rested};
use crate::team::{CRASHES, Teammate, Teams, finish, opened};
use anyhow::{Result, bail};
use pt_crew::Crew;
use pt_epochs::{Call, Plan, Refused, Rounds, Sink, run_epochs};
use pt_node::{Node, Stamped};
use pt_pauses::{epochs_children_here_live, epochs_children_live};
use std::alloc::Global;
use std::fmt::{self, Display, Formatter, Write};

/// An epoch is so many turns of each desk, and there are more epochs than are needed.
const PLAN: Plan = Plan {
    epochs: 100,
    events: 1_000,
    turns: 1,
    budget: BUDGET,
};

/// All that happened until the last pause, and the number of pauses.
#[derive(Drop)]
pub struct Book {
    events: Vec<Stamped>,
    pauses: u32,
}

impl Sink for Book {
    ghost takes = { λ old history new. new.events.items ≡ old.events.items ++ history };

    fn take(&mut self, history: &[Stamped]) -> Result<(), Refused> {
        if self.events.extend_from_slice(history).is_err() {
            return Err(Refused);
        }
        self.pauses = self.pauses.saturating_add(1);
        Ok(())
    }
}

/// Runs the crews until nothing is left to do, at most for the epochs of the plan. Each epoch is a turn of each desk.
fn work_on<'a>(
    alloc: Global,
    node: Node,
    crews: &mut Vec<Crew<Teammate<'a>>>,
    book: &mut Book,
) -> Result<Node>
    requires { book.old.events.items ≡ [] }
    ensures holds { AreTeams [] crews.old.items node
        → IfOk result (λ n. AreTeams (events (reverse book.new.events.items)) crews.new.items n) }
    ensures legal { AreTeams [] crews.old.items node
        → IfOk result (λ _. IsLegal [] (events (reverse book.new.events.items))) }
{
    epochs_children_live::<Teammate<'a>, Rounds, Book>(&Rounds);
    epochs_children_here_live::<Teammate<'a>, Rounds, Book>(&Rounds);
    let call = Call::new();
    match run_epochs(&Rounds, alloc, node, crews, PLAN, &call, book) {
        Ok((node, _)) => Ok(node),
        Err(halted) => {
            // by a call: a body proves each drop of its own field by field
            drop(halted);
            bail!("the node halted")
        }
    }
}

/// The teams behind the last pause, and the book.
#[derive(Drop)]
pub struct Shifts<'a> {
    teams: Teams<'a>,
    book: Book,
}

/// Plays the scene until nothing is left to do. Then each child that its supervisor wants alive is alive, or unlinked
/// itself at any time before.
pub fn play<'a>(alloc: Global, curtain: &'a Curtain) -> Result<Shifts<'a>>
    ensures live { IfOk result (λ s. AllHereLive (events (reverse s.book.events.items)) boss_of s.teams.crews.items
        s.teams.quiet.gathered) }
    ensures legal { IfOk result (λ s. IsLegal [] (events (reverse s.book.events.items))) }
{
    let mut book = Book {
        events: Vec::new(alloc),
        pauses: 0,
    };
    let (fresh, works) = opened(alloc, curtain)?;
    let mut crews = rested(alloc, works)?;
    let node = work_on(alloc, fresh, &mut crews, &mut book)?;
    let teams = finish(node, crews)?;
    Ok(Shifts { teams, book })
}

impl<'a> Display for Shifts<'a> {
    fn fmt<W: Write>(&self, f: &mut Formatter<W>) -> fmt::Result {
        let (mut wanted, mut living): (u32, u32) = (0, 0);
        for desk in 0..DESKS {
            let (more_wanted, more_living) = self.teams.counted(desk);
            wanted = wanted.saturating_add(more_wanted);
            living = living.saturating_add(more_living);
        }
        write!(
            f,
            "shifts: over {} pauses {CRASHES} workers of each desk crashed; of {wanted} wanted children {living} live",
            self.book.pauses
        )
    }
}
