//! A supervisor on each desk, whose workers crash as they begin. Once all have started workers that stay, and the node
//! is still, it is settled. Then each child that its supervisor wants alive is alive, by the theorem on nodes that are
//! still. The supervisors spawn all their children, so none of them waits for a child on another desk.

ghost use Rattle.std.specs.Prelude.{◌≡◌, [], IfOk, None, Ok};
ghost use Rattle.pt_behaviour.specs.declared.behaviour.Next.{Next};
ghost use Rattle.pt_desk.specs.DeskState.{GoesOn};
ghost use Rattle.pt_events.specs.History.{Past};
ghost use Rattle.pt_gathered.specs.Gathered.{IsGathered};
ghost use Rattle.pt_workers.specs.Desks.{all_shards};
ghost use Rattle.pt_workers.specs.Stillness.{AreStill};
ghost use Rattle.pt_node.specs.Pasts.{GoOnFrom};
ghost use Rattle.pt_crew.specs.Running.{AllUphold, AreIdle, UpholdsOn};
ghost use Rattle.pt_supervisor.specs.Keeping.{SupervisorBegins, Keeps};
ghost use Rattle.pt_pauses.specs.Here.{AllHereLive, CrewHere, CrewsHere, IsHere};
ghost use Rattle.pt_pauses.specs.Still.{IsStillNode};
ghost use Rattle.pt_pauses.specs.Stopping.{StoppedChildrenEnded};
ghost use Rattle.example_scenes.specs.declared.team.Teammate.{Teammate};
ghost use Rattle.example_scenes.specs.Team.{AreTeams, boss_of, team_answers};

use crate::stage::{BUDGET, Curtain, DESKS, first_of, rested};
use anyhow::{Result, bail};
use pt_behaviour::{Behaviour, Births, Next};
use pt_crew::{Crew, are_idle};
use pt_epochs::{RestGate, RestingWork};
use pt_node::{Account, Config, Desk, Fault, FreeGate, Item, Node, Pick, Pid, Quiet, Reason, open};
use pt_pauses::{
    children_here_live, paused_children_live, quiet_children_live, stopped_children_ended,
};
use pt_supervisor::{
    Child, Limit, Restart, Start, Strategy, Supervised, Supervisor, children_stay_here,
};
use std::alloc::{AllocError, Global};
use std::fmt::{self, Display, Formatter, Write};
use std::sync::Wait;
use std::thread::Threads;

/// The number of workers of each desk that crash before the others stay.
pub const CRASHES: u32 = 5;

const CRASH: Reason = Reason::Other(1);

/// The number of children of each supervisor.
const CHILDREN: u64 = 3;

/// The children: workers, of which so many crash before the others stay.
#[derive(Clone, Copy, Drop)]
struct Workers<'a> {
    crashes: u32,
    curtain: &'a Curtain,
}

impl<'a> Start<Teammate<'a>> for Workers<'a> {
    ghost starts = { λ old boss place result new. (b : Teammate) (first : Next) → result ≡ Ok (b, first)
        → b.boss ≡ None };

    fn start(&mut self, _supervisor: Pid, _place: usize) -> Result<(Teammate<'a>, Next), Fault> {
        let worker = Teammate { boss: None };
        if self.crashes == 0 {
            self.curtain.part_is_played();
            return Ok((worker, Next::Wait(Pick::Any)));
        }
        self.crashes -= 1;
        Ok((worker, Next::Stop(CRASH)))
    }
}

/// A supervisor, or a worker, which keeps what it gets.
#[derive(Drop)]
pub struct Teammate<'a> {
    boss: Option<Supervisor<Workers<'a>>>,
}

impl<'a> Behaviour for Teammate<'a> {
    ghost answers = { team_answers };

    #[tactic(auto, using(pt_workers::proofs::GoingOn::stays))]
    fn handle(
        &mut self,
        desk: &mut Desk,
        births: &mut Births<Teammate<'a>>,
        me: Pid,
        item: Option<Item>,
    ) -> Next {
        children_stay_here::<Teammate<'a>, Workers<'a>>();
        match &mut self.boss {
            Some(boss) => boss.handle(desk, births, me, item),
            None => Next::Wait(Pick::Any),
        }
    }
}

impl<'a> Supervised for Teammate<'a> {
    ghost supervisor = { boss_of };

    ghost supervises = { λ time b d me item next now e births h. h.0 };
}

/// A supervisor of three permanent children, which starts each again by itself, at most a hundred times.
fn team<'a>(alloc: Global, curtain: &'a Curtain) -> Result<Teammate<'a>, AllocError>
    ensures begins { IfOk result (λ b. SupervisorBegins (boss_of b) Next.Proceed) }
    ensures here { IfOk result (λ b. IsHere (boss_of b)) }
{
    let child = Child::new(Restart::Permanent);
    let children = vec![in alloc; child, child, child]?;
    let limit = Limit::new(alloc, 100, u64::MAX)?;
    let workers = Workers {
        crashes: CRASHES,
        curtain,
    };
    let boss = Supervisor::new(workers, Strategy::OneForOne, children, limit);
    Ok(Teammate { boss: Some(boss) })
}

/// The crew of a desk, which its supervisor has entered.
fn staffed<'a>(alloc: Global, desk: &mut Desk, curtain: &'a Curtain) -> Result<Crew<Teammate<'a>>>
    ensures upholds { IfOk result (λ c. UpholdsOn (Keeps [] boss_of) c desk.new.shard) }
    ensures here { IfOk result (λ c. CrewHere boss_of c) }
    ensures goes_on { GoesOn desk.old desk.new }
{
    quiet_children_live::<Teammate<'a>>();
    children_here_live::<Teammate<'a>, FreeGate>(&FreeGate);
    let mut crew = Crew::new(alloc, 8);
    let boss = team(alloc, curtain)?;
    crew.enter(desk, boss, Next::Proceed)?;
    Ok(crew)
}

/// A crew for each desk, which its supervisor has entered. The desk rests while there is nothing to do.
fn all_staffed<'a>(
    alloc: Global,
    desks: &mut Vec<Desk>,
    curtain: &'a Curtain,
) -> Result<Vec<RestingWork<'a, Crew<Teammate<'a>>>>>
    ensures upholds { IfOk result (λ crews. AllUphold (Keeps [] boss_of) crews.items desks.new.items) }
    ensures here { IfOk result (λ crews. CrewsHere boss_of crews.items) }
    ensures from { GoOnFrom [] desks.old.items → GoOnFrom [] desks.new.items }
{
    let mut crews = Vec::new(alloc);
    for place in 0..desks.len() {
        let crew = staffed(alloc, &mut desks[place], curtain)?;
        let work = RestingWork::new(crew, curtain.bells());
        crews.push(work)?;
    }
    Ok(crews)
}

/// Opens the node, with a supervisor on each desk.
pub fn opened<'a>(
    alloc: Global,
    curtain: &'a Curtain,
) -> Result<(Node, Vec<RestingWork<'a, Crew<Teammate<'a>>>>)>
    ensures { IfOk result (λ r. AreTeams [] r.1.items r.0) }
{
    let mut desks = open(alloc, Config::DEFAULT.with_desks(DESKS).with_slots(16))?;
    let crews = all_staffed(alloc, &mut desks, curtain);
    // desks cannot be dropped, and a node can
    let node = Node::of_desks(alloc, desks);
    Ok((node, crews?))
}

/// Runs the crews, each on the thread of its desk, until the curtain falls.
fn perform<'a, R: Threads + Wait + Sync>(
    rt: &R,
    node: &mut Node,
    crews: &mut Vec<RestingWork<'a, Crew<Teammate<'a>>>>,
    curtain: &Curtain,
) -> Result<()>
    ensures { IfOk result (λ _. AreTeams [] crews.old.items node.old → AreTeams [] crews.new.items node.new) }
{
    let gate = curtain.gate(rt);
    paused_children_live::<Teammate<'a>, RestGate<'_, R>>(&gate);
    children_here_live::<Teammate<'a>, RestGate<'_, R>>(&gate);
    if node.run(rt, crews, u64::MAX, BUDGET, &gate).is_err() {
        bail!("the scene does not run");
    }
    Ok(())
}

/// Lets the processes that are there do what they have to, in rounds on the calling thread. Then no process has anything
/// to do, and no letter is in flight.
fn come_to_rest<'a>(node: &mut Node, crews: &mut Vec<Crew<Teammate<'a>>>) -> Result<()>
    ensures holds { IfOk result (λ _. (past : Past)
        → AreTeams past crews.old.items node.old → AreTeams past crews.new.items node.new) }
    ensures still { IfOk result (λ _. AreIdle crews.new.items node.new × AreStill node.new) }
{
    paused_children_live::<Teammate<'a>, FreeGate>(&FreeGate);
    children_here_live::<Teammate<'a>, FreeGate>(&FreeGate);
    if node.run_single(crews, 8, BUDGET, &FreeGate).is_err() {
        bail!("the scene does not run");
    }
    if node.turn_until_still(BUDGET).stopped.is_some() {
        bail!("the node is not still");
    }
    if !are_idle(crews.as_slice(), node.desks()) {
        bail!("somebody has something to do");
    }
    Ok(())
}

/// Gathers and settles a node that is still, which leaves it as it is.
fn settled(node: Node) -> Result<Quiet>
    ensures desks { AreStill node → IfOk result (λ q. q.gathered.shards ≡ all_shards node) }
    ensures lawful { IfOk result (λ q. IsGathered q.gathered × IsStillNode q.gathered) }
{
    let quiet = node.gather()?.settle()?;
    // read for the proof alone: it says what holds of every gathered node
    let _desks = quiet.settled().desks();
    Ok(quiet)
}

/// The crews of a node that is still, and the settled node.
#[derive(Drop)]
pub struct Teams<'a> {
    crews: Vec<Crew<Teammate<'a>>>,
    quiet: Quiet,
}

/// The curtain of the scene: it falls once all supervisors have started children that stay.
pub fn curtain(alloc: Global) -> Result<Curtain, AllocError> {
    Curtain::new(alloc, CHILDREN * u64::from(DESKS))
}

/// Lets a node come to rest, and settles it. Then each child that its supervisor wants alive is alive.
pub fn finish<'a>(node: Node, crews: Vec<Crew<Teammate<'a>>>) -> Result<Teams<'a>>
    ensures { IfOk result (λ t. (past : Past) → AreTeams past crews.entry.items node
        → AllHereLive past boss_of t.crews.items t.quiet.gathered) }
{
    children_here_live::<Teammate<'a>, FreeGate>(&FreeGate);
    let (mut node, mut crews) = (node, crews);
    come_to_rest(&mut node, &mut crews)?;
    let quiet = settled(node)?;
    Ok(Teams { crews, quiet })
}

/// Plays the scene until the curtain falls, and all is still. Then each child that its supervisor wants alive is alive.
/// If a supervisor stops by itself, no child that it started is alive, unless the child sent it an exit signal.
pub fn play<'a, R: Threads + Wait + Sync>(
    rt: &R,
    alloc: Global,
    curtain: &'a Curtain,
) -> Result<Teams<'a>>
    ensures live { IfOk result (λ t. AllHereLive [] boss_of t.crews.items t.quiet.gathered) }
    ensures stopped { StoppedChildrenEnded boss_of }
{
    stopped_children_ended::<Teammate<'a>>();
    let (mut node, mut works) = opened(alloc, curtain)?;
    perform(rt, &mut node, &mut works, curtain)?;
    let crews = rested(alloc, works)?;
    let teams = finish(node, crews)?;
    Ok(teams)
}

impl<'a> Teams<'a> {
    /// The children of a desk's supervisor.
    fn children(&self, desk: u8) -> &[Child] {
        let Some(crew) = self.crews.get(usize::from(desk)) else {
            return &[];
        };
        match crew.behaviour(first_of(desk)) {
            Some(Teammate { boss: Some(boss) }) => boss.children(),
            _ => &[],
        }
    }

    /// Whether a child is alive, by the history of the node.
    fn lives(&self, child: &Child) -> bool {
        match child.pid {
            Some(pid) => matches!(self.quiet.account(pid), Some(Account { ended: None, .. })),
            None => false,
        }
    }

    /// The number of children that a desk's supervisor wants alive, and the number of these that are.
    pub fn counted(&self, desk: u8) -> (u32, u32) {
        let mut wanted: u32 = 0;
        let mut living: u32 = 0;
        for child in self.children(desk) {
            if child.wanted {
                wanted = wanted.saturating_add(1);
                living = living.saturating_add(u32::from(self.lives(child)));
            }
        }
        (wanted, living)
    }
}

impl<'a> Display for Teams<'a> {
    fn fmt<W: Write>(&self, f: &mut Formatter<W>) -> fmt::Result {
        write!(f, "team: {CRASHES} workers of each desk crashed")?;
        for desk in 0..DESKS {
            let (wanted, living) = self.counted(desk);
            write!(
                f,
                "\nstill: of {wanted} children of desk {desk} that are to live {living} do"
            )?;
        }
        Ok(())
    }
}
