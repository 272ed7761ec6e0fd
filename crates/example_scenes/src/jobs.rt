//! A queue of jobs below a tree of supervisors. Now and then a worker crashes, its supervisor starts another one, and
//! its job is given out again.
//!
//! On the first desk a supervisor has two children: the queue, and a supervisor of workers. On each of the others a
//! client asks for jobs, one after the other, once the queue has said that it is open. A client asks the queue for a job
//! by a call, and gets the answer once the job is done. A worker asks for its next job, and so reports that it is done
//! with the last. The queue monitors each worker that has a job.
//!
//! Which worker gets a job differs from run to run, and so does how often a worker crashes: six or seven times.

ghost use Rattle.std.specs.Prelude.{◌≡◌};
ghost use Rattle.pt_desk.specs.DeskState.{GoesOn};
ghost use Rattle.pt_names.specs.Ending.{EndsOnce};
ghost use Rattle.pt_behaviour.specs.Behaving.{takes};
ghost use Rattle.pt_supervisor.specs.Supervising.{PermanentLive, StaysWanted};

use crate::stage;
use crate::stage::{Curtain, DESKS, Stage, first_of};
use anyhow::Result;
use pt_behaviour::{Behaviour, Births, Next, demonitor, monitor, send};
use pt_names::{Heard, Pending, Request, calls_end_once, reply, request_of};
use pt_node::{Body, Desk, Fault, Item, Pick, Pid, Reason, Ref};
use pt_supervisor::{Child, Limit, Restart, Start, Strategy, Supervisor, permanent_children_live};
use std::alloc::{AllocError, Global};
use std::collections::VecDeque;
use std::fmt;
use std::fmt::{Display, Formatter, Write};
use std::sync::Wait;
use std::thread::Threads;

/// The request of a worker. A client asks for a job by its number, from 1 on.
const NEXT_JOB: u32 = 0;

/// The kind of the message by which the queue says that it is open.
const OPEN: u32 = 1;

/// The number of jobs that each client asks for.
const JOBS: u32 = 10;

/// The number of jobs that a worker does before it crashes at the next one.
const DOES: u32 = 4;

/// The pid of the queue: it is spawned second on the first desk, right after its supervisor.
const QUEUE: Pid = Pid {
    shard: 0,
    slot: 1,
    version: 1,
};

/// The reason with which a worker crashes.
const CRASH: Reason = Reason::Other(7);

/// The reason with which the queue crashes if there is no memory. Each process that waits for it gets that, as does its
/// supervisor.
const NO_MEMORY: Reason = Reason::Other(8);

/// A job that a worker has.
#[derive(Clone, Copy)]
struct Given {
    /// The client's request, which is not answered yet.
    job: Request,
    worker: Pid,
    monitor: Ref,
}

/// A queue: the jobs that no worker has, the workers that wait for one, and the jobs that are given out.
#[derive(Drop)]
struct Queue {
    jobs: VecDeque<Request>,
    idle: VecDeque<Request>,
    given: Vec<Given>,
    done: u32,
    crashed: u32,
}

impl Queue {
    fn new(alloc: Global) -> Queue {
        Queue {
            jobs: VecDeque::new(alloc),
            idle: VecDeque::new(alloc),
            given: Vec::new(alloc),
            done: 0,
            crashed: 0,
        }
    }

    /// Handles an item, and then gives out a job, if a job and a worker wait.
    #[tactic(auto, using(pt_desk::proofs::Turning::goes_on_then))]
    fn attend(&mut self, desk: &mut Desk, me: Pid, item: Option<Item>) -> Result<(), AllocError>
        ensures takes { takes desk.new.shard.journal ≡ takes desk.old.shard.journal }
        ensures goes_on { GoesOn desk.old desk.new }
    {
        self.hear(desk, me, item)?;
        self.give_out(desk, me)
    }

    /// Handles an item: a worker that had a job has exited, a worker asks for its next job, or a client asks for one. At
    /// its start it opens.
    #[tactic(auto, using(pt_workers::proofs::GoingOn::stays))]
    fn hear(&mut self, desk: &mut Desk, me: Pid, item: Option<Item>) -> Result<(), AllocError>
        ensures takes { takes desk.new.shard.journal ≡ takes desk.old.shard.journal }
        ensures goes_on { GoesOn desk.old desk.new }
    {
        match item {
            Some(Item::Down(monitor, _, _)) => self.take_back(monitor),
            Some(item) => match request_of(item) {
                Some(request) if request.asks == NEXT_JOB => self.line_up(desk, me, request),
                Some(request) => Ok(self.jobs.push_back(request)?),
                None => Ok(()),
            },
            None => {
                open(desk, me);
                Ok(())
            }
        }
    }

    /// Puts the job of an exited worker in front again.
    fn take_back(&mut self, monitor: Ref) -> Result<(), AllocError> {
        let Some(place) = self.given.iter().position(|given| given.monitor == monitor) else {
            return Ok(());
        };
        self.crashed = self.crashed.saturating_add(1);
        let given = self.given.swap_remove(place);
        self.jobs.push_front(given.job)?;
        Ok(())
    }

    /// The job that a worker had, which is done.
    fn take_done(&mut self, worker: Pid) -> Option<Given> {
        let place = self.given.iter().position(|given| given.worker == worker)?;
        self.done = self.done.saturating_add(1);
        Some(self.given.swap_remove(place))
    }

    /// Lets a worker wait for the next job, since it is done with the one that it had.
    #[tactic(auto, using(pt_workers::proofs::GoingOn::stays))]
    fn line_up(&mut self, desk: &mut Desk, me: Pid, request: Request) -> Result<(), AllocError>
        ensures takes { takes desk.new.shard.journal ≡ takes desk.old.shard.journal }
        ensures goes_on { GoesOn desk.old desk.new }
    {
        if let Some(given) = self.take_done(request.from) {
            finish(desk, me, given);
        }
        Ok(self.idle.push_back(request)?)
    }

    /// Gives the next job to the worker that has waited longest. If that one has exited meanwhile, it is skipped: the
    /// job waits for the worker that is started in its place.
    #[tactic(auto, using(pt_workers::proofs::GoingOn::stays))]
    fn give_out(&mut self, desk: &mut Desk, me: Pid) -> Result<(), AllocError>
        ensures takes { takes desk.new.shard.journal ≡ takes desk.old.shard.journal }
        ensures goes_on { GoesOn desk.old desk.new }
    {
        let Some(job) = self.jobs.front().copied() else {
            return Ok(());
        };
        let Some(request) = self.idle.pop_front() else {
            return Ok(());
        };
        if let Some(given) = hand(desk, me, job, request) {
            let _ = self.jobs.pop_front();
            self.given.push(given)?;
        }
        Ok(())
    }
}

/// Says to a client that the queue is open.
#[tactic(auto, using(pt_workers::proofs::GoingOn::stays))]
fn welcome(desk: &mut Desk, me: Pid, client: Pid)
    ensures takes { takes desk.new.shard.journal ≡ takes desk.old.shard.journal }
    ensures goes_on { GoesOn desk.old desk.new }
{
    let body = Body {
        kind: OPEN,
        num: 0,
        who: None,
    };
    let _ = send(desk, me, client, body);
}

/// Says to all clients that the queue is open. They could not ask for it before: a call to a process that is not there
/// yet fails.
#[tactic(auto, using(pt_workers::proofs::GoingOn::stays, pt_desk::proofs::Turning::goes_on_then))]
fn open(desk: &mut Desk, me: Pid)
    ensures takes { takes desk.new.shard.journal ≡ takes desk.old.shard.journal }
    ensures goes_on { GoesOn desk.old desk.new }
{
    welcome(desk, me, first_of(1));
    welcome(desk, me, first_of(2));
    welcome(desk, me, first_of(3));
}

/// Finishes a job: its client gets the answer.
fn finish(desk: &mut Desk, me: Pid, given: Given)
    ensures takes { takes desk.new.shard.journal ≡ takes desk.old.shard.journal }
    ensures goes_on { GoesOn desk.old desk.new }
{
    let _ = demonitor(desk, me, given.monitor);
    let _ = reply(desk, me, given.job, given.job.asks);
}

/// Gives a job to a worker that asks for one, and monitors it, unless it has exited.
fn hand(desk: &mut Desk, me: Pid, job: Request, request: Request) -> Option<Given>
    ensures takes { takes desk.new.shard.journal ≡ takes desk.old.shard.journal }
    ensures goes_on { GoesOn desk.old desk.new }
{
    let worker = request.from;
    let reference = monitor(desk, me, worker).ok()?;
    let _ = reply(desk, me, request, job.asks);
    Some(Given {
        job,
        worker,
        monitor: reference,
    })
}

/// Asks the queue, for a job by its number or for the next one. Without a queue there is nothing to wait for.
#[tactic(auto, using(pt_workers::proofs::GoingOn::stays))]
fn ask(desk: &mut Desk, me: Pid, asks: u32, call: &mut Option<Pending>) -> Next
    ensures takes { takes desk.new.shard.journal ≡ takes desk.old.shard.journal }
    ensures goes_on { GoesOn desk.old desk.new }
{
    match Pending::ask(desk, me, QUEUE, asks) {
        Ok(pending) => {
            *call = Some(pending);
            Next::Wait(Pick::Any)
        }
        Err(_) => Next::Stop(NO_MEMORY),
    }
}

/// What an item means to a call; nothing if no call was made.
#[tactic(auto, using(pt_workers::proofs::GoingOn::stays))]
fn hear(desk: &mut Desk, item: Item, call: &mut Option<Pending>) -> Heard
    ensures takes { takes desk.new.shard.journal ≡ takes desk.old.shard.journal }
    ensures goes_on { GoesOn desk.old desk.new }
{
    match call {
        Some(pending) => pending.hear(desk, item),
        None => Heard::NotMine,
    }
}

/// A worker: its call to the queue, and the number of jobs that it can still do.
#[derive(Drop)]
struct Worker {
    call: Option<Pending>,
    able: u32,
}

impl Worker {
    /// Asks for its first job. Then it does the job that it gets and asks for the next one, or crashes.
    #[tactic(auto, using(pt_workers::proofs::GoingOn::stays, pt_desk::proofs::Turning::goes_on_then))]
    fn attend(&mut self, desk: &mut Desk, me: Pid, item: Option<Item>) -> Next
        ensures takes { takes desk.new.shard.journal ≡ takes desk.old.shard.journal }
        ensures goes_on { GoesOn desk.old desk.new }
    {
        let Some(item) = item else {
            return ask(desk, me, NEXT_JOB, &mut self.call);
        };
        match hear(desk, item, &mut self.call) {
            Heard::Answer(_job) if self.able == 0 => Next::Stop(CRASH),
            Heard::Answer(_job) => {
                self.able -= 1;
                ask(desk, me, NEXT_JOB, &mut self.call)
            }
            Heard::Down(reason) => Next::Stop(reason),
            Heard::Late | Heard::NotMine => Next::Wait(Pick::Any),
        }
    }
}

/// A client: its call to the queue, and the number of its jobs that are done.
#[derive(Drop)]
struct Client<'a> {
    call: Option<Pending>,
    answered: u32,
    curtain: &'a Curtain,
}

impl<'a> Client<'a> {
    /// Asks for its first job when the queue is open, and for the next one when the answer says that the last is done.
    #[tactic(auto, using(pt_workers::proofs::GoingOn::stays, pt_desk::proofs::Turning::goes_on_then))]
    fn attend(&mut self, desk: &mut Desk, me: Pid, item: Option<Item>) -> Next
        ensures takes { takes desk.new.shard.journal ≡ takes desk.old.shard.journal }
        ensures goes_on { GoesOn desk.old desk.new }
    {
        let Some(item) = item else {
            return Next::Wait(Pick::Any);
        };
        if self.call.is_none() {
            return self.ask_next(desk, me);
        }
        match hear(desk, item, &mut self.call) {
            Heard::Answer(job) => {
                self.answered = job;
                self.ask_next(desk, me)
            }
            Heard::Down(reason) => Next::Stop(reason),
            Heard::Late | Heard::NotMine => Next::Wait(Pick::Any),
        }
    }

    /// Whether a call of it still waits for its answer.
    fn waits(&self) -> bool {
        match &self.call {
            Some(call) => call.is_open(),
            None => false,
        }
    }

    /// Asks for the job after the last that was done. After the last of all its part is played.
    #[tactic(auto, using(pt_workers::proofs::GoingOn::stays))]
    fn ask_next(&mut self, desk: &mut Desk, me: Pid) -> Next
        ensures takes { takes desk.new.shard.journal ≡ takes desk.old.shard.journal }
        ensures goes_on { GoesOn desk.old desk.new }
    {
        if self.answered >= JOBS {
            self.curtain.part_is_played();
            return Next::Wait(Pick::Any);
        }
        ask(desk, me, self.answered + 1, &mut self.call)
    }
}

/// What the children of a supervisor do.
#[derive(Clone, Copy, Drop)]
enum Staff {
    /// The queue, and a supervisor of workers.
    Office(Global),
    Workers,
}

impl<'a> Start<Actor<'a>> for Staff {
    fn start(&mut self, supervisor: Pid, place: usize) -> Result<(Actor<'a>, Next), Fault> {
        let actor = match *self {
            Staff::Office(alloc) if place == 0 => Actor::Queue(Queue::new(alloc)),
            Staff::Office(alloc) => {
                let workers = team(alloc, Staff::Workers)?;
                Actor::Supervisor(workers.under(supervisor))
            }
            Staff::Workers => Actor::Worker(Worker {
                call: None,
                able: DOES,
            }),
        };
        Ok((actor, Next::Proceed))
    }
}

/// A supervisor of two permanent children, which starts each again by itself, at most a hundred times.
fn team(alloc: Global, staff: Staff) -> Result<Supervisor<Staff>, AllocError> {
    let child = Child::new(Restart::Permanent);
    let children = vec![in alloc; child, child]?;
    let limit = Limit::new(alloc, 100, u64::MAX)?;
    Ok(Supervisor::new(staff, Strategy::OneForOne, children, limit))
}

/// The processes of the scene.
#[derive(Drop)]
enum Actor<'a> {
    Supervisor(Supervisor<Staff>),
    Queue(Queue),
    Worker(Worker),
    Client(Client<'a>),
}

impl<'a> Behaviour for Actor<'a> {
    ghost use Rattle.std.specs.Prelude.{⊤};

    ghost answers = { λ _ _ _ _ _ _ _ _ _. ⊤ };

    #[tactic(auto, using(pt_workers::proofs::GoingOn::stays))]
    fn handle(
        &mut self,
        desk: &mut Desk,
        births: &mut Births<Actor<'a>>,
        me: Pid,
        item: Option<Item>,
    ) -> Next {
        match self {
            Actor::Supervisor(supervisor) => supervisor.handle(desk, births, me, item),
            Actor::Queue(queue) => match queue.attend(desk, me, item) {
                Ok(()) => Next::Wait(Pick::Any),
                Err(_) => Next::Stop(NO_MEMORY),
            },
            Actor::Worker(worker) => worker.attend(desk, me, item),
            Actor::Client(client) => client.attend(desk, me, item),
        }
    }
}

/// The result of the scene.
#[derive(Clone, Copy, Debug)]
pub struct Jobs {
    /// The number of client calls that still wait.
    open: u32,
    answered: u32,
    done: u32,
    crashed: u32,
    living: usize,
}

impl Display for Jobs {
    fn fmt<W: Write>(&self, f: &mut Formatter<W>) -> fmt::Result {
        write!(
            f,
            "jobs: {} were done and {} answered, {} calls are open; {}; {} processes live",
            self.done,
            self.answered,
            self.open,
            self.crashes(),
            self.living
        )
    }
}

impl Jobs {
    /// The result of the scene that these desks played.
    fn of(works: &[Stage<Actor<'_>>]) -> Jobs {
        let mut jobs = Jobs {
            open: 0,
            answered: 0,
            done: 0,
            crashed: 0,
            living: 0,
        };
        for desk in 0..DESKS {
            if let Some(stage) = works.get(desk as usize) {
                jobs.add(desk, stage);
            }
        }
        jobs
    }

    /// What is said of the crashes. Two workers that crash over every fifth job do thirty in six or seven lives, and two
    /// that go on.
    fn crashes(&self) -> &'static str {
        match self.crashed {
            6 | 7 => "6 or 7 workers crashed, each job was given out again",
            _ => "not as many workers crashed as should",
        }
    }

    /// Adds what the first process of a desk reports.
    fn add(&mut self, desk: u8, stage: &Stage<Actor<'_>>) {
        if let Some(Actor::Client(client)) = stage.crew().behaviour(first_of(desk)) {
            self.answered = self.answered.saturating_add(client.answered);
            self.open = self.open.saturating_add(u32::from(client.waits()));
        }
        if let Some(Actor::Queue(queue)) = stage.crew().behaviour(QUEUE) {
            self.done = queue.done;
            self.crashed = queue.crashed;
            self.living = stage.crew().len();
        }
    }
}

fn made_client<'a>(alloc: Global, curtain: &'a Curtain) -> Stage<Actor<'a>> {
    let client = Client {
        call: None,
        answered: 0,
        curtain,
    };
    Stage::new(alloc, 8, Actor::Client(client))
}

/// Plays the scene. It ends when each client has got its last answer.
///
/// Each call of a client or a worker ends once, by its answer or by the exit of the queue. For any item that a
/// supervisor handles, each of its children stays one that it wants alive. So if it waits for any item, and for no child
/// on another desk, each child is alive, as far as it knows.
pub fn play<R: Threads + Wait + Sync>(rt: &R, alloc: Global) -> Result<Jobs>
    ensures calls { EndsOnce }
    ensures wanted { StaysWanted }
    ensures live { PermanentLive }
{
    calls_end_once();
    permanent_children_live();
    let curtain = Curtain::new(alloc, 3)?;
    let office = team(alloc, Staff::Office(alloc))?;
    let stages = [
        Stage::new(alloc, 8, Actor::Supervisor(office)),
        made_client(alloc, &curtain),
        made_client(alloc, &curtain),
        made_client(alloc, &curtain),
    ];
    let works = stage::play(rt, alloc, 16, stages, &curtain)?;
    Ok(Jobs::of(works.as_slice()))
}
