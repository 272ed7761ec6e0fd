//! A process of a scheduler, and what is told of it.

ghost use Rattle.std.specs.Prelude.{◌≡◌, None, Some, false, true};
ghost use Rattle.std.specs.Option.{option_copied, option_map};
ghost use Rattle.pt_behaviour.specs.declared.behaviour.Next.TheVariants.{Running};
ghost use Rattle.pt_scheduler.specs.Exits.{noted_reason, reason_told};
ghost use Rattle.pt_supervisor.specs.Hearing.{standing};
ghost use Rattle.pt_scheduler.specs.Planning.{new_child};
ghost use Rattle.pt_scheduler.specs.Out.{IsApart};
ghost use Rattle.pt_scheduler.specs.Members.{boss_part, member_answers, member_tells, what_of, job_of_exit};

use crate::boss::Boss;
use crate::plan::{Origin, Post};
use pt_behaviour::{Behaviour, Births, Next, Role};
use pt_children::Child;
use pt_crew::Outside;
use pt_supervisor::Supervised;
use pt_workers::{Desk, Item, Pid, Reason};

/// What is told of a process.
#[derive(Clone, Copy, Debug, PartialEq, Eq)]
pub enum What {
    /// It begins: it proceeds, and has been told nothing before. The origin says which supervisor started it, and is
    /// `None` if the program spawned it.
    Start(Option<Origin>),
    /// It proceeds, as it was answered.
    Proceed,
    /// It gets this item, which matches what it waited for.
    Item(Item),
    /// The time until which it waited has come, and no item matches.
    Timeout,
    /// It has exited with this reason, and this was what it was to do: `Stop` if it was to exit, and `Running` if it had
    /// been told something that nobody answered. It is told nothing after this.
    ///
    /// The reason is that of its own exit in the desk's journal: the one that it stopped with, or that a call of `exit`
    /// gave. If an exit signal ended the process, or it exited while its node was settled, it is the reason that
    /// [`Scheduler::note_loss`](crate::Scheduler::note_loss) was told, or `Noproc` if it was told none.
    Exit(Reason, Next),
}

/// What is told of a process, and which process it is.
#[derive(Clone, Copy, Debug, PartialEq, Eq)]
pub struct Job {
    pub pid: Pid,
    pub tag: u64,
    pub what: What,
}

/// What is known of a process for what it is told. It is public since the definitions name it.
#[derive(Clone, Copy, Debug, PartialEq, Eq)]
pub struct Notes {
    /// Whether it has been told anything.
    pub(crate) begun: bool,
    /// The reason with which it exited, once that was read in the journal.
    pub(crate) ended: Option<Reason>,
    /// The reason with which it exited, once a loss told it, or the history of a node that was resumed.
    pub(crate) lost: Option<Reason>,
}

/// A process of a scheduler. It is public since the definitions name it; no call returns one.
#[derive(Drop)]
pub struct Member {
    tag: u64,
    origin: Option<Origin>,
    notes: Notes,
    /// The supervisor that it is, if it is one. Else its handler is outside.
    boss: Option<Boss>,
}

impl Notes {
    /// Of a process that begins.
    #[inline(always)]
    fn none() -> Notes
        ensures { result ≡ record { begun = false; ended = None; lost = None } }
    {
        Notes {
            begun: false,
            ended: None,
            lost: None,
        }
    }
}

impl Member {
    /// One that begins, and is a supervisor or not.
    #[inline(always)]
    pub(crate) fn new(tag: u64, boss: Option<Boss>) -> Member
        ensures { result ≡ record {
          tag = tag;
          origin = None;
          notes = record { begun = false; ended = None; lost = None };
          boss = boss;
        } }
    {
        Member {
            tag,
            origin: None,
            notes: Notes::none(),
            boss,
        }
    }

    /// A child of a supervisor that begins.
    #[inline(always)]
    pub(crate) fn child(post: Post, supervisor: Pid) -> Member
        ensures { result ≡ new_child post supervisor }
    {
        Member {
            tag: post.tag(),
            origin: Some(Origin {
                supervisor,
                again: post.again(),
            }),
            notes: Notes::none(),
            boss: None,
        }
    }

    /// Its tag.
    #[inline(always)]
    pub(crate) fn tag(&self) -> u64
        ensures { result ≡ self.now.tag }
    {
        self.tag
    }

    /// What is known of it for what it is told.
    #[inline(always)]
    pub(crate) fn notes(&self) -> Notes
        ensures { result ≡ self.now.notes }
    {
        self.notes
    }

    /// The children of the supervisor that it is, if it is one.
    pub(crate) fn children(&self) -> Option<&[Child]>
        ensures { option_copied result ≡ option_map (λ s. (standing s).children) self.now.boss }
    {
        match &self.boss {
            Some(boss) => Some(boss.children()),
            None => None,
        }
    }

    /// The same process, of which this is known.
    #[inline(always)]
    pub(crate) fn with_notes(self, notes: Notes) -> Member
        ensures { result ≡ record self { notes = notes } }
    {
        let Member {
            tag,
            origin,
            notes: _,
            boss,
        } = self;
        Member {
            tag,
            origin,
            notes,
            boss,
        }
    }

    /// The same process, which is this supervisor.
    #[inline(always)]
    pub(crate) fn with_boss(self, boss: Boss) -> Member
        ensures { result ≡ record self { boss = Some boss } }
    {
        let Member {
            tag,
            origin,
            notes,
            boss: _,
        } = self;
        Member {
            tag,
            origin,
            notes,
            boss: Some(boss),
        }
    }

    /// The supervisor that it is, if it is one, and the same process without it.
    pub(crate) fn apart(self) -> Option<(Boss, Member)>
        ensures { IsApart self result }
    {
        let Member {
            tag,
            origin,
            notes,
            boss,
        } = self;
        let rest = Member {
            tag,
            origin,
            notes,
            boss: None,
        };
        Some((boss?, rest))
    }

    /// The supervisor that it is, if it is one.
    pub(crate) fn boss(&self) -> Option<&Boss>
        ensures { option_copied result ≡ self.now.boss }
    {
        match &self.boss {
            Some(boss) => Some(boss),
            None => None,
        }
    }

    /// What it is told, which was to do this, and got this item or none.
    #[inline(always)]
    fn what(&self, before: Next, item: Option<Item>) -> What
        ensures { result ≡ what_of self.now.notes.begun self.now.origin (Some before) item }
    {
        match (item, before) {
            (Some(item), _) => What::Item(item),
            (None, Next::Proceed) => {
                if self.notes.begun {
                    What::Proceed
                } else {
                    What::Start(self.origin)
                }
            }
            (None, _) => What::Timeout,
        }
    }
}

/// The reason of a process that left, and was alive or not as it was come to: that with which it stopped, or the one that
/// was noted.
fn reason_of(next: Next, alive: bool, noted: Reason) -> Reason
    ensures { result ≡ reason_told alive next noted }
{
    match next {
        Next::Stop(reason) => { if alive { reason } else { noted } }
        Next::Wait(_) | Next::WaitUntil(_, _) | Next::Proceed | Next::Running => noted,
    }
}

/// The reason that was noted: by the journal, or else by a loss, or `Noproc` if none was.
fn reason_noted(ended: Option<Reason>, lost: Option<Reason>) -> Reason
    ensures { result ≡ noted_reason ended lost }
{
    match (ended, lost) {
        (Some(reason), _) => reason,
        (None, Some(reason)) => reason,
        (None, None) => Reason::Noproc,
    }
}

/// What is told of a process that left, and was alive or not as it was come to.
pub(crate) fn job_of_exit(left: Role<Member>, alive: bool) -> Job
    ensures { result ≡ job_of_exit alive left }
{
    let notes = left.behaviour.notes;
    let noted = reason_noted(notes.ended, notes.lost);
    let reason = reason_of(left.next, alive, noted);
    Job {
        pid: left.pid,
        tag: left.behaviour.tag,
        what: What::Exit(reason, left.next),
    }
}

impl Behaviour for Member {
    ghost answers = { member_answers };

    #[tactic(auto, using(pt_workers::proofs::GoingOn::stays))]
    fn handle(
        &mut self,
        desk: &mut Desk,
        births: &mut Births<Member>,
        me: Pid,
        item: Option<Item>,
    ) -> Next {
        match &mut self.boss {
            Some(boss) => boss.handle(desk, births, me, item),
            None => Next::Running,
        }
    }
}

impl Outside for Member {
    type Told = Job;

    ghost tells = { member_tells };

    #[inline(always)]
    fn tell(&mut self, me: Pid, before: Next, item: Option<Item>) -> Option<Job> {
        if self.boss.is_some() {
            return None;
        }
        let what = self.what(before, item);
        self.notes.begun = true;
        Some(Job {
            pid: me,
            tag: self.tag,
            what,
        })
    }
}

impl Supervised for Member {
    ghost supervisor = { boss_part };

    ghost supervises = { λ time b d me item next now e births h. h.0 };
}
