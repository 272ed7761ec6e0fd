//! What a supervisor is made of, as plain data.

ghost use Rattle.std.specs.Prelude.{◌≡◌, ◌∷◌, ◌++◌, [], IfOk, OnErr, OnOk, false, length, map, remove, slice_get};
ghost use Rattle.pt_behaviour.specs.declared.behaviour.Next.TheVariants.{Proceed};
ghost use Rattle.pt_supervisor.specs.Hearing.{program_of, standing};
ghost use Rattle.pt_supervisor.specs.Changed.{RemembersWhere};
ghost use Rattle.pt_supervisor.specs.Keeping.{HoldsWhere};
ghost use Rattle.pt_scheduler.specs.Asking.{AddsOrNot, BossDeletes, BossStarts, posts_started};
ghost use Rattle.pt_children.specs.Specifying.{begun_as, child_as};
ghost use Rattle.pt_scheduler.specs.Planning.{post_as, posts_of, starts_post, with_again};

use crate::boss::Boss;
use crate::member::Member;
use pt_behaviour::Next;
use pt_children::{Child, ChildFault, ChildSpec, Limit, SupervisorSpec};
use pt_supervisor::{Start, Supervisor};
use pt_workers::{Fault, Pid};
use std::alloc::{AllocError, Global};

/// Which supervisor started a process, and whether a child in the same place had exited before.
#[derive(Clone, Copy, Debug, PartialEq, Eq)]
pub struct Origin {
    pub supervisor: Pid,
    pub again: bool,
}

/// A place of a supervisor: the tag of the child, and whether one that was there has exited. It is public since the
/// definitions name it.
#[derive(Clone, Copy, Debug, PartialEq, Eq)]
pub struct Post {
    tag: u64,
    again: bool,
}

/// The places of a supervisor, from which it starts its children. It is public since the definitions name it.
#[derive(Drop)]
pub struct Plan {
    /// `None` stands for a plan without places.
    posts: Option<Vec<Post>>,
}

impl Post {
    /// Its tag.
    #[inline(always)]
    pub(crate) fn tag(&self) -> u64
        ensures { result ≡ self.now.tag }
    {
        self.tag
    }

    /// Whether one that was there has exited.
    #[inline(always)]
    pub(crate) fn again(&self) -> bool
        ensures { result ≡ self.now.again }
    {
        self.again
    }
}

impl Plan {
    /// No places.
    fn none() -> Plan
        ensures { result ≡ record { posts = None } }
    {
        Plan { posts: None }
    }

    /// The post at a place, if there is one.
    fn post(&self, place: usize) -> Option<Post>
        ensures { result ≡ slice_get (posts_of self.now) place }
    {
        match &self.posts {
            Some(posts) => posts.get(place).copied(),
            None => None,
        }
    }

    /// The number of places.
    fn len(&self) -> usize
        ensures { result ≡ length (posts_of self.now) }
    {
        match &self.posts {
            Some(posts) => posts.len(),
            None => 0,
        }
    }

    /// Takes in a place behind the others, of which no child has exited. It fails if there is no memory, and then nothing
    /// has changed.
    fn push(&mut self, tag: u64) -> Result<(), AllocError>
        ensures pushes { OnOk result (posts_of self.new ≡ posts_of self.old ++ record { tag = tag; again = false } ∷ []) }
        ensures refused { OnErr result (posts_of self.new ≡ posts_of self.old) }
    {
        match &mut self.posts {
            Some(posts) => {
                posts.push(Post { tag, again: false })?;
                Ok(())
            }
            None => Err(AllocError),
        }
    }

    /// Forgets the place at a number, if there is one: those behind it move up.
    fn remove(&mut self, place: usize)
        ensures { posts_of self.new ≡ remove (posts_of self.old) place }
    {
        if let Some(posts) = &mut self.posts {
            if place < posts.len() {
                let _ = posts.remove(place);
            }
        }
    }

    /// Notes that the child at a place has exited.
    fn mark(&mut self, place: usize)
        ensures { posts_of self.new ≡ with_again place (posts_of self.old) }
    {
        let Some(post) = self.post(place) else {
            return;
        };
        if let Some(posts) = &mut self.posts {
            posts[place] = Post {
                again: true,
                ..post
            };
        }
    }
}

impl Start<Member> for Plan {
    ghost starts = { starts_post };

    fn start(&mut self, supervisor: Pid, place: usize) -> Result<(Member, Next), Fault> {
        match self.post(place) {
            Some(post) => Ok((Member::child(post, supervisor), Next::Proceed)),
            None => Err(Fault::Gone),
        }
    }
}

/// Notes that the child at a place of a supervisor has exited.
pub(crate) fn mark(boss: &mut Supervisor<Plan>, place: usize)
    ensures standing { standing boss.new ≡ standing boss.old }
    ensures posts { posts_of (program_of boss.new) ≡ with_again place (posts_of (program_of boss.old)) }
{
    let mut plan = boss.replace_start(Plan::none());
    plan.mark(place);
    let _ = boss.replace_start(plan);
}

/// A supervisor takes in a child behind the others, and a place of its plan.
pub(crate) fn start_child(boss: &mut Supervisor<Plan>, spec: ChildSpec) -> Result<usize, ChildFault>
    ensures starts { BossStarts spec boss.old result boss.new }
    ensures holds { HoldsWhere (standing boss.old) (standing boss.new) }
    ensures remembers { RemembersWhere (standing boss.old) (standing boss.new) }
{
    let mut plan = boss.replace_start(Plan::none());
    let result = take_in(boss, &mut plan, spec);
    let _ = boss.replace_start(plan);
    result
}

/// A supervisor takes in a child behind the others, and its plan, which is apart, a place.
fn take_in(
    boss: &mut Supervisor<Plan>,
    plan: &mut Plan,
    spec: ChildSpec,
) -> Result<usize, ChildFault>
    ensures adds { AddsOrNot spec (standing boss.old) result (standing boss.new) }
    ensures posts { posts_of plan.new ≡ posts_started spec result (posts_of plan.old) }
    ensures holds { HoldsWhere (standing boss.old) (standing boss.new) }
    ensures remembers { RemembersWhere (standing boss.old) (standing boss.new) }
{
    let last = plan.len();
    if plan.push(spec.tag).is_err() {
        return Err(ChildFault::Memory);
    }
    let result = boss.start_child(spec.child());
    if result.is_err() {
        plan.remove(last);
    }
    result
}

/// A supervisor forgets a child, and its plan the place.
pub(crate) fn delete_child(boss: &mut Supervisor<Plan>, id: u64) -> Result<usize, ChildFault>
    ensures deletes { BossDeletes id boss.old result boss.new }
    ensures holds { HoldsWhere (standing boss.old) (standing boss.new) }
    ensures remembers { RemembersWhere (standing boss.old) (standing boss.new) }
{
    let place = boss.delete_child(id)?;
    let mut plan = boss.replace_start(Plan::none());
    plan.remove(place);
    let _ = boss.replace_start(plan);
    Ok(place)
}

/// The children of a new supervisor.
fn children_of(alloc: Global, specs: &[ChildSpec]) -> Result<Vec<Child>, AllocError>
    ensures { IfOk result (λ v. v.items ≡ map child_as specs.now) }
{
    specs.iter().map(|spec| spec.child()).collect(alloc)
}

/// The places of a new supervisor.
fn posts(alloc: Global, specs: &[ChildSpec]) -> Result<Vec<Post>, AllocError>
    ensures { IfOk result (λ v. v.items ≡ map post_as specs.now) }
{
    specs
        .iter()
        .map(|spec| Post {
            tag: spec.tag,
            again: false,
        })
        .collect(alloc)
}

/// A supervisor that has started nobody.
pub(crate) fn supervisor(
    alloc: Global,
    spec: SupervisorSpec,
    children: &[ChildSpec],
) -> Result<Boss, AllocError>
    ensures standing { IfOk result (λ s. standing s ≡ begun_as spec children.now) }
    ensures posts { IfOk result (λ s. posts_of (program_of s) ≡ map post_as children.now) }
{
    let limit = if spec.timed {
        Limit::by_time(alloc, spec.most, spec.span)?
    } else {
        Limit::new(alloc, spec.most, spec.span)?
    };
    let list = children_of(alloc, children)?;
    let plan = Plan {
        posts: Some(posts(alloc, children)?),
    };
    let boss = Supervisor::new(plan, spec.strategy, list, limit);
    match spec.parent {
        Some(parent) => Boss::new(alloc, boss.under(parent)),
        None => Boss::new(alloc, boss),
    }
}
