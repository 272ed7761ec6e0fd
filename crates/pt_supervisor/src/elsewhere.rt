//! Children of a supervisor that the program starts on other desks.

ghost use Rattle.std.specs.Prelude.{◌≡◌, ◌<◌, IfSome, length, slice_get, Some};
ghost use Rattle.pt_behaviour.specs.Behaving.{takes};
ghost use Rattle.pt_behaviour.specs.Births.{kept_roles};
ghost use Rattle.pt_desk.specs.DeskState.{GoesOn};
ghost use Rattle.pt_children.specs.Answering.{AnswersNotStarted, AnswersStarted, AsksProgram};
ghost use Rattle.pt_supervisor.specs.Changed.{RemembersWhere};
ghost use Rattle.pt_children.specs.Children.{PermanentAreWanted};
ghost use Rattle.pt_supervisor.specs.Hearing.{program_of, standing};
ghost use Rattle.pt_supervisor.specs.Joining.{JoinsChild, LinksNew, MeetsIn, Misses, joined_as};
ghost use Rattle.pt_children.specs.Homes.{place_coming, place_unanswered};
ghost use Rattle.pt_supervisor.specs.Keeping.{HoldsWhere};
ghost use Rattle.pt_supervisor.specs.Supervising.{GoesForward, Supervises, supervisor_scene};

use crate::supervisor::{Start, Supervisor};
use pt_behaviour::{Births, CallFault, Next, link};
use pt_children::{
    Child, ChildFault, Home, place_awaited, place_of, place_unanswered, place_untold,
};
use pt_workers::{Desk, Fault, Pick, Pid};

/// The child as which this process was started on another desk, if its supervisor was linked with it. Else it was not
/// started, or is to be linked with again.
fn joined(child: Child, clock: u64, pid: Pid, linked: Result<(), CallFault>) -> Child
    ensures { result ≡ joined_as clock pid child linked }
{
    match linked {
        Ok(()) => child.joined(pid),
        Err(CallFault::Unknown) => child.missed(clock, Fault::NoProc),
        Err(CallFault::Refused(fault)) => child.missed(clock, fault),
    }
}

/// Links a supervisor with a process that was started on another desk. It fails with `NoProc` if the process is of the
/// supervisor's desk, or is a child already.
fn link_new(desk: &mut Desk, me: Pid, pid: Pid, children: &[Child]) -> Result<(), CallFault>
    ensures links { LinksNew me pid children.now desk.old result desk.new }
    ensures takes { takes desk.new.shard.journal ≡ takes desk.old.shard.journal }
    ensures goes_on { GoesOn desk.old desk.new }
{
    if pid.shard == me.shard || place_of(children, pid).is_some() {
        return Err(CallFault::Refused(Fault::NoProc));
    }
    link(desk, me, pid)
}

impl<S> Supervisor<S> {
    /// The child at a place.
    fn child_of(&self, place: usize) -> Child
        requires { place < length (standing self.now).children }
        ensures { slice_get (standing self.now).children place ≡ Some result }
    {
        self.children()[place]
    }

    /// The place of the child that the program is to start on another desk, if there is one. It is the same until the
    /// program answers, unless a call about a child moves it up.
    pub fn awaited(&self) -> Option<usize>
        ensures place { result ≡ place_unanswered (standing self.now).children }
        ensures within { IfSome result (λ i. i < length (standing self.now).children) }
    {
        place_unanswered(self.children())
    }

    /// Returns the id of the child that the program is to start on another desk. The program is told of it once: a further
    /// call fails with `NotAwaited`, as does one before the supervisor comes to such a child. Then nothing has changed.
    #[tactic(auto, using(crate::proofs::Changing::holds_same, crate::proofs::Changing::remembers_same))]
    pub fn to_start(&mut self) -> Result<u64, ChildFault>
        ensures does { AsksProgram (standing self.old) result (standing self.new) }
        ensures holds { HoldsWhere (standing self.old) (standing self.new) }
        ensures remembers { RemembersWhere (standing self.old) (standing self.new) }
        ensures start { program_of self.new ≡ program_of self.old }
    {
        let Some(place) = place_untold(self.children()) else {
            return Err(ChildFault::NotAwaited);
        };
        let child = self.child_of(place);
        self.set_child(place, child.told());
        Ok(child.id)
    }

    /// Tells the supervisor that the program has started the child with this id on another desk, as this process. The
    /// supervisor links with it when it handles the next item, or proceeds.
    ///
    /// If the process has exited by then, or is of the supervisor's own desk, or is a child already, the child was not
    /// started ([`Supervisor::child_not_started`]). It fails with `NotAwaited` if the supervisor does not wait for the
    /// answer about this child. Then nothing has changed, and the program ends the process.
    #[tactic(auto, using(crate::proofs::Changing::holds_same, crate::proofs::Changing::remembers_same))]
    pub fn child_started(&mut self, id: u64, pid: Pid) -> Result<(), ChildFault>
        ensures does { AnswersStarted id pid (standing self.old) result (standing self.new) }
        ensures holds { HoldsWhere (standing self.old) (standing self.new) }
        ensures remembers { RemembersWhere (standing self.old) (standing self.new) }
        ensures start { program_of self.new ≡ program_of self.old }
    {
        let Some(place) = place_awaited(self.children(), id) else {
            return Err(ChildFault::NotAwaited);
        };
        let child = self.child_of(place);
        self.set_child(place, child.arrived(pid));
        Ok(())
    }

    /// Tells the supervisor that the program has not started the child with this id on another desk, for this reason. The
    /// supervisor makes of it what it makes of a start that fails, when it handles the next item, or proceeds
    /// ([`Trial`](crate::Trial)): after `Fault::Memory` and `Fault::Worn` it asks for the child again.
    ///
    /// It fails with `NotAwaited` if the supervisor does not wait for the answer about this child. Then nothing has changed.
    #[tactic(auto, using(crate::proofs::Changing::holds_same, crate::proofs::Changing::remembers_same))]
    pub fn child_not_started(&mut self, id: u64, fault: Fault) -> Result<(), ChildFault>
        ensures does { AnswersNotStarted id fault (standing self.old) result (standing self.new) }
        ensures holds { HoldsWhere (standing self.old) (standing self.new) }
        ensures remembers { RemembersWhere (standing self.old) (standing self.new) }
        ensures start { program_of self.new ≡ program_of self.old }
    {
        let Some(place) = place_awaited(self.children(), id) else {
            return Err(ChildFault::NotAwaited);
        };
        let child = self.child_of(place);
        self.set_child(place, child.unmet(fault));
        Ok(())
    }

    /// Links with the child that is being started on another desk, or waits for the program's answer. If there is none, it
    /// ends the last of the children that are to end, or exits, or starts the missing children.
    pub(crate) fn go_forward<B: Drop>(
        &mut self,
        desk: &mut Desk,
        births: &mut Births<B>,
        now: u64,
        me: Pid,
    ) -> Next
    where
        S: Start<B>,
        ensures does { GoesForward S.starts me now (place_coming (standing self.old).children)
            (supervisor_scene self.old desk.old births.old)
            result
            (supervisor_scene self.new desk.new births.new) }
        ensures supervises { Supervises result (standing self.new) }
        ensures permanent { PermanentAreWanted (standing self.old).children
            → PermanentAreWanted (standing self.new).children }
        ensures takes { takes desk.new.shard.journal ≡ takes desk.old.shard.journal }
        ensures kept { kept_roles births.new ≡ kept_roles births.old }
        ensures goes_on { GoesOn desk.old desk.new }
    {
        match self.coming() {
            Some(place) => self.meet(desk, me, place),
            None => self.advance(desk, births, now, me),
        }
    }

    /// Links with the child at a place, if the program has started it on another desk. Else it waits for the answer.
    #[tactic(auto, using(pt_workers::proofs::GoingOn::stays))]
    pub(crate) fn meet(&mut self, desk: &mut Desk, me: Pid, place: usize) -> Next
        requires { place < length (standing self.old).children }
        ensures does { MeetsIn me place (slice_get (standing self.old).children place) (standing self.old) desk.old result
            (standing self.new) desk.new }
        ensures permanent { PermanentAreWanted (standing self.old).children
            → PermanentAreWanted (standing self.new).children }
        ensures start { program_of self.new ≡ program_of self.old }
        ensures takes { takes desk.new.shard.journal ≡ takes desk.old.shard.journal }
        ensures goes_on { GoesOn desk.old desk.new }
    {
        let child = self.child_of(place);
        match child.home {
            Home::Arrived(pid) => {
                self.join(desk, me, place, pid, child);
                Next::Proceed
            }
            Home::Missed(fault) => {
                self.miss(place, child, desk.clock(), fault);
                Next::Proceed
            }
            _ => Next::Wait(Pick::Any),
        }
    }

    /// Notes that the child at a place was not started for this reason.
    fn miss(&mut self, place: usize, child: Child, clock: u64, fault: Fault)
        requires within { place < length (standing self.old).children }
        requires at { slice_get (standing self.old).children place ≡ Some child }
        ensures does { Misses place clock fault child (standing self.old) (standing self.new) }
        ensures permanent { PermanentAreWanted (standing self.old).children
            → PermanentAreWanted (standing self.new).children }
        ensures start { program_of self.new ≡ program_of self.old }
    {
        self.set_child(place, child.refused(clock, fault));
        self.set_asked(None);
    }

    /// Links with the process that the program has started as the child at a place, or notes that it was not started.
    #[tactic(auto, using(pt_workers::proofs::GoingOn::stays))]
    fn join(&mut self, desk: &mut Desk, me: Pid, place: usize, pid: Pid, child: Child)
        requires within { place < length (standing self.old).children }
        requires at { slice_get (standing self.old).children place ≡ Some child }
        ensures does { JoinsChild me place pid child (standing self.old) desk.old (standing self.new) desk.new }
        ensures permanent { PermanentAreWanted (standing self.old).children
            → PermanentAreWanted (standing self.new).children }
        ensures start { program_of self.new ≡ program_of self.old }
        ensures takes { takes desk.new.shard.journal ≡ takes desk.old.shard.journal }
        ensures goes_on { GoesOn desk.old desk.new }
    {
        let linked = link_new(desk, me, pid, self.children());
        self.set_child(place, joined(child, desk.clock(), pid, linked));
        self.set_asked(None);
    }
}
