//! What holds for each supervisor, as the contract of a function that does nothing.

ghost use Rattle.pt_supervisor.specs.Keeping.{ChangesAfter, ChangesBefore};
ghost use Rattle.pt_supervisor.specs.Staying.{BeginsHere, CallsLeaveHere, StaysHere};
ghost use Rattle.pt_supervisor.specs.Supervising.{HereAwaitsNobody, PermanentLive, StaysWanted};

use crate::supervisor::Start;

/// For any item that a supervisor handles, each permanent child stays one that it wants alive. So if it waits for any
/// item, and for no child that the program is to start on another desk, each of them is alive, as far as it knows. A
/// supervisor that spawns all its children never waits for such a child (`here`), now or later ([`children_stay_here`]).
pub fn permanent_children_live()
    ensures stays { StaysWanted }
    ensures live { PermanentLive }
    ensures here { HereAwaitsNobody }
{}

/// A supervisor that spawns all its children waits for no child on another desk, after any item and any call. A new one
/// spawns all of them if each is [`Home::Here`](pt_children::Home::Here) (`begins`). It still does after each item that it
/// handles, or none (`items`), and after each call about its children, if a child that the call takes in is `Here` too
/// (`calls`).
pub fn children_stay_here<B, S: Start<B>>()
    ensures begins { BeginsHere }
    ensures items { StaysHere S.starts }
    ensures calls { CallsLeaveHere }
{}

/// A behaviour may change its supervisor by calls that keep what it upholds of its children (`HoldsWhere`, as
/// [`Supervisor::terminate_child`](crate::Supervisor::terminate_child) and its like have it), before it passes an item to
/// it (`before`). So it may afterwards, if it returns [`Next::Proceed`](pt_behaviour::Next::Proceed) then (`after`). It is
/// [`Supervised`](crate::Supervised) still: the supervisor tends to its children as one that nobody changed.
pub fn changed_supervisors_tend()
    ensures before { ChangesBefore }
    ensures after { ChangesAfter }
{}
