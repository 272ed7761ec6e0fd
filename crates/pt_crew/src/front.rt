//! What the process in front of a queue gets, and what comes of it.

ghost use Rattle.std.specs.Prelude.{◌≡◌, IfSome, None, Some, true, false};
ghost use Rattle.pt_shard.specs.ShardState.{phase_of};
ghost use Rattle.pt_desk.specs.DeskState.{GoesOn};
ghost use Rattle.pt_signal.specs.declared.item.Pick.TheVariants.{Any};
ghost use Rattle.pt_workers.specs.Waking.{need_not_wait};
ghost use Rattle.pt_behaviour.specs.declared.behaviour.Next.TheVariants.{Running};
ghost use Rattle.pt_behaviour.specs.Births.{bore, born};
ghost use Rattle.pt_behaviour.specs.Behaving.{takes};
ghost use Rattle.pt_crew.specs.Visiting.{BearsChildren, HandsTo, SeesTo, handed_as, leaves_crew};
ghost use Rattle.pt_crew.specs.Stepping.{runs};
ghost use Rattle.pt_crew.specs.Crews.{role};
ghost use Rattle.pt_crew.specs.Outside.{tells_or};
ghost use Rattle.pt_crew.specs.Parts.{Gets, GetsItem, MemberTends, SleepsUntil, kept_as, sleeper};
ghost use Rattle.pt_behaviour.specs.Behaving.{limit_of};
ghost use Rattle.pt_crew.specs.Waking.{rests_on, wait_is_over};

use crate::crew::{Member, Tended};
use crate::outside::Outside;
use pt_behaviour::{Behaviour, Births, Next};
use pt_timers::Timers;
use pt_workers::{Desk, Fault, Item, Pick, Pid};

/// Whether a process is running.
#[inline(always)]
pub(crate) fn runs(next: Next) -> bool
    ensures { result ≡ runs next }
{
    match next {
        Next::Running => true,
        Next::Wait(_) | Next::WaitUntil(_, _) | Next::Proceed | Next::Stop(_) => false,
    }
}

/// Whether a process waits without an end, and need not be visited for it, as its mailbox was empty.
#[inline(always)]
pub(crate) fn rests(next: Next, clear: bool) -> bool
    ensures { result ≡ rests_on clear next }
{
    match next {
        Next::Wait(_) => clear,
        Next::WaitUntil(_, _) | Next::Proceed | Next::Running | Next::Stop(_) => false,
    }
}

/// Passes a process what it gets, and says what comes of it.
pub(crate) fn tend<B: Behaviour + Drop>(
    member: &mut Member<B>,
    births: &mut Births<B>,
    desk: &mut Desk,
    time: u64,
    p: Pid,
) -> Tended
    ensures sees { SeesTo B.answers time p member.old.behaviour member.old.next desk.old.shard result
        (kept_as result member.new) desk.new.shard (bore (born births.old) (born births.new)) }
    ensures role { result ≡ Tended.Gone → role member.new ≡ role member.old }
    ensures timer { member.new.timer ≡ member.old.timer }
    ensures done { result ≡ Tended.Done → limit_of member.new.next ≡ None }
    ensures bears { BearsChildren result (born births.old) (born births.new) }
    ensures tends { MemberTends p result member.new desk.new.shard }
    ensures goes_on { GoesOn desk.old desk.new }
{
    match gets(member.next, desk, time, &p) {
        Ok(item) => {
            hand(member, births, desk, time, p, item);
            handed(member.next, desk, p)
        }
        Err(came) => came,
    }
}

/// Tells the outside what a process gets, or passes it to the process if its handler is not outside. It says what comes
/// of it.
pub(crate) fn serve<B: Outside + Drop>(
    member: &mut Member<B>,
    births: &mut Births<B>,
    desk: &mut Desk,
    time: u64,
    p: Pid,
) -> (Tended, Option<B::Told>)
    ensures sees { SeesTo (tells_or B.answers B.tells (Some member.old.next) result.1) time p member.old.behaviour
        member.old.next desk.old.shard result.0 (kept_as result.0 member.new) desk.new.shard
        (bore (born births.old) (born births.new)) }
    ensures told { IfSome result.1 (λ _. (runs member.old.next ≡ false) × (runs member.new.next ≡ true)
        × (leaves_crew result.0 ≡ false)) }
    ensures role { result.0 ≡ Tended.Gone → role member.new ≡ role member.old }
    ensures timer { member.new.timer ≡ member.old.timer }
    ensures done { result.0 ≡ Tended.Done → limit_of member.new.next ≡ None }
    ensures bears { BearsChildren result.0 (born births.old) (born births.new) }
    ensures tends { MemberTends p result.0 member.new desk.new.shard }
    ensures clear { member.new.clear ≡ true → need_not_wait Any (phase_of desk.new.shard p) ≡ false }
    ensures goes_on { GoesOn desk.old desk.new }
{
    member.clear = false;
    match gets(member.next, desk, time, &p) {
        Ok(item) => pass(member, births, desk, time, p, item),
        Err(came) => (came, None),
    }
}

/// Tells the outside that a process got an item, or `None`, or passes it to the process if its handler is not outside.
#[inline(always)]
fn pass<B: Outside + Drop>(
    member: &mut Member<B>,
    births: &mut Births<B>,
    desk: &mut Desk,
    time: u64,
    p: Pid,
    item: Option<Item>,
) -> (Tended, Option<B::Told>)
    requires { member.old.clear ≡ false }
    ensures hands { HandsTo (tells_or B.answers B.tells (Some member.old.next) result.1 time) p member.old.behaviour item
        desk.old.shard result.0 (kept_as result.0 member.new) desk.new.shard (bore (born births.old) (born births.new)) }
    ensures told { IfSome result.1 (λ _. runs member.new.next ≡ true) }
    ensures stays { leaves_crew result.0 ≡ false }
    ensures timer { member.new.timer ≡ member.old.timer }
    ensures done { result.0 ≡ Tended.Done → limit_of member.new.next ≡ None }
    ensures bears { BearsChildren result.0 (born births.old) (born births.new) }
    ensures tends { MemberTends p result.0 member.new desk.new.shard }
    ensures clear { member.new.clear ≡ true → need_not_wait Any (phase_of desk.new.shard p) ≡ false }
    ensures goes_on { GoesOn desk.old desk.new }
{
    match member.behaviour.tell(p, member.next, item) {
        Some(told) => {
            member.next = Next::Running;
            (apart(member, desk, p), Some(told))
        }
        None => {
            hand(member, births, desk, time, p, item);
            (handed(member.next, desk, p), None)
        }
    }
}

/// What follows when the outside was told something of a process. It notes whether its mailbox is empty.
#[inline(always)]
fn apart<B>(member: &mut Member<B>, desk: &Desk, p: Pid) -> Tended
    requires { member.old.clear ≡ false }
    ensures tended { result ≡ handed_as Running (phase_of desk.now.shard p) }
    ensures same { member.new ≡ record member.old { clear = member.new.clear } }
    ensures clear { member.new.clear ≡ true → need_not_wait Any (phase_of desk.now.shard p) ≡ false }
{
    match desk.waiting(p) {
        Some(items) => {
            member.clear = items.is_empty();
            Tended::Done
        }
        None => Tended::Again,
    }
}

/// What a process gets that does this next: an item or `None`. If it gets nothing, then what comes of it.
#[inline(always)]
fn gets(next: Next, desk: &mut Desk, time: u64, p: &Pid) -> Result<Option<Item>, Tended>
    ensures gets { Gets time p.now next desk.old.shard result desk.new.shard }
    ensures goes_on { GoesOn desk.old desk.new }
{
    match next {
        Next::Stop(reason) => match desk.exit(*p, reason) {
            Ok(()) => Err(Tended::Gone),
            Err(Fault::Gone) => Err(Tended::Gone),
            Err(_) => Err(Tended::Refused),
        },
        Next::Proceed => {
            if desk.alive_here(*p) {
                Ok(None)
            } else {
                Err(Tended::Gone)
            }
        }
        Next::Running => {
            if desk.alive_here(*p) {
                Err(Tended::Idle)
            } else {
                Err(Tended::Gone)
            }
        }
        // (one call, so that it becomes a part of this function)
        Next::Wait(pick) | Next::WaitUntil(pick, _) => {
            receive(desk, *p, pick, wait_is_over(next, time))
        }
    }
}

/// Whether a process waits until a time that has come.
#[inline(always)]
fn wait_is_over(next: Next, time: u64) -> bool
    ensures { result ≡ wait_is_over next time }
{
    match next {
        Next::WaitUntil(_, at) => at <= time,
        _ => false,
    }
}

/// The first item of a process that matches, or `None` if there is none and its time is over.
#[inline(always)]
fn receive(desk: &mut Desk, p: Pid, pick: Pick, is_over: bool) -> Result<Option<Item>, Tended>
    ensures gets { GetsItem p pick is_over desk.old.shard result desk.new.shard }
    ensures goes_on { GoesOn desk.old desk.new }
{
    let got = match desk.receive(p, pick) {
        Ok(got) => got,
        Err(Fault::Gone) => return Err(Tended::Gone),
        Err(_) => return Err(Tended::Refused),
    };
    if got.is_none() && !is_over {
        return Err(Tended::Idle);
    }
    Ok(got)
}

/// What follows when a process got something: it joins the queue's end, unless it waits with an empty mailbox. One that
/// waits until a time joins it too, since its timer starts when it runs and finds nothing.
fn handed(next: Next, desk: &Desk, p: Pid) -> Tended
    ensures { result ≡ handed_as next (phase_of desk.now.shard p) }
{
    match (next, desk.waiting(p)) {
        (Next::Wait(_), Some(items)) if items.is_empty() => Tended::Done,
        (Next::Running, Some(_)) => Tended::Done,
        _ => Tended::Again,
    }
}

/// Passes an item, or `None`, to the behaviour of a process, which says what it does next.
fn hand<B: Behaviour + Drop>(
    member: &mut Member<B>,
    births: &mut Births<B>,
    desk: &mut Desk,
    time: u64,
    p: Pid,
    item: Option<Item>,
)
    ensures answers { B.answers time member.old.behaviour desk.old.shard p item member.new.next member.new.behaviour
        desk.new.shard (bore (born births.old) (born births.new)) }
    ensures timer { member.new.timer ≡ member.old.timer }
    ensures clear { member.new.clear ≡ member.old.clear }
    ensures bears { BearsChildren Tended.Again (born births.old) (born births.new) }
    ensures takes { takes desk.new.shard.journal ≡ takes desk.old.shard.journal }
    ensures goes_on { GoesOn desk.old desk.new }
{
    births.begin(time);
    member.next = member.behaviour.handle(desk, births, p, item);
}

/// Starts the timer of a process that leaves the queue and waits until a time. Without memory for it the process joins
/// the queue's end, so that nobody is forgotten.
#[inline(always)]
pub(crate) fn sleep<B>(
    member: &mut Member<B>,
    timers: &mut Timers<Pid>,
    p: &Pid,
    tended: Tended,
) -> Tended
    ensures { SleepsUntil (sleeper tended member.old.next) p.now tended member.old timers.old result member.new timers.new }
{
    let (Tended::Idle, Next::WaitUntil(_pick, at)) = (tended, member.next) else {
        return tended;
    };
    match timers.start(at, *p) {
        Ok(timer) => {
            member.timer = Some(timer);
            Tended::Idle
        }
        Err(_) => Tended::Refused,
    }
}
