//! The way in: messages from threads that have no desk.

ghost use Rattle.std.specs.Prelude.{◌≡◌, ◌<◌, ◌≤◌, ◌+◌, ◌==◌, ◌||◌, Bool, [], ◌∷◌, ◌++◌, OnOk, IfOk, IfErr, IsOk};
ghost use Rattle.std.specs.Prelude.{length, max, not};
ghost use Rattle.rtrb.specs.Ring.{ConsumerLooked, IsPair, ProducerLooked, SameConsumer};
ghost use Rattle.rtrb.specs.Ring.{consumer_capacity, known_free, known_items, producer_capacity, received, sent};
ghost use Rattle.pt_desk.specs.DeskState.{DeskState, GoesOn};
ghost use Rattle.pt_epochs.specs.Bringing.{BringsFirst, Brings};
ghost use Rattle.pt_epochs.specs.Views.{IsSameDoor, most_of, rings_at, sender, work_of};

use crate::bells::Bells;
use crate::resting::Rests;
use pt_behaviour::{CallFault, send};
use pt_workers::{Body, Desk, Fault, Pid, Turned, Work};
use rtrb::{Consumer, Producer, PushError, RingBuffer};
use std::alloc::{AllocError, Global};

/// A message from outside, to a process of any desk.
#[derive(Clone, Copy, Debug, PartialEq, Eq)]
pub struct Post {
    pub to: Pid,
    pub body: Body,
}

/// The end of a way in that a thread without a desk holds, as a socket's reader.
#[derive(Drop)]
pub struct Door<'a> {
    ring: Producer<Post>,
    bells: &'a Bells,
    desk: u8,
}

impl<'a> Door<'a> {
    /// Posts a message, and rings at the desk. Fails with the message, and nothing has changed, if the door knows of no
    /// free place. Then as many messages wait as the way in has places, by all that this end knows of the other.
    pub fn post(&mut self, post: Post) -> Result<(), Post>
        ensures taken { OnOk result ((sent self.new.ring ≡ sent self.old.ring ++ post ∷ [])
            × (known_free self.old.ring ≤ known_free self.new.ring + 1)) }
        ensures full { IfErr result (λ p. (p ≡ post) × (sent self.new.ring ≡ sent self.old.ring)
            × (known_free self.new.ring ≡ 0)) }
        ensures succeeds { 0 < known_free self.old.ring → IsOk result }
        ensures same { IsSameDoor self.old self.new }
    {
        match self.ring.push(post) {
            Ok(()) => {
                self.bells.ring(self.desk);
                Ok(())
            }
            Err(PushError::Full(post)) => Err(post),
        }
    }
}

/// The work of a desk that sends on the messages of a door, as a process of the desk, before it does the work that it
/// was made with.
///
/// A message that it took out of the way in was sent, or its receiver was seen to have exited or is not known. If the
/// call fails for want of memory or stamps, or since the sending process has exited, the message stays in front of the
/// others.
#[derive(Drop)]
pub struct Porter<W> {
    ring: Consumer<Post>,
    me: Pid,
    most: u32,
    work: W,
}

/// Makes a way in with so many places, for messages that the process `me` of that desk sends on, at most `most` in a
/// step (0 is taken as 1). It returns the door, and the work of the desk with it. Fails if there is no memory.
pub fn way_in<'a, W: Drop>(
    alloc: Global,
    bells: &'a Bells,
    places: u32,
    me: Pid,
    most: u32,
    work: W,
) -> Result<(Door<'a>, Porter<W>), AllocError>
    ensures pair { IfOk result (λ r. IsPair r.0.ring r.1.ring) }
    ensures door { IfOk result (λ r. (sent r.0.ring ≡ []) × (known_free r.0.ring ≡ places)
        × (producer_capacity r.0.ring ≡ places) × (rings_at r.0 ≡ me.shard)) }
    ensures porter { IfOk result (λ r. (received r.1.ring ≡ []) × (known_items r.1.ring ≡ [])
        × (consumer_capacity r.1.ring ≡ places) × (sender r.1 ≡ me) × (most_of r.1 ≡ max 1 most)
        × (work_of r.1 ≡ work)) }
{
    let (producer, consumer) = RingBuffer::new(alloc, places as usize)?;
    let door = Door {
        ring: producer,
        bells,
        desk: me.shard,
    };
    let porter = Porter {
        ring: consumer,
        me,
        most: most.max(1),
        work,
    };
    Ok((door, porter))
}

impl<W> Porter<W> {
    /// Looks at the way in from both of its ends, and returns the number of messages that wait. It is for a caller that
    /// has both ends.
    ///
    /// The messages taken out, followed by those that wait, are the messages handed in: in order, each once.
    pub fn meet(&mut self, door: &mut Door<'_>) -> usize
        requires { IsPair door.old.ring self.old.ring }
        ensures whole { received self.new.ring ++ known_items self.new.ring ≡ sent door.new.ring }
        ensures door { IsSameDoor door.old door.new × ProducerLooked door.old.ring door.new.ring }
        ensures ring { ConsumerLooked self.old.ring self.new.ring }
        ensures rest { (sender self.new ≡ sender self.old) × (most_of self.new ≡ most_of self.old)
            × (work_of self.new ≡ work_of self.old) }
        ensures count { result ≡ length (known_items self.new.ring) }
    {
        self.ring.slots_beside(&mut door.ring)
    }

    /// The work, to be read.
    pub fn work(&self) -> &W
        ensures { result.now ≡ work_of self.now }
    {
        &self.work
    }

    /// The work, as it is now. The messages that wait in the way in are dropped.
    pub fn into_work(self) -> W
        ensures { result ≡ work_of self }
    {
        let Porter { work, .. } = self;
        work
    }

    /// Sends on the first message that waits, and returns whether it was taken out.
    #[tactic(auto, using(pt_workers::proofs::GoingOn::stays))]
    fn bring_one(&mut self, desk: &mut Desk) -> bool
        ensures brings { BringsFirst self.old.me (received self.old.ring) desk.old result (received self.new.ring)
            (known_items self.new.ring) desk.new }
        ensures ring { SameConsumer self.old.ring self.new.ring }
        ensures me { self.old.me ≡ self.new.me }
        ensures most { self.old.most ≡ self.new.most }
        ensures work { self.old.work ≡ self.new.work }
        ensures goes_on { GoesOn desk.old desk.new }
    {
        if self.ring.slots() == 0 {
            return false;
        }
        let post = *self.ring.peek_known();
        match send(desk, self.me, post.to, post.body) {
            Ok(()) | Err(CallFault::Unknown) | Err(CallFault::Refused(Fault::NoProc)) => {
                let _ = self.ring.pop_known();
                true
            }
            Err(_) => false,
        }
    }

    /// Sends on as many as it may in a step, and looks whether more wait.
    #[tactic(auto, using(pt_workers::proofs::GoingOn::stays, pt_desk::proofs::Turning::goes_on_then))]
    fn bring(&mut self, desk: &mut Desk)
        ensures brings { Brings self.old.me self.old.most (received self.old.ring) desk.old (received self.new.ring)
            (known_items self.new.ring) desk.new }
        ensures ring { SameConsumer self.old.ring self.new.ring }
        ensures me { self.old.me ≡ self.new.me }
        ensures most { self.old.most ≡ self.new.most }
        ensures work { self.old.work ≡ self.new.work }
        ensures goes_on { GoesOn desk.old desk.new }
    {
        for _place in 0..self.most {
            if !self.bring_one(desk) {
                return;
            }
        }
        let _more = self.ring.slots();
    }
}

impl<W: Work> Work for Porter<W> {
    ghost does = { λ old d new e. (mid : DeskState) × Brings (sender old) (most_of old) (received old.ring) d
        (received new.ring) (known_items new.ring) mid × SameConsumer old.ring new.ring
        × W.Work.does (work_of old) mid (work_of new) e
        × (sender new ≡ sender old) × (most_of new ≡ most_of old) };

    ghost hears = { λ old d turned new. W.Work.hears (work_of old) d turned (work_of new) × (new.ring ≡ old.ring)
        × (sender new ≡ sender old) × (most_of new ≡ most_of old) };

    #[tactic(auto, using(pt_workers::proofs::GoingOn::stays, pt_desk::proofs::Turning::goes_on_then))]
    fn step(&mut self, desk: &mut Desk) {
        self.bring(desk);
        self.work.step(desk);
    }

    fn turned(&mut self, desk: &Desk, turned: Turned) {
        self.work.turned(desk, turned);
    }
}

/// A porter has something to do while it knows of a message that waits, or its work has.
impl<W: Rests> Rests for Porter<W> {
    ghost busy = { λ p answer. (own : Bool) × W.Rests.busy (work_of p) own
        × (answer ≡ (own || not (length (known_items p.ring) == 0))) };

    ghost next = { λ p answer. W.Rests.next (work_of p) answer };

    fn has_work(&self) -> bool {
        self.work.has_work() || self.ring.cached_slots() != 0
    }

    fn next_time(&self) -> Option<u64> {
        self.work.next_time()
    }
}
