//! The two ends of a way in.

ghost use Rattle.std.specs.Prelude.{◌≡◌, [], ◌++◌, IfOk, length};
ghost use Rattle.rtrb.specs.Ring.{ConsumerLooked, IsPair, ProducerLooked, SameConsumer, SameProducer};
ghost use Rattle.rtrb.specs.Ring.{consumer_capacity, known_free, known_items, producer_capacity, received, sent};
ghost use Rattle.pt_c_tools.specs.Doors.{PostsAtDoor, TakesPost};

use pt_signal::{Body, Pid};
use rtrb::{Consumer, Producer, PushError, RingBuffer};
use std::alloc::{AllocError, Global};

/// A message from outside, to a process of any desk.
#[derive(Clone, Copy)]
pub struct Post {
    pub to: Pid,
    pub body: Body,
}

/// The end of a way in that a thread without a desk holds.
#[derive(Drop)]
pub struct Door {
    ring: Producer<Post>,
}

/// The end of a way in that the thread of a desk holds.
#[derive(Drop)]
pub struct WayIn {
    ring: Consumer<Post>,
}

/// Makes a way in with so many places. Fails if there is no memory.
pub fn open(alloc: Global, places: u32) -> Result<(Door, WayIn), AllocError>
    ensures pair { IfOk result (λ r. IsPair r.0.ring r.1.ring) }
    ensures door { IfOk result (λ r. (sent r.0.ring ≡ []) × (known_free r.0.ring ≡ places)
        × (producer_capacity r.0.ring ≡ places)) }
    ensures way_in { IfOk result (λ r. (received r.1.ring ≡ []) × (known_items r.1.ring ≡ [])
        × (consumer_capacity r.1.ring ≡ places)) }
{
    let (producer, consumer) = RingBuffer::new(alloc, places as usize)?;
    Ok((Door { ring: producer }, WayIn { ring: consumer }))
}

/// Looks at a way in from both of its ends, and returns the number of messages that wait. It is for a caller that has
/// both ends.
///
/// The messages taken out, followed by those that wait, are the messages handed in: in order, each once.
pub fn meet(door: &mut Door, way_in: &mut WayIn) -> usize
    requires { IsPair door.old.ring way_in.old.ring }
    ensures whole { received way_in.new.ring ++ known_items way_in.new.ring ≡ sent door.new.ring }
    ensures door { ProducerLooked door.old.ring door.new.ring }
    ensures way_in { ConsumerLooked way_in.old.ring way_in.new.ring }
    ensures count { result ≡ length (known_items way_in.new.ring) }
{
    way_in.ring.slots_beside(&mut door.ring)
}

impl Door {
    /// Whether the way in was given up, by what the door sees now. No clause speaks of the answer: another thread may give
    /// up the way in at any time.
    pub fn is_gone(&mut self) -> bool
        ensures { ProducerLooked self.old.ring self.new.ring }
    {
        self.ring.is_abandoned()
    }

    /// Hands in a message. Fails, and nothing has changed, if the door knows of no free place. Then as many messages wait
    /// as the way in has places, by all that this end knows of the other.
    pub fn post(&mut self, post: Post) -> bool
        ensures does { PostsAtDoor post self.old result self.new }
        ensures same { SameProducer self.old.ring self.new.ring }
    {
        match self.ring.push(post) {
            Ok(()) => true,
            Err(PushError::Full(_)) => false,
        }
    }
}

impl WayIn {
    /// Takes out the oldest message that waits, or returns `None` if the way in shows none.
    pub fn take(&mut self) -> Option<Post>
        ensures does { TakesPost self.old result self.new }
        ensures same { SameConsumer self.old.ring self.new.ring }
    {
        self.ring.pop().ok()
    }

    /// The number of messages that wait. More may be handed in at any time.
    pub fn len(&mut self) -> usize
        ensures looks { ConsumerLooked self.old.ring self.new.ring }
        ensures count { result ≡ length (known_items self.new.ring) }
    {
        self.ring.slots()
    }
}
