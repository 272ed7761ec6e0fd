//! One lane: a ring with a sending end and a receiving end.

ghost use Rattle.std.specs.Prelude.{◌≡◌, ◌↔◌, ◌+◌, ◌-◌, ◌^◌, ◌<◌, ◌≤◌, min, vec_len, length, map, [], ◌∷◌, ◌++◌, take};
ghost use Rattle.std.specs.Prelude.{IsTrue, IfOk, IfSome, true, false};
ghost use Rattle.std.specs.Bool.{OnTrue, OnFalse};
ghost use mathlib.Core.List.{IsPrefix};
ghost use Rattle.std.specs.Vec.{vec_capacity};
ghost use Rattle.rtrb.specs.Ring.{sent, known_free, producer_capacity, received, known_items};
ghost use Rattle.pt_signal.specs.declared.letter.Letter.{Letter};
ghost use Rattle.pt_carrier.specs.Lanes.{Sending, Receiving, sending_ring, receiving_ring, on_lane, new_sending};
ghost use Rattle.pt_carrier.specs.Lanes.{new_receiving, AllGo};
ghost use Rattle.pt_carrier.specs.Bypass.{through};

use crate::bypass::{InBypass, OutBypass, agree, go_by, halves};
use pt_signal::Letter;
use rtrb::{Consumer, Producer, RingBuffer};
use std::alloc::{AllocError, Global};
use std::marker::Model;

/// The sending end.
#[derive(Drop)]
pub(crate) struct OutLane {
    ring: Producer<Letter>,
    from: u8,
    to: u8,
    count: u64,
    bypass: OutBypass,
}

impl Model for OutLane {
    ghost Value = { Sending };

    ghost view = { λ a. record {
      ring = sending_ring a.bypass.name a.ring;
      from = a.from;
      to = a.to;
      posted = map (on_lane a.from a.to) (through a.bypass.log a.bypass.count (sent a.ring));
      capacity = producer_capacity a.ring;
      seen = (length (through a.bypass.log a.bypass.count (sent a.ring)) + known_free a.ring)
          - producer_capacity a.ring;
    } };

    ghost invariant = { λ a. (a.count ≡ min (length (through a.bypass.log a.bypass.count (sent a.ring))) (2 ^ 64 - 1))
        × (producer_capacity a.ring ≤ length (through a.bypass.log a.bypass.count (sent a.ring)) + known_free a.ring)
        × (0 < producer_capacity a.ring) × (a.bypass.count ≤ length (sent a.ring)) };
}

/// The receiving end.
#[derive(Drop)]
pub(crate) struct InLane {
    ring: Consumer<Letter>,
    from: u8,
    to: u8,
    count: u64,
    bypass: InBypass,
}

impl Model for InLane {
    ghost Value = { Receiving };

    ghost view = { λ a. record {
      ring = receiving_ring a.bypass.name a.ring;
      from = a.from;
      to = a.to;
      collected = map (on_lane a.from a.to) (through a.bypass.log a.bypass.count (received a.ring));
      known = map (on_lane a.from a.to) (known_items a.ring);
    } };

    ghost invariant = { λ a.
        (a.count ≡ min (length (through a.bypass.log a.bypass.count (received a.ring))) (2 ^ 64 - 1))
        × (a.bypass.count ≤ length (received a.ring)) };
}

impl OutLane {
    /// Whether no place is free. It asks first what is known already, which leaves the other end's memory alone.
    #[inline(always)]
    pub(crate) fn is_full(&mut self) -> bool
        ensures same { (self.new.ring ≡ self.old.ring) × (self.new.from ≡ self.old.from) × (self.new.to ≡ self.old.to)
            × (self.new.posted ≡ self.old.posted) }
        ensures full { OnTrue result (length self.new.posted ≡ self.new.capacity + self.new.seen) }
        ensures room { OnFalse result (length self.new.posted < self.new.capacity + self.new.seen) }
        ensures known { length self.old.posted < self.old.capacity + self.old.seen → result ≡ false }
        ensures knows { (self.new.capacity ≡ self.old.capacity) × (self.old.seen ≤ self.new.seen) }
    {
        self.ring.is_full()
    }

    /// Posts the letter into a place that is known to be free.
    #[inline(always)]
    pub(crate) fn post_reserved(&mut self, letter: Letter)
        requires names { (letter.from.shard ≡ self.old.from) × (letter.to.shard ≡ self.old.to) }
        requires room { length self.old.posted < self.old.capacity + self.old.seen }
        ensures same { (self.new.ring ≡ self.old.ring) × (self.new.from ≡ self.old.from) × (self.new.to ≡ self.old.to) }
        ensures posted { self.new.posted ≡ self.old.posted ++ letter ∷ [] }
        ensures knows { (self.new.capacity ≡ self.old.capacity) × (self.new.seen ≡ self.old.seen) }
    {
        self.ring.push_reserved(letter);
        self.count = self.count.saturating_add(1);
    }

    /// Posts as many of the letters, from the first on, as there are places for, and returns their number.
    ///
    /// All of them show at the other end at once. Posted one after the other, each would be shown alone.
    #[inline(always)]
    pub(crate) fn post_run(&mut self, letters: &[Letter]) -> usize
        requires { AllGo self.old.from self.old.to letters.now }
        ensures same { (self.new.ring ≡ self.old.ring) × (self.new.from ≡ self.old.from) × (self.new.to ≡ self.old.to) }
        ensures posted { self.new.posted ≡ self.old.posted ++ take result letters.now }
        ensures within { result ≤ length letters.now }
        ensures full { result < length letters.now → length self.new.posted ≡ self.new.capacity + self.new.seen }
        ensures room { length self.old.posted + length letters.now ≤ self.old.capacity + self.old.seen
            → result ≡ length letters.now }
        ensures knows { (self.new.capacity ≡ self.old.capacity) × (self.old.seen ≤ self.new.seen) }
    {
        let (posted, _rest) = self.ring.push_partial_slice(letters);
        let count = posted.len();
        self.count = self.count.saturating_add(count as u64);
        count
    }

    /// Whether so many places are known to be free.
    #[inline(always)]
    pub(crate) fn has_places(&self, count: usize) -> bool
        ensures { result ≡ true → length self.now.posted + count ≤ self.now.capacity + self.now.seen }
    {
        count <= self.ring.cached_slots()
    }

    /// The number of letters posted.
    pub(crate) fn posted(&self) -> u64
        ensures { result ≡ min (length self.now.posted) (2 ^ 64 - 1) }
    {
        self.count
    }
}

impl InLane {
    /// Whether a letter shows. It asks first what is known already, which leaves the other end's memory alone.
    #[inline(always)]
    pub(crate) fn shows(&mut self) -> bool
        ensures same { (self.new.ring ≡ self.old.ring) × (self.new.from ≡ self.old.from) × (self.new.to ≡ self.old.to)
            × (self.new.collected ≡ self.old.collected) }
        ensures looked { IsPrefix self.old.known self.new.known }
        ensures value { IsTrue result ↔ (0 < length self.new.known) }
    {
        !self.ring.is_empty()
    }

    /// The number of letters collected.
    pub(crate) fn collected(&self) -> u64
        ensures { result ≡ min (length self.now.collected) (2 ^ 64 - 1) }
    {
        self.count
    }

    /// Looks at the lane from both of its ends. Then the letters posted are those collected, followed by those known,
    /// and the sending end knows all that were collected.
    pub(crate) fn meet(&mut self, other: &mut OutLane)
        requires { (other.old.ring ≡ self.old.ring) × (other.old.from ≡ self.old.from) × (other.old.to ≡ self.old.to) }
        ensures same { (self.new.ring ≡ self.old.ring) × (self.new.from ≡ self.old.from) × (self.new.to ≡ self.old.to)
            × (self.new.collected ≡ self.old.collected) }
        ensures other { (other.new.ring ≡ other.old.ring) × (other.new.from ≡ other.old.from)
            × (other.new.to ≡ other.old.to) × (other.new.posted ≡ other.old.posted)
            × (other.new.capacity ≡ other.old.capacity) }
        ensures whole { other.new.posted ≡ self.new.collected ++ self.new.known }
        ensures seen { length self.new.collected ≤ other.new.seen }
        ensures places { 0 < other.new.capacity }
    {
        agree(&mut other.bypass, &mut self.bypass);
        other.ring.slots_beside(&mut self.ring);
        self.ring.slots_beside(&mut other.ring);
    }

    /// Counts letters as posted and as collected that go by the lane. Nothing is in it, since as many were collected as
    /// posted.
    #[inline(always)]
    pub(crate) fn go_by(&mut self, other: &mut OutLane, letters: &[Letter])
        requires lane { (other.old.ring ≡ self.old.ring) × (other.old.from ≡ self.old.from)
            × (other.old.to ≡ self.old.to) }
        requires names { AllGo self.old.from self.old.to letters.now }
        requires even { length other.old.posted ≡ length self.old.collected }
        ensures same { (self.new.ring ≡ self.old.ring) × (self.new.from ≡ self.old.from) × (self.new.to ≡ self.old.to) }
        ensures none { (self.old.known ≡ []) × (self.new.known ≡ []) }
        ensures other { (other.new.ring ≡ other.old.ring) × (other.new.from ≡ other.old.from)
            × (other.new.to ≡ other.old.to) × (other.new.capacity ≡ other.old.capacity) }
        ensures posted { other.new.posted ≡ other.old.posted ++ letters.now }
        ensures collected { self.new.collected ≡ self.old.collected ++ letters.now }
        ensures seen { other.old.seen + length letters.now ≤ other.new.seen }
    {
        let _drained = self.is_drained(other);
        self.note_by(other, letters);
    }

    /// Whether nothing is in the lane, after a look at it from both of its ends.
    #[inline(always)]
    fn is_drained(&mut self, other: &mut OutLane) -> bool
        requires { (other.old.ring ≡ self.old.ring) × (other.old.from ≡ self.old.from) × (other.old.to ≡ self.old.to) }
        ensures same { (self.new.ring ≡ self.old.ring) × (self.new.from ≡ self.old.from) × (self.new.to ≡ self.old.to)
            × (self.new.collected ≡ self.old.collected) }
        ensures looked { IsPrefix self.old.known self.new.known }
        ensures other { (other.new.ring ≡ other.old.ring) × (other.new.from ≡ other.old.from)
            × (other.new.to ≡ other.old.to) × (other.new.posted ≡ other.old.posted)
            × (other.new.capacity ≡ other.old.capacity) × (other.old.seen ≤ other.new.seen) }
        ensures drained { result ≡ true → (self.new.known ≡ []) × (other.new.posted ≡ self.new.collected) }
        ensures even { length other.old.posted ≡ length self.old.collected → result ≡ true }
    {
        agree(&mut other.bypass, &mut self.bypass);
        self.ring.slots_beside(&mut other.ring) == 0
    }

    /// Counts letters as posted and as collected that go by the lane, in which nothing is.
    #[inline(always)]
    fn note_by(&mut self, other: &mut OutLane, letters: &[Letter])
        requires lane { (other.old.ring ≡ self.old.ring) × (other.old.from ≡ self.old.from)
            × (other.old.to ≡ self.old.to) }
        requires names { AllGo self.old.from self.old.to letters.now }
        requires drained { (self.old.known ≡ []) × (other.old.posted ≡ self.old.collected) }
        ensures same { (self.new.ring ≡ self.old.ring) × (self.new.from ≡ self.old.from) × (self.new.to ≡ self.old.to)
            × (self.new.known ≡ self.old.known) }
        ensures other { (other.new.ring ≡ other.old.ring) × (other.new.from ≡ other.old.from)
            × (other.new.to ≡ other.old.to) × (other.new.capacity ≡ other.old.capacity) }
        ensures posted { other.new.posted ≡ other.old.posted ++ letters.now }
        ensures collected { self.new.collected ≡ self.old.collected ++ letters.now }
        ensures seen { other.new.seen ≡ other.old.seen + length letters.now }
    {
        let count = letters.len() as u64;
        other.count = other.count.saturating_add(count);
        self.count = self.count.saturating_add(count);
        go_by(&mut other.bypass, &mut self.bypass, &other.ring, letters);
    }

    /// The number of letters that are known to wait.
    pub(crate) fn known(&self) -> usize
        ensures { result ≡ length self.now.known }
    {
        self.ring.cached_slots()
    }

    /// The oldest letter that is known to wait, in its place, if it names the desks of this lane.
    #[inline(always)]
    pub(crate) fn front(&self) -> Option<&Letter>
        requires { 0 < length self.now.known }
        ensures { IfSome result
            (λ letter. IsPrefix (letter.now ∷ []) self.now.known × (letter.now.from.shard ≡ self.now.from)
            × (letter.now.to.shard ≡ self.now.to)) }
    {
        let front = self.ring.peek_known();
        if front.from.shard != self.from || front.to.shard != self.to {
            return None;
        }
        Some(front)
    }

    /// The same as a copy, with the desks of this lane written into it.
    #[cold]
    #[inline(never)]
    pub(crate) fn front_addressed(&self) -> Letter
        requires { 0 < length self.now.known }
        ensures { IsPrefix (result ∷ []) self.now.known × (result.from.shard ≡ self.now.from)
            × (result.to.shard ≡ self.now.to) }
    {
        let mut letter = *self.ring.peek_known();
        letter.from.shard = self.from;
        letter.to.shard = self.to;
        letter
    }

    /// Removes the oldest letter that is known to wait. It is not moved out of its place.
    #[inline(always)]
    pub(crate) fn pass(&mut self)
        requires { 0 < length self.old.known }
        ensures same { (self.new.ring ≡ self.old.ring) × (self.new.from ≡ self.old.from) × (self.new.to ≡ self.old.to) }
        ensures passed { (letter : Letter) × (self.old.known ≡ letter ∷ self.new.known)
            × (self.new.collected ≡ self.old.collected ++ letter ∷ []) × (letter.from.shard ≡ self.old.from)
            × (letter.to.shard ≡ self.old.to) }
    {
        let _ = self.ring.pop_known();
        self.count = self.count.saturating_add(1);
    }

    /// Moves the letters that are known to wait to the end of the list, which has room for them.
    pub(crate) fn empty_into(&mut self, list: &mut Vec<Letter>)
        requires { vec_len list.old + length self.old.known ≤ vec_capacity list.old }
        ensures { list.new.items ≡ list.old.items ++ self.old.known }
    {
        for _k in 0..self.known() {
            list.push_reserved(self.front_addressed());
            self.pass();
        }
    }
}

/// The two ends of a new lane.
pub(crate) fn make(
    alloc: Global,
    from: u8,
    to: u8,
    capacity: usize,
) -> Result<(OutLane, InLane), AllocError>
    requires { 1 ≤ capacity }
    ensures out { IfOk result (λ r. r.0 ≡ new_sending r.0.ring from to capacity) }
    ensures into { IfOk result (λ r. r.1 ≡ new_receiving r.0.ring from to) }
{
    let (producer, consumer) = RingBuffer::new(alloc, capacity)?;
    let (out_bypass, in_bypass) = halves();
    let out = OutLane {
        ring: producer,
        from,
        to,
        count: 0,
        bypass: out_bypass,
    };
    let into = InLane {
        ring: consumer,
        from,
        to,
        count: 0,
        bypass: in_bypass,
    };
    Ok((out, into))
}
