//! The ends of one desk.

ghost use Rattle.std.specs.Prelude.{◌≡◌, ◌≢◌, ℕ, ◌⊎◌, ◌+◌, ◌*◌, ◌-◌, ◌%◌, ◌^◌, ◌<◌, ◌≤◌, min, length, [], IsOk, OnOk};
ghost use Rattle.std.specs.Prelude.{IfErr, IfSome, IfNone, true, false, slice_index_or, take};
ghost use Rattle.std.specs.Bool.{OnTrue, OnFalse};
ghost use Rattle.pt_signal.specs.declared.letter.Letter.{Letter};
ghost use Rattle.pt_signal.specs.declared.config.TheConstants.{MAX_DESKS};
ghost use Rattle.pt_signal.specs.Boxes.{one_more};
ghost use Rattle.pt_carrier.specs.Ends.{OutEnds, InEnds, out_ends, in_ends, GoOutFrom, ComeInTo, more_of};
ghost use Rattle.pt_carrier.specs.Ends.{IsFull, HasPlace, HasPlaces, LooksAt, Collects, Shows, ShowNone};
ghost use Rattle.pt_carrier.specs.Ends.{IsFirstFromCursor, IsFront, looking_from};
ghost use Rattle.pt_carrier.specs.Lanes.{AllGo};
ghost use Rattle.pt_carrier.specs.Node.{lists};
ghost use Rattle.pt_carrier.specs.Meeting.{HaveMet, Meets};
ghost use Rattle.pt_carrier.specs.Bypass.{IsEven, GoesBy};
ghost use Rattle.pt_carrier.specs.Reunion.{VectorHasRoom, room_at};

use crate::lane::{InLane, OutLane};
use pt_signal::Letter;
use std::marker::Model;
use thiserror::Error;

/// The ends by which a desk posts, one for each lane to a desk.
///
/// They cannot be dropped: [`reunite`](crate::reunite) takes them.
pub struct Outs {
    number: u8,
    lanes: Vec<OutLane>,
}

impl Model for Outs {
    ghost Value = { OutEnds };

    ghost view = { λ o. out_ends o.number o.lanes.items };

    ghost invariant = { λ o. (o.number < length o.lanes.items) × (length o.lanes.items ≤ MAX_DESKS)
        × GoOutFrom o.number o.lanes.items };
}

/// The ends by which a desk collects, one for each lane from a desk.
///
/// They cannot be dropped: [`reunite`](crate::reunite) takes them.
pub struct Ins {
    number: u8,
    cursor: u8,
    lanes: Vec<InLane>,
}

impl Model for Ins {
    ghost Value = { InEnds };

    ghost view = { λ i. in_ends i.number i.cursor i.lanes.items };

    ghost invariant = { λ i. (i.number < length i.lanes.items) × (length i.lanes.items ≤ MAX_DESKS)
        × (i.cursor < length i.lanes.items) × ComeInTo i.number i.lanes.items };
}

/// Why a letter was not posted.
#[derive(Clone, Copy, Debug, PartialEq, Eq, Error)]
pub enum PostCause {
    /// Its lane has no free place.
    #[error("the lane is full")]
    Full,
}

/// A letter that was not posted.
#[derive(Clone, Copy, Debug, PartialEq, Eq, Error)]
#[error("letter refused: {cause}")]
pub struct Refused {
    /// Why it was not posted.
    pub cause: PostCause,
    /// The letter, as it was to be posted.
    pub letter: Letter,
}

/// The desk after desk `d`, round the node. It avoids a division, since a collect takes this step for each letter.
fn next_desk(d: u8, desks: usize) -> u8
    requires { (d < desks) × (desks ≤ MAX_DESKS) }
    ensures { result ≡ (d + 1) % desks }
{
    if usize::from(d) + 1 == desks {
        0
    } else {
        d + 1
    }
}

impl Outs {
    pub(crate) fn new(number: u8, lanes: Vec<OutLane>) -> Outs
        requires { (number < length lanes.items) × (length lanes.items ≤ MAX_DESKS) × GoOutFrom number lanes.items }
        ensures { result ≡ out_ends number lanes.items }
    {
        Outs { number, lanes }
    }

    /// Posts a letter from a process of this desk to one of desk `to`.
    ///
    /// The letter comes after all that were posted there before. Fails with the letter and `Full`, and posts nothing,
    /// only if the lane is full. Then, after another look, the letters posted to that desk less those that this end
    /// knows to be collected are as many as the capacity. It takes no memory, and waits for no thread.
    #[inline(always)]
    pub fn post(&mut self, to: u8, letter: Letter) -> Result<(), Refused>
        requires to { to < length self.old.place.rings }
        requires from_here { letter.from.shard ≡ self.old.place.number }
        requires to_there { letter.to.shard ≡ to }
        ensures place { self.new.place ≡ self.old.place }
        ensures ok { OnOk result (self.new.posted ≡ one_more self.old.posted to letter) }
        ensures cause { IfErr result (λ e. e.cause ≡ PostCause.Full) }
        ensures full { IfErr result
            (λ e. (e.letter ≡ letter) × (self.new.posted ≡ self.old.posted) × IsFull self.new to) }
        ensures room { HasPlace self.old to → IsOk result }
        ensures capacity { self.new.capacity ≡ self.old.capacity }
        ensures looks { LooksAt self.old self.new to }
    {
        if self.is_full(to) {
            return Err(Refused {
                cause: PostCause::Full,
                letter,
            });
        }
        self.post_reserved(to, letter);
        Ok(())
    }

    /// Whether the lane to desk `to` is full. Then, after another look, the letters posted to that desk less those that
    /// this end knows to be collected are as many as the capacity.
    ///
    /// This and `post_reserved` together do what `post` does, for a caller that takes a letter only if there is a place
    /// for it. It takes no memory, and waits for no thread.
    #[inline(always)]
    pub fn is_full(&mut self, to: u8) -> bool
        requires { to < length self.old.place.rings }
        ensures same { (self.new.place ≡ self.old.place) × (self.new.posted ≡ self.old.posted)
            × (self.new.capacity ≡ self.old.capacity) }
        ensures full { OnTrue result (IsFull self.new to) }
        ensures room { OnFalse result (HasPlace self.new to) }
        ensures known { HasPlace self.old to → result ≡ false }
        ensures looks { LooksAt self.old self.new to }
    {
        self.lanes[usize::from(to)].is_full()
    }

    /// Posts a letter as `post` does, if the lane is known to have a place for it.
    #[inline(always)]
    pub fn post_reserved(&mut self, to: u8, letter: Letter)
        requires to { to < length self.old.place.rings }
        requires from_here { letter.from.shard ≡ self.old.place.number }
        requires to_there { letter.to.shard ≡ to }
        requires room { HasPlace self.old to }
        ensures same { (self.new.place ≡ self.old.place) × (self.new.capacity ≡ self.old.capacity)
            × (self.new.seen ≡ self.old.seen) }
        ensures posted { self.new.posted ≡ one_more self.old.posted to letter }
    {
        self.lanes[usize::from(to)].post_reserved(letter);
    }

    /// Posts as many of the letters, from the first on, as the lane to desk `to` has places for, and returns their
    /// number.
    ///
    /// They come after all that were posted there before, in their order. One step of the ring posts them all: it costs
    /// less than as many calls of `post`, and they show at the other end together. If it is fewer than there are, the
    /// lane is full, after another look. It takes no memory, and waits for no thread.
    #[inline(always)]
    pub fn post_run(&mut self, to: u8, letters: &[Letter]) -> usize
        requires to { to < length self.old.place.rings }
        requires names { AllGo self.old.place.number to letters.now }
        ensures same { (self.new.place ≡ self.old.place) × (self.new.capacity ≡ self.old.capacity) }
        ensures posted { self.new.posted ≡ more_of self.old.posted to (take result letters.now) }
        ensures within { result ≤ length letters.now }
        ensures full { result < length letters.now → IsFull self.new to }
        ensures room { HasPlaces self.old to (length letters.now) → result ≡ length letters.now }
        ensures looks { LooksAt self.old self.new to }
    {
        self.lanes[usize::from(to)].post_run(letters)
    }

    /// Whether so many places of the lane to desk `to` are known to be free. It looks at nothing: if it returns `false`,
    /// there may still be as many.
    #[inline(always)]
    pub fn has_places(&self, to: u8, count: usize) -> bool
        requires { to < length self.now.place.rings }
        ensures { result ≡ true → HasPlaces self.now to count }
    {
        self.lanes[usize::from(to)].has_places(count)
    }

    /// The number of letters posted to desk `to`, staying at `u64::MAX` once it is reached.
    pub fn posted(&self, to: u8) -> u64
        requires { to < length self.now.place.rings }
        ensures { result ≡ min (length (slice_index_or self.now.posted to [])) (2 ^ 64 - 1) }
    {
        self.lanes[usize::from(to)].posted()
    }

    /// Gives up the ends of a desk, for a node that is given up whole.
    ///
    /// The node can then never be reunited, since that takes the ends of every desk. So no promise about a reunited or
    /// gathered node holds for it. The other desks' ends still work: what they post to this desk stays in its lane, and
    /// posting fails once the lane is full. It is public because the node that gives up its desks is in a crate above.
    /// A program that keeps its node has no use for it.
    pub fn close(self) {
        let Outs {
            number: _,
            lanes: _,
        } = self;
    }
}

impl Ins {
    pub(crate) fn new(number: u8, lanes: Vec<InLane>) -> Ins
        requires { (number < length lanes.items) × (length lanes.items ≤ MAX_DESKS) × ComeInTo number lanes.items }
        ensures { result ≡ in_ends number 0 lanes.items }
    {
        Ins {
            number,
            cursor: 0,
            lanes,
        }
    }

    /// Collects a letter, and returns it with the desk that it is from.
    ///
    /// It looks at the lanes from the cursor upwards and round. It takes the oldest letter of the first lane that shows
    /// one, and the cursor moves to the desk after that one; it begins at desk 0. It returns `None` only if this end
    /// knows no letter of any lane, and the cursor then stays. It takes no memory, and waits for no thread. It is
    /// `next_from` followed by `take`; with `front` between them a caller has the letter by reference, before it is
    /// moved.
    #[inline(always)]
    pub fn collect(&mut self) -> Option<(u8, Letter)>
        ensures place { self.new.place ≡ self.old.place }
        ensures some { IfSome result (λ r. Collects self.old self.new r.0 r.1) }
        ensures first { IfSome result (λ r. IsFirstFromCursor self.old self.new r.0) }
        ensures none { IfNone result
            ((self.new.collected ≡ self.old.collected) × (self.new.cursor ≡ self.old.cursor)
            × ShowNone self.old self.new 0 (length self.old.place.rings)) }
    {
        let Some(d) = self.next_from() else {
            return None;
        };
        let letter = self.take(d);
        Some((d, letter))
    }

    /// Moves the cursor to desk `from`: the next look at the lanes begins there.
    ///
    /// A caller that chooses the order of lanes takes this call before each collect.
    pub fn look_from(&mut self, from: u8)
        requires { from < length self.old.place.rings }
        ensures { self.new ≡ looking_from from self.old }
    {
        self.cursor = from;
    }

    /// The desk of the next letter to be collected: the first from the cursor upwards and round whose lane shows a
    /// letter.
    ///
    /// Nothing is collected, and the cursor stays. It returns `None` only if this end knows no letter of any lane.
    #[inline(always)]
    pub fn next_from(&mut self) -> Option<u8>
        ensures same { (self.new.place ≡ self.old.place) × (self.new.cursor ≡ self.old.cursor)
            × (self.new.collected ≡ self.old.collected) }
        ensures some { IfSome result (λ d. Shows self.old self.new d × IsFirstFromCursor self.old self.new d) }
        ensures none { IfNone result (ShowNone self.old self.new 0 (length self.old.place.rings)) }
    {
        let cursor = usize::from(self.cursor);
        let desks = self.lanes.len();
        if let Some(d) = self.first_among(cursor, desks) {
            return Some(d);
        }
        self.first_among(0, cursor)
    }

    /// The same, among the desks from `low` up to below `high`.
    #[inline(always)]
    fn first_among(&mut self, low: usize, high: usize) -> Option<u8>
        requires { (low ≤ high) × (high ≤ length self.old.place.rings) }
        ensures same { (self.new.place ≡ self.old.place) × (self.new.cursor ≡ self.old.cursor)
            × (self.new.collected ≡ self.old.collected) }
        ensures some { IfSome result
            (λ d. (low ≤ d) × (d < high) × Shows self.old self.new d × ShowNone self.old self.new low d) }
        ensures none { IfNone result (ShowNone self.old self.new low high) }
        ensures others { (k : ℕ) → (k < low) ⊎ (high ≤ k)
            → slice_index_or self.new.known k [] ≡ slice_index_or self.old.known k [] }
    {
        for d in low..high {
            if self.lanes[d].shows() {
                return Some(d as u8);
            }
        }
        None
    }

    /// The oldest letter that is known to wait in the lane from desk `from`, in its place.
    ///
    /// It is the one that `take` returns. It returns `None` only if the letter does not name the two desks of its lane.
    /// Every letter that was posted names them, but the receiving end cannot see that, and no clause says when. So a
    /// caller must continue with `front_addressed` then.
    #[inline(always)]
    pub fn front(&self, from: u8) -> Option<&Letter>
        requires { (from < length self.now.place.rings) × (0 < length (slice_index_or self.now.known from [])) }
        ensures { IfSome result (λ letter. IsFront self.now from letter.now) }
    {
        self.lanes[usize::from(from)].front()
    }

    /// The same as a copy, with the two desks of its lane written into it.
    #[cold]
    #[inline(never)]
    pub fn front_addressed(&self, from: u8) -> Letter
        requires { (from < length self.now.place.rings) × (0 < length (slice_index_or self.now.known from [])) }
        ensures { IsFront self.now from result }
    {
        self.lanes[usize::from(from)].front_addressed()
    }

    /// Collects the oldest letter that is known to wait in the lane from desk `from`.
    ///
    /// The cursor moves to the desk after that one.
    #[inline(always)]
    pub fn take(&mut self, from: u8) -> Letter
        requires { (from < length self.old.place.rings) × (0 < length (slice_index_or self.old.known from [])) }
        ensures collects { Collects self.old self.new from result }
        ensures place { self.new.place ≡ self.old.place }
        ensures others { (k : ℕ) → k ≢ from → slice_index_or self.new.known k [] ≡ slice_index_or self.old.known k [] }
    {
        let letter = match self.front(from) {
            Some(front) => *front,
            None => self.front_addressed(from),
        };
        self.pass(from);
        letter
    }

    /// Removes the oldest letter that is known to wait in the lane from desk `from`, as `take` does, but moves nothing.
    ///
    /// It is for a caller that is done with what `front` showed: moving a letter out costs as much as handling it.
    #[inline(always)]
    pub fn pass(&mut self, from: u8)
        requires { (from < length self.old.place.rings) × (0 < length (slice_index_or self.old.known from [])) }
        ensures collects { (letter : Letter) × Collects self.old self.new from letter }
        ensures place { self.new.place ≡ self.old.place }
        ensures others { (k : ℕ) → k ≢ from → slice_index_or self.new.known k [] ≡ slice_index_or self.old.known k [] }
    {
        self.lanes[usize::from(from)].pass();
        self.cursor = next_desk(from, self.lanes.len());
    }

    /// The number of letters collected from desk `from`, staying at `u64::MAX` once it is reached.
    pub fn collected(&self, from: u8) -> u64
        requires { from < length self.now.place.rings }
        ensures { result ≡ min (length (slice_index_or self.now.collected from [])) (2 ^ 64 - 1) }
    {
        self.lanes[usize::from(from)].collected()
    }

    /// Looks at the lane from the other desk, from both of its ends.
    ///
    /// This end then knows each letter in the lane, and the other end knows how many were collected. They know no more
    /// of other lanes than before. It is for a caller that has both desks, and takes no memory.
    pub fn meet(&mut self, outs: &mut Outs)
        requires { Meets outs.old self.old }
        ensures { HaveMet outs.old self.old outs.new self.new }
    {
        let from = usize::from(outs.number);
        let to = usize::from(self.number);
        self.lanes[from].meet(&mut outs.lanes[to]);
    }

    /// Counts letters of this desk to itself as posted and as collected, without moving them into the lane and out.
    ///
    /// Nothing is in that lane, since as many letters were collected from it as were posted. So they come after all of
    /// these, in their order. The cursor stays. It is for a caller that has both ends and has handled the letters.
    #[inline(always)]
    pub fn go_by(&mut self, outs: &mut Outs, letters: &[Letter])
        requires same { outs.old.place.number ≡ self.old.place.number }
        requires meets { Meets outs.old self.old }
        requires names { AllGo self.old.place.number self.old.place.number letters.now }
        requires even { IsEven outs.old self.old }
        ensures { GoesBy letters.now outs.old self.old outs.new self.new }
    {
        let own = usize::from(self.number);
        self.lanes[own].go_by(&mut outs.lanes[own], letters);
    }

    /// The number of letters from that desk that are known to wait.
    pub(crate) fn known(&self, from: usize) -> usize
        requires { from < length self.now.place.rings }
        ensures { result ≡ length (slice_index_or self.now.known from []) }
    {
        self.lanes[from].known()
    }

    /// Gives up the ends, and moves the letters that are known to wait to the lists of their lanes.
    pub(crate) fn empty_into(self, left: &mut [Vec<Letter>])
        requires here { self.place.number < length self.place.rings }
        requires room { (d : ℕ) → d < length self.place.rings
            → VectorHasRoom (slice_index_or self.known d []) left.old (d * length self.place.rings + self.place.number) }
        ensures known { (d : ℕ) → d < length self.place.rings
            → slice_index_or (lists left.new) (d * length self.place.rings + self.place.number) []
            ≡ slice_index_or self.known d [] }
        ensures others { (d e : ℕ) → e < length self.place.rings → e ≢ self.place.number
            → room_at left.new (d * length self.place.rings + e) ≡ room_at left.old (d * length self.place.rings + e) }
    {
        let Ins {
            number,
            cursor: _,
            lanes,
        } = self;
        let mut lanes = lanes;
        let desks = lanes.len();
        for d in 0..desks {
            lanes[d].empty_into(&mut left[d * desks + usize::from(number)]);
        }
    }

    /// Gives up the ends of a desk, for a node that is given up whole: the other half of [`Outs::close`].
    ///
    /// The letters in a lane are lost once both of its ends are given up.
    pub fn close(self) {
        let Ins {
            number: _,
            cursor: _,
            lanes: _,
        } = self;
    }
}
