//! Reuniting the ends of a node.

ghost use Rattle.std.specs.Prelude.{◌≡◌, ℕ, ◌+◌, ◌*◌, ◌<◌, length, map, [], IfOk, IfErr, slice_index_or, vec_len};
ghost use Rattle.pt_carrier.specs.Ends.{OutEnds, InEnds};
ghost use Rattle.pt_carrier.specs.Node.{places, IsNode, lists, kept, AreLeft, entry};
ghost use Rattle.pt_carrier.specs.Reunion.{MeetAt, WholeAt, VectorHasRoom, all_known};

use crate::ends::{Ins, Outs};
use pt_signal::Letter;
use std::alloc::{AllocError, Global};
use std::fmt;
use std::marker::Model;
use thiserror::Error;

/// The letters that were posted and not collected.
#[derive(Drop)]
pub struct Leftovers {
    /// The lane from desk d to desk e is at d * desks + e, with its oldest letter first.
    pub lanes: Vec<Vec<Letter>>,
}

/// Why ends come back.
#[derive(Clone, Copy, Debug, PartialEq, Eq, Error)]
pub enum Cause {
    /// There was no memory for the lists of the left-over letters.
    #[error("no memory for the letters left over")]
    Memory,
}

/// The ends of a node that were not reunited.
///
/// They cannot be dropped: take them out, or abandon them. So this is no [`Error`](std::error::Error), which can be
/// dropped, but its [`cause`](EndsBack::cause) is one.
pub struct EndsBack {
    pairs: Vec<(Outs, Ins)>,
}

impl fmt::Display for EndsBack {
    fn fmt<W: fmt::Write>(&self, f: &mut fmt::Formatter<W>) -> fmt::Result {
        write!(f, "the ends come back: {}", self.cause())
    }
}

impl Model for EndsBack {
    ghost use Rattle.std.specs.Prelude.{List};
    ghost use Rattle.pt_carrier.specs.Ends.{OutEnds, InEnds};

    ghost Value = { List (OutEnds × InEnds) };

    ghost view = { λ b. b.pairs.items };
}

impl EndsBack {
    /// Why the ends come back.
    pub fn cause(&self) -> Cause
        ensures { result ≡ Cause.Memory }
    {
        Cause::Memory
    }

    /// The ends, in order of desk.
    pub fn into_ends(self) -> Vec<(Outs, Ins)>
        ensures { result.items ≡ self }
    {
        let EndsBack { pairs } = self;
        pairs
    }

    /// Gives up the ends. The letters in the lanes are lost.
    pub fn abandon(self) {
        let EndsBack { mut pairs } = self;
        while let Some((outs, ins)) = pairs.pop() {
            outs.close();
            ins.close();
        }
        pairs.destroy_empty();
    }
}

/// Brings all ends of one [`open`](crate::open) together, in order of desk, and returns the letters left over.
///
/// For each pair of desks, the letters posted are those collected, followed by those left over. Fails only if there is
/// no memory. All ends then come back in order, with what they posted and collected, the capacity of each lane and each
/// cursor unchanged. The ends may know more of each other than before, which no call shows.
pub fn reunite(alloc: Global, pairs: Vec<(Outs, Ins)>) -> Result<Leftovers, EndsBack>
    requires { IsNode (map places pairs.items) }
    ensures ok { IfOk result (λ left. AreLeft pairs.items (lists left.lanes.items)) }
    ensures back { IfErr result (λ back. map kept back ≡ map kept pairs.items) }
{
    let mut pairs = pairs;
    look(&mut pairs);
    match make_room(alloc, &pairs) {
        Ok(mut lanes) => {
            empty_all(pairs, &mut lanes);
            Ok(Leftovers { lanes })
        }
        Err(_) => Err(EndsBack { pairs }),
    }
}

/// Looks at every lane.
fn look(pairs: &mut [(Outs, Ins)])
    requires { IsNode (map places pairs.old) }
    ensures kept { map kept pairs.new ≡ map kept pairs.old }
    ensures whole { (d e : ℕ) → d < length pairs.old → e < length pairs.old → WholeAt pairs.new d e }
{
    let desks = pairs.len();
    for d in 0..desks {
        for e in 0..desks {
            meet_at(pairs, d, e);
        }
    }
}

/// Looks at the lane from desk d to desk e.
fn meet_at(pairs: &mut [(Outs, Ins)], d: usize, e: usize)
    requires node { IsNode (map places pairs.old) }
    requires within { (d < length pairs.old) × (e < length pairs.old) }
    ensures { MeetAt pairs.old pairs.new d e }
{
    if d == e {
        let (outs, ins) = &mut pairs[d];
        ins.meet(outs);
    } else if d < e {
        let (front, back) = pairs.split_at_mut(e);
        back[0].1.meet(&mut front[d].0);
    } else {
        let (front, back) = pairs.split_at_mut(d);
        front[e].1.meet(&mut back[0].0);
    }
}

/// An empty list for each lane, with room for the letters that are known to wait in it.
fn make_room(alloc: Global, pairs: &[(Outs, Ins)]) -> Result<Vec<Vec<Letter>>, AllocError>
    requires { IsNode (map places pairs.now) }
    ensures count { IfOk result (λ v. vec_len v ≡ length pairs.now * length pairs.now) }
    ensures room { IfOk result
        (λ v. (d e : ℕ) → d < length pairs.now → e < length pairs.now
        → VectorHasRoom (entry (all_known pairs.now) e d) v.items (d * length pairs.now + e)) }
{
    let mut lanes = Vec::new(alloc);
    for d in 0..pairs.len() {
        for e in 0..pairs.len() {
            lanes.push(Vec::with_capacity(alloc, pairs[e].1.known(d))?)?;
        }
    }
    Ok(lanes)
}

/// Gives up the ends, and moves the letters that are known to wait to the lists of their lanes.
fn empty_all(pairs: Vec<(Outs, Ins)>, left: &mut [Vec<Letter>])
    requires node { IsNode (map places pairs.items) }
    requires room { (d e : ℕ) → d < vec_len pairs → e < vec_len pairs
        → VectorHasRoom (entry (all_known pairs.items) e d) left.old (d * vec_len pairs + e) }
    ensures { (d e : ℕ) → d < vec_len pairs → e < vec_len pairs
        → slice_index_or (lists left.new) (d * vec_len pairs + e) [] ≡ entry (all_known pairs.items) e d }
{
    let mut pairs = pairs;
    while let Some((outs, ins)) = pairs.pop() {
        outs.close();
        ins.empty_into(left);
    }
    pairs.destroy_empty();
}
