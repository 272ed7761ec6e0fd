//! `pt_carrier`: how many letters a desk has collected from a lane.

ghost use Rattle.std.specs.Prelude.{◌≡◌, length};

use crate::compared::same;
use pt_carrier::{Ins, Outs, open};
use pt_signal::{Body, Letter, Pid, Signal};
use std::process::Abort;

const ME: Pid = Pid {
    shard: 0,
    slot: 7,
    version: 1,
};

const LETTER: Letter = Letter {
    from: ME,
    to: ME,
    signal: Signal::Message(Body {
        kind: 1,
        num: 5,
        who: None,
    }),
    stamp: 5,
};

/// A letter goes through the lane of a desk to itself.
fn passes(rt: &impl Abort, outs: &mut Outs, ins: &mut Ins)
    requires posting { (outs.old.place.number ≡ 0) × (length outs.old.place.rings ≡ 1) }
    requires collecting { length ins.old.place.rings ≡ 1 }
{
    same(rt, outs.post(0, LETTER), Ok(()));
    same(rt, ins.collected(0), 0);
    same(rt, ins.collect(), Some((0, LETTER)));
    same(rt, ins.collected(0), 1);
}

#[test]
fn a_letter_is_collected_once(rt: HostRuntime) {
    let mut ends = open(rt.alloc(), 1, 1).expect(&rt, "memory");
    let (mut outs, mut ins) = ends.remove(0);
    passes(&rt, &mut outs, &mut ins);
    outs.close();
    ins.close();
    ends.destroy_empty();
}
