//! Turns of a node until no letter waits in it.

ghost use Rattle.std.specs.Prelude.{◌≡◌, ◌<◌, length, map, Some, None};
ghost use Rattle.pt_workers.specs.Desks.{AreDesks, desk_kept};
ghost use Rattle.pt_workers.specs.Stillness.{AreStill, RunsRounds, TurnEach, both_rested, stop_at};
ghost use Rattle.pt_workers.specs.Looking.{AreMet, HaveLanes, MeetsAt};

use pt_desk::Desk;
use pt_shard::Stop;

/// What `turn_until_still` of a `Node` returns.
#[derive(Clone, Copy, Debug, PartialEq, Eq)]
pub struct Rested {
    /// The number of letters handled, staying at `u64::MAX` once it is reached.
    pub handled: u64,
    /// The first turn that was stopped, after whose round it ended; `None` if the node is still.
    pub stopped: Option<Stopped>,
}

/// A turn that was stopped. The letter at which it stopped stays in the hold of its desk.
#[derive(Clone, Copy, Debug, PartialEq, Eq)]
pub struct Stopped {
    /// The number of the desk that had the turn.
    pub desk: u8,
    /// Why it was stopped, as [`Turned::stopped`](pt_desk::Turned::stopped) of that turn says.
    pub cause: Stop,
}

/// Rounds of turns, each after a look at all lanes, until two in a row handled nothing, or a turn was stopped.
///
/// One such round is not enough: a desk may post in it for a desk that had its turn before. In the second each letter
/// in a lane would be handled, since its ends have looked at each other. So no letter is there, and no lane was full.
///
/// After a turn that was stopped it looks once more. Only then is it sure that each letter which was handled had been
/// posted.
pub fn until_still(desks: &mut Vec<Desk>, budget: u32) -> Rested
    requires some { 0 < budget }
    requires node { AreDesks desks.old.items }
    ensures node { AreDesks desks.new.items }
    ensures rounds { RunsRounds budget desks.old.items result desks.new.items }
    ensures still { result.stopped ≡ None → AreStill desks.new.items }
    ensures lanes { HaveLanes desks.old.items × HaveLanes desks.new.items }
{
    let mut did = Rested {
        handled: 0,
        stopped: None,
    };
    let mut quiet: u8 = 0;
    while quiet < 2 {
        meet_all(desks);
        let round = turn_each(desks, budget);
        did = both(did, round);
        if did.stopped.is_some() {
            meet_all(desks);
            return did;
        }
        quiet = if round.handled > 0 { 0 } else { quiet + 1 };
    }
    did
}

/// Gives each desk one turn, from desk 0 upwards, whether a turn before it was stopped or not.
fn turn_each(desks: &mut Vec<Desk>, budget: u32) -> Rested
    requires { AreDesks desks.old.items }
    ensures node { AreDesks desks.new.items }
    ensures turns { TurnEach budget (length desks.old.items) desks.old.items result desks.new.items }
{
    let mut did = Rested {
        handled: 0,
        stopped: None,
    };
    for d in 0..desks[0].config().desks {
        let turned = desks[usize::from(d)].turn(budget);
        let turn = Rested {
            handled: turned.handled,
            stopped: at_desk(d, turned.stopped),
        };
        did = both(did, turn);
    }
    did
}

/// What was done, with what was done after it.
fn both(before: Rested, next: Rested) -> Rested
    ensures { result ≡ both_rested before next }
{
    let stopped = match before.stopped {
        Some(first) => Some(first),
        None => next.stopped,
    };
    Rested {
        handled: before.handled.saturating_add(next.handled),
        stopped,
    }
}

/// The stop of a turn, with its desk.
fn at_desk(desk: u8, stopped: Option<Stop>) -> Option<Stopped>
    ensures { result ≡ stop_at desk stopped }
{
    match stopped {
        Some(cause) => Some(Stopped { desk, cause }),
        None => None,
    }
}

/// Looks at every lane from both of its ends.
pub fn meet_all(desks: &mut [Desk])
    requires { AreDesks desks.old }
    ensures kept { map desk_kept desks.new ≡ map desk_kept desks.old }
    ensures met { AreMet desks.new }
{
    let count = desks.len();
    for d in 0..count {
        for e in 0..count {
            meet_at(desks, d, e);
        }
    }
}

/// Looks at the lane from desk `d` to desk `e`, from both its ends. Then desk `e` knows each letter that waits there.
pub fn meet_at(desks: &mut [Desk], d: usize, e: usize)
    requires node { AreDesks desks.old }
    requires within { (d < length desks.old) × (e < length desks.old) }
    ensures { MeetsAt d e desks.old desks.new }
{
    if d == e {
        desks[d].meet_itself();
    } else if d < e {
        let (front, back) = desks.split_at_mut(e);
        back[0].meet(&mut front[d]);
    } else {
        let (front, back) = desks.split_at_mut(d);
        front[e].meet(&mut back[0]);
    }
}
