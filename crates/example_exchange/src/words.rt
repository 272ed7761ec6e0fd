//! What the processes of the exchange say to each other.

ghost use Rattle.std.specs.Prelude.{◌≡◌};
ghost use Rattle.pt_desk.specs.DeskState.{GoesOn};
ghost use Rattle.pt_behaviour.specs.Behaving.{takes};

use pt_behaviour::send;
use pt_node::{Body, Desk, Pid, Reason};

/// The lines, in the order of their places. The last of them has a name alone: no telephone has it.
pub const LINES: [&str; 4] = ["line_11", "line_12", "line_13", "line_14"];

/// A request of a caller: the line is to ring.
pub const RING: u32 = 1;

/// The answer of a line at which somebody has picked up.
pub const PICKED_UP: u32 = 2;

/// The answer of a line that rings or is in a call.
pub const BUSY: u32 = 3;

/// The answer of a line that has rung for long enough.
pub const NO_ANSWER: u32 = 4;

/// The answer of the registry to a line that has its name now.
pub const NAMED: u32 = 5;

/// The answer of the registry to a line that cannot have its name.
pub const NOT_NAMED: u32 = 6;

/// A message to the registry: which process has the name of the line at this place? It says so in a message of the same
/// kind.
pub const WHEREIS: u32 = 7;

/// A message of an alarm: somebody picks up.
pub const PICK_UP: u32 = 8;

/// A message of a caller: it hangs up.
pub const HANG_UP: u32 = 9;

/// A message of a caller that no line survives.
pub const NOISE: u32 = 10;

/// The reason with which a line crashes.
pub const CRASH: Reason = Reason::Other(7);

/// The reason with which a process exits that could not make a call.
pub const REFUSED: Reason = Reason::Other(8);

/// The processes that all others know.
#[derive(Clone, Copy)]
pub struct Office {
    /// It keeps the names of the lines.
    pub registry: Pid,
    /// It writes down what happens.
    pub clerk: Pid,
}

/// A message without a process.
pub fn message(kind: u32, num: i64) -> Body {
    Body {
        kind,
        num,
        who: None,
    }
}

/// Sends a message. If the call fails, the message is lost.
#[tactic(auto, using(pt_workers::proofs::GoingOn::stays))]
pub fn tell(desk: &mut Desk, me: Pid, to: Pid, body: Body)
    ensures takes { takes desk.new.shard.journal ≡ takes desk.old.shard.journal }
    ensures goes_on { GoesOn desk.old desk.new }
{
    let _ = send(desk, me, to, body);
}
