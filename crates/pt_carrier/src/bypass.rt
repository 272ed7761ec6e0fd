//! What went by the ring of a lane, for clauses alone to read.
//!
//! A caller that has both ends of a lane, with nothing in the ring, can hand letters over by itself. They count as posted
//! and as collected, and each end then has to say so. The two ends are values of their own, and what they say has to
//! agree if they meet. So each has a half of one ghost value, which only both halves together can change.

ghost use Rattle.std.specs.Prelude.{◌≡◌, ℕ, List, [], ◌++◌, length};
ghost use Rattle.pt_signal.specs.declared.letter.Letter.{Letter};
ghost use Rattle.rtrb.specs.Ring.{sent};
ghost use Rattle.pt_carrier.specs.Bypass.{through};

use pt_signal::Letter;
use rtrb::Producer;
use std::marker::Model;

/// What went by, as the sending end says it: the letters that were posted when the last of them went by, and how many of
/// those went through the ring. It has no bytes.
#[derive(Drop)]
pub(crate) struct OutBypass {
    pub ghost name: { ℕ },
    pub ghost log: { List Letter },
    pub ghost count: { ℕ },
}

impl Model for OutBypass {
    ghost use Rattle.pt_carrier.specs.Bypass.{out_owns};

    ghost also_owns = { λ b. out_owns b.name b.log b.count };
}

/// The same as the receiving end says it. The two are halves of one value if they have one name.
#[derive(Drop)]
pub(crate) struct InBypass {
    pub ghost name: { ℕ },
    pub ghost log: { List Letter },
    pub ghost count: { ℕ },
}

impl Model for InBypass {
    ghost use Rattle.pt_carrier.specs.Bypass.{in_owns};

    ghost also_owns = { λ b. in_owns b.name b.log b.count };
}

// They own a ghost value alone, so they may go to any thread.
unsafe impl Send for OutBypass {}

unsafe impl Send for InBypass {}

/// The halves for a new lane, by whose ring nothing went.
pub(crate) fn halves() -> (OutBypass, InBypass)
    ensures { (result.1.name ≡ result.0.name) × (result.0.log ≡ []) × (result.0.count ≡ 0) × (result.1.log ≡ [])
        × (result.1.count ≡ 0) }
{
    (OutBypass {}, InBypass {})
}

/// Shows that the halves of one value say the same.
pub(crate) fn agree(out: &mut OutBypass, into: &mut InBypass)
    requires { into.old.name ≡ out.old.name }
    ensures { (into.old.log ≡ out.old.log) × (into.old.count ≡ out.old.count) × (out.new ≡ out.old)
        × (into.new ≡ into.old) }
{}

/// Notes that the letters went by the ring, into which so much was sent before.
pub(crate) fn go_by(
    out: &mut OutBypass,
    into: &mut InBypass,
    ring: &Producer<Letter>,
    letters: &[Letter],
)
    requires { into.old.name ≡ out.old.name }
    ensures { (into.old.log ≡ out.old.log) × (into.old.count ≡ out.old.count) × (out.new.name ≡ out.old.name)
        × (into.new.name ≡ into.old.name)
        × (out.new.log ≡ through out.old.log out.old.count (sent ring.now) ++ letters.now)
        × (into.new.log ≡ through out.old.log out.old.count (sent ring.now) ++ letters.now)
        × (out.new.count ≡ length (sent ring.now)) × (into.new.count ≡ length (sent ring.now)) }
{
    let _ = ring;
    let _ = letters;
}
