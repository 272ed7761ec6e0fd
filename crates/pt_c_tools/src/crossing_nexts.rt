//! What a process of a crew does next, as the struct that crosses.

ghost use Rattle.std.specs.Prelude.{◌≡◌};
ghost use Rattle.pt_c_tools.specs.Nexts.{next_in, next_out, no_next};

use pt_behaviour::Next;
use pt_c_values::crossing::{no_pick, no_reason, pick_in, pick_out, reason_in, reason_out};
use pt_c_values::types::PtNext;

/// What a process does next; none if a code is none of its enumeration.
pub fn next_in(next: PtNext) -> Option<Next>
    ensures { result ≡ next_in next }
{
    if next.code == 0 {
        let pick = pick_in(next.pick)?;
        Some(Next::Wait(pick))
    } else if next.code == 1 {
        let pick = pick_in(next.pick)?;
        Some(Next::WaitUntil(pick, next.until))
    } else if next.code == 2 {
        Some(Next::Proceed)
    } else if next.code == 3 {
        let reason = reason_in(next.reason)?;
        Some(Next::Stop(reason))
    } else if next.code == 4 {
        Some(Next::Running)
    } else {
        None
    }
}

pub fn next_out(next: Next) -> PtNext
    ensures { result ≡ next_out next }
{
    let blank = no_next();
    match next {
        Next::Wait(pick) => PtNext {
            pick: pick_out(pick),
            ..blank
        },
        Next::WaitUntil(pick, until) => PtNext {
            code: 1,
            until,
            pick: pick_out(pick),
            ..blank
        },
        Next::Proceed => PtNext { code: 2, ..blank },
        Next::Stop(reason) => PtNext {
            code: 3,
            reason: reason_out(reason),
            ..blank
        },
        Next::Running => PtNext { code: 4, ..blank },
    }
}

/// That with the code 0, whose other fields are zero.
pub fn no_next() -> PtNext
    ensures { result ≡ no_next }
{
    PtNext {
        code: 0,
        reason: no_reason(),
        until: 0,
        pick: no_pick(),
    }
}
