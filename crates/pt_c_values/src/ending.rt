//! The code of a call that gives up what a handle has.

ghost use Rattle.std.specs.Prelude.{◌≡◌, cond};

/// The call succeeded.
const DONE: u32 = 0;

/// The handle has nothing.
const EMPTY: u32 = 9;

/// The code of giving up what a handle has, by whether it had something.
pub fn end_code(full: bool) -> u32
    ensures { result ≡ cond full 0 9 }
{
    if full { DONE } else { EMPTY }
}
