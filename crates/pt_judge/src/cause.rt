//! Why an event may not come.

use std::error::Error;
use std::fmt;

/// Why an event may not stand where it does; the lowest that fits is given.
#[derive(Clone, Copy, Debug, PartialEq, Eq)]
pub enum Cause {
    /// The pid was born before.
    BornTwice,
    /// Who says, takes, flags, leaves or is refused is not alive, or the parent of a birth is not.
    NotAlive,
    /// What came is not the oldest signal on its way from that sender to that receiver.
    NotFront,
    /// What was taken is not the first waiting item that the pick fits.
    NotFirstMatch,
    /// The sender may not say that signal then, or the id of the link was made before, or the process that a call
    /// was refused for has not ended.
    Unlawful,
    /// There was no memory to judge the event.
    Memory,
}

impl fmt::Display for Cause {
    ghost use Rattle.std.specs.Prelude.{Some};
    ghost use Rattle.pt_judge.specs.Text.{cause_text};

    ghost output = { λ c. Some (cause_text c) };

    fn fmt<W: fmt::Write>(&self, f: &mut fmt::Formatter<W>) -> fmt::Result {
        f.write_str(match *self {
            Cause::BornTwice => "the pid was born before",
            Cause::NotAlive => "the process is not alive",
            Cause::NotFront => "an older signal of the two is on its way",
            Cause::NotFirstMatch => "it is not the first waiting item that fits",
            Cause::Unlawful => "it is not lawful then",
            Cause::Memory => "there was no memory",
        })
    }
}

impl Error for Cause {}
