//! The words of an explained summary.

ghost use Rattle.std.specs.Prelude.{◌≡◌};
ghost use Rattle.pt_report.specs.Words.{word_text};

use pt_script::Operation;
use std::fmt;

/// How often an operation failed for want of memory or at the clock's limit, if it did.
#[derive(Clone, Copy)]
pub(crate) struct Refused(pub(crate) u64);

impl fmt::Display for Refused {
    ghost use Rattle.std.specs.Prelude.{Some};
    ghost use Rattle.pt_report.specs.Words.{refused_text};

    ghost output = { λ r. Some (refused_text r.0) };

    fn fmt<W: fmt::Write>(&self, f: &mut fmt::Formatter<W>) -> fmt::Result {
        match self.0 {
            0 => Ok(()),
            1 => f.write_str(", refused once"),
            times => write!(f, ", refused {times} times"),
        }
    }
}

/// The name of an operation in a script.
pub(crate) fn word_of(operation: Operation) -> &'static str
    ensures { result.now ≡ word_text operation }
{
    match operation {
        Operation::Send { .. } => "send",
        Operation::Receive(_) => "receive",
        Operation::Check(_) => "check",
        Operation::Link(_) => "link",
        Operation::Unlink(_) => "unlink",
        Operation::Monitor { .. } => "monitor",
        Operation::Demonitor { .. } => "demonitor",
        Operation::Alive { .. } => "alive",
        Operation::Trap(_) => "trap",
        Operation::Exit(_) => "exit",
        Operation::Signal { .. } => "signal",
        Operation::Spawn { .. } => "spawn",
        Operation::Pass => "pass",
        Operation::ReceiveAfter { .. } => "receive",
        Operation::If(_) => "if",
        Operation::Else => "else",
        Operation::End => "end",
        Operation::Repeat(_) => "repeat",
        Operation::Again => "again",
    }
}
