//! One line of a history.

ghost use Rattle.std.specs.Prelude.{◌≡◌, max};
ghost use Rattle.pt_auditor.specs.Hearings.{Heard, IsHeard};
ghost use Rattle.pt_auditor.specs.Reading.{without_return, AuditHearsLine};

use crate::{Hearing, Why};
use pt_texts::{parse_left_over, parse_stamped};
use std::alloc::Global;

/// The line without a carriage return at its end, if it has one.
fn bare(line: &[u8]) -> &[u8]
    ensures { result.now ≡ without_return line.now }
{
    let len = line.len();
    if len > 0 && line[len - 1] == 13 {
        &line[..len - 1]
    } else {
        line
    }
}

/// The greater of two columns.
fn further(one: usize, other: usize) -> usize
    ensures { result ≡ max one other }
{
    if one < other { other } else { one }
}

/// Reads the event, or the letter left over, of the line.
pub(crate) fn hear_line(alloc: Global, hearing: Hearing, line: &[u8]) -> Result<Hearing, Why>
    ensures { (heard : Heard) → IsHeard heard hearing → AuditHearsLine heard (without_return line.now) result }
{
    let line = bare(line);
    match parse_stamped(line) {
        Ok(stamped) => match hearing.hear(alloc, stamped) {
            Ok(hearing) => Ok(hearing),
            Err(objection) => Err(Why::Event(stamped, objection)),
        },
        Err(no_event) => match parse_left_over(line) {
            Ok(left) => match hearing.tell(left) {
                Ok(hearing) => Ok(hearing),
                Err(objection) => Err(Why::Letter(left, objection)),
            },
            Err(no_letter) => Err(Why::Unread(further(no_event.column, no_letter.column))),
        },
    }
}
