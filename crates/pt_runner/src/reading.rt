//! The next operation of a list that is to be done: branches that are not taken are passed over.

ghost use Rattle.std.specs.Prelude.{◌≡◌, Some};
ghost use Rattle.pt_runner.specs.Acting as spec;

use crate::calls::{References, pick_of};
use pt_script::{Operation, Pattern};
use pt_workers::{Item, Pid};

/// How a list is read on.
#[derive(Clone, Copy)]
pub(crate) enum Reading {
    /// The next operation is to be done.
    Here,
    /// It is in a branch that is not taken, inside so many others. The branch may also stop at an `Else`.
    Over { depth: usize, stops: bool },
}

/// Which branches are taken behind an operation: those that the item fits which it took.
#[derive(Clone, Copy)]
pub(crate) struct Branching<'a> {
    pub(crate) pids: &'a [Option<Pid>],
    pub(crate) references: &'a References,
    /// The item, if it took one.
    pub(crate) taken: Option<Item>,
}

impl Branching<'_> {
    /// Whether an `If` with this pattern does what follows it.
    fn takes(&self, pattern: Pattern) -> bool
        ensures { result ≡ spec.fits_if_taken self.now.pids.now self.now.references.now.items self.now.taken pattern }
    {
        let Some(item) = self.taken else {
            return false;
        };
        match pick_of(self.pids, self.references, pattern) {
            Some(pick) => pick.fits(&item),
            None => false,
        }
    }

    /// How a list is read on behind this operation, if it only begins or ends a block or is passed over.
    fn past(&self, reading: Reading, operation: Operation) -> Option<Reading>
        ensures { result ≡ spec.past_mark (spec.fits_if_taken self.now.pids.now self.now.references.now.items self.now.taken) reading
            operation }
    {
        match reading {
            Reading::Here => self.past_here(operation),
            Reading::Over { depth, stops } => Some(past_over(depth, stops, operation)),
        }
    }

    /// The same if the operation would be done next.
    fn past_here(&self, operation: Operation) -> Option<Reading>
        ensures { result ≡ spec.past_here (spec.fits_if_taken self.now.pids.now self.now.references.now.items self.now.taken) operation }
    {
        match operation {
            Operation::If(pattern) if self.takes(pattern) => Some(Reading::Here),
            Operation::If(_) => Some(Reading::Over {
                depth: 0,
                stops: true,
            }),
            Operation::Else => Some(Reading::Over {
                depth: 0,
                stops: false,
            }),
            Operation::End => Some(Reading::Here),
            _ => None,
        }
    }

    /// The place of the next operation that is to be done, from this place on.
    pub(crate) fn next_place(&self, operations: &[Operation], place: usize) -> usize
        ensures { result ≡ spec.next_place (spec.fits_if_taken self.now.pids.now self.now.references.now.items self.now.taken) operations.now
            place }
    {
        let mut next = place;
        let mut reading = Reading::Here;
        while next < operations.len() {
            let Some(behind) = self.past(reading, operations[next]) else {
                break;
            };
            reading = behind;
            next += 1;
        }
        next
    }
}

/// How a list is read on behind an operation of a branch that is not taken.
fn past_over(depth: usize, stops: bool, operation: Operation) -> Reading
    ensures { result ≡ spec.past_over depth stops operation }
{
    match operation {
        Operation::If(_) => Reading::Over {
            depth: depth.saturating_add(1),
            stops,
        },
        Operation::Else if stops && depth == 0 => Reading::Here,
        Operation::End if depth == 0 => Reading::Here,
        Operation::End => Reading::Over {
            depth: depth - 1,
            stops,
        },
        _ => Reading::Over { depth, stops },
    }
}
