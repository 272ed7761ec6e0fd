//! The parts of a chart, by rows and columns.

use crate::layout::Arrow;
use pt_events::Stamped;
use pt_signal::{Pid, Reason};

/// One thing that is drawn.
#[derive(Clone, Copy)]
pub(crate) enum Part {
    /// The ground of a column, which shows its desk.
    Ground {
        column: usize,
        desk: u8,
    },
    /// The name of a desk, above its first column.
    Desk {
        column: usize,
        desk: u8,
    },
    /// The line of a column, from head to foot.
    Column {
        column: usize,
    },
    /// The life of a process, from the row of its birth to that of its exit, or to the last one.
    Life {
        column: usize,
        born: usize,
        ended: Option<usize>,
    },
    /// The label of a letter, beside its arrow.
    Saying(Letter),
    /// The arrow of a letter.
    Flight(Letter),
    /// The mark of an event, in its row.
    Mark {
        row: usize,
        mark: Mark,
    },
    /// The cross of an exit, with the reason.
    End {
        row: usize,
        column: usize,
        reason: Reason,
    },
    /// The name of a process, above a row.
    Name {
        row: usize,
        column: usize,
        pid: Pid,
    },
    /// The line of an event in the title of its row, and its stamp. It may be the first and the last one of its row.
    Line {
        row: usize,
        event: Stamped,
        first: bool,
        last: bool,
    },
}

/// A letter, from the column of its sender.
#[derive(Clone, Copy)]
pub(crate) struct Letter {
    pub column: usize,
    /// Where it goes, from row to row.
    pub arrow: Arrow,
    /// Whether its receipt ends the receiver.
    pub ends: bool,
    /// The row in which its arrow ends: that of its receipt, or one of its own below all others.
    pub tip: usize,
}

/// What marks an event.
#[derive(Clone, Copy)]
pub(crate) enum Mark {
    /// The stroke from a process to the child that it spawns.
    Bearing {
        parent: usize,
        child: usize,
        by: Pid,
        linked: bool,
    },
    /// The box of a birth.
    Birth {
        column: usize,
    },
    /// The dot of an item that is taken.
    Taking {
        column: usize,
    },
    /// The square of a change of `trap_exit`.
    Trapping {
        column: usize,
        on: bool,
    },
    /// A failed call, at its caller, with the process that had exited.
    Refusal {
        column: usize,
        to: Pid,
    },
}
