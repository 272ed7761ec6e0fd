//! What hears how far a program is with its work.

/// What takes its time.
#[derive(Clone, Copy, Debug, PartialEq, Eq)]
pub enum Work {
    /// The desks take their turns.
    Run,
    /// What each event of a history changed is found.
    Judge,
    /// A chart is drawn.
    Draw,
    /// Events are printed.
    Print,
}

/// Hears how far a program is with its work. Several threads may tell it at a time.
pub trait Watch {
    /// This work begins. Its parts are counted from the first one on, and there are so many, if that is known.
    fn begin(&self, work: Work, total: Option<u64>);

    /// One more part of the work is done.
    fn count(&self);
}

/// A watch that hears nothing.
#[derive(Clone, Copy, Debug)]
pub struct Unwatched;

impl Watch for Unwatched {
    fn begin(&self, _work: Work, _total: Option<u64>) {}

    fn count(&self) {}
}
