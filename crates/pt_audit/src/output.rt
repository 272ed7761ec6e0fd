//! The output: printed line by line, or kept for a drawing.

use crate::refusal::Refusal;
use pt_events::Stamped;
use std::alloc::Global;
use std::fmt::Display;
use std::io::Write;

/// A writer, the events that are to be drawn, and what was noted while reading.
pub struct Output<W> {
    pub writer: W,
    pub drawn: Vec<Stamped>,
    /// The place of the file, and the number there, of the first line that no node prints.
    pub foreign: Option<(usize, u64)>,
    /// Whether an event concerned the process that is asked for.
    pub met: bool,
    /// The number of events before the history that is read.
    pub before: u64,
}

// By hand, so that each drop of it is a call.
impl<W: Drop> Drop for Output<W> {
    fn drop(self) {
        let Output {
            writer: _,
            drawn: _,
            foreign: _,
            met: _,
            before: _,
        } = self;
    }
}

impl<W: Write + Drop> Output<W> {
    pub fn new(alloc: Global, writer: W, before: u64) -> Output<W> {
        Output {
            writer,
            drawn: Vec::new(alloc),
            foreign: None,
            met: false,
            before,
        }
    }
}

impl<W: Write> Output<W> {
    /// Prints one line.
    pub fn say<T: Display + Copy>(&mut self, line: T) -> Result<(), Refusal> {
        match writeln!(self.writer, "{line}") {
            Ok(()) => Ok(()),
            Err(error) => Err(Refusal::from(error)),
        }
    }

    /// Keeps the event for the drawing.
    pub fn keep(&mut self, event: Stamped) -> Result<(), Refusal> {
        match self.drawn.push(event) {
            Ok(()) => Ok(()),
            Err(_) => Err(Refusal::Memory),
        }
    }

    pub fn flush(&mut self) -> Result<(), Refusal> {
        match self.writer.flush() {
            Ok(()) => Ok(()),
            Err(error) => Err(Refusal::from(error)),
        }
    }
}
