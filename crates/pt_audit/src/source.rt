//! One file of a history, line by line.

use crate::refusal::{Refusal, unread};
use pt_auditor::MOST_LINE;
use pt_events::Stamped;
use pt_texts::{LeftOver, parse_left_over, parse_stamped};
use std::alloc::{AllocError, Global};
use std::io::Read;

/// The number of bytes that are read at once.
pub const PIECE: usize = 65_536;

/// A file, and its next line.
pub struct Source<R> {
    reader: R,
    /// Its place among the files.
    file: usize,
    piece: Vec<u8>,
    /// The number of bytes of the piece that were read, and the place of the next.
    filled: usize,
    place: usize,
    line: Vec<u8>,
    number: u64,
    is_open: bool,
    /// Whether the line has no line feed, as the file is over.
    is_torn: bool,
    event: Option<Stamped>,
}

// By hand, so that each drop of it is a call.
impl<R: Drop> Drop for Source<R> {
    fn drop(self) {
        let Source {
            reader: _,
            file: _,
            piece: _,
            filled: _,
            place: _,
            line: _,
            number: _,
            is_open: _,
            is_torn: _,
            event: _,
        } = self;
    }
}

impl<R: Read + Drop> Source<R> {
    pub fn new(alloc: Global, file: usize, reader: R) -> Result<Source<R>, AllocError> {
        match vec![in alloc; 0u8; PIECE] {
            Ok(piece) => Ok(Source {
                reader,
                file,
                piece,
                filled: 0,
                place: 0,
                line: Vec::new(alloc),
                number: 0,
                is_open: true,
                is_torn: false,
                event: None,
            }),
            Err(error) => Err(error),
        }
    }

    /// The place of the file among all.
    pub fn file(&self) -> usize {
        self.file
    }

    /// Whether there is a line.
    pub fn is_open(&self) -> bool {
        self.is_open
    }

    /// Whether the line has no line feed, as the file is over.
    pub fn is_torn(&self) -> bool {
        self.is_torn
    }

    /// The line, without its line feed. If it is too long, it has one byte more than a line may have.
    pub fn line(&self) -> &[u8] {
        self.line.as_slice()
    }

    /// The number of the line, from 1 on.
    pub fn number(&self) -> u64 {
        self.number
    }

    /// The event of the line, if it is one.
    pub fn event(&self) -> Option<Stamped> {
        self.event
    }

    /// The letter left over of the line, if it is one.
    pub fn left_over(&self) -> Option<LeftOver> {
        parse_left_over(bare(self.line.as_slice())).ok()
    }

    /// Whether the line comes before that of the other: events by stamp and desk, and then all other lines.
    pub fn is_before(&self, other: &Source<R>) -> bool {
        match (self.event, other.event) {
            (Some(one), Some(two)) => one.stamp < two.stamp
                || (one.stamp == two.stamp && one.desk < two.desk),
            (Some(_), None) => true,
            _ => false,
        }
    }

    /// Reads the next line.
    pub fn advance(&mut self) -> Result<(), Refusal> {
        match self.read_line() {
            Ok(is_open) => self.is_open = is_open,
            Err(refusal) => return Err(refusal),
        }
        self.number = self.number.saturating_add(1);
        self.event = event_of(self.line.as_slice());
        Ok(())
    }

    fn read_line(&mut self) -> Result<bool, Refusal> {
        self.line.clear();
        for _ in 0..u64::MAX {
            let Some(byte) = self.next_byte()? else {
                self.is_torn = self.line.len() > 0;
                return Ok(self.is_torn);
            };
            if byte == 10 || self.line.len() > MOST_LINE {
                return Ok(true);
            }
            if self.line.push(byte).is_err() {
                return Err(Refusal::Memory);
            }
        }
        Ok(false)
    }

    fn read_piece(&mut self) -> Result<usize, Refusal> {
        match self.reader.read(self.piece.as_mut_slice()) {
            Ok(count) => Ok(count),
            Err(error) => Err(unread(self.file, error)),
        }
    }

    fn next_byte(&mut self) -> Result<Option<u8>, Refusal> {
        if self.place >= self.filled {
            match self.read_piece() {
                Ok(count) => self.filled = count,
                Err(refusal) => return Err(refusal),
            }
            self.place = 0;
        }
        if self.place >= self.filled || self.place >= self.piece.len() {
            return Ok(None);
        }
        let byte = self.piece[self.place];
        self.place += 1;
        Ok(Some(byte))
    }
}

/// The line without a carriage return at its end.
fn bare(line: &[u8]) -> &[u8] {
    let len = line.len();
    if len > 0 && line[len - 1] == 13 {
        &line[..len - 1]
    } else {
        line
    }
}

fn event_of(line: &[u8]) -> Option<Stamped> {
    parse_stamped(bare(line)).ok()
}
