//! A reader whose lines have a bound.

use std::io;
use std::io::{ErrorKind, Read};

/// The most bytes of a line.
pub const MOST_BYTES: usize = 65_536;

/// A reader that fails once a line is longer than `MOST_BYTES`, so that no input takes all memory.
#[derive(Drop)]
pub struct Bounded<R> {
    inner: R,
    /// The bytes that came since the last line feed.
    since: usize,
}

impl<R> Bounded<R> {
    pub fn new(inner: R) -> Bounded<R> {
        Bounded { inner, since: 0 }
    }

    /// Whether it failed for a line that is too long.
    pub fn is_over(&self) -> bool {
        self.since > MOST_BYTES
    }
}

impl<R: Read> Read for Bounded<R> {
    fn read(&mut self, buf: &mut [u8]) -> io::Result<usize> {
        let count = self.inner.read(buf)?;
        self.since = since_line_feed(self.since, &buf[..count.min(buf.len())]);
        if self.is_over() {
            return Err(io::Error::from(ErrorKind::InvalidData));
        }
        Ok(count)
    }
}

/// The bytes since the last line feed, when these come after so many others. A line that is too long stays so.
fn since_line_feed(before: usize, bytes: &[u8]) -> usize {
    let mut since = before;
    for byte in bytes {
        since = if since > MOST_BYTES {
            since
        } else if *byte == b'\n' {
            0
        } else {
            since.saturating_add(1)
        };
    }
    since
}
