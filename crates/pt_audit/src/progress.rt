//! What a person who waits is told: how much of a history was read or drawn, and how long the rest takes.

use pt_chart::{Watch, Work};
use pt_render::{Part, Progress};
use std::io::Read;
use std::rt::Runtime;
use std::{fmt, fs, io};

/// The progress of reading these files.
pub fn progress_of<R: Runtime>(rt: &R, is_watched: bool, files: &[&str]) -> Progress {
    let progress = Progress::new(rt, is_watched);
    if is_watched {
        progress.begin(rt, total_of(rt, files));
    }
    progress
}

/// The bytes of all files together, or 0 if one of them has no size.
fn total_of<R: Runtime>(rt: &R, files: &[&str]) -> u64 {
    let mut total = 0u64;
    for file in files {
        let Ok(metadata) = fs::metadata(rt, *file) else {
            return 0;
        };
        total = total.saturating_add(metadata.len());
    }
    total
}

/// A reader of which the bytes are counted. In each second from the first on it tells on standard error how many there were.
#[derive(Drop)]
pub struct Watched<'r, 'p, R, F> {
    rt: &'r R,
    progress: &'p Progress,
    from: F,
}

/// The same reader, of which the bytes are counted.
pub fn counting<'r, 'p, R: Runtime, F>(
    rt: &'r R,
    progress: &'p Progress,
    from: F,
) -> Watched<'r, 'p, R, F> {
    Watched { rt, progress, from }
}

impl<R: Runtime, F: Read> Read for Watched<'_, '_, R, F> {
    fn read(&mut self, buf: &mut [u8]) -> io::Result<usize> {
        let count = self.from.read(buf)?;
        if let Some(part) = self.progress.count(self.rt, count as u64) {
            let _ = self.rt.eprintln(Bytes(part));
        }
        Ok(count)
    }
}

/// How many bytes were read.
#[derive(Clone, Copy)]
struct Bytes(Part);

impl fmt::Display for Bytes {
    fn fmt<W: fmt::Write>(&self, f: &mut fmt::Formatter<W>) -> fmt::Result {
        match self.0.estimate() {
            Some(estimate) => {
                let (percent, left) = (estimate.percent, estimate.seconds);
                write!(f, "{percent} % read, about {left} seconds left")
            }
            None => {
                let megabytes = self.0.done / 1_000_000;
                write!(f, "{megabytes} MB read so far")
            }
        }
    }
}

/// Tells on standard error how much of a chart is drawn, in each second from the first on, if a person looks on.
#[derive(Drop)]
pub struct Drawing<'r, R> {
    rt: &'r R,
    progress: Progress,
}

/// The progress of a drawing.
pub fn drawing_of<R: Runtime>(rt: &R, is_watched: bool) -> Drawing<'_, R> {
    let progress = Progress::new(rt, is_watched);
    Drawing { rt, progress }
}

impl<R: Runtime> Watch for Drawing<'_, R> {
    fn begin(&self, _work: Work, total: Option<u64>) {
        self.progress.begin(self.rt, total.unwrap_or(0));
    }

    fn count(&self) {
        if let Some(part) = self.progress.count(self.rt, 1) {
            if let Some(estimate) = part.estimate() {
                let (percent, left) = (estimate.percent, estimate.seconds);
                let _ = eprintln!(self.rt; "{percent} % drawn, about {left} seconds left");
            }
        }
    }
}
