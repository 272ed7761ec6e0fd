//! What a person who waits is told: how much of the work is done, and how long the rest takes.

use pt_render::{Part, Progress};
use pt_report::{Watch, Work};
use std::fmt;
use std::rt::Runtime;
use std::sync::atomic::{AtomicU8, Ordering};

/// Tells on standard error how much of the work is done, in each second from the first on, if a person looks on.
#[derive(Drop)]
pub struct Told<'a, R> {
    rt: &'a R,
    progress: Progress,
    /// The place of the work in the list of words.
    work: AtomicU8,
}

/// What is said of work that is done in part.
static WORDS: [&str; 4] = ["run", "judged", "drawn", "printed"];

fn place_of(work: Work) -> u8 {
    match work {
        Work::Run => 0,
        Work::Judge => 1,
        Work::Draw => 2,
        Work::Print => 3,
    }
}

impl<'a, R: Runtime> Told<'a, R> {
    pub fn new(rt: &'a R, is_watched: bool) -> Told<'a, R> {
        Told {
            rt,
            progress: Progress::new(rt, is_watched),
            work: AtomicU8::new(0),
        }
    }
}

impl<R: Runtime> Watch for Told<'_, R> {
    fn begin(&self, work: Work, total: Option<u64>) {
        self.work.store(place_of(work), Ordering::SeqCst);
        self.progress.begin(self.rt, total.unwrap_or(0));
    }

    fn count(&self) {
        if let Some(part) = self.progress.count(self.rt, 1) {
            let place = usize::from(self.work.load(Ordering::SeqCst));
            let word = WORDS.get(place).copied().unwrap_or("done");
            let _ = self.rt.eprintln(Done { part, word });
        }
    }
}

/// How much was done. If its end is not known, that is turns.
#[derive(Clone, Copy)]
struct Done {
    part: Part,
    word: &'static str,
}

impl fmt::Display for Done {
    fn fmt<W: fmt::Write>(&self, f: &mut fmt::Formatter<W>) -> fmt::Result {
        let word = self.word;
        match self.part.estimate() {
            Some(estimate) => {
                let (percent, left) = (estimate.percent, estimate.seconds);
                write!(f, "{percent} % {word}, about {left} seconds left")
            }
            None => {
                let turns = self.part.done;
                write!(f, "{turns} turns so far")
            }
        }
    }
}
