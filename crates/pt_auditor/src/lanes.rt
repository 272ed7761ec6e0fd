//! The letters on their way from each desk to each desk.

ghost use Rattle.std.specs.Prelude.{◌≡◌, ◌++◌, ◌∷◌, [], drop, slice_get, IfOk, OnOk};
ghost use Rattle.pt_auditor.specs.Lanes.{IsLaid, letters_laid};

use indexmap::IndexMap;
use pt_signal::Letter;
use std::alloc::{AllocError, Global};
use std::collections::VecDeque;
use std::marker::Model;

/// The letters from one desk to another, oldest first.
#[derive(Drop)]
struct Queue {
    letters: VecDeque<Letter>,
}

impl Model for Queue {
    ghost use Rattle.std.specs.Prelude.{List};
    ghost use Rattle.pt_signal.specs.declared.letter.Letter.{Letter};

    ghost Value = { List Letter };

    ghost view = { λ q. q.letters.items };
}

impl Queue {
    fn of(alloc: Global, letter: Letter) -> Result<Queue, AllocError>
        ensures { IfOk result (λ queue. queue ≡ letter ∷ []) }
    {
        let mut letters = VecDeque::new(alloc);
        letters.push_back(letter)?;
        Ok(Queue { letters })
    }

    fn first(&self) -> Option<Letter>
        ensures { result ≡ slice_get self.now 0 }
    {
        self.letters.get(0).copied()
    }

    fn push(&mut self, letter: Letter) -> Result<(), AllocError>
        ensures { OnOk result (self.new ≡ self.old ++ letter ∷ []) }
    {
        self.letters.push_back(letter)?;
        Ok(())
    }

    fn pop(&mut self)
        ensures { self.new ≡ drop 1 self.old }
    {
        let _ = self.letters.pop_front();
    }
}

/// The letters on their way, by the desk of the sender and that of the receiver.
pub(crate) struct Lanes {
    alloc: Global,
    pairs: IndexMap<(u8, u8), Queue>,
}

impl Model for Lanes {
    ghost use Rattle.pt_auditor.specs.Lanes.{Laid};

    ghost Value = { Laid };

    ghost view = { λ l. l.pairs.entries };
}

// By hand, so that each drop of it is a call: a derived drop is proved field by field at each place that drops a value.
impl Drop for Lanes {
    fn drop(self) {
        let Lanes { alloc: _, pairs: _ } = self;
    }
}

impl Lanes {
    /// Nothing is on its way.
    pub(crate) fn new(alloc: Global) -> Lanes
        ensures { result ≡ [] }
    {
        Lanes {
            alloc,
            pairs: IndexMap::new(alloc),
        }
    }

    /// The oldest letter from the one desk to the other.
    pub(crate) fn first(&self, from: u8, to: u8) -> Option<Letter>
        ensures { result ≡ slice_get (letters_laid self.now from to) 0 }
    {
        match self.pairs.get(&(from, to)) {
            Some(queue) => queue.first(),
            None => None,
        }
    }

    /// The letter is behind those of its desks.
    pub(crate) fn push(&mut self, letter: Letter) -> Result<(), AllocError>
        ensures { OnOk result (IsLaid letter.from.shard letter.to.shard
            (letters_laid self.old letter.from.shard letter.to.shard ++ letter ∷ []) self.old self.new) }
    {
        match self.pairs.get_mut(&(letter.from.shard, letter.to.shard)) {
            Some(queue) => queue.push(letter),
            None => self.open(letter),
        }
    }

    /// A lane more, of one letter.
    fn open(&mut self, letter: Letter) -> Result<(), AllocError>
        ensures { OnOk result (IsLaid letter.from.shard letter.to.shard (letter ∷ []) self.old self.new) }
    {
        let queue = Queue::of(self.alloc, letter)?;
        self.pairs
            .insert((letter.from.shard, letter.to.shard), queue)?;
        Ok(())
    }

    /// The oldest letter from the one desk to the other goes.
    pub(crate) fn pop(&mut self, from: u8, to: u8)
        ensures { IsLaid from to (drop 1 (letters_laid self.old from to)) self.old self.new }
    {
        let Some(queue) = self.pairs.get_mut(&(from, to)) else {
            return;
        };
        queue.pop();
    }
}
