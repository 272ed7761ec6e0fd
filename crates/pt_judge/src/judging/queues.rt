//! The numbers of the letters on their way between each two processes.

ghost use Rattle.std.specs.Prelude.{◌≡◌, ◌++◌, ◌∷◌, [], drop, length, slice_get, nat_eq, IfOk, OnOk};
ghost use Rattle.pt_judge.specs.Filing.{IsQueued, queue_of};

use indexmap::IndexMap;
use pt_signal::Pid;
use std::alloc::{AllocError, Global};
use std::collections::VecDeque;
use std::marker::Model;

/// The numbers of the letters from one process to another, oldest first.
#[derive(Drop)]
struct Queue {
    numbers: VecDeque<u64>,
}

impl Model for Queue {
    ghost use Rattle.std.specs.Prelude.{ℕ, List};

    ghost Value = { List ℕ };

    ghost view = { λ q. q.numbers.items };
}

impl Queue {
    fn of(alloc: Global, number: u64) -> Result<Queue, AllocError>
        ensures { IfOk result (λ queue. queue ≡ number ∷ []) }
    {
        let mut numbers = VecDeque::new(alloc);
        numbers.push_back(number)?;
        Ok(Queue { numbers })
    }

    fn first(&self) -> Option<u64>
        ensures { result ≡ slice_get self.now 0 }
    {
        self.numbers.get(0).copied()
    }

    fn is_empty(&self) -> bool
        ensures { result ≡ nat_eq (length self.now) 0 }
    {
        self.numbers.is_empty()
    }

    fn push(&mut self, number: u64) -> Result<(), AllocError>
        ensures { OnOk result (self.new ≡ self.old ++ number ∷ []) }
    {
        self.numbers.push_back(number)?;
        Ok(())
    }

    fn pop(&mut self)
        ensures { self.new ≡ drop 1 self.old }
    {
        let _ = self.numbers.pop_front();
    }
}

/// The queues of all pairs of which letters are on their way.
#[derive(Drop)]
pub(crate) struct Queues {
    alloc: Global,
    pairs: IndexMap<(Pid, Pid), Queue>,
}

impl Model for Queues {
    ghost use Rattle.pt_judge.specs.Filing.{Queued};

    ghost Value = { Queued };

    ghost view = { λ q. q.pairs.entries };
}

impl Queues {
    pub(crate) fn new(alloc: Global) -> Queues
        ensures { result ≡ [] }
    {
        Queues {
            alloc,
            pairs: IndexMap::new(alloc),
        }
    }

    /// The number of the oldest letter from the one to the other.
    pub(crate) fn first(&self, from: Pid, to: Pid) -> Option<u64>
        ensures { result ≡ slice_get (queue_of self.now from to) 0 }
    {
        match self.pairs.get(&(from, to)) {
            Some(queue) => queue.first(),
            None => None,
        }
    }

    /// The number is behind those of the two.
    pub(crate) fn push(&mut self, from: Pid, to: Pid, number: u64) -> Result<(), AllocError>
        ensures { OnOk result (IsQueued from to (queue_of self.old from to ++ number ∷ []) self.old self.new) }
    {
        match self.pairs.get_mut(&(from, to)) {
            Some(queue) => queue.push(number),
            None => self.open(from, to, number),
        }
    }

    /// A queue more, of one number.
    fn open(&mut self, from: Pid, to: Pid, number: u64) -> Result<(), AllocError>
        ensures { OnOk result (IsQueued from to (number ∷ []) self.old self.new) }
    {
        let queue = Queue::of(self.alloc, number)?;
        self.pairs.insert((from, to), queue)?;
        Ok(())
    }

    /// The oldest number of the two goes, and their queue with the last.
    pub(crate) fn pop(&mut self, from: Pid, to: Pid)
        ensures { IsQueued from to (drop 1 (queue_of self.old from to)) self.old self.new }
    {
        if self.pop_first(from, to) {
            self.close(from, to);
        }
    }

    /// The oldest number of the two goes; whether none is left.
    fn pop_first(&mut self, from: Pid, to: Pid) -> bool
        ensures queued { IsQueued from to (drop 1 (queue_of self.old from to)) self.old self.new }
        ensures none { result ≡ nat_eq (length (queue_of self.new from to)) 0 }
    {
        let Some(queue) = self.pairs.get_mut(&(from, to)) else {
            return true;
        };
        queue.pop();
        queue.is_empty()
    }

    /// The queue of the two goes, in which nothing is.
    fn close(&mut self, from: Pid, to: Pid)
        ensures { IsQueued from to [] self.old self.new }
    {
        let _ = self.pairs.swap_remove(&(from, to));
    }
}
