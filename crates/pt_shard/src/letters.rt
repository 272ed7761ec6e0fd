//! The letters for one desk.

ghost use Rattle.std.specs.Prelude.{◌≡◌, ◌+◌, ◌<◌, ◌≤◌, ◌++◌, ◌∷◌, [], length, drop, slice_get, OnOk};

use pt_signal::Letter;
use std::alloc::{AllocError, Global};
use std::marker::Model;

/// The letters that wait for one desk, oldest first.
///
/// Removing one moves no other. If a letter finds no room after the others, the places of removed ones are used again:
/// if none waits, or if more were removed than wait. So each letter that is moved was paid for by one that was removed.
#[derive(Drop)]
pub(crate) struct Letters {
    letters: Vec<Letter>,
    /// The number of letters that were removed.
    head: usize,
}

impl Model for Letters {
    ghost use Rattle.std.specs.Prelude.{◌-◌, ◌≤◌, drop, length, vec_len, vec_capacity};
    ghost use Rattle.pt_shard.specs.LettersState.{LettersState};

    ghost Value = { LettersState };

    ghost view = { λ l. record {
      letters = drop l.head l.letters.items;
      room = vec_capacity l.letters - vec_len l.letters;
    } };

    ghost invariant = { λ l. l.head ≤ length l.letters.items };
}

impl Letters {
    pub(crate) fn new(alloc: Global) -> Letters
        ensures { result.letters ≡ [] }
    {
        Letters {
            letters: Vec::new(alloc),
            head: 0,
        }
    }

    #[inline(always)]
    pub(crate) fn len(&self) -> usize
        ensures { result ≡ length self.now.letters }
    {
        self.letters.len() - self.head
    }

    #[inline(always)]
    pub(crate) fn as_slice(&self) -> &[Letter]
        ensures { result.now ≡ self.now.letters }
    {
        &self.letters[self.head..]
    }

    #[inline(always)]
    pub(crate) fn pop(&mut self) -> Option<Letter>
        ensures first { result ≡ slice_get self.old.letters 0 }
        ensures rest { self.new.letters ≡ drop 1 self.old.letters }
    {
        if self.len() == 0 {
            return None;
        }
        let letter = self.letters[self.head];
        self.pass(1);
        Some(letter)
    }

    /// Removes so many of the oldest.
    #[inline(always)]
    pub(crate) fn pass(&mut self, count: usize)
        requires { count ≤ length self.old.letters }
        ensures { self.new.letters ≡ drop count self.old.letters }
    {
        self.head += count;
        if self.head == self.letters.len() {
            self.letters.clear();
            self.head = 0;
        }
    }

    /// Makes room for so many more letters.
    #[inline(always)]
    pub(crate) fn reserve(&mut self, count: usize) -> Result<(), AllocError>
        ensures same { self.new.letters ≡ self.old.letters }
        ensures room { OnOk result (count ≤ self.new.room) }
    {
        if count <= self.letters.capacity() - self.letters.len() {
            return Ok(());
        }
        self.make_room(count)
    }

    #[inline(never)]
    fn make_room(&mut self, count: usize) -> Result<(), AllocError>
        ensures same { self.new.letters ≡ self.old.letters }
        ensures room { OnOk result (count ≤ self.new.room) }
    {
        if self.head > self.len() {
            self.letters.drain(..self.head);
            self.head = 0;
        }
        self.letters.reserve(count)
    }

    /// Adds a letter, for which there is room.
    #[inline(always)]
    pub(crate) fn push(&mut self, letter: Letter)
        requires { 0 < self.old.room }
        ensures letters { self.new.letters ≡ self.old.letters ++ letter ∷ [] }
        ensures room { self.new.room + 1 ≡ self.old.room }
    {
        self.letters.push_reserved(letter);
    }
}
