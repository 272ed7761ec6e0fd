//! What a desk keeps of what it lost.

ghost use Rattle.std.specs.Prelude.{◌≡◌, ◌<◌, [], true, false, drop, slice_get, Some, OnOk};
ghost use Rattle.std.specs.Option.{option_copied};
ghost use Rattle.pt_shard.specs.Losses.{with_loss};

use crate::loss::Loss;
use std::alloc::{AllocError, Global};
use std::collections::VecDeque;
use std::marker::Model;

/// The losses of a desk that nobody was told of yet, if it keeps them.
#[derive(Drop)]
pub(crate) struct Losses {
    keeps: bool,
    kept: VecDeque<Loss>,
}

impl Model for Losses {
    ghost use Rattle.std.specs.Prelude.{◌-◌};
    ghost use Rattle.std.specs.VecDeque.{deque_capacity, deque_len};
    ghost use Rattle.pt_shard.specs.LossesState.{LossesState};

    ghost Value = { LossesState };

    ghost view = { λ l. record {
      keeps = l.keeps;
      kept = l.kept.items;
      room = deque_capacity l.kept - deque_len l.kept;
    } };
}

impl Losses {
    /// None, and none are kept.
    pub(crate) fn new(alloc: Global) -> Losses
        ensures keeps { result.keeps ≡ false }
        ensures kept { result.kept ≡ [] }
    {
        Losses {
            keeps: false,
            kept: VecDeque::new(alloc),
        }
    }

    /// Sets whether losses are kept from now on. Those that were kept stay until they are told.
    pub(crate) fn set_keeps(&mut self, on: bool)
        ensures { self.new ≡ record self.old { keeps = on } }
    {
        self.keeps = on;
    }

    /// Whether losses are kept.
    #[inline(always)]
    pub(crate) fn keeps(&self) -> bool
        ensures { result ≡ self.now.keeps }
    {
        self.keeps
    }

    /// Makes room for one more, if losses are kept.
    #[inline(always)]
    pub(crate) fn reserve(&mut self) -> Result<(), AllocError>
        ensures keeps { self.new.keeps ≡ self.old.keeps }
        ensures kept { self.new.kept ≡ self.old.kept }
        ensures room { OnOk result (self.new.keeps ≡ true → 0 < self.new.room) }
    {
        if !self.keeps {
            return Ok(());
        }
        self.kept.reserve(1)
    }

    /// Adds a loss, if losses are kept. There is room for it then.
    pub(crate) fn add(&mut self, loss: Loss)
        requires { self.old.keeps ≡ true → 0 < self.old.room }
        ensures keeps { self.new.keeps ≡ self.old.keeps }
        ensures kept { self.new.kept ≡ with_loss self.old.keeps (Some loss) self.old.kept }
    {
        if self.keeps {
            self.kept.push_back_reserved(loss);
        }
    }

    /// The loss with this number, the oldest first.
    pub(crate) fn at(&self, place: usize) -> Option<&Loss>
        ensures { option_copied result ≡ slice_get self.now.kept place }
    {
        self.kept.get(place)
    }

    /// Takes out the oldest.
    pub(crate) fn next(&mut self) -> Option<Loss>
        ensures first { result ≡ slice_get self.old.kept 0 }
        ensures keeps { self.new.keeps ≡ self.old.keeps }
        ensures rest { self.new.kept ≡ drop 1 self.old.kept }
    {
        self.kept.pop_front()
    }
}
