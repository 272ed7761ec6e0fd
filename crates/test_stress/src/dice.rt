//! Numbers that look random, and are the same for the same seed.

/// A linear congruential generator, of which the upper bits are used.
#[derive(Clone, Copy, Debug)]
pub(crate) struct Dice {
    state: u64,
}

impl Dice {
    pub(crate) fn new(seed: u64) -> Dice {
        Dice { state: seed }
    }

    /// The next number below `limit`, or 0 where the limit is 0.
    pub(crate) fn below(&mut self, limit: u64) -> u64 {
        self.state = self
            .state
            .wrapping_mul(6_364_136_223_846_793_005)
            .wrapping_add(1_442_695_040_888_963_407);
        if limit == 0 {
            0
        } else {
            (self.state >> 33) % limit
        }
    }
}
