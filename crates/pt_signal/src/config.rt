//! The settings of a node, and their limits.

ghost use Rattle.std.specs.Prelude.{◌≡◌};
ghost use Rattle.std.specs.Bool.{MatchBool};
ghost use Rattle.std.specs.Option.{MatchOption};
ghost use Rattle.pt_signal.specs.Settings.{IsFirstOut, IsInRange};

use std::fmt;
use thiserror::Error;

/// The most desks of a node.
pub const MAX_DESKS: u8 = 64;

/// The most slots of a desk.
pub const MAX_SLOTS: u32 = 65_536;

/// The most letters that a lane holds.
pub const MAX_LANE: u32 = 65_536;

/// The greatest stamp: 2^62. A clock that has reached it is worn, and its desk writes no more events.
pub const MAX_STAMP: u64 = 4_611_686_018_427_387_904;

/// The settings of a node. [`Config::DEFAULT`] has each in its range, and `Config::DEFAULT.with_desks(2)` another
/// number of desks.
#[derive(Clone, Copy, Debug, PartialEq, Eq)]
pub struct Config {
    /// How many desks: 1 to 64.
    pub desks: u8,
    /// How many slots a desk has, so how many of its processes can be alive at once: 1 to 65,536.
    pub slots: u32,
    /// The greatest version of a slot; a slot that had it is retired: 1 to 4,294,967,295.
    pub top_version: u32,
    /// How many letters a lane holds: 1 to 65,536.
    pub lane: u32,
    /// Where the clocks start: 0 to 2^62.
    pub start: u64,
}

/// A setting of a node.
#[derive(Clone, Copy, Debug, PartialEq, Eq)]
pub enum Setting {
    /// How many desks.
    Desks,
    /// How many slots a desk has.
    Slots,
    /// The greatest version of a slot.
    TopVersion,
    /// How many letters a lane holds.
    Lane,
    /// Where the clocks start.
    Start,
}

/// Why a node is not opened.
#[derive(Clone, Copy, Debug, PartialEq, Eq, Error)]
pub enum OpenError {
    /// This setting is out of its range, and those before it are in theirs.
    #[error("a setting is out of its range: {0}")]
    Bounds(Setting),
    /// There was no memory.
    #[error("there was no memory")]
    Memory,
}

impl Config {
    /// One desk of 1,024 slots with all versions, lanes of 64 letters, and clocks that start at 0.
    pub const DEFAULT: Config = Config {
        desks: 1,
        slots: 1_024,
        top_version: u32::MAX,
        lane: 64,
        start: 0,
    };

    /// The same settings with so many desks.
    pub fn with_desks(self, desks: u8) -> Config
        ensures { result ≡ record self { desks = desks } }
    {
        Config { desks, ..self }
    }

    /// The same settings with so many slots a desk.
    pub fn with_slots(self, slots: u32) -> Config
        ensures { result ≡ record self { slots = slots } }
    {
        Config { slots, ..self }
    }

    /// The same settings with this greatest version of a slot.
    pub fn with_top_version(self, top_version: u32) -> Config
        ensures { result ≡ record self { top_version = top_version } }
    {
        Config {
            top_version,
            ..self
        }
    }

    /// The same settings with lanes of so many letters.
    pub fn with_lane(self, lane: u32) -> Config
        ensures { result ≡ record self { lane = lane } }
    {
        Config { lane, ..self }
    }

    /// The same settings with clocks that start there.
    pub fn with_start(self, start: u64) -> Config
        ensures { result ≡ record self { start = start } }
    {
        Config { start, ..self }
    }

    /// Whether every setting is in its range.
    pub fn is_in_range(&self) -> bool
        ensures { MatchBool result (IsInRange self.now) (¬ IsInRange self.now) }
    {
        self.out_of_range().is_none()
    }

    /// The first setting that is out of its range, in the order of the fields; none exactly where all are in theirs.
    pub fn out_of_range(&self) -> Option<Setting>
        ensures { MatchOption result (IsInRange self.now)
            (λ setting. (¬ IsInRange self.now) × IsFirstOut self.now setting) }
    {
        if !(1..=MAX_DESKS).contains(&self.desks) {
            Some(Setting::Desks)
        } else if !(1..=MAX_SLOTS).contains(&self.slots) {
            Some(Setting::Slots)
        } else if self.top_version == 0 {
            Some(Setting::TopVersion)
        } else if !(1..=MAX_LANE).contains(&self.lane) {
            Some(Setting::Lane)
        } else if self.start > MAX_STAMP {
            Some(Setting::Start)
        } else {
            None
        }
    }
}

impl fmt::Display for Setting {
    fn fmt<W: fmt::Write>(&self, f: &mut fmt::Formatter<W>) -> fmt::Result {
        match self {
            Setting::Desks => write!(f, "desks"),
            Setting::Slots => write!(f, "slots"),
            Setting::TopVersion => write!(f, "top_version"),
            Setting::Lane => write!(f, "lane"),
            Setting::Start => write!(f, "start"),
        }
    }
}
