//! The limits of a node's settings, and the settings by default, told as numbers.

ghost use Rattle.std.specs.Prelude.{◌≡◌, ◌^◌};

use crate::config::{Config, MAX_DESKS, MAX_LANE, MAX_SLOTS, MAX_STAMP};

/// A node has at most 64 desks, a desk at most 65,536 slots, and a lane holds at most 65,536 letters. Stamps go up to
/// 4,611,686,018,427,387,904, and that is 2^62. The definitions of all crates cite these limits by their names alone.
///
/// It does nothing: the law is its contract.
pub fn limits_stand()
    ensures desks { MAX_DESKS ≡ 64 }
    ensures slots { MAX_SLOTS ≡ 65536 }
    ensures lane { MAX_LANE ≡ 65536 }
    ensures stamp { MAX_STAMP ≡ 4611686018427387904 }
    ensures power { MAX_STAMP ≡ 2 ^ 62 }
{}

/// The settings that a node has where nobody asks for others.
///
/// It does nothing: the law is its contract.
pub fn defaults_stand()
    ensures { Config.DEFAULT ≡ record { desks = 1; slots = 1024; top_version = 4294967295; lane = 64; start = 0 } }
{}
