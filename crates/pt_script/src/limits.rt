//! The limits of the format, and the defaults of its settings.
//!
//! Reading a script needs no node, so the limits of a node's settings are the format's own here. Some repeat those of a
//! node, and `Script::config` proves that they fit.

/// The most bytes of a script's text.
pub const MAX_BYTES: usize = 1_048_576;

/// The last format.
pub const MAX_FORMAT: u64 = 3;

/// The format from which on a process can ask whether another is alive.
pub const ASKING_FORMAT: u8 = 2;

/// The format from which on lists have branches and repeats.
pub const BLOCKS_FORMAT: u8 = 3;

/// The most rounds of a repeat, and the most tries of a receive.
pub const MAX_TIMES: u64 = 65_536;

/// The most desks of a script's node.
pub const MAX_DESKS: usize = 64;

/// The most slots of a desk.
pub const MAX_SLOTS: u64 = 65_536;

/// The number of slots of a desk, if a script does not say it.
pub const DEFAULT_SLOTS: u64 = 1024;

/// The most letters that a lane holds.
pub const MAX_LANE: u64 = 65_536;

/// The number of letters that a lane holds, if a script does not say it.
pub const DEFAULT_LANE: u64 = 64;

/// The most letters that a turn handles.
pub const MAX_BUDGET: u64 = 65_536;

/// The number of letters that a turn handles, if a script does not say it.
pub const DEFAULT_BUDGET: u64 = 16;

/// The most processes of a script.
pub const MAX_PROCESSES: usize = 4096;

/// The most operations of all processes of a script.
pub const MAX_OPERATIONS: u32 = 65_536;

/// The most spawns around an operation.
pub const MAX_DEPTH: u32 = 8;

/// The most spawns around a value in any JSON text: no text nests deeper.
pub const MAX_NESTING: u32 = 63;

/// The most bytes of a name or a tag.
pub const MAX_NAME: usize = 32;
