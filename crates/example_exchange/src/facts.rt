//! What the clerk is told: the kinds of the messages to it. Each speaks of a line by its place, or of a caller by its
//! number.

/// A line was started. The message has its process.
pub const STARTS: u32 = 0;

/// A line has its name.
pub const HAS_NAME: u32 = 1;

/// A line begins to ring.
pub const RINGS: u32 = 2;

/// A line gives up, since nobody has picked up.
pub const GIVES_UP: u32 = 3;

/// A line turns a caller away.
pub const IS_BUSY: u32 = 4;

/// Somebody picks up at a line.
pub const PICKS_UP: u32 = 5;

/// The caller has hung up in time: nobody has picked up, and the alarm is cancelled.
pub const STOPS: u32 = 6;

/// A line is free again: its caller has hung up, or has exited.
pub const IS_FREE: u32 = 7;

/// The process of a line has exited, and nobody has its name.
pub const HAS_NO_NAME: u32 = 8;

/// A caller looks its line up, and gets a process or none. The message has the process.
pub const FINDS: u32 = 21;

/// A caller hears that the line is busy.
pub const HEARS_BUSY: u32 = 22;

/// A caller hears that nobody picks up.
pub const HEARS_NOBODY: u32 = 23;

/// A caller is connected.
pub const TALKS: u32 = 24;

/// A caller ends its call.
pub const HANGS_UP: u32 = 25;

/// A caller loses patience, and hangs up.
pub const IS_TIRED: u32 = 26;

/// A caller loses patience, and does not hang up.
pub const FORGETS: u32 = 27;

/// A caller gets an answer after it had lost patience.
pub const IS_TOO_LATE: u32 = 28;

/// A caller makes a noise that no line survives.
pub const IS_LOUD: u32 = 29;

/// A caller gets the `DOWN` of its line.
pub const IS_CUT_OFF: u32 = 30;

/// A caller cannot ask its line, as the line has exited or there is no memory.
pub const FAILS: u32 = 31;
