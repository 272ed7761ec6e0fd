//! The choices for a run of a script: how its desks are run, for how many turns and epochs or until when, and what is
//! printed.
//!
//! The reader of a command line makes these values, and the runner of a script takes them. Neither knows of the other.

ghost use Rattle.std.specs.Prelude.{◌≡◌};

/// The most turns that can be asked for.
pub const MOST_TURNS: u64 = 1_000_000;

/// The most epochs that can be asked for.
pub const MOST_EPOCHS: u64 = 1_000_000;

/// The version of the programs, as `--version` prints it after the program's name.
pub const VERSION: &str = "0.1.0";

/// How the desks are run.
#[derive(Clone, Copy, Debug, PartialEq, Eq)]
pub enum Mode {
    /// All on the calling thread, in rounds: the same script gives the same history each time.
    Single,
    /// Each on a thread of its own.
    Many,
}

/// When an epoch ends.
#[derive(Clone, Copy, Debug, PartialEq, Eq)]
pub enum Until {
    /// Once each desk has taken its turns.
    Turns,
    /// Once nothing more can happen: each desk takes its turns again and again until then, at most 1,000,000 in all.
    Quiet,
}

/// What is printed.
#[derive(Clone, Copy, Debug, PartialEq, Eq)]
pub enum Show {
    /// A line for each process, once the letters in flight have arrived.
    Summary,
    /// A line for each event, and a line for each letter in flight.
    History,
    /// The events as a message sequence chart in SVG.
    Chart,
    /// The events, and the letters in flight, as a sequence diagram of Mermaid.
    Mermaid,
    /// The events, and the letters in flight, as JSON, one object in each line.
    Json,
    /// The same, each event with what it changed.
    Steps,
    /// The same as a page for a browser, which shows what each process is at any event.
    Page,
}

/// What is asked for, beside the script.
#[derive(Clone, Copy, Debug, PartialEq, Eq)]
pub struct Options {
    /// How the desks are run.
    pub threads: Mode,
    /// The number of turns that each desk takes in each epoch, at most 1,000,000.
    pub turns: u64,
    /// When an epoch ends.
    pub until: Until,
    /// The number of epochs, 1 to 1,000,000. Between two of them the node is gathered, settled and resumed.
    pub epochs: u64,
    /// What is printed.
    pub print: Show,
    /// Whether a fault, and each process of a summary, is explained in a second line.
    pub explain: bool,
}

/// At most 1,000,000 turns and as many epochs can be asked for. Other clauses cite these limits by name only.
pub fn limits_stand()
    ensures turns { MOST_TURNS ≡ 1000000 }
    ensures epochs { MOST_EPOCHS ≡ 1000000 }
{}
