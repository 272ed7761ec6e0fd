//! What is wrong with a script, and its text.

use crate::limits::{MAX_BYTES, MAX_DEPTH, MAX_OPERATIONS, MAX_PROCESSES};
use std::fmt;

/// The name of something in a script, or its number if it has no name.
#[derive(Clone, Copy)]
pub(crate) enum Label<'a> {
    Name(&'a str),
    Index(usize),
}

impl fmt::Display for Label<'_> {
    ghost use Rattle.std.specs.Prelude.{Some};
    ghost use Rattle.pt_script.specs.WhyTexts.{member_text};

    ghost output = { λ l. Some (member_text l) };

    #[tactic(auto, unfolding(crate::specs::WhyTexts::member_text))]
    fn fmt<W: fmt::Write>(&self, f: &mut fmt::Formatter<W>) -> fmt::Result {
        match self {
            Label::Name(name) => write!(f, "{name}"),
            Label::Index(index) => write!(f, "{index}"),
        }
    }
}

/// The place in a script at which something is wrong.
#[derive(Clone, Copy)]
pub(crate) enum Scene<'a> {
    /// In the script as a whole.
    Script,
    Process(Label<'a>),
    Operation {
        process: Label<'a>,
        operation: Label<'a>,
    },
}

impl fmt::Display for Scene<'_> {
    ghost use Rattle.std.specs.Prelude.{Some};
    ghost use Rattle.pt_script.specs.WhyTexts.{where_text};

    ghost output = { λ s. Some (where_text s) };

    #[tactic(auto, unfolding(crate::specs::WhyTexts::where_text))]
    fn fmt<W: fmt::Write>(&self, f: &mut fmt::Formatter<W>) -> fmt::Result {
        match self {
            Scene::Script => f.write_str("script"),
            Scene::Process(process) => write!(f, "process {process}"),
            Scene::Operation { process, operation } => {
                write!(f, "process {process}, operation {operation}")
            }
        }
    }
}

/// A place in the text of a script. Lines begin at 1, and so do columns, which count bytes.
#[derive(Clone, Copy)]
pub(crate) struct Spot {
    pub(crate) line: usize,
    pub(crate) column: usize,
}

impl fmt::Display for Spot {
    ghost use Rattle.std.specs.Prelude.{Some};
    ghost use Rattle.pt_script.specs.WhyTexts.{spot_text};

    ghost output = { λ s. Some (spot_text s) };

    #[tactic(auto, unfolding(crate::specs::WhyTexts::spot_text))]
    fn fmt<W: fmt::Write>(&self, f: &mut fmt::Formatter<W>) -> fmt::Result {
        let Spot { line, column } = self;
        write!(f, "line {line}, column {column}")
    }
}

// What there is where a word is wrong.
const OPERATIONS: &str =
    "send, receive, check, link, unlink, monitor, demonitor, trap, exit, signal, spawn, pass, in format 2 alive, and in format 3 if, else, end, repeat, again";

const PICKS: &str = "kind, from, exit, down, and in format 2 alive";

const REASONS: &str = "normal, kill, killed, noproc, shutdown and other:N";

/// Of what there is more than scripts may have.
#[derive(Clone, Copy)]
pub(crate) enum Limit {
    Bytes,
    Signed,
    Reasons,
    Slots,
    Processes,
    Operations,
    /// Operations, where those of each round of a repeat count.
    Rounds,
    Depth,
}

/// What is wrong with an operation that begins or ends a block.
#[derive(Clone, Copy)]
pub(crate) enum Stray {
    /// An `if` that is not behind an operation which takes an item.
    NoItem,
    /// It is for an `if`, and the innermost block around it is none.
    NoIf,
    /// It is an `else` that is not the first one directly inside an `if`.
    NoFirstElse,
    /// It is for a `repeat`, and the innermost block around it is none.
    NoRepeat,
    /// It begins a block that does not end.
    Open,
}

/// What is wrong with it.
#[derive(Clone, Copy)]
pub(crate) enum Wrong {
    NoUtf8,
    NoJson,
    EndsEarly,
    NoObject,
    Unknown,
    /// It has an unknown member, and its name must not be repeated.
    HasUnknown,
    Missing,
    NoWhole,
    NoFlag,
    NoText,
    NoList,
    NoName,
    NoReason,
    NoPick,
    NoOperation,
    /// This format has it, which is a later one.
    Later(u64),
    OutOfRange { least: u64, most: u64 },
    Over(Limit),
    OutOfScope,
    Taken,
    /// It begins or ends a block, and may not stand where it does.
    Block(Stray),
    /// It is refused, and nothing more can be said of it.
    Refused,
}

impl fmt::Display for Limit {
    ghost use Rattle.std.specs.Prelude.{Some};
    ghost use Rattle.pt_script.specs.WhyTexts.{limit_text};

    ghost output = { λ l. Some (limit_text l) };

    #[tactic(auto, unfolding(crate::specs::WhyTexts::limit_text))]
    fn fmt<W: fmt::Write>(&self, f: &mut fmt::Formatter<W>) -> fmt::Result {
        match self {
            Limit::Bytes => write!(f, "has more than {MAX_BYTES} bytes"),
            Limit::Signed => f.write_str("is above 9223372036854775807"),
            Limit::Reasons => f.write_str("has a number above 4294967295"),
            Limit::Slots => f.write_str("is one process more than its desk has slots"),
            Limit::Processes => write!(f, "is one process more than {MAX_PROCESSES}"),
            Limit::Operations => write!(f, "is one operation more than {MAX_OPERATIONS}"),
            Limit::Rounds => write!(
                f,
                "is one operation more than {MAX_OPERATIONS}, with those of each round of a repeat"
            ),
            Limit::Depth => write!(f, "is inside {MAX_DEPTH} other spawns"),
        }
    }
}

impl fmt::Display for Stray {
    ghost use Rattle.std.specs.Prelude.{Some};
    ghost use Rattle.pt_script.specs.WhyTexts.{stray_text};

    ghost output = { λ s. Some (stray_text s) };

    #[tactic(auto, unfolding(crate::specs::WhyTexts::stray_text))]
    fn fmt<W: fmt::Write>(&self, f: &mut fmt::Formatter<W>) -> fmt::Result {
        match self {
            Stray::NoItem => {
                f.write_str("is not directly behind a receive, a check, an if or an else")
            }
            Stray::NoIf => f.write_str("is not directly inside an if"),
            Stray::NoFirstElse => f.write_str("is not the first else directly inside an if"),
            Stray::NoRepeat => f.write_str("is not directly inside a repeat"),
            Stray::Open => f.write_str("begins a block that does not end"),
        }
    }
}

impl fmt::Display for Wrong {
    ghost use Rattle.std.specs.Prelude.{Some};
    ghost use Rattle.pt_script.specs.WhyTexts.{wrong_text};

    ghost output = { λ w. Some (wrong_text w) };

    #[tactic(auto, unfolding(crate::specs::WhyTexts::wrong_text))]
    fn fmt<W: fmt::Write>(&self, f: &mut fmt::Formatter<W>) -> fmt::Result {
        match self {
            Wrong::NoUtf8 => f.write_str("is no UTF-8"),
            Wrong::NoJson => f.write_str("is no JSON"),
            Wrong::EndsEarly => f.write_str("ends too early"),
            Wrong::NoObject => f.write_str("is no object"),
            Wrong::Unknown => f.write_str("is unknown"),
            Wrong::HasUnknown => f.write_str("has a member that is unknown"),
            Wrong::Missing => f.write_str("is missing"),
            Wrong::NoWhole => f.write_str("is no whole number of 64 bits"),
            Wrong::NoFlag => f.write_str("is neither true nor false"),
            Wrong::NoText => f.write_str("is no text"),
            Wrong::NoList => f.write_str("is no list"),
            Wrong::NoName => f.write_str("has not the form of a name"),
            Wrong::NoReason => write!(f, "is no reason: there are {REASONS}"),
            Wrong::NoPick => write!(
                f,
                "is no object with one of the members of a pick: there are {PICKS}"
            ),
            Wrong::NoOperation => write!(f, "is no operation: there are {OPERATIONS}"),
            Wrong::Later(format) => write!(f, "needs format {format}"),
            Wrong::OutOfRange { least, most } => write!(f, "is not from {least} to {most}"),
            Wrong::Over(limit) => write!(f, "{limit}"),
            Wrong::OutOfScope => f.write_str("names nothing in scope"),
            Wrong::Taken => f.write_str("is taken already"),
            Wrong::Block(stray) => write!(f, "{stray}"),
            Wrong::Refused => f.write_str("is not as scripts are"),
        }
    }
}

/// Why a text is no script: the scene, the member, the word that it is if it has the form of a name, and what is wrong
/// with it. Without a member, it says what is wrong with the whole value.
#[derive(Clone, Copy)]
pub(crate) struct Why<'a> {
    pub(crate) scene: Scene<'a>,
    pub(crate) member: Option<&'a str>,
    pub(crate) word: Option<&'a str>,
    pub(crate) wrong: Wrong,
}

/// Why a text is no script, and the place in the text.
#[derive(Clone, Copy)]
pub(crate) struct Told<'a> {
    pub(crate) why: Why<'a>,
    pub(crate) spot: Spot,
}

impl fmt::Display for Told<'_> {
    ghost use Rattle.std.specs.Prelude.{Some};
    ghost use Rattle.pt_script.specs.WhyTexts.{why_text};

    ghost output = { λ t. Some (why_text t.why t.spot) };

    #[tactic(auto, unfolding(crate::specs::WhyTexts::why_text))]
    fn fmt<W: fmt::Write>(&self, f: &mut fmt::Formatter<W>) -> fmt::Result {
        let Why {
            scene,
            member,
            word,
            wrong,
        } = self.why;
        let spot = self.spot;
        match (member, word) {
            (Some(member), Some(word)) => {
                write!(f, "{scene}, {spot}: member {member} ({word}) {wrong}")
            }
            (Some(member), None) => write!(f, "{scene}, {spot}: member {member} {wrong}"),
            (None, _) => write!(f, "{scene}, {spot}: it {wrong}"),
        }
    }
}
