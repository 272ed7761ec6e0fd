//! The command line of the program that runs a script, and what is said of a script that is refused.
//!
//! ```text
//! pt_run [FILE] [--threads single|many] [--turns N] [--until turns|quiet] [--epochs N]
//!     [--print summary|history|chart|mermaid|json|steps|page] [--explain]
//! ```
//!
//! [`options`] reads the words, and [`laws`] says what some words mean. `FILE` is the script; without it, and for `-`,
//! the script is read from standard input.
//!
//! [`explained`] says why a script is refused, and which word may be meant. No clause says what it returns.
//!
//! Tests: `checks/tried/pt_scripts/command_lines.rt.txt`.
//!
//! # What is proved
//!
//! - **Words.** `options` returns what the words ask for by the definitions of `clap` for this command, or an error of
//!   the kind of their fault.
//! - **Values.** `--turns=` takes 0 to 1,000,000, `--epochs=` 1 to 1,000,000, `--threads=` and `--print=` their own
//!   words, and no other text. (`laws`)
//! - **Ends of epochs.** `--until=` takes `turns` and `quiet`, and no other text. (`laws`)
//! - **Flags.** `--explain` takes no value, `--help` is a kind of its own, and no word at all gives the defaults.
#![tactic(auto)]

ghost use Rattle.std.specs.Prelude.{◌≡◌, ◌≤◌, IfOk, codes, map, option_map, string_bytes};
ghost use Rattle.clap.specs.Words.{app_of, found_of, new_rule, rows_of};
ghost use Rattle.pt_options.specs.Choosing as spec;
ghost use Rattle.pt_render.specs.declared.choices.TheConstants.{MOST_EPOCHS, MOST_TURNS};

mod hint;
pub mod laws;

use clap::builder::ValueParser;
use clap::{Arg, ArgAction, ArgMatches, Command};
pub use hint::explained;
pub use pt_render::{MOST_EPOCHS, MOST_TURNS, Mode, Options, Show, Until, VERSION};
use std::alloc::{AllocError, Global};

static MODES: [&str; 2] = ["single", "many"];

static UNTILS: [&str; 2] = ["turns", "quiet"];

static SHOWS: [&str; 7] = [
    "summary", "history", "chart", "mermaid", "json", "steps", "page",
];

/// Reads the words of the command line, the program's name first: the file, if one is named, and what is asked for.
///
/// The definitions of `clap` for matches and faults say what the words mean, for the one command that this crate makes.
/// On `Ok` the words are no fault, and what they ask for is read from their matches. Else the [kind](clap::Error::kind)
/// of the error is that of their fault, or says that there was no memory. An option that is not named has its default:
/// one thread, 100 turns, one epoch, the history, and no explanation of faults.
pub fn options(alloc: Global, words: Vec<String>) -> Result<(Option<String>, Options), clap::Error>
    ensures words { spec.WordsGive (map string_bytes words.items) result }
    ensures turns { IfOk result (λ r. r.1.turns ≤ MOST_TURNS) }
    ensures epochs { IfOk result (λ r. (1 ≤ r.1.epochs) × (r.1.epochs ≤ MOST_EPOCHS)) }
{
    options_of(alloc, words.as_slice())
}

fn options_of<'a>(
    alloc: Global,
    words: &'a [String],
) -> Result<(Option<String>, Options), clap::Error>
    ensures words { spec.WordsGive (map string_bytes words.now) result }
    ensures turns { IfOk result (λ r. r.1.turns ≤ MOST_TURNS) }
    ensures epochs { IfOk result (λ r. (1 ≤ r.1.epochs) × (r.1.epochs ≤ MOST_EPOCHS)) }
{
    let matches = command(alloc)?.try_get_matches_from(words)?;
    let file = file_of(alloc, &matches)?;
    Ok((file, chosen(&matches)))
}

/// The command with its arguments and the help on each.
fn command<'a>(alloc: Global) -> Result<Command<'a>, AllocError>
    ensures { IfOk result (λ c. spec.IsCommand (app_of c)) }
{
    Command::new(alloc, "pt_run")
        .about("Runs a script of processes and prints what happened")
        .version(VERSION)
        .arg(file(alloc))?
        .arg(choice(
            alloc,
            "threads",
            MODES.as_slice(),
            "single",
            "Run all desks on one thread in rounds, or each on a thread of its own",
        ))?
        .arg(turns(alloc))?
        .arg(choice(
            alloc,
            "until",
            UNTILS.as_slice(),
            "turns",
            "End an epoch behind its turns, or take them again and again until nothing more can happen",
        ))?
        .arg(epochs(alloc))?
        .arg(choice(
            alloc,
            "print",
            SHOWS.as_slice(),
            "history",
            "Print what became of each process, every event, or the events as an SVG chart, a Mermaid diagram, JSON, JSON with what each changed, or a page for a browser",
        ))?
        .arg(explain(alloc))
}

/// The name of the script.
fn file<'a>(alloc: Global) -> Arg<'a>
    ensures { spec.IsArgument (new_rule (codes "FILE")) result }
{
    Arg::new(alloc, "FILE").help("The script; standard input where none is named, and for -")
}

/// An option that takes one of these words, the default without it.
fn choice<'a>(
    alloc: Global,
    name: &'a str,
    words: &'a [&'a str],
    default: &'a str,
    help: &'a str,
) -> Arg<'a>
    ensures { spec.IsArgument (spec.choice_rule name.now words.entry default.now) result }
{
    Arg::new(alloc, name)
        .long(name)
        .value_parser(words)
        .default_value(default)
        .help(help)
}

/// The number of turns.
fn turns<'a>(alloc: Global) -> Arg<'a>
    ensures { spec.IsArgument spec.turns_rule result }
{
    Arg::new(alloc, "turns")
        .long("turns")
        .value_name("N")
        .value_parser(ValueParser::unsigned(0, MOST_TURNS))
        .default_value("100")
        .help("How many turns each desk takes in each epoch, from 0 to 1000000")
}

/// The number of epochs.
fn epochs<'a>(alloc: Global) -> Arg<'a>
    ensures { spec.IsArgument spec.epochs_rule result }
{
    Arg::new(alloc, "epochs")
        .long("epochs")
        .value_name("N")
        .value_parser(ValueParser::unsigned(1, MOST_EPOCHS))
        .default_value("1")
        .help(
            "How many epochs, from 1 to 1000000; between two the node is settled and its journals are emptied",
        )
}

/// Whether faults are explained.
fn explain<'a>(alloc: Global) -> Arg<'a>
    ensures { spec.IsArgument spec.explain_rule result }
{
    Arg::new(alloc, "explain")
        .long("explain")
        .action(ArgAction::SetTrue)
        .help("Explain a refusal, and each line of a summary")
}

/// The file that was found in the words.
fn file_of(alloc: Global, matches: &ArgMatches<'_>) -> Result<Option<String>, AllocError>
    ensures { IfOk result (λ f. option_map string_bytes f ≡ spec.file_of (rows_of (found_of matches.now))) }
{
    match matches.get_str("FILE") {
        Some(file) => Ok(Some(String::from_str(alloc, file)?)),
        None => Ok(None),
    }
}

/// What was found in the words, as options.
fn chosen(matches: &ArgMatches<'_>) -> Options
    ensures chosen { result ≡ spec.chosen_of (rows_of (found_of matches.now)) }
    ensures turns { result.turns ≤ MOST_TURNS }
    ensures epochs { (1 ≤ result.epochs) × (result.epochs ≤ MOST_EPOCHS) }
{
    Options {
        threads: mode_of(matches.get_str("threads")),
        turns: turns_of(matches.get_one::<u64>("turns")),
        until: until_of(matches.get_str("until")),
        epochs: epochs_of(matches.get_one::<u64>("epochs")),
        print: show_of(matches.get_str("print")),
        explain: is_told(matches.get_str("explain")),
    }
}

/// How the desks are run, by its word; one thread without one.
fn mode_of(word: Option<&str>) -> Mode
    ensures { result ≡ spec.mode_of (option_map (λ t. t.now) word.entry) }
{
    match word {
        Some("many") => Mode::Many,
        _ => Mode::Single,
    }
}

/// The number of turns; 100 without one.
fn turns_of(number: Option<u64>) -> u64
    ensures { result ≡ spec.turns_of number }
{
    match number {
        Some(turns) => turns.min(MOST_TURNS),
        None => 100,
    }
}

/// When an epoch ends, by its word; after its turns without one.
fn until_of(word: Option<&str>) -> Until
    ensures { result ≡ spec.until_of (option_map (λ t. t.now) word.entry) }
{
    match word {
        Some("quiet") => Until::Quiet,
        _ => Until::Turns,
    }
}

/// The number of epochs; 1 without one.
fn epochs_of(number: Option<u64>) -> u64
    ensures { result ≡ spec.epochs_of number }
{
    match number {
        Some(epochs) => epochs.min(MOST_EPOCHS).max(1),
        None => 1,
    }
}

/// What is printed, by its word; the history without one.
fn show_of(word: Option<&str>) -> Show
    ensures { result ≡ spec.show_of (option_map (λ t. t.now) word.entry) }
{
    match word {
        Some("summary") => Show::Summary,
        Some("chart") => Show::Chart,
        Some("mermaid") => Show::Mermaid,
        Some("json") => Show::Json,
        Some("steps") => Show::Steps,
        Some("page") => Show::Page,
        _ => Show::History,
    }
}

/// Whether a flag was among the words, by its text; false without one.
fn is_told(word: Option<&str>) -> bool
    ensures { result ≡ spec.is_told (option_map (λ t. t.now) word.entry) }
{
    match word {
        Some(word) => word == "true",
        None => false,
    }
}
