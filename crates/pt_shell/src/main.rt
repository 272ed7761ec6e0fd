//! A shell of calls on a node: reads lines of calls, and prints each answer.
//!
//! ```text
//! pt_shell [--interactive]
//! pt_shell --help | --version
//! ```
//!
//! The lines come from standard input, one call each, in the words of the API and the printed texts of the values;
//! `help` prints the calls. Answers go to standard output. What is told of a line that is no call, or whose answer is
//! not the one that was expected, goes to standard error, with its line and column.
//!
//! Where standard input is a terminal, and with `--interactive`, there is a prompt, and the shell goes on behind such a
//! line. Else it ends there, with the status 1. The status is 2 where the words are refused, and 3 where memory or a
//! file was wanting. `--help` and `--version` print on standard output, with the status 0.
//!
//! The module `lines` says what a line may be. A session (`session`) has at most one node, which is running, gathered, or
//! settled, and each call is the node's call of that name. `running` reads the lines of a reader and writes each answer.
//!
//! Tests: `checks/shell` and `checks/rows`.
//!
//! # What is proved
//!
//! - **Lines.** A line asks for what its definition says: nothing, help, an expectation, or one call with its
//!   arguments. (`command_of`)
//! - **Mistakes.** Otherwise the column and the kind of the first mistake are returned.
//! - **Names.** `Names` finds the value that was last given a name.
//! - **Answers.** Each call that a line asks for is the node's call, and the text kept is that of its answer. (`hear`)
//! - **Texts.** The text of each answer is the one that the definitions give. A value has the text that it has everywhere
//!   else: in histories, in scripts, and in the bindings. (`text_of`)
//! - **Calls out of place.** A call that the node's state does not allow changes nothing.
//! - **Expectations.** An expectation passes exactly if the next line of the answer is its words.
//! - **Runs.** A run that reached its end wrote the answers of its lines, in order. (`run`)
//! - **It ends.** The program ends and goes wrong nowhere.
#![tactic(auto)]

mod acting;
mod answer;
mod bounded;
mod complaint;
mod expecting;
mod lines;
mod looking;
mod looking_back;
mod parts;
mod phase;
mod running;
mod session;
mod stepping;
mod telling;
mod text;

use crate::bounded::{Bounded, MOST_BYTES};
use crate::running::{Fault, run};
use pt_render::VERSION;
use std::io::{BufReader, BufWriter, IsTerminal, Write};
use std::process::ExitCode;
use std::rt::Runtime;
use std::{env, io};

const USAGE: &str = "usage: pt_shell [--interactive]";

/// What `--help` prints.
const HELP: &str = "\
Opens a node and makes every call by hand: reads lines of calls, and prints each answer

Usage: pt_shell [--interactive]

Lines come from standard input, one call each. The line 'help' prints the calls.

Options:
      --interactive  Print a prompt, and go on after a line that failed, as on a terminal
  -h, --help         Print help
  -V, --version      Print version

Status: 0; 1 a line failed; 2 the words are wrong; 3 memory or a file failed
";

/// What the words ask for.
#[derive(Clone, Copy)]
enum Asked {
    /// To read lines, and whether a person is talked to.
    Lines(bool),
    Help,
    Version,
}

/// What the words ask for; `None` where they are no words of the program.
fn read_words<R: Runtime + AllocGlobal>(rt: &R) -> io::Result<Option<Asked>> {
    let words: Vec<String> = env::args(rt)?.collect(rt.alloc())?;
    if words.len() <= 1 {
        return Ok(Some(Asked::Lines(false)));
    }
    if words.len() > 2 {
        return Ok(None);
    }
    Ok(asked_by(words[1].as_str()))
}

fn asked_by(word: &str) -> Option<Asked> {
    match word {
        "--interactive" => Some(Asked::Lines(true)),
        "--help" | "-h" => Some(Asked::Help),
        "--version" | "-V" => Some(Asked::Version),
        _ => None,
    }
}

/// Why the shell ended before its lines did.
#[derive(Clone, Copy)]
enum Stop {
    Fault(Fault),
    /// A line is too long.
    Long,
}

impl From<io::Error> for Stop {
    fn from(error: io::Error) -> Stop {
        Stop::Fault(Fault::from(error))
    }
}

fn run_shell<R: Runtime + AllocGlobal, E: Write>(
    rt: &R,
    is_person: bool,
    errors: &mut E,
) -> Result<(), Stop> {
    let alloc = rt.alloc();
    let mut from = BufReader::new(alloc, Bounded::new(rt.reader()))?;
    let mut out = BufWriter::new(alloc, io::writer(rt))?;
    match run(alloc, is_person, &mut from, &mut out, errors) {
        Ok(()) => Ok(()),
        Err(_) if from.get_ref().is_over() => Err(Stop::Long),
        Err(fault) => Err(Stop::Fault(fault)),
    }
}

/// The status of what was printed on standard output.
fn printed<R: Runtime>(rt: &R, done: io::Result<()>) -> ExitCode {
    if done.is_ok() {
        ExitCode::SUCCESS
    } else {
        let _ = rt.eprintln("file refused");
        ExitCode::from(3)
    }
}

/// Reads lines until they end, and returns the status.
fn answer_all<R: Runtime + AllocGlobal, E: Write>(
    rt: &R,
    is_person: bool,
    errors: &mut E,
) -> ExitCode {
    match run_shell(rt, is_person, errors) {
        Ok(()) => ExitCode::SUCCESS,
        Err(Stop::Fault(Fault::Line)) => ExitCode::from(1),
        Err(Stop::Long) => {
            let _ = eprintln!(rt; "a line has more than {MOST_BYTES} bytes");
            ExitCode::from(1)
        }
        Err(Stop::Fault(Fault::Memory)) => {
            let _ = rt.eprintln("memory refused");
            ExitCode::from(3)
        }
        Err(Stop::Fault(Fault::File)) => {
            let _ = rt.eprintln("file refused");
            ExitCode::from(3)
        }
    }
}

fn main(rt: HostRuntime) -> ExitCode {
    match read_words(&rt) {
        Ok(Some(Asked::Lines(is_person))) => {
            answer_all(&rt, is_person || rt.stdin().is_terminal(), &mut rt.stderr())
        }
        Ok(Some(Asked::Help)) => printed(&rt, rt.print(HELP)),
        Ok(Some(Asked::Version)) => printed(&rt, println!(rt; "pt_shell {VERSION}")),
        Ok(None) => {
            let _ = rt.eprintln(USAGE);
            ExitCode::from(2)
        }
        Err(_) => {
            let _ = rt.eprintln("memory refused");
            ExitCode::from(3)
        }
    }
}
