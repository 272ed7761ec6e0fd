//! Runs a script and prints what happened.
//!
//! ```
//! let (file, options) = options(alloc, words)?;               // of pt_options: --turns, --epochs, --print ..
//! match report(&rt, alloc, &options, script.as_slice(), &mut out) {
//!     Ok(()) => ..                                             // out has the whole text
//!     Err(fault) => {
//!         rt.eprintln(fault)?;                                 // script refused: 3 name, process 1 op 0
//!         .. fault.status() ..                                 // 1
//!     }
//! }
//! ```
//!
//! # What is printed
//!
//! The history has a line for each event, by stamp and then desk, and then a line for each letter left over. For the
//! summary the letters left over are delivered first. It has a line for each process and a last line of totals. If it
//! is to be explained, a second line of each process says what it is doing, or why it exited. The chart is the history
//! as a drawing by [`pt_chart`], with the names of the script. As JSON and as a Mermaid diagram the lines are those of
//! [`pt_render`], and so is the page for a browser, with the names too.
//!
//! With more than one epoch the node is settled between two of them and resumed with empty journals, and the scripts
//! continue from their places. The history is then that of all epochs, in order. Each epoch's lines are written as it
//! ends, and not kept; JSON does the same. For the chart, the diagram, the steps and the page all events are kept. The
//! summary is that of the last epoch.
//!
//! # Faults
//!
//! All that can fail for want of memory or at a desk is done before the first byte of the last epoch is written. So
//! after a [`ReportFault`] other than `File` the writer is as it was, or has the lines of the epochs that had passed. A
//! failure of the writer is reported as `File`, and nothing else is.
//!
//! # Writers
//!
//! Each line is a few writes, so the writer should be a buffered one. It is flushed before [`report`] returns `Ok`.
//!
//! Tests: `checks/tried/pt_scripts/reports.rt.txt` and `checks/examples`.
//!
//! # What is proved
//!
//! - **What is printed.** On success the text is the history, summary, chart, diagram or page of a node that ran the
//!   script, with the turns and epochs asked for. (`report`)
//! - **What events changed.** Steps and a page have for each event, over all epochs, the changes that the auditor has for
//!   it after the events before it. (`steps_after` of `pt_render`)
//! - **Epochs.** The history of each epoch is in the text once, in order. (`PassEpochs`)
//! - **Until quiet.** With `--until quiet` an epoch ends once nothing more can happen, or once all turns that can be asked
//!   for are taken. The desks are run once at least, and take a turn each time. (`RunsUntilQuiet`)
//! - **Processes left.** `report_left` returns 0 if the run came to rest, and else how many processes are alive.
//!   (`IsLeft`)
//! - **Faults.** A script's fault is the first one. After any fault but `File` the writer is as it was, or has the
//!   lines of the epochs that passed.
//! - **Status.** It is 1 if the bytes are no script, and else 3. (`ReportFault::status`)
#![tactic(auto, unfolding(crate::specs::Lines::account_text, crate::specs::Lines::totals_text, crate::specs::Words::refused_text))]

mod called;
mod chart;
mod ending;
mod epochs;
mod explained;
mod fault;
mod form;
mod history;
mod notes;
mod pages;
mod reporting;
mod running;
mod summary;
mod totals;
mod watching;
mod words;

pub use fault::ReportFault;
pub use pt_render::{Watch, Work};
pub use reporting::{report, report_left};
