//! What happened to processes, written for other programs: as JSON, one object for each event, and as a sequence
//! diagram of Mermaid, which code hosts draw.
//!
//! ```
//! let event = JsonEvent(stamped);
//! writeln!(out, "{event}")?;            // {"stamp":4,"desk":0,"event":"left","pid":"<0.1.1>","reason":"other:7"}
//! let step = JsonStep { stamped, then: changes.as_slice() };
//! writeln!(out, "{step}")?;             // {"stamp":4,..,"then":[{"of":"<0.1.1>","did":"end","reason":"other:7"}]}
//! writeln!(out, "{MERMAID_HEAD}")?;     // sequenceDiagram
//! let event = MermaidEvent(stamped);
//! writeln!(out, "{event}")?;            //     Note over p0_1_1: 4@0 left other:7
//! ```
//!
//! Each value is a `Display`, and its contract says what it prints: `specs/Json`, `specs/Steps` and `specs/Mermaid` have the
//! texts.
//! None ends with a line feed, and none needs memory.
//!
//! [`PAGE_HEAD`], [`PAGE_NAMES`] and [`PAGE_END`] are the page of a history: one HTML file that needs no network, with the
//! lines of JSON and the names of processes between them. Its files are in `page/`.
//!
//! [`steps_of`] returns the events of a whole history, each with what it changed. [`write_steps`] writes them as lines, and
//! [`write_page`] as a page with the names of processes. A program that reads event by event writes the same from
//! [`JsonStep`] and the parts of the page.
//!
//! [`Progress`] says once in each second how far a program is, for a person who waits for what it prints.
//!
//! [`Options`] has the choices for a run of a script, and says which of these outputs is printed.
//!
//! Tests: `checks/examples`.
//!
//! # What is proved
//!
//! - **JSON.** An event or a letter left over is written as the one line of JSON that its definition gives.
//! - **Steps.** An event with what it changed is written as the one line of JSON that its definition gives.
//! - **Whole histories.** Each event of a history has the changes that the auditor has for it after the events before it.
//!   A history is refused only for a cause that the judge has for one of its events. (`steps_of`)
//! - **The page.** It is the files of the page, with these lines, the counts and the names between them. (`write_page`)
//! - **Mermaid.** It is written as the line of a sequence diagram that its definition gives.
//! - **Estimates.** The percent that were done, and the time that the rest takes if it goes on as before, are those of the
//!   definition. (`Part::estimate`)
//! - **Limits.** At most 1,000,000 turns and 1,000,000 epochs can be asked for. (`limits_stand`)
#![tactic(auto, unfolding(crate::specs::Json::body_members, crate::specs::Json::links_member, crate::specs::Json::asking_members, crate::specs::Json::signal_members, crate::specs::Json::item_members, crate::specs::Json::pick_json, crate::specs::Json::plain_members, crate::specs::Json::event_members, crate::specs::Json::letter_members, crate::specs::Json::left_over_members, crate::specs::Json::json_text, crate::specs::Json::json_left_over_text, crate::specs::Steps::change_members, crate::specs::Steps::peer_members, crate::specs::Steps::watch_members, crate::specs::Steps::did_json, crate::specs::Steps::step_json, crate::specs::Pages::verdict_json, crate::specs::Pages::name_member, crate::specs::Mermaid::column_name_text, crate::specs::Mermaid::pid_label, crate::specs::Mermaid::ref_label, crate::specs::Mermaid::body_label, crate::specs::Mermaid::asking_label, crate::specs::Mermaid::signal_label, crate::specs::Mermaid::item_label, crate::specs::Mermaid::pick_label, crate::specs::Mermaid::scene_text, crate::specs::Mermaid::deed_text, crate::specs::Mermaid::mermaid_text, crate::specs::Mermaid::mermaid_left_over_text))]

mod choices;
mod json;
mod labels;
mod mermaid;
mod names;
mod page;
mod progress;
mod stepping;
mod steps;
mod writing;

pub use choices::{MOST_EPOCHS, MOST_TURNS, Mode, Options, Show, Until, VERSION, limits_stand};
pub use json::{JsonEvent, JsonLeftOver, JsonVerdict};
pub use mermaid::{MERMAID_HEAD, MermaidEvent, MermaidLeftOver};
pub use page::{PAGE_END, PAGE_HEAD, PAGE_NAMES};
pub use progress::{Estimate, Part, Progress};
pub use pt_chart::{Unwatched, Watch, Work};
pub use stepping::{Step, steps_of, steps_watched};
pub use steps::JsonStep;
pub use writing::{write_page, write_steps};
