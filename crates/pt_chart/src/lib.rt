//! Draws a history as a message sequence chart, in SVG.
//!
//! ```
//! let history = gathered.history()?;
//! let names = [Called { pid, name: "ping" }];
//! rt.print(chart(alloc, history.as_slice(), &names)?)?;
//! ```
//!
//! # What is drawn
//!
//! - Columns: each process that is named has one, by desk and then in order of first appearance. Its head, above the
//!   first row, has its pid below its name, if one is given. After each 40 rows the chart repeats the heads of the
//!   processes that an event in the next 40 rows names: the name, or the pid of a process without one.
//! - Rows: the events are in rows, in the order of the history. The births in front of every other event share one row.
//!   A receipt is beside its sending if it is the very next event, and its sending is no receipt. Each other event has a
//!   row of its own. A row has the stamp and the desk of its first event, and of its last. Their title has the lines of
//!   its events, which a browser shows under the pointer.
//! - Arrows: an arrow goes from the row in which a letter was sent to the row in which it arrived. Its label has what
//!   the letter says, cut to the room that the columns leave. The label is above the arrow, beside the sender. If the
//!   letter is owed at an exit or is an answer, it is below the arrow, beside the receiver, as several of these may be
//!   sent in one row. A letter in flight has an open head, and ends in a row of its own below all others. Messages,
//!   exits, links, monitors and questions each have a stroke of their own. The arrows are in front of all else.
//! - Marks: a box is a birth, with the parent above it, and a dot an item taken. A square is a change of `trap_exit`, a
//!   struck circle a failed call, and a cross an exit with its reason below it.
//!
//! The colours are those that the reader prefers, light or dark. There are a title and a description for screen
//! readers. [`lay_out`] computes the places of all these, and its contract says that they are right. The contract of
//! [`chart`] says that the text has each of them, once, and nothing else.
//!
//! # From the history alone
//!
//! No event says what an exit sends, or which process a signal makes exit. So the processes are followed through the
//! history: each is a [`Process`](pt_process::Process), which says both. Letters from one process to another arrive in
//! the order in which they were sent, so the nth receipt between two ends the nth arrow between them. The rows of the
//! receipts are in a queue for each receiver, and a letter takes the first.
//!
//! One pass over the history lists the events that name each process. An event that does not name a process changes
//! nothing of it, so it is followed through its own events alone. A map has the place of each process. So a letter, a mark
//! and a birth find their columns, and a column finds its name, at the same cost for any number of processes. The names
//! above a row are of the columns that the next 40 rows name, and no other column is looked at. So the work grows as the
//! events do, but for the sorting of those columns.
//!
//! Tests: `checks/tried/pt_scripts/charts.rt.txt` and `checks/examples`. `checks/charts` measures that no label of many
//! charts overlaps another one, a mark, a head or an edge.
//!
//! # What is proved
//!
//! - **Columns.** The layout has a column for each process that the history names, once, by desk and then in order of
//!   first appearance. (`lay_out`)
//! - **Rows.** Births at the front share one row. A receipt right after its sending is beside it, unless that is a
//!   receipt too. Each other event has a row of its own.
//! - **Right places.** In each legal history each exit, receipt and arrow is at the place that the history says. A
//!   letter still in flight has an open arrow, in a row of its own.
//! - **The whole text.** `chart` writes the life of each process, each arrow, label, mark and event of that layout,
//!   once and in order. It adds only the heads above the rows.
//! - **The page.** It is as wide as its columns, its legend and the labels outside of the last column need, and as high
//!   as its rows.
#![tactic(auto, unfolding(crate::specs::Points::point_text, crate::specs::Points::at_text, crate::specs::Text::stroke_text))]

mod called;
mod drawing;
mod elements;
mod follower;
mod layout;
mod mentions;
mod page;
mod part;
mod pids;
mod point;
mod receipts;
mod standing;
mod strokes;
mod style;
mod text;
mod watching;

pub use called::Called;
pub use drawing::{chart, chart_watched};
pub use layout::{Arrow, Column, Layout, Sending, lay_out};
pub use watching::{Unwatched, Watch, Work};
