//! Values and events read back from their printed texts.
//!
//! Tests: `checks/tried/test_calls/texts.rt.txt` and `crates/test_calls/src/layers/texts.rt`.
//!
//! # What is proved
//!
//! - **Reading back.** A value, an event or a line of a printed history is parsed from its printed text, and from no
//!   other text. (`parse_pid` to `parse_left_over`)
//! - **No two alike.** No two values of a type print alike. (`no_two_print_alike`)
//! - **Lines of a state.** The first line of a text is read as a line of a state exactly where it is what such a line
//!   prints. So lines are read back one after the other as they were printed. (`read_record`)
//! - **Columns.** If a text cannot be parsed, the error has the column that the readers reach. (`Readers`)
#![tactic(auto)]

mod events;
mod laws;
mod left_over;
mod numbers;
mod parse;
mod records;
mod signals;
mod steps;
mod values;

pub use laws::no_two_print_alike;
pub use parse::{
    Refused, parse_body, parse_event, parse_ids, parse_item, parse_left_over, parse_letter,
    parse_link_id, parse_pick, parse_pid, parse_reason, parse_ref, parse_signal, parse_stamped,
    read_record,
};
pub use pt_signal::LeftOver;
pub use records::Record;
