//! A telephone exchange on one desk: lines that have names and ring until a time, callers that lose patience, and a line
//! that crashes in a call. No clock is read: the program says each moment.
//!
//! # What is proved
//!
//! - **No fault.** The program terminates without a fault. No clause says that its lines and callers do what a telephone
//!   does: what it prints is compared.
//! - **Laws that it applies.** They hold of all calls and all names: a call ends once, and a name has the process that
//!   was registered last, until the `DOWN` of its monitor is heard. (`calls_end_once`, `names_keep_their_monitors`)
#![tactic(auto)]

mod actor;
mod caller;
mod clerk;
mod enquiries;
mod exchange;
mod facts;
mod line;
mod played;
mod report;
mod words;

use anyhow::Result;

fn main(rt: HostRuntime) -> Result<()> {
    println!(rt; "{}", played::play(rt.alloc())?)?;
    Ok(())
}
