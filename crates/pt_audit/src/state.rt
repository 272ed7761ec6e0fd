//! States: what one run leaves of a history, and the next one goes on from.

use crate::refusal::Refusal;
use pt_auditor::{Audit, Rest};
use std::alloc::Global;
use std::rt::Runtime;
use std::{fs, io, mem};

/// Has the audit go on from the state in the file, if one is named. Returns the number of events before it.
pub fn start<R: Runtime + AllocGlobal>(
    rt: &R,
    name: Option<&str>,
    audit: &mut Audit,
) -> Result<u64, Refusal> {
    match name {
        Some(name) => go_on_from(rt, name, audit),
        None => Ok(0),
    }
}

fn go_on_from<R: Runtime + AllocGlobal>(
    rt: &R,
    name: &str,
    audit: &mut Audit,
) -> Result<u64, Refusal> {
    match fs::read(rt, name) {
        Ok(text) => go_on(rt.alloc(), text.as_slice(), audit),
        Err(error) => Err(unread_state(error)),
    }
}

fn unread_state(error: io::Error) -> Refusal {
    if error.kind() == io::ErrorKind::OutOfMemory {
        Refusal::Memory
    } else {
        Refusal::UnreadState(error)
    }
}

fn go_on(alloc: Global, text: &[u8], audit: &mut Audit) -> Result<u64, Refusal> {
    match Rest::parse(alloc, text) {
        Ok(rest) => go_on_over(alloc, rest, audit),
        Err(damage) => Err(Refusal::from(damage)),
    }
}

fn go_on_over(alloc: Global, rest: Rest, audit: &mut Audit) -> Result<u64, Refusal> {
    let before = rest.events();
    match Audit::over(alloc, rest) {
        Ok(next) => {
            *audit = next;
            Ok(before)
        }
        Err(unfit) => Err(Refusal::from(unfit)),
    }
}

/// Takes the audit, and leaves one that has read nothing.
pub fn taken(alloc: Global, audit: &mut Audit) -> Audit {
    mem::replace(audit, Audit::new(alloc))
}

/// Writes what is known of the history to the file of this name.
pub fn leave<R: Runtime + AllocGlobal>(
    rt: &R,
    name: &str,
    audit: &mut Audit,
) -> Result<(), Refusal> {
    match taken(rt.alloc(), audit).rest(rt.alloc()) {
        Ok(rest) => save(rt, name, &rest),
        Err(_) => Err(Refusal::Memory),
    }
}

/// Writes the state to the file.
fn save<R: Runtime + AllocGlobal>(rt: &R, name: &str, rest: &Rest) -> Result<(), Refusal> {
    match rest.text(rt.alloc()) {
        Ok(text) => write(rt, name, text.as_str()),
        Err(_) => Err(Refusal::Memory),
    }
}

/// Writes the text to the file: to a new one first, which then takes its place.
fn write<R: Runtime + AllocGlobal>(rt: &R, name: &str, text: &str) -> Result<(), Refusal> {
    match format!(in rt.alloc(); "{name}.new") {
        Ok(fresh) => replace(rt, name, fresh.as_str(), text),
        Err(_) => Err(Refusal::Memory),
    }
}

fn replace<R: Runtime>(rt: &R, name: &str, fresh: &str, text: &str) -> Result<(), Refusal> {
    if let Err(error) = fs::write(rt, fresh, text) {
        return Err(Refusal::Unsaved(error));
    }
    match rt.rename(fresh, name) {
        Ok(()) => Ok(()),
        Err(error) => Err(Refusal::Unsaved(error)),
    }
}
