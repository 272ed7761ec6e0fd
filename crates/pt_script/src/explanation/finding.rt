//! The process that has a number.
//!
//! Processes are numbered in the order in which they begin in the text, a spawned one at the place of its spawn.

ghost use Rattle.std.specs.Prelude.{map};
ghost use Rattle.serde_json.specs.View.{view};
ghost use Rattle.pt_script.specs.Standing.{processes_in, processes_of, spawns_in};
ghost use Rattle.pt_script.specs.Explaining.{LeadsTo, FindsProcess, spawned_in};

use crate::explanation::scope::{is_spawn, list_at};
use crate::limits::MAX_NESTING;
use serde_json::Value;

/// A process of the text.
#[derive(Clone, Copy)]
pub(crate) struct Found<'a> {
    /// The value in the text: the process itself, or its spawn.
    pub(crate) value: &'a Value,
    /// The number of spawns around its operations.
    pub(crate) depth: u32,
}

/// How far a search has come.
#[derive(Clone, Copy)]
pub(crate) enum Reached<'a> {
    /// The process was found.
    At(Found<'a>),
    /// So many more processes have to be passed before it.
    Before(u32),
}

/// The process of this number, among those that the script begins with and those that they spawn.
pub(crate) fn process_at<'a>(tops: &'a [Value], number: u32) -> Option<Found<'a>>
    ensures { FindsProcess (processes_of (map view tops.now)) number result }
{
    let mut left = number;
    for top in tops {
        match search(top, MAX_NESTING, left) {
            Reached::At(found) => return Some(found),
            Reached::Before(more) => left = more,
        }
    }
    None
}

/// Looks at a process, and then at those that it spawns, down to so many levels.
#[cycle(search)]
pub(crate) fn search<'a>(value: &'a Value, levels: u32, left: u32) -> Reached<'a>
    ensures { LeadsTo (processes_in levels (view value.now)) left result }
{
    if left == 0 {
        let depth = MAX_NESTING.saturating_sub(levels);
        return Reached::At(Found { value, depth });
    }
    if levels == 0 {
        return Reached::Before(left - 1);
    }
    search_within(list_at(value, "ops"), levels - 1, left - 1)
}

/// Looks at the spawns of a list.
#[cycle(search)]
fn search_within<'a>(list: &'a [Value], levels: u32, left: u32) -> Reached<'a>
    ensures { LeadsTo (spawns_in (processes_in levels) (map view list.now)) left result }
{
    let mut left = left;
    for operation in list {
        match search_by(operation, levels, left) {
            Reached::At(found) => return Reached::At(found),
            Reached::Before(more) => left = more,
        }
    }
    Reached::Before(left)
}

/// Looks at an operation.
#[cycle(search)]
pub(crate) fn search_by<'a>(operation: &'a Value, levels: u32, left: u32) -> Reached<'a>
    ensures { LeadsTo (spawned_in levels (view operation.now)) left result }
{
    if is_spawn(operation) {
        search(operation, levels, left)
    } else {
        Reached::Before(left)
    }
}
