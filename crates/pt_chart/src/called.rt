//! The names of processes.

ghost use Rattle.std.specs.Prelude.{◌≡◌, IfOk, map};
ghost use Rattle.pt_chart.specs.Drawing.{called_given, column_name, column_names};

use crate::layout::Column;
use crate::pids::Pids;
use pt_signal::Pid;
use std::alloc::{AllocError, Global};

/// The name of a process.
#[derive(Clone, Copy, Debug)]
pub struct Called<'a> {
    pub pid: Pid,
    pub name: &'a str,
}

/// The names of the columns' processes, each empty if none is given.
pub(crate) fn names_of<'a>(
    alloc: Global,
    called: &[Called<'a>],
    columns: &[Column],
) -> Result<Vec<&'a str>, AllocError>
    ensures { IfOk result (λ names. map (λ n. n.now) names.items ≡ column_names (map called_given called.now) columns.now) }
{
    let pids = pids_called(alloc, called)?;
    names_by(alloc, called, &pids, columns)
}

/// The processes that names are given for.
fn pids_called(alloc: Global, called: &[Called<'_>]) -> Result<Pids, AllocError>
    ensures { IfOk result (λ pids. pids ≡ map (λ c. c.pid) called.now) }
{
    let mut pids = Vec::with_capacity(alloc, called.len())?;
    for one in called {
        pids.push(one.pid)?;
    }
    Pids::of(alloc, pids)
}

/// The names of the columns' processes, if names are given for these ones.
fn names_by<'a>(
    alloc: Global,
    called: &[Called<'a>],
    pids: &Pids,
    columns: &[Column],
) -> Result<Vec<&'a str>, AllocError>
    requires { pids.now ≡ map (λ c. c.pid) called.now }
    ensures { IfOk result (λ names. map (λ n. n.now) names.items ≡ column_names (map called_given called.now) columns.now) }
{
    let mut names = Vec::with_capacity(alloc, columns.len())?;
    for column in columns {
        names.push(name_of(called, pids, column.pid))?;
    }
    Ok(names)
}

/// The first name that is given for the pid, or an empty one.
fn name_of<'a>(called: &[Called<'a>], pids: &Pids, pid: Pid) -> &'a str
    requires { pids.now ≡ map (λ c. c.pid) called.now }
    ensures { result.now ≡ column_name (map called_given called.now) pid }
{
    match pids.first(pid) {
        Some(place) => called[place].name,
        None => "",
    }
}
