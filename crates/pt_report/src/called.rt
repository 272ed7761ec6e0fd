//! The names of a script's processes.

ghost use Rattle.std.specs.Prelude.{◌≡◌, ◌++◌, IfOk, OnOk, map, string_bytes};
ghost use Rattle.pt_chart.specs.Drawing.{called_given};
ghost use Rattle.pt_report.specs.Called as spec;

use pt_chart::Called;
use pt_node::Pid;
use pt_runner::Runner;
use pt_script::name_at;
use std::alloc::{AllocError, Global};

/// The pids of a script's processes, as its runners have them, each with the name at its process's number.
pub(crate) fn called_by<'a>(
    alloc: Global,
    names: &'a [String],
    runners: &[Runner<'_>],
) -> Result<Vec<Called<'a>>, AllocError>
    ensures { IfOk result
        (λ called. map called_given called.items ≡ spec.called_by (map string_bytes names.now) runners.now) }
{
    let mut called = Vec::new(alloc);
    for desk in 0..runners.len() {
        call_those_on(desk, names, &runners[desk], &mut called)?;
    }
    Ok(called)
}

/// The processes of the desk with this runner.
fn call_those_on<'a>(
    desk: usize,
    names: &'a [String],
    runner: &Runner<'_>,
    called: &mut Vec<Called<'a>>,
) -> Result<(), AllocError>
    ensures { OnOk result (map called_given called.new.items
        ≡ map called_given called.old.items ++ spec.called_on (map string_bytes names.now) desk runner.now) }
{
    let pids = runner.pids();
    for process in 0..pids.len() {
        call(desk, names, process, pids[process], called)?;
    }
    Ok(())
}

/// The process with this number, if it was spawned on the desk.
fn call<'a>(
    desk: usize,
    names: &'a [String],
    process: usize,
    pid: Option<Pid>,
    called: &mut Vec<Called<'a>>,
) -> Result<(), AllocError>
    ensures { OnOk result (map called_given called.new.items
        ≡ map called_given called.old.items ++ spec.called_one (map string_bytes names.now) desk process pid) }
{
    let Some(pid) = pid else {
        return Ok(());
    };
    if pid.shard as usize == desk {
        let name = name_at(names, process);
        called.push(Called { pid, name })?;
    }
    Ok(())
}
