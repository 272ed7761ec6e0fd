//! What is told of a crew, as the structs that cross.

ghost use Rattle.std.specs.Prelude.{◌≡◌};
ghost use Rattle.pt_signal.specs.declared.item.Item.TheVariants.{User};
ghost use Rattle.pt_c_values.specs.Crossing.{item_out};
ghost use Rattle.pt_c_crews.specs.Crossing.{job_of, job_out, start_out};

use pt_c_tools::crossing_nexts::{next_out, no_next};
use pt_c_values::crossing::{
    body_out, item_out, no_item, no_reason, pid_or_none, pid_out, reason_out,
};
use pt_c_values::types::{PtItem, PtJob};
use pt_scheduler::{Job, Origin, What};
use pt_workers::{Body, Item, Pid};

/// Writes a job to its place.
// (inlined, and each kind of job writes for itself, so that none is built first and then moved)
#[inline(always)]
pub fn write_job(job: Job, out: &mut PtJob)
    ensures { out.new ≡ job_out job }
{
    match job.what {
        What::Start(origin) => *out = start_out(job, origin),
        What::Proceed => *out = job_of(job, 1),
        What::Item(Item::User(from, body)) => {
            *out = PtJob {
                item: message_out(from, body),
                ..job_of(job, 2)
            }
        }
        What::Item(item) => {
            *out = PtJob {
                item: item_out(item),
                ..job_of(job, 2)
            }
        }
        What::Timeout => *out = job_of(job, 3),
        What::Exit(reason, was) => {
            *out = PtJob {
                reason: reason_out(reason),
                was: next_out(was),
                ..job_of(job, 4)
            }
        }
    }
}

/// A message, which most items are.
#[inline(always)]
fn message_out(from: Pid, body: Body) -> PtItem
    ensures { result ≡ item_out (User from body) }
{
    PtItem {
        code: 0,
        pid: pid_out(from),
        body: body_out(body),
        ..no_item()
    }
}

/// A job that begins, which this supervisor started, if one did.
#[inline(always)]
fn start_out(job: Job, origin: Option<Origin>) -> PtJob
    ensures { result ≡ start_out job origin }
{
    match origin {
        Some(origin) => PtJob {
            has_supervisor: true,
            again: origin.again,
            supervisor: pid_out(origin.supervisor),
            ..job_of(job, 0)
        },
        None => job_of(job, 0),
    }
}

/// A job with its code, its process and its tag only.
#[inline(always)]
pub fn job_of(job: Job, code: u32) -> PtJob
    ensures { result ≡ job_of job code }
{
    PtJob {
        code,
        pid: pid_out(job.pid),
        tag: job.tag,
        item: no_item(),
        reason: no_reason(),
        was: no_next(),
        has_supervisor: false,
        again: false,
        supervisor: pid_or_none(None),
    }
}
