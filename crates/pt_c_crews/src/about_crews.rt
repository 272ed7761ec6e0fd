//! The codes that the library reports of itself, and with them those of jobs.

ghost use Rattle.std.specs.Prelude.{◌≡◌};
ghost use Rattle.pt_c_tools.specs.About.{all_codes, with_jobs, nobody};
ghost use Rattle.pt_c_crews.specs.Crossing.{job_out};

use crate::crossing::{job_of, write_job};
use pt_behaviour::Next;
use pt_c_tools::about::{BLANK, NOBODY, PtCodes, codes_below};
use pt_scheduler::{Job, What};
use pt_workers::{Item, Reason};

/// Writes each code, from the same functions as the calls.
pub fn codes(out: &mut PtCodes)
    ensures { out.new ≡ all_codes }
{
    *out = with_jobs(codes_below(*out));
}

/// The codes of what a process is told.
fn with_jobs(codes: PtCodes) -> PtCodes
    ensures { result ≡ with_jobs codes }
{
    let item = Item::User(NOBODY, BLANK);
    PtCodes {
        job_start: code_of(What::Start(None)),
        job_proceed: code_of(What::Proceed),
        job_item: code_of(What::Item(item)),
        job_timeout: code_of(What::Timeout),
        job_exit: code_of(What::Exit(Reason::Normal, Next::Running)),
        ..codes
    }
}

/// The code of a job that tells this.
fn code_of(what: What) -> u32
    ensures { result ≡ (job_out (record { pid = nobody; tag = 0; what = what })).code }
{
    let job = job_for(what);
    let mut out = job_of(job, 0);
    write_job(job, &mut out);
    out.code
}

fn job_for(what: What) -> Job
    ensures { result ≡ record { pid = nobody; tag = 0; what = what } }
{
    Job {
        pid: NOBODY,
        tag: 0,
        what,
    }
}
