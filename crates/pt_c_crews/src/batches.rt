//! The batches of a crew: the jobs that a step hands out, and the answers that are taken.

ghost use Rattle.std.specs.Prelude.{◌≡◌, ◌<◌, ◌≤◌, ◌+◌, length};
ghost use Rattle.pt_events.specs.History.{Past};
ghost use Rattle.pt_desk.specs.DeskState.{GoesOn};
ghost use Rattle.pt_crew.specs.Crews.{time_of};
ghost use Rattle.pt_scheduler.specs.Scheduling.{SchedulerAttends, SchedulerUpholds, crew_of};
ghost use Rattle.pt_scheduler.specs.Owning.{desk_of};
ghost use Rattle.pt_c_crews.specs.Crewing.{AnswersOne, HandsOutRow, KeepsCrew, PullsRow, TakesAnswers};

use crate::crossing::write_job;
use pt_c_tools::crossing_nexts::next_in;
use pt_c_values::codes::{BAD_CODE, DONE, MEMORY, NOT_RUNNING};
use pt_c_values::crossing::pid_in;
use pt_c_values::types::{PtAnswer, PtJob};
use pt_scheduler::Scheduler;
use pt_workers::Desk;

/// Runs the processes that are in the queue now, in order, until the slice is full. It writes what they are told to the
/// front of the slice, and returns how many jobs these are.
pub(crate) fn fill(crew: &mut Scheduler, desk: &mut Desk, jobs: &mut [PtJob]) -> usize
    ensures does { SchedulerAttends crew.old desk.old.shard
        → HandsOutRow jobs.old crew.old desk.old.shard result jobs.new crew.new desk.new.shard }
    ensures attends { SchedulerAttends crew.old desk.old.shard → SchedulerAttends crew.new desk.new.shard }
    ensures upholds { (past : Past) → SchedulerAttends crew.old desk.old.shard → SchedulerUpholds past crew.old desk.old.shard
        → SchedulerUpholds past crew.new desk.new.shard }
    ensures time { time_of (crew_of crew.new) ≡ time_of (crew_of crew.old) }
    ensures desk { desk_of crew.new ≡ desk_of crew.old }
    ensures goes_on { GoesOn desk.old desk.new }
{
    let mut filled = 0;
    for _place in 0..crew.queued() {
        if filled >= jobs.len() {
            return filled;
        }
        filled = pull_into(crew, desk, jobs, filled);
    }
    filled
}

/// Pulls, and writes the job to that place of the slice, if there is one. It returns the place of the next.
fn pull_into(crew: &mut Scheduler, desk: &mut Desk, jobs: &mut [PtJob], place: usize) -> usize
    requires { place < length jobs.old }
    ensures does { SchedulerAttends crew.old desk.old.shard
        → PullsRow place jobs.old crew.old desk.old.shard result jobs.new crew.new desk.new.shard }
    ensures attends { SchedulerAttends crew.old desk.old.shard → SchedulerAttends crew.new desk.new.shard }
    ensures upholds { (past : Past) → SchedulerAttends crew.old desk.old.shard → SchedulerUpholds past crew.old desk.old.shard
        → SchedulerUpholds past crew.new desk.new.shard }
    ensures time { time_of (crew_of crew.new) ≡ time_of (crew_of crew.old) }
    ensures desk { desk_of crew.new ≡ desk_of crew.old }
    ensures len { length jobs.new ≡ length jobs.old }
    ensures within { result ≤ place + 1 }
    ensures goes_on { GoesOn desk.old desk.new }
{
    match crew.pull(desk) {
        Some(job) => {
            write_job(job, &mut jobs[place]);
            place + 1
        }
        None => place,
    }
}

/// Takes the answers in order, up to the first that is refused. It writes the number of those taken to `taken`, and
/// returns the code of the one that was refused, if there is one.
pub(crate) fn answer_all(crew: &mut Scheduler, answers: &[PtAnswer], taken: &mut usize) -> u32
    ensures does { TakesAnswers answers.now result taken.new crew.old crew.new }
    ensures keeps { KeepsCrew crew.old crew.new }
{
    for place in 0..answers.len() {
        let code = answer(crew, answers[place]);
        if code != DONE {
            *taken = place;
            return code;
        }
    }
    *taken = answers.len();
    DONE
}

/// Takes one answer.
fn answer(crew: &mut Scheduler, answer: PtAnswer) -> u32
    ensures does { AnswersOne answer result crew.old crew.new }
    ensures keeps { KeepsCrew crew.old crew.new }
{
    let Some(next) = next_in(answer.next) else {
        return BAD_CODE;
    };
    match crew.answer(pid_in(answer.pid), next) {
        Ok(true) => DONE,
        Ok(false) => NOT_RUNNING,
        Err(_) => MEMORY,
    }
}
