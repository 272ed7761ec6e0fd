//! The call that a name and the words after it ask for.

ghost use Rattle.std.specs.Prelude.{◌≡◌, map};
ghost use Rattle.pt_shell.specs.Calls as spec;
ghost use Rattle.pt_shell.specs.Words.{told_word};

use crate::lines::arguments::{
    desk, desk_and_number, desk_and_pid, desk_and_stamp, message, nothing, number, one_pid,
    pid_and_pick, pid_and_reason, pid_and_ref, pid_and_truth, pids_and_reason, two_pids, watch,
};
use crate::lines::call::{Act, Call, Look};
use crate::lines::mistake::Mistake;
use crate::lines::names::Names;
use crate::lines::settings::config_of;
use crate::lines::verb::{DeskVerb, LookVerb, PairVerb, ProcessVerb, Verb};
use crate::lines::word::Word;
use pt_signal::Config;

/// The call, if the words are those that it takes.
pub(crate) fn call_of(
    names: &Names,
    verb: Verb,
    words: &[Word<'_>],
    end: usize,
) -> Result<Call, Mistake>
    ensures { result ≡ spec.call_of Config.DEFAULT names.now verb (map told_word words.now) end }
{
    match verb {
        Verb::Open => Ok(Call::Open(config_of(words)?)),
        Verb::Bare(call) => {
            nothing(words, end)?;
            Ok(call)
        }
        Verb::Desk(verb) => call_of_desk(names, verb, words, end),
        Verb::Process(verb) => Ok(Call::Act(act_of_process(names, verb, words, end)?)),
        Verb::Pair(verb) => Ok(Call::Act(act_of_pair(names, verb, words, end)?)),
        Verb::Look(verb) => Ok(Call::Look(look_at_process(names, verb, words, end)?)),
    }
}

fn call_of_desk(
    names: &Names,
    verb: DeskVerb,
    words: &[Word<'_>],
    end: usize,
) -> Result<Call, Mistake>
    ensures { result ≡ spec.call_of_desk names.now verb (map told_word words.now) end }
{
    match verb {
        DeskVerb::Spawn => Ok(Call::Act(Act::Spawn(desk(words, end)?))),
        DeskVerb::Turn => {
            let (desk, budget) = desk_and_number(words, end)?;
            Ok(Call::Act(Act::Turn(desk, budget)))
        }
        DeskVerb::TurnAll => Ok(Call::Act(Act::TurnAll(number(words, end)?))),
        DeskVerb::TurnUntilStill => Ok(Call::Act(Act::TurnUntilStill(number(words, end)?))),
        DeskVerb::Clock => Ok(Call::Look(Look::Clock(desk(words, end)?))),
        DeskVerb::Pending => Ok(Call::Look(Look::Pending(desk(words, end)?))),
        DeskVerb::Journal => Ok(Call::Look(Look::Journal(desk(words, end)?))),
        DeskVerb::Event => {
            let (desk, stamp) = desk_and_stamp(words, end)?;
            Ok(Call::Look(Look::Event(desk, stamp)))
        }
        DeskVerb::Vacant => Ok(Call::Look(Look::Vacant(desk(words, end)?))),
        DeskVerb::Knows => {
            let (desk, pid) = desk_and_pid(names, words, end)?;
            Ok(Call::Look(Look::Knows(desk, pid)))
        }
    }
}

fn act_of_process(
    names: &Names,
    verb: ProcessVerb,
    words: &[Word<'_>],
    end: usize,
) -> Result<Act, Mistake>
    ensures { result ≡ spec.act_of_process names.now verb (map told_word words.now) end }
{
    match verb {
        ProcessVerb::SpawnChild => {
            let (parent, linked) = pid_and_truth(names, words, end)?;
            Ok(Act::SpawnChild(parent, linked))
        }
        ProcessVerb::Send => {
            let (from, to, body) = message(names, words, end)?;
            Ok(Act::Send(from, to, body))
        }
        ProcessVerb::ExitSignal => {
            let (from, to, reason) = pids_and_reason(names, words, end)?;
            Ok(Act::ExitSignal(from, to, reason))
        }
        ProcessVerb::Trap => {
            let (pid, on) = pid_and_truth(names, words, end)?;
            Ok(Act::Trap(pid, on))
        }
        ProcessVerb::Exit => {
            let (pid, reason) = pid_and_reason(names, words, end)?;
            Ok(Act::Exit(pid, reason))
        }
        ProcessVerb::Demonitor => {
            let (pid, monitor, flush) = watch(names, words, end)?;
            Ok(Act::Demonitor(pid, monitor, flush))
        }
        ProcessVerb::Receive => {
            let (pid, pick) = pid_and_pick(names, words, end)?;
            Ok(Act::Receive(pid, pick))
        }
    }
}

fn act_of_pair(
    names: &Names,
    verb: PairVerb,
    words: &[Word<'_>],
    end: usize,
) -> Result<Act, Mistake>
    ensures { result ≡ spec.act_of_pair names.now verb (map told_word words.now) end }
{
    let (pid, other) = two_pids(names, words, end)?;
    Ok(match verb {
        PairVerb::Link => Act::Link(pid, other),
        PairVerb::Unlink => Act::Unlink(pid, other),
        PairVerb::Monitor => Act::Monitor(pid, other),
        PairVerb::AskAlive => Act::AskAlive(pid, other),
    })
}

fn look_at_process(
    names: &Names,
    verb: LookVerb,
    words: &[Word<'_>],
    end: usize,
) -> Result<Look, Mistake>
    ensures { result ≡ spec.look_at_process names.now verb (map told_word words.now) end }
{
    match verb {
        LookVerb::Alive => Ok(Look::Alive(one_pid(names, words, end)?)),
        LookVerb::Waiting => Ok(Look::Waiting(one_pid(names, words, end)?)),
        LookVerb::Linked => {
            let (pid, peer) = two_pids(names, words, end)?;
            Ok(Look::Linked(pid, peer))
        }
        LookVerb::Watching => {
            let (pid, monitor) = pid_and_ref(names, words, end)?;
            Ok(Look::Watching(pid, monitor))
        }
        LookVerb::Kept => {
            let (pid, monitor) = pid_and_ref(names, words, end)?;
            Ok(Look::Kept(pid, monitor))
        }
        LookVerb::Account => Ok(Look::Account(one_pid(names, words, end)?)),
        LookVerb::Ended => Ok(Look::Ended(one_pid(names, words, end)?)),
    }
}
