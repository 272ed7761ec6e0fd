//! Samples of the structs of values: their fields have the numbers 1, 2, 3 and so on in order. So a header or a wrapper
//! can be compared with the library.

ghost use Rattle.std.specs.Prelude.{◌≡◌, ◌<◌};
ghost use Rattle.pt_c_values.specs.Samples.{sample_event, sample_left_over, sample_turned, sample_account, sample_loss};
ghost use Rattle.pt_c_values.specs.Samples.{sample_config, sample_pid, sample_ref, sample_reason, sample_ids, sample_body};
ghost use Rattle.pt_c_values.specs.Samples.{sample_pick, sample_item, sample_signal, sample_next, sample_job, sample_answer};

use crate::types::{
    PtAccount, PtAnswer, PtBody, PtConfig, PtEvent, PtIds, PtItem, PtJob, PtLeftOver, PtLoss,
    PtNext, PtPick, PtPid, PtReason, PtRef, PtSignal, PtTurned,
};

/// Writes a sample of an event: its fields have the numbers 1, 2, 3 and so on in order, a bool being true.
pub fn event(out: &mut PtEvent)
    ensures { out.new ≡ sample_event }
{
    *out = PtEvent {
        stamp: 1,
        desk: 2,
        has_peer: true,
        has_link: true,
        on: true,
        code: 6,
        pid: sample_pid(7),
        peer: sample_pid(10),
        link: sample_ref(13),
        reason: sample_reason(15),
        pick: sample_pick(17),
        item: sample_item(24),
        signal: sample_signal(39),
    };
}

/// Writes a sample of a letter left over: its fields have the numbers 1, 2, 3 and so on in order, and each bool is
/// true.
pub fn left_over(out: &mut PtLeftOver)
    ensures { out.new ≡ sample_left_over }
{
    *out = PtLeftOver {
        from_desk: 1,
        to_desk: 2,
        from: sample_pid(3),
        to: sample_pid(6),
        stamp: 9,
        signal: sample_signal(10),
    };
}

/// A pid whose fields have the numbers from this one on.
pub fn sample_pid(first: u8) -> PtPid
    ensures { result ≡ sample_pid first }
{
    let slot = first as u32 + 1;
    PtPid {
        shard: first,
        slot,
        version: slot + 1,
    }
}

/// A sample of this struct, whose fields have the numbers from this one on.
pub fn sample_ref(first: u8) -> PtRef
    ensures { result ≡ sample_ref first }
{
    PtRef {
        desk: first,
        number: first as u64 + 1,
    }
}

/// A sample of this struct, whose fields have the numbers from this one on.
pub fn sample_reason(first: u8) -> PtReason
    ensures { result ≡ sample_reason first }
{
    let code = first as u32;
    PtReason {
        code,
        number: code + 1,
    }
}

/// A sample of this struct, whose fields have the numbers from this one on.
pub fn sample_ids(first: u8) -> PtIds
    requires { first < 200 }
    ensures { result ≡ sample_ids first }
{
    PtIds {
        one: sample_ref(first),
        has_two: true,
        two: sample_ref(first + 3),
    }
}

/// A sample of this struct, whose fields have the numbers from this one on.
pub fn sample_body(first: u8) -> PtBody
    requires { first < 200 }
    ensures { result ≡ sample_body first }
{
    PtBody {
        kind: first as u32,
        num: first as i64 + 1,
        has_who: true,
        who: sample_pid(first + 3),
    }
}

/// A sample of this struct, whose fields have the numbers from this one on.
pub fn sample_pick(first: u8) -> PtPick
    requires { first < 200 }
    ensures { result ≡ sample_pick first }
{
    let code = first as u32;
    PtPick {
        code,
        kind: code + 1,
        pid: sample_pid(first + 2),
        reference: sample_ref(first + 5),
    }
}

/// A sample of this struct, whose fields have the numbers from this one on.
pub fn sample_item(first: u8) -> PtItem
    requires { first < 150 }
    ensures { result ≡ sample_item first }
{
    PtItem {
        code: first as u32,
        alive: true,
        pid: sample_pid(first + 2),
        reference: sample_ref(first + 5),
        reason: sample_reason(first + 7),
        body: sample_body(first + 9),
    }
}

/// A sample of this struct, whose fields have the numbers from this one on.
pub fn sample_signal(first: u8) -> PtSignal
    requires { first < 150 }
    ensures { result ≡ sample_signal first }
{
    PtSignal {
        code: first as u32,
        alive: true,
        reason: sample_reason(first + 2),
        reference: sample_ref(first + 4),
        ids: sample_ids(first + 6),
        body: sample_body(first + 11),
    }
}

/// Writes a sample of a turn: its fields have the numbers 1, 2, 3 and so on in order, a bool being true.
pub fn turned(out: &mut PtTurned)
    ensures { out.new ≡ sample_turned }
{
    *out = PtTurned {
        posted: 1,
        handled: 2,
        stopped: 3,
    };
}

/// Writes a sample of an account: its fields have the numbers 1, 2, 3 and so on in order, a bool being true.
pub fn account(out: &mut PtAccount)
    ensures { out.new ≡ sample_account }
{
    *out = PtAccount {
        has_ended: true,
        ended: PtReason { code: 2, number: 3 },
        arrived: 4,
        taken: 5,
        waiting: 6,
    };
}

/// Writes a sample of a loss: its fields have the numbers 1, 2, 3 and so on in order, a bool being true.
pub fn loss(out: &mut PtLoss)
    ensures { out.new ≡ sample_loss }
{
    *out = PtLoss {
        has_exited: true,
        pid: sample_pid(2),
        reason: PtReason { code: 5, number: 6 },
        items: 7,
    };
}

/// Writes a sample of settings: its fields have the numbers 1, 2, 3 and so on in order, and each bool is true.
pub fn config(out: &mut PtConfig)
    ensures { out.new ≡ sample_config }
{
    *out = PtConfig {
        slots: 1,
        top_version: 2,
        lane: 3,
        start: 4,
    };
}

/// Writes a sample of a job: its fields have the numbers 1, 2, 3 and so on in order, a bool being true.
pub fn job(out: &mut PtJob)
    ensures { out.new ≡ sample_job }
{
    *out = PtJob {
        code: 1,
        pid: sample_pid(2),
        tag: 5,
        item: sample_item(6),
        reason: sample_reason(21),
        was: sample_next(23),
        has_supervisor: true,
        again: true,
        supervisor: sample_pid(36),
    };
}

/// Writes a sample of an answer: its fields have the numbers 1, 2, 3 and so on in order.
pub fn answer(out: &mut PtAnswer)
    ensures { out.new ≡ sample_answer }
{
    *out = PtAnswer {
        pid: sample_pid(1),
        next: sample_next(4),
    };
}

/// A sample of this struct, whose fields have the numbers from this one on.
pub fn sample_next(first: u8) -> PtNext
    requires { first < 150 }
    ensures { result ≡ sample_next first }
{
    PtNext {
        code: first as u32,
        reason: sample_reason(first + 1),
        until: first as u64 + 3,
        pick: sample_pick(first + 4),
    }
}
