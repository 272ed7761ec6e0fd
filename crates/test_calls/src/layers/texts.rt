//! `pt_texts`: one text of each kind of value is read back.

use crate::compared::{holds, same};
use pt_signal::{Body, Ids, LinkId, Pid, Reason, Ref};
use pt_texts::{
    parse_body, parse_event, parse_ids, parse_item, parse_left_over, parse_letter, parse_link_id,
    parse_pick, parse_pid, parse_reason, parse_ref, parse_signal, parse_stamped,
};

#[test]
fn names_are_read(rt: HostRuntime) {
    let pid = Pid {
        shard: 0,
        slot: 1,
        version: 1,
    };
    let one = LinkId { desk: 0, number: 6 };
    let two = LinkId { desk: 1, number: 4 };
    same(&rt, parse_pid(b"<0.1.1>"), Ok(pid));
    same(&rt, parse_ref(b"#0.4"), Ok(Ref { desk: 0, number: 4 }));
    same(&rt, parse_link_id(b"~1.4"), Ok(two));
    same(
        &rt,
        parse_ids(b"~0.6+~1.4"),
        Ok(Ids {
            one,
            two: Some(two),
        }),
    );
}

#[test]
fn what_is_sent_is_read(rt: HostRuntime) {
    let body = Body {
        kind: 1,
        num: -7,
        who: None,
    };
    same(&rt, parse_reason(b"killed"), Ok(Reason::Killed));
    same(&rt, parse_body(b"1 -7"), Ok(body));
    holds(&rt, parse_item(b"exit <0.1.1> killed").is_ok());
    holds(&rt, parse_pick(b"exit-of <0.1.1>").is_ok());
    holds(&rt, parse_signal(b"unlink ~0.6").is_ok());
}

#[test]
fn lines_are_read(rt: HostRuntime) {
    holds(
        &rt,
        parse_letter(b"<0.0.1> -> <1.0.1> message 1 1 @2").is_ok(),
    );
    holds(&rt, parse_event(b"left <0.1.1> normal").is_ok());
    holds(&rt, parse_stamped(b"1@0 born <0.0.1>").is_ok());
    holds(
        &rt,
        parse_left_over(b"left-over 0 -> 1 <0.0.1> -> <1.0.1> message 1 1 @2").is_ok(),
    );
}
