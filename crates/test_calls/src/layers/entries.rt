//! `pt_entries`: a map in order of entry. `pt_process`: how many entries the lists of a process have. More is in
//! `checks/tried/test_calls/entries.rt.txt`.

use crate::compared::{holds, same};
use pt_entries::Entries;
use pt_process::Process;
use pt_signal::{Body, Item, LinkId, Pick, Pid, Ref, Signal};
use std::process::Abort;

/// The process in a slot of desk 0.
fn pid(slot: u32) -> Pid {
    Pid {
        shard: 0,
        slot,
        version: 1,
    }
}

const HELLO: Body = Body {
    kind: 1,
    num: 7,
    who: None,
};

/// A link, a monitor and a message.
fn meet(rt: &impl Abort, process: &mut Process) {
    let number = 3;
    holds(
        rt,
        process.add_link(pid(1), LinkId { desk: 0, number }).is_ok(),
    );
    holds(
        rt,
        process.add_monitor(Ref { desk: 0, number }, pid(2)).is_ok(),
    );
    holds(rt, process.accept(pid(1), Signal::Message(HELLO)).is_ok());
}

#[test]
fn a_process_counts_its_lists(rt: HostRuntime) {
    let mut process = Process::new(rt.alloc(), pid(0));
    meet(&rt, &mut process);
    same(&rt, process.links_len(), 1);
    same(&rt, process.monitors_len(), 1);
    same(&rt, process.watchers_len(), 0);
    same(
        &rt,
        process.first(Pick::Kind(1)),
        Some((0, Item::User(pid(1), HELLO))),
    );
}

#[test]
fn a_map_keeps_its_entries_in_order(rt: HostRuntime) {
    let mut entries: Entries<u32, u32> = Entries::new(rt.alloc());
    holds(&rt, entries.insert(1, 10).is_ok());
    holds(&rt, entries.insert(2, 20).is_ok());
    holds(&rt, entries.insert(3, 30).is_ok());
    same(&rt, entries.remove(&1), Some(10));
    same(&rt, entries.read(0), Some((2, 20)));
    same(&rt, entries.get(&3), Some(30));
}
