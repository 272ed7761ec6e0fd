//! `pt_names`: a name that is given, found and forgotten.

use crate::compared::same;
use pt_names::{Name, Names};
use pt_signal::{Pid, Ref};

#[test]
fn a_name_is_given_and_forgotten(rt: HostRuntime) {
    let line = Name::new("line_1").expect(&rt, "a name");
    let pid = Pid {
        shard: 0,
        slot: 1,
        version: 1,
    };
    let monitor = Ref { desk: 0, number: 1 };
    let mut names = Names::new(rt.alloc());
    same(&rt, names.register(line, pid, monitor), Ok(()));
    same(&rt, names.whereis(line), Some(pid));
    same(&rt, names.name_of(pid), Some(line));
    same(&rt, names.forget(pid), Some(line));
    same(&rt, names.unregister(line), None);
    same(&rt, names.len(), 0);
}
