//! `pt_script`: the limits of scripts, as `docs/SCRIPTS.md` has them. What is read of a text is in
//! `checks/tried/pt_scripts/scripts.rt.txt`.

use crate::compared::same;
use pt_script::limits::{MAX_BYTES, MAX_DEPTH, MAX_NAME, MAX_OPERATIONS, MAX_PROCESSES};

#[test]
fn the_limits_are_those_of_the_format(rt: HostRuntime) {
    same(&rt, MAX_BYTES, 1_048_576);
    same(&rt, MAX_PROCESSES, 4_096);
    same(&rt, MAX_OPERATIONS, 65_536);
    same(&rt, MAX_DEPTH, 8);
    same(&rt, MAX_NAME, 32);
}
