//! `pt_node`: the settings of a node, which are changed one by one. What a running node returns about its desks is in
//! `checks/tried/test_calls/living.rt.txt`.

use crate::compared::same;
use pt_node::Config;

const ONE_DESK: Config = Config {
    desks: 1,
    slots: 8,
    top_version: u32::MAX,
    lane: 8,
    ..Config::DEFAULT
};

#[test]
fn settings_are_changed_one_by_one(rt: HostRuntime) {
    let one_desk = Config::DEFAULT.with_desks(1).with_slots(8);
    let all_versions = one_desk.with_top_version(u32::MAX);
    same(&rt, all_versions.with_lane(8).with_start(0), ONE_DESK);
}
