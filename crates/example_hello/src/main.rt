//! The program of the README: a process watches another, and hears how it ended.
#![tactic(auto)]

use anyhow::Result;
use pt_node::{Config, Item, Node, NodeFault, Pick, Reason};

/// A worker ends, and its watcher gets the `DOWN`.
fn watch(node: &mut Node) -> Result<Option<Item>, NodeFault> {
    let watcher = node.spawn(0)?;
    let worker = node.spawn(0)?;
    let monitor = node.monitor(watcher, worker)?;
    let _ = node.turn_all(16); // the monitor comes to the worker
    node.exit(worker, Reason::Other(7))?;
    let _ = node.turn_all(16); // its DOWN comes to the watcher
    node.receive(watcher, Pick::DownOf(monitor))
}

fn main(rt: HostRuntime) -> Result<()> {
    let mut node = Node::open(rt.alloc(), Config::DEFAULT.with_slots(8))?;
    if let Some(down) = watch(&mut node)? {
        println!(rt; "{down}")?;
    }
    for event in node.gather()?.history()? {
        println!(rt; "{event}")?;
    }
    Ok(())
}
