//! The recipes of `example_uses`: those that work on a desk, and those that open a node themselves, or receive one.

mod on_a_desk;
mod on_nodes;
