//! The layers below a node, each called by itself: `pt_slots`, `pt_process`, `pt_carrier`, `pt_history`, `pt_texts` and
//! `pt_script`, a module a layer; and the timers and names beside a node.

mod entries;
mod lanes;
mod names;
mod scripts;
mod slots;
mod states;
mod texts;
mod timers;
