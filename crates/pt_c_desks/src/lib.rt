//! Desks for C without their exports: the handles of desks, histories and settled nodes, and each call of a desk.
//!
//! A call takes the desk out of its handle, makes the call that has its name, with plain structs and codes, and puts the desk
//! back. `pt_c` exports these calls. They are in a library so that the gate proves them once: a static library keeps no
//! checked crate, so what is in `pt_c` is proved again when its archive is built.
//!
//! Who sleeps, and who wakes whom, is outside: [`letters_out`](letters::letters_out) says to which desks the next turn may
//! post, and [`has_letters`](letters::has_letters) whether a turn has something to do.
//!
//! Tests: `bindings/run.sh`.
//!
//! # What is proved
//!
//! - **Through handles.** A call returns the code of the call that it makes on its handle's value, and writes that call's
//!   answer. An empty handle is a code, too. (`CallsThrough`, `ReadsThrough`)
//! - **Failures.** If a call fails, each handle and each struct passed in is as it was.
//! - **Bad codes.** A pick or a reason with a code that means nothing is refused, before all that the desk would refuse,
//!   and nothing has changed. (`IfCrosses`)
//! - **Losses.** What a desk lost is read item by item, and each loss is passed once. (`Losing`)
//! - **Wake-ups.** `Woken` says which process is returned next. No event gives an item to any other process, or makes
//!   it exit. (`NobodyIsMissed`)
//! - **Letters.** The desks for which letters wait are told, each by its bit, and a turn posts to no others.
//!   (`desks_with`, `PostsWhereLettersWait`)
//! - **Lanes.** A program says which lane the next turn looks at first, and is told the first lane from there that shows a
//!   letter. (`LooksFrom`, `NextFromCode`)
//! - **Nothing to do.** A desk has no letters only if none waits in it, and no lane to it shows one. (`HasLetters`)
#![tactic(auto)]

pub mod desk_handle;
pub mod desks;
pub mod held;
pub mod history_handle;
pub mod letters;
pub mod looking;
pub mod losses;
pub mod quiet_handle;
pub mod quiet_node;
pub mod reads;
pub mod rows;
