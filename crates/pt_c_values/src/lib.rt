//! The values of C: handles of one pointer, and plain structs and codes in place of enums and options.
//!
//! A handle is a struct of one pointer, null if it has nothing. Each type of handle is a struct of its own, since the
//! toolchain takes no type parameter there. Its proof is made of the lemmas here. The crates above make their calls with the
//! structs and codes, and `pt_c` exports those calls.
//!
//! Tests: `bindings/run.sh`.
//!
//! # What is proved
//!
//! - **Boxes.** A box and its pointer are made of each other, with the same value. (`Loose`)
//! - **Giving up.** `end_code` returns 0 if the handle had something, and else 9.
//! - **Structs.** Each value crosses to its struct and back. A field that has no meaning for a code is zero. (`Crossing`)
//! - **Codes.** Each failure has its code, and a struct whose code means nothing is no value. (`Codes`)
//! - **Samples.** The fields of a sample have the numbers 1, 2, 3 and so on, to be compared with a header. (`Samples`)
#![tactic(auto)]

pub mod codes;
pub mod crossing;
pub mod ending;
pub mod loose;
pub mod samples;
pub mod types;
